//! The report of cumulative figures: the lane rows, one for each item of each lane.

ghost use Rattle.std.specs.Prelude.{◌≡◌, ◌++◌, ◌<◌, Err, OnOk, IfOk, IfErr, All, length};
ghost use Rattle.mrp_net.specs.Lanes.{lanes};
ghost use Rattle.mrp_csv_out.specs.Headings.{header_row};
ghost use Rattle.mrp_report.specs.Headings.{lane_names};
ghost use Rattle.mrp_book.specs.LaneFigures.{IsLaneFigure};
ghost use Rattle.mrp_report.specs.Lanes.{lane_kind_word, lane_row, lane_text};
ghost use Rattle.mrp_csv_out.specs.Writing.{IsBetweenRows, written};
ghost use Rattle.mrp_csv_out.specs.Sent.{SendsReport};

use csv::Writer;
use itoa::Buffer;
use mrp_book::LaneFigure;
use mrp_commands::Heading;
use mrp_csv_out::{ReportFault, put_names, put_row, room_for, send, text_of};
use mrp_net::{LaneKind, Network};
use std::alloc::Global;
use std::io::Write;

/// The most bytes of a row: two words, three names of 20, four figures of 16, the commas and the line
/// feed.
const LONGEST_ROW: usize = 145;

/// Writes a row for each figure in its order: `lane`, the lane's kind (`despatch` or `schedule`), its
/// sender and its receiver, the item, and in pieces the opening figure, the figure shipped, the figure
/// received, and what is in transit, their difference.
///
/// Each figure is of a lane and an item of the network, and has no more received than shipped. The names
/// of the columns stand above them where `heading` says so.
///
/// # Errors
///
/// - [`ReportFault::WriteFault`] where a write fails or takes nothing; a prefix of the report is
///   written.
/// - [`ReportFault::Memory`] where the room for the report is refused; nothing is written.
pub fn lane_rows<W: Write>(
    alloc: Global,
    network: &Network,
    figures: &[LaneFigure],
    heading: Heading,
    out: &mut W,
) -> Result<(), ReportFault>
    requires { All (IsLaneFigure network.now) figures.now }
    ensures text { SendsReport (W.contents out.old) (W.contents out.new) result
        (header_row heading lane_names ++ lane_text network.now figures.now) }
    ensures untouched { result ≡ Err ReportFault.Memory → out.new ≡ out.old }
{
    let text = lane_text(alloc, network, figures, heading)?;
    send(text.as_slice(), out)
}

/// The rows of the figures as bytes.
fn lane_text(
    alloc: Global,
    network: &Network,
    figures: &[LaneFigure],
    heading: Heading,
) -> Result<Vec<u8>, ReportFault>
    requires { All (IsLaneFigure network.now) figures.now }
    ensures text { IfOk result (λ text. text.items ≡ header_row heading lane_names
        ++ lane_text network.now figures.now) }
    ensures fault { IfErr result (λ fault. fault ≡ ReportFault.Memory) }
{
    let mut rows = room_for(alloc, figures.len(), LONGEST_ROW)?;
    put_names(
        &mut rows,
        heading,
        &[
            b"row",
            b"kind",
            b"sender",
            b"receiver",
            b"item",
            b"opening",
            b"shipped",
            b"received",
            b"transit",
        ],
    )?;
    'figures: for figure in figures {
        put_figure(&mut rows, network, *figure)?;
    }
    text_of(rows)
}

/// What a row calls the kind of a lane.
fn kind_word<'a>(kind: LaneKind) -> &'a [u8]
    ensures { result.now ≡ lane_kind_word kind }
{
    match kind {
        LaneKind::Despatch => b"despatch",
        LaneKind::Schedule => b"schedule",
    }
}

/// Adds the row of a figure.
fn put_figure<'a>(
    rows: &mut Writer<Vec<u8>>,
    network: &'a Network,
    figure: LaneFigure,
) -> Result<(), ReportFault>
    requires between { IsBetweenRows rows.old }
    requires figure { IsLaneFigure network.now figure }
    ensures row { OnOk result (written rows.new ≡ written rows.old ++ lane_row network.now figure) }
    ensures between { OnOk result (IsBetweenRows rows.new) }
    ensures fault { IfErr result (λ fault. fault ≡ ReportFault.Memory) }
{
    let lane = network.lane(figure.lane);
    let mut opening = Buffer::new();
    let mut shipped = Buffer::new();
    let mut received = Buffer::new();
    let mut transit = Buffer::new();
    put_row(
        rows,
        &[
            b"lane",
            kind_word(lane.kind),
            network.plant_name(lane.sender).as_bytes(),
            network.plant_name(lane.receiver).as_bytes(),
            network.item_name(figure.item).as_bytes(),
            opening.format(figure.opening.get()).as_bytes(),
            shipped.format(figure.shipped.get()).as_bytes(),
            received.format(figure.received.get()).as_bytes(),
            transit
                .format(figure.shipped.get() - figure.received.get())
                .as_bytes(),
        ],
    )
}
