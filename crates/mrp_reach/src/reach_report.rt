//! Reach: its rows, until when the plan of each pair is whole.

ghost use Rattle.std.specs.Prelude.{◌≡◌, ◌++◌, Err, OnOk, IfOk, IfErr};
ghost use Rattle.mrp_master_data.specs.Table.{IsPair};
ghost use Rattle.mrp_csv_out.specs.Writing.{IsBetweenRows, written};
ghost use Rattle.mrp_csv_out.specs.Sent.{SendsReport};
ghost use Rattle.mrp_reach.specs.Reach.{AreWhole};
ghost use Rattle.mrp_reach.specs.ReachRows.{last_text, reach_row, reach_text};

use crate::releases_whole;
use csv::Writer;
use itoa::Buffer;
use mrp_commands::Heading;
use mrp_csv_out::{ReportFault, put_names, put_row, room_for, send, text_of};
use mrp_loops::SizedNet;
use mrp_net::{Network, PairNo};
use std::alloc::Global;
use std::io::Write;

/// The most bytes of a row: the word, two names of 20, two periods of 3 digits or the word `none`, the commas and the
/// line feed.
const LONGEST_ROW: usize = 58;

/// Writes a row for each pair in table order: `reach`, plant, item, the last period in which its gross requirements are
/// whole, and the last one in which its releases are; `none` where there is none. `wholes` are the whole periods of the
/// network. The names of the columns stand above them where `heading` says so.
///
/// # Errors
///
/// - [`ReportFault::WriteFault`] where a write fails or takes nothing; a prefix of the report is written.
/// - [`ReportFault::Memory`] where the room for the report is refused; nothing is written.
pub fn reach_rows<W: Write>(
    alloc: Global,
    net: &SizedNet<'_>,
    wholes: &[usize],
    heading: Heading,
    out: &mut W,
) -> Result<(), ReportFault>
    requires { AreWhole net.now.network wholes.now }
    ensures text { SendsReport (W.contents out.old) (W.contents out.new) result
        (reach_text heading net.now.network wholes.now) }
    ensures untouched { result ≡ Err ReportFault.Memory → out.new ≡ out.old }
{
    let text = reach_text(alloc, net.network(), wholes, heading)?;
    send(text.as_slice(), out)
}

/// The reach rows as bytes.
fn reach_text(
    alloc: Global,
    network: &Network,
    wholes: &[usize],
    heading: Heading,
) -> Result<Vec<u8>, ReportFault>
    requires { AreWhole network.now wholes.now }
    ensures text { IfOk result (λ text. text.items ≡ reach_text heading network.now wholes.now) }
    ensures fault { IfErr result (λ fault. fault ≡ ReportFault.Memory) }
{
    let mut rows = room_for(alloc, network.pairs(), LONGEST_ROW)?;
    put_names(
        &mut rows,
        heading,
        &[b"row", b"plant", b"item", b"period", b"release"],
    )?;
    'pairs: for x in 0..network.pairs() {
        put_reach(&mut rows, network, wholes, PairNo(x))?;
    }
    text_of(rows)
}

/// Adds the row of a pair.
fn put_reach(
    rows: &mut Writer<Vec<u8>>,
    network: &Network,
    wholes: &[usize],
    x: PairNo,
) -> Result<(), ReportFault>
    requires between { IsBetweenRows rows.old }
    requires pair { IsPair network.now x.0 }
    requires wholes { AreWhole network.now wholes.now }
    ensures row { OnOk result (written rows.new ≡ written rows.old ++ reach_row network.now wholes.now x.0) }
    ensures between { OnOk result (IsBetweenRows rows.new) }
    ensures fault { IfErr result (λ fault. fault ≡ ReportFault.Memory) }
{
    let whole = wholes[x.0];
    let (plant, item) = network.pair_name(x);
    let mut period = Buffer::new();
    let mut release = Buffer::new();
    put_row(
        rows,
        &[
            b"reach",
            plant.as_bytes(),
            item.as_bytes(),
            last_text(&mut period, whole),
            last_text(&mut release, releases_whole(network, x, whole)),
        ],
    )
}

/// The last of so many periods, which count from 0, or `none` where there is none.
fn last_text(digits: &mut Buffer, periods: usize) -> &[u8]
    ensures { result.now ≡ last_text periods }
{
    if periods == 0 {
        return b"none";
    }
    digits.format(periods - 1).as_bytes()
}
