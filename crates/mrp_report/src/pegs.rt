//! The report of pegs: its peg rows, the terms of a gross requirement.

ghost use Rattle.std.specs.Prelude.{◌≡◌, ◌++◌, Err, OnOk, IfOk, IfErr, All};
ghost use Rattle.mrp_master_data.specs.Table.{IsPair};
ghost use Rattle.mrp_csv_out.specs.Headings.{header_row};
ghost use Rattle.mrp_report.specs.Headings.{peg_names};
ghost use Rattle.mrp_csv_out.specs.Writing.{IsBetweenRows, written};
ghost use Rattle.mrp_csv_out.specs.Sent.{SendsReport};
ghost use Rattle.mrp_report.specs.Terms.{peg_row, peg_text, per_text, source_word};

use crate::before::write_per;
use csv::Writer;
use itoa::Buffer;
use mrp_commands::Heading;
use mrp_csv_out::{ReportFault, put_names, put_row, room_for, send, text_of};
use mrp_loops::SizedNet;
use mrp_net::Network;
use mrp_plan::{PegSource, PegTerm};
use std::alloc::Global;
use std::io::Write;

/// The most bytes of a row: two words, two names of 20, two quantities of 16, two factors of 7 digits
/// with a slash between, the commas and the line feed.
const LONGEST_ROW: usize = 103;

/// The most bytes of the pieces for so many parents: two numbers of 20 digits and a slash.
const LONGEST_PER: usize = 41;

/// Writes a row for each term in its order: `peg`, the source (`demand`, `bill` or `plant`), plant and
/// item of the pair that asks, its release, the pieces for each piece of it as `2`, or for so many of it
/// as `103/100`, and the pieces that are asked.
///
/// Each term names a pair of the network. The names of the columns stand above the terms where `heading`
/// says so.
///
/// # Errors
///
/// - [`ReportFault::WriteFault`] where a write fails or takes nothing; a prefix of the report is
///   written.
/// - [`ReportFault::Memory`] where the room for the report is refused; nothing is written.
pub fn peg_rows<W: Write>(
    alloc: Global,
    net: &SizedNet<'_>,
    terms: &[PegTerm],
    heading: Heading,
    out: &mut W,
) -> Result<(), ReportFault>
    requires { All (λ term. IsPair net.now.network term.pair.0) terms.now }
    ensures text { SendsReport (W.contents out.old) (W.contents out.new) result
        (header_row heading peg_names ++ peg_text net.now.network terms.now) }
    ensures untouched { result ≡ Err ReportFault.Memory → out.new ≡ out.old }
{
    let text = peg_text(alloc, net.network(), terms, heading)?;
    send(text.as_slice(), out)
}

/// The rows of the terms as bytes.
fn peg_text(
    alloc: Global,
    network: &Network,
    terms: &[PegTerm],
    heading: Heading,
) -> Result<Vec<u8>, ReportFault>
    requires { All (λ term. IsPair network.now term.pair.0) terms.now }
    ensures text { IfOk result (λ text. text.items ≡ header_row heading peg_names ++ peg_text network.now terms.now) }
    ensures fault { IfErr result (λ fault. fault ≡ ReportFault.Memory) }
{
    let mut rows = room_for(alloc, terms.len(), LONGEST_ROW)?;
    put_names(
        &mut rows,
        heading,
        &[
            b"row",
            b"source",
            b"plant",
            b"item",
            b"release",
            b"per",
            b"quantity",
        ],
    )?;
    'terms: for term in terms {
        put_term(&mut rows, network, *term)?;
    }
    text_of(rows)
}

/// What a row calls the source of a term.
pub(crate) fn source_word<'a>(source: PegSource) -> &'a [u8]
    ensures { result.now ≡ source_word source }
{
    match source {
        PegSource::Demand => b"demand",
        PegSource::Bill => b"bill",
        PegSource::Plant => b"plant",
    }
}

/// The pieces for so many parents as a row has them, written into `room`.
fn per_field(room: &mut [u8; LONGEST_PER], per: u64, base: u64) -> &[u8]
    ensures { result.now ≡ per_text per base }
{
    let start = write_per(room, LONGEST_PER, per, base);
    &room[start..]
}

/// Adds the row of a term.
fn put_term<'a>(
    rows: &mut Writer<Vec<u8>>,
    network: &'a Network,
    term: PegTerm,
) -> Result<(), ReportFault>
    requires between { IsBetweenRows rows.old }
    requires pair { IsPair network.now term.pair.0 }
    ensures row { OnOk result (written rows.new ≡ written rows.old ++ peg_row network.now term) }
    ensures between { OnOk result (IsBetweenRows rows.new) }
    ensures fault { IfErr result (λ fault. fault ≡ ReportFault.Memory) }
{
    let (plant, item) = network.pair_name(term.pair);
    let mut release = Buffer::new();
    let mut per = [0; LONGEST_PER];
    let mut quantity = Buffer::new();
    put_row(
        rows,
        &[
            b"peg",
            source_word(term.source),
            plant.as_bytes(),
            item.as_bytes(),
            release.format(term.release).as_bytes(),
            per_field(&mut per, term.per, term.base),
            quantity.format(term.quantity).as_bytes(),
        ],
    )
}
