//! Records as CSV, read from rows.

ghost use Rattle.std.specs.Prelude.{true, false, ◌≡◌, ◌+◌, ◌≤◌, ◌<◌, [], length, IfOk, IfErr, OnOk, OnErr};
ghost use Rattle.std.specs.Prelude.{option_map};
ghost use Rattle.csv.specs.Reading.{has_failed, strip_bom};
ghost use Rattle.csv.specs.Records.{AllText, fields_of};
ghost use Rattle.mrp_validation.specs.Left.{GivesAll, MayCome, OfLeft, rows_left};
ghost use Rattle.mrp_validation.specs.Written.{OfRecords};
ghost use Rattle.mrp_record_csv.specs.Left.{record_fault_of, is_of_row, StopsReading};
ghost use Rattle.mrp_record_csv.specs.Left.{TellsNextRecord, TellsTakenRecord};
ghost use Rattle.mrp_master_data.specs.Table.{Table};
ghost use Rattle.mrp_net.specs.Lanes.{lane_at, lanes};
ghost use Rattle.mrp_net.specs.Texts.{longest_text};
ghost use Rattle.mrp_record_csv.specs.Most.{HasLane, most_records};
ghost use Rattle.mrp_record_csv.specs.Reading.{AreRowsOf, HasFault};

use crate::items::NamedItems;
use crate::most::Most;
use crate::spelled::spelled_record;
use crate::{RecordFault, RecordFaultKind};
use csv::{ErrorKind, Reader, ReaderBuilder, StringRecord};
use mrp_net::{LaneNo, Network};
use mrp_qty::{MOST, MOST_RECORDS};
use mrp_record::Record;
use std::alloc::Global;
use std::io::Read;

/// Reads the records of a text, a row each, at most [`MOST_RECORDS`]. A text without rows has none.
///
/// Whether numbers are in their ranges, and whether one record follows from those before it, is for a
/// book to say. [`read_lane_records`] takes as many as the text of a lane can have, which may be more.
///
/// # Errors
///
/// The first fault of the first row that has one, as [`RecordFaultKind`] says. Where the room for the names
/// of the items is refused before a row is read, it is that of row 1.
pub fn read_records<R: Read + Drop>(
    alloc: Global,
    network: &Network,
    reader: R,
) -> Result<Vec<Record>, RecordFault>
    ensures records { IfOk result (λ records. OfRecords (option_map strip_bom (R.remaining reader))
        (λ rows. AreRowsOf MOST_RECORDS network.now rows records.items)) }
    ensures fault { IfErr result (λ fault. OfRecords (option_map strip_bom (R.remaining reader))
        (λ rows. HasFault MOST_RECORDS network.now rows fault)) }
    ensures few { IfOk result (λ records. length records.items ≤ MOST_RECORDS) }
{
    read_at_most(alloc, network, Most::Fixed, reader)
}

/// Reads the records of a text of a lane, a row each, as [`read_records`] does, but at most as many as a text of
/// the lane can have, as [`Network::longest_text`] says.
///
/// # Errors
///
/// Those of [`read_records`]; a row more than the lane's text can have is [`RecordFaultKind::ReadFault`].
pub fn read_lane_records<R: Read + Drop>(
    alloc: Global,
    network: &Network,
    lane: LaneNo,
    reader: R,
) -> Result<Vec<Record>, RecordFault>
    requires { lane.0 < length (lanes network.now) }
    ensures records { IfOk result (λ records. OfRecords (option_map strip_bom (R.remaining reader))
        (λ rows. AreRowsOf (longest_text network.now (lane_at network.now lane.0)) network.now rows records.items)) }
    ensures fault { IfErr result (λ fault. OfRecords (option_map strip_bom (R.remaining reader))
        (λ rows. HasFault (longest_text network.now (lane_at network.now lane.0)) network.now rows fault)) }
    ensures few { IfOk result (λ records.
        length records.items ≤ longest_text network.now (lane_at network.now lane.0)) }
{
    read_at_most(alloc, network, Most::OfLane(lane), reader)
}

/// Reads the records of a text, a row each, at most so many.
fn read_at_most<R: Read + Drop>(
    alloc: Global,
    network: &Network,
    most: Most,
    reader: R,
) -> Result<Vec<Record>, RecordFault>
    requires { HasLane network.now most }
    ensures records { IfOk result (λ records. OfRecords (option_map strip_bom (R.remaining reader))
        (λ rows. AreRowsOf (most_records network.now most) network.now rows records.items)) }
    ensures fault { IfErr result (λ fault. OfRecords (option_map strip_bom (R.remaining reader))
        (λ rows. HasFault (most_records network.now most) network.now rows fault)) }
    ensures few { IfOk result (λ records. length records.items ≤ most_records network.now most) }
{
    let items = match NamedItems::of(alloc, network) {
        Ok(items) => items,
        Err(kind) => return Err(RecordFault { row: 1, kind }),
    };
    let mut rows = ReaderBuilder::new()
        .has_headers(false)
        .flexible(true)
        .from_reader(alloc, reader);
    let mut records = Vec::new(alloc);
    read_rows(alloc, &items, most, &mut rows, &mut records)?;
    Ok(records)
}

/// Reads all rows, at most as many as is said, and puts their records into a list that has none. That a row is one too
/// many is answered where it is, and nowhere else.
fn read_rows<R: Read>(
    alloc: Global,
    items: &NamedItems<'_>,
    most: Most,
    rows: &mut Reader<R>,
    records: &mut Vec<Record>,
) -> Result<(), RecordFault>
    requires gives { GivesAll rows.old }
    requires lane { HasLane items.now most }
    requires none { records.old.items ≡ [] }
    ensures records { OnOk result (OfLeft (rows_left R.remaining rows.old)
        (λ rows. AreRowsOf (most_records items.now most) items.now rows records.new.items)) }
    ensures fault { IfErr result (λ fault. OfLeft (rows_left R.remaining rows.old)
        (λ rows. HasFault (most_records items.now most) items.now rows fault)) }
    ensures failed { IfErr result (λ e. StopsReading e.kind (has_failed rows.new)
        (e.row ≡ most_records items.now most + 1) (most_records items.now most)
        (rows_left R.remaining rows.old)) }
    ensures few { OnOk result (length records.new.items ≤ most_records items.now most) }
{
    read_up_to(alloc, items, items.most(most), rows, records)
}

/// Reads all rows, at most so many, and puts their records into a list that has none. A fault's row is
/// the one after those of the records that it then has.
fn read_up_to<R: Read>(
    alloc: Global,
    items: &NamedItems<'_>,
    most: u64,
    rows: &mut Reader<R>,
    records: &mut Vec<Record>,
) -> Result<(), RecordFault>
    requires gives { GivesAll rows.old }
    requires short { most ≤ MOST }
    requires none { records.old.items ≡ [] }
    ensures records { OnOk result (OfLeft (rows_left R.remaining rows.old)
        (λ rows. AreRowsOf most items.now rows records.new.items)) }
    ensures fault { IfErr result (λ fault. OfLeft (rows_left R.remaining rows.old)
        (λ rows. HasFault most items.now rows fault)) }
    ensures row { IfErr result (λ fault. fault.row ≡ length records.new.items + 1) }
    ensures failed { IfErr result (λ e. StopsReading e.kind (has_failed rows.new)
        (e.row ≡ most + 1) most (rows_left R.remaining rows.old)) }
    ensures few { OnOk result (length records.new.items ≤ most) }
{
    let mut row = StringRecord::new(alloc);
    for number in 1..most + 2 {
        match read_next(items, most, rows, &mut row, records) {
            Ok(true) => {}
            Ok(false) => return Ok(()),
            Err(kind) => return Err(RecordFault { row: number, kind }),
        }
    }
    unreachable!()
}

/// Reads the record of the next row, if there is one, and puts it behind the others, of which there are to be at most
/// so many.
fn read_next<R: Read>(
    items: &NamedItems<'_>,
    most: u64,
    rows: &mut Reader<R>,
    row: &mut StringRecord,
    records: &mut Vec<Record>,
) -> Result<bool, RecordFaultKind>
    requires gives { GivesAll rows.old }
    ensures gives { OnOk result (GivesAll rows.new) }
    ensures exact { TellsNextRecord most items.now (rows_left R.remaining rows.old)
        (rows_left R.remaining rows.new) records.old.items records.new.items result }
    ensures kept { OnErr result (records.new.items ≡ records.old.items) }
    ensures failed { IfErr result (λ kind. StopsReading kind (has_failed rows.new)
        (most ≤ length records.old.items) 0
        (rows_left R.remaining rows.old)) }
{
    let full = most <= records.len() as u64;
    if !next_row(rows, row, full)? {
        return Ok(false);
    }
    records.push(spelled_record(items, row)?)?;
    Ok(true)
}

/// Takes the next row, if there is one. After the last that may be read there is to be none.
fn next_row<R: Read>(
    rows: &mut Reader<R>,
    row: &mut StringRecord,
    full: bool,
) -> Result<bool, RecordFaultKind>
    requires gives { GivesAll rows.old }
    ensures gives { OnOk result (GivesAll rows.new) }
    ensures text { OnOk result (AllText (fields_of row.new)) }
    ensures exact { (N : Table) → TellsTakenRecord N (rows_left R.remaining rows.old) (rows_left R.remaining rows.new)
        (fields_of row.new) result }
    ensures failed { IfErr result (λ kind. StopsReading kind (has_failed rows.new) (full ≡ true) 0
        (rows_left R.remaining rows.old)) }
    ensures room { full ≡ true → is_of_row result ≡ false }
{
    let answer = take_row(rows, row);
    if full && is_of_row(&answer) {
        return Err(RecordFaultKind::ReadFault);
    }
    answer
}

/// Whether an answer is of a row, good or bad.
fn is_of_row(answer: &Result<bool, RecordFaultKind>) -> bool
    ensures { result ≡ is_of_row answer.now }
{
    match answer {
        Ok(found) => *found,
        Err(RecordFaultKind::ReadFault | RecordFaultKind::Memory) => false,
        Err(_) => true,
    }
}

/// Takes the next row, if there is one.
fn take_row<R: Read>(rows: &mut Reader<R>, row: &mut StringRecord) -> Result<bool, RecordFaultKind>
    requires gives { GivesAll rows.old }
    ensures gives { OnOk result (GivesAll rows.new) }
    ensures text { OnOk result (AllText (fields_of row.new)) }
    ensures exact { (N : Table) → TellsTakenRecord N (rows_left R.remaining rows.old) (rows_left R.remaining rows.new)
        (fields_of row.new) result }
    ensures failed { IfErr result (λ kind. kind ≡ RecordFaultKind.ReadFault → has_failed rows.new ≡ true) }
{
    match rows.read_record(row) {
        Ok(found) => Ok(found),
        Err(error) => Err(read_fault(error.kind())),
    }
}

/// What an error of the reading is called. A row of a wrong length is none: rows come as they are.
fn read_fault(error: &ErrorKind) -> RecordFaultKind
    requires comes { MayCome error.now }
    ensures value { result ≡ record_fault_of error.now }
{
    match error {
        ErrorKind::Utf8 { .. } => RecordFaultKind::NotUtf8,
        ErrorKind::OutOfMemory => RecordFaultKind::Memory,
        ErrorKind::Io(_) => RecordFaultKind::ReadFault,
        ErrorKind::UnequalLengths { .. } => unreachable!(),
        ErrorKind::Serialize(_) => unreachable!(),
        ErrorKind::Deserialize { .. } => unreachable!(),
    }
}
