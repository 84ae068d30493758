//! Reading a table from a text of csv rows.

ghost use Rattle.std.specs.Prelude.{◌≡◌, ◌+◌, ◌≤◌, ◌<◌, max, true, false, [], length, Ok, Err, MatchResult, IfOk};
ghost use Rattle.std.specs.Prelude.{◌&&◌, not, IfErr, OnOk, option_map};
ghost use Rattle.csv.specs.Reading.{has_failed, strip_bom};
ghost use Rattle.csv.specs.Records.{AllText, fields_of};
ghost use Rattle.mrp_tables.specs.Lists.{IsDraft};
ghost use Rattle.mrp_qty.specs.Limits.{limits_of};
ghost use Rattle.mrp_qty.specs.declared.limits.LimitSet.TheVariants as set;
ghost use Rattle.mrp_qty.specs.declared.limits.TheConstants.{MAX_TURNS};
ghost use Rattle.mrp_master_data.specs.Table.{most};
ghost use Rattle.mrp_validation.specs.Reading.{go_on, TellsRows, TellsRowsAs, uncut, waiting};
ghost use Rattle.mrp_validation.specs.Written.{OfRecords};
ghost use Rattle.mrp_tables.specs.Steps.{HasWaited, StepsTo, UnlessMissing};
ghost use Rattle.mrp_master_data.specs.Turns.{row_count};
ghost use Rattle.mrp_validation.specs.Left.{fault_of, GivesAll, MayCome, OfLeft, TellsNext, TellsRest, TellsTaken};
ghost use Rattle.mrp_validation.specs.Left.{rows_left};
ghost use Rattle.mrp_tables.specs.Drafts.{IsDraftKept, TellsFirstAt, draft_state};

use crate::Steps;
use crate::draft::Draft;
use csv::{ErrorKind, Reader, ReaderBuilder, StringRecord};
use mrp_commands::Reading;
use mrp_master_data::Tables;
use mrp_qty::LimitSet;
use mrp_validation::{TableFault, TableFaultKind};
use std::alloc::Global;
use std::io::Read;
use std::marker::Brand;
use std::mem;
use std::sync::ledger::{Blank, Ledger};

/// Reads a table. Each turn of reading is one step: one a row, and one for the end of the table. At a
/// fault there was a step for each row up to the one that it names, and one at least; where the pair of a
/// source is missing, which is told after the last row, at most one for each row and one for the end.
///
/// # Errors
///
/// The first fault of the first row that has one, as [`TableFaultKind`] says. Where the reader failed
/// or memory was refused, it names the row that was awaited or kept, and those above it have no fault.
pub fn read_tables<R: Read + Drop, L: Ledger>(
    alloc: Global,
    reader: R,
    steps: &mut Steps<L>,
) -> Result<Tables, TableFault>
    ensures table { OfRecords (option_map strip_bom (R.remaining reader)) (TellsRows set.Usual result) }
    ensures limits { IfOk result (λ tables. tables.limits ≡ set.Usual) }
    ensures counted { IfOk result (λ tables. steps.new ≡ steps.old + row_count tables + 1) }
    ensures named { IfErr result (λ fault. UnlessMissing fault.kind (steps.new ≡ steps.old + max 1 fault.row)) }
    ensures ends { IfErr result (λ fault. OfRecords (option_map strip_bom (R.remaining reader))
        (StepsTo steps.old steps.new fault.row)) }
    ensures least { IfErr result (λ fault. steps.old + max 1 fault.row ≤ steps.new) }
    ensures turns { steps.new ≤ steps.old + MAX_TURNS }
{
    let reading = Reading {
        whole: false,
        limits: LimitSet::Usual,
    };
    read_tables_as(alloc, reading, reader, steps)
}

/// Reads a table as [`read_tables`] does, and as it is asked for: where it has to be whole, one that does not end with
/// an `end` row is refused.
///
/// # Errors
///
/// Those of [`read_tables`], and last [`Cut`](TableFaultKind::Cut), which names the row behind the last.
pub fn read_tables_as<R: Read + Drop, L: Ledger>(
    alloc: Global,
    reading: Reading,
    reader: R,
    steps: &mut Steps<L>,
) -> Result<Tables, TableFault>
    ensures table { OfRecords (option_map strip_bom (R.remaining reader)) (TellsRowsAs reading result) }
    ensures whole { IfOk result (λ tables. reading.whole ≡ true → tables.ended ≡ true) }
    ensures limits { IfOk result (λ tables. tables.limits ≡ reading.limits) }
    ensures counted { IfOk result (λ tables. steps.new ≡ steps.old + row_count tables + 1) }
    ensures named { IfErr result (λ fault. UnlessMissing fault.kind (steps.new ≡ steps.old + max 1 fault.row)) }
    ensures ends { IfErr result (λ fault. OfRecords (option_map strip_bom (R.remaining reader))
        (StepsTo steps.old steps.new fault.row)) }
    ensures least { IfErr result (λ fault. steps.old + max 1 fault.row ≤ steps.new) }
    ensures turns { steps.new ≤ steps.old + (limits_of reading.limits).turns }
{
    let mut rows = ReaderBuilder::new()
        .has_headers(false)
        .flexible(true)
        .from_reader(alloc, reader);
    read_rows(alloc, reading, &mut rows, steps)
}

/// Reads a table as [`read_tables_as`] does, and tells no count of its steps.
///
/// # Errors
///
/// Those of [`read_tables_as`].
pub fn read_tables_uncounted<R: Read + Drop>(
    alloc: Global,
    reading: Reading,
    reader: R,
) -> Result<Tables, TableFault>
    ensures table { OfRecords (option_map strip_bom (R.remaining reader)) (TellsRowsAs reading result) }
    ensures whole { IfOk result (λ tables. reading.whole ≡ true → tables.ended ≡ true) }
    ensures limits { IfOk result (λ tables. tables.limits ≡ reading.limits) }
{
    read_with_blank::<R, Brand>(alloc, reading, reader, Blank::new(1))
}

/// Reads a table and counts in the ledger of `blank`.
fn read_with_blank<R: Read + Drop, L: Ledger>(
    alloc: Global,
    reading: Reading,
    reader: R,
    blank: Blank,
) -> Result<Tables, TableFault>
    requires name { blank.name ≡ L.name }
    requires parts { blank.parts ≡ L.parts }
    requires some { 0 < blank.parts }
    ensures table { OfRecords (option_map strip_bom (R.remaining reader)) (TellsRowsAs reading result) }
    ensures whole { IfOk result (λ tables. reading.whole ≡ true → tables.ended ≡ true) }
    ensures limits { IfOk result (λ tables. tables.limits ≡ reading.limits) }
{
    let mut steps: Steps<L> = Steps::new(blank);
    read_tables_as(alloc, reading, reader, &mut steps)
}

/// Reads all rows.
fn read_rows<R: Read, L: Ledger>(
    alloc: Global,
    reading: Reading,
    rows: &mut Reader<R>,
    steps: &mut Steps<L>,
) -> Result<Tables, TableFault>
    requires gives { GivesAll rows.old }
    ensures table { OfLeft (rows_left R.remaining rows.old) (TellsRowsAs reading result) }
    ensures whole { IfOk result (λ tables. reading.whole ≡ true → tables.ended ≡ true) }
    ensures limits { IfOk result (λ tables. tables.limits ≡ reading.limits) }
    ensures failed { IfErr result (λ fault. fault.kind ≡ TableFaultKind.ReadFault → has_failed rows.new ≡ true) }
    ensures counted { IfOk result (λ tables. steps.new ≡ steps.old + row_count tables + 1) }
    ensures named { IfErr result (λ fault. UnlessMissing fault.kind (steps.new ≡ steps.old + max 1 fault.row)) }
    ensures ends { IfErr result (λ fault. OfLeft (rows_left R.remaining rows.old)
        (StepsTo steps.old steps.new fault.row)) }
    ensures least { IfErr result (λ fault. steps.old + max 1 fault.row ≤ steps.new) }
    ensures turns { steps.new ≤ steps.old + (limits_of reading.limits).turns }
{
    let mut row = StringRecord::new(alloc);
    steps.tick();
    if !next_row(rows, &mut row, 1)? {
        return Err(TableFault {
            row: 0,
            kind: TableFaultKind::Empty,
        });
    }
    let mut draft = first_draft(alloc, reading.limits, &row)?;
    match read_rest(alloc, rows, &mut row, &mut draft, steps) {
        Ok(()) => accept(reading, draft),
        Err(fault) => {
            mem::drop(draft);
            Err(fault)
        }
    }
}

/// The table of all rows read, where each pair that a pair is taken from has a row, and where it ends with an `end` row
/// if it has to be whole.
pub(crate) fn accept(reading: Reading, draft: Draft) -> Result<Tables, TableFault>
    requires draft { IsDraft draft }
    requires kept { IsDraftKept draft }
    ensures exact { result ≡ go_on (waiting draft.lists) (uncut reading) }
    ensures same { IfOk result (λ tables. tables ≡ draft.lists) }
    ensures limits { IfOk result (λ tables. tables.limits ≡ draft.lists.limits) }
    ensures above { IfErr result (λ fault. fault.row ≤ row_count draft.lists + 1) }
    ensures waited { IfErr result (λ fault. HasWaited draft.lists fault) }
{
    if let Some(place) = draft.lists.first_lacking() {
        // The run and the plants stand before the pairs.
        let above = draft.lists.plants() + 1;
        let pair = draft.lists.sources()[place].pair;
        mem::drop(draft);
        return Err(TableFault {
            row: (above + pair.0 + 1) as u64,
            kind: TableFaultKind::UnknownPair,
        });
    }
    if is_cut(reading, &draft) {
        let row = draft.rows + 1;
        mem::drop(draft);
        return Err(TableFault {
            row,
            kind: TableFaultKind::Cut,
        });
    }
    Ok(Tables::of(draft.lists))
}

/// Whether a table that has to be whole has no `end` row.
fn is_cut(reading: Reading, draft: &Draft) -> bool
    ensures exact { result ≡ (reading.whole && not draft.now.lists.ended) }
{
    reading.whole && !draft.lists.is_ended()
}

/// What the first row makes.
pub(crate) fn first_draft(
    alloc: Global,
    limits: LimitSet,
    row: &StringRecord,
) -> Result<Draft, TableFault>
    requires text { AllText (fields_of row.now) }
    ensures exact { TellsFirstAt limits result (fields_of row.now) }
    ensures kept { IfOk result IsDraftKept }
    ensures limits { IfOk result (λ draft. draft.lists.limits ≡ limits) }
    ensures draft { IfOk result IsDraft }
    ensures rows { IfOk result (λ draft. draft.rows ≡ 1) }
{
    match Draft::first(alloc, limits, row) {
        Ok(draft) => Ok(draft),
        Err(kind) => Err(TableFault { row: 1, kind }),
    }
}

/// Reads the rows after the first.
fn read_rest<R: Read, L: Ledger>(
    alloc: Global,
    rows: &mut Reader<R>,
    row: &mut StringRecord,
    draft: &mut Draft,
    steps: &mut Steps<L>,
) -> Result<(), TableFault>
    requires gives { GivesAll rows.old }
    requires draft { IsDraft draft.old }
    requires kept { IsDraftKept draft.old }
    requires first { draft.old.rows ≡ 1 }
    ensures exact { TellsRest (rows_left R.remaining rows.old) 2 (draft_state draft.old)
        (draft_state draft.new) result }
    ensures failed { IfErr result (λ fault. fault.kind ≡ TableFaultKind.ReadFault → has_failed rows.new ≡ true) }
    ensures draft { OnOk result (IsDraft draft.new) }
    ensures kept { OnOk result (IsDraftKept draft.new) }
    ensures limits { OnOk result (draft.new.lists.limits ≡ draft.old.lists.limits) }
    ensures counted { OnOk result (steps.new ≡ steps.old + draft.new.rows) }
    ensures all { OnOk result (OfLeft (rows_left R.remaining rows.old)
        (λ rows. steps.new ≡ steps.old + length rows + 1)) }
    ensures later { IfErr result (λ fault. 2 ≤ fault.row) }
    ensures least { IfErr result (λ fault. steps.new + 1 ≡ steps.old + fault.row) }
    ensures turns { steps.new + 1 ≤ steps.old + (most draft.old.lists).turns }
{
    let turns = draft.lists.limits().turns;
    for number in 2..turns + 1 {
        steps.tick();
        if !read_next(alloc, rows, row, draft, number)? {
            return Ok(());
        }
    }
    unreachable!()
}

/// Reads the row of that number into the draft, if there is one.
pub(crate) fn read_next<R: Read>(
    alloc: Global,
    rows: &mut Reader<R>,
    row: &mut StringRecord,
    draft: &mut Draft,
    number: u64,
) -> Result<bool, TableFault>
    requires gives { GivesAll rows.old }
    requires draft { IsDraft draft.old }
    requires kept { IsDraftKept draft.old }
    ensures gives { OnOk result (GivesAll rows.new) }
    ensures exact { TellsNext (rows_left R.remaining rows.old) (rows_left R.remaining rows.new) number
        (draft_state draft.old) (draft_state draft.new) result }
    ensures last { IfOk result (λ found. found ≡ false → OfLeft (rows_left R.remaining rows.old) (λ rows. rows ≡ [])) }
    ensures number { IfErr result (λ fault. fault.row ≡ number) }
    ensures failed { IfErr result (λ fault. fault.kind ≡ TableFaultKind.ReadFault → has_failed rows.new ≡ true) }
    ensures draft { OnOk result (IsDraft draft.new) }
    ensures kept { OnOk result (IsDraftKept draft.new) }
    ensures rows { IfOk result (λ found. found ≡ true → draft.new.rows ≡ draft.old.rows + 1) }
    ensures ended { IfOk result (λ found. found ≡ false → draft.new.rows ≡ draft.old.rows) }
    ensures same { IfOk result (λ found. found ≡ false → draft.new ≡ draft.old) }
    ensures limits { OnOk result (draft.new.lists.limits ≡ draft.old.lists.limits) }
{
    if !next_row(rows, row, number)? {
        return Ok(false);
    }
    at_row(number, draft.add(alloc, row))?;
    Ok(true)
}

/// A fault with the row that has it.
pub(crate) fn at_row<T: Drop>(row: u64, answer: Result<T, TableFaultKind>) -> Result<T, TableFault>
    ensures same { MatchResult answer (λ value. result ≡ Ok value)
        (λ kind. result ≡ Err (record { row = row; kind = kind })) }
{
    match answer {
        Ok(value) => Ok(value),
        Err(kind) => Err(TableFault { row, kind }),
    }
}

/// Reads the next row, if there is one.
pub(crate) fn next_row<R: Read>(
    rows: &mut Reader<R>,
    row: &mut StringRecord,
    number: u64,
) -> Result<bool, TableFault>
    requires gives { GivesAll rows.old }
    ensures gives { OnOk result (GivesAll rows.new) }
    ensures text { OnOk result (AllText (fields_of row.new)) }
    ensures exact { TellsTaken (rows_left R.remaining rows.old) (rows_left R.remaining rows.new) number
        (fields_of row.new) result }
    ensures number { IfErr result (λ fault. fault.row ≡ number) }
    ensures failed { IfErr result (λ fault. fault.kind ≡ TableFaultKind.ReadFault → has_failed rows.new ≡ true) }
{
    match rows.read_record(row) {
        Ok(found) => Ok(found),
        Err(error) => Err(TableFault {
            row: number,
            kind: read_fault(error.kind()),
        }),
    }
}

/// What an error of the reading is called. A row of a wrong length is none: rows come as they are.
fn read_fault(error: &ErrorKind) -> TableFaultKind
    requires comes { MayCome error.now }
    ensures value { result ≡ fault_of error.now }
{
    match error {
        ErrorKind::Utf8 { .. } => TableFaultKind::NotUtf8,
        ErrorKind::OutOfMemory => TableFaultKind::Memory,
        ErrorKind::Io(_) => TableFaultKind::ReadFault,
        ErrorKind::UnequalLengths { .. } => unreachable!(),
        ErrorKind::Serialize(_) => unreachable!(),
        ErrorKind::Deserialize { .. } => unreachable!(),
    }
}
