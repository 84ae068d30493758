//! Reading a table by threads, from its first row to its last.

ghost use Rattle.std.specs.Prelude.{◌≡◌, ◌≤◌, ◌<◌, true, Some, None, IfOk, IfErr, IfSome, OnOk, length, option_map};
ghost use Rattle.std.specs.Io.KnownBytes.{Consumes, prepend_known};
ghost use Rattle.csv.specs.Reading.{strip_bom};
ghost use Rattle.mrp_validation.specs.Left.{GivesAll, OfLeft, rows_left};
ghost use Rattle.mrp_validation.specs.Reading.{TellsRowsAs};
ghost use Rattle.mrp_validation.specs.Written.{OfRecords};
ghost use Rattle.mrp_tables.specs.Drafts.{IsDraftKept};
ghost use Rattle.mrp_tables.specs.Lists.{IsDraft};
ghost use Rattle.mrp_tables.specs.Pieces.{BeginsWith, IsPlain, TellsBeginning, TellsBegun, TellsRead, none_left_of};
ghost use Rattle.mrp_tables.specs.Pieces.{rows_in, rows_of_bytes};
ghost use Rattle.mrp_tables.specs.Sources.{left_of};

use crate::blocks::{no_memory, read_behind, read_on};
use crate::draft::Draft;
use crate::pieces::{Piece, is_plain, rows_of};
use crate::reading::{accept, first_draft, next_row, read_tables_uncounted};
use crate::source::Source;
use csv::{Reader, StringRecord};
use mrp_commands::Reading;
use mrp_master_data::{LimitSet, Tables};
use mrp_validation::{TableFault, TableFaultKind};
use std::alloc::{AllocError, Global};
use std::io::Read;
use std::mem;
use std::thread::{Threads, available_parallelism};

/// A block has about so many bytes.
const BLOCK: usize = 4_194_304;

/// A text of which no so many bytes come at once is read on one thread.
const FIRST: usize = 4096;

/// At most so many pieces are read side by side.
const MOST_PIECES: usize = 8;

/// Reads a table as [`read_tables_as`](crate::read_tables_as) does, and tells no count of its steps. Where there are
/// several processors, and the text comes by many rows at once, threads read those of bills, demands, receipts and
/// shipments side by side, as many as there are processors and at most eight; where a thread can't be started, the
/// calling one reads its piece. Where a read gives less than a piece, up to a line feed, its rows are looked at before
/// more is read. No clause speaks of time or memory.
///
/// # Errors
///
/// Those of [`read_tables_as`](crate::read_tables_as).
pub fn read_tables_by_threads<T: Threads + Sync, R: Read + Drop>(
    rt: &T,
    alloc: Global,
    reading: Reading,
    reader: R,
) -> Result<Tables, TableFault>
    ensures table { OfRecords (option_map strip_bom (R.remaining reader)) (TellsRowsAs reading result) }
    ensures whole { IfOk result (λ tables. reading.whole ≡ true → tables.ended ≡ true) }
    ensures limits { IfOk result (λ tables. tables.limits ≡ reading.limits) }
{
    let count = pieces_at_once(rt);
    if count < 2 {
        return read_tables_uncounted(alloc, reading, reader);
    }
    read_tables_by_blocks(rt, alloc, reading, reader, BLOCK, count)
}

/// How many pieces are read side by side.
fn pieces_at_once<T: Threads>(rt: &T) -> usize {
    match available_parallelism(rt) {
        Ok(processors) => processors.get().min(MOST_PIECES),
        Err(_) => 1,
    }
}

/// Reads a table as [`read_tables_by_threads`] does, by blocks of about so many bytes, each in so many pieces.
///
/// # Errors
///
/// Those of [`read_tables_by_threads`].
pub fn read_tables_by_blocks<T: Threads + Sync, R: Read + Drop>(
    rt: &T,
    alloc: Global,
    reading: Reading,
    reader: R,
    block: usize,
    count: usize,
) -> Result<Tables, TableFault>
    requires some { 0 < count }
    ensures table { OfRecords (option_map strip_bom (R.remaining reader)) (TellsRowsAs reading result) }
    ensures whole { IfOk result (λ tables. reading.whole ≡ true → tables.ended ≡ true) }
    ensures limits { IfOk result (λ tables. tables.limits ≡ reading.limits) }
{
    let mut source = Source::new(alloc, reader);
    match begin(alloc, reading.limits, &mut source, block.min(FIRST)) {
        Ok(None) => read_tables_uncounted(alloc, reading, source),
        Ok(Some(draft)) => {
            let read = finish(rt, alloc, reading, &mut source, draft, block / count, count);
            mem::drop(source);
            read
        }
        Err(fault) => {
            mem::drop(source);
            Err(fault)
        }
    }
}

/// Reads the first rows, about so many bytes of them, where as many come at once and are plain. Else the source has what
/// it had.
fn begin<R: Read>(
    alloc: Global,
    limits: LimitSet,
    source: &mut Source<R>,
    size: usize,
) -> Result<Option<Draft>, TableFault>
    ensures exact { TellsBeginning limits (left_of R.remaining source.old) (left_of R.remaining source.new) result }
    ensures draft { IfOk result (λ begun. IfSome begun IsDraft) }
    ensures kept { IfOk result (λ begun. IfSome begun IsDraftKept) }
    ensures limits { IfOk result (λ begun. IfSome begun (λ draft. draft.lists.limits ≡ limits)) }
{
    let mut piece = Piece::new(alloc);
    match fill_first(source, &mut piece, size) {
        Ok(true) => begin_with(alloc, limits, source, piece.text()),
        Ok(false) => leave(source, piece.text()),
        Err(_) => Err(no_memory_first()),
    }
}

/// Fills the first piece, and says whether there was room for no more.
fn fill_first<R: Read>(
    source: &mut Source<R>,
    piece: &mut Piece,
    size: usize,
) -> Result<bool, AllocError>
    ensures taken { OnOk result (Consumes (left_of R.remaining source.old) (left_of R.remaining source.new)
        piece.new.text.items) }
{
    source.look()?;
    piece.fill(source, size)
}

/// Reads the rows of a text that was taken of a source, where it is plain. Else it is given back.
fn begin_with<R: Read>(
    alloc: Global,
    limits: LimitSet,
    source: &mut Source<R>,
    text: &[u8],
) -> Result<Option<Draft>, TableFault>
    ensures exact { TellsBeginning limits (prepend_known text.now (left_of R.remaining source.old))
        (left_of R.remaining source.new) result }
    ensures draft { IfOk result (λ begun. IfSome begun IsDraft) }
    ensures kept { IfOk result (λ begun. IfSome begun IsDraftKept) }
    ensures limits { IfOk result (λ begun. IfSome begun (λ draft. draft.lists.limits ≡ limits)) }
{
    if !is_plain(text) {
        return leave(source, text);
    }
    match first_rows(alloc, limits, text) {
        Ok(Some(draft)) => Ok(Some(draft)),
        Ok(None) => leave(source, text),
        Err(fault) => Err(fault),
    }
}

/// That memory was refused before the first row.
fn no_memory_first() -> TableFault
    ensures { result ≡ record { row = 1; kind = TableFaultKind.Memory } }
{
    TableFault {
        row: 1,
        kind: TableFaultKind::Memory,
    }
}

/// Gives back a text of which no row is read.
fn leave<R: Read>(source: &mut Source<R>, text: &[u8]) -> Result<Option<Draft>, TableFault>
    ensures given { OnOk result (left_of R.remaining source.new
        ≡ prepend_known text.now (left_of R.remaining source.old)) }
    ensures none { IfOk result (λ begun. begun ≡ None) }
    ensures fault { IfErr result (λ fault. fault ≡ record { row = 1; kind = TableFaultKind.Memory }) }
{
    match source.give_back(text) {
        Ok(()) => Ok(None),
        Err(_) => Err(no_memory_first()),
    }
}

/// Reads the rows of a plain text, the first of a table; none where it has no row.
fn first_rows(alloc: Global, limits: LimitSet, text: &[u8]) -> Result<Option<Draft>, TableFault>
    requires plain { IsPlain text.now }
    ensures exact { TellsBegun limits (rows_in text.now) result }
    ensures draft { IfOk result (λ begun. IfSome begun IsDraft) }
    ensures kept { IfOk result (λ begun. IfSome begun IsDraftKept) }
    ensures limits { IfOk result (λ begun. IfSome begun (λ draft. draft.lists.limits ≡ limits)) }
{
    let mut rows = rows_of(alloc, text);
    let mut row = StringRecord::new(alloc);
    first_rows_of(alloc, limits, &mut rows, &mut row)
}

/// Reads the rows of a reader, the first of a table; none where it has no row.
fn first_rows_of<R: Read>(
    alloc: Global,
    limits: LimitSet,
    rows: &mut Reader<R>,
    row: &mut StringRecord,
) -> Result<Option<Draft>, TableFault>
    requires gives { GivesAll rows.old }
    ensures exact { OfLeft (rows_left R.remaining rows.old) (λ rows. TellsBegun limits rows result) }
    ensures draft { IfOk result (λ begun. IfSome begun IsDraft) }
    ensures kept { IfOk result (λ begun. IfSome begun IsDraftKept) }
    ensures limits { IfOk result (λ begun. IfSome begun (λ draft. draft.lists.limits ≡ limits)) }
{
    if !next_row(rows, row, 1)? {
        return Ok(None);
    }
    let mut draft = first_draft(alloc, limits, row)?;
    match read_on(alloc, rows, row, &mut draft) {
        Ok(()) => Ok(Some(draft)),
        Err(fault) => {
            mem::drop(draft);
            Err(fault)
        }
    }
}

/// Reads the rows behind those of the draft, and what they all make.
fn finish<T: Threads + Sync, R: Read>(
    rt: &T,
    alloc: Global,
    reading: Reading,
    source: &mut Source<R>,
    draft: Draft,
    size: usize,
    count: usize,
) -> Result<Tables, TableFault>
    requires draft { IsDraft draft }
    requires kept { IsDraftKept draft }
    requires some { 0 < count }
    ensures exact { (rows : _) → BeginsWith reading.limits rows (rows_of_bytes (left_of R.remaining source.old)) draft
        → OfLeft rows (TellsRowsAs reading result) }
    ensures whole { IfOk result (λ tables. reading.whole ≡ true → tables.ended ≡ true) }
    ensures limits { IfOk result (λ tables. tables.limits ≡ draft.lists.limits) }
{
    let mut draft = draft;
    match read_by_pieces(rt, alloc, source, size, count, &mut draft) {
        Ok(()) => accept(reading, draft),
        Err(fault) => {
            mem::drop(draft);
            Err(fault)
        }
    }
}

/// Reads the rows behind those of the draft, by blocks of so many pieces of about so many bytes.
fn read_by_pieces<T: Threads + Sync, R: Read>(
    rt: &T,
    alloc: Global,
    source: &mut Source<R>,
    size: usize,
    count: usize,
    draft: &mut Draft,
) -> Result<(), TableFault>
    requires draft { IsDraft draft.old }
    requires kept { IsDraftKept draft.old }
    requires some { 0 < count }
    ensures exact { TellsRead (rows_of_bytes (left_of R.remaining source.old))
        (none_left_of (rows_of_bytes (left_of R.remaining source.old))) draft.old draft.new result }
    ensures draft { OnOk result (IsDraft draft.new) }
    ensures kept { OnOk result (IsDraftKept draft.new) }
    ensures limits { OnOk result (draft.new.lists.limits ≡ draft.old.lists.limits) }
{
    match new_pieces(alloc, count) {
        Ok(pieces) => {
            let mut pieces = pieces;
            read_behind(rt, alloc, source, pieces.as_mut_slice(), size, draft)
        }
        Err(_) => Err(no_memory(draft)),
    }
}

/// So many pieces without text.
fn new_pieces(alloc: Global, count: usize) -> Result<Vec<Piece>, AllocError>
    ensures { IfOk result (λ pieces. length pieces.items ≡ count) }
{
    let mut pieces = Vec::with_capacity(alloc, count)?;
    'pieces: for _ in 0..count {
        pieces.push(Piece::new(alloc))?;
    }
    Ok(pieces)
}
