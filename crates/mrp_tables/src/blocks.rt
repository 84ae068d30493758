//! Reading a table by blocks, which are cut into pieces and read side by side.
//!
//! The rows up to the last pair are read on the calling thread, a piece at a time. Behind them threads read a piece
//! each, beside the table as it stands, and the calling thread takes what they noted in order. A piece has what a read
//! gives, and where that is less than a piece no more is read before its rows are looked at. From the first piece that
//! isn't good the one loop reads the rest, so faults, their rows and what waits for the last row are its own.

ghost use Rattle.std.specs.Prelude.{◌≡◌, ◌≤◌, ◌<◌, ◌+◌, true, take, drop, IfOk, OnOk, length};
ghost use Rattle.std.specs.Io.KnownBytes.{Consumes, prepend_known};
ghost use Rattle.mrp_validation.specs.Left.{GivesAll, rows_left};
ghost use Rattle.mrp_tables.specs.Drafts.{IsDraftKept};
ghost use Rattle.mrp_tables.specs.Lists.{IsDraft};
ghost use Rattle.mrp_tables.specs.Pieces.{AreGood, IsPlain, TellsPieces, TellsRead, TellsThem, none_left_of, rows_in};
ghost use Rattle.mrp_tables.specs.Pieces.{rows_of_bytes, texts_of};
ghost use Rattle.mrp_tables.specs.Sources.{left_of};

use crate::draft::Draft;
use crate::pieces::{Piece, is_plain, rows_of};
use crate::reading::read_next;
use crate::source::{LINE_FEED, Source};
use csv::{Reader, StringRecord};
use mrp_qty::LARGE;
use mrp_validation::{Kind, TableFault, TableFaultKind, may_follow};
use std::alloc::{AllocError, Global};
use std::io::Read;
use std::thread::{Threads, for_each_mut};

/// Reads the rows left of a reader, behind those of the draft.
pub(crate) fn read_on<R: Read>(
    alloc: Global,
    rows: &mut Reader<R>,
    row: &mut StringRecord,
    draft: &mut Draft,
) -> Result<(), TableFault>
    requires gives { GivesAll rows.old }
    requires draft { IsDraft draft.old }
    requires kept { IsDraftKept draft.old }
    ensures exact { TellsRead (rows_left R.remaining rows.old) (none_left_of (rows_left R.remaining rows.old))
        draft.old draft.new result }
    ensures draft { OnOk result (IsDraft draft.new) }
    ensures kept { OnOk result (IsDraftKept draft.new) }
    ensures limits { OnOk result (draft.new.lists.limits ≡ draft.old.lists.limits) }
{
    for number in draft.rows + 1..LARGE.turns + 1 {
        if !read_next(alloc, rows, row, draft, number)? {
            return Ok(());
        }
    }
    unreachable!()
}

/// Reads the rows of a plain text, behind those of the draft.
fn read_text(alloc: Global, text: &[u8], draft: &mut Draft) -> Result<(), TableFault>
    requires plain { IsPlain text.now }
    requires draft { IsDraft draft.old }
    requires kept { IsDraftKept draft.old }
    ensures exact { TellsThem (rows_in text.now) draft.old draft.new result }
    ensures draft { OnOk result (IsDraft draft.new) }
    ensures kept { OnOk result (IsDraftKept draft.new) }
    ensures limits { OnOk result (draft.new.lists.limits ≡ draft.old.lists.limits) }
{
    let mut rows = rows_of(alloc, text);
    let mut row = StringRecord::new(alloc);
    read_on(alloc, &mut rows, &mut row, draft)
}

/// Reads all that is left of a source, behind the rows of the draft.
fn read_left<R: Read>(
    alloc: Global,
    source: &mut Source<R>,
    draft: &mut Draft,
) -> Result<(), TableFault>
    requires draft { IsDraft draft.old }
    requires kept { IsDraftKept draft.old }
    ensures exact { TellsRead (rows_of_bytes (left_of R.remaining source.old))
        (none_left_of (rows_of_bytes (left_of R.remaining source.old))) draft.old draft.new result }
    ensures draft { OnOk result (IsDraft draft.new) }
    ensures kept { OnOk result (IsDraftKept draft.new) }
    ensures limits { OnOk result (draft.new.lists.limits ≡ draft.old.lists.limits) }
{
    // A line feed is no row, and behind it no bytes are taken for a byte order mark.
    match source.give_back(&[LINE_FEED]) {
        Ok(()) => {}
        Err(_) => return Err(no_memory(draft)),
    }
    let mut rows = rows_of(alloc, source);
    let mut row = StringRecord::new(alloc);
    read_on(alloc, &mut rows, &mut row, draft)
}

/// That memory was refused behind the rows of the draft.
pub(crate) fn no_memory(draft: &Draft) -> TableFault
    requires draft { IsDraft draft.now }
    ensures { result ≡ record { row = draft.now.rows + 1; kind = TableFaultKind.Memory } }
{
    TableFault {
        row: draft.rows + 1,
        kind: TableFaultKind::Memory,
    }
}

/// How many of the pieces are filled at once: one up to the last pair, and behind it all.
fn at_once(draft: &Draft, count: usize) -> usize
    requires some { 0 < count }
    ensures some { 0 < result }
    ensures within { result ≤ count }
{
    if may_follow(Kind::Pair, draft.last) {
        1
    } else {
        count
    }
}

/// Fills at most so many pieces with the bytes left of a source, about so many bytes to a piece, up to the first that has
/// room left, and says how many.
fn fill_pieces<R: Read>(
    source: &mut Source<R>,
    pieces: &mut [Piece],
    most: usize,
    size: usize,
) -> Result<usize, AllocError>
    requires some { 0 < most }
    requires most { most ≤ length pieces.old }
    ensures some { IfOk result (λ filled. 0 < filled) }
    ensures within { IfOk result (λ filled. filled ≤ length pieces.new) }
    ensures taken { IfOk result (λ filled. Consumes (left_of R.remaining source.old) (left_of R.remaining source.new)
        (texts_of (take filled pieces.new))) }
{
    for k in 0..most {
        if !pieces[k].fill(source, size)? {
            return Ok(k + 1);
        }
    }
    Ok(most)
}

/// Reads pieces side by side, each beside the table of the draft.
fn read_pieces<T: Threads + Sync>(rt: &T, alloc: Global, pieces: &mut [Piece], draft: &Draft)
    requires draft { IsDraft draft.now }
    requires some { 0 < length pieces.old }
    ensures texts { texts_of pieces.new ≡ texts_of pieces.old }
    ensures good { AreGood draft.now.lists pieces.new }
{
    let count = pieces.len();
    for_each_mut(
        rt,
        pieces,
        count,
        &|_, piece: &mut Piece| { piece.read(alloc, draft) },
    );
}

/// Takes what the pieces say into the table, in order, up to the first that isn't good, and answers its place.
fn take_pieces(pieces: &[Piece], draft: &mut Draft) -> Result<usize, TableFault>
    requires draft { IsDraft draft.old }
    requires kept { IsDraftKept draft.old }
    requires good { AreGood draft.old.lists pieces.now }
    ensures within { IfOk result (λ taken. taken ≤ length pieces.now) }
    ensures exact { TellsPieces pieces.now draft.old draft.new result }
    ensures draft { OnOk result (IsDraft draft.new) }
    ensures kept { OnOk result (IsDraftKept draft.new) }
    ensures limits { OnOk result (draft.new.lists.limits ≡ draft.old.lists.limits) }
{
    for k in 0..pieces.len() {
        let piece = &pieces[k];
        if !piece.is_good() {
            return Ok(k);
        }
        piece.take_into(draft)?;
    }
    Ok(pieces.len())
}

/// Gives back the pieces from that place on.
fn give_back<R: Read>(
    source: &mut Source<R>,
    pieces: &[Piece],
    taken: usize,
) -> Result<(), AllocError>
    requires within { taken ≤ length pieces.now }
    ensures given { OnOk result (left_of R.remaining source.new
        ≡ prepend_known (texts_of (drop taken pieces.now)) (left_of R.remaining source.old)) }
{
    let mut place = pieces.len();
    'places: while place > taken {
        place -= 1;
        source.give_back(pieces[place].text())?;
    }
    Ok(())
}

/// Reads pieces that were taken of a source side by side, and says whether all of them were good. What isn't good is
/// given back.
fn read_block<T: Threads + Sync, R: Read>(
    rt: &T,
    alloc: Global,
    source: &mut Source<R>,
    pieces: &mut [Piece],
    draft: &mut Draft,
) -> Result<bool, TableFault>
    requires draft { IsDraft draft.old }
    requires kept { IsDraftKept draft.old }
    requires some { 0 < length pieces.old }
    ensures exact { TellsRead (rows_of_bytes (prepend_known (texts_of pieces.old) (left_of R.remaining source.old)))
        (rows_of_bytes (left_of R.remaining source.new)) draft.old draft.new result }
    ensures all { IfOk result (λ all. all ≡ true → left_of R.remaining source.new ≡ left_of R.remaining source.old) }
    ensures draft { OnOk result (IsDraft draft.new) }
    ensures kept { OnOk result (IsDraftKept draft.new) }
    ensures limits { OnOk result (draft.new.lists.limits ≡ draft.old.lists.limits) }
{
    read_pieces(rt, alloc, pieces, draft);
    let taken = take_pieces(pieces, draft)?;
    match give_back(source, pieces, taken) {
        Ok(()) => Ok(taken == pieces.len()),
        Err(_) => Err(no_memory(draft)),
    }
}

/// Reads a text that was taken of a source on this thread, and says whether it was plain. Else it is given back.
fn read_piece<R: Read>(
    alloc: Global,
    source: &mut Source<R>,
    text: &[u8],
    draft: &mut Draft,
) -> Result<bool, TableFault>
    requires draft { IsDraft draft.old }
    requires kept { IsDraftKept draft.old }
    ensures exact { TellsRead (rows_of_bytes (prepend_known text.now (left_of R.remaining source.old)))
        (rows_of_bytes (left_of R.remaining source.new)) draft.old draft.new result }
    ensures all { IfOk result (λ all. all ≡ true → left_of R.remaining source.new ≡ left_of R.remaining source.old) }
    ensures draft { OnOk result (IsDraft draft.new) }
    ensures kept { OnOk result (IsDraftKept draft.new) }
    ensures limits { OnOk result (draft.new.lists.limits ≡ draft.old.lists.limits) }
{
    if is_plain(text) {
        read_text(alloc, text, draft)?;
        return Ok(true);
    }
    match source.give_back(text) {
        Ok(()) => Ok(false),
        Err(_) => Err(no_memory(draft)),
    }
}

/// Reads pieces that were taken of a source, and says whether there was nothing to give back. Where there is but one, no
/// thread is started for it.
fn read_filled<T: Threads + Sync, R: Read>(
    rt: &T,
    alloc: Global,
    source: &mut Source<R>,
    pieces: &mut [Piece],
    draft: &mut Draft,
) -> Result<bool, TableFault>
    requires draft { IsDraft draft.old }
    requires kept { IsDraftKept draft.old }
    requires some { 0 < length pieces.old }
    ensures exact { TellsRead (rows_of_bytes (prepend_known (texts_of pieces.old) (left_of R.remaining source.old)))
        (rows_of_bytes (left_of R.remaining source.new)) draft.old draft.new result }
    ensures all { IfOk result (λ all. all ≡ true → left_of R.remaining source.new ≡ left_of R.remaining source.old) }
    ensures draft { OnOk result (IsDraft draft.new) }
    ensures kept { OnOk result (IsDraftKept draft.new) }
    ensures limits { OnOk result (draft.new.lists.limits ≡ draft.old.lists.limits) }
{
    if pieces.len() == 1 {
        read_piece(alloc, source, pieces[0].text(), draft)
    } else {
        read_block(rt, alloc, source, pieces, draft)
    }
}

/// Reads what comes of a source, up to the last pair a piece and behind them a block, and says whether there was nothing to
/// give back.
fn read_some<T: Threads + Sync, R: Read>(
    rt: &T,
    alloc: Global,
    source: &mut Source<R>,
    pieces: &mut [Piece],
    size: usize,
    draft: &mut Draft,
) -> Result<bool, TableFault>
    requires draft { IsDraft draft.old }
    requires kept { IsDraftKept draft.old }
    requires some { 0 < length pieces.old }
    ensures exact { TellsRead (rows_of_bytes (left_of R.remaining source.old))
        (rows_of_bytes (left_of R.remaining source.new)) draft.old draft.new result }
    ensures draft { OnOk result (IsDraft draft.new) }
    ensures kept { OnOk result (IsDraftKept draft.new) }
    ensures limits { OnOk result (draft.new.lists.limits ≡ draft.old.lists.limits) }
{
    let most = at_once(draft, pieces.len());
    match fill_pieces(source, pieces, most, size) {
        Ok(filled) => read_filled(rt, alloc, source, &mut pieces[..filled], draft),
        Err(_) => Err(no_memory(draft)),
    }
}

/// Reads blocks as long as they are good.
fn read_blocks<T: Threads + Sync, R: Read>(
    rt: &T,
    alloc: Global,
    source: &mut Source<R>,
    pieces: &mut [Piece],
    size: usize,
    draft: &mut Draft,
) -> Result<(), TableFault>
    requires draft { IsDraft draft.old }
    requires kept { IsDraftKept draft.old }
    requires some { 0 < length pieces.old }
    ensures exact { TellsRead (rows_of_bytes (left_of R.remaining source.old))
        (rows_of_bytes (left_of R.remaining source.new)) draft.old draft.new result }
    ensures draft { OnOk result (IsDraft draft.new) }
    ensures kept { OnOk result (IsDraftKept draft.new) }
    ensures limits { OnOk result (draft.new.lists.limits ≡ draft.old.lists.limits) }
{
    'turns: for _ in 0..LARGE.turns {
        if !read_some(rt, alloc, source, pieces, size, draft)? {
            return Ok(());
        }
    }
    Ok(())
}

/// Reads the rows behind those of the draft: blocks as long as they are good, then the rest by the one loop.
pub(crate) fn read_behind<T: Threads + Sync, R: Read>(
    rt: &T,
    alloc: Global,
    source: &mut Source<R>,
    pieces: &mut [Piece],
    size: usize,
    draft: &mut Draft,
) -> Result<(), TableFault>
    requires draft { IsDraft draft.old }
    requires kept { IsDraftKept draft.old }
    requires some { 0 < length pieces.old }
    ensures exact { TellsRead (rows_of_bytes (left_of R.remaining source.old))
        (none_left_of (rows_of_bytes (left_of R.remaining source.old))) draft.old draft.new result }
    ensures draft { OnOk result (IsDraft draft.new) }
    ensures kept { OnOk result (IsDraftKept draft.new) }
    ensures limits { OnOk result (draft.new.lists.limits ≡ draft.old.lists.limits) }
{
    read_blocks(rt, alloc, source, pieces, size, draft)?;
    read_left(alloc, source, draft)
}
