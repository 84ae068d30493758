//! Reading a table in pieces: what the rows of one say, read by a csv reader of its own, where each of them is a bill, a
//! demand, a receipt or a shipment without a fault. What isn't so plain is read again by the one loop.

ghost use Rattle.std.specs.Prelude.{◌≡◌, ◌≤◌, [], false, true, IfOk, OnOk, length, option_map};
ghost use Rattle.csv.specs.Reading.{strip_bom};
ghost use Rattle.mrp_validation.specs.Left.{GivesAll, OfLeft, rows_left};
ghost use Rattle.mrp_tables.specs.Bulk.{SayAll};
ghost use Rattle.mrp_tables.specs.Lists.{IsDraft};
ghost use Rattle.mrp_tables.specs.Pieces.{IsPlain, TellsSaid, rows_in};

use crate::bulk::BulkRow;
use crate::draft::Draft;
use crate::reading::{at_row, next_row};
use crate::source::{LINE_FEED, Source};
use csv::{Reader, ReaderBuilder, StringRecord};
use mrp_qty::LARGE;
use mrp_validation::TableFault;
use std::alloc::{AllocError, Global};
use std::io::Read;

const QUOTE: u8 = 34;

/// The first byte of a byte order mark.
const MARK: u8 = 239;

/// A piece of the text, cut behind a line feed.
#[derive(Drop)]
pub(crate) struct Piece {
    text: Vec<u8>,
    /// What its rows say, where it is good.
    said: Vec<BulkRow>,
    is_good: bool,
}

impl Piece {
    ghost use Rattle.std.specs.Prelude.{◌≡◌, ◌+◌, false, true, OnOk};
    ghost use Rattle.std.specs.Io.KnownBytes.{Consumes};
    ghost use Rattle.mrp_tables.specs.Bulk.{KeepsNames};
    ghost use Rattle.mrp_tables.specs.Drafts.{IsDraftKept};
    ghost use Rattle.mrp_tables.specs.Lists.{IsDraft};
    ghost use Rattle.mrp_tables.specs.Pieces.{IsGood, IsSaid, TellsThem, rows_in};
    ghost use Rattle.mrp_tables.specs.Sources.{left_of};

    /// A piece without text.
    pub(crate) fn new(alloc: Global) -> Piece {
        Piece {
            text: Vec::new(alloc),
            said: Vec::new(alloc),
            is_good: false,
        }
    }

    /// Its text.
    pub(crate) fn text(&self) -> &[u8]
        ensures { result.now ≡ self.now.text.items }
    {
        self.text.as_slice()
    }

    /// Whether each of its rows was read.
    pub(crate) fn is_good(&self) -> bool
        ensures { result ≡ self.now.is_good }
    {
        self.is_good
    }

    /// Takes at most so many bytes of a text, up to the last line feed of those that come, and says whether there was room
    /// for no more of them.
    pub(crate) fn fill<R: Read>(
        &mut self,
        source: &mut Source<R>,
        size: usize,
    ) -> Result<bool, AllocError>
        ensures taken { OnOk result (Consumes (left_of R.remaining source.old) (left_of R.remaining source.new)
            self.new.text.items) }
    {
        self.text.resize(size, 0)?;
        let used = source.fill(self.text.as_mut_slice());
        let end = behind_last_feed(&self.text[..used]);
        source.give_back(&self.text[end..used])?;
        self.text.truncate(end);
        Ok(used == size)
    }

    /// Reads its rows beside a table, where they are plain bills, demands, receipts and shipments.
    pub(crate) fn read(&mut self, alloc: Global, draft: &Draft)
        requires draft { IsDraft draft.now }
        ensures text { self.new.text ≡ self.old.text }
        ensures good { self.new.is_good ≡ true → IsGood draft.now.lists self.new }
    {
        let text = self.text.as_slice();
        self.said.clear();
        self.is_good = is_plain(text) && read_said(alloc, draft, text, &mut self.said);
    }

    /// Takes what its rows said into the table, in their order.
    pub(crate) fn take_into(&self, draft: &mut Draft) -> Result<(), TableFault>
        requires draft { IsDraft draft.old }
        requires kept { IsDraftKept draft.old }
        requires said { IsSaid draft.old.lists (rows_in self.now.text.items) self.now.said.items }
        ensures exact { TellsThem (rows_in self.now.text.items) draft.old draft.new result }
        ensures draft { OnOk result (IsDraft draft.new) }
        ensures kept { OnOk result (IsDraftKept draft.new) }
        ensures limits { OnOk result (draft.new.lists.limits ≡ draft.old.lists.limits) }
        ensures names { OnOk result (KeepsNames draft.old.lists draft.new.lists) }
    {
        'rows: for row in &self.said {
            let number = draft.rows + 1;
            at_row(number, draft.take(*row))?;
        }
        Ok(())
    }
}

/// The place behind the last line feed.
fn behind_last_feed(text: &[u8]) -> usize
    ensures { result ≤ length text.now }
{
    let mut end = text.len();
    'bytes: while end > 0 && text[end - 1] != LINE_FEED {
        end -= 1;
    }
    end
}

/// Whether a text is read apart from what stands behind it.
pub(crate) fn is_plain(text: &[u8]) -> bool
    ensures { result ≡ true → IsPlain text.now }
{
    let size = text.len();
    if size == 0 {
        return false;
    }
    if text[size - 1] != LINE_FEED {
        return false;
    }
    if text[0] == MARK {
        return false;
    }
    !text.contains(&QUOTE)
}

/// A reader of each row of a text.
pub(crate) fn rows_of<R: Read>(alloc: Global, reader: R) -> Reader<R>
    ensures gives { GivesAll result }
    ensures rows { rows_left R.remaining result ≡ option_map rows_in (option_map strip_bom (R.remaining reader)) }
{
    ReaderBuilder::new()
        .has_headers(false)
        .flexible(true)
        .from_reader(alloc, reader)
}

/// Notes what the rows of a plain text say, and whether each of them says something.
fn read_said(alloc: Global, draft: &Draft, text: &[u8], said: &mut Vec<BulkRow>) -> bool
    requires draft { IsDraft draft.now }
    requires plain { IsPlain text.now }
    requires none { said.old.items ≡ [] }
    ensures { result ≡ true → SayAll draft.now.lists (rows_in text.now) said.new.items }
{
    let mut rows = rows_of(alloc, text);
    let mut row = StringRecord::new(alloc);
    note_rows(draft, &mut rows, &mut row, said)
}

/// Notes what the rows left of a reader say, and whether each of them says something.
fn note_rows<R: Read>(
    draft: &Draft,
    rows: &mut Reader<R>,
    row: &mut StringRecord,
    said: &mut Vec<BulkRow>,
) -> bool
    requires draft { IsDraft draft.now }
    requires gives { GivesAll rows.old }
    requires none { said.old.items ≡ [] }
    ensures { result ≡ true → OfLeft (rows_left R.remaining rows.old)
        (λ rows. SayAll draft.now.lists rows said.new.items) }
{
    'rows: for _ in 0..LARGE.turns {
        match next_said(draft, rows, row) {
            Ok(Some(one)) => match said.push(one) {
                Ok(()) => {}
                Err(_) => return false,
            },
            Ok(None) => return true,
            Err(_) => return false,
        }
    }
    false
}

/// What the next row says, if there is one.
fn next_said<R: Read>(
    draft: &Draft,
    rows: &mut Reader<R>,
    row: &mut StringRecord,
) -> Result<Option<BulkRow>, TableFault>
    requires draft { IsDraft draft.now }
    requires gives { GivesAll rows.old }
    ensures gives { OnOk result (GivesAll rows.new) }
    ensures exact { TellsSaid draft.now.lists (rows_left R.remaining rows.old) (rows_left R.remaining rows.new) result }
{
    if !next_row(rows, row, 1)? {
        return Ok(None);
    }
    let one = at_row(1, draft.bulk_of(row))?;
    Ok(Some(one))
}
