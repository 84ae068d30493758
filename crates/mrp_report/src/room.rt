//! Reports: rows of the plan and of pegs by their bytes, and a room in which they gather before they are sent.

ghost use Rattle.std.specs.Prelude.{◌≡◌, ◌+◌, ◌≤◌, ◌++◌, ◌∷◌, [], take, length, IfOk, OnOk, IfErr, OnErr};
ghost use Rattle.std.specs.Io.KnownBytes.{Appends};
ghost use Rattle.mrp_csv_out.specs.Rows.{row};
ghost use Rattle.mrp_csv_out.specs.Writing.{joined};
ghost use Rattle.mrp_csv_out.specs.Sending.{AppendsPrefix};
ghost use Rattle.mrp_report.specs.Gathering.{Gathers};

use mrp_csv_out::{ReportFault, send};
use std::alloc::Global;
use std::io::Write;
use std::marker::Model;

/// The bytes of a room.
const ROOM: usize = 65536;

/// The most bytes of a row, and of what a room begins with.
pub(crate) const LONGEST_ROW: usize = 201;

/// The most bytes of what all rows of a pair begin with: a word of 4 letters, two names of
/// 20 and the commas between.
pub(crate) const LONGEST_PAIR: usize = 46;

/// A room whose used front waits to be sent. There is room for a row where nothing waits.
#[derive(Drop)]
pub(crate) struct Room {
    bytes: Vec<u8>,
    used: usize,
}

impl Model for Room {
    ghost use Rattle.std.specs.Prelude.{◌≤◌, List, ℕ, length, take};
    ghost use Rattle.mrp_report.specs.declared.room.TheConstants.{LONGEST_ROW};

    ghost Value = { List ℕ };

    ghost view = { λ r. take r.used r.bytes.items };

    ghost invariant = { λ r. (r.used ≤ length r.bytes.items) × (LONGEST_ROW ≤ length r.bytes.items) };
}

impl Room {
    /// A room in which that text waits.
    pub(crate) fn new(alloc: Global, text: &[u8]) -> Result<Room, ReportFault>
        requires { length text.now ≤ LONGEST_ROW }
        ensures text { IfOk result (λ room. room ≡ text.now) }
        ensures fault { IfErr result (λ fault. fault ≡ ReportFault.Memory) }
    {
        let mut bytes = vec![in alloc; 0; ROOM]?;
        let used = put(bytes.as_mut_slice(), 0, text);
        Ok(Room { bytes, used })
    }

    /// Adds a row of two parts. Where it may not fit beside what waits, that is sent first.
    pub(crate) fn put_row<W: Write>(
        &mut self,
        first: &[u8],
        second: &[u8],
        out: &mut W,
    ) -> Result<(), ReportFault>
        requires { length first.now + length second.now + 2 ≤ LONGEST_ROW }
        ensures row { OnOk result (Gathers (W.contents out.old) (W.contents out.new) self.old self.new
            (row (first.now ∷ second.now ∷ []))) }
        ensures prefix { OnErr result (AppendsPrefix (W.contents out.old) (W.contents out.new)
            (self.old ++ row (first.now ∷ second.now ∷ []))) }
        ensures fault { IfErr result (λ fault. fault ≡ ReportFault.WriteFault) }
    {
        let free = make_room(self.bytes.as_slice(), self.used, out)?;
        self.used = put_parts(self.bytes.as_mut_slice(), free, first, second);
        Ok(())
    }

    /// Sends what waits.
    pub(crate) fn send<W: Write>(&self, out: &mut W) -> Result<(), ReportFault>
        ensures whole { OnOk result (Appends (W.contents out.old) (W.contents out.new) self.now) }
        ensures prefix { OnErr result (AppendsPrefix (W.contents out.old) (W.contents out.new) self.now) }
        ensures fault { IfErr result (λ fault. fault ≡ ReportFault.WriteFault) }
    {
        send(&self.bytes[..self.used], out)
    }
}

/// Sends the used front of the bytes where there may be no room for a row after it, and returns how
/// much is used then.
fn make_room<W: Write>(bytes: &[u8], used: usize, out: &mut W) -> Result<usize, ReportFault>
    requires used { used ≤ length bytes.now }
    requires row { LONGEST_ROW ≤ length bytes.now }
    ensures room { IfOk result (λ free. free + LONGEST_ROW ≤ length bytes.now) }
    ensures kept { IfOk result (λ free. Gathers (W.contents out.old) (W.contents out.new) (take used bytes.now)
        (take free bytes.now) []) }
    ensures prefix { OnErr result (AppendsPrefix (W.contents out.old) (W.contents out.new) (take used bytes.now)) }
    ensures fault { IfErr result (λ fault. fault ≡ ReportFault.WriteFault) }
{
    if bytes.len() - used >= LONGEST_ROW {
        return Ok(used);
    }
    send(&bytes[..used], out)?;
    Ok(0)
}

/// Writes what all rows of a pair begin with at the beginning of the names, and returns how much of
/// them it takes.
pub(crate) fn name_pair(
    names: &mut [u8; LONGEST_PAIR],
    word: &[u8],
    plant: &str,
    item: &str,
) -> usize
    requires word { length word.now ≤ 4 }
    requires plant { length plant.now ≤ 20 }
    requires item { length item.now ≤ 20 }
    ensures within { result ≤ LONGEST_PAIR }
    ensures part { take result names.new ≡ joined (word.now ∷ plant.now ∷ item.now ∷ []) }
{
    let first = put(names, 0, word);
    let comma = put(names, first, b",");
    let second = put(names, comma, plant.as_bytes());
    let comma = put(names, second, b",");
    put(names, comma, item.as_bytes())
}

/// Adds a row of two parts to the used front of the room, and returns how much is used then.
pub(crate) fn put_parts(room: &mut [u8], used: usize, front: &[u8], rest: &[u8]) -> usize
    requires room { used + length front.now + length rest.now + 2 ≤ length room.old }
    ensures row { take result room.new ≡ take used room.old ++ row (front.now ∷ rest.now ∷ []) }
    ensures length { result ≡ used + length front.now + length rest.now + 2 }
    ensures room { length room.new ≡ length room.old }
{
    let first = put(room, used, front);
    let comma = put(room, first, b",");
    let second = put(room, comma, rest);
    put(room, second, b"\n")
}

/// Adds bytes to the used front of the room, and returns how much is used then.
pub(crate) fn put(room: &mut [u8], used: usize, bytes: &[u8]) -> usize
    requires room { used + length bytes.now ≤ length room.old }
    ensures bytes { take result room.new ≡ take used room.old ++ bytes.now }
    ensures length { result ≡ used + length bytes.now }
    ensures room { length room.new ≡ length room.old }
{
    let after = used + bytes.len();
    room[used..after].copy_from_slice(bytes);
    after
}
