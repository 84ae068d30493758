//! A crew's workers: the rooms that they draft in.
ghost use Rattle.std.specs.Prelude.{◌≤◌, ℕ, All, OnOk, length};
ghost use Rattle.mrp_crew.specs.Rooms.{IsRoom};

use mrp_agent::Room;
use mrp_qty::{Horizon, Memory};
use std::alloc::Global;

/// Makes the rooms that are missing for so many workers.
pub(crate) fn refill(
    alloc: Global,
    rooms: &mut Vec<Room>,
    horizon: Horizon,
    workers: u64,
) -> Result<(), Memory>
    requires rooms { All (IsRoom horizon) rooms.old.items }
    ensures rooms { All (IsRoom horizon) rooms.new.items }
    ensures enough { OnOk result (workers ≤ length rooms.new.items) }
{
    for _ in rooms.len()..workers as usize {
        let room = Room::new(alloc, horizon)?;
        rooms.push(room)?;
    }
    Ok(())
}

/// Puts a room back among the others; where there is no place for it, it is let go.
pub(crate) fn put_back(rooms: &mut Vec<Room>, room: Room)
    ensures { (horizon : ℕ) → All (IsRoom horizon) rooms.old.items → IsRoom horizon room
        → All (IsRoom horizon) rooms.new.items }
{
    rooms.push(room).ok();
}
