//! The run by threads: over which lanes another plant's thread has moved records since a plant last looked.

use crate::moving::Lanes;
use mrp_net::LaneNo;
use mrp_qty::Memory;
use std::alloc::Global;
use std::sync::atomic::{AtomicBool, Ordering};

/// A sign at each end of each lane. A sender puts up the receiver's, and a receiver the sender's where as many were
/// taken as the mailbox may hold; who looks at its own end takes the sign down. Nothing is claimed of when one is seen.
#[derive(Drop)]
pub(crate) struct Signs {
    /// At the receivers, by the numbers of the lanes: records were sent.
    filled: Vec<AtomicBool>,
    /// At the senders: room was made.
    freed: Vec<AtomicBool>,
}

impl Signs {
    /// Signs for so many lanes, of which none is up.
    ///
    /// # Errors
    ///
    /// [`Memory`] where a growth is refused.
    pub(crate) fn new(alloc: Global, lanes: usize) -> Result<Signs, Memory> {
        Ok(Signs {
            filled: new_signs(alloc, lanes)?,
            freed: new_signs(alloc, lanes)?,
        })
    }

    /// Puts up the sign at the other end of a lane over which a plant moved records.
    pub(crate) fn put_up(&self, lane: LaneNo, moved: Lanes) {
        let there = match moved {
            Lanes::Outgoing => &self.filled,
            Lanes::Incoming => &self.freed,
        };
        if let Some(sign) = there.get(lane.0) {
            sign.store(true, Ordering::SeqCst);
        }
    }

    /// Takes down the sign at a plant's own end of a lane, and answers whether it was up.
    pub(crate) fn take_down(&self, lane: LaneNo, lanes: Lanes) -> bool {
        let here = match lanes {
            Lanes::Incoming => &self.filled,
            Lanes::Outgoing => &self.freed,
        };
        match here.get(lane.0) {
            Some(sign) => sign.load(Ordering::SeqCst) && sign.swap(false, Ordering::SeqCst),
            None => true,
        }
    }
}

/// So many signs that are down.
fn new_signs(alloc: Global, count: usize) -> Result<Vec<AtomicBool>, Memory> {
    let mut signs = Vec::with_capacity(alloc, count)?;
    for _ in 0..count {
        signs.push(AtomicBool::new(false))?;
    }
    Ok(signs)
}
