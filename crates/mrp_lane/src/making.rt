//! A lane's mailbox between threads: how its two ends are made.
ghost use Rattle.std.specs.Prelude.{◌≡◌, ◌≤◌, ◌<◌, [], min, length, IfOk};
ghost use Rattle.std.specs.Arc.{arc_value};
ghost use Rattle.crossbeam_queue.specs.Passes.{view, IsPassOf, IsSamePass, ruled_capacity};
ghost use Rattle.mrp_net.specs.Lanes.{lanes, lane_at};
ghost use Rattle.mrp_net.specs.Texts.{longest_text};
ghost use Rattle.mrp_lane.specs.Views.{sending, taking, unnamed};
ghost use Rattle.mrp_qty.specs.declared.limits.TheConstants.{MOST_ROOM};

use crate::send::SendEnd;
use crate::take::TakeEnd;
use crate::tally::Tally;
use crate::view::{LanePass, Mailbox, Naming, Parting};
use mrp_loops::SizedNet;
use mrp_net::{LaneNo, Network};
use mrp_qty::Memory;
use std::alloc::Global;
use std::marker::Brand;
use std::sync::Arc;

/// The two ends of a new mailbox for a lane of the network.
///
/// The mailbox has room for `capacity` records, 1 to [`MOST_ROOM`], or for the longest text that the
/// lane can have where that is less. Nothing was sent or taken yet.
///
/// # Errors
///
/// [`Memory`] where a growth is refused.
pub fn lane(
    alloc: Global,
    net: &SizedNet<'_>,
    lane: LaneNo,
    capacity: u64,
) -> Result<(SendEnd, TakeEnd), Memory>
    requires lane { lane.0 < length (lanes net.now.network) }
    requires capacity { (1 ≤ capacity) × (capacity ≤ MOST_ROOM) }
    ensures network { IfOk result (λ ends. ends.0.name.network ≡ net.now.network) }
    ensures lane { IfOk result (λ ends. ends.0.name.lane ≡ lane.0) }
    ensures room { IfOk result (λ ends. ends.0.name.room
        ≡ min capacity (longest_text net.now.network (lane_at net.now.network lane.0))) }
    ensures same { IfOk result (λ ends. ends.0.name ≡ ends.1.name) }
    ensures empty { IfOk result (λ ends. (ends.0.list ≡ []) × (ends.1.list ≡ [])) }
    ensures unstamped { IfOk result (λ ends. (ends.0.stamps ≡ []) × (ends.1.stamps ≡ [])) }
{
    let network = net.network();
    let room = capacity.min(network.longest_text(lane));
    let sent = Tally::of(alloc, network, lane)?;
    let taken = Tally::of(alloc, network, lane)?;
    let (mailbox, takers_mailbox, mut pass) = shared(alloc, room)?;
    let takers_pass = name(&mailbox, &mut pass, network, lane);
    let send = SendEnd {
        mailbox,
        pass,
        lane,
        tally: sent,
    };
    let take = TakeEnd {
        mailbox: takers_mailbox,
        pass: takers_pass,
        lane,
        tally: taken,
    };
    Ok((send, take))
}

/// A new mailbox for two ends, and its first pass.
fn shared(
    alloc: Global,
    room: u64,
) -> Result<(Arc<Mailbox, Global>, Arc<Mailbox, Global>, LanePass), Memory>
    requires room { 1 ≤ room }
    ensures room { IfOk result (λ r. ruled_capacity (arc_value r.0) ≡ room) }
    ensures one { IfOk result (λ r. arc_value r.1 ≡ arc_value r.0) }
    ensures pass { IfOk result (λ r. IsPassOf (arc_value r.0) r.2) }
    ensures first { IfOk result (λ r. view r.2 ≡ unnamed) }
{
    let (mailbox, pass) = Mailbox::ruled(alloc, room as usize)?;
    let mailbox = Arc::new(alloc, mailbox)?;
    let takers_mailbox = Arc::try_clone(&mailbox)?;
    Ok((mailbox, takers_mailbox, pass))
}

/// Tells the first pass of a mailbox whose it is, and makes the receiver's.
fn name(mailbox: &Mailbox, pass: &mut LanePass, network: &Network, lane: LaneNo) -> LanePass
    requires pass { IsPassOf mailbox.now pass.old }
    requires first { view pass.old ≡ unnamed }
    ensures same { IsSamePass pass.old pass.new }
    ensures takers { IsPassOf mailbox.now result }
    ensures sends { view pass.new ≡ sending network.now lane.0 }
    ensures takes { view result ≡ taking network.now lane.0 }
{
    part::<Brand>(mailbox, pass, network, lane)
}

/// Tells the first pass of a mailbox its name, whichever that is, and makes the receiver's.
fn part<N: Naming>(
    mailbox: &Mailbox,
    pass: &mut LanePass,
    network: &Network,
    lane: LaneNo,
) -> LanePass
    requires pass { IsPassOf mailbox.now pass.old }
    requires first { view pass.old ≡ unnamed }
    requires network { network.now ≡ N.network }
    requires lane { lane.0 ≡ N.lane }
    ensures same { IsSamePass pass.old pass.new }
    ensures takers { IsPassOf mailbox.now result }
    ensures sends { view pass.new ≡ sending network.now lane.0 }
    ensures takes { view result ≡ taking network.now lane.0 }
{
    mailbox.another::<Parting<N>>(pass)
}
