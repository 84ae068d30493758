//! A lane's mailbox between threads: how its two ends are joined, and reconciled, once both are in one thread again.
ghost use Rattle.std.specs.Prelude.{◌≡◌, ◌+◌, ◌<◌, ◌≤◌, ◌++◌, true, All, IfOk, length};
ghost use Rattle.std.specs.Arc.{arc_value};
ghost use Rattle.crossbeam_queue.specs.Passes.{view, IsPassOf};
ghost use Rattle.mrp_net.specs.Lanes.{lanes};
ghost use Rattle.mrp_qty.specs.declared.quantity.TheConstants.{MOST};
ghost use Rattle.mrp_lane.specs.Ends.{AreOfOneLane, HasLegalList};
ghost use Rattle.mrp_lane.specs.Reconciled.{HaveMet, lane_figure, figures_of, figures_on};
ghost use Rattle.mrp_lane.specs.Views.{IsLegal, taken_all};

use crate::send::SendEnd;
use crate::take::{TakeEnd, pop};
use crate::tally::{ItemPieces, Tally};
use crate::view::{LanePass, Mailbox, Meeting, Taken};
use mrp_book::LaneFigure;
use mrp_net::LaneNo;
use mrp_qty::{Memory, Qty};
use mrp_record::Record;
use std::alloc::Global;
use std::marker::Model;
use std::sync::{Arc, Wait};

/// What went over a lane, as its two ends showed it when they were joined.
///
/// Contracts see the network and the lane, the list of all records that were sent, the list of those that
/// were taken, what is left, the stamps of these, and the figures. The lists are what the joined pass to the mailbox
/// knows: it is kept, and has no bytes.
#[derive(Drop)]
pub struct Reconciled {
    pass: LanePass,
    lane: LaneNo,
    sent: u64,
    taken: u64,
    left: Vec<Record>,
    figures: Vec<LaneFigure>,
}

impl Model for Reconciled {
    ghost use Rattle.mrp_lane.specs.Reconciled.{Carried, IsCounted, carried_over};

    ghost Value = { Carried };

    ghost view = { λ r. carried_over r.pass r.taken r.left.items r.figures.items };

    ghost invariant = { λ r. IsCounted r.lane.0 r.sent r.taken
        (carried_over r.pass r.taken r.left.items r.figures.items) };
}

impl Reconciled {
    /// The lane's number.
    pub fn lane(&self) -> LaneNo
        ensures value { result.0 ≡ self.now.lane }
        ensures there { result.0 < length (lanes self.now.network) }
    {
        self.lane
    }

    /// How many records were sent.
    pub fn sent(&self) -> u64
        ensures value { result ≡ length self.now.sent }
        ensures legal { IsLegal self.now.network self.now.lane self.now.sent }
    {
        self.sent
    }

    /// How many of them were taken.
    pub fn taken(&self) -> u64
        ensures value { result ≡ length self.now.taken }
        ensures legal { IsLegal self.now.network self.now.lane self.now.taken }
    {
        self.taken
    }

    /// The records that were sent and not taken, in order.
    pub fn left(&self) -> &[Record]
        ensures value { result.now ≡ self.now.left }
        ensures whole { self.now.sent ≡ self.now.taken ++ self.now.left }
    {
        self.left.as_slice()
    }

    /// The cumulative figures of the lane's items, in the lane's order: shipped by what was sent, received by
    /// what was taken, closed years added.
    pub fn figures(&self) -> &[LaneFigure]
        ensures value { result.now ≡ self.now.figures }
        ensures lists { self.now.figures ≡ figures_on self.now.network self.now.lane self.now.sent self.now.taken }
    {
        self.figures.as_slice()
    }
}

/// What went over a lane, for proofs alone: the pass of its two ends, joined. It has no bytes, and [`join`] alone makes
/// one.
///
/// Contracts see what they see of a [`Reconciled`].
#[derive(Drop)]
pub struct JoinedLane {
    pass: LanePass,
}

impl Model for JoinedLane {
    ghost use Rattle.mrp_lane.specs.Reconciled.{Carried, joined_over};

    ghost Value = { Carried };

    ghost view = { λ j. joined_over j.pass };
}

/// Two ends of a lane that have met: their mailbox, the joined pass to it, and what each counted.
#[derive(Drop)]
struct Met {
    mailbox: Arc<Mailbox, Global>,
    pass: LanePass,
    lane: LaneNo,
    sent: Tally,
    taken: Tally,
}

/// Joins the two ends of one lane, and learns what waits in the mailbox.
fn meet(send: SendEnd, take: TakeEnd) -> Met
    requires same { AreOfOneLane send take }
    ensures ours { IsPassOf (arc_value result.mailbox) result.pass }
    ensures met { HaveMet send take result.pass result.lane.0 result.sent result.taken }
{
    let SendEnd {
        mailbox,
        mut pass,
        lane,
        tally: sent,
    } = send;
    mailbox.absorb::<Meeting>(&mut pass, take.pass);
    mailbox.learn_as::<Taken>(&mut pass);
    Met {
        mailbox,
        pass,
        lane,
        sent,
        taken: take.tally,
    }
}

/// Joins the two ends of one lane, for proofs alone. What lies in the mailbox is dropped with it.
///
/// What was sent is what was taken and then what is left. The figures are those of these lists. It has no allocator
/// and no handle, so it takes no memory and doesn't wait.
pub fn join(send: SendEnd, take: TakeEnd) -> JoinedLane
    requires same { AreOfOneLane send take }
    ensures network { result.network ≡ send.name.network }
    ensures lane { result.lane ≡ send.name.lane }
    ensures sent { result.sent ≡ send.list }
    ensures taken { result.taken ≡ take.list }
    ensures left { send.list ≡ take.list ++ result.left }
    ensures sent_at { result.sent_at ≡ send.stamps }
    ensures taken_at { result.taken_at ≡ take.stamps }
    ensures left_at { (send.stamps ≡ take.stamps ++ result.left_at) × (length result.left_at ≡ length result.left) }
    ensures figures { result.figures ≡ figures_on send.name.network send.name.lane send.list take.list }
    ensures legal_sent { HasLegalList send }
    ensures legal_taken { HasLegalList take }
{
    let met = meet(send, take);
    JoinedLane { pass: met.pass }
}

/// Joins the two ends of one lane and empties the mailbox.
///
/// What was sent is what was taken and then what is left. All figures are of the lists at the call.
///
/// # Errors
///
/// [`Memory`] where a growth is refused; both ends are gone then.
pub fn reconcile<R: Wait>(
    rt: &R,
    alloc: Global,
    send: SendEnd,
    take: TakeEnd,
) -> Result<Reconciled, Memory>
    requires same { AreOfOneLane send take }
    ensures network { IfOk result (λ r. r.network ≡ send.name.network) }
    ensures lane { IfOk result (λ r. r.lane ≡ send.name.lane) }
    ensures sent { IfOk result (λ r. r.sent ≡ send.list) }
    ensures taken { IfOk result (λ r. r.taken ≡ take.list) }
    ensures left { IfOk result (λ r. send.list ≡ take.list ++ r.left) }
    ensures sent_at { IfOk result (λ r. r.sent_at ≡ send.stamps) }
    ensures taken_at { IfOk result (λ r. r.taken_at ≡ take.stamps) }
    ensures left_at { IfOk result (λ r. (send.stamps ≡ take.stamps ++ r.left_at) × (length r.left_at ≡ length r.left)) }
    ensures figures { IfOk result (λ r. r.figures ≡ figures_on send.name.network send.name.lane send.list take.list) }
    ensures legal_sent { HasLegalList send }
    ensures legal_taken { HasLegalList take }
{
    let met = meet(send, take);
    let mut pass = met.pass;
    let left = drained(rt, alloc, &met.mailbox, &mut pass)?;
    let figures = lane_figures(alloc, met.lane, met.sent.items(), met.taken.items())?;
    Ok(Reconciled {
        pass,
        lane: met.lane,
        sent: met.sent.records(),
        taken: met.taken.records(),
        left,
        figures,
    })
}

/// Takes all that is left with the joined pass.
fn drained<R: Wait>(
    rt: &R,
    alloc: Global,
    mailbox: &Mailbox,
    pass: &mut LanePass,
) -> Result<Vec<Record>, Memory>
    requires pass { IsPassOf mailbox.now pass.old }
    requires sends { (view pass.old).sends ≡ true }
    requires takes { (view pass.old).takes ≡ true }
    requires named { (view pass.old).named ≡ true }
    ensures left { IfOk result (λ left. (view pass.old).sent ≡ (view pass.old).taken ++ left.items) }
    ensures took { IfOk result (λ left. view pass.new ≡ taken_all (view pass.old)) }
{
    let mut left = Vec::new(alloc);
    for _ in rt.forever() {
        match pop(rt, mailbox, pass) {
            Some(entry) => left.push(entry)?,
            None => break,
        }
    }
    Ok(left)
}

/// The figures of a lane, item by item.
fn lane_figures(
    alloc: Global,
    lane: LaneNo,
    sent: &[ItemPieces],
    taken: &[ItemPieces],
) -> Result<Vec<LaneFigure>, Memory>
    requires items { length taken.now ≡ length sent.now }
    requires shipped { All (λ i. i.opening + i.pieces ≤ MOST) sent.now }
    requires received { All (λ i. i.opening + i.pieces ≤ MOST) taken.now }
    ensures { IfOk result (λ figures. figures.items ≡ figures_of lane sent.now taken.now) }
{
    let mut figures = Vec::with_capacity(alloc, sent.len())?;
    for at in 0..sent.len() {
        figures.push(figure(lane, sent[at], taken[at]))?;
    }
    Ok(figures)
}

/// The figure of one item.
fn figure(lane: LaneNo, sent: ItemPieces, taken: ItemPieces) -> LaneFigure
    requires shipped { sent.opening + sent.pieces ≤ MOST }
    requires received { taken.opening + taken.pieces ≤ MOST }
    ensures { result ≡ lane_figure lane sent taken }
{
    LaneFigure {
        lane,
        item: sent.item,
        opening: sent.opening,
        shipped: Qty::of(sent.opening.get() + sent.pieces),
        received: Qty::of(taken.opening.get() + taken.pieces),
    }
}
