//! Advice: what the periods of a pair lack beside its open orders.

ghost use Rattle.std.specs.Prelude.{◌≡◌, ℕ, ◌+◌, ◌<◌, ◌≤◌, true, false, IfOk, length, slice_index, sum, take};
ghost use Rattle.mrp_qty.specs.declared.quantity.TheConstants.{MOST};
ghost use Rattle.mrp_qty.specs.declared.horizon.TheConstants.{LONGEST};
ghost use Rattle.mrp_netting.specs.PlanningBound.{IsWithinData, data_of};
ghost use Rattle.mrp_master_data.specs.Table.{IsPair, horizon};
ghost use Rattle.mrp_net.specs.Plan.{pair_data};
ghost use Rattle.mrp_net.specs.PlanLaws.{Fits};
ghost use Rattle.mrp_loops.specs.Sized.{IsSized};
ghost use Rattle.mrp_advice.specs.Lacking.{AreLacks, HaveRoom, LacksBeside, lack_of_stock};

use mrp_master_data::PairNo;
use mrp_net::{FirmRows, Network};
use mrp_netting::{PairParams, PlanningData};
use mrp_plan::Plan;
use mrp_qty::{Horizon, Memory, Qty, Row};
use std::alloc::Global;

/// What each period of a pair lacks, in pieces.
#[derive(Drop)]
pub(crate) struct Lacks {
    /// Beside receipts that may be counted sooner than they come. It says nothing where the policy's `sooner` is 0.
    pub(crate) receipts: Row,
    /// Beside the other open orders.
    pub(crate) others: Row,
}

impl Lacks {
    /// Room for so many periods.
    pub(crate) fn room(alloc: Global, horizon: Horizon) -> Result<Lacks, Memory>
        ensures { IfOk result (HaveRoom horizon) }
    {
        let receipts = Row::zero(alloc, horizon)?;
        let others = Row::zero(alloc, horizon)?;
        Ok(Lacks { receipts, others })
    }
}

/// Writes what each period of the pair lacks by the gross requirements of the plan, whatever stood here.
pub(crate) fn find_lacks(network: &Network, plan: &Plan, x: PairNo, lacks: &mut Lacks)
    requires sized { IsSized network.now }
    requires fits { Fits network.now plan.now }
    requires pair { IsPair network.now x.0 }
    requires room { HaveRoom (horizon network.now) lacks.old }
    ensures lacks { AreLacks (pair_data network.now plan.now x.0) lacks.new }
    ensures room { HaveRoom (horizon network.now) lacks.new }
{
    let policy = network.policy(x);
    if policy.sooner > 0 {
        count_sooner(network, plan, x, lacks);
        return;
    }
    let params = network.pair(x).params();
    let gross = plan.pair(x).gross();
    find_lack_of_stock(params, policy.cover, gross, &mut lacks.others);
}

/// Writes what each period lacks of a pair whose receipts may be counted sooner than they come.
fn count_sooner(network: &Network, plan: &Plan, x: PairNo, lacks: &mut Lacks)
    requires sized { IsSized network.now }
    requires fits { Fits network.now plan.now }
    requires pair { IsPair network.now x.0 }
    requires room { HaveRoom (horizon network.now) lacks.old }
    ensures receipts { LacksBeside (pair_data network.now plan.now x.0) true lacks.new.receipts }
    ensures others { LacksBeside (pair_data network.now plan.now x.0) false lacks.new.others }
{
    let terms = network.terms(x);
    let mut firm = FirmRows::new(network.horizon());
    firm.write(terms.orders);
    let given = firm.planning_data(&terms, network.incoming_row(x));
    find_both(&given, plan.pair(x).gross(), lacks);
}

/// Writes what each period lacks beside the receipts, and beside the other open orders.
fn find_both(given: &PlanningData<'_>, gross: &Row, lacks: &mut Lacks)
    requires within { IsWithinData (data_of given.now gross.now) }
    requires room { HaveRoom (length gross.now) lacks.old }
    ensures receipts { LacksBeside (data_of given.now gross.now) true lacks.new.receipts }
    ensures others { LacksBeside (data_of given.now gross.now) false lacks.new.others }
{
    let sooner = given.policy.sooner as usize;
    let cover = given.policy.cover as usize;
    let on_hand = given.params.on_hand.get();
    let mut could = front_pieces(given.receipts, sooner);
    let mut asked = given.params.safety.get() + front_quantity(gross, cover);
    let mut has = on_hand;
    let mut short = 0;
    'periods: for t in 0..gross.len() {
        could += pieces_at(given.receipts, t + sooner);
        asked += quantity_at(gross, t + cover);
        has += pieces_at(given.arrivals, t) + pieces_at(given.firm_due, t);
        let lack = asked.saturating_sub(has);
        short = lack.max(short);
        lacks.receipts.set(t, Qty::of(lack));
        let counted = could.min(short);
        lacks
            .others
            .set(t, Qty::of(asked.saturating_sub(on_hand + counted)));
    }
}

/// Writes what safety stock and gross requirements, those of the periods of cover among them, ask by each period beyond
/// what is on hand.
fn find_lack_of_stock(params: PairParams, cover: u64, gross: &Row, lacks: &mut Row)
    requires asked { params.safety + sum gross.now ≤ MOST }
    requires cover { cover ≤ LONGEST }
    requires room { length lacks.old ≡ length gross.now }
    ensures each { (t : ℕ) → t < length gross.now
        → slice_index lacks.new t ≡ lack_of_stock params cover gross.now t }
    ensures size { length lacks.new ≡ length gross.now }
{
    let cover = cover as usize;
    let mut asked = params.safety.get() + front_quantity(gross, cover);
    'periods: for t in 0..gross.len() {
        asked += quantity_at(gross, t + cover);
        lacks.set(t, Qty::of(asked.saturating_sub(params.on_hand.get())));
    }
}

/// The pieces of period `t`, none past the end of the row.
fn pieces_at(pieces: &[u64], t: usize) -> u64
    ensures { result ≡ slice_index pieces.now t }
{
    if t < pieces.len() { pieces[t] } else { 0 }
}

/// The quantity of period `t`, 0 past the end of the row.
fn quantity_at(row: &Row, t: usize) -> u64
    ensures { result ≡ slice_index row.now t }
{
    if t < row.len() { row.get(t).get() } else { 0 }
}

/// The pieces of the first `count` periods.
fn front_pieces(pieces: &[u64], count: usize) -> u64
    requires { sum pieces.now ≤ MOST }
    ensures { result ≡ sum (take count pieces.now) }
{
    let end = count.min(pieces.len());
    let mut total = 0;
    'periods: for t in 0..end {
        total += pieces[t];
    }
    total
}

/// The quantities of the first `count` periods.
fn front_quantity(row: &Row, count: usize) -> u64
    requires { sum row.now ≤ MOST }
    ensures { result ≡ sum (take count row.now) }
{
    let end = count.min(row.len());
    let mut total = 0;
    'periods: for t in 0..end {
        total += row.get(t).get();
    }
    total
}
