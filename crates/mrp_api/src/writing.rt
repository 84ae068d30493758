//! The library: what a text function on one thread writes of a network, the report that was chosen. A network with a
//! loop or past the bound, and names and periods that it lacks, are refused before anything is written.

ghost use Rattle.std.specs.Prelude.{◌≡◌, ◌≢◌, ◌≤◌, ◌<◌, IfErr, IfOk, true, false};
ghost use Rattle.mrp_loops.specs.Sized.{IsSized};
ghost use Rattle.mrp_master_data.specs.Table.{IsPair, horizon};
ghost use Rattle.mrp_net.specs.PlanLaws.{Fits};
ghost use Rattle.mrp_loops.specs.Codes.{AreCodes};
ghost use Rattle.mrp_api.specs.Answer.{IsAlone, IsAnswer, IsBeforeReport, question_of};
ghost use Rattle.mrp_api.specs.Fault.{IsLate};
ghost use Rattle.mrp_api.specs.Text.{Writes, IsPlanReport};
ghost use Rattle.mrp_api.specs.Reports.{WritesRows, IsPlanRows, IsCodeReport};
ghost use Rattle.mrp_report.specs.Headings.{code_names, lane_names, peg_names, pegs_names};
ghost use Rattle.mrp_api.specs.Reports.{IsPegReport, IsCumReport, IsPegs, IsOrderReport, IsHeaded};
ghost use Rattle.mrp_api.specs.Reports.{AreSchedules, IsAdviceReport, IsKnownPlant, IsKnownSupplier, is_vendor};
ghost use Rattle.mrp_api.specs.Reports.{IsPegsReport, IsReachReport, IsScheduleReport, IsShortagesReport};
ghost use Rattle.mrp_commands.specs.Given.{name_of};
ghost use Rattle.mrp_api.specs.Refusals.{IsNoPlant, IsNoSupplier, RefusesTable, AskPair, AskPlants};
ghost use Rattle.mrp_commands.specs.declared.choice.TheConstants.{MOST_CAPACITY};

use crate::fault::TextFault;
use crate::firm::driven_plan;
use crate::network::{levels_of, sized_of};
use mrp_advice::advice_rows;
use mrp_commands::{Choice, Heading, MOST_CAPACITY};
use mrp_loops::{Levels, SizedNet};
use mrp_master_data::is_same_text;
use mrp_net::{Network, PairNo};
use mrp_plan::{Plan, peg, plan_all};
use mrp_reach::{reach_rows, whole_periods};
use mrp_report::{code_rows, lane_rows, late_rows, order_rows, peg_rows, pegs_rows, plan_rows};
use mrp_schedules::schedule_rows;
use mrp_shortages::shortage_rows;
use mrp_world::last_figures;
use std::alloc::Global;
use std::io::Write;

/// Writes the report of a network that one thread was asked for.
pub(crate) fn write_report<W: Write>(
    alloc: Global,
    network: &Network,
    writer: &mut W,
    choice: Choice<'_>,
) -> Result<(), TextFault>
    requires alone { IsAlone choice }
    ensures text { Writes (W.contents writer.old) (W.contents writer.new) result (IsAnswer choice.entry network.now) }
    ensures rows { WritesRows W.contents writer.old writer.new result (IsPlanRows network.now) }
    ensures refusal { IfErr result (RefusesTable (question_of choice.entry) network.now) }
    ensures untouched { IfErr result (λ fault. IsBeforeReport choice.entry fault → writer.new ≡ writer.old) }
{
    let levels = levels_of(alloc, network)?;
    let sized = sized_of(alloc, network, &levels)?;
    report(alloc, &sized, &levels, writer, choice)
}

/// Writes the report of a sized network that one thread was asked for.
fn report<W: Write>(
    alloc: Global,
    net: &SizedNet<'_>,
    levels: &Levels,
    writer: &mut W,
    choice: Choice<'_>,
) -> Result<(), TextFault>
    requires alone { IsAlone choice }
    requires plannable { IsSized net.now.network }
    requires codes { AreCodes net.now.network levels.now }
    ensures text { Writes (W.contents writer.old) (W.contents writer.new) result
        (IsAnswer choice.entry net.now.network) }
    ensures rows { WritesRows W.contents writer.old writer.new result (IsPlanRows net.now.network) }
    ensures refusal { IfErr result (RefusesTable (question_of choice.entry) net.now.network) }
    ensures untouched { IfErr result (λ fault. IsBeforeReport choice.entry fault → writer.new ≡ writer.old) }
{
    match choice {
        Choice::Plan { capacity, .. } => report_driven(alloc, net, writer, capacity),
        Choice::Check { heading } => report_codes(alloc, net.network(), levels, writer, heading),
        Choice::Reach { heading } => report_reach(alloc, net, writer, heading),
        Choice::Peg {
            plant,
            item,
            period,
            heading,
        } => report_pegs(alloc, net, writer, plant, item, period, heading),
        Choice::Cums { heading } => report_cums(alloc, net, writer, heading),
        Choice::Orders { until, heading } => report_orders(alloc, net, writer, until, heading),
        Choice::Schedule { from, to, heading } => {
            report_schedule(alloc, net, writer, from, to, heading)
        }
        Choice::Pegs { heading } => report_all_pegs(alloc, net, writer, heading),
        Choice::Advice {
            until,
            reach,
            heading,
        } => report_advice(alloc, net, writer, until, reach, heading),
        Choice::Shortages { heading } => report_shortages(alloc, net, writer, heading),
    }
}

/// Writes the plan rows and the late rows of the plan that the plants of a network come to on one thread.
fn report_driven<W: Write>(
    alloc: Global,
    net: &SizedNet<'_>,
    writer: &mut W,
    capacity: u64,
) -> Result<(), TextFault>
    requires capacity { (1 ≤ capacity) × (capacity ≤ MOST_CAPACITY) }
    requires plannable { IsSized net.now.network }
    ensures text { Writes (W.contents writer.old) (W.contents writer.new) result (IsPlanReport net.now.network) }
    ensures rows { WritesRows W.contents writer.old writer.new result (IsPlanRows net.now.network) }
    ensures fault { IfErr result IsLate }
{
    let plan = driven_plan(alloc, net, capacity)?;
    report_plan(alloc, net, &plan, writer)
}

/// Writes the plan rows and the late rows of a plan.
fn report_plan<W: Write>(
    alloc: Global,
    net: &SizedNet<'_>,
    plan: &Plan,
    writer: &mut W,
) -> Result<(), TextFault>
    requires plannable { IsSized net.now.network }
    requires fits { Fits net.now.network plan.now }
    ensures text { Writes (W.contents writer.old) (W.contents writer.new) result (IsPlanReport net.now.network) }
    ensures rows { WritesRows W.contents writer.old writer.new result (IsPlanRows net.now.network) }
    ensures fault { IfErr result IsLate }
{
    plan_rows(alloc, net, plan, writer)?;
    late_rows(alloc, net, plan, writer)?;
    Ok(())
}

/// Writes the code rows of a network that can be planned.
fn report_codes<W: Write>(
    alloc: Global,
    network: &Network,
    levels: &Levels,
    writer: &mut W,
    heading: Heading,
) -> Result<(), TextFault>
    requires codes { AreCodes network.now levels.now }
    requires plannable { IsSized network.now }
    ensures text { Writes (W.contents writer.old) (W.contents writer.new) result
        (IsHeaded heading code_names (IsCodeReport network.now)) }
    ensures fault { IfErr result IsLate }
    ensures untouched { IfErr result (λ fault. fault ≢ TextFault.WriteFault → writer.new ≡ writer.old) }
{
    code_rows(alloc, network, levels, heading, writer)?;
    Ok(())
}

/// Writes the peg rows of the pair of these names in a period, if there are such a pair and such a period.
fn report_pegs<W: Write>(
    alloc: Global,
    net: &SizedNet<'_>,
    writer: &mut W,
    plant: &str,
    item: &str,
    period: u64,
    heading: Heading,
) -> Result<(), TextFault>
    requires plannable { IsSized net.now.network }
    ensures text { Writes (W.contents writer.old) (W.contents writer.new) result
        (IsHeaded heading peg_names (IsPegReport plant.now item.now period net.now.network)) }
    ensures refusal { IfErr result (RefusesTable (AskPair plant.now item.now period) net.now.network) }
    ensures untouched { IfErr result (λ fault. fault ≢ TextFault.WriteFault → writer.new ≡ writer.old) }
{
    let network = net.network();
    let Some(x) = network.find(plant, item) else {
        return Err(TextFault::NoPair);
    };
    if period >= network.horizon().get() {
        return Err(TextFault::NoPeriod);
    }
    report_pegs_at(alloc, net, writer, x, period as usize, heading)
}

/// Writes the peg rows of a pair in a period below the horizon.
fn report_pegs_at<W: Write>(
    alloc: Global,
    net: &SizedNet<'_>,
    writer: &mut W,
    x: PairNo,
    period: usize,
    heading: Heading,
) -> Result<(), TextFault>
    requires plannable { IsSized net.now.network }
    requires pair { IsPair net.now.network x.0 }
    requires period { period < horizon net.now.network }
    ensures text { Writes (W.contents writer.old) (W.contents writer.new) result
        (IsHeaded heading peg_names (IsPegs net.now.network x.0 period)) }
    ensures fault { IfErr result IsLate }
    ensures untouched { IfErr result (λ fault. fault ≢ TextFault.WriteFault → writer.new ≡ writer.old) }
{
    let plan = plan_all(alloc, net)?;
    let terms = peg(alloc, net, &plan, x, period)?;
    peg_rows(alloc, net, terms.as_slice(), heading, writer)?;
    Ok(())
}

/// Writes the lane rows: the cumulative figures once all is shipped and received.
fn report_cums<W: Write>(
    alloc: Global,
    net: &SizedNet<'_>,
    writer: &mut W,
    heading: Heading,
) -> Result<(), TextFault>
    requires { IsSized net.now.network }
    ensures text { Writes (W.contents writer.old) (W.contents writer.new) result
        (IsHeaded heading lane_names (IsCumReport net.now.network)) }
    ensures fault { IfErr result IsLate }
    ensures untouched { IfErr result (λ fault. fault ≢ TextFault.WriteFault → writer.new ≡ writer.old) }
{
    let plan = plan_all(alloc, net)?;
    let figures = last_figures(alloc, net, &plan)?;
    lane_rows(alloc, net.network(), figures.as_slice(), heading, writer)?;
    Ok(())
}

/// Writes the order rows of those orders that are released in period `until` or before it, without it of all.
fn report_orders<W: Write>(
    alloc: Global,
    net: &SizedNet<'_>,
    writer: &mut W,
    until: Option<u64>,
    heading: Heading,
) -> Result<(), TextFault>
    requires { IsSized net.now.network }
    ensures text { Writes (W.contents writer.old) (W.contents writer.new) result
        (IsOrderReport until heading net.now.network) }
    ensures fault { IfErr result IsLate }
    ensures untouched { IfErr result (λ fault. fault ≢ TextFault.WriteFault → writer.new ≡ writer.old) }
{
    let plan = plan_all(alloc, net)?;
    order_rows(alloc, net, &plan, until, heading, writer)?;
    Ok(())
}

/// Writes the schedule rows of one supplier, a plant or a vendor, and one customer where these are named.
fn report_schedule<W: Write>(
    alloc: Global,
    net: &SizedNet<'_>,
    writer: &mut W,
    from: Option<&str>,
    to: Option<&str>,
    heading: Heading,
) -> Result<(), TextFault>
    requires plannable { IsSized net.now.network }
    ensures text { Writes (W.contents writer.old) (W.contents writer.new) result
        (IsScheduleReport (name_of from.entry) (name_of to.entry) heading net.now.network) }
    ensures refusal { IfErr result (RefusesTable (AskPlants (name_of from.entry) (name_of to.entry)) net.now.network) }
    ensures untouched { IfErr result (λ fault. fault ≢ TextFault.WriteFault → writer.new ≡ writer.old) }
{
    let network = net.network();
    know_supplier(network, from)?;
    know_plant(network, to)?;
    report_schedules(alloc, net, writer, from, to, heading)
}

/// Looks for the plant of that name, where a name is given.
fn know_plant(network: &Network, name: Option<&str>) -> Result<(), TextFault>
    ensures known { IfOk result (λ _. IsKnownPlant network.now (name_of name.entry)) }
    ensures unknown { IfErr result (λ fault. (fault ≡ TextFault.NoPlant) × IsNoPlant network.now (name_of name.entry)) }
{
    let Some(name) = name else {
        return Ok(());
    };
    match network.find_plant(name) {
        Some(_) => Ok(()),
        None => Err(TextFault::NoPlant),
    }
}

/// Looks for the plant or the vendor of that name, where a name is given.
fn know_supplier(network: &Network, name: Option<&str>) -> Result<(), TextFault>
    ensures known { IfOk result (λ _. IsKnownSupplier network.now (name_of name.entry)) }
    ensures unknown { IfErr result (λ fault. (fault ≡ TextFault.NoPlant) × IsNoSupplier network.now (name_of name.entry)) }
{
    let Some(name) = name else {
        return Ok(());
    };
    match network.find_plant(name) {
        Some(_) => Ok(()),
        None => know_vendor(network, name),
    }
}

/// Looks for a vendor of that name.
fn know_vendor(network: &Network, name: &str) -> Result<(), TextFault>
    ensures known { IfOk result (λ _. is_vendor network.now name.now ≡ true) }
    ensures unknown { IfErr result (λ fault. (fault ≡ TextFault.NoPlant) × (is_vendor network.now name.now ≡ false)) }
{
    if is_vendor(network, name) {
        Ok(())
    } else {
        Err(TextFault::NoPlant)
    }
}

/// Whether a vendor has that name.
fn is_vendor(network: &Network, name: &str) -> bool
    ensures { result ≡ is_vendor network.now name.now }
{
    network
        .vendors()
        .iter()
        .any(|vendor| is_same_text(name, vendor.name.as_str()))
}

/// Writes the schedule rows of the supplier and the customer of these names, of all where none is given.
fn report_schedules<W: Write>(
    alloc: Global,
    net: &SizedNet<'_>,
    writer: &mut W,
    supplier: Option<&str>,
    customer: Option<&str>,
    heading: Heading,
) -> Result<(), TextFault>
    requires { IsSized net.now.network }
    ensures text { Writes (W.contents writer.old) (W.contents writer.new) result
        (AreSchedules (name_of supplier.entry) (name_of customer.entry) heading net.now.network) }
    ensures fault { IfErr result IsLate }
    ensures untouched { IfErr result (λ fault. fault ≢ TextFault.WriteFault → writer.new ≡ writer.old) }
{
    let plan = plan_all(alloc, net)?;
    schedule_rows(alloc, net, &plan, supplier, customer, heading, writer)?;
    Ok(())
}

/// Writes the pegs rows of the whole plan.
fn report_all_pegs<W: Write>(
    alloc: Global,
    net: &SizedNet<'_>,
    writer: &mut W,
    heading: Heading,
) -> Result<(), TextFault>
    requires { IsSized net.now.network }
    ensures text { Writes (W.contents writer.old) (W.contents writer.new) result
        (IsHeaded heading pegs_names (IsPegsReport net.now.network)) }
    ensures fault { IfErr result IsLate }
    ensures untouched { IfErr result (λ fault. fault ≢ TextFault.WriteFault → writer.new ≡ writer.old) }
{
    let plan = plan_all(alloc, net)?;
    pegs_rows(alloc, net, &plan, heading, writer)?;
    Ok(())
}

/// Writes the reach rows: how far the requirements and the releases of each pair are whole.
fn report_reach<W: Write>(
    alloc: Global,
    net: &SizedNet<'_>,
    writer: &mut W,
    heading: Heading,
) -> Result<(), TextFault>
    requires { IsSized net.now.network }
    ensures text { Writes (W.contents writer.old) (W.contents writer.new) result
        (IsReachReport heading net.now.network) }
    ensures fault { IfErr result IsLate }
    ensures untouched { IfErr result (λ fault. fault ≢ TextFault.WriteFault → writer.new ≡ writer.old) }
{
    let wholes = whole_periods(alloc, net)?;
    reach_rows(alloc, net, wholes.as_slice(), heading, writer)?;
    Ok(())
}

/// Writes the advice rows of those open orders that come in period `until` or before it, without it of all; with `reach`
/// messages that the horizon makes are told as beyond it.
fn report_advice<W: Write>(
    alloc: Global,
    net: &SizedNet<'_>,
    writer: &mut W,
    until: Option<u64>,
    reach: bool,
    heading: Heading,
) -> Result<(), TextFault>
    requires { IsSized net.now.network }
    ensures text { Writes (W.contents writer.old) (W.contents writer.new) result
        (IsAdviceReport until reach heading net.now.network) }
    ensures fault { IfErr result IsLate }
    ensures untouched { IfErr result (λ fault. fault ≢ TextFault.WriteFault → writer.new ≡ writer.old) }
{
    let plan = plan_all(alloc, net)?;
    if reach {
        let wholes = whole_periods(alloc, net)?;
        let known = Some(wholes.as_slice());
        advice_rows(alloc, net, &plan, known, until, heading, writer)?;
        return Ok(());
    }
    advice_rows(alloc, net, &plan, None, until, heading, writer)?;
    Ok(())
}

/// Writes the shortage rows of the plan.
fn report_shortages<W: Write>(
    alloc: Global,
    net: &SizedNet<'_>,
    writer: &mut W,
    heading: Heading,
) -> Result<(), TextFault>
    requires { IsSized net.now.network }
    ensures text { Writes (W.contents writer.old) (W.contents writer.new) result
        (IsShortagesReport heading net.now.network) }
    ensures fault { IfErr result IsLate }
    ensures untouched { IfErr result (λ fault. fault ≢ TextFault.WriteFault → writer.new ≡ writer.old) }
{
    let plan = plan_all(alloc, net)?;
    shortage_rows(alloc, net, &plan, heading, writer)?;
    Ok(())
}
