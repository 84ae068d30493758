//! Tests of runs: the agents of a network, each alone. What one sends is handed to the agent of the other plant.

ghost use Rattle.std.specs.Prelude.{◌≡◌, ◌<◌, true, length, IfOk, IfSome, IfNone};
ghost use Rattle.mrp_master_data.specs.Table.{IsPair};
ghost use Rattle.mrp_net.specs.Lanes.{lanes};
ghost use Rattle.mrp_run_tests.specs.Hands.{AreAlone, IsHanded};

use mrp_agent::Agent;
use mrp_loops::SizedNet;
use mrp_net::{LaneNo, Network, PairNo, PlantNo};
use mrp_plant_view::PlantView;
use mrp_record::Record;
use mrp_world::Plant;
use std::alloc::Global;
use std::test::Fail;

/// The agents of all plants, before the first record.
pub(super) fn agents_of(alloc: Global, net: &SizedNet) -> Result<Vec<Agent>, Fail>
    ensures { IfOk result (λ v. AreAlone net.now.network v.items) }
{
    let network = net.network();
    let mut agents = Vec::with_capacity(alloc, network.plants())?;
    for p in 0..network.plants() {
        let view = PlantView::of(alloc, network, PlantNo(p))?;
        let agent = <Agent as Plant>::new(alloc, view)?;
        agents.push(agent)?;
    }
    Ok(agents)
}

/// Takes the next record of a lane from the agent that sends it.
fn send(network: &Network, agents: &mut [Agent], lane: LaneNo) -> Option<Record>
    requires lane { lane.0 < length (lanes network.now) }
    requires alone { AreAlone network.now agents.old }
    ensures some { IfSome result (λ r. IsHanded network.now agents.new lane.0 r) }
    ensures none { IfNone result (AreAlone network.now agents.new) }
{
    let sender = network.lane(lane).sender;
    match Plant::send(&mut agents[sender.0], lane) {
        Some(entry) => Some(entry),
        None => None,
    }
}

/// Gives a record to the agent that receives its lane, and answers whether it is booked.
fn book(network: &Network, agents: &mut [Agent], lane: LaneNo, entry: &Record) -> bool
    requires lane { lane.0 < length (lanes network.now) }
    requires handed { IsHanded network.now agents.old lane.0 entry.now }
    ensures booked { result ≡ true }
    ensures alone { AreAlone network.now agents.new }
{
    let receiver = network.lane(lane).receiver;
    match Plant::book(&mut agents[receiver.0], lane, entry) {
        Ok(()) => true,
        Err(_fault) => false,
    }
}

/// Hands the next record of a lane over, and answers it.
pub(super) fn hand_over(network: &Network, agents: &mut [Agent], lane: LaneNo) -> Option<Record>
    requires lane { lane.0 < length (lanes network.now) }
    requires alone { AreAlone network.now agents.old }
    ensures alone { AreAlone network.now agents.new }
{
    let entry = send(network, agents, lane)?;
    let _booked = book(network, agents, lane, &entry);
    Some(entry)
}

/// The next record of a lane, which stays with the agent that sends it.
pub(super) fn next_out(network: &Network, agents: &[Agent], lane: LaneNo) -> Option<Record>
    requires lane { lane.0 < length (lanes network.now) }
    requires alone { AreAlone network.now agents.now }
{
    let sender = network.lane(lane).sender;
    Plant::next_out(&agents[sender.0], lane)
}

/// Lets the agent of a pair plan it, if it can be planned.
pub(super) fn plan(network: &Network, agents: &mut [Agent], x: PairNo) -> bool
    requires pair { IsPair network.now x.0 }
    requires alone { AreAlone network.now agents.old }
    ensures alone { AreAlone network.now agents.new }
{
    let plant = network.pair(x).plant;
    Plant::plan(&mut agents[plant.0], x)
}
