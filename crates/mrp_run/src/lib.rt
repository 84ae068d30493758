//! The run by threads of a network, one thread for each plant.
//!
//! Each plant's thread owns its agent and the ends of its lanes, and nothing else of the network. It books
//! what lies in its incoming lanes, plans what is ready and offers what it has, turn by turn, until it is
//! done. (That there is a thread for each plant, that it has these ends and no others, and what it does in a
//! turn, is by construction; no clause says so. That it ends isn't claimed.) A run that ends well, in whichever
//! order the threads' steps fell, gives an outcome: the one plan of the network, and for each lane what two joined ends
//! of it showed. The list sent is a whole text of the lane, the list taken is the same, and the lists of all lanes
//! are those of a run of the events. (That these are the ends that the threads used stands in no clause.)
//! [`run_network`] and [`plan_network`] make the same run: from the one the numbers of messages and the figures can be
//! read, from the other the plans alone.
//!
//! Used by `mrp_api` for plans by threads.
//! Keeps true: a run that ends well has the one plan of its network, in whatever order its threads went.
#![tactic(auto)]

mod bells;
mod booking;
mod dealing;
mod fault;
mod gathering;
mod joining;
pub mod laws;
mod moving;
mod network;
mod offering;
mod plant;
mod results;
mod running;
mod settings;
mod signs;
mod stop;
mod threads;

pub use fault::RunFault;
pub use mrp_agent::{Agent, Gate, NoGate};
pub use mrp_crew::{Crew, MOST_WORKERS};
pub use mrp_lane::{JoinedLane, MOST_ROOM, Reconciled, SendEnd, Stamp, TakeEnd};
pub use mrp_net::PlantNo;
pub use mrp_netting::PairPlan;
pub use mrp_qty::MOST_TURNS;
pub use network::{Outcome, plan_network, run_network, run_network_within};
pub use running::run_plant;
pub use settings::Settings;
pub use stop::{Stop, StopRule};
