//! The run by threads: how a plant in its thread books the records that come to it.
ghost use Rattle.std.specs.Prelude.{◌<◌, length};
ghost use Rattle.mrp_run.specs.Steps.{PlantIsAtWork, KeepsPlant};

use crate::plant::Plant;
use std::sync::Wait;

/// Books the next record of a lane that comes in, and answers whether there was one. The lane has the place of its end.
pub(crate) fn book_next<R: Wait>(rt: &R, plant: &mut Plant, k: usize) -> bool
    requires work { PlantIsAtWork plant.old }
    requires lane { k < length plant.old.takes.items }
    ensures kept { KeepsPlant plant.old plant.new }
{
    let Some(entry) = plant.takes[k].take(rt) else {
        return false;
    };
    if let Err(_fault) = plant.agent.book_at(k, &entry) {
        unreachable!()
    }
    true
}
