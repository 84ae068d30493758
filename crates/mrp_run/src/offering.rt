//! The run by threads: how a plant in its thread offers the records that it has to send.
ghost use Rattle.std.specs.Prelude.{◌≡◌, ◌<◌, [], ◌∷◌, ◌++◌, length, IfErr, OnOk};
ghost use Rattle.mrp_lane.specs.Ends.{IsNextRecord};
ghost use Rattle.mrp_run.specs.Steps.{PlantIsAtWork, KeepsPlant, clock};

use crate::plant::Plant;
use mrp_lane::{Record, SendEnd, Stamp};
use std::marker::Brand;
use std::snapshot::Snapshot;
use std::sync::Wait;

/// Offers the next record of a lane, and answers whether there was one and there was room for it. Whether there is room
/// is asked first, so that no record is computed to be refused (by construction; no clause says so). A record that is
/// refused stays the next one. The ends and what the agent sees are both in lane order, so the lane has the place of
/// its end.
pub(crate) fn offer_next<R: Wait>(rt: &R, plant: &mut Plant, k: usize) -> bool
    requires work { PlantIsAtWork plant.old }
    requires lane { k < length plant.old.sends.items }
    ensures kept { KeepsPlant plant.old plant.new }
{
    if !has_room(plant, k) {
        return false;
    }
    let Some(next) = plant.agent.next_at(k) else {
        return false;
    };
    let before = Snapshot::of(&*plant);
    if let Err(_back) = offer_at::<Brand, R>(rt, before, &mut plant.sends[k], next.entry) {
        return false;
    }
    plant.agent.sent_at(k, next);
    true
}

/// Whether there is room on a lane for a record.
fn has_room(plant: &mut Plant, k: usize) -> bool
    requires work { PlantIsAtWork plant.old }
    requires lane { k < length plant.old.sends.items }
    ensures work { PlantIsAtWork plant.new }
    ensures lane { k < length plant.new.sends.items }
    ensures kept { KeepsPlant plant.old plant.new }
{
    plant.sends[k].has_room()
}

/// Offers a record with the clock of its plant as the stamp.
fn offer_at<S: Stamp, R: Wait>(
    rt: &R,
    _plant: Snapshot<Plant>,
    end: &mut SendEnd,
    entry: Record,
) -> Result<(), Record>
    requires stamp { S.stamp ≡ clock _plant.value }
    requires legal { IsNextRecord end.old entry }
    ensures name { end.new.name ≡ end.old.name }
    ensures sent { OnOk result (end.new.list ≡ end.old.list ++ entry ∷ []) }
    ensures stamped { OnOk result (end.new.stamps ≡ end.old.stamps ++ clock _plant.value ∷ []) }
    ensures unchanged { IfErr result (λ _. end.new.list ≡ end.old.list) }
    ensures unstamped { IfErr result (λ _. end.new.stamps ≡ end.old.stamps) }
{
    end.offer::<S, R>(rt, entry)
}
