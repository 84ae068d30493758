//! The run by threads: how the plants' threads tell one another that they stop, and why.

ghost use Rattle.std.specs.Prelude.{IfSome};

use crate::bells::Bells;
use crate::fault::RunFault;
use crate::moving::Lanes;
use mrp_net::{LaneNo, PlantNo};
use std::marker::{Brand, Model, PhantomData};
use std::sync::{OnceLock, Wait};
use std::thread;

/// What holds of each fault for which the plants of a run stop. Whoever begins the run says it.
pub trait StopRule {
    ghost use Rattle.mrp_run.specs.declared.fault.RunFault.{RunFault};

    ghost holds: { RunFault → Type 0 };
}

impl StopRule for Brand {
    ghost holds = { λ _. Unit {0} };
}

/// A fault that was met, by the rule.
#[derive(Drop)]
struct Told<S: StopRule> {
    fault: RunFault,
    rule: PhantomData<S>,
}

impl<S: StopRule> Model for Told<S> {
    ghost use Rattle.mrp_run.specs.declared.fault.RunFault.{RunFault};

    ghost Value = { RunFault };

    ghost view = { λ told. told.fault };

    ghost invariant = { λ told. S.holds told.fault };
}

/// What the plants of a run share: the first fault that one of them has told, for which all stop, and the bells by
/// which they wake one another.
#[derive(Drop)]
pub struct Stop<S: StopRule> {
    told: OnceLock<Told<S>>,
    bells: Option<Bells>,
}

impl<S: StopRule> Stop<S> {
    /// No fault was told. There are no bells: a plant that waits yields, and looks again.
    pub fn new() -> Stop<S> {
        Stop {
            told: OnceLock::new(),
            bells: None,
        }
    }

    /// No fault was told. A plant that waits sleeps until its bell is rung, for a moment at most.
    pub(crate) fn with_bells(bells: Bells) -> Stop<S> {
        Stop {
            told: OnceLock::new(),
            bells: Some(bells),
        }
    }

    /// Wakes the plant at the other end of a lane over which so many records were moved.
    pub(crate) fn ring(&self, lane: LaneNo, lanes: Lanes, count: u64) {
        if let Some(bells) = &self.bells {
            bells.ring(lane, lanes, count);
        }
    }

    /// Takes down the sign at a plant's end of a lane, and answers whether it was up. Without bells there are no signs,
    /// and each counts as up.
    pub(crate) fn take_sign(&self, lane: LaneNo, lanes: Lanes) -> bool {
        match &self.bells {
            Some(bells) => bells.take_sign(lane, lanes),
            None => true,
        }
    }

    /// Waits for a moment, or until the plant's bell is rung.
    pub(crate) fn rest<R: Wait>(&self, rt: &R, plant: PlantNo) {
        match &self.bells {
            Some(bells) => bells.sleep(rt, plant),
            None => thread::yield_now(),
        }
    }

    /// Tells a fault, for which the plants stop. Where one was told, that one stays.
    pub fn tell(&self, fault: RunFault)
        requires by_rule { S.holds fault }
    {
        let _ = self.told.try_set(Told {
            fault,
            rule: PhantomData,
        });
        if let Some(bells) = &self.bells {
            bells.ring_all();
        }
    }

    /// The fault that was told, if one was.
    pub fn fault(&self) -> Option<RunFault>
        ensures by_rule { IfSome result S.holds }
    {
        match self.told.get() {
            Some(told) => Some(told.fault),
            None => None,
        }
    }
}
