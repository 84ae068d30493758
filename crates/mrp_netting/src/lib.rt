//! Netting one pair, the plan of it: what is netted, ordered and released, period by period, where the gross
//! requirements and the scheduled receipts are given.
//!
//! `specs/` has its definition, the record of Orlicky's material requirements planning, in the terms of the APICS
//! Dictionary: gross requirements, scheduled receipts, net requirements, planned order receipts, planned order
//! releases, projected available balance. [`plan_pair`] writes its rows into a [`PairPlan`], which is used again from
//! pair to pair. Contracts see a [`PairPlan`] as its five rows and the list of its late orders.
//!
//! [`plan_from`] plans a pair from one record of its planning data, with firm planned orders, a planning time fence,
//! receipts that count sooner, periods of cover, and a minimum and a multiple of orders. Without these it is the plan
//! of [`plan_pair`].
//!
//! Used by the plan of a network, by agents and those who drive them, and by reports.
//! Keeps true: the rows of a `PairPlan` are those of the definition; nothing is ordered without a net requirement.
#![tactic(auto)]

mod blank;
mod counting;
mod incoming;
mod late;
mod laws;
mod matching;
mod orders;
mod params;
mod pieces;
mod plan;
mod planning_data;
mod planning_laws;
mod releasing;

pub use blank::blank_plans;
pub use laws::{
    available_covers_safety, lot_for_lot_orders_the_need, nothing_is_ordered_without_a_need,
    orders_are_released, orders_cover_the_need, periods_is_greatest, releases_are_bounded,
    rows_stay_within, rules_have_one_plan,
};
pub use params::{Late, PairParams};
pub use plan::{PairPlan, is_plan, is_plan_from, plan_from, plan_pair};
pub use planning_data::{PlanningData, Policy};
pub use planning_laws::{
    all_comes_in, all_rows_stay_within, available_covers_ahead, fence_holds_releases,
    needed_receipts_are_counted, needless_orders_change_nothing, orders_are_least_multiples,
    orders_come_after_receipts, plain_pairs_are_planned_from_two_rows,
    planned_and_firm_orders_are_released, receipts_are_counted, stock_is_kept, sum_is_enough,
    worked_pairs_are_planned,
};
