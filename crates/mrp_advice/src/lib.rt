//! Advice, the exception messages for open orders, firm planned orders among them: which to
//! expedite, to defer and to cancel.
//!
//! A message changes no plan: the plan takes each open order in the period that its row says, but for receipts
//! that the policy of their pair lets it count sooner. A row of the report ends with a line feed, and the names of
//! the columns may stand above. The room for the report is taken before its first byte is sent: where it is refused,
//! the writer is as it was.
//!
//! Used by `mrp_api`, which writes the report.
//! Keeps true: an order is needed in the first period that what comes before it doesn't cover; one that is due
//! then has no message. Receipts that the plan counts sooner, and no others of their pairs, are expedited. Without the orders that are to be cancelled
//! a pair orders the same by the same gross requirements; a cancelled firm planned order takes no components, so theirs
//! may change. Where the whole periods of each pair are given, each message but `beyond` is a message of every table that
//! goes on where this one ends.
#![tactic(auto)]

mod advice;
mod advice_laws;
mod advice_report;
mod beyond;
mod beyond_laws;
mod gathering;
mod lacks;
mod orders;
mod run_out;

pub use advice::{Action, Advice};
pub use advice_laws::{
    advice_is_read_back, cancelled_orders_change_nothing, later_messages_are_dropped,
    needed_receipts_are_counted_sooner, needs_rise, open_orders_are_needed_by_the_plan,
    open_orders_come_in, plain_pairs_are_advised_by_balance, receipts_counted_sooner_are_expedited,
    timely_orders_suffice, worked_orders_are_needed,
};
pub use advice_report::advice_rows;
pub use beyond_laws::known_messages_stay;
pub use mrp_csv_out::{Heading, ReportFault};
pub use mrp_net::PlantNo;
pub use orders::{OpenOrder, OrderKind};
