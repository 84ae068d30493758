//! Master data: the rows of a planner's table, with names as numbers, what an accepted table says, and how the
//! fields of its rows are spelled.
//!
//! [`RowLists`] grows row by row while a table is read; [`Tables`] is the whole of it. [`number`], [`rule`] and
//! [`supply`] read one field.
//!
//! Used by the reader, by the network, and by all that name plants, items and pairs.
//! Keeps true: `Tables` is an accepted table, and each number, rule and supply has one text.
#![tactic(auto)]

mod dropping;
mod names;
mod numbers;
mod row_lists;
mod rows;
mod spelled_names;
mod spelled_numbers;
mod spelled_rules;
mod spelled_supplies;
mod spelling_laws;
mod tables;
mod texts;

pub use mrp_netting::Policy;
pub use mrp_qty::{
    LimitSet, MOST_BILLS, MOST_DEMANDS, MOST_IN_ROW, MOST_OF_A_KIND, MOST_PAIRS, MOST_PER,
    MOST_PLANTS, MOST_SHARE, MOST_SOURCES, MOST_SOURCES_OF_PAIR,
};
pub use numbers::{ItemNo, PairNo, PlantNo};
pub use row_lists::RowLists;
pub use rows::{
    BillRow, CumRow, DemandRow, FirmRow, PairRow, PolicyRow, ReceiptRow, ResetRow, ShipRow,
    SourceRow, Supply, Usage, UsageRow, VendorRow,
};
pub use spelled_names::is_name;
pub use spelled_numbers::{number, number_within};
pub use spelled_rules::{rule, rule_within};
pub use spelled_supplies::{SpelledSource, SpelledSupply, SupplyFault, names_plant, supply};
pub use spelling_laws::{
    numbers_have_one_text, rules_have_one_text, supplies_are_whole, supplies_have_one_text,
};
pub use tables::Tables;
pub use texts::is_same_text;
