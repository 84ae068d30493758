//! The kinds of rows of a valid table, by their first field, and what the kind says of a row's fields and of its place.

ghost use Rattle.std.specs.Prelude.{◌≡◌};
ghost use Rattle.mrp_validation.specs.Grammar.{used, may_follow};

/// The kinds of rows, in the order in which they stand in a table.
#[derive(Clone, Copy, Debug, PartialEq, Eq)]
pub enum Kind {
    /// The first day, the days of a period and the number of periods.
    Run,
    /// A plant.
    Plant,
    /// An item at a plant.
    Pair,
    /// A component of a made pair.
    Bill,
    /// A demand from outside the firm.
    Demand,
    /// A scheduled receipt.
    Receipt,
    /// A shipment between two plants that is on its way.
    Ship,
    /// A cumulative figure between two plants.
    Cum,
    /// Where such a figure starts anew.
    Reset,
    /// A firm planned order.
    Firm,
    /// How a pair is planned beyond its pair row.
    Policy,
    /// How much of a component goes into its parent from a period on.
    Usage,
    /// Who delivers a bought pair by cumulative schedules.
    Vendor,
    /// The date on which a period begins.
    Day,
    /// The end of the table.
    End,
}

/// How many of the eight fields a row of this kind uses.
pub fn used(kind: Kind) -> usize
    ensures { result ≡ used kind }
{
    match kind {
        Kind::Run => 4,
        Kind::Plant => 2,
        Kind::Pair => 8,
        Kind::Bill => 5,
        Kind::Demand => 5,
        Kind::Receipt => 5,
        Kind::Ship => 6,
        Kind::Cum => 5,
        Kind::Reset => 5,
        Kind::Firm => 6,
        Kind::Policy => 8,
        Kind::Usage => 7,
        Kind::Vendor => 7,
        Kind::Day => 3,
        Kind::End => 2,
    }
}

/// Whether a row of the kind may follow a row of the kind `last`: the run stands first and once, rows of one kind
/// stand together, and nothing follows the end.
pub fn may_follow(kind: Kind, last: Kind) -> bool
    ensures { result ≡ may_follow kind last }
{
    0 < kind as u8 && last as u8 <= kind as u8 && (last as u8) < Kind::End as u8
}
