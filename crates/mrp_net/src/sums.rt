//! The network: the keys by which it adds up the rows of a table, their pair and their period.

ghost use Rattle.std.specs.Prelude.{◌+◌};

use mrp_grouping::{AmountOf, KeyOf};
use mrp_master_data::{
    CumRow, DemandRow, FirmRow, PolicyRow, ReceiptRow, ShipRow, SourceRow, UsageRow, VendorRow,
};

/// The pair of a row as its key.
pub struct OfPair;

impl KeyOf<SourceRow> for OfPair {
    ghost key_of = { λ _ s. s.pair.0 };

    fn key(&self, row: &SourceRow) -> usize {
        row.pair.0
    }
}

impl KeyOf<DemandRow> for OfPair {
    ghost key_of = { λ _ d. d.pair.0 };

    fn key(&self, row: &DemandRow) -> usize {
        row.pair.0
    }
}

impl KeyOf<ReceiptRow> for OfPair {
    ghost key_of = { λ _ r. r.pair.0 };

    fn key(&self, row: &ReceiptRow) -> usize {
        row.pair.0
    }
}

impl KeyOf<ShipRow> for OfPair {
    ghost key_of = { λ _ s. s.pair.0 };

    fn key(&self, row: &ShipRow) -> usize {
        row.pair.0
    }
}

impl KeyOf<CumRow> for OfPair {
    ghost key_of = { λ _ c. c.pair.0 };

    fn key(&self, row: &CumRow) -> usize {
        row.pair.0
    }
}

impl KeyOf<FirmRow> for OfPair {
    ghost key_of = { λ _ f. f.pair.0 };

    fn key(&self, row: &FirmRow) -> usize {
        row.pair.0
    }
}

impl KeyOf<PolicyRow> for OfPair {
    ghost key_of = { λ _ p. p.pair.0 };

    fn key(&self, row: &PolicyRow) -> usize {
        row.pair.0
    }
}

impl KeyOf<VendorRow> for OfPair {
    ghost key_of = { λ _ v. v.pair.0 };

    fn key(&self, row: &VendorRow) -> usize {
        row.pair.0
    }
}

/// The parent of a usage row as its key.
pub struct OfParent;

impl KeyOf<UsageRow> for OfParent {
    ghost key_of = { λ _ u. u.parent.0 };

    fn key(&self, row: &UsageRow) -> usize {
        row.parent.0
    }
}

/// The component of a usage row as its key.
pub struct OfComponent;

impl KeyOf<UsageRow> for OfComponent {
    ghost key_of = { λ _ u. u.component.0 };

    fn key(&self, row: &UsageRow) -> usize {
        row.component.0
    }
}

/// The period of a row as its key.
pub struct ByPeriod;

impl KeyOf<DemandRow> for ByPeriod {
    ghost key_of = { λ _ d. d.period };

    fn key(&self, row: &DemandRow) -> usize {
        row.period
    }
}

impl KeyOf<ReceiptRow> for ByPeriod {
    ghost key_of = { λ _ r. r.period };

    fn key(&self, row: &ReceiptRow) -> usize {
        row.period
    }
}

impl KeyOf<ShipRow> for ByPeriod {
    ghost key_of = { λ _ s. s.period };

    fn key(&self, row: &ShipRow) -> usize {
        row.period
    }
}

impl KeyOf<UsageRow> for ByPeriod {
    ghost key_of = { λ _ u. u.period };

    fn key(&self, row: &UsageRow) -> usize {
        row.period
    }
}

/// The period in which a firm planned order is released as its key.
pub struct ByStart;

impl KeyOf<FirmRow> for ByStart {
    ghost key_of = { λ _ f. f.start };

    fn key(&self, row: &FirmRow) -> usize {
        row.start
    }
}

/// The period in which a firm planned order is due as its key.
pub struct ByDue;

impl KeyOf<FirmRow> for ByDue {
    ghost key_of = { λ _ f. f.due };

    fn key(&self, row: &FirmRow) -> usize {
        row.due
    }
}

/// The pieces that a row says as its amount.
pub struct Pieces;

impl AmountOf<DemandRow> for Pieces {
    ghost amount_of = { λ _ d. d.quantity };

    fn amount(&self, row: &DemandRow) -> u64 {
        row.quantity.get()
    }
}

impl AmountOf<ReceiptRow> for Pieces {
    ghost amount_of = { λ _ r. r.quantity };

    fn amount(&self, row: &ReceiptRow) -> u64 {
        row.quantity.get()
    }
}

impl AmountOf<ShipRow> for Pieces {
    ghost amount_of = { λ _ s. s.quantity };

    fn amount(&self, row: &ShipRow) -> u64 {
        row.quantity.get()
    }
}

impl AmountOf<CumRow> for Pieces {
    ghost amount_of = { λ _ c. c.figure };

    fn amount(&self, row: &CumRow) -> u64 {
        row.figure.get()
    }
}

impl AmountOf<FirmRow> for Pieces {
    ghost amount_of = { λ _ f. f.quantity };

    fn amount(&self, row: &FirmRow) -> u64 {
        row.quantity.get()
    }
}

impl AmountOf<VendorRow> for Pieces {
    ghost amount_of = { λ _ v. v.figure + v.transit };

    fn amount(&self, row: &VendorRow) -> u64 {
        row.figure.get() + row.transit.get()
    }
}
