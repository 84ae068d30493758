//! Tests of runs: plans beside one another, and beside what was worked by hand.

ghost use Rattle.std.specs.Prelude.{◌≡◌, ◌↔◌, length, IsTrue};

use mrp_netting::PairPlan;
use mrp_qty::Row;

/// Whether a row has these pieces, period by period.
pub fn has_pieces(row: &Row, pieces: &[u64]) -> bool
    ensures { IsTrue result ↔ (row.now ≡ pieces.now) }
{
    let row = row.as_slice();
    row.len() == pieces.len() && row.iter().zip(pieces).all(|(q, e)| q.get() == *e)
}

/// Whether two rows have the same pieces in each period.
fn is_same_row(row: &Row, other: &Row) -> bool
    ensures { IsTrue result ↔ (row.now ≡ other.now) }
{
    let row = row.as_slice();
    let other = other.as_slice();
    row.len() == other.len() && row.iter().zip(other).all(|(q, e)| q.get() == e.get())
}

/// Whether two plans of a pair have the same five rows and as many late orders.
pub fn is_same_plan(plan: &PairPlan, other: &PairPlan) -> bool
    ensures { IsTrue result ↔ ((plan.now.gross ≡ other.now.gross) × (plan.now.incoming ≡ other.now.incoming) ×
        (plan.now.order ≡ other.now.order) × (plan.now.release ≡ other.now.release) ×
        (plan.now.available ≡ other.now.available) × (length plan.now.late ≡ length other.now.late)) }
{
    is_same_row(plan.gross(), other.gross())
        && is_same_row(plan.incoming(), other.incoming())
        && is_same_row(plan.order(), other.order())
        && is_same_row(plan.release(), other.release())
        && is_same_row(plan.available(), other.available())
        && plan.late_count() == other.late_count()
}
