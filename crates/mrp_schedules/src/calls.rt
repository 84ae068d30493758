//! Delivery schedules: their calls, and their reset.

ghost use Rattle.std.specs.Prelude.{◌≡◌, ℕ, ◌+◌, ◌-◌, ◌≤◌, ◌++◌, IfSome, filter_map, length, slice_index, vec_capacity};
ghost use Rattle.mrp_qty.specs.declared.quantity.TheConstants.{MOST};
ghost use Rattle.mrp_record.specs.Text.{body, total};
ghost use Rattle.mrp_net.specs.Shares.{share_of};
ghost use Rattle.mrp_schedules.specs.Schedule.{line_of};
ghost use Rattle.mrp_schedules.specs.Calls.{call_lines, calls_by};

use crate::ScheduleLine;
use mrp_net::share_of;
use mrp_qty::{Qty, Row};

/// Appends the calls for a share of each period's release, from one running share to another in thousandths, to a list
/// that has room for them, from a figure on, and the reset before the first call that is counted anew.
pub(crate) fn add_calls(
    lines: &mut Vec<ScheduleLine>,
    low: u64,
    high: u64,
    release: &Row,
    reset: Option<u64>,
    figure: u64,
)
    requires rises { low ≤ high }
    requires ends { high ≤ 1000 }
    requires reset { IfSome reset (λ from. from ≤ length release.now) }
    requires room { length lines.old.items + length release.now + 1 ≤ vec_capacity lines.old }
    requires small { figure + total (calls_by low high release.now 0 (length release.now)) ≤ MOST }
    ensures lines { (item : ℕ) → lines.new.items
        ≡ lines.old.items ++ filter_map (line_of reset)
        (body item figure reset (calls_by low high release.now 0 (length release.now))) }
    ensures capacity { vec_capacity lines.new ≡ vec_capacity lines.old }
{
    let periods = release.len();
    let Some(from) = reset else {
        add_calls_in(lines, low, high, release, 0, periods, figure);
        return;
    };
    let closed = add_calls_in(lines, low, high, release, 0, from as usize, figure);
    lines.push_reserved(ScheduleLine::Reset {
        period: from,
        closed: Qty::of(closed),
    });
    add_calls_in(lines, low, high, release, from as usize, periods, 0);
}

/// Appends the calls for a share of the releases of the periods from `from` up to `to` to a list that has room for
/// them, from a figure on, and gives the figure that they come to.
fn add_calls_in(
    lines: &mut Vec<ScheduleLine>,
    low: u64,
    high: u64,
    release: &Row,
    from: usize,
    to: usize,
    figure: u64,
) -> u64
    requires rises { low ≤ high }
    requires ends { high ≤ 1000 }
    requires periods { from ≤ to }
    requires inside { to ≤ length release.now }
    requires room { length lines.old.items + (to - from) ≤ vec_capacity lines.old }
    requires small { figure + total (calls_by low high release.now from to) ≤ MOST }
    ensures lines { lines.new.items ≡ lines.old.items ++ call_lines figure (calls_by low high release.now from to) }
    ensures figure { result ≡ figure + total (calls_by low high release.now from to) }
    ensures few { length lines.new.items ≤ length lines.old.items + (to - from) }
    ensures capacity { vec_capacity lines.new ≡ vec_capacity lines.old }
{
    let mut reached = figure;
    for period in from..to {
        let pieces = share_of(low, high, release.get(period).get());
        if pieces > 0 {
            reached += pieces;
            lines.push_reserved(ScheduleLine::Call {
                period: period as u64,
                quantity: Qty::of(pieces),
                cumulative: Qty::of(reached),
            });
        }
    }
    reached
}
