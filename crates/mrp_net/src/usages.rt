//! The network: how many pieces of a component go into its parents over an edge, by a bill row and usage rows.

ghost use Rattle.std.specs.Prelude.{◌≡◌, ℕ, ◌+◌, ◌≤◌, ◌<◌, length, slice_index, All, IfSome};
ghost use Rattle.std.specs.List.Sorted.{IsNonDecreasingBy};
ghost use Rattle.mrp_qty.specs.declared.quantity.TheConstants.{MOST};
ghost use Rattle.mrp_qty.specs.declared.limits.TheConstants.{MOST_PER};
ghost use Rattle.mrp_net.specs.Usages.{whole, pieces_for, in_force, usages_of, most_per};

use mrp_master_data::{PairNo, Usage, UsageRow};
use mrp_qty::{Qty, Row};

/// What goes into a parent that is released in period `t`, by the rows of one parent and one component.
///
/// The rows stand by rising periods: the last one that begins by `t` says it. Where none does, `per` pieces go into
/// each parent, as the bill row says.
pub fn usage_in(rows: &[UsageRow], per: u64, t: usize) -> Usage
    ensures { result ≡ in_force t (whole per) rows.now }
{
    let mut usage = Usage { per, base: 1 };
    for row in rows {
        if row.period <= t {
            usage = row.usage;
        }
    }
    usage
}

/// How many pieces go into so many parents, rounded up: at most 10^15.
pub fn pieces_for(usage: Usage, parents: u64) -> u64
    requires some { 1 ≤ usage.base }
    requires within { pieces_for usage parents ≤ MOST }
    ensures { result ≡ pieces_for usage parents }
{
    match pieces_in_64_bits(usage, parents) {
        Some(pieces) => pieces,
        None => {
            let pieces = usage.per as u128 * parents as u128;
            let rounding = usage.base as u128 - 1;
            ((pieces + rounding) / usage.base as u128) as u64
        }
    }
}

/// The same where no step passes 64 bits, as of all but very large quantities.
fn pieces_in_64_bits(usage: Usage, parents: u64) -> Option<u64>
    requires { 1 ≤ usage.base }
    ensures { IfSome result (λ pieces. pieces ≡ pieces_for usage parents) }
{
    let pieces = usage.per.checked_mul(parents)?;
    if usage.base == 1 {
        return Some(pieces);
    }
    let raised = pieces.checked_add(usage.base - 1)?;
    Some(raised / usage.base)
}

/// Of the usage rows of a component, which stand in order of their parents, those of one parent, found by halving.
pub fn usages_of(rows: &[UsageRow], parent: PairNo) -> &[UsageRow]
    requires rises { IsNonDecreasingBy (λ u. u.parent.0) rows.now }
    ensures { result.now ≡ usages_of rows.now parent.0 }
{
    if rows.is_empty() {
        return rows;
    }
    let start = rows.partition_point(|row| row.parent.0 < parent.0);
    let end = rows.partition_point(|row| row.parent.0 <= parent.0);
    &rows[start..end]
}

/// The greatest number of pieces for one parent that the bill row, which says `per`, or one of the usage rows says.
pub fn most_per(rows: &[UsageRow], per: u64) -> u64
    requires bases { All (λ u. 1 ≤ u.usage.base) rows.now }
    ensures { result ≡ most_per per rows.now }
{
    let mut most = per;
    for row in rows {
        most = most.max(row.usage.per.div_ceil(row.usage.base));
    }
    most
}

/// Adds what the releases of a parent ask of a component to the component's gross requirements, period by period.
///
/// `per` is what the bill row says, at most 10^6, and `rows` are the usage rows of both, by rising periods. Each sum
/// is at most 10^15.
pub fn add_asked(rows: &[UsageRow], per: u64, release: &Row, gross: &mut Row)
    requires bases { All (λ u. (1 ≤ u.usage.base) × (u.usage.per ≤ MOST_PER)) rows.now }
    requires few { per ≤ MOST_PER }
    requires periods { length gross.old ≡ length release.now }
    requires within { (t : ℕ) → t < length gross.old → slice_index gross.old t
        + pieces_for (in_force t (whole per) rows.now) (slice_index release.now t) ≤ MOST }
    ensures each { (t : ℕ) → t < length gross.old → slice_index gross.new t ≡ slice_index gross.old t
        + pieces_for (in_force t (whole per) rows.now) (slice_index release.now t) }
    ensures size { length gross.new ≡ length gross.old }
{
    if rows.is_empty() {
        gross.add_times(per, release);
    } else {
        add_by_period(rows, per, release, gross);
    }
}

/// The same period by period, by what is in force in each. Periods without a release are left as they are.
fn add_by_period(rows: &[UsageRow], per: u64, release: &Row, gross: &mut Row)
    requires bases { All (λ u. 1 ≤ u.usage.base) rows.now }
    requires periods { length gross.old ≡ length release.now }
    requires within { (t : ℕ) → t < length gross.old → slice_index gross.old t
        + pieces_for (in_force t (whole per) rows.now) (slice_index release.now t) ≤ MOST }
    ensures each { (t : ℕ) → t < length gross.old → slice_index gross.new t ≡ slice_index gross.old t
        + pieces_for (in_force t (whole per) rows.now) (slice_index release.now t) }
    ensures size { length gross.new ≡ length gross.old }
{
    for t in 0..gross.len() {
        let parents = release.get(t).get();
        if parents > 0 {
            let pieces = pieces_for(usage_in(rows, per, t), parents);
            gross.add(t, Qty::of(pieces));
        }
    }
}
