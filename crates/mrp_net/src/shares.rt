//! The network: the share of a release that one of its sources is asked for, by the one rounding rule.

ghost use Rattle.std.specs.Prelude.{◌≡◌, ◌≤◌};
ghost use Rattle.mrp_qty.specs.declared.quantity.TheConstants.{MOST};
ghost use Rattle.mrp_net.specs.Shares.{share_of};

/// The share of a release of so many pieces from the running share `low` to the running share `high`, in pieces.
///
/// Running shares are thousandths, 0 to 1000: the release's pieces up to the one, rounded down, less those up to the
/// other, rounded down. So the shares of all sources of a pair are the whole release.
pub fn share_of(low: u64, high: u64, release: u64) -> u64
    requires shares { low ≤ high }
    requires whole { high ≤ 1000 }
    requires within { release ≤ MOST }
    ensures value { result ≡ share_of low high release }
    ensures part { result ≤ release }
{
    release * high / 1000 - release * low / 1000
}
