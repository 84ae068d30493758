//! The network: the policy of one of its pairs, among the policy rows of a table.

ghost use Rattle.std.specs.Prelude.{◌≡◌};
ghost use Rattle.mrp_net.specs.Policies.{first_policy};

use mrp_master_data::PolicyRow;
use mrp_netting::Policy;

/// The policy that the first of these rows says, and none of each where there is no row.
pub fn first_policy(rows: &[PolicyRow]) -> Policy
    ensures { result ≡ first_policy rows.now }
{
    match rows.first() {
        Some(row) => row.policy,
        None => Policy::NONE,
    }
}
