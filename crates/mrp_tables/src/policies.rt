//! The reader of tables: policies of pairs, tested against the rows before them. Names that find a pair aren't tested
//! for being names.

use crate::draft::Draft;
use crate::spelled::spelled_policy;
use csv::StringRecord;
use mrp_master_data::{PairNo, PolicyRow};
use mrp_validation::{TableFaultKind, field};

impl Draft {
    ghost use Rattle.std.specs.Prelude.{◌≡◌, false, option_map, Some, IfOk, OnOk};
    ghost use Rattle.csv.specs.Records.{fields_of};
    ghost use Rattle.mrp_validation.specs.Grammar.{has_policy, policy_of, policy_row, TellsMade};
    ghost use Rattle.mrp_master_data.specs.Table.{IsPolicyRow};
    ghost use Rattle.mrp_tables.specs.Lists.{AddsRow, IsDraft};

    /// Adds a policy row.
    pub(crate) fn add_policy(&mut self, row: &StringRecord) -> Result<(), TableFaultKind>
        requires draft { IsDraft self.old }
        ensures exact { TellsMade result (policy_row self.old.lists (fields_of row.now)) self.new.lists }
        ensures adds { OnOk result (AddsRow self.old self.new) }
    {
        let policy = self.policy_of(row)?;
        if !self.policy_keys.insert(policy.pair)? {
            unreachable!();
        }
        self.lists.add_policy(policy)?;
        Ok(())
    }

    /// What a policy row says.
    #[tactic(auto, unfolding(mrp_validation::specs::Grammar::policy_of))]
    fn policy_of(&self, row: &StringRecord) -> Result<PolicyRow, TableFaultKind>
        requires draft { IsDraft self.now }
        ensures exact { result ≡ policy_of self.now.lists (fields_of row.now) }
        ensures row { IfOk result (IsPolicyRow self.now.lists) }
        ensures fresh { IfOk result (λ p. has_policy self.now.lists (Some p.pair.0) ≡ false) }
    {
        let found = self.find_pair(field(row, 1), field(row, 2));
        let horizon = self.lists.calendar().horizon();
        let policy = spelled_policy(self.lists.limit_set(), row, horizon, found.is_some())?;
        if self.has_policy(found) {
            return Err(TableFaultKind::Repeated);
        }
        let pair = self.known_pair(row, found)?;
        Ok(PolicyRow { pair, policy })
    }

    /// Whether there is a policy row of the pair.
    fn has_policy(&self, found: Option<PairNo>) -> bool
        requires draft { IsDraft self.now }
        ensures exact { result ≡ has_policy self.now.lists (option_map (λ x. x.0) found) }
    {
        match found {
            Some(pair) => self.policy_keys.contains(&pair),
            None => false,
        }
    }
}
