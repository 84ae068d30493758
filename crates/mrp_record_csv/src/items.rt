//! Records as CSV: the items of a network by their names.

use crate::RecordFaultKind;
use crate::most::Most;
use mrp_net::{ItemNo, Network};
use std::alloc::Global;
use std::collections::HashMap;
use std::marker::Model;

/// A network, and its items by their names. Contracts see the network's table.
#[derive(Drop)]
pub(crate) struct NamedItems<'n> {
    network: &'n Network,
    items: HashMap<&'n str, ItemNo>,
}

impl<'n> Model for NamedItems<'n> {
    ghost use Rattle.std.specs.HashMap.{get_by};
    ghost use Rattle.std.specs.Prelude.{◌≡◌, ℕ, List};
    ghost use Rattle.std.specs.Str.{bytes_eq};
    ghost use Rattle.mrp_master_data.specs.Table.{Table};
    ghost use Rattle.mrp_record_csv.specs.Grammar.{item_named};

    ghost Value = { Table };

    ghost view = { λ n. n.network.now };

    ghost invariant = { λ n. (name : List ℕ) → get_by (λ k. bytes_eq name k.now) n.items
        ≡ item_named n.network.now name };
}

impl<'n> NamedItems<'n> {
    ghost use Rattle.std.specs.Prelude.{◌≡◌, ◌≤◌, IfErr, IfOk};
    ghost use Rattle.mrp_qty.specs.declared.quantity.TheConstants.{MOST};
    ghost use Rattle.mrp_record_csv.specs.Grammar.{item_named};
    ghost use Rattle.mrp_record_csv.specs.Most.{HasLane, most_records};
    ghost use Rattle.mrp_record_csv.specs.declared.fault.RecordFaultKind.TheVariants.{Memory};

    /// Puts the items of a network into a map.
    pub(crate) fn of(alloc: Global, network: &'n Network) -> Result<NamedItems<'n>, RecordFaultKind>
        ensures same { IfOk result (λ items. items ≡ network.now) }
        ensures memory { IfErr result (λ kind. kind ≡ Memory) }
    {
        let _pairs = network.pairs();
        let mut items = HashMap::new(alloc);
        for i in 0..network.items() {
            let item = ItemNo(i);
            items.insert(network.item_name(item), item)?;
        }
        Ok(NamedItems { network, items })
    }

    /// The item of a name.
    pub(crate) fn find(&self, name: &str) -> Option<ItemNo>
        ensures { result ≡ item_named self.now name.now }
    {
        self.items.get(name).copied()
    }

    /// How many records may be read of a text of the network.
    pub(crate) fn most(&self, most: Most) -> u64
        requires lane { HasLane self.now most }
        ensures value { result ≡ most_records self.now most }
        ensures short { result ≤ MOST }
    {
        most.records(self.network)
    }
}
