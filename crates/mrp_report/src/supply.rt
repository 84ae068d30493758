//! The report of orders: where a pair comes from, as its row of the table spells it.

ghost use Rattle.std.specs.Prelude.{◌≡◌, ◌<◌, ◌-◌, ◌++◌, ◌==◌, [], OnOk, IfErr};
ghost use Rattle.std.specs.List.{find};
ghost use Rattle.mrp_master_data.specs.declared.rows.Supply.TheVariants.{From};
ghost use Rattle.mrp_master_data.specs.Table.{IsPair};
ghost use Rattle.mrp_net.specs.Sums.{pair_at};
ghost use Rattle.mrp_csv_out.specs.Names.{plant_of};
ghost use Rattle.mrp_report.specs.Orders.{share_part, source_part, spelled_supply};

use itoa::Buffer;
use mrp_csv_out::ReportFault;
use mrp_net::{Edge, Network, PairNo, Supply};
use mrp_qty::MOST_SHARE;

/// Writes into the text where the pair comes from, in place of what it held.
pub(crate) fn put_supply(
    text: &mut Vec<u8>,
    network: &Network,
    x: PairNo,
) -> Result<(), ReportFault>
    requires { IsPair network.now x.0 }
    ensures text { OnOk result (text.new.items ≡ spelled_supply network.now x.0) }
    ensures fault { IfErr result (λ fault. fault ≡ ReportFault.Memory) }
{
    text.clear();
    match network.pair(x).supply {
        Supply::Make => text.extend_from_slice(b"make")?,
        Supply::Buy => text.extend_from_slice(b"buy")?,
        Supply::From => put_sources(text, network, x)?,
    }
    Ok(())
}

/// Adds the plants that the pair is taken from, in the order of their shares.
fn put_sources(text: &mut Vec<u8>, network: &Network, x: PairNo) -> Result<(), ReportFault>
    requires pair { IsPair network.now x.0 }
    requires from { (pair_at network.now x.0).supply ≡ From }
    requires empty { text.old.items ≡ [] }
    ensures text { OnOk result (text.new.items ≡ spelled_supply network.now x.0) }
    ensures fault { IfErr result (λ fault. fault ≡ ReportFault.Memory) }
{
    let edges = network.suppliers(x);
    let _pairs = network.pairs();
    text.extend_from_slice(b"from")?;
    let mut low = 0;
    'sources: while let Some(edge) = share_from(edges, low) {
        put_source(text, network, edge)?;
        low = edge.high;
    }
    Ok(())
}

/// The edge whose share begins there.
fn share_from(edges: &[Edge], low: u64) -> Option<Edge>
    ensures { result ≡ find (λ e. e.low == low) edges.now }
{
    'edges: for edge in edges {
        if edge.low == low {
            return Some(*edge);
        }
    }
    None
}

/// Adds one plant, and its share where it isn't the whole.
fn put_source(text: &mut Vec<u8>, network: &Network, edge: Edge) -> Result<(), ReportFault>
    requires pair { IsPair network.now edge.pair.0 }
    requires rises { edge.low < edge.high }
    ensures part { OnOk result (text.new.items ≡ text.old.items
        ++ source_part (plant_of network.now edge.pair.0) (edge.high - edge.low)) }
    ensures fault { IfErr result (λ fault. fault ≡ ReportFault.Memory) }
{
    let (plant, _item) = network.pair_name(edge.pair);
    text.push(b':')?;
    text.extend_from_slice(plant.as_bytes())?;
    put_share(text, edge.high - edge.low)
}

/// Adds a share in thousandths, where it isn't the whole.
fn put_share(text: &mut Vec<u8>, share: u64) -> Result<(), ReportFault>
    ensures share { OnOk result (text.new.items ≡ text.old.items ++ share_part share) }
    ensures fault { IfErr result (λ fault. fault ≡ ReportFault.Memory) }
{
    if share == MOST_SHARE {
        return Ok(());
    }
    let mut digits = Buffer::new();
    text.push(b':')?;
    text.extend_from_slice(digits.format(share).as_bytes())?;
    Ok(())
}
