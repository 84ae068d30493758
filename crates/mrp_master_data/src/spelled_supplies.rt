//! Master data: how it is spelled where a pair comes from.

ghost use Rattle.std.specs.Prelude.{◌≡◌, ◌+◌, ◌-◌, ◌==◌, ◌≤◌, if◌then◌else◌, length, map, option_map, Err, IfOk};
ghost use Rattle.std.specs.Prelude.{IfSome, Some, None};
ghost use Rattle.mrp_master_data.specs.Spelled.{share_view, source_view, supply_view, AreSources, HasSources, IsSource};
ghost use Rattle.mrp_master_data.specs.Spelled.{TellsSpelled, TellsWritten};
ghost use Rattle.mrp_master_data.specs.Parsing.{number_within};
ghost use Rattle.mrp_master_data.specs.Steps.{share_step, shared_source, sources_with};
ghost use Rattle.mrp_master_data.specs.SupplyParsing.{BeginsFrom, names_plant, sources_of, supply_of};
ghost use Rattle.mrp_qty.specs.declared.limits.TheConstants.{MOST_SHARE};
ghost use Rattle.mrp_master_data.specs.declared.spelled_supplies.SupplyFault.TheVariants.{Memory};

use crate::spelled_names::is_name;
use crate::spelled_numbers::number_within;
use crate::spelled_rules::cut;
use mrp_qty::{MOST_SHARE, MOST_SOURCES_OF_PAIR};
use std::alloc::{AllocError, AllocFailed, Global};
use thiserror::Error;

/// Why there is no supply.
#[derive(Clone, Copy, Debug, PartialEq, Eq, Error)]
pub enum SupplyFault {
    /// The text is misspelt, or its shares aren't the whole.
    #[error("not a supply")]
    NotASupply,
    /// A growth was refused.
    #[error("out of memory")]
    Memory,
}

impl From<AllocError> for SupplyFault {
    ghost from_gives = { λ _ fault. fault ≡ Memory };

    fn from(_refusal: AllocError) -> SupplyFault {
        SupplyFault::Memory
    }
}

impl<T: Drop> From<AllocFailed<T>> for SupplyFault {
    ghost from_gives = { λ _ fault. fault ≡ Memory };

    fn from(_refusal: AllocFailed<T>) -> SupplyFault {
        SupplyFault::Memory
    }
}

/// One plant that a pair is taken from, as its row spells it: its share of each release, in
/// thousandths, goes from `low` to `high`.
#[derive(Clone, Copy, Debug)]
pub struct SpelledSource<'r> {
    /// The name of the plant.
    pub plant: &'r str,
    /// Where its share begins, 0 to 1,000.
    pub low: u64,
    /// Where its share ends, `low` to 1,000.
    pub high: u64,
}

/// Where a pair comes from, as its row spells it.
#[derive(Debug, Drop)]
pub enum SpelledSupply<'r> {
    /// Its own plant makes it.
    Make,
    /// It is bought.
    Buy,
    /// It is taken from these plants, one to four.
    From(Vec<SpelledSource<'r>>),
}

/// The supply that a text spells: `make`, `buy`, `from:PLANT`, or `from:` with two to four plants,
/// each followed by its share in thousandths. Each supply has just one such text.
///
/// # Errors
///
/// [`SupplyFault::NotASupply`] where the text spells none; [`SupplyFault::Memory`] where a growth was refused,
/// which is asked for only after `from:`.
pub fn supply<'r>(alloc: Global, text: &'r str) -> Result<SpelledSupply<'r>, SupplyFault>
    ensures exact { TellsSpelled supply_view result (supply_of text.now) }
    ensures written { TellsWritten text.now result }
    ensures sources { IfOk result HasSources }
{
    read(alloc, text)
}

/// The supply that a text spells.
#[tactic(auto, unfolding(crate::specs::SupplyParsing::supply_of))]
fn read<'r>(alloc: Global, text: &'r str) -> Result<SpelledSupply<'r>, SupplyFault>
    ensures exact { TellsSpelled supply_view result (supply_of text.now) }
    ensures sources { IfOk result HasSources }
    ensures memory { result ≡ Err Memory → BeginsFrom text.now }
{
    match cut(text) {
        None => {
            if text == "make" {
                Ok(SpelledSupply::Make)
            } else if text == "buy" {
                Ok(SpelledSupply::Buy)
            } else {
                Err(SupplyFault::NotASupply)
            }
        }
        Some((word, plants)) => {
            if word == "from" {
                Ok(SpelledSupply::From(sources(alloc, plants)?))
            } else {
                Err(SupplyFault::NotASupply)
            }
        }
    }
}

/// The sources that the text after `from:` spells.
#[tactic(auto, unfolding(crate::specs::SupplyParsing::sources_of))]
fn sources<'r>(alloc: Global, text: &'r str) -> Result<Vec<SpelledSource<'r>>, SupplyFault>
    ensures exact { TellsSpelled (λ found. map source_view found.items) result (sources_of text.now) }
    ensures sources { IfOk result (λ found. AreSources found.items) }
{
    let mut sources = Vec::with_capacity(alloc, MOST_SOURCES_OF_PAIR)?;
    if is_name(text) {
        sources.push(SpelledSource {
            plant: text,
            low: 0,
            high: MOST_SHARE,
        })?;
        return Ok(sources);
    }
    shared_sources(sources, MOST_SOURCES_OF_PAIR, 0, text)
}

/// The sources with at most `left` more, whose shares begin at `low`.
fn shared_sources<'r>(
    mut sources: Vec<SpelledSource<'r>>,
    left: usize,
    low: u64,
    text: &'r str,
) -> Result<Vec<SpelledSource<'r>>, SupplyFault>
    requires within { low ≤ 1000 }
    requires few { length sources.items + left ≤ 4 }
    requires sources { AreSources sources.items }
    ensures exact { TellsSpelled (λ found. map source_view found.items) result
        (sources_with left (map source_view sources.entry.items) low text.now) }
    ensures sources { IfOk result (λ found. AreSources found.items) }
{
    if left == 0 {
        return Err(SupplyFault::NotASupply);
    }
    let Some((source, later)) = shared_source(text, low) else {
        return Err(SupplyFault::NotASupply);
    };
    if names_plant(sources.as_slice(), source.plant) {
        return Err(SupplyFault::NotASupply);
    }
    sources.push(source)?;
    match later {
        Some(later) => shared_sources(sources, left - 1, source.high, later),
        None => all_shared(sources, source.high),
    }
}

/// The sources, where their shares together are the whole.
fn all_shared<'r>(
    sources: Vec<SpelledSource<'r>>,
    high: u64,
) -> Result<Vec<SpelledSource<'r>>, SupplyFault>
    ensures exact { TellsSpelled (λ found. map source_view found.items) result
        (if high == MOST_SHARE then Some (map source_view sources.entry.items) else None) }
    ensures same { IfOk result (λ kept. kept.items ≡ sources.entry.items) }
{
    if high == MOST_SHARE {
        Ok(sources)
    } else {
        Err(SupplyFault::NotASupply)
    }
}

/// The first plant of a text with its share, which begins at `low`, and the text after them.
#[tactic(auto, unfolding(crate::specs::Steps::shared_source))]
fn shared_source<'r>(text: &'r str, low: u64) -> Option<(SpelledSource<'r>, Option<&'r str>)>
    requires within { low ≤ 1000 }
    ensures exact { share_view result ≡ shared_source text.now low }
    ensures source { IfSome result (λ found. IsSource found.0) }
{
    let (plant, rest) = cut(text)?;
    match cut(rest) {
        Some((share, later)) => source_with_share(plant, low, share, Some(later)),
        None => source_with_share(plant, low, rest, None),
    }
}

/// A plant with the share that a text spells, and the text after them.
fn source_with_share<'r>(
    plant: &'r str,
    low: u64,
    share: &'r str,
    later: Option<&'r str>,
) -> Option<(SpelledSource<'r>, Option<&'r str>)>
    requires within { low ≤ 1000 }
    ensures exact { share_view result ≡ share_step plant.now low (number_within share.now 1 (MOST_SHARE - 1))
        (option_map (λ t. t.now) later.entry) }
    ensures source { IfSome result (λ found. IsSource found.0) }
{
    let share = number_within(share, 1, MOST_SHARE - 1)?;
    if is_name(plant) && low + share <= MOST_SHARE {
        let source = SpelledSource {
            plant,
            low,
            high: low + share,
        };
        Some((source, later))
    } else {
        None
    }
}

/// Whether one of the sources is the plant of that name.
pub fn names_plant(sources: &[SpelledSource<'_>], plant: &str) -> bool
    ensures exact { result ≡ names_plant (map source_view sources.now) plant.now }
{
    sources.iter().any(|source| source.plant == plant)
}
