//! The library for C: what a call says of a table and of a report, as a request takes it.

ghost use Rattle.std.specs.Prelude.{◌≡◌};
ghost use Rattle.mrp_c_api.specs.Options.{heading_of, large_reading_of, limit_of, name_given, reading_of};
ghost use Rattle.mrp_commands.specs.Given.{name_of};

use mrp_commands::Heading;
use mrp_master_data::LimitSet;

/// How a table is to be read.
#[repr(C)]
pub struct Reading {
    /// It has to end with an `end` row: one without it was cut off, and is refused.
    pub whole: bool,
}

/// The same, as a request takes it: within the usual limits.
pub(crate) fn reading_of(reading: &Reading) -> mrp_commands::Reading
    ensures { result ≡ reading_of reading.now }
{
    mrp_commands::Reading {
        whole: reading.whole,
        limits: LimitSet::Usual,
    }
}

/// The same, within the large ones.
pub(crate) fn large_reading_of(reading: &Reading) -> mrp_commands::Reading
    ensures { result ≡ large_reading_of reading.now }
{
    mrp_commands::Reading {
        limits: LimitSet::Large,
        ..reading_of(reading)
    }
}

/// Whether the names of the columns stand above the rows.
pub(crate) fn heading(names: bool) -> Heading
    ensures { result ≡ heading_of names }
{
    if names {
        Heading::Names
    } else {
        Heading::Without
    }
}

/// The last period of a release, if there is one.
pub(crate) fn limit(limited: bool, until: u64) -> Option<u64>
    ensures { result ≡ limit_of limited until }
{
    if limited { Some(until) } else { None }
}

/// A name, if it isn't empty.
pub(crate) fn given<'a>(name: &'a str) -> Option<&'a str>
    ensures { name_of result ≡ name_given name.now }
{
    if name.is_empty() { None } else { Some(name) }
}
