//! Master data: names of plants, items and pairs in the order of a table, which numbers them.

ghost use Rattle.std.specs.Prelude.{◌≡◌, ◌<◌, ◌++◌, ◌∷◌, [], length, map, position, slice_get, IfSome, OnErr, OnOk};
ghost use Rattle.std.specs.Prelude.{Some};
ghost use Rattle.std.specs.Str.{bytes_eq};
ghost use Rattle.std.specs.String.{string_bytes};

use crate::texts::is_same_text;
use std::alloc::{AllocError, Global};

/// Puts a name behind the others; where the room for it is refused, nothing has changed.
pub(crate) fn push_name(
    names: &mut Vec<String>,
    alloc: Global,
    name: &str,
) -> Result<(), AllocError>
    ensures names { OnOk result (map string_bytes names.new.items ≡ map string_bytes names.old.items ++ name.now ∷ []) }
    ensures unchanged { OnErr result (map string_bytes names.new.items ≡ map string_bytes names.old.items) }
{
    let last = String::from_str(alloc, name)?;
    names.push(last)?;
    Ok(())
}

/// The place of a name, from 0, or `None` where it isn't there. It is compared with the names one by one.
pub(crate) fn place_of_name(names: &[String], name: &str) -> Option<usize>
    ensures place { result ≡ position (bytes_eq name.now) (map string_bytes names.now) }
    ensures within { IfSome result (λ place. place < length (map string_bytes names.now)) }
{
    names
        .iter()
        .position(|known| is_same_text(name, known.as_str()))
}

/// The name at a place.
pub(crate) fn name_at(names: &[String], place: usize) -> &str
    requires within { place < length (map string_bytes names.now) }
    ensures name { slice_get (map string_bytes names.now) place ≡ Some result.now }
{
    names[place].as_str()
}
