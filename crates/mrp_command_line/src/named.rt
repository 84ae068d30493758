//! The command line: its arguments, with the program's own name before them.

ghost use Rattle.std.specs.Prelude.{◌≡◌, ◌∷◌, codes, map, IfOk};
ghost use Rattle.std.specs.String.{string_bytes};

use std::alloc::{AllocError, Global};

/// The words of the command line: the program's own name is `mrp`, wherever it lies, and then come the arguments.
///
/// # Errors
///
/// [`AllocError`] where the room for the words is refused.
pub fn named_words<'a>(alloc: Global, arguments: &'a [String]) -> Result<Vec<&'a str>, AllocError>
    ensures { IfOk result (λ words. map (λ word. word.now) words.items ≡ codes "mrp" ∷ map string_bytes arguments.now) }
{
    let mut words = Vec::with_capacity(alloc, arguments.len())?;
    words.push("mrp")?;
    'given: for argument in arguments {
        words.push(argument.as_str())?;
    }
    Ok(words)
}
