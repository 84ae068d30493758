//! The command line: what a program has to do where it makes no choice, which is help, the
//! version, or refused arguments.

ghost use Rattle.std.specs.Prelude.{◌≡◌};
ghost use Rattle.clap.specs.Words.{kind_of};
ghost use Rattle.mrp_command_line.specs.Meaning.{meaning_of};

use clap::error::ErrorKind;

/// What `clap`'s error means for the program that asked it.
#[derive(Clone, Copy, Debug, PartialEq, Eq)]
pub enum Meaning {
    /// Memory was refused: there is nothing to print.
    Memory,
    /// Help or the version is asked for: `clap` has the text, for standard output.
    Asked,
    /// The words are refused: `clap` says why, on standard error.
    Refused,
}

/// The meaning of `clap`'s error, by its kind.
pub fn means(error: &clap::Error) -> Meaning
    ensures { result ≡ meaning_of (kind_of error.now) }
{
    if error.kind() == ErrorKind::OutOfMemory {
        Meaning::Memory
    } else if error.use_stderr() {
        Meaning::Refused
    } else {
        Meaning::Asked
    }
}
