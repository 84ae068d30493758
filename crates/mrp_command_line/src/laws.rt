//! The command line: its laws, each the contract of a function that does nothing.
ghost use Rattle.std.specs.Prelude.{◌≡◌, ◌∷◌, [], codes};
ghost use Rattle.clap.specs.Words.{fault_of};
ghost use Rattle.clap.specs.declared.error.kind.ErrorKind.TheVariants.{DisplayVersion};
ghost use Rattle.mrp_command_line.specs.CommandLine.{mrp};

/// `mrp --version` and `mrp -V` ask for the version, and for nothing else.
pub fn version_is_asked_for()
    ensures long { fault_of mrp (codes "mrp" ∷ codes "--version" ∷ []) ≡ DisplayVersion ∷ [] }
    ensures short { fault_of mrp (codes "mrp" ∷ codes "-V" ∷ []) ≡ DisplayVersion ∷ [] }
{}
