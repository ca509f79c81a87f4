//! Laws of the octets, each the contract of a function that does nothing.
ghost use Rattle.std.specs.Prelude.{◌≡◌};
ghost use Rattle.record_codec.specs.Saved.{FileState, IsFile};
ghost use Rattle.record_codec.specs.Spelling.{state};

/// No two files have one state.
pub fn one_file_of_a_state()
    ensures { (file other : FileState) → IsFile file → IsFile other → state file ≡ state other → file ≡ other }
{}
