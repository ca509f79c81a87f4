//! Laws of the grammar, each the contract of a function that does nothing.

ghost use Rattle.std.specs.Prelude.{◌≡◌, ℕ, List, None};
ghost use Rattle.tft_codec.specs.declared.tft.Tft.{Tft};
ghost use Rattle.tft_codec.specs.Tft.{IsTft};
ghost use Rattle.tft_codec.specs.Spelling.{Spells, spelling};
ghost use Rattle.tft_codec.specs.Refusal.{first_fault};

/// What is written reads back as itself.
pub fn reads_back()
    ensures { (t : Tft) → IsTft t → Spells (spelling t) t }
{}

/// No octets spell two templates.
pub fn spells_one()
    ensures { (octets : List ℕ) (t u : Tft) → Spells octets t → Spells octets u → t ≡ u }
{}

/// Octets have a fault, or they spell a template, and not both.
pub fn faults_or_spells(octets: &[u8])
    ensures faultless { (t : Tft) → Spells octets.now t → first_fault octets.now ≡ None }
    ensures spells { first_fault octets.now ≡ None → (t : Tft) × Spells octets.now t }
{}
