//! Laws of the numbers, each the contract of a function that does nothing.
ghost use Rattle.std.specs.Prelude.{◌≡◌, ℕ, ◌+◌, ◌^◌, ◌<◌, ◌≤◌, List, ◌++◌, length, take, drop};
ghost use Rattle.wire_octets.specs.Numbers.{
  AreOctets,
  be16_at,
  be24_at,
  be32_at,
  be40_at,
  be16_octets,
  be24_octets,
  be32_octets,
  be40_octets,
};

/// What is written is read again, wherever it stands.
pub fn reads_back()
    ensures two { (before after : List ℕ) (n : ℕ) → n < 2 ^ 16
        → be16_at (before ++ be16_octets n ++ after) (length before) ≡ n }
    ensures three { (before after : List ℕ) (n : ℕ) → n < 2 ^ 24
        → be24_at (before ++ be24_octets n ++ after) (length before) ≡ n }
    ensures four { (before after : List ℕ) (n : ℕ) → n < 2 ^ 32
        → be32_at (before ++ be32_octets n ++ after) (length before) ≡ n }
    ensures five { (before after : List ℕ) (n : ℕ) → n < 2 ^ 40
        → be40_at (before ++ be40_octets n ++ after) (length before) ≡ n }
{}

/// What is read is written again.
pub fn writes_back()
    ensures two { (octets : List ℕ) (at : ℕ) → AreOctets octets → at + 2 ≤ length octets
        → be16_octets (be16_at octets at) ≡ take 2 (drop at octets) }
    ensures three { (octets : List ℕ) (at : ℕ) → AreOctets octets → at + 3 ≤ length octets
        → be24_octets (be24_at octets at) ≡ take 3 (drop at octets) }
    ensures four { (octets : List ℕ) (at : ℕ) → AreOctets octets → at + 4 ≤ length octets
        → be32_octets (be32_at octets at) ≡ take 4 (drop at octets) }
    ensures five { (octets : List ℕ) (at : ℕ) → AreOctets octets → at + 5 ≤ length octets
        → be40_octets (be40_at octets at) ≡ take 5 (drop at octets) }
{}

/// A number of so many octets has eight bits for each.
pub fn stays_below()
    ensures two { (octets : List ℕ) (at : ℕ) → AreOctets octets → be16_at octets at < 2 ^ 16 }
    ensures three { (octets : List ℕ) (at : ℕ) → AreOctets octets → be24_at octets at < 2 ^ 24 }
    ensures four { (octets : List ℕ) (at : ℕ) → AreOctets octets → be32_at octets at < 2 ^ 32 }
    ensures five { (octets : List ℕ) (at : ℕ) → AreOctets octets → be40_at octets at < 2 ^ 40 }
{}
