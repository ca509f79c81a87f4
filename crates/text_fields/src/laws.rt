//! Each value has one text, and each text at most one value.
ghost use Rattle.std.specs.Prelude.{◌≡◌, ℕ, ◌^◌, ◌<◌, ◌≤◌, Some, List, ◌∷◌, length, decimal, All};
ghost use Rattle.hex.specs.Hex.{encode_lower};
ghost use Rattle.text_fields.specs.Fields.{AllLack, space, fields_of, joined};
ghost use Rattle.text_fields.specs.Number.{number_in};
ghost use Rattle.text_fields.specs.Address.{dotted, address_of};
ghost use Rattle.text_fields.specs.Hexadecimal.{in_lower_case, octets_of, lower_octets_of};

/// A text is a number exactly where it is the number's decimal digits.
pub fn one_text_of_a_number()
    ensures read { (least last n : ℕ) → n < 2 ^ 64 → least ≤ n → n ≤ last → number_in least last (decimal n) ≡ Some n }
    ensures only { (least last n : ℕ) (text : List ℕ) → last < 2 ^ 64 → number_in least last text ≡ Some n
        → (text ≡ decimal n) × (least ≤ n) × (n ≤ last) }
{}

/// A text is an address exactly where it is the address dotted.
pub fn one_text_of_an_address()
    ensures read { (address : ℕ) → address < 2 ^ 32 → address_of (dotted address) ≡ Some address }
    ensures only { (address : ℕ) (text : List ℕ) → address_of text ≡ Some address
        → (text ≡ dotted address) × (address < 2 ^ 32) }
{}

/// A text is octets exactly where it is their hexadecimal text, up to the case of its digits.
pub fn one_text_of_octets()
    ensures read { (text octets : List ℕ) → 0 < length octets → All (λ octet. octet < 256) octets
        → in_lower_case text ≡ encode_lower octets → octets_of text ≡ Some octets }
    ensures only { (text octets : List ℕ) → octets_of text ≡ Some octets
        → (in_lower_case text ≡ encode_lower octets) × (0 < length octets) × All (λ octet. octet < 256) octets }
{}

/// A text in lower case is octets exactly where it is their hexadecimal text.
pub fn one_lower_text_of_octets()
    ensures read { (octets : List ℕ) → 0 < length octets → All (λ octet. octet < 256) octets
        → lower_octets_of (encode_lower octets) ≡ Some octets }
    ensures only { (text octets : List ℕ) → lower_octets_of text ≡ Some octets
        → (text ≡ encode_lower octets) × (0 < length octets) × All (λ octet. octet < 256) octets }
{}

/// Fields without a space are the fields of the text that joins them, and a text joins its fields.
pub fn fields_stand_apart()
    ensures apart { (first : List ℕ) (fields : List (List ℕ)) → AllLack space (first ∷ fields)
        → fields_of (joined (first ∷ fields)) ≡ first ∷ fields }
    ensures again { (text : List ℕ) → joined (fields_of text) ≡ text }
{}
