//! Extension headers, which are skipped whatever their type.
ghost use Rattle.std.specs.Prelude.{
  ◌≡◌,
  ◌≢◌,
  ℕ,
  ◌∷◌,
  ◌<◌,
  List,
  length,
  MatchOption,
  IfSome,
  IsSomeAnd,
  is_none,
  option_map,
  None,
};
ghost use Rattle.gtpu_codec.specs.Extension.{IsChain, body_behind};

/// The type that says that no extension header follows (TS 29.281, section 5.2.1).
const NO_MORE_HEADERS: u8 = 0;

/// The unit of the length of an extension header, in octets.
const UNIT: usize = 4;

/// The octets behind all extension headers, the first of this type; None where one breaks.
pub fn skip_headers(first_type: u8, octets: &[u8]) -> Option<&[u8]>
    ensures found { IfSome result (λ body. IsChain first_type octets.now body.now) }
    ensures only { (body : List ℕ) → IsChain first_type octets.now body → IsSomeAnd result (λ r. r.now ≡ body) }
    ensures broken { is_none result ≡ is_none (body_behind 0 (first_type ∷ octets.now)) }
{
    walk(first_type, octets)
}

fn walk(first_type: u8, octets: &[u8]) -> Option<&[u8]>
    ensures { option_map (λ body. body.now) result ≡ body_behind 0 (first_type ∷ octets.now) }
{
    let mut next_type = first_type;
    let mut rest = octets;
    while next_type != NO_MORE_HEADERS {
        (next_type, rest) = skip_header(rest)?;
    }
    Some(rest)
}

/// The next type behind one extension header, and the octets after that; None where it has length 0
/// or passes the end.
fn skip_header(octets: &[u8]) -> Option<(u8, &[u8])>
    ensures { MatchOption result
        ((kind : ℕ) → kind ≢ 0 → body_behind 0 (kind ∷ octets.now) ≡ None)
        (λ found. (length found.1.now < length octets.now)
        × ((kind : ℕ) → kind ≢ 0 → body_behind 0 (kind ∷ octets.now) ≡ body_behind 0 (found.0 ∷ found.1.now))) }
{
    if octets.is_empty() {
        return None;
    }
    let len = UNIT * usize::from(octets[0]);
    if len == 0 || len > octets.len() {
        return None;
    }
    Some((octets[len - 1], &octets[len..]))
}
