ghost use Rattle.std.specs.Prelude.{◌≡◌, ℕ, List};
ghost use Rattle.std.specs.List.{list_any};
ghost use Rattle.gtpv2_msg.specs.Elements as elements;
ghost use Rattle.gtpv2_msg.specs.Elements.{contexts_in};
ghost use Rattle.gtpv2_msg.specs.RowFault as grammar;
ghost use Rattle.gtpv2_msg.specs.declared.table.Part.{Part};

use crate::elements::is_context;
use crate::fault::CBad;
use gtpv2_ie::{IeKind, RawIe};

/// Whether a Context of instance 0 stands among them.
fn has_context(raws: &[RawIe]) -> bool
    ensures { result ≡ list_any elements.is_context raws.now }
{
    raws.iter().any(|raw| is_context(raw))
}

/// What is wrong with the Contexts of instance 0, where it is known what is wrong inside them.
#[tactic(auto, using(crate::proofs::ContextLemmas::with_context, crate::proofs::ContextLemmas::without_context))]
pub fn contexts_fault(raws: &[RawIe], must: bool, found: Option<CBad>) -> Option<CBad>
    ensures { (octets : List ℕ) (inside : List Part)
        → found ≡ grammar.inside_fault inside (contexts_in octets raws.now)
        → result ≡ grammar.contexts_fault must inside (contexts_in octets raws.now) }
{
    if has_context(raws) {
        return found;
    }
    if must {
        return Some(CBad::Missing {
            kind: IeKind::Context.octet(),
            instance: 0,
        });
    }
    None
}
