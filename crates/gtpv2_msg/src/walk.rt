ghost use Rattle.std.specs.Prelude.{◌≡◌};
ghost use Rattle.std.specs.Option.{option_copied};
ghost use Rattle.std.specs.Iterator.{YieldsFirstRef, item_count};
ghost use Rattle.gtpv2_msg.specs.Lookup.{first_context, contexts_of};

use gtpv2_ie::{Context, Ie, IeValue};
use std::marker::Model;

/// A walk over the Contexts of instance 0 among elements, in their order. Seen as the list of those
/// to come.
#[derive(Debug, Drop)]
pub struct Contexts<'a> {
    ies: &'a [Ie],
}

impl<'a> Model for Contexts<'a> {
    ghost use Rattle.std.specs.Prelude.{List};
    ghost use Rattle.gtpv2_ie.specs.declared.context.Context.{Context};
    ghost use Rattle.gtpv2_msg.specs.Lookup.{contexts_of};

    ghost Value = { List Context };

    ghost view = { λ s. contexts_of s.ies.now };
}

/// The Context that an element of instance 0 is.
fn first_context(ie: &Ie) -> Option<&Context>
    ensures { option_copied result ≡ first_context ie.now }
{
    match &ie.value {
        IeValue::Context(context) if ie.instance == 0 => Some(context),
        _ => None,
    }
}

impl<'a> Contexts<'a> {
    /// The Contexts among these elements.
    pub(crate) fn of(ies: &'a [Ie]) -> Contexts<'a>
        ensures { result ≡ contexts_of ies.now }
    {
        Contexts { ies }
    }
}

impl<'a> Iterator for Contexts<'a> {
    type Item = &'a Context;

    ghost next_gives = { YieldsFirstRef (λ contexts. contexts) };

    ghost remaining = { item_count (λ contexts. contexts) };

    fn next(&mut self) -> Option<&'a Context> {
        while let Some((ie, others)) = self.ies.split_first() {
            self.ies = others;
            let context = first_context(ie);
            if context.is_some() {
                return context;
            }
        }
        None
    }
}
