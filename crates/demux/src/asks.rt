//! The asks of a Modify Bearer Request.
ghost use Rattle.std.specs.Prelude.{◌≡◌, IfSome, IfOk, OnOk, option_copied};
ghost use Rattle.gtpv2_ie.specs.Validity.{IsContext};
ghost use Rattle.gtpv2_msg.specs.Lookup.{first_context};
ghost use Rattle.bearer_state.specs.Ask.{IsAsk};
ghost use Rattle.demux.specs.Requests.{ask_at, has_ebi, with_ask, asks_in};

use crate::requests::{assigned, enb_in};
use bearer_state::{Ask, Asks};
use gtpv2_ie::{Context, Ie, IeValue};
use gtpv2_msg::Msg;
use pc_base::NoMemory;
use std::alloc::Global;

// The Context that an element of instance 0 is.
fn context_at(ie: &Ie) -> Option<&Context>
    ensures value { option_copied result ≡ first_context ie.now }
    ensures valid { IfSome result (λ context. IsContext context.now) }
{
    match &ie.value {
        IeValue::Context(context) if ie.instance == 0 => Some(context),
        _ => None,
    }
}

// What an element asks, if it is such a Context with an EBI.
fn ask_at(ie: &Ie) -> Option<Ask>
    ensures value { result ≡ ask_at ie.now }
    ensures valid { IfSome result IsAsk }
{
    let context = context_at(ie)?;
    let ebi = assigned(context)?;
    Some(Ask {
        ebi,
        enb: enb_in(&context.fteids),
    })
}

fn has_ebi(asks: &[Ask], ebi: u8) -> bool
    ensures { result ≡ has_ebi ebi asks.now }
{
    asks.iter().any(|ask| ask.ebi == ebi)
}

// Takes one ask more, if it is the first of its EBI.
fn put(asks: &mut Vec<Ask>, ask: Option<Ask>) -> Result<(), NoMemory>
    ensures { OnOk result (asks.new.items ≡ with_ask asks.old.items ask) }
{
    match ask {
        Some(ask) if !has_ebi(asks, ask.ebi) => {
            asks.push(ask)?;
            Ok(())
        }
        _ => Ok(()),
    }
}

/// The asks of a message: one for each Context with an EBI, of those with one EBI the first.
pub fn asks_in(alloc: Global, message: &Msg) -> Result<Asks, NoMemory>
    ensures { IfOk result (λ asks. asks ≡ asks_in message.now.ies) }
{
    let ies = message.ies.as_slice();
    let mut asks = Vec::new(alloc);
    for ie in ies {
        put(&mut asks, ask_at(ie))?;
    }
    match Asks::of(asks) {
        Some(asks) => Ok(asks),
        None => unreachable!(),
    }
}
