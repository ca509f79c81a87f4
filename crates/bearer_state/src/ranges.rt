//! Whether a list of bearers or of asks is in its ranges.
ghost use Rattle.std.specs.Prelude.{◌↔◌, IsTrue};
ghost use Rattle.std.specs.List.{AllByRecursion};
ghost use Rattle.bearer_state.specs.Ask.{AreAsks, IsAsk, HaveTwoEbis};
ghost use Rattle.bearer_state.specs.Bearer.{IsEbi, IsPhase, IsBearer, IsBefore, EbisDiffer, EachPair, AreBearers};

use crate::{Ask, Bearer, Phase};
use pc_base::LAST_BEARER;

/// As many bearers as indices, and as many asks as EBIs.
const MOST: usize = 11;

fn is_ebi(ebi: u8) -> bool
    ensures { IsTrue result ↔ IsEbi ebi }
{
    ebi >= 5 && ebi <= 15
}

fn is_phase(phase: Phase) -> bool
    ensures { IsTrue result ↔ IsPhase phase }
{
    match phase {
        Phase::Asked(seq) => seq < 0x100_0000,
        Phase::Active(ebi) => is_ebi(ebi),
    }
}

fn is_bearer(bearer: &Bearer) -> bool
    ensures { IsTrue result ↔ IsBearer bearer.now }
{
    bearer.choice.index <= LAST_BEARER && is_phase(bearer.phase) && bearer.qos.is_in_range()
}

fn ebis_differ(phase: Phase, other: Phase) -> bool
    ensures { IsTrue result ↔ EbisDiffer phase other }
{
    match (phase, other) {
        (Phase::Active(ebi), Phase::Active(other_ebi)) => ebi != other_ebi,
        _ => true,
    }
}

fn is_before(bearer: &Bearer, other: &Bearer) -> bool
    ensures { IsTrue result ↔ IsBefore bearer.now other.now }
{
    bearer.choice.index < other.choice.index
        && bearer.life != other.life
        && ebis_differ(bearer.phase, other.phase)
}

fn is_before_all(bearer: &Bearer, others: &[Bearer]) -> bool
    ensures { IsTrue result ↔ AllByRecursion (IsBefore bearer.now) others.now }
{
    match others {
        [] => true,
        [other, rest @ ..] => is_before(bearer, other) && is_before_all(bearer, rest),
    }
}

fn are_each(bearers: &[Bearer]) -> bool
    ensures { IsTrue result ↔ AllByRecursion IsBearer bearers.now }
{
    match bearers {
        [] => true,
        [bearer, rest @ ..] => is_bearer(bearer) && are_each(rest),
    }
}

fn are_apart(bearers: &[Bearer]) -> bool
    ensures { IsTrue result ↔ EachPair IsBefore bearers.now }
{
    match bearers {
        [] => true,
        [bearer, rest @ ..] => is_before_all(bearer, rest) && are_apart(rest),
    }
}

/// Whether bearers may be those of a session.
#[tactic(auto, using(crate::proofs::Few::few_bearers))]
pub fn are_bearers(bearers: &[Bearer]) -> bool
    ensures { IsTrue result ↔ AreBearers bearers.now }
{
    bearers.len() <= MOST && are_each(bearers) && are_apart(bearers)
}

fn differs_from_all(ask: Ask, others: &[Ask]) -> bool
    ensures { IsTrue result ↔ AllByRecursion (HaveTwoEbis ask) others.now }
{
    match others {
        [] => true,
        [other, rest @ ..] => ask.ebi != other.ebi && differs_from_all(ask, rest),
    }
}

fn are_of_ebis(asks: &[Ask]) -> bool
    ensures { IsTrue result ↔ AllByRecursion IsAsk asks.now }
{
    match asks {
        [] => true,
        [ask, rest @ ..] => is_ebi(ask.ebi) && are_of_ebis(rest),
    }
}

fn are_of_two_ebis(asks: &[Ask]) -> bool
    ensures { IsTrue result ↔ EachPair HaveTwoEbis asks.now }
{
    match asks {
        [] => true,
        [ask, rest @ ..] => differs_from_all(*ask, rest) && are_of_two_ebis(rest),
    }
}

/// Whether asks may be those of one request.
pub fn are_asks(asks: &[Ask]) -> bool
    ensures { IsTrue result ↔ AreAsks asks.now }
{
    asks.len() <= MOST && are_of_ebis(asks) && are_of_two_ebis(asks)
}
