//! The bearers of a session.
ghost use Rattle.std.specs.Prelude.{◌≡◌, ◌≤◌, ℕ, position, map, length, insert};
ghost use Rattle.std.specs.Option.{option_copied};
ghost use Rattle.bearer_state.specs.declared.bearer.Bearer.{Bearer};
ghost use Rattle.bearer_state.specs.Ask.{ask_for};
ghost use Rattle.bearer_state.specs.Bearer.{index_of, is_active, is_asked};
ghost use Rattle.bearer_state.specs.Lookup.{is_dedicated};
ghost use Rattle.bearer_state.specs.Changes.{placed, unbound, enb_asked, rebound_bearer};

use crate::ranges::are_bearers;
use crate::{ActiveBearer, Ask, Bearer, NoMemory, Phase};
use pc_base::Peer;
use std::alloc::Global;
use std::marker::Model;
use tft_codec::Filters;

/// The bearers of a session, at most 11, in rising order of index. Seen as their list.
#[derive(Debug, Drop)]
pub struct Bearers {
    items: Vec<Bearer>,
}

impl Model for Bearers {
    ghost use Rattle.std.specs.Prelude.{List};
    ghost use Rattle.bearer_state.specs.declared.bearer.Bearer.{Bearer};
    ghost use Rattle.bearer_state.specs.Bearer.{AreBearers};

    ghost Value = { List Bearer };

    ghost view = { λ bearers. bearers.items.items };

    ghost invariant = { λ bearers. AreBearers bearers.items.items };
}

impl Bearers {
    ghost use Rattle.std.specs.Prelude.{◌≡◌, ◌<◌, false, [], ◌∷◌, map, OnOk, OnErr, IfOk, IfSome};
    ghost use Rattle.std.specs.Prelude.{IfNone, Some, None, length, ◌≤◌};
    ghost use Rattle.std.specs.List.{AllByRecursion, find};
    ghost use Rattle.std.specs.Option.{option_copied};
    ghost use Rattle.bearer_state.specs.declared.bearer.Bearer.{Bearer};
    ghost use Rattle.bearer_state.specs.Bearer.{AreBearers, IsBearer, IsEbi, index_of, is_active, is_asked};
    ghost use Rattle.bearer_state.specs.Qos.{IsQos};
    ghost use Rattle.bearer_state.specs.Lookup.{at_index, least_free, has_index, has_active, has_dedicated};
    ghost use Rattle.bearer_state.specs.Lookup.{has_asked};
    ghost use Rattle.bearer_state.specs.Lookup.{is_dedicated, active_index, default_of};
    ghost use Rattle.bearer_state.specs.Changes.{placed, with_first, without_first, unbound, rebound_bearer};
    ghost use Rattle.bearer_state.specs.Changes.{filtered, granted_bearer};

    /// No bearers.
    pub fn new(alloc: Global) -> Bearers
        ensures { result ≡ [] }
    {
        Bearers {
            items: Vec::new(alloc),
        }
    }

    /// The bearers of a list; None where the indices don't rise, or two lives or two EBIs are the same,
    /// or a number is out of its range.
    pub fn of(items: Vec<Bearer>) -> Option<Bearers>
        ensures made { IfSome result (λ bearers. (bearers ≡ items.items) × AreBearers items.items) }
        ensures none { IfNone result (¬ AreBearers items.items) }
    {
        if are_bearers(&items) {
            Some(Bearers { items })
        } else {
            None
        }
    }

    /// One bearer.
    pub(crate) fn only(alloc: Global, bearer: Bearer) -> Result<Bearers, NoMemory>
        requires { IsBearer bearer }
        ensures { IfOk result (λ bearers. bearers ≡ bearer ∷ []) }
    {
        let mut items = Vec::with_capacity(alloc, 1)?;
        items.push(bearer)?;
        Ok(Bearers { items })
    }

    /// Where the memory of the bearers comes from.
    pub fn allocator(&self) -> Global {
        *self.items.allocator()
    }

    /// Lends the bearers. Takes no memory.
    #[tactic(auto, using(crate::proofs::Few::few_bearers))]
    pub fn as_slice(&self) -> &[Bearer]
        ensures value { result.now ≡ self.now }
        ensures valid { AreBearers self.now }
        ensures few { length self.now ≤ 11 }
    {
        &self.items
    }

    /// The bearer of an index.
    pub fn at(&self, index: u8) -> Option<&Bearer>
        ensures value { option_copied result ≡ at_index self.now index }
        ensures valid { IfSome result (λ bearer. IsBearer bearer.now) }
    {
        self.items
            .iter()
            .find(|bearer| bearer.choice.index == index)
    }

    /// The default bearer, where it is there and active.
    pub fn default_bearer(&self) -> Option<ActiveBearer>
        ensures value { result ≡ default_of self.now }
        ensures valid { IfSome result (λ bearer. IsEbi bearer.ebi × IsQos bearer.qos) }
    {
        match self.at(0) {
            Some(bearer) => bearer.active(),
            None => None,
        }
    }

    /// Whether a bearer has an index.
    pub fn has_index(&self, index: u8) -> bool
        ensures { result ≡ has_index self.now index }
    {
        self.items.iter().any(|bearer| bearer.choice.index == index)
    }

    /// The least index that no bearer has; None where all are taken.
    pub fn least_free(&self) -> Option<u8>
        ensures { result ≡ least_free self.now }
    {
        (0..11).find(|index| !self.has_index(*index))
    }

    /// The active bearer of an EBI.
    pub fn active(&self, ebi: u8) -> Option<&Bearer>
        ensures value { option_copied result ≡ find (is_active ebi) self.now }
        ensures valid { IfSome result (λ bearer. IsBearer bearer.now) }
    {
        self.items.iter().find(|bearer| bearer.is_active(ebi))
    }

    /// The index of the active bearer of an EBI.
    pub fn active_index(&self, ebi: u8) -> Option<u8>
        ensures value { result ≡ active_index self.now ebi }
        ensures range { IfSome result (λ index. index ≤ 10) }
    {
        match self.active(ebi) {
            Some(bearer) => Some(bearer.choice.index),
            None => None,
        }
    }

    /// Whether a bearer is active under an EBI.
    pub fn has_active(&self, ebi: u8) -> bool
        ensures { result ≡ has_active self.now ebi }
    {
        self.items.iter().any(|bearer| bearer.is_active(ebi))
    }

    /// Whether another bearer than the default one is active under an EBI.
    pub fn has_dedicated(&self, ebi: u8) -> bool
        ensures { result ≡ has_dedicated self.now ebi }
    {
        self.items.iter().any(|bearer| bearer.is_dedicated(ebi))
    }

    /// Whether a bearer was asked for under a sequence number.
    pub fn has_asked(&self, seq: u32) -> bool
        ensures { result ≡ has_asked self.now seq }
    {
        self.items.iter().any(|bearer| bearer.is_asked(seq))
    }

    /// One bearer more, in its place.
    pub(crate) fn place(&mut self, bearer: Bearer) -> Result<(), NoMemory>
        requires valid { IsBearer bearer }
        requires asked { (ebi : ℕ) → is_active ebi bearer ≡ false }
        requires index_free { has_index self.old (index_of bearer) ≡ false }
        requires new_life { AllByRecursion (λ (other : Bearer). other.life < bearer.life) self.old }
        ensures placed { OnOk result (self.new ≡ placed bearer self.old) }
        ensures unchanged { OnErr result (self.new ≡ self.old) }
    {
        let at = place_of(&self.items, bearer.choice.index);
        self.items.insert(at, bearer)?;
        Ok(())
    }

    /// Each active bearer takes the eNodeB of the ask for it, where there is one.
    pub(crate) fn rebind(&mut self, asks: &[Ask])
        ensures { self.new ≡ map (rebound_bearer asks.now) self.old }
    {
        rebind(&mut self.items, asks);
    }

    /// No bearer has an eNodeB.
    pub(crate) fn unbind(&mut self)
        ensures { self.new ≡ map unbound self.old }
    {
        unbind(&mut self.items);
    }

    /// Other filters for an active bearer.
    pub(crate) fn set_filters(&mut self, ebi: u8, filters: Filters)
        ensures { self.new ≡ with_first (is_active ebi) (filtered filters) self.old }
    {
        if let Some(at) = place_active(&self.items, ebi) {
            let bearer = &mut self.items[at];
            bearer.choice.filters = filters;
        }
    }

    /// An active bearer goes that isn't the default one.
    pub(crate) fn remove_dedicated(&mut self, ebi: u8)
        ensures { self.new ≡ without_first (is_dedicated ebi) self.old }
    {
        if let Some(at) = place_dedicated(&self.items, ebi) {
            let _bearer = self.items.remove(at);
        }
    }

    /// The first bearer that was asked for so is active from now on.
    pub(crate) fn grant(&mut self, seq: u32, ebi: u8, enb: Peer)
        requires ebi { IsEbi ebi }
        requires free { has_active self.old ebi ≡ false }
        ensures { self.new ≡ with_first (is_asked seq) (granted_bearer ebi enb) self.old }
    {
        if let Some(at) = place_asked(&self.items, seq) {
            let bearer = &mut self.items[at];
            bearer.phase = Phase::Active(ebi);
            bearer.enb = Some(enb);
        }
    }

    /// The first bearer that was asked for so goes.
    pub(crate) fn remove_asked(&mut self, seq: u32)
        ensures { self.new ≡ without_first (is_asked seq) self.old }
    {
        if let Some(at) = place_asked(&self.items, seq) {
            let _bearer = self.items.remove(at);
        }
    }
}

fn place_active(bearers: &[Bearer], ebi: u8) -> Option<usize>
    ensures { result ≡ position (is_active ebi) bearers.now }
{
    bearers.iter().position(|bearer| bearer.is_active(ebi))
}

fn place_dedicated(bearers: &[Bearer], ebi: u8) -> Option<usize>
    ensures { result ≡ position (is_dedicated ebi) bearers.now }
{
    bearers.iter().position(|bearer| bearer.is_dedicated(ebi))
}

fn place_asked(bearers: &[Bearer], seq: u32) -> Option<usize>
    ensures { result ≡ position (is_asked seq) bearers.now }
{
    bearers.iter().position(|bearer| bearer.is_asked(seq))
}

/// Where a bearer of an index has its place.
fn place_of(bearers: &[Bearer], index: u8) -> usize
    ensures within { result ≤ length bearers.now }
    ensures value { (bearer : Bearer) → index_of bearer ≡ index
        → insert bearers.now result bearer ≡ placed bearer bearers.now }
{
    for (at, bearer) in bearers.iter().enumerate() {
        if index < bearer.choice.index {
            return at;
        }
    }
    bearers.len()
}

fn ask_for(asks: &[Ask], ebi: u8) -> Option<&Ask>
    ensures { option_copied result ≡ ask_for asks.now ebi }
{
    asks.iter().find(|ask| ask.ebi == ebi)
}

/// The eNodeB that is asked for an active bearer.
fn enb_asked(asks: &[Ask], phase: Phase) -> Option<Peer>
    ensures { result ≡ enb_asked asks.now phase }
{
    match phase {
        Phase::Asked(_) => None,
        Phase::Active(ebi) => match ask_for(asks, ebi) {
            Some(ask) => ask.enb,
            None => None,
        },
    }
}

fn rebind(bearers: &mut [Bearer], asks: &[Ask])
    ensures { bearers.new ≡ map (rebound_bearer asks.now) bearers.old }
{
    for bearer in bearers.iter_mut() {
        bearer.enb = enb_asked(asks, bearer.phase).or(bearer.enb);
    }
}

fn unbind(bearers: &mut [Bearer])
    ensures { bearers.new ≡ map unbound bearers.old }
{
    for bearer in bearers.iter_mut() {
        bearer.enb = None;
    }
}
