//! What a Modify Bearer Request asks for.
use crate::ranges::are_asks;
use pc_base::Peer;
use std::marker::Model;

/// One ask: the active bearer of this EBI, and where its downlink packets go from now on, if that
/// changes.
#[derive(Clone, Copy, Debug, PartialEq, Eq)]
pub struct Ask {
    /// 5 to 15.
    pub ebi: u8,
    pub enb: Option<Peer>,
}

/// The asks of one request: at most 11, of different EBIs. Seen as their list.
#[derive(Clone, Debug, Drop)]
pub struct Asks {
    items: Vec<Ask>,
}

impl Model for Asks {
    ghost use Rattle.std.specs.Prelude.{List};
    ghost use Rattle.bearer_state.specs.declared.ask.Ask.{Ask};
    ghost use Rattle.bearer_state.specs.Ask.{AreAsks};

    ghost Value = { List Ask };

    ghost view = { λ asks. asks.items.items };

    ghost invariant = { λ asks. AreAsks asks.items.items };
}

impl Asks {
    ghost use Rattle.std.specs.Prelude.{◌≡◌, IfSome, IfNone};
    ghost use Rattle.bearer_state.specs.Ask.{AreAsks};

    /// The asks of a list; None where they are more than 11, an EBI is out of its range, or two have one.
    pub fn of(items: Vec<Ask>) -> Option<Asks>
        ensures made { IfSome result (λ asks. (asks ≡ items.items) × AreAsks items.items) }
        ensures none { IfNone result (¬ AreAsks items.items) }
    {
        if are_asks(&items) {
            Some(Asks { items })
        } else {
            None
        }
    }

    /// Lends the asks. Takes no memory.
    pub fn as_slice(&self) -> &[Ask]
        ensures value { result.now ≡ self.now }
        ensures valid { AreAsks self.now }
    {
        &self.items
    }
}
