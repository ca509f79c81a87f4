ghost use Rattle.std.specs.Prelude.{◌≡◌};
ghost use Rattle.gtpv2_msg.specs.Required as required;

use crate::kind::{
    CREATE_BEARER_REQUEST, CREATE_BEARER_RESPONSE, CREATE_SESSION_REQUEST, CREATE_SESSION_RESPONSE,
    DELETE_BEARER_RESPONSE, DELETE_SESSION_RESPONSE, DOWNLINK_DATA_NOTIFICATION_ACKNOWLEDGE,
    MODIFY_BEARER_REQUEST, MODIFY_BEARER_RESPONSE, RELEASE_ACCESS_BEARERS_RESPONSE,
    UPDATE_BEARER_REQUEST, UPDATE_BEARER_RESPONSE,
};
use gtpv2_ie::IeKind;

/// An element that must be in a Context, of instance 0, the first one inside its grammar.
#[derive(Clone, Copy, Debug, PartialEq, Eq)]
pub enum Part {
    Ie(IeKind),
    /// An EBI, and neither it nor the one that the Context holds is 0.
    AssignedEbi,
}

/// What a message must have: elements before its Contexts, whether a Context must be there, what
/// each Context must have, and elements behind them.
#[derive(Clone, Copy, Debug)]
pub struct RequiredIes {
    pub before: &'static [IeKind],
    pub must: bool,
    pub inside: &'static [Part],
    pub after: &'static [IeKind],
}

/// The row of a message type in the table of required elements.
#[tactic(auto, unfolding(crate::specs::Required::required))]
pub fn required(kind: u8) -> RequiredIes
    ensures before { result.before.now ≡ (required.required kind).before }
    ensures must { result.must ≡ (required.required kind).must }
    ensures inside { result.inside.now ≡ (required.required kind).inside }
    ensures after { result.after.now ≡ (required.required kind).after }
{
    match kind {
        CREATE_SESSION_REQUEST => RequiredIes {
            before: &[IeKind::Imsi, IeKind::Fteid, IeKind::Pdn, IeKind::Ambr],
            must: true,
            inside: &[Part::AssignedEbi, Part::Ie(IeKind::Qos)],
            after: &[],
        },
        MODIFY_BEARER_REQUEST => RequiredIes {
            before: &[],
            must: false,
            inside: &[Part::AssignedEbi],
            after: &[],
        },
        CREATE_BEARER_REQUEST => RequiredIes {
            before: &[IeKind::Ebi],
            must: true,
            inside: &[
                Part::Ie(IeKind::Ebi),
                Part::Ie(IeKind::Tft),
                Part::Ie(IeKind::Qos),
            ],
            after: &[],
        },
        CREATE_BEARER_RESPONSE => RequiredIes {
            before: &[IeKind::Cause],
            must: true,
            inside: &[Part::Ie(IeKind::Ebi), Part::Ie(IeKind::Cause)],
            after: &[],
        },
        UPDATE_BEARER_REQUEST => RequiredIes {
            before: &[],
            must: true,
            inside: &[Part::Ie(IeKind::Ebi)],
            after: &[IeKind::Ambr],
        },
        CREATE_SESSION_RESPONSE
        | MODIFY_BEARER_RESPONSE
        | DELETE_SESSION_RESPONSE
        | UPDATE_BEARER_RESPONSE
        | DELETE_BEARER_RESPONSE
        | RELEASE_ACCESS_BEARERS_RESPONSE
        | DOWNLINK_DATA_NOTIFICATION_ACKNOWLEDGE => RequiredIes {
            before: &[IeKind::Cause],
            must: false,
            inside: &[],
            after: &[],
        },
        _ => RequiredIes {
            before: &[],
            must: false,
            inside: &[],
            after: &[],
        },
    }
}
