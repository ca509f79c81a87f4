ghost use Rattle.std.specs.Prelude.{◌≡◌};
ghost use Rattle.gtpv2_msg.specs.Kinds as kinds;

// The message types (TS 29.274, table 6.1-1). The answer to a request is one more.
pub const ECHO_REQUEST: u8 = 1;

pub const ECHO_RESPONSE: u8 = 2;

pub const CREATE_SESSION_REQUEST: u8 = 32;

pub const CREATE_SESSION_RESPONSE: u8 = 33;

pub const MODIFY_BEARER_REQUEST: u8 = 34;

pub const MODIFY_BEARER_RESPONSE: u8 = 35;

pub const DELETE_SESSION_REQUEST: u8 = 36;

pub const DELETE_SESSION_RESPONSE: u8 = 37;

pub const CREATE_BEARER_REQUEST: u8 = 95;

pub const CREATE_BEARER_RESPONSE: u8 = 96;

pub const UPDATE_BEARER_REQUEST: u8 = 97;

pub const UPDATE_BEARER_RESPONSE: u8 = 98;

pub const DELETE_BEARER_REQUEST: u8 = 99;

pub const DELETE_BEARER_RESPONSE: u8 = 100;

pub const RELEASE_ACCESS_BEARERS_REQUEST: u8 = 170;

pub const RELEASE_ACCESS_BEARERS_RESPONSE: u8 = 171;

pub const DOWNLINK_DATA_NOTIFICATION: u8 = 176;

pub const DOWNLINK_DATA_NOTIFICATION_ACKNOWLEDGE: u8 = 177;

/// Whether a message type is a known request.
#[tactic(auto, unfolding(crate::specs::Kinds::is_request))]
pub fn is_request(kind: u8) -> bool
    ensures { result ≡ kinds.is_request kind }
{
    matches!(
        kind,
        ECHO_REQUEST
            | CREATE_SESSION_REQUEST
            | MODIFY_BEARER_REQUEST
            | DELETE_SESSION_REQUEST
            | CREATE_BEARER_REQUEST
            | UPDATE_BEARER_REQUEST
            | DELETE_BEARER_REQUEST
            | RELEASE_ACCESS_BEARERS_REQUEST
            | DOWNLINK_DATA_NOTIFICATION
    )
}

/// Whether a message type is known: a request, or the answer to one.
#[tactic(auto, unfolding(crate::specs::Kinds::is_kind))]
pub fn is_kind(kind: u8) -> bool
    ensures { result ≡ kinds.is_kind kind }
{
    is_request(kind) || is_request(kind.saturating_sub(1))
}
