//! The causes that the gateway answers with (TS 29.274, table 8.4-1).

/// Request accepted.
pub const REQUEST_ACCEPTED: u8 = 16;

/// New PDN type due to network preference: IPv4 alone, where both versions were asked for.
pub const NEW_PDN_TYPE: u8 = 18;

/// Context Not Found.
pub const CONTEXT_NOT_FOUND: u8 = 64;

/// Preferred PDN type not supported.
pub const PREFERRED_PDN_TYPE_NOT_SUPPORTED: u8 = 83;

/// Request rejected.
pub const REQUEST_REJECTED: u8 = 94;
