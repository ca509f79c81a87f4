//! The type octets of the elements that are read (TS 29.274, table 8.1-1), one for each `IeKind`.

pub const IMSI: u8 = 1;

pub const CAUSE: u8 = 2;

/// Restart counter.
pub const RECOVERY: u8 = 3;

/// Access point name.
pub const APN: u8 = 71;

/// Aggregate maximum bit rate.
pub const AMBR: u8 = 72;

/// EPS bearer identity.
pub const EBI: u8 = 73;

/// PDN address allocation.
pub const PAA: u8 = 79;

pub const BEARER_QOS: u8 = 80;

/// Radio access technology.
pub const RAT_TYPE: u8 = 82;

/// Bearer level traffic flow template.
pub const BEARER_TFT: u8 = 84;

/// Fully qualified tunnel endpoint identifier.
pub const F_TEID: u8 = 87;

pub const BEARER_CONTEXT: u8 = 93;

pub const PDN_TYPE: u8 = 99;
