//! Numbers of the IPv4 header (RFC 791, 3.1).

/// The version of the Internet Protocol whose packets these are.
pub const VERSION: u8 = 4;

/// The least header length, in words of four octets.
pub const MINIMUM_WORDS: u8 = 5;

/// The least header length, in octets.
pub const MINIMUM_LEN: usize = 20;
