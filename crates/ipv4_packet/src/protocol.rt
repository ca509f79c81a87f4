//! Protocol numbers of what an IPv4 packet carries (IANA, Assigned Internet Protocol Numbers).

/// Transmission Control Protocol (RFC 9293).
pub const TCP: u8 = 6;

/// User Datagram Protocol (RFC 768).
pub const UDP: u8 = 17;

/// Encapsulating Security Payload (RFC 4303).
pub const ESP: u8 = 50;

/// Authentication Header (RFC 4302).
pub const AH: u8 = 51;

/// Stream Control Transmission Protocol (RFC 9260).
pub const SCTP: u8 = 132;
