//! Interface types of an F-TEID (TS 29.274, table 8.22-1).

/// S1-U, the eNodeB's end for user packets.
pub const S1_U_ENODEB: u8 = 0;

/// S1-U, the serving gateway's end for user packets.
pub const S1_U_SGW: u8 = 1;

/// S11, the MME's end for signalling.
pub const S11_MME: u8 = 10;

/// S11, the serving gateway's end for signalling.
pub const S11_SGW: u8 = 11;
