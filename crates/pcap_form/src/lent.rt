//! What a record carries, where it lies.

/// What a record's captured octets say, as a `LineKind` says it, with the octets lent.
#[derive(Clone, Copy, Debug, Drop, PartialEq, Eq)]
pub enum LentKind<'a> {
    /// A GTPv2-C message to the gateway's port 2123.
    S11(&'a [u8]),
    /// A GTP-U message to the gateway's port 2152.
    S1u(&'a [u8]),
    /// An IPv4 packet to a user's address.
    Sgi(&'a [u8]),
}
