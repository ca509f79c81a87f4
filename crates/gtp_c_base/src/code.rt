//! What an export answers: 0, or the number of a refusal.

/// Fewer octets than a header, a value or an entry has.
pub const SHORT: u32 = 1;

/// Another version.
pub const VERSION: u32 = 2;

/// GTP' in the place of GTP.
pub const NOT_GTP: u32 = 3;

/// A length passes the end, or ends within the header.
pub const LENGTH: u32 = 4;

/// An extension header is empty or passes the end.
pub const EXTENSION: u32 = 5;

/// A type of message that isn't spoken here.
pub const KIND: u32 = 6;

/// Another message is piggybacked.
pub const PIGGYBACK: u32 = 7;

/// An IPv4 header's length is below five words, or passes the end.
pub const HEADER: u32 = 8;

/// An IPv4 total length ends within the header, or passes the end.
pub const TOTAL: u32 = 9;

/// A required element is absent.
pub const MISSING: u32 = 10;

/// A required element is outside its grammar.
pub const INCORRECT: u32 = 11;

/// A template has a parameter list.
pub const PARAMETERS: u32 = 12;

/// A template's operation is none, or has another number of entries.
pub const OPERATION: u32 = 13;

/// A filter's contents are no components.
pub const COMPONENT: u32 = 14;

/// An identifier stands twice.
pub const REPEATED_ID: u32 = 15;

/// Octets stand behind the last entry.
pub const TRAILING: u32 = 16;

/// No filter has an identifier that is replaced or removed.
pub const NO_SUCH_ID: u32 = 17;

/// A filter has an identifier that is added.
pub const ID_TAKEN: u32 = 18;

/// There is no filter to delete, or none would be left.
pub const EMPTY: u32 = 19;

/// Memory ran out.
pub const NO_MEMORY: u32 = 20;

/// The buffer is too short; `needed` says how much there must be.
pub const NO_ROOM: u32 = 21;

/// A payload is longer than its length field can say.
pub const TOO_LONG: u32 = 22;

/// A number, a moment or a struct is out of its range.
pub const RANGE: u32 = 23;

/// A value is outside its element's grammar.
pub const VALUE: u32 = 24;

/// No element begins here: the end.
pub const END: u32 = 25;

/// The packet takes no bearer.
pub const NO_BEARER: u32 = 26;

/// More filters than are looked at.
pub const TOO_MANY: u32 = 27;

/// The octets don't pass the policer.
pub const POLICED: u32 = 28;

/// The message is no request, and gets no reply.
pub const NO_REPLY: u32 = 29;

/// The packet was counted, and filled its piece.
pub const FULL: u32 = 30;
