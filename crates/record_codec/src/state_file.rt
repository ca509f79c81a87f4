//! A state file.
use address_book::AddressBook;
use pc_base::Moment;
use std::marker::Model;
use subscriber::Subscriber;

/// The first octet of a state file.
pub const FORMAT_VERSION: u8 = 1;

/// The subscribers at rest behind some lines. It keeps what `IsFile` names: no two IMSIs are the same, the subscriber
/// at each place has that slot, and its counters fit its session and have no records; counts are below 2^50.
#[derive(Drop)]
pub struct StateFile {
    /// How many lines were read.
    pub lines: u64,
    /// The moment of the last of them, or 0.
    pub moment: Moment,
    /// The IMSIs, by slot.
    pub book: AddressBook,
    /// As many as there are IMSIs, by slot.
    pub subscribers: Vec<Subscriber>,
}

impl Model for StateFile {
    ghost use Rattle.std.specs.Prelude.{◌≡◌, length};
    ghost use Rattle.std.specs.List.{AllByRecursion};
    ghost use Rattle.record_codec.specs.Saved.{FileState, IsFile, IsResting, all_saved};

    ghost Value = { FileState };

    ghost view = { λ file. record {
      lines = file.lines;
      moment = file.moment;
      subscribers = all_saved file.book file.subscribers.items;
    } };

    ghost invariant = { λ file. IsFile (record {
      lines = file.lines;
      moment = file.moment;
      subscribers = all_saved file.book file.subscribers.items;
    }) × (length file.subscribers.items ≡ length file.book) × AllByRecursion IsResting file.subscribers.items };
}
