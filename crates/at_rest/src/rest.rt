//! The gateway at rest.
ghost use Rattle.std.specs.Prelude.{◌≡◌, ◌≤◌, ◌^◌, [], length, vec_len};
ghost use Rattle.at_rest.specs.Rest.{AreAtRest};

use address_book::AddressBook;
use std::alloc::Global;
use std::marker::Model;
use subscriber::Subscriber;

/// How many slices there are, and how many items wait.
#[derive(Clone, Copy, Debug)]
pub struct Sizes {
    /// 1 to 64.
    pub slices: u8,
    /// The room of a slot's queues, 1 to 256.
    pub room: u32,
    /// The room of a slice's lane, 1 to 16,384.
    pub lane: u32,
}

/// The gateway between two epochs. It is taken apart when an epoch begins, and made again when it ends.
#[derive(Drop)]
pub struct AtRest {
    pub sizes: Sizes,
    /// Which IMSI has which slot.
    pub book: AddressBook,
    /// By slot: as many as there are IMSIs in the book.
    pub subscribers: Vec<Subscriber>,
    /// How many lines the run had: at most 2^39.
    pub lines: u64,
    /// The moment of the last of them in microseconds, or 0.
    pub latest: u64,
    /// How many tries of lines were answered Full, up to 2^64 - 1.
    pub fulls: u64,
    pub ghost slices_few: { (1 ≤ sizes.slices) × (sizes.slices ≤ 64) },
    pub ghost roomy: { (1 ≤ sizes.room) × (sizes.room ≤ 256) },
    pub ghost lane_roomy: { (1 ≤ sizes.lane) × (sizes.lane ≤ 16384) },
    pub ghost as_many: { vec_len subscribers ≡ length book },
    pub ghost few: { lines ≤ 2 ^ 39 },
    pub ghost each: { AreAtRest sizes.slices lines latest subscribers.items },
}

impl Model for AtRest {
    ghost use Rattle.at_rest.specs.Rest.{Rest};

    ghost Value = { Rest };

    ghost view = { λ rest. record {
      slices = rest.sizes.slices;
      room = rest.sizes.room;
      lane = rest.sizes.lane;
      book = rest.book;
      subscribers = rest.subscribers.items;
      lines = rest.lines;
      latest = rest.latest;
      fulls = rest.fulls;
    } };
}

impl AtRest {
    ghost use Rattle.lawful_run.specs.Run.{no_events};
    ghost use Rattle.at_rest.specs.Rest.{RepresentsAll, IsBehind, new_rest};

    /// The gateway before the first line. It takes no memory.
    pub fn new(alloc: Global, slices: u8, room: u32, lane: u32) -> AtRest
        requires slices { (1 ≤ slices) × (slices ≤ 64) }
        requires room { (1 ≤ room) × (room ≤ 256) }
        requires lane { (1 ≤ lane) × (lane ≤ 16384) }
        ensures new { result ≡ new_rest slices room lane }
        ensures represents { RepresentsAll result no_events }
        ensures behind { IsBehind result [] }
    {
        AtRest {
            sizes: Sizes { slices, room, lane },
            book: AddressBook::new(alloc),
            subscribers: Vec::new(alloc),
            lines: 0,
            latest: 0,
            fulls: 0,
        }
    }
}
