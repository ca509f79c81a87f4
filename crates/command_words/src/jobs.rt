//! What the program may be asked to do.

use crate::turns::AskedTurns;

/// Lanes between workers: 1 to 64 slices, room for 1 to 256 items of a subscriber, and for 1 to 16,384 of a slice.
#[derive(Clone, Copy, Debug, PartialEq, Eq)]
pub struct Lanes {
    pub slices: u8,
    pub room: u32,
    pub lane: u32,
}

/// A job of the program, with each option's number or its default.
#[derive(Drop)]
pub enum Job {
    /// `solo`: replay a trace on one thread.
    Solo,
    /// `drive`: replay a trace under a schedule, on one thread, with the places of packets in the report or without.
    Drive {
        lanes: Lanes,
        turns: AskedTurns,
        places: bool,
    },
    /// `replay`: replay a trace over slices in threads, with the places of packets in the report or without. A line
    /// whose queue or lane is full is tried so often again (0 to 1,000,000) before it is refused, and behind an epoch's
    /// last line the front pumps at most so often (0 to 1,000,000).
    Replay {
        lanes: Lanes,
        patience: u32,
        linger: u32,
        places: bool,
    },
    /// `make`: write a generated trace of so many further lines for so many subscribers (1 to 65,533;
    /// at most 100,000 lines), or the counts of its report.
    Make {
        seed: u64,
        subs: u32,
        lines: u32,
        summary: bool,
    },
    /// `import`: make a trace of a capture.
    Import,
    /// `export`: make a capture of a trace.
    Export,
    /// `audit`: judge a report, as one of `solo` (then with 64 slices) or of lanes: 1 to 64 slices,
    /// room for 1 to 256 items of a subscriber, and for 1 to 16,384 of a slice; and tell where it is
    /// refuted, or not.
    Audit {
        solo: bool,
        slices: u8,
        room: u32,
        lane: u32,
        why: bool,
    },
    /// `audit --along`: judge a report as `Audit` does, each piece of it with its piece of the trace, one behind
    /// another.
    Along {
        solo: bool,
        slices: u8,
        room: u32,
        lane: u32,
        why: bool,
    },
    /// `balance`: write a trace with moves planned by a report of it, over 1 to 64 slices, at most so many
    /// (1 to 16) behind each `FENCE`.
    Balance {
        slices: u8,
        most: u32,
    },
    /// `save`: write what a trace leaves as a saved state.
    Save,
    /// `resume`: replay a trace behind a saved state on one thread.
    Resume,
}
