//! What a report is held against.

ghost use Rattle.std.specs.Prelude.{◌≡◌, ◌↔◌, ◌≤◌, IsTrue};
ghost use Rattle.audit_core.specs.Ranks.{GoesBefore, number_of, rank_of};

use crate::telling::Break;

/// A sentence of the lawful run, or the part of one of which a break is told before those of another part; or that each
/// line of the report is an entry. A break of one goes before those of all behind it.
#[derive(Clone, Copy, Debug, PartialEq, Eq)]
pub enum Sentence {
    /// Each line of the report is an entry.
    Entries,
    /// 1: each line of the trace has its entry, in its words.
    Answers,
    /// 1: no line has an entry that there isn't.
    Outside,
    /// 2: the commands and the packets of a slot are numbered on.
    Numbers,
    /// 3: the counts of commands rise, within their bounds.
    Counts,
    /// 4: replies and verdicts are those of the sequential gateway.
    Gateway,
    /// 5: effects are those that the events make.
    Effects,
    /// 5: so are charging records.
    Rows,
    /// 5: so are open counters.
    Opens,
    /// 6: lines are refused and packets parked only where they may be; on one thread a packet has just the commands
    /// before it.
    Waits,
    /// 6: the entries stand in their order.
    Order,
}

impl Sentence {
    /// The number that is told of it.
    pub fn number(self) -> u8
        ensures number { result ≡ number_of self }
        ensures most { result ≤ 6 }
    {
        match self {
            Sentence::Entries => 0,
            Sentence::Answers | Sentence::Outside => 1,
            Sentence::Numbers => 2,
            Sentence::Counts => 3,
            Sentence::Gateway => 4,
            Sentence::Effects | Sentence::Rows | Sentence::Opens => 5,
            Sentence::Waits | Sentence::Order => 6,
        }
    }

    // How many go before it.
    fn rank(self) -> u8
        ensures { result ≡ rank_of self }
    {
        match self {
            Sentence::Entries => 0,
            Sentence::Answers => 1,
            Sentence::Outside => 2,
            Sentence::Numbers => 3,
            Sentence::Counts => 4,
            Sentence::Gateway => 5,
            Sentence::Effects => 6,
            Sentence::Rows => 7,
            Sentence::Opens => 8,
            Sentence::Waits => 9,
            Sentence::Order => 10,
        }
    }

    /// Whether its breaks go before those of another.
    pub(crate) fn goes_before(self, other: Sentence) -> bool
        ensures { IsTrue result ↔ GoesBefore self other }
    {
        self.rank() < other.rank()
    }
}

/// What refutes a report, and where: the first sentence that is broken, and its first break.
#[derive(Drop)]
pub struct Refutation {
    pub sentence: Sentence,
    pub place: Break,
}
