//! The maker of lines.
ghost use Rattle.std.specs.Prelude.{◌≡◌, ◌∷◌, ◌<◌, ◌≤◌, [], length, MatchOption, IfOk, OnErr};
ghost use Rattle.trace_maker.specs.Generated.{made};
ghost use Rattle.trace_maker.specs.Plan.{line_of};
ghost use Rattle.trace_maker.specs.Said.{IsSaid};

use crate::draws::Draws;
use crate::said::{Said, draw_line, kind_of};
use pc_base::{Moment, NoMemory, Slot};
use std::alloc::Global;
use std::marker::Model;
use trace_lines::TraceLine;

/// The lines of a trace that are still to be made, as which a contract sees it.
#[derive(Drop)]
pub struct Maker {
    subscribers: u32,
    attached: u32,
    lines: u32,
    drawn: u32,
    draws: Draws,
}

impl Model for Maker {
    ghost use Rattle.std.specs.Prelude.{◌+◌, ◌-◌, ◌<◌, ◌≤◌, List, ◌++◌};
    ghost use Rattle.trace_lines.specs.Line.{Line};
    ghost use Rattle.trace_maker.specs.Generated.{attach_lines, drawn_lines};

    ghost Value = { List Line };

    ghost view = { λ maker. attach_lines maker.attached (maker.subscribers - maker.attached)
        ++ drawn_lines maker.subscribers maker.draws (maker.drawn + 1) (maker.lines - maker.drawn) };

    ghost invariant = { λ maker. (0 < maker.subscribers) × (maker.subscribers ≤ 65533)
        × (maker.attached ≤ maker.subscribers)
        × (maker.drawn ≤ maker.lines) × (maker.lines ≤ 100000) };
}

impl Maker {
    /// The maker of the trace of this seed. It takes no memory.
    pub fn new(seed: u64, subscribers: u32, lines: u32) -> Maker
        requires some { 1 ≤ subscribers }
        requires slots { subscribers ≤ 65533 }
        requires most { lines ≤ 100000 }

        ensures { result ≡ made seed subscribers lines }
    {
        Maker {
            subscribers,
            attached: 0,
            lines,
            drawn: 0,
            draws: Draws::new(seed),
        }
    }

    // The next line, and the maker of those behind it.
    #[tactic(auto, using(crate::proofs::Steps::attach_next, crate::proofs::Steps::drawn_next))]
    pub(crate) fn next(&self) -> Option<(LinePlan, Maker)>
        ensures { MatchOption result (self.now ≡ []) (λ next. IsSaid next.0.said
            × (self.now ≡ line_of next.0 ∷ next.1)) }
    {
        if self.attached < self.subscribers {
            let plan = LinePlan {
                number: u64::from(self.attached) + 1,
                moment: Moment(0),
                said: Said::Attach {
                    slot: Slot(self.attached),
                },
            };
            let behind = Maker {
                subscribers: self.subscribers,
                attached: self.attached + 1,
                lines: self.lines,
                drawn: self.drawn,
                draws: self.draws,
            };
            Some((plan, behind))
        } else if self.drawn < self.lines {
            let drawn = self.drawn + 1;
            let mut draws = self.draws;
            let said = draw_line(&mut draws, self.subscribers);
            let plan = LinePlan {
                number: u64::from(self.subscribers) + u64::from(drawn),
                moment: Moment(100 * u64::from(drawn)),
                said,
            };
            let behind = Maker {
                subscribers: self.subscribers,
                attached: self.attached,
                lines: self.lines,
                drawn,
                draws,
            };
            Some((plan, behind))
        } else {
            None
        }
    }
}

/// What a line is made of.
#[derive(Clone, Copy)]
pub(crate) struct LinePlan {
    pub number: u64,
    pub moment: Moment,
    pub said: Said,
}

// The line that is planned.
#[tactic(auto, using(crate::proofs::KindLemmas::is_line))]
pub(crate) fn line_of(alloc: Global, plan: LinePlan) -> Result<TraceLine, NoMemory>
    requires { IsSaid plan.said }
    ensures { IfOk result (λ line. line ≡ line_of plan) }
{
    let (kind, octets) = kind_of(alloc, plan.said)?;
    Ok(TraceLine {
        number: plan.number,
        moment: plan.moment,
        kind,
        octets,
    })
}

/// Makes the next line; None exactly after the last. After running out of memory the same line is the next.
pub fn made_line(alloc: Global, maker: &mut Maker) -> Result<Option<TraceLine>, NoMemory>
    ensures made { IfOk result (λ line. MatchOption line ((maker.old ≡ []) × (maker.new ≡ []))
        (λ line. maker.old ≡ line ∷ maker.new)) }
    ensures unchanged { OnErr result (maker.new ≡ maker.old) }
    ensures some { OnErr result (0 < length maker.old) }
{
    let Some((plan, behind)) = maker.next() else {
        return Ok(None);
    };
    let line = line_of(alloc, plan)?;
    *maker = behind;
    Ok(Some(line))
}
