//! A batch of versions that hold a number and no more.
ghost use Rattle.std.specs.Prelude.{IfSome};
ghost use Rattle.std.proofs.Props.{props};
ghost use Rattle.control_half.specs.Batch.{versions_of as held};
ghost use Rattle.control_half.specs.Consecutive.{IsNext};

use crate::answers::{StepStop, push_counted, push_word};
use crate::step::ScriptStep;
use control_half::Batch;
use lane_core::NoMemory;
use pc_base::Numbered;
use std::alloc::Global;
use text_fields::Text;

#[derive(Clone, Copy, Debug, PartialEq, Eq)]
struct Edition(u64);

impl Numbered for Edition {
    ghost number_of = { λ edition. edition.0 };

    fn number(&self) -> u64 {
        self.0
    }
}

/// A batch, and the version that may join it, as long as none was taken.
#[derive(Drop)]
pub struct Shelf {
    batch: Batch<Edition>,
    next: Option<u64>,
    ghost follows: { IfSome next (λ n. IsNext (λ e. e.0) (held batch) (record { 0 = n })) } by { Prim.hlevel props },
}

impl Shelf {
    #[tactic(auto, using(crate::proofs::Editions::second_edition))]
    pub fn new(alloc: Global, first: u32, floor: u32) -> Result<Shelf, NoMemory> {
        let first = u64::from(first);
        Ok(Shelf {
            batch: Batch::new(alloc, Edition(first), u64::from(floor))?,
            next: Some(first + 1),
        })
    }

    // Adds the version behind the last one, and tells the one that came back, if it did.
    #[tactic(auto, using(crate::proofs::Editions::edition_after))]
    fn add(&mut self, floor: u64) -> Result<Option<u64>, StepStop> {
        let Some(next) = self.next else {
            return Err(StepStop::Step);
        };
        if next > 1000 {
            return Err(StepStop::Step);
        }
        match self.batch.add(Edition(next), floor) {
            Ok(()) => {
                self.next = Some(next + 1);
                Ok(None)
            }
            Err(back) => Ok(Some(back.0)),
        }
    }

    // The number of the first version, which is taken. None joins the batch behind that.
    fn take(&mut self) -> Option<u64> {
        self.next = None;
        match self.batch.take_first() {
            Some(first) => Some(first.0),
            None => None,
        }
    }

    /// A version more under a floor (a), the floor (f), the versions (v), or the first one, which is taken (t).
    pub fn play(&mut self, step: ScriptStep, text: &mut Text) -> Result<(), StepStop> {
        match step.letter {
            b'a' => match self.add(u64::from(step.one))? {
                None => push_word(text, b"ok"),
                Some(back) => push_counted(text, b"back", back),
            },
            b'f' => push_counted(text, b"", self.batch.floor()),
            b'v' => Ok(push_numbers(text, self.batch.versions())?),
            b't' => match self.take() {
                Some(first) => push_counted(text, b"", first),
                None => push_word(text, b"none"),
            },
            _ => Err(StepStop::Step),
        }
    }
}

fn push_numbers(text: &mut Text, editions: &[Edition]) -> Result<(), NoMemory> {
    for edition in editions {
        text.push_number(edition.0)?;
    }
    Ok(())
}
