//! Versions with one floor, whose numbers follow one another.
ghost use Rattle.std.specs.Prelude.{◌≡◌, ◌<◌, ◌≤◌, ◌↔◌, [], ◌∷◌, ◌++◌, length, vec_len};
ghost use Rattle.std.specs.Prelude.{vec_capacity, IsOk, OnOk, IfOk, IfErr, MatchOption};
ghost use Rattle.control_half.specs.Consecutive.{AreConsecutive, IsNext};

use lane_core::{Carried, NoMemory};
use pc_base::Numbered;
use std::alloc::Global;

/// How many versions a batch holds at most.
pub(crate) const MOST: usize = 16;

/// Up to 16 versions with consecutive numbers, all under one floor.
#[derive(Drop)]
pub struct Batch<V: Numbered> {
    floor: u64,
    versions: Vec<V>,
    pub ghost few: { length versions.items ≤ 16 },
    pub ghost consecutive: { AreConsecutive V.number_of versions.items },
    ghost counted: { vec_len versions ≡ length versions.items },
    ghost roomy: { 16 ≤ vec_capacity versions },
}

impl<V: Numbered + Drop> Carried for Batch<V> {}

impl<V: Numbered> Batch<V> {
    ghost use Rattle.control_half.specs.Batch.{versions_of, floor_of};

    /// A batch with its first version. All its memory is taken here; without it the version is let go.
    pub fn new(alloc: Global, first: V, floor: u64) -> Result<Batch<V>, NoMemory>
    where
        V: Drop,
        ensures { IfOk result (λ batch. (versions_of batch ≡ first ∷ []) × (floor_of batch ≡ floor)) }
    {
        let mut versions = Vec::with_capacity(alloc, MOST)?;
        versions.push_reserved(first);
        Ok(Batch { floor, versions })
    }

    /// Puts a version last. It comes back where 16 are held or its floor is another one.
    pub fn add(&mut self, version: V, floor: u64) -> Result<(), V>
        requires { IsNext V.number_of (versions_of self.old) version }

        ensures added { IsOk result ↔ (length (versions_of self.old) < 16) × (floor ≡ floor_of self.old) }
        ensures ok { OnOk result (versions_of self.new ≡ versions_of self.old ++ version ∷ []) }
        ensures err { IfErr result (λ back. (back ≡ version) × (versions_of self.new ≡ versions_of self.old)) }
        ensures floor { floor_of self.new ≡ floor_of self.old }
    {
        if self.versions.len() >= MOST || floor != self.floor {
            return Err(version);
        }
        self.versions.push_reserved(version);
        Ok(())
    }

    /// The floor of all its versions.
    pub fn floor(&self) -> u64
        ensures { result ≡ floor_of self.now }
    {
        self.floor
    }

    /// The versions that are left, at most 16, with consecutive numbers.
    pub fn versions(&self) -> &[V]
        ensures versions { result.now ≡ versions_of self.now }
        ensures few { length result.now ≤ 16 }
        ensures consecutive { AreConsecutive V.number_of result.now }
    {
        self.versions.as_slice()
    }

    /// Takes the first version that is left.
    pub fn take_first(&mut self) -> Option<V>
        ensures first { MatchOption result
            ((versions_of self.old ≡ []) × (versions_of self.new ≡ []))
            (λ version. versions_of self.old ≡ version ∷ versions_of self.new) }
        ensures floor { floor_of self.new ≡ floor_of self.old }
    {
        if self.versions.is_empty() {
            return None;
        }
        Some(self.versions.remove(0))
    }
}
