//! More octets of a source behind those that are held.
ghost use Rattle.std.specs.Prelude.{◌≡◌, ◌+◌, ◌-◌, ◌<◌, ◌≤◌, ◌++◌, take, slice_range, vec_len};
ghost use Rattle.std.specs.Prelude.{IfOk, OnOk, OnErr};
ghost use Rattle.std.specs.Io.KnownBytes.{Consumes, IsAtEnd, Keeps};
ghost use Rattle.pc_outside.specs.Faults.{Rises};

use super::sources::{Failed, Source};

/// Moves the octets `from..to`, which are held, to the start, and reads behind them: at most so many
/// octets as are asked for, and none only at the end of the source. Answers how many. Where the source
/// failed, those held are at the start, and nothing is lost.
pub fn read_behind<S: Source>(
    source: &mut S,
    octets: &mut Vec<u8>,
    from: usize,
    to: usize,
    most: usize,
) -> Result<usize, Failed>
    requires ordered { from ≤ to }
    requires held { to ≤ vec_len octets.old }
    requires some { 0 < most }
    requires within { to - from + most ≤ vec_len octets.old }

    ensures len { vec_len octets.new ≡ vec_len octets.old }
    ensures held { slice_range octets.new.items 0 (to - from) ≡ slice_range octets.old.items from to }
    ensures count { IfOk result (λ count. count ≤ most) }
    ensures given { IfOk result (λ count. Consumes (S.left source.old) (S.left source.new)
        (slice_range octets.new.items (to - from) (to - from + count))) }
    ensures behind { IfOk result (λ count. slice_range octets.new.items 0 (to - from + count)
        ≡ slice_range octets.old.items from to ++ slice_range octets.new.items (to - from) (to - from + count)) }
    ensures end { IfOk result (λ count. count ≡ 0 → IsAtEnd (S.left source.new)) }
    ensures kept { OnErr result (Keeps (S.left source.old) (S.left source.new)) }

    ensures later { S.faults source.old ≤ S.faults source.new }
    ensures cause { OnErr result (Rises (S.faults source.old) (S.faults source.new)) }
    ensures no_fault { OnOk result (S.faults source.new ≡ S.faults source.old) }
{
    move_to_start(octets, from, to);
    read_between(source, octets, to - from, to - from + most)
}

// Reads into a range, and leaves what stands before it.
fn read_between<S: Source>(
    source: &mut S,
    octets: &mut Vec<u8>,
    at: usize,
    end: usize,
) -> Result<usize, Failed>
    requires some { at < end }
    requires within { end ≤ vec_len octets.old }

    ensures len { vec_len octets.new ≡ vec_len octets.old }
    ensures before { take at octets.new.items ≡ take at octets.old.items }
    ensures count { IfOk result (λ count. at + count ≤ end) }
    ensures given { IfOk result (λ count. Consumes (S.left source.old) (S.left source.new)
        (slice_range octets.new.items at (at + count))) }
    ensures end { IfOk result (λ count. count ≡ 0 → IsAtEnd (S.left source.new)) }
    ensures kept { OnErr result (Keeps (S.left source.old) (S.left source.new)) }

    ensures later { S.faults source.old ≤ S.faults source.new }
    ensures cause { OnErr result (Rises (S.faults source.old) (S.faults source.new)) }
    ensures no_fault { OnOk result (S.faults source.new ≡ S.faults source.old) }
{
    source.read(&mut octets[at..end])
}

// Moves the octets of a range to the start.
fn move_to_start(octets: &mut Vec<u8>, from: usize, to: usize)
    requires ordered { from ≤ to }
    requires within { to ≤ vec_len octets.old }
    ensures len { vec_len octets.new ≡ vec_len octets.old }
    ensures moved { slice_range octets.new.items 0 (to - from) ≡ slice_range octets.old.items from to }
{
    if from > 0 {
        octets.copy_within(from..to, 0);
    }
}
