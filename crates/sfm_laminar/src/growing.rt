// The set that grows place by place as long as no group has more than its cap: the greatest part that may be independent.
// How many of its places each group has is counted beside it, so that a place looks at the numbers of its own groups alone.
ghost use Rattle.std.specs.Prelude.{◌≡◌, ◌↔◌, ℕ, ◌<◌, ◌≤◌, false, List, length, slice_index_or, IfOk, IsTrue};
ghost use Rattle.sfm_spec.specs.Sets.{empty_set};
ghost use Rattle.sfm_laminar.specs.{Groups.{IsAscending, AreGroups}, Indexes.{IsIndex}, Counts.{AreCounts, HasFull, raised}, Grown.{step, grown}};

use crate::groups::Groups;
use crate::index::Index;
use sfm_base::{Memory, Set};
use std::alloc::Global;

/// The counts of the set with no place: 0 for each group.
fn zeros(alloc: Global, groups: &Groups) -> Result<Vec<usize>, Memory>
    ensures { IfOk result (λ r. (k : ℕ) → AreCounts groups.now (empty_set k) r.items) }
{
    let counts = vec![in alloc; 0; groups.len()]?;
    Ok(counts)
}

/// Whether one of the numbered groups has as many places as it may.
fn has_full(groups: &Groups, numbers: &[usize], counts: &[usize]) -> bool
    requires numbers { (p : ℕ) → p < length numbers.now → slice_index_or numbers.now p 0
        < length groups.now }
    requires counts { length counts.now ≡ length groups.now }
    ensures { IsTrue result ↔ HasFull groups.now numbers.now counts.now }
{
    for i in numbers {
        if counts[*i] as i128 >= groups.group(*i).cap() {
            return true;
        }
    }
    false
}

/// Counts one place more for each of the numbered groups.
fn raise(numbers: &[usize], counts: &mut [usize])
    requires numbers { (p : ℕ) → p < length numbers.now → slice_index_or numbers.now p 0
        < length counts.old }
    requires ascending { IsAscending numbers.now }
    requires few { (i : ℕ) → slice_index_or counts.old i 0 ≤ 256 }
    ensures { counts.new ≡ raised counts.old numbers.now (length numbers.now) }
{
    for i in numbers {
        counts[*i] += 1;
    }
}

/// Takes a place of s to t, unless a group that has it has no room.
fn take(groups: &Groups, index: &Index, s: &Set, t: &mut Set, counts: &mut [usize], e: usize)
    requires grouped { AreGroups (length s.now) groups.now }
    requires indexed { IsIndex (length s.now) groups.now index.now }
    requires few { length s.now ≤ 256 }
    requires places { length t.old ≡ length s.now }
    requires counted { AreCounts groups.now t.old counts.old }
    requires place { e < length s.now }
    requires out { slice_index_or t.old e false ≡ false }
    ensures taken { t.new ≡ step (length s.now) groups.now s.now t.old e }
    ensures counted { AreCounts groups.now t.new counts.new }
{
    if !s.contains(e) {
        return;
    }
    let holders = index.of(e);
    if has_full(groups, holders, counts) {
        return;
    }
    t.insert(e);
    raise(holders, counts);
}

/// The places of a set that are taken one after another.
pub(crate) fn grow(alloc: Global, groups: &Groups, index: &Index, s: &Set) -> Result<Set, Memory>
    requires grouped { AreGroups (length s.now) groups.now }
    requires indexed { IsIndex (length s.now) groups.now index.now }
    requires few { length s.now ≤ 256 }
    ensures { IfOk result (λ t. t ≡ grown (length s.now) groups.now s.now (length s.now)) }
{
    let mut t = Set::empty(alloc, s.len())?;
    let mut counts = zeros(alloc, groups)?;
    for e in 0..s.len() {
        take(groups, index, s, &mut t, &mut counts, e);
    }
    Ok(t)
}
