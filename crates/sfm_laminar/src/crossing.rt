// The first two groups that cross: that share a place while neither holds the other.
ghost use Rattle.std.specs.{Prelude.{◌≡◌, ◌↔◌, ℕ, ◌<◌, List, length, slice_index_or, IsTrue, Contains, MatchOption}, List.{All}};
ghost use Rattle.sfm_laminar.specs.{Groups.{IsAscending, IsGroup, IsFirstCrossing, NoneCross, IsRepeated}, Crossing.{ListsAll, ListsSome, AreCrossing, IsCrossing}};

use crate::groups::{CappedGroup, Groups};
use crate::place::lists;

/// The numbers of two groups that cross.
#[derive(Clone, Copy)]
pub(crate) struct Crossing {
    pub first: usize,
    pub second: usize,
}

/// Whether a place is listed in both.
fn share(a: &[usize], b: &[usize]) -> bool
    requires { IsAscending b.now }
    ensures { IsTrue result ↔ ListsSome a.now b.now }
{
    for e in a {
        if lists(b, *e) {
            return true;
        }
    }
    false
}

/// Whether each place of the second list is in the first.
fn holds(a: &[usize], b: &[usize]) -> bool
    requires { IsAscending a.now }
    ensures { IsTrue result ↔ ListsAll a.now b.now }
{
    for e in b {
        if !lists(a, *e) {
            return false;
        }
    }
    true
}

/// Whether two groups cross.
fn cross(a: &CappedGroup, b: &CappedGroup) -> bool
    requires first { IsGroup a.now }
    requires second { IsGroup b.now }
    ensures { IsTrue result ↔ AreCrossing a.now b.now }
{
    let first = a.members();
    let second = b.members();
    if !share(first, second) {
        return false;
    }
    if holds(first, second) {
        return false;
    }
    !holds(second, first)
}

/// The first group before a second one that crosses it, if there is one.
fn first_before(groups: &Groups, second: usize) -> Option<usize>
    requires { second < length groups.now }
    ensures { MatchOption result ((i : ℕ) → i < second → IsCrossing groups.now i second → ⊥)
        (λ i. IsCrossing groups.now i second × ((a : ℕ) → a < i → IsCrossing groups.now a second
        → ⊥)) }
{
    for first in 0..second {
        let a = groups.group(first);
        let b = groups.group(second);
        if cross(a, b) {
            return Some(first);
        }
    }
    None
}

/// Whether an earlier group has the same members as the group `second`. The nearest are tried first, so that all the tests
/// together are at most as many as there are groups for each that is different.
fn is_repeated(groups: &Groups, second: usize) -> bool
    requires { second < length groups.now }
    ensures { IsTrue result ↔ IsRepeated groups.now second }
{
    let members = groups.group(second).members();
    for i in (0..second).rev() {
        if groups.group(i).members() == members {
            return true;
        }
    }
    false
}

/// The same where no earlier groups cross: then a group that an earlier one repeats is crossed by none.
fn first_new_before(groups: &Groups, second: usize) -> Option<usize>
    requires place { second < length groups.now }
    requires none { (i j : ℕ) → j < second → IsCrossing groups.now i j → ⊥ }
    ensures { MatchOption result ((i : ℕ) → i < second → IsCrossing groups.now i second → ⊥)
        (λ i. IsCrossing groups.now i second × ((a : ℕ) → a < i → IsCrossing groups.now a second
        → ⊥)) }
{
    if is_repeated(groups, second) {
        return None;
    }
    first_before(groups, second)
}

/// The crossing with the least second group, and of these with the least first, if there is one.
pub(crate) fn first_crossing(groups: &Groups) -> Option<Crossing>
    ensures { MatchOption result (NoneCross groups.now)
        (λ r. IsFirstCrossing groups.now r.first r.second) }
{
    for second in 0..groups.len() {
        if let Some(first) = first_new_before(groups, second) {
            return Some(Crossing { first, second });
        }
    }
    None
}
