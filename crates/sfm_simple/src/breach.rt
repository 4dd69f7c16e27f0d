// The test of a table against the law of submodularity: the first set, in binary counting, with two places outside it
// that gain more together than each alone. Where there is none, the table is submodular.
ghost use Rattle.std.specs.{Prelude.{◌≡◌, ◌↔◌, ℕ, ◌<◌, ◌≤◌, ◌^◌, true, false, length, slice_index_or, slice_set, IsTrue, MatchOption, ◌+ℤ◌, ◌<ℤ◌}, List.{All}};
ghost use Rattle.sfm_spec.specs.Bounds.{IsGiven};
ghost use Rattle.sfm_simple.specs.{Subsets.{members}, Breaches.{listed_at, GainsMore, BreaksLaw, IsFirstBreach, IsFirstPair, IsFirstSecond}};

use crate::subset::{has, unit};

/// A set, by its number, and two places outside it.
#[derive(Clone, Copy)]
pub(crate) struct Breach {
    pub set: usize,
    pub a: usize,
    pub b: usize,
}

/// Whether the first two numbers have less in all than the other two.
fn have_less(first: i128, second: i128, both: i128, neither: i128) -> bool
    requires first_given { IsGiven first }
    requires second_given { IsGiven second }
    requires both_given { IsGiven both }
    requires neither_given { IsGiven neither }
    ensures { IsTrue result ↔ ((first +ℤ second) <ℤ (both +ℤ neither)) }
{
    first + second < both + neither
}

/// The number of a set with a place more.
fn with_place(_k: usize, s: usize, a: usize) -> usize
    requires few { _k ≤ 8 }
    requires number { s < 2 ^ _k }
    requires place { a < _k }
    requires out { slice_index_or (members _k s) a false ≡ false }
    ensures number { result < 2 ^ _k }
    ensures members { members _k result ≡ slice_set (members _k s) a true }
{
    s + unit(a)
}

/// The number that is listed for a set.
fn listed(values: &[i128], _k: usize, s: usize) -> i128
    requires counted { length values.now ≡ 2 ^ _k }
    requires given { All IsGiven values.now }
    requires number { s < 2 ^ _k }
    ensures value { result ≡ listed_at values.now (members _k s) }
    ensures given { IsGiven result }
{
    values[s]
}

/// Whether two places outside a set gain more together than each alone.
fn gains_more(values: &[i128], k: usize, s: usize, a: usize, b: usize) -> bool
    requires counted { length values.now ≡ 2 ^ k }
    requires few { k ≤ 8 }
    requires given { All IsGiven values.now }
    requires number { s < 2 ^ k }
    requires ordered { a < b }
    requires in_range { b < k }
    requires first_out { slice_index_or (members k s) a false ≡ false }
    requires second_out { slice_index_or (members k s) b false ≡ false }
    ensures { IsTrue result ↔ GainsMore values.now (members k s) a b }
{
    let with_a = with_place(k, s, a);
    let with_b = with_place(k, s, b);
    let both = with_place(k, with_a, b);
    have_less(
        listed(values, k, with_a),
        listed(values, k, with_b),
        listed(values, k, both),
        listed(values, k, s),
    )
}

/// The first place b above a that breaks the law with a set and its place a.
fn first_second(values: &[i128], k: usize, s: usize, a: usize) -> Option<usize>
    requires counted { length values.now ≡ 2 ^ k }
    requires few { k ≤ 8 }
    requires given { All IsGiven values.now }
    requires number { s < 2 ^ k }
    requires in_range { a < k }
    requires first_out { slice_index_or (members k s) a false ≡ false }
    ensures { MatchOption result ((b : ℕ) → BreaksLaw values.now k s a b → ⊥)
        (λ b. IsFirstSecond values.now k s a b) }
{
    for b in a + 1..k {
        if !has(s, b) && gains_more(values, k, s, a, b) {
            return Some(b);
        }
    }
    None
}

/// The first pair of places that breaks the law with a set.
fn first_pair(values: &[i128], k: usize, s: usize) -> Option<(usize, usize)>
    requires counted { length values.now ≡ 2 ^ k }
    requires few { k ≤ 8 }
    requires given { All IsGiven values.now }
    requires number { s < 2 ^ k }
    ensures { MatchOption result ((a b : ℕ) → BreaksLaw values.now k s a b → ⊥)
        (λ pair. IsFirstPair values.now k s pair.0 pair.1) }
{
    for a in 0..k {
        if !has(s, a) {
            if let Some(b) = first_second(values, k, s, a) {
                return Some((a, b));
            }
        }
    }
    None
}

/// The first set, with its first pair of places, that breaks the law.
pub(crate) fn first_breach(values: &[i128], k: usize) -> Option<Breach>
    requires counted { length values.now ≡ 2 ^ k }
    requires few { k ≤ 8 }
    requires given { All IsGiven values.now }
    ensures { MatchOption result ((n a b : ℕ) → BreaksLaw values.now k n a b → ⊥)
        (λ breach. IsFirstBreach values.now k breach.set breach.a breach.b) }
{
    for s in 0..values.len() {
        if let Some((a, b)) = first_pair(values, k, s) {
            return Some(Breach { set: s, a, b });
        }
    }
    None
}
