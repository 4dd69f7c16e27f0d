// Why two instances do not go together. Each reason is looked for where none of those before it was found, so the first one is
// told, with the first line at which it shows.
ghost use Rattle.std.specs.Prelude.{◌≡◌, ◌↔◌, ◌+◌, ◌*ℤ◌, ◌+ℤ◌, ◌≤◌, ◌^◌, length, pos, ◌≤ℤ◌, IsTrue, MatchOption};
ghost use Rattle.sfm_kind.specs.{Instance.{support_of}, Limits.{total_size_of}};
ghost use Rattle.sfm_meet.specs.Meetable.{AreMeetable, HasNoNeed, IsNeed};
ghost use Rattle.sfm_pair.specs.{Pair.{IsClashOf}, Sides.{lined_of}, Passing.{IsFirstNeed, PassesTogether}};

use sfm_kind::{Instance, Kind};
use sfm_law::Term;
use sfm_text::Numbered;

/// Why two instances do not go together, in the order in which one reason comes before another.
#[derive(Clone, Copy, Debug, PartialEq, Eq)]
pub enum Clash {
    /// Their ground lines do not have the same names in the same order.
    Ground,
    /// The left one has a condition.
    LeftNeed,
    /// The right one has.
    RightNeed,
    /// There are too many places, or too much size, in both together.
    Total,
}

/// The most places of both.
const MOST_PAIR_PLACES: usize = 16384;

/// The most that the sizes of the left and twice those of the right may add to.
const MOST_PAIR_SIZE: i128 = 1_000_000_000_000_000_000;

/// Whether two instances have the same names in the same order.
fn have_same_names(left: &Instance, right: &Instance) -> bool
    ensures { IsTrue result ↔ (left.now.names ≡ right.now.names) }
{
    let n = left.names_len();
    if right.names_len() != n {
        return false;
    }
    for e in 0..n {
        if left.name(e) != right.name(e) {
            return false;
        }
    }
    true
}

/// Whether a term is a condition.
fn is_need(term: &Kind) -> bool
    ensures { IsTrue result ↔ IsNeed term.now }
{
    matches!(term, Kind::Need(_))
}

/// The line of the first condition among terms with the numbers of their lines, or None where there is none.
fn first_need(terms: &[Kind], lines: &[usize]) -> Option<usize>
    requires { length lines.now ≡ length terms.now }
    ensures { MatchOption result (HasNoNeed terms.now) (IsFirstNeed terms.now lines.now) }
{
    for i in 0..terms.len() {
        if is_need(&terms[i]) {
            return Some(lines[i]);
        }
    }
    None
}

/// Of terms with the numbers of their lines, the line at which there are too many places or is too much size, beside so many
/// places and so much size of others; or None where there is not. Sizes count twice.
fn passes_at(places: usize, size: i128, terms: &[Kind], lines: &[usize]) -> Option<usize>
    requires counted { length lines.now ≡ length terms.now }
    requires places { places ≤ 16384 }
    requires low { pos 0 ≤ℤ size }
    requires size { size ≤ℤ pos (10 ^ 18) }
    requires few { support_of terms.now ≤ 16384 }
    requires small { total_size_of terms.now ≤ℤ pos (10 ^ 18) }
    ensures { MatchOption result
        ((places + support_of terms.now ≤ 16384)
        × ((size +ℤ pos 2 *ℤ total_size_of terms.now) ≤ℤ pos (10 ^ 18)))
        (PassesTogether places size terms.now lines.now) }
{
    let mut all_places = places;
    let mut all_size = size;
    for i in 0..terms.len() {
        all_places += terms[i].elements().len();
        all_size += 2 * terms[i].size();
        if all_places > MOST_PAIR_PLACES || all_size > MOST_PAIR_SIZE {
            return Some(lines[i]);
        }
    }
    None
}

/// The first reason for which two instances do not go together, with the line at which it shows; or None where they do.
pub fn clash_of(left: &Numbered, right: &Numbered) -> Option<(Clash, usize)>
    requires left { length left.now.term_lines.items ≡ length left.now.instance.terms }
    requires right { length right.now.term_lines.items ≡ length right.now.instance.terms }
    ensures { MatchOption result (AreMeetable left.now.instance right.now.instance)
        (λ found. IsClashOf (lined_of left.now) (lined_of right.now) found.0 found.1) }
{
    if !have_same_names(&left.instance, &right.instance) {
        return Some((Clash::Ground, right.ground_line));
    }
    if let Some(line) = first_need(left.instance.terms(), &left.term_lines) {
        return Some((Clash::LeftNeed, line));
    }
    if let Some(line) = first_need(right.instance.terms(), &right.term_lines) {
        return Some((Clash::RightNeed, line));
    }
    let line = passes_at(
        left.instance.support(),
        left.instance.total_size(),
        right.instance.terms(),
        &right.term_lines,
    )?;
    Some((Clash::Total, line))
}
