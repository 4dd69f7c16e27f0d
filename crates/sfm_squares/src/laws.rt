// Facts on the bases of a sum, by the meanings of its terms alone. The functions do nothing: each states a fact, and callers'
// proofs cite it.
ghost use Rattle.std.specs.Prelude.{◌≡◌, List, ℕ, pos, ◌≤ℤ◌};
ghost use Rattle.sfm_spec.specs.{Sets.{Has}, Families.{meanings, AreBases, ArePlaced}, Walks.{Step, AllCanMove, IsShortestTo}};
ghost use Rattle.sfm_squares.specs.LevelLaws.{LevelLaws, MoveLawsTo};

use sfm_base::{Rows, Set};
use sfm_law::Term;

/// Bases of the terms add up to a base of the sum. It is a most level one, of the least sum of squares, exactly where no walk
/// of exchanges leads from a place to one at which it is larger by two or more (Fujishige, Submodular Functions and
/// Optimization, section 9).
pub fn level_bases<T: Term>(_terms: &[T], _n: usize, _rows: &Rows)
    requires placed { ArePlaced _n (meanings T.places T.value_of _terms.now) }
    requires bases { AreBases (pos 1) (meanings T.places T.value_of _terms.now) _rows.now }
    ensures { LevelLaws (meanings T.places T.value_of _terms.now) _n _rows.now }
{}

/// Along a walk with fewest steps to some places, of which its beginning is none, from its last step to its first, each step
/// can still move an amount that each step allows, after the steps behind it have moved; the rows afterwards are bases, and
/// their sum changes at the ends of the walk alone (Fujishige, Submodular Functions and Optimization, section 4).
pub fn order_of_exchanges_to<T: Term>(
    _terms: &[T],
    _q: i128,
    _rows: &Rows,
    _to: &Set,
    _first: usize,
    _a: i128,
)
    requires factor { pos 0 ≤ℤ _q }
    requires placed { (n : ℕ) × ArePlaced n (meanings T.places T.value_of _terms.now) }
    requires bases { AreBases _q (meanings T.places T.value_of _terms.now) _rows.now }
    requires apart { Has _to.now _first → ⊥ }
    requires amount { pos 1 ≤ℤ _a }
    ensures { (steps : List Step) → IsShortestTo (meanings T.places T.value_of _terms.now) _q
        _rows.now (Has _to.now) _first steps
        → AllCanMove (meanings T.places T.value_of _terms.now) _q _rows.now _first steps _a
        → MoveLawsTo (meanings T.places T.value_of _terms.now) _q _rows.now _first steps _a }
{}
