// Facts that hold of every term, by its meaning alone. The functions do nothing: each states a fact, and callers' proofs cite it.
ghost use Rattle.std.specs.{Prelude.{◌≡◌, ◌≢◌, List, ℕ, ◌<◌, length, ℤ, pos, neg_ℤ, ◌≤ℤ◌}, List.{All}};
ghost use Rattle.sfm_spec.specs.{Blocks.{Block, AreBlocks, Generate}, Families.{meanings, AreBases, ArePlaced, rest_at}, Chains.{ChainLaws}, Labels.{FewWalksLaws}, Laws.{BaseLaws, MoveLaws}, Rows.{LeastTight, RowLaws}, Terms.{times, exchanged, IsBase, TightLaws}, Walks.{Step, AllCanMove, IsShortest, last_of}};

use crate::term::Term;
use sfm_base::Rows;

/// At a base, tight parts are closed under union and intersection, and a part is tight exactly where it
/// holds, with each of its places, all to which it has room (Schrijver, Combinatorial Optimization, section 44).
pub fn tight_parts<T: Term>(_term: &T, _q: i128, _x: &[i128])
    requires factor { pos 0 ≤ℤ _q }
    requires entries { length _x.now ≡ length (T.places _term.now) }
    requires base { IsBase (times _q (T.value_of _term.now)) _x.now }
    ensures { TightLaws (times _q (T.value_of _term.now)) _x.now }
{}

/// Bases of q times their terms prove the least value exactly where no walk joins. Where they prove, a set is a
/// minimiser exactly where it has each place with z < 0 and none with z > 0, and its part in each term is tight
/// (Schrijver, Combinatorial Optimization, section 45).
pub fn minimisers_from_bases<T: Term>(
    _terms: &[T],
    _n: usize,
    _q: i128,
    _shift: &[i128],
    _rows: &Rows,
)
    requires factor { pos 0 ≤ℤ _q }
    requires placed { ArePlaced _n (meanings T.places T.value_of _terms.now) }
    requires bases { AreBases _q (meanings T.places T.value_of _terms.now) _rows.now }
    ensures { BaseLaws (meanings T.places T.value_of _terms.now) _n _q _shift.now _rows.now }
{}

/// Along a joining shortest walk, from its last step to its first, each step can still move an amount that each
/// step and both ends allow, after the steps behind it have moved; the rows afterwards are bases, and the sum of
/// min(z, 0) rises by exactly the amount (Fujishige, Submodular Functions and Optimization, section 4).
pub fn order_of_exchanges<T: Term>(_terms: &[T], _n: usize, _q: i128, _shift: &[i128], _rows: &Rows)
    requires factor { pos 0 ≤ℤ _q }
    requires placed { ArePlaced _n (meanings T.places T.value_of _terms.now) }
    requires bases { AreBases _q (meanings T.places T.value_of _terms.now) _rows.now }
    ensures { (first : ℕ) (steps : List Step) (a : ℤ) → pos 1 ≤ℤ a
        → IsShortest (meanings T.places T.value_of _terms.now) _q _shift.now _rows.now first steps
        → AllCanMove (meanings T.places T.value_of _terms.now) _q _rows.now first steps a
        → a ≤ℤ neg_ℤ (rest_at (meanings T.places T.value_of _terms.now) _rows.now _shift.now first)
        → a ≤ℤ rest_at (meanings T.places T.value_of _terms.now) _rows.now _shift.now
        (last_of first steps)
        → MoveLaws (meanings T.places T.value_of _terms.now) _n _q _shift.now _rows.now first steps
        a }
{}

/// Along ascending slopes minimisers nest, and what makes a list of slopes and sets all breakpoints in order, over
/// elements of positive sizes (Fujishige, Submodular Functions and Optimization, section 7).
pub fn chain_of_slopes<T: Term>(_terms: &[T], _n: usize, _sizes: &[i128])
    requires placed { ArePlaced _n (meanings T.places T.value_of _terms.now) }
    requires sized { length _sizes.now ≡ _n }
    requires positive { All (λ w. pos 1 ≤ℤ w) _sizes.now }
    ensures { ChainLaws (meanings T.places T.value_of _terms.now) _n _sizes.now }
{}

/// The blocks of all minimisers generate them: the minimisers are exactly the unions of the least one with the
/// members of chosen blocks, where each chosen block has all blocks that it needs chosen too (Fujishige, Submodular
/// Functions and Optimization, section 3).
pub fn blocks_generate<T: Term>(_terms: &[T], _n: usize, _q: i128, _shift: &[i128])
    requires factor { pos 0 ≤ℤ _q }
    requires placed { ArePlaced _n (meanings T.places T.value_of _terms.now) }
    ensures { (blocks : List Block) → AreBlocks (meanings T.places T.value_of _terms.now) _n _q
        _shift.now blocks
        → Generate (meanings T.places T.value_of _terms.now) _n _q _shift.now blocks }
{}

/// At a base, what a place depends on is what all tight parts with the place have in common: the least tight part
/// (Fujishige, Submodular Functions and Optimization, section 2).
pub fn least_tight_parts<T: Term>(_term: &T, _q: i128, _x: &[i128])
    requires factor { pos 0 ≤ℤ _q }
    requires entries { length _x.now ≡ length (T.places _term.now) }
    requires base { IsBase (times _q (T.value_of _term.now)) _x.now }
    ensures { LeastTight (times _q (T.value_of _term.now)) _x.now }
{}

/// After an exchange that raises s and lowers t, which places depend on which, told by which did before (Fujishige,
/// Submodular Functions and Optimization, section 4).
pub fn rows_after_exchange<T: Term>(
    _term: &T,
    _q: i128,
    _x: &[i128],
    _s: usize,
    _t: usize,
    _a: i128,
)
    requires factor { pos 0 ≤ℤ _q }
    requires entries { length _x.now ≡ length (T.places _term.now) }
    requires base { IsBase (times _q (T.value_of _term.now)) _x.now }
    requires apart { _s ≢ _t }
    requires from { _s < length _x.now }
    requires onto { _t < length _x.now }
    requires amount { pos 1 ≤ℤ _a }
    requires after { IsBase (times _q (T.value_of _term.now)) (exchanged _x.now _s _t _a) }
    ensures { RowLaws (times _q (T.value_of _term.now)) _x.now _s _t _a }
{}

/// At any bases each place has a distance to the places with z > 0 and a least step. A move along a walk of least steps by
/// the greatest amount lets no place's pair of both fall, and makes z zero at an end of the walk or raises the pair of a
/// place on it. So such moves, one after the other, are few: never more than n + n (n + 1)(n m + 1), of n places and m terms.
pub fn few_walks<T: Term>(_terms: &[T], _n: usize, _q: i128, _shift: &[i128], _rows: &Rows)
    requires factor { pos 0 ≤ℤ _q }
    requires placed { ArePlaced _n (meanings T.places T.value_of _terms.now) }
    requires bases { AreBases _q (meanings T.places T.value_of _terms.now) _rows.now }
    ensures { FewWalksLaws (meanings T.places T.value_of _terms.now) _n _q _shift.now _rows.now }
{}
