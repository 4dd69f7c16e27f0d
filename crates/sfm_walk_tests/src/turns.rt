// Turns over terms, worked by hand: at the bases that the turn before has left, a shortest walk from a place to some others, or
// none; and the bases to which the move along it by an amount leads. A step raises its beginning and lowers its end. In a base
// of a cut the first entry can be raised up to q times its number, and the second up to 0; in one of a cover an entry can be
// lowered to 0; in one of a need the first entry can be raised without end, and the second up to 0.
ghost use Rattle.std.specs.{Prelude.{◌≡◌, ◌<◌, ◌^◌, ℕ, Bool, List, map, pos, ◌≤ℤ◌, length, IfSome, IsTrue}, List.{All}};
ghost use Rattle.sfm_spec.specs.{Sets.{Has}, Bounds.{AreBounded, IsEntry, IsFactor}, Families.{meanings, AreBases}, Walks.{IsShortestTo}};

use crate::amounts::can_move;
use crate::rows::are_small;
use sfm_base::{Rows, Set};
use sfm_law::{Term, Walk, start_rows};
use sfm_simple::{Cover, Cut, Need};
use sfm_trial::are_rows;
use sfm_walk::{follow, shortest};
use std::alloc::Global;
use std::process::Abort;

/// A turn: the place to begin at, those to come to, the steps of the walk, each the place at which it ends and its term, the
/// amount, and the bases afterwards. No steps: no walk leads there, and nothing is moved.
type Turn = (
    usize,
    &'static [usize],
    &'static [(usize, usize)],
    i128,
    &'static [&'static [i128]],
);

/// The set of some of n places.
fn set_of(alloc: Global, n: usize, places: &[usize]) -> Option<Set>
    ensures { IfSome result (λ set. length set ≡ n) }
{
    let Ok(mut set) = Set::empty(alloc, n) else {
        return None;
    };
    for place in places {
        if *place >= n {
            return None;
        }
        set.insert(*place);
    }
    Some(set)
}

/// Moves along the walk, and tells whether it is that of the turn and leads to the bases of the turn.
fn moves<T: Term>(
    alloc: Global,
    terms: &[T],
    q: i128,
    bases: &mut Rows,
    walk: &Walk,
    turn: &Turn,
) -> bool
    requires bounded { (n : ℕ) × AreBounded n (map T.places terms.now) (map T.size_of terms.now) }
    requires factor { IsFactor q }
    requires bases { AreBases q (meanings T.places T.value_of terms.now) bases.old }
    requires small { All (λ x. All IsEntry x) bases.old }
    requires walk { (to : List Bool) × (Has to walk.now.first → ⊥)
        × IsShortestTo (meanings T.places T.value_of terms.now) q bases.old (Has to)
        walk.now.first walk.now.steps }
    ensures bases { IsTrue result → AreBases q (meanings T.places T.value_of terms.now) bases.new }
    ensures small { IsTrue result → All (λ x. All IsEntry x) bases.new }
{
    let (_, _, steps, a, after) = *turn;
    if a < 1 || a > 1_000_000_000_000_000_000 || walk.steps.as_slice() != steps {
        return false;
    }
    if !can_move(alloc, terms, q, bases, walk, a) {
        return false;
    }
    follow(terms, q, bases, walk, a);
    are_rows(bases, after) && are_small(bases)
}

/// Takes a turn, and tells whether all is as worked out.
fn takes<T: Term>(
    alloc: Global,
    terms: &[T],
    n: usize,
    q: i128,
    bases: &mut Rows,
    turn: &Turn,
) -> bool
    requires bounded { AreBounded n (map T.places terms.now) (map T.size_of terms.now) }
    requires factor { IsFactor q }
    requires bases { AreBases q (meanings T.places T.value_of terms.now) bases.old }
    requires small { All (λ x. All IsEntry x) bases.old }
    ensures bases { IsTrue result → AreBases q (meanings T.places T.value_of terms.now) bases.new }
    ensures small { IsTrue result → All (λ x. All IsEntry x) bases.new }
{
    let (from, ends, steps, ..) = *turn;
    let Some(to) = set_of(alloc, n, ends) else {
        return false;
    };
    if from >= n || to.contains(from) {
        return false;
    }
    match shortest(alloc, terms, q, bases, from, &to) {
        Ok(Some(walk)) => moves(alloc, terms, q, bases, &walk, turn),
        Ok(None) => steps.is_empty(),
        Err(_) => false,
    }
}

/// Whether turns, one after the other from the first bases on, are all as worked out.
fn are_taken<T: Term>(alloc: Global, terms: &[T], n: usize, q: i128, turns: &[Turn]) -> bool
    requires bounded { AreBounded n (map T.places terms.now) (map T.size_of terms.now) }
    requires factor { IsFactor q }
{
    let Ok(mut bases) = start_rows(alloc, terms, q) else {
        return false;
    };
    for turn in turns {
        if !takes(alloc, terms, n, q, &mut bases, turn) {
            return false;
        }
    }
    true
}

/// Over the cuts 5 from 0 to 1, 3 from 1 to 2, 4 from 2 to 3 and 7 from 0 to 2, whose first bases are full: steps lead back.
const ON_CUTS: [Turn; 9] = [
    (0, &[1, 2, 3], &[], 0, &[]),
    (3, &[], &[], 0, &[]),
    (
        3,
        &[0],
        &[(2, 2), (0, 3)],
        3,
        &[&[5, -5], &[3, -3], &[1, -1], &[4, -4]],
    ),
    (
        2,
        &[3],
        &[(3, 2)],
        1,
        &[&[5, -5], &[3, -3], &[2, -2], &[4, -4]],
    ),
    (
        0,
        &[1],
        &[(2, 3), (1, 1)],
        3,
        &[&[5, -5], &[0, 0], &[2, -2], &[7, -7]],
    ),
    (
        1,
        &[3],
        &[(2, 1), (3, 2)],
        2,
        &[&[5, -5], &[2, -2], &[4, -4], &[7, -7]],
    ),
    (
        3,
        &[0],
        &[(2, 2), (0, 3)],
        4,
        &[&[5, -5], &[2, -2], &[0, 0], &[3, -3]],
    ),
    (3, &[0, 1, 2], &[], 0, &[]),
    (
        1,
        &[0, 3],
        &[(0, 0)],
        5,
        &[&[0, 0], &[2, -2], &[0, 0], &[3, -3]],
    ),
];

/// Whether the turns over the cuts are all as worked out.
fn are_cuts_right(alloc: Global) -> bool {
    let terms = [
        Cut::new(5, 0, 1),
        Cut::new(3, 1, 2),
        Cut::new(4, 2, 3),
        Cut::new(7, 0, 2),
    ];
    are_taken(alloc, &terms, 4, 1, &ON_CUTS)
}

/// Over twice the covers 3 of 0 and 1 and 2 of 1 and 2, whose first bases have all at their first places.
const ON_COVERS: [Turn; 3] = [
    (2, &[0], &[(1, 1), (0, 0)], 4, &[&[2, 4], &[0, 4]]),
    (2, &[0], &[], 0, &[]),
    (0, &[2], &[(1, 0), (2, 1)], 1, &[&[3, 3], &[1, 3]]),
];

/// Whether the turns over the covers are all as worked out; no where memory lacks.
fn are_covers_right(alloc: Global) -> bool {
    let Ok(first) = Cover::new(alloc, 3, &[0, 1]) else {
        return false;
    };
    let Ok(second) = Cover::new(alloc, 2, &[1, 2]) else {
        return false;
    };
    are_taken(alloc, &[first, second], 3, 2, &ON_COVERS)
}

/// Over the needs of 0 for 1 and of 1 for 2, whose first bases are 0.
const ON_NEEDS: [Turn; 4] = [
    (2, &[0, 1], &[], 0, &[]),
    (
        0,
        &[2],
        &[(1, 0), (2, 1)],
        1_000_000_000_000_000_000,
        &[
            &[1_000_000_000_000_000_000, -1_000_000_000_000_000_000],
            &[1_000_000_000_000_000_000, -1_000_000_000_000_000_000],
        ],
    ),
    (
        2,
        &[1],
        &[(1, 1)],
        1_000_000_000_000_000_000,
        &[
            &[1_000_000_000_000_000_000, -1_000_000_000_000_000_000],
            &[0, 0],
        ],
    ),
    (2, &[0], &[], 0, &[]),
];

/// Whether the turns over the needs are all as worked out.
fn are_needs_right(alloc: Global) -> bool {
    let terms = [Need::new(0, 1), Need::new(1, 2)];
    are_taken(alloc, &terms, 3, 1, &ON_NEEDS)
}

#[test]
fn shortest_walks_are_found_and_followed(rt: HostRuntime) {
    assert!(rt; are_cuts_right(rt.alloc()));
    assert!(rt; are_covers_right(rt.alloc()));
    assert!(rt; are_needs_right(rt.alloc()));
}
