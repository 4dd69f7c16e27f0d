// Concave functions and ranks of uniform matroids, with answers worked by hand, and the refusals of numbers that rise.
use crate::facts::{ONE_OF_TWO, has_facts};
use sfm_concave::{Concave, ConcaveEnd, Uniform};
use sfm_kind::Kind;
use std::alloc::Global;

/// Terms of these kinds, and what each answers.
pub(crate) const TERMS: [(&str, &str); 4] = [
    (
        "concave 4 7 8 : a b c",
        "size 8
        values 0 4 4 7 4 7 7 8
        start 4 3 1
        not 4 4 0
        base 4 3 1
        room 2 1 2
        room 1 0 1
        room 0 1 0
        room 2 0 3
        reach 0 0
        reach 1 1
        reach 2 3",
    ),
    (
        "concave 3 4 : a b",
        "places 0 1
        size 4
        values 0 3 3 4
        factor 2
        start 6 2
        not 7 1
        base 6 2
        room 1 0 4
        reach 1 1",
    ),
    (
        "rank 2 uniform 1 : a b",
        "size 2
        values 0 2 2 2
        start 2 0
        not 1 2
        base 1 1
        room 0 1 1
        room 1 0 1
        reach 0 2
        reach 1 1
        base 0 2
        room 0 1 2
        room 1 0 0
        reach 0 2
        reach 1 0",
    ),
    ("rank 3 uniform 1 : a b", ONE_OF_TWO),
];

const CAPPED: &str = "values 0 1000000000000000000 1000000000000000000 2000000000000000000";

/// Whether a cap far above the count of elements is none.
fn is_uncapped(alloc: Global) -> bool {
    let most = 1_000_000_000_000_000_000;
    match Uniform::new(alloc, &[0, 1], most, most) {
        Ok(term) => has_facts(alloc, &Kind::Uniform(term), CAPPED),
        Err(_) => false,
    }
}

#[test]
fn caps_far_above_the_count(rt: HostRuntime) {
    assert!(rt; is_uncapped(rt.alloc()));
}

/// Whether numbers that rise at once are refused.
fn refuses_two(alloc: Global) -> bool {
    Concave::new(alloc, &[0, 1], &[1, 3]).err() == Some(ConcaveEnd::Rises { at: 2 })
}

/// Whether numbers that rise behind those that fall are refused.
fn refuses_four(alloc: Global) -> bool {
    Concave::new(alloc, &[0, 1, 2, 3], &[-2, -4, -5, -4]).err() == Some(ConcaveEnd::Rises { at: 3 })
}

#[test]
fn concaves_refused(rt: HostRuntime) {
    assert!(rt; refuses_two(rt.alloc()) && refuses_four(rt.alloc()));
}
