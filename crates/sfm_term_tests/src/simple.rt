// Each kind of weights, cuts, conditions, covers and tables, with answers worked by hand, and the refusals of tables.
use crate::facts::ONE_OF_TWO;
use sfm_simple::{Table, TableEnd};
use std::alloc::Global;

/// Terms of these kinds, and what each answers.
pub(crate) const TERMS: [(&str, &str); 7] = [
    (
        "weight a:-3 b:2",
        "places 0 1
        size 5
        values 0 -3 2 -1
        factor 2
        start -6 4
        not -5 3
        base -6 4
        room 0 1 0
        room 1 0 0
        reach 0 0
        reach 1 0",
    ),
    (
        "cut 4 a b",
        "places 0 1
        size 4
        values 0 4 0 0
        factor 2
        start 8 -8
        not 9 -9
        base 5 -5
        room 0 1 3
        room 1 0 5
        reach 0 2
        reach 1 1
        base 8 -8
        room 1 0 8
        reach 1 1",
    ),
    (
        "need a b",
        "places 0 1
        size 0
        values 0 no 0 0
        start 0 0
        not -1 1
        base 0 0
        room 0 1 no
        room 1 0 0
        reach 0 2
        reach 1 0
        base 2000000000000 -2000000000000
        room 1 0 2000000000000
        reach 0 2
        reach 1 1
        factor 2
        start 0 0
        not -1 1
        base 0 0
        room 1 0 0
        reach 1 0",
    ),
    (
        "cover 3 a b c",
        "size 3
        values 0 3 3 3 3 3 3 3
        factor 3
        start 9 0 0
        not 9 1 -1
        base 4 4 1
        room 0 1 4
        room 0 2 1
        room 2 0 4
        reach 0 6
        reach 1 5
        reach 2 3",
    ),
    ("cover 3 a b", ONE_OF_TWO),
    (
        "table 0 3 2 4 1 3 3 4 : a b c",
        "size 4
        values 0 3 2 4 1 3 3 4
        factor 2
        start 6 2 0
        not 6 3 -1
        base 6 2 0
        room 0 1 0
        room 1 0 2
        room 2 0 2
        room 2 1 0
        reach 0 0
        reach 1 1
        reach 2 1",
    ),
    (
        "table 0 3 2 4 : a b",
        "places 0 1
        size 4
        values 0 3 2 4
        factor 2
        start 6 2
        not 7 1
        base 6 2
        room 1 0 2
        reach 1 1",
    ),
];

/// Whether a table over two elements is refused that breaks the law.
fn refuses_two(alloc: Global) -> bool {
    Table::new(alloc, &[0, 1], &[0, 1, 1, 3]).err()
        == Some(TableEnd::LawBroken { set: 0, a: 0, b: 1 })
}

/// Whether a table is refused whose empty part has a value.
fn refuses_empty(alloc: Global) -> bool {
    Table::new(alloc, &[0, 1], &[1, 1, 1, 1]).err() == Some(TableEnd::NotZero)
}

/// Whether a table over three elements is refused that breaks the law at the last.
fn refuses_three(alloc: Global) -> bool {
    Table::new(alloc, &[0, 1, 2], &[0, 1, 1, 2, 1, 2, 2, 4]).err()
        == Some(TableEnd::LawBroken { set: 1, a: 1, b: 2 })
}

#[test]
fn tables_refused(rt: HostRuntime) {
    assert!(rt; refuses_two(rt.alloc()) && refuses_empty(rt.alloc()) && refuses_three(rt.alloc()));
}
