// Ranks of laminar matroids, with answers worked by hand, and the refusal of groups that cross.
use sfm_base::Memory;
use sfm_laminar::{Groups, Laminar, LaminarEnd};
use std::alloc::Global;

/// Terms of these kinds, and what each answers.
pub(crate) const TERMS: [(&str, &str); 2] = [
    (
        "rank 3 laminar : a b c ; 2 a b c ; 1 a b",
        "places 0 1 2
        size 6
        values 0 3 3 3 3 6 6 6
        ranks 0 1 1 1 1 2 2 2
        start 3 0 3
        not 3 3 0
        base 2 1 3
        room 0 1 1
        room 0 2 0
        room 1 0 2
        room 2 0 0
        reach 0 2
        reach 1 1
        reach 2 0
        base 0 3 3
        room 0 1 3
        reach 0 2",
    ),
    (
        "rank 3 laminar : a b",
        "places 0 1
        size 6
        values 0 3 3 6
        factor 2
        start 6 6
        not 7 5
        base 6 6
        room 1 0 0
        reach 1 0",
    ),
];

/// The ends of groups of 0 and 1, and of 1 and 2, beside a third place.
fn crossing(alloc: Global) -> Result<Option<LaminarEnd>, Memory> {
    let mut groups = Groups::new(alloc);
    groups.push(1, vec![in alloc; 0, 1]?)?;
    groups.push(1, vec![in alloc; 1, 2]?)?;
    Ok(Laminar::new(alloc, &[0, 1, 2], 1, groups).err())
}

#[test]
fn crossings(rt: HostRuntime) {
    let crosses = LaminarEnd::Crosses {
        first: 0,
        second: 1,
    };
    assert!(rt; crossing(rt.alloc()) == Ok(Some(crosses)));
}
