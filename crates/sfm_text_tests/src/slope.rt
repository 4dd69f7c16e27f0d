// Partitions that were worked out by hand.
use sfm_base::Memory;
use sfm_law::Break;
use sfm_simple::{Cover, Weight};
use sfm_slope::{partition, partition_by};
use std::alloc::Global;

/// What a breakpoint tells: the numerator and the denominator of its slope, the size of its set, how many bases it has, and one
/// of these, behind its number.
type Told = (i128, i128, usize, usize, (usize, &'static [i128]));

/// Whether a breakpoint has that slope, and a set of that size.
fn has_slope(found: &Break, told: &Told) -> bool {
    let (num, den, size, ..) = *told;
    found.slope.num == num && found.slope.den == den && found.set.size() == size
}

/// Whether a breakpoint has so many bases, and that one among them.
fn has_base(found: &Break, told: &Told) -> bool {
    let (.., bases, (number, base)) = *told;
    found.bases.len() == bases && number < bases && found.bases.row(number) == base
}

/// Whether breakpoints tell this, in order.
fn are_told(breaks: &[Break], told: &[Told]) -> bool {
    for (found, row) in breaks.iter().zip(told) {
        if !has_slope(found, row) || !has_base(found, row) {
            return false;
        }
    }
    breaks.len() == told.len()
}

/// The breakpoints over no places.
fn breaks_of_nothing(alloc: Global) -> Result<Vec<Break>, Memory> {
    let terms: [Weight; 0] = [];
    partition(alloc, &terms, 0)
}

/// Each element is a breakpoint of its own; the first turn looks at 1, the second at -1/2.
const BREAKS_OF_A_WEIGHT: [Told; 3] = [
    (-3, 1, 1, 1, (0, &[-3, 4, 2])),
    (2, 1, 2, 1, (0, &[-3, 4, 2])),
    (4, 1, 3, 1, (0, &[-3, 4, 2])),
];

/// The breakpoints of the weights.
fn breaks_of_a_weight(alloc: Global) -> Result<Vec<Break>, Memory> {
    let terms = [Weight::new(alloc, &[0, 1, 2], &[-3, 4, 2])?];
    partition(alloc, &terms, 3)
}

/// 3 for the first two and 5 for the last three: all together at 8/5, between the slopes of the two.
const BREAKS_OF_COVERS: [Told; 2] = [(3, 2, 2, 2, (0, &[3, 3])), (5, 3, 5, 2, (1, &[5, 5, 5]))];

/// The breakpoints of the covers.
fn breaks_of_covers(alloc: Global) -> Result<Vec<Break>, Memory> {
    let terms = [
        Cover::new(alloc, 3, &[0, 1])?,
        Cover::new(alloc, 5, &[2, 3, 4])?,
    ];
    partition(alloc, &terms, 5)
}

/// Where b counts two, the turn between c and all looks at 2/3, and b and then a are the blocks.
const BREAKS_OF_A_SIZED_WEIGHT: [Told; 3] = [
    (-2, 1, 1, 1, (0, &[1, 1, -2])),
    (1, 2, 2, 1, (0, &[2, 2, -4])),
    (1, 1, 3, 1, (0, &[1, 1, -2])),
];

/// The breakpoints of weights, where the second element counts two.
fn breaks_of_a_sized_weight(alloc: Global) -> Result<Vec<Break>, Memory> {
    let terms = [Weight::new(alloc, &[0, 1, 2], &[1, 1, -2])?];
    partition_by(alloc, &terms, 3, &[1, 2, 1])
}

/// All sizes together are as large as may be.
const BREAKS_OF_A_LARGE_ELEMENT: [Told; 2] = [
    (-1, 1, 1, 1, (0, &[1, -1])),
    (1, 999_999, 2, 1, (0, &[999_999, -999_999])),
];

/// The breakpoints of weights, where the first element counts 999,999.
fn breaks_of_a_large_element(alloc: Global) -> Result<Vec<Break>, Memory> {
    let terms = [Weight::new(alloc, &[0, 1], &[1, -1])?];
    partition_by(alloc, &terms, 2, &[999_999, 1])
}

/// Whether there are breakpoints that tell this; no where memory lacks.
fn is_parted(parted: Result<Vec<Break>, Memory>, told: &[Told]) -> bool {
    match parted {
        Ok(breaks) => are_told(&breaks, told),
        Err(_) => false,
    }
}

/// Whether the breakpoints are those that were worked out.
fn are_parted(alloc: Global) -> bool {
    is_parted(breaks_of_nothing(alloc), &[])
        && is_parted(breaks_of_a_weight(alloc), &BREAKS_OF_A_WEIGHT)
        && is_parted(breaks_of_covers(alloc), &BREAKS_OF_COVERS)
        && is_parted(breaks_of_a_sized_weight(alloc), &BREAKS_OF_A_SIZED_WEIGHT)
        && is_parted(breaks_of_a_large_element(alloc), &BREAKS_OF_A_LARGE_ELEMENT)
}

#[test]
fn slopes_are_those_worked_out(rt: HostRuntime) {
    assert!(rt; are_parted(rt.alloc()));
}
