// Ranks of graphic matroids, worked by hand: loops, edges side by side, a path, a triangle, a square whose edges come in an order
// that joins two labels, and 32 edges, so many that a note is made of another; and terms whose vertices have numbers with gaps
// between them.
use crate::facts::{ONE_OF_TWO, has_facts};
use sfm_graphic::Graphic;
use sfm_kind::Kind;
use std::alloc::Global;

/// Terms of these kinds, and what each answers.
pub(crate) const TERMS: [(&str, &str); 5] = [
    (
        "rank 5 graphic : e=u-v a=v-w c=w-u",
        "places 4 0 2
        size 10
        ranks 0 1 1 2 1 2 2 2
        values 0 5 5 10 5 10 10 10
        factor 2
        start 10 10 0",
    ),
    (
        "rank 5 graphic : a=t-u b=v-w c=u-v d=w-t",
        "places 0 1 2 3
        size 15
        ranks 0 1 1 2 1 2 2 3 1 2 2 3 2 3 3 3
        values 0 5 5 10 5 10 10 15 5 10 10 15 10 15 15 15
        factor 2
        start 10 10 10 0",
    ),
    (
        "rank 2 graphic : e=u-v a=v-w c=w-u",
        "size 4
        factor 2
        start 4 4 0
        not 3 1 3
        not 5 1 2
        base 3 1 4
        room 0 1 1
        room 1 0 3
        room 1 2 3
        room 2 0 0
        reach 0 6
        reach 1 5
        reach 2 0",
    ),
    ("rank 3 graphic : a=u-v b=v-u", ONE_OF_TWO),
    (
        "rank 2 graphic : a=u-v b=v-w c=w-u d=u-v e=u-v f=u-v g=u-v h=u-v i=u-v j=u-v k=u-v l=u-v m=u-v \
        n=u-v o=u-v p=u-v q=u-v r=u-v s=u-v t=u-v u=u-v v=u-v w=u-v x=u-v y=u-v z=u-v A=u-v B=u-v C=u-v D=u-v E=u-v F=u-v",
        "factor 2
        base 3 1 4 0 0 0 0 0 0 0 0 0 0 0 0 0 0 0 0 0 0 0 0 0 0 0 0 0 0 0 0 0
        times 1 0",
    ),
];

/// What a term is worth for each of the rank, its edges by their ends, and what it answers: a loop, and two edges side by side; the
/// edges of a path, one of them at the greatest number of a vertex; and a loop and three edges, of which two stand side by side.
const EDGES: [(i128, &[(u32, u32)], &str); 3] = [
    (
        5,
        &[(7, 7), (3, 9), (9, 3)],
        "size 5
        ranks 0 0 1 1 1 1 1 1
        values 0 0 5 5 5 5 5 5
        factor 2
        start 0 10 0",
    ),
    (
        5,
        &[(16_777_215, 0), (0, 5), (6, 5)],
        "size 15
        ranks 0 1 1 2 1 2 2 3
        values 0 5 5 10 5 10 10 15
        factor 2
        start 10 10 10",
    ),
    (
        2,
        &[(7, 7), (3, 9), (9, 3), (9, 5)],
        "size 4
        start 0 2 0 2
        not 0 2 1 1
        not 1 1 0 2
        base 0 1 1 2
        room 1 2 1
        room 1 3 0
        room 0 1 0
        room 3 1 0
        reach 0 0
        reach 1 4
        reach 2 2
        reach 3 0",
    ),
];

/// The term of three or four edges of the first elements; nothing where there are others, or memory lacks.
fn graph_of(alloc: Global, w: i128, ends: &[(u32, u32)]) -> Option<Graphic> {
    if w < 0 || w > 5 {
        return None;
    }
    match ends.len() {
        3 => Graphic::new(alloc, &[0, 1, 2], w, ends).ok(),
        4 => Graphic::new(alloc, &[0, 1, 2, 3], w, ends).ok(),
        _ => None,
    }
}

/// Whether a term of such edges answers what the lines tell.
fn has_edges(alloc: Global, w: i128, ends: &[(u32, u32)], lines: &str) -> bool {
    match graph_of(alloc, w, ends) {
        Some(term) => has_facts(alloc, &Kind::Graphic(term), lines),
        None => false,
    }
}

#[test]
fn edges_by_their_ends(rt: HostRuntime) {
    for (w, ends, lines) in &EDGES {
        assert!(rt; has_edges(rt.alloc(), *w, ends, lines));
    }
}
