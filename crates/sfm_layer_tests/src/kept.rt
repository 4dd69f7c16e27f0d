// Ranks over some of their elements alone, of each kind, worked by hand. Each whole rank counts 5 for an independent element, and
// what is kept of it 7. Parts are told by their numbers, place j counting 2^j.
ghost use Rattle.std.specs.Prelude.{◌≡◌, ◌^◌, ◌≤ℤ◌, ℕ, length, pos, IsTrue};
ghost use Rattle.sfm_spec.specs.{Bounds.{IsGiven}, Sets.{Has}};
ghost use Rattle.sfm_kind.specs.Meanings.{kind_places};

use sfm_base::{Memory, Set};
use sfm_concave::Uniform;
use sfm_graphic::Graphic;
use sfm_kind::Kind;
use sfm_laminar::{Groups, Laminar};
use sfm_law::Term;
use sfm_matroid::{Entries, Transversal};
use sfm_trial::{has_values, part};
use std::alloc::Global;

/// What is kept of a rank, by the number of that part, and what is left: its elements, how many groups it has, where the rank has
/// some, and the values of all parts of it, by their numbers.
type Kept = (usize, &'static [usize], usize, &'static [i128]);

/// Four elements, of which two are independent together.
const UNIFORM: [Kept; 3] = [
    (13, &[3, 2, 1], 0, &[0, 7, 7, 14, 7, 14, 14, 14]),
    (2, &[0], 0, &[0, 7]),
    (
        15,
        &[3, 0, 2, 1],
        0,
        &[0, 7, 7, 14, 7, 14, 14, 14, 7, 14, 14, 14, 14, 14, 14, 14],
    ),
];

/// Four elements: of the first three two are independent together, of the first two one, and the last is not independent.
const LAMINAR: [Kept; 4] = [
    (11, &[5, 0, 7], 3, &[0, 7, 7, 7, 0, 7, 7, 7]),
    (6, &[0, 2], 2, &[0, 7, 7, 14]),
    (12, &[2, 7], 2, &[0, 7, 0, 7]),
    (8, &[7], 1, &[0, 0]),
];

/// The edges of a triangle, and a loop.
const GRAPHIC: [Kept; 3] = [
    (7, &[2, 0, 1], 0, &[0, 7, 7, 14, 7, 14, 14, 14]),
    (13, &[2, 1, 4], 0, &[0, 7, 7, 14, 0, 7, 7, 14]),
    (8, &[4], 0, &[0, 0]),
];

/// Four elements: the first may have either of two slots, the second and the third one of them each, and the last none.
const TRANSVERSAL: [Kept; 3] = [
    (7, &[4, 0, 2], 0, &[0, 7, 7, 14, 7, 14, 14, 14]),
    (10, &[0, 9], 0, &[0, 7, 0, 7]),
    (8, &[9], 0, &[0, 0]),
];

/// What is kept of each rank.
const RANKS: [&[Kept]; 4] = [&UNIFORM, &LAMINAR, &GRAPHIC, &TRANSVERSAL];

/// The ends of the edges of a triangle and of a loop.
const EDGES: [(u32, u32); 4] = [(7, 8), (8, 9), (7, 9), (3, 3)];

/// A laminar rank.
fn laminar(alloc: Global) -> Result<Option<Laminar>, Memory> {
    let mut groups = Groups::new(alloc);
    groups.push(2, vec![in alloc; 0, 1, 2]?)?;
    groups.push(1, vec![in alloc; 0, 1]?)?;
    groups.push(0, vec![in alloc; 3]?)?;
    Ok(Laminar::new(alloc, &[5, 0, 2, 7], 5, groups).ok())
}

/// A transversal rank.
fn transversal(alloc: Global) -> Result<Transversal, Memory> {
    let mut entries = Entries::new(alloc);
    entries.push(vec![in alloc; 3, 900]?)?;
    entries.push(vec![in alloc; 3]?)?;
    entries.push(vec![in alloc; 900]?)?;
    entries.push(Vec::new(alloc))?;
    Transversal::new(alloc, &[4, 0, 2, 9], 5, entries)
}

/// The rank with that number, if memory is there.
fn rank_of(alloc: Global, number: usize) -> Option<Kind> {
    match number {
        0 => Some(Kind::Uniform(Uniform::new(alloc, &[3, 0, 2, 1], 5, 2).ok()?)),
        1 => Some(Kind::Laminar(laminar(alloc).ok()??)),
        2 => Some(Kind::Graphic(Graphic::new(alloc, &[2, 0, 1, 4], 5, &EDGES).ok()?)),
        _ => Some(Kind::Transversal(transversal(alloc).ok()?)),
    }
}

/// How many groups a rank has.
fn groups_of(rank: &Kind) -> usize {
    match rank {
        Kind::Laminar(term) => term.groups.len(),
        _ => 0,
    }
}

/// Whether a set has a place.
fn has_one(set: &Set) -> bool
    ensures { IsTrue result → (e : ℕ) × Has set.now e }
{
    match set.first() {
        Some(_) => true,
        None => false,
    }
}

/// A rank over the kept elements alone, which each count 7.
fn restricted(alloc: Global, rank: &Kind, keep: &Set) -> Result<Kind, Memory>
    requires each { length keep.now ≡ length (kind_places rank.now) }
    requires some { (e : ℕ) × Has keep.now e }
{
    match rank {
        Kind::Uniform(term) => Ok(Kind::Uniform(term.restricted(alloc, keep, 7)?)),
        Kind::Laminar(term) => Ok(Kind::Laminar(term.restricted(alloc, keep, 7)?)),
        Kind::Graphic(term) => Ok(Kind::Graphic(term.restricted(alloc, keep, 7)?)),
        Kind::Transversal(term) => Ok(Kind::Transversal(term.restricted(alloc, keep, 7)?)),
        _ => Err(Memory),
    }
}

/// What is kept of a rank; nothing where that is no element, or memory lacks.
fn kept_of(alloc: Global, rank: &Kind, number: usize) -> Option<Kind> {
    let Ok(keep) = part(alloc, rank.elements().len(), number) else {
        return None;
    };
    if has_one(&keep) {
        restricted(alloc, rank, &keep).ok()
    } else {
        None
    }
}

/// Whether what is left of a rank is as a row tells.
fn is_left(alloc: Global, left: &Kind, row: &Kept) -> bool {
    let (_, elements, groups, values) = *row;
    left.elements() == elements && groups_of(left) == groups && has_values(alloc, left, values)
}

/// Whether a row holds of the rank with that number.
fn is_kept(alloc: Global, number: usize, row: &Kept) -> bool {
    let Some(rank) = rank_of(alloc, number) else {
        return false;
    };
    match kept_of(alloc, &rank, row.0) {
        Some(left) => is_left(alloc, &left, row),
        None => false,
    }
}

#[test]
fn ranks_kept(rt: HostRuntime) {
    for number in 0..RANKS.len() {
        for row in RANKS[number] {
            assert!(rt;
                is_kept(rt.alloc(), number, row),
                "rank {number}, part {}",
                row.0
            );
        }
    }
}
