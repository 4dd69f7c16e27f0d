// The engine on small instances, against every set, and how many walks it takes. Every set is tried here, and nowhere else;
// a set is a number whose bit e says whether it has the place e.
ghost use Rattle.std.specs.{Prelude.{pos, length, map, ◌^◌, ◌≤ℤ◌, IfOk, IfSome, IsTrue}, List.{All}};
ghost use Rattle.sfm_spec.specs.{Bounds.{IsEntry}, Families.{meanings, AreBases}};
ghost use Rattle.sfm_kind.specs.Kinds.{kind_places, kind_size, kind_value};
ghost use Rattle.sfm_cert.specs.Form.{AreFormedRows};

use sfm_base::{Memory, Rows, Set, Steps};
use sfm_extreme::{Block, Certified, blocks, certify};
use sfm_kind::{Instance, Kind};
use sfm_law::{Term, start_rows};
use sfm_readback::read_answer;
use sfm_text::read_instance;
use sfm_walk::{minimise, minimise_counted};
use std::alloc::Global;

const CUT: &[u8] = b"sfm 1\nground a b\nweight a:-3 b:2\ncut 4 a b\nend\n";

/// An instance as a text, and its terms over sets that are numbers.
#[derive(Clone, Copy)]
struct Small<'a> {
    text: &'a [u8],
    /// One more than the whole ground.
    sets: u32,
    weights: &'a [(u32, i64)],
    /// A cost where the set has the first and not the second.
    cuts: &'a [(u32, u32, i64)],
    /// The first may come only with the second.
    needs: &'a [(u32, u32)],
}

/// Whether a set has the first place and not the second.
fn parts(set: u32, first: u32, second: u32) -> bool {
    set & first != 0 && set & second == 0
}

fn is_allowed(small: &Small, set: u32) -> bool {
    for (first, second) in small.needs {
        if parts(set, *first, *second) {
            return false;
        }
    }
    true
}

fn weight_of(small: &Small, set: u32) -> i64 {
    let mut sum = 0i64;
    for (place, weight) in small.weights {
        if set & *place != 0 {
            sum = sum.wrapping_add(*weight);
        }
    }
    sum
}

fn value_of(small: &Small, set: u32) -> i64 {
    let mut sum = weight_of(small, set);
    for (first, second, cost) in small.cuts {
        if parts(set, *first, *second) {
            sum = sum.wrapping_add(*cost);
        }
    }
    sum
}

/// The least value of all allowed sets. The empty one is worth 0.
fn least_value(small: &Small) -> i64 {
    let mut least = 0i64;
    for set in 0..small.sets {
        if is_allowed(small, set) {
            least = least.min(value_of(small, set));
        }
    }
    least
}

fn number_of(set: &Set) -> u32 {
    let mut number = 0u32;
    let mut bit = 1u32;
    for e in 0..set.len() {
        if set.contains(e) {
            number |= bit;
        }
        bit = bit.wrapping_mul(2);
    }
    number
}

/// The places of the blocks that a block needs.
fn needed_by(blocks: &[Block], block: &Block) -> u32 {
    let mut number = 0u32;
    for j in &block.needs {
        if let Some(other) = blocks.get(j.wrapping_sub(1)) {
            number |= number_of(&other.members);
        }
    }
    number
}

/// Whether a set has or lacks a block as a whole, and has it only with what it needs.
fn agrees(blocks: &[Block], block: &Block, set: u32) -> bool {
    let members = number_of(&block.members);
    let shared = set & members;
    shared == 0 || shared == members && needed_by(blocks, block) & !set == 0
}

fn all_members(blocks: &[Block]) -> u32 {
    let mut number = 0u32;
    for block in blocks {
        number |= number_of(&block.members);
    }
    number
}

/// Whether a set has or lacks each block so.
fn is_closed(blocks: &[Block], set: u32) -> bool {
    for block in blocks {
        if !agrees(blocks, block, set) {
            return false;
        }
    }
    true
}

/// Whether a set is the union of the least and of a closed choice of blocks.
fn is_closed_union(least: u32, blocks: &[Block], set: u32) -> bool {
    least & !set == 0 && set & !(least | all_members(blocks)) == 0 && is_closed(blocks, set)
}

/// Whether the minimisers of all sets are the closed unions.
fn are_minimisers(small: &Small, least: u32, blocks: &[Block]) -> bool {
    let value = least_value(small);
    for set in 0..small.sets {
        let attains = is_allowed(small, set) && value_of(small, set) == value;
        if attains != is_closed_union(least, blocks, set) {
            return false;
        }
    }
    true
}

/// Whether the least minimiser and the blocks that are told of an instance make all minimisers.
fn tells_minimisers(alloc: Global, instance: &Instance, small: &Small) -> bool {
    let terms = instance.terms();
    let n = instance.names_len();
    let Ok(optimum) = minimise(alloc, terms, n, 0, 1) else {
        return false;
    };
    let Ok(Certified::Proved(found)) = certify(alloc, terms, n, 0, 1, &optimum.bases) else {
        return false;
    };
    match blocks(alloc, terms, n, &optimum.bases) {
        Ok(list) => are_minimisers(small, number_of(&found.least), &list),
        Err(_) => false,
    }
}

/// Whether the text of an instance tells all minimisers.
fn has_minimisers(alloc: Global, small: &Small) -> bool {
    match read_instance(alloc, small.text) {
        Ok(instance) => tells_minimisers(alloc, &instance, small),
        Err(_) => false,
    }
}

const SMALL: [Small; 10] = [
    Small {
        text: b"sfm 1\nground a b c\nend\n",
        sets: 8,
        weights: &[],
        cuts: &[],
        needs: &[],
    },
    Small {
        text: b"sfm 1\nground a b\nneed a b\nend\n",
        sets: 4,
        weights: &[],
        cuts: &[],
        needs: &[(1, 2)],
    },
    Small {
        text: b"sfm 1\nground a b\ncut 1 a b\ncut 1 b a\nend\n",
        sets: 4,
        weights: &[],
        cuts: &[(1, 2, 1), (2, 1, 1)],
        needs: &[],
    },
    Small {
        text: b"sfm 1\nground a b c\nneed a b\nneed b c\nend\n",
        sets: 8,
        weights: &[],
        cuts: &[],
        needs: &[(1, 2), (2, 4)],
    },
    Small {
        text: b"sfm 1\nground a b c d\nneed a c\nneed b c\nneed c d\nneed d c\nend\n",
        sets: 16,
        weights: &[],
        cuts: &[],
        needs: &[(1, 4), (2, 4), (4, 8), (8, 4)],
    },
    Small {
        text: b"sfm 1\nground a b c\nweight a:-2 b:1 c:1\ncut 1 a b\ncut 1 a c\nend\n",
        sets: 8,
        weights: &[(1, -2), (2, 1), (4, 1)],
        cuts: &[(1, 2, 1), (1, 4, 1)],
        needs: &[],
    },
    Small {
        text: b"sfm 1\nground a b c d\nweight a:-3 b:2 c:1 d:0\ncut 2 a b\ncut 1 b c\ncut 5 c d\nend\n",
        sets: 16,
        weights: &[(1, -3), (2, 2), (4, 1), (8, 0)],
        cuts: &[(1, 2, 2), (2, 4, 1), (4, 8, 5)],
        needs: &[],
    },
    Small {
        text: b"sfm 1\nground a b c d\nweight a:-1 b:1 c:-1 d:1\nneed a b\nneed c d\nend\n",
        sets: 16,
        weights: &[(1, -1), (2, 1), (4, -1), (8, 1)],
        cuts: &[],
        needs: &[(1, 2), (4, 8)],
    },
    Small {
        text: b"sfm 1\nground a b c d\nweight a:-1 b:1 c:-1 d:1\nneed a b\nneed c d\ncut 1 b d\ncut 1 d b\nend\n",
        sets: 16,
        weights: &[(1, -1), (2, 1), (4, -1), (8, 1)],
        cuts: &[(2, 8, 1), (8, 2, 1)],
        needs: &[(1, 2), (4, 8)],
    },
    Small {
        text: b"sfm 1\nground a b c d e\nweight a:-5 b:1 c:-1 d:6 e:0\ncut 2 a b\ncut 2 b a\ncut 2 b c\ncut 2 c b\ncut 2 c d\ncut 2 d c\nend\n",
        sets: 32,
        weights: &[(1, -5), (2, 1), (4, -1), (8, 6), (16, 0)],
        cuts: &[
            (1, 2, 2),
            (2, 1, 2),
            (2, 4, 2),
            (4, 2, 2),
            (4, 8, 2),
            (8, 4, 2),
        ],
        needs: &[],
    },
];

#[test]
fn closed_choices_of_blocks_are_the_minimisers(rt: HostRuntime) {
    for small in &SMALL {
        assert!(rt; has_minimisers(rt.alloc(), small));
    }
}

/// Whether the last of some rows is that one.
fn has_last(rows: &Rows, last: &[i128]) -> bool {
    !rows.is_empty() && rows.row(rows.len() - 1) == last
}

/// Whether a minimum takes so many walks, and has that row of the last term then.
fn is_walked(alloc: Global, instance: &Instance, walks: u64, last: &[i128]) -> bool {
    let n = instance.names_len();
    let mut steps = Steps::new();
    match minimise_counted(alloc, instance.terms(), n, 0, 1, &mut steps) {
        Ok(optimum) => steps.count() == walks && has_last(&optimum.bases, last),
        Err(_) => false,
    }
}

/// Whether the minimum of an instance is so, by its text.
fn has_walks(alloc: Global, text: &[u8], walks: u64, last: &[i128]) -> bool {
    match read_instance(alloc, text) {
        Ok(instance) => is_walked(alloc, &instance, walks, last),
        Err(_) => false,
    }
}

/// Instances, how many walks their minimum takes, and the row of the last term then.
const WALKS: [(&[u8], u64, &[i128]); 3] = [
    (b"sfm 1\nground a b\nweight a:-3 b:2\nend\n", 0, &[-3, 2]),
    (
        b"sfm 1\nground a b\nweight a:-3 b:2\nneed a b\nend\n",
        1,
        &[2, -2],
    ),
    (CUT, 1, &[3, -3]),
];

#[test]
fn walks_are_counted(rt: HostRuntime) {
    for (text, walks, last) in &WALKS {
        assert!(rt; has_walks(rt.alloc(), text, *walks, last));
    }
}

/// The first bases of the terms.
fn first_bases(alloc: Global, instance: &Instance) -> Result<Rows, Memory>
    ensures bases { IfOk result (λ rows. AreBases (pos 1)
        (meanings kind_places kind_value instance.now.terms) rows) }
    ensures small { IfOk result (λ rows. All (λ row. All IsEntry row) rows) }
{
    start_rows(alloc, instance.terms(), 1)
}

/// Whether each row is a base of its term.
fn are_bases(alloc: Global, terms: &[Kind], rows: &Rows) -> Result<bool, Memory>
    requires bounded { All (λ term. kind_size term ≤ℤ pos (10 ^ 18)) terms.now }
    requires rows { AreFormedRows (map (λ term. length (kind_places term)) terms.now) rows.now }
    ensures { IfOk result (λ r. IsTrue r → AreBases (pos 1)
        (meanings kind_places kind_value terms.now) rows.now) }
{
    for (i, term) in terms.iter().enumerate() {
        if !term.is_base(alloc, 1, rows.row(i))? {
            return Ok(false);
        }
    }
    Ok(true)
}

/// A walk that leaves bases: its first place and its steps.
type Left = (usize, &'static [(usize, usize)]);

/// Whether bases prove no minimum, and are left by that walk.
fn are_left(alloc: Global, instance: &Instance, bases: &Rows, left: Left) -> bool
    requires bases { AreBases (pos 1) (meanings kind_places kind_value instance.now.terms)
        bases.now }
    requires small { All (λ row. All IsEntry row) bases.now }
{
    match certify(alloc, instance.terms(), instance.names_len(), 0, 1, bases) {
        Ok(Certified::NotOptimal { walk }) => {
            walk.first == left.0 && walk.steps.as_slice() == left.1
        }
        _ => false,
    }
}

const FROM_FIRST: Left = (1, &[(0, 1)]);

/// Whether the first bases are left by their walk.
fn are_first_left(alloc: Global, instance: &Instance) -> bool {
    match first_bases(alloc, instance) {
        Ok(bases) => are_left(alloc, instance, &bases, FROM_FIRST),
        Err(_) => false,
    }
}

const ZERO: &[u8] = b"answer 1\nminimum 0\nleast\ngreatest\nat 0/1\nbase 1 -3 2\nbase 2 0 0\nend\n";

const FROM_ZERO: Left = (0, &[(1, 1)]);

/// Whether the rows at 0/1 of an answer text are bases of the terms that are left by that walk.
fn are_left_in(alloc: Global, instance: &Instance, text: &[u8], left: Left) -> bool {
    let Ok(solved) = read_answer(alloc, instance, text) else {
        return false;
    };
    match are_bases(alloc, instance.terms(), &solved.bases) {
        Ok(true) => are_left(alloc, instance, &solved.bases, left),
        _ => false,
    }
}

/// Whether bases of the cut that prove no minimum are left by a walk.
fn leaves(alloc: Global) -> bool {
    match read_instance(alloc, CUT) {
        Ok(instance) => are_first_left(alloc, &instance)
            && are_left_in(alloc, &instance, ZERO, FROM_ZERO),
        Err(_) => false,
    }
}

#[test]
fn bases_that_do_not_prove_are_left_by_a_walk(rt: HostRuntime) {
    assert!(rt; leaves(rt.alloc()));
}
