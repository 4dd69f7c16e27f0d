// Tables of terms: each row has the line of a term over the elements a to z and A to F, in this order, and lines that tell what
// the term is to answer, each by a word and numbers:
//
//     places 0 1        the elements of its places
//     size 4            its size
//     values 0 4 no 0   the values of its parts, by their numbers; place j counts 2^j, and `no` is a part that is not allowed
//     ranks 0 1 1 2     the ranks of its parts
//     factor 2          the factor q of the lines below, which is 1 before
//     start 8 -8        the first base of q times the term
//     not 9 -9          no base of q times the term
//     base 5 -5         a base of q times the term, at which the lines below are asked
//     room 0 1 3        the room of (0, 1); `no` is one without a bound
//     reach 0 2         the number of the part to which 0 has room
//     times 0 1         a note made of one there tells the row of 0 and the room of (0, 1) at three times the base, and so does
//                       another one over which it is written
//
// A row costs no proof, since the functions that read and try it are proved for every table. They answer yes or no.
use crate::numbers::numbers_of;
use crate::trial::{has_places, has_reach, has_room, has_size, has_times, is_no_base};
use crate::{concave, graphs, laminar, simple, slots};
use sfm_base::Set;
use sfm_kind::Kind;
use sfm_law::{At, Term};
use sfm_text::read_pieces;
use sfm_trial::{has_values, is_base, part, starts};
use std::alloc::Global;
use std::process::Abort;

/// The terms of each kind.
const TABLES: [&[(&str, &str)]; 5] = [
    &simple::TERMS,
    &concave::TERMS,
    &laminar::TERMS,
    &graphs::TERMS,
    &slots::TERMS,
];

/// What a term of two places answers that is worth 3 once it has one of them.
pub(crate) const ONE_OF_TWO: &str = "places 0 1
    size 3
    values 0 3 3 3
    factor 2
    start 6 0
    not 7 -1
    base 6 0
    room 1 0 6
    reach 1 1";

/// The factor and the vector that the lines before told.
#[derive(Drop)]
struct Told {
    q: i128,
    x: Vec<i128>,
}

/// What stands before the line of a term.
const HEAD: &str =
    "sfm 1\nground a b c d e f g h i j k l m n o p q r s t u v w x y z A B C D E F\n";

/// What stands behind it.
const TAIL: &str = "\nend\n";

/// The rank of a part; nothing where a term has none, or memory lacks.
fn rank_of(alloc: Global, kind: &Kind, s: &Set) -> Option<i128> {
    match kind {
        Kind::Laminar(term) if s.len() == term.places.len() => term.rank(alloc, s).ok(),
        Kind::Graphic(term) if s.len() == term.places.len() => term.rank(alloc, s).ok(),
        Kind::Transversal(term) if s.len() == term.places.len() => term.rank(alloc, s).ok(),
        _ => None,
    }
}

/// Whether a part has that rank.
fn is_rank(alloc: Global, kind: &Kind, number: usize, rank: i128) -> bool {
    match part(alloc, kind.elements().len(), number) {
        Ok(s) => rank_of(alloc, kind, &s) == Some(rank),
        Err(_) => false,
    }
}

/// Whether these are the ranks of the parts, by their numbers.
fn has_ranks(alloc: Global, kind: &Kind, ranks: &[i128]) -> bool {
    for number in 0..ranks.len() {
        if !is_rank(alloc, kind, number, ranks[number]) {
            return false;
        }
    }
    true
}

/// What a line tells.
#[derive(Clone, Copy)]
enum Word {
    Places,
    Size,
    Values,
    Ranks,
    Factor,
    Start,
    Not,
    Base,
    Room,
    Reach,
    Times,
}

/// The words of lines.
const WORDS: [(&str, Word); 11] = [
    ("places", Word::Places),
    ("size", Word::Size),
    ("values", Word::Values),
    ("ranks", Word::Ranks),
    ("factor", Word::Factor),
    ("start", Word::Start),
    ("not", Word::Not),
    ("base", Word::Base),
    ("room", Word::Room),
    ("reach", Word::Reach),
    ("times", Word::Times),
];

/// The word with that text.
fn word_of(text: &str) -> Option<Word> {
    for (word, told) in &WORDS {
        if *word == text {
            return Some(*told);
        }
    }
    None
}

/// Whether a term answers at a factor and a vector what a word and numbers tell.
fn is_told_at(alloc: Global, kind: &Kind, at: &At<'_>, word: Word, numbers: &[i128]) -> bool {
    let beside = At {
        q: at.q,
        x: numbers,
    };
    match word {
        Word::Start => starts(alloc, kind, &beside),
        Word::Not => is_no_base(alloc, kind, &beside),
        Word::Base => is_base(alloc, kind, &beside),
        Word::Room => has_room(alloc, kind, at, numbers),
        Word::Reach => has_reach(alloc, kind, at, numbers),
        Word::Times => has_times(alloc, kind, at, numbers),
        _ => true,
    }
}

/// Whether a term answers what a word and numbers tell.
fn is_told(alloc: Global, kind: &Kind, at: &At<'_>, word: Word, numbers: &[i128]) -> bool {
    match word {
        Word::Places => has_places(kind, numbers),
        Word::Size => has_size(kind, numbers),
        Word::Values => has_values(alloc, kind, numbers),
        Word::Ranks => has_ranks(alloc, kind, numbers),
        _ => is_told_at(alloc, kind, at, word, numbers),
    }
}

/// The word of a line, and what stands behind it.
fn words_of(line: &str) -> (&str, &str) {
    line.trim().split_once(' ').unwrap_or((line, ""))
}

/// Keeps what a word and numbers tell for the lines below.
fn keep(told: &mut Told, word: Word, numbers: Vec<i128>) {
    match word {
        Word::Base => told.x = numbers,
        Word::Factor => told.q = numbers.first().copied().unwrap_or(0),
        _ => (),
    }
}

/// Whether a term answers what a word and numbers tell behind what is told before, which is kept.
fn has_numbers(
    alloc: Global,
    kind: &Kind,
    told: &mut Told,
    word: Word,
    numbers: Vec<i128>,
) -> bool {
    let at = At {
        q: told.q,
        x: told.x.as_slice(),
    };
    let is_so = is_told(alloc, kind, &at, word, numbers.as_slice());
    keep(told, word, numbers);
    is_so
}

/// Whether a term answers what a line tells behind what is told before.
fn has_fact(alloc: Global, kind: &Kind, told: &mut Told, line: &str) -> bool {
    let (text, rest) = words_of(line);
    let Some(word) = word_of(text) else {
        return false;
    };
    match numbers_of(alloc, rest) {
        Some(numbers) => has_numbers(alloc, kind, told, word, numbers),
        None => false,
    }
}

/// Whether a term answers what the lines tell.
pub(crate) fn has_facts(alloc: Global, kind: &Kind, lines: &str) -> bool {
    let mut told = Told {
        q: 1,
        x: Vec::new(alloc),
    };
    for line in lines.lines() {
        if !has_fact(alloc, kind, &mut told, line) {
            return false;
        }
    }
    true
}

/// Whether a copy of a term answers what the lines tell.
fn copy_has_facts(alloc: Global, kind: &Kind, lines: &str) -> bool {
    match kind.copy(alloc) {
        Ok(copy) => has_facts(alloc, &copy, lines),
        Err(_) => false,
    }
}

/// Whether there is one term, which answers what the lines tell, as its copy does.
fn have_facts(alloc: Global, kinds: &[Kind], lines: &str) -> bool {
    kinds.len() == 1
        && has_facts(alloc, &kinds[0], lines)
        && copy_has_facts(alloc, &kinds[0], lines)
}

/// Whether a row holds: the line of a term, and what the term is to answer.
fn is_met(alloc: Global, row: &(&str, &str)) -> bool {
    let pieces = [HEAD.as_bytes(), row.0.as_bytes(), TAIL.as_bytes()];
    match read_pieces(alloc, &pieces) {
        Ok(instance) => have_facts(alloc, instance.terms(), row.1),
        Err(_) => false,
    }
}

/// Asserts that the rows of a table hold.
fn try_table(rt: &impl Abort, alloc: Global, table: &[(&str, &str)]) {
    for row in table {
        assert!(rt; is_met(alloc, row), "{}", row.0);
    }
}

#[test]
fn terms(rt: HostRuntime) {
    for table in &TABLES {
        try_table(&rt, rt.alloc(), table);
    }
}
