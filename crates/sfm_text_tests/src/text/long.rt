// Lines of some thousands of tokens, each with its first reason.
use super::parts::push_numbered;
use super::{Frame, LAST, WHOLE, first_fault, framed};
use sfm_base::{Memory, Set};
use sfm_kind::Kind;
use sfm_law::Term;
use sfm_text::read_instance;
use std::alloc::Global;
use std::process::Abort;

const LONG_HEADERS_AND_GROUNDS: &str = "\
1 word:x{ 1}
1 shape:sfm 1{ 1}
2 word:sfm 1|sfm{ a}
2 twice:sfm 1|ground{ a}
2 shape:sfm 1|ground{ a-} ;
2 shape:sfm 1|ground :{ a}
2 name:sfm 1|ground{ a} a-
2 bytes:sfm 1|ground{ a} \x7f
3 shape:sfm 1|ground a|end{ a}";

const LONG_TERM_LINES: &str = "\
3 word:x{ a}
3 twice:weight{ a:1}
3 name:weight{ a:1} z:1
3 number:weight{ z:1} a:x
3 shape:weight{ a:x} a
3 shape:weight :{ a:1}
3 shape:weight{ a:1} a:1:1
3 number:weight{ a:1} a:1000000000001
3 twice:weight{ b:-1000000000000}
3 bytes:weight{ a:1}\x01
3 shape:cut 1{ a}
3 shape:need{ a}
3 shape:table{ 0} : a
3 shape:table 0{ 0} : a b c d
3 twice:cover 1{ a}
3 name:cover 1{ a} z
3 number:cover -1{ a} z
3 shape:cover -1{ a} :
3 shape:cover 1 ;{ a}
3 shape:concave{ 1} : a
3 shape:concave{ 1}
3 shape:concave 1 :{ :}
3 shape:concave 1 :{ a}
3 shape:concave 1 ; :{ a}
3 twice:rank 1 uniform 1 :{ a}
3 name:rank 1 uniform 1 :{ a} z
3 number:rank 1 uniform x :{ a} z
3 shape:rank 1 uniform x :{ a} ;
3 shape:rank 1 uniform 1 1 :{ a}
3 shape:rank 1 other 1 :{ a}
3 twice:rank 1 laminar :{ a}
3 twice:rank 1 graphic :{ a=u-v}
3 twice:rank 1 transversal :{ a=s,t}";

const LONG_CONCAVE_LINES: &str = "\
3 twice:concave 1{ 1} :{ a} a
3 name:concave 1{ 1} :{ a} z
3 shape:concave 1{ x} :{ z} :
3 number:concave 1{ x} :{ z} a";

const ENTRIES_OF_MANY_SLOTS: &str = "\
3 twice:rank 1 transversal : a=s{,t}
3 name:rank 1 transversal : a=s{,t},a-
3 name:rank 1 transversal : a=s{,t} z=s
3 number:rank x transversal : a=s{,t} z=s
3 shape:rank x transversal : a=s{,t} z
3 shape:rank x transversal : a=s{,t} z=s=t";

const LAMINAR_LINES_OF_MANY_GROUPS: &str = "\
0 good:rank 1 laminar : a b{ ; 1 a}|end
0 good:rank 1 laminar : a b c{ ; 1 a ; 2 a b}|end
3 law:rank 1 laminar : a b c{ ; 1 a b} ; 1 b c
3 twice:rank 1 laminar : a b c{ ; 1 a b} ; 1 b c ; 1 a a
3 twice:rank 1 laminar : a b a{ ; 1 a b} ; 1 b
3 name:rank 1 laminar : a b a{ ; 1 a b} ; 1 c
3 name:rank 1 laminar :{ a} ; 1 b
3 name:rank 1 laminar : z{ ; 1 a a}
3 number:rank 1 laminar : a b{ ; 1 z} ; x a
3 number:rank x laminar : a b{ ; 1 z}
3 shape:rank x laminar : a b{ ; 1 z} ;
3 shape:rank x laminar : a b{ ; 1 z} ; 1
3 shape:rank x laminar : a b{ ; 1 z} : a
3 shape:rank 1 laminar :{ ; 1 a}
3 shape:rank ; laminar : a{ ; 1 a}
3 shape:rank 1 laminar a :{ ; 1 a}
3 name:rank 1 laminar : a b{ ; 1 a} ;b";

/// Tables of faults, each with the frame of its texts.
pub(super) const FAULTS: [(Frame, &str); 5] = [
    (WHOLE, LONG_HEADERS_AND_GROUNDS),
    (LAST, LONG_TERM_LINES),
    (LAST, LONG_CONCAVE_LINES),
    (LAST, ENTRIES_OF_MANY_SLOTS),
    (LAST, LAMINAR_LINES_OF_MANY_GROUPS),
];

/// Adds the pairs of an element and those before it, as groups.
fn push_pairs(alloc: Global, text: &mut String, i: u32) -> bool {
    match format!(in alloc; " n{i}") {
        Ok(second) => push_numbered(alloc, text, " ; 1 n", i, second.as_str()),
        Err(_) => false,
    }
}

/// Adds the pairs of so many elements as groups.
fn push_all_pairs(alloc: Global, text: &mut String, count: u32) -> bool {
    for i in 0..count {
        if !push_pairs(alloc, text, i) {
            return false;
        }
    }
    true
}

/// Adds a text with the pairs of 40 elements as groups of a laminar rank.
fn push_crossing(alloc: Global, text: &mut String) -> bool {
    text.push_str("sfm 1\nground").is_ok()
        && push_numbered(alloc, text, " n", 40, "")
        && text.push_str("\nrank 1 laminar :").is_ok()
        && push_numbered(alloc, text, " n", 40, "")
        && push_all_pairs(alloc, text, 40)
        && text.push_str("\nend\n").is_ok()
}

/// The value of all elements of a term.
fn value_of_all(alloc: Global, term: &Kind) -> Result<Option<i128>, Memory> {
    let all = Set::whole(alloc, term.elements().len())?;
    term.value(alloc, &all)
}

/// Whether a term that has groups has two.
fn has_groups(term: &Kind) -> bool {
    match term {
        Kind::Laminar(laminar) => laminar.groups.len() == 2,
        _ => true,
    }
}

/// Whether each term has two groups, where it has any, and that value at all of its elements.
fn are_worth(alloc: Global, terms: &[Kind], worth: i128) -> bool {
    for term in terms {
        if !has_groups(term) || value_of_all(alloc, term) != Ok(Some(worth)) {
            return false;
        }
    }
    true
}

/// Whether a text has so many terms, each with that value at all of its elements.
fn has_worth(alloc: Global, text: &str, count: usize, worth: i128) -> bool {
    match read_instance(alloc, text.as_bytes()) {
        Ok(instance) => {
            instance.terms().len() == count && are_worth(alloc, instance.terms(), worth)
        }
        Err(_) => false,
    }
}

const EQUAL_GROUPS: &str = "\
rank 5 laminar : d b a ; 3 b d{ ; 2 d b} ; 1 b d ; 7 a ; 2 b d|rank 5 laminar : d b a ; 3 b d ; 1 d b ; 7 a ; 2 d b|end|";

/// Whether of equal groups the least is kept.
fn keeps_least(alloc: Global) -> bool {
    match framed(alloc, LAST, EQUAL_GROUPS) {
        Some(text) => has_worth(alloc, text.as_str(), 2, 10),
        None => false,
    }
}

/// Adds a text with an entry of 3,000 slots and more, which stands between two others.
fn push_entry(alloc: Global, text: &mut String, more: &str) -> bool {
    text.push_str("sfm 1\nground a b c\nrank 2 transversal : b=s1 a=")
        .is_ok()
        && push_numbered(alloc, text, "s", 3_000, ",")
        && text.push_str(more).is_ok()
        && text.push_str(" c=s0\nend\n").is_ok()
}

/// Whether of many slots the first are kept: of the entry three, and the third is no slot of the two others.
fn keeps_first(alloc: Global) -> bool {
    let mut text = String::new(alloc);
    push_entry(alloc, &mut text, "t") && has_worth(alloc, text.as_str(), 1, 6)
}

#[test]
fn of_many_parts_few_are_kept(rt: HostRuntime) {
    assert!(rt; keeps_least(rt.alloc()) && keeps_first(rt.alloc()));
}

/// Adds a ground of 300,000 names, and more.
fn push_ground(alloc: Global, text: &mut String, more: &str) -> bool {
    text.push_str("sfm 1\nground").is_ok()
        && push_numbered(alloc, text, " n", 300_000, "")
        && text.push_str(more).is_ok()
}

/// What a text has many of.
#[derive(Clone, Copy)]
enum Many {
    /// Slots of an entry.
    Slots,
    /// Groups that cross.
    Groups,
    /// Names of a ground.
    Names,
}

/// Adds a text with many of these, and more.
fn push_text_of(alloc: Global, text: &mut String, many: Many, more: &str) -> bool {
    match many {
        Many::Slots => push_entry(alloc, text, more),
        Many::Groups => push_crossing(alloc, text),
        Many::Names => push_ground(alloc, text, more),
    }
}

/// What a text has many of, what comes behind these, and its first fault.
type ManyRow = (Many, &'static str, (usize, &'static [u8]));

const FAULTS_OF_LINES: [ManyRow; 5] = [
    (Many::Slots, "s2999", (3, b"twice")),
    (Many::Slots, "s0", (3, b"twice")),
    (Many::Slots, "", (3, b"name")),
    (Many::Slots, "t=u", (3, b"shape")),
    (Many::Groups, "", (3, b"law")),
];

const FAULTS_OF_GROUNDS: [ManyRow; 3] = [
    (Many::Names, "", (2, b"total")),
    (Many::Names, " n0", (2, b"twice")),
    (Many::Names, " n299999", (2, b"twice")),
];

/// Whether a text with many of these has its first fault.
fn is_refused(alloc: Global, row: &ManyRow) -> bool {
    let (many, more, fault) = *row;
    let mut text = String::new(alloc);
    push_text_of(alloc, &mut text, many, more) && first_fault(alloc, text.as_bytes()) == fault
}

/// Asserts that texts with many of these have their first faults.
fn are_refused(rt: &impl Abort, alloc: Global, rows: &[ManyRow]) {
    for row in rows {
        assert!(rt; is_refused(alloc, row));
    }
}

#[test]
fn lines_of_many_parts_are_refused(rt: HostRuntime) {
    are_refused(&rt, rt.alloc(), &FAULTS_OF_LINES);
}

#[test]
fn grounds_of_many_names_are_refused(rt: HostRuntime) {
    are_refused(&rt, rt.alloc(), &FAULTS_OF_GROUNDS);
}
