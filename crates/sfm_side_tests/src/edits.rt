// Texts of edits, and the minimum of what they lead to, found from the bases before them.
ghost use Rattle.std.specs.{Prelude.{◌≡◌, length, pos}, List.{All}};
ghost use Rattle.sfm_spec.specs.{Bounds.{IsEntry}, Families.{meanings, AreBases}};
ghost use Rattle.sfm_kind.specs.Kinds.{kind_places, kind_value};
ghost use Rattle.sfm_edit.specs.Resuming.{AreOldBases};

use crate::rows::{has_listed, instance_of, is_fault, read_text, text_of};
use sfm_base::{Rows, Steps};
use sfm_edit::{Edited, Origins, apply, resume};
use sfm_extreme::{Certified, certify};
use sfm_kind::{Instance, Kind};
use sfm_law::Term;
use sfm_trial::are_rows;
use sfm_walk::minimise;
use std::alloc::Global;
use std::process::Abort;

/// Lines of an instance, a text of edits, and the lines of the instance to which it leads; for each of its terms the place
/// before; how many walks lead from the old bases to the new ones, and these; the minimum, and the names of the least minimiser.
/// In a text `|` is a line feed.
#[derive(Clone, Copy)]
struct Row {
    lines: &'static str,
    edits: &'static str,
    after: &'static str,
    kept: &'static [Option<usize>],
    walks: u64,
    bases: &'static [&'static [i128]],
    minimum: i128,
    least: &'static str,
}

/// Whether the places before are these.
pub fn are_kept(kept: &Origins, told: &[Option<usize>]) -> bool {
    for (j, origin) in told.iter().enumerate() {
        if j >= kept.len() || kept.at(j) != *origin {
            return false;
        }
    }
    kept.len() == told.len()
}

/// Whether terms have the places and the sizes of others, in order.
pub fn are_alike(terms: &[Kind], others: &[Kind]) -> bool {
    for (term, other) in terms.iter().zip(others) {
        if term.elements() != other.elements() || term.size() != other.size() {
            return false;
        }
    }
    terms.len() == others.len()
}

/// Whether bases prove the minimum of a row, and its least minimiser.
fn is_proved(alloc: Global, instance: &Instance, bases: &Rows, row: &Row) -> bool
    requires bases { AreBases (pos 1) (meanings kind_places kind_value instance.now.terms)
        bases.now }
    requires small { All (λ x. All IsEntry x) bases.now }
{
    match certify(alloc, instance.terms(), instance.names_len(), 0, 1, bases) {
        Ok(Certified::Proved(found)) => {
            found.value == row.minimum && has_listed(&found.least, row.least)
        }
        _ => false,
    }
}

/// Whether the minimum of an instance, from its first bases on, is that of a row.
fn is_minimum(alloc: Global, instance: &Instance, row: &Row) -> bool {
    match minimise(alloc, instance.terms(), instance.names_len(), 0, 1) {
        Ok(found) => is_proved(alloc, instance, &found.bases, row),
        Err(_) => false,
    }
}

/// Whether the minimum of an edited instance, from old bases on, is that of a row, with its walks and bases.
fn is_resumed(alloc: Global, edited: &Edited, rows: &Rows, row: &Row) -> bool
    requires count { length edited.now.kept ≡ length edited.now.instance.terms }
    requires old { AreOldBases edited.now.instance.terms edited.now.kept rows.now }
{
    let mut steps = Steps::new();
    match resume(alloc, edited, rows, &mut steps) {
        Ok(found) => {
            steps.count() == row.walks
                && are_rows(&found.bases, row.bases)
                && is_proved(alloc, &edited.instance, &found.bases, row)
        }
        Err(_) => false,
    }
}

/// Whether edits lead from an instance to that of a row, and its minimum is found from the bases before them.
fn is_edited(alloc: Global, instance: Instance, edits: &[u8], cold: &Instance, row: &Row) -> bool {
    let Ok(old) = minimise(alloc, instance.terms(), instance.names_len(), 0, 1) else {
        return false;
    };
    let Ok(edited) = apply(alloc, instance, edits) else {
        return false;
    };
    are_kept(&edited.kept, row.kept)
        && are_alike(edited.instance.terms(), cold.terms())
        && is_resumed(alloc, &edited, &old.bases, row)
}

/// Whether a row holds, and its minimum is found from the first bases too.
fn is_row(alloc: Global, row: &Row) -> bool {
    let Some(edits) = text_of(alloc, row.edits) else {
        return false;
    };
    let Some(instance) = instance_of(alloc, row.lines) else {
        return false;
    };
    let Some(cold) = instance_of(alloc, row.after) else {
        return false;
    };
    is_minimum(alloc, &cold, row) && is_edited(alloc, instance, edits.as_bytes(), &cold, row)
}

/// Weights, and a cut whose base is [3, -3] where the minimum is proved, after one walk; over a, b and c.
const EDGE: &str = "ground a b c|weight a:-3 b:2|cut 4 a b";

/// What edits lead to.
const ROWS: [Row; 7] = [
    Row {
        lines: EDGE,
        edits: "edits 1|end",
        after: EDGE,
        kept: &[Some(0), Some(1)],
        walks: 0,
        bases: &[&[-3, 2], &[3, -3]],
        minimum: -1,
        least: "ab",
    },
    Row {
        lines: EDGE,
        edits: "edits 1|add weight a:-1|end",
        after: "ground a b c|weight a:-3 b:2|cut 4 a b|weight a:-1",
        kept: &[Some(0), Some(1), None],
        walks: 0,
        bases: &[&[-3, 2], &[3, -3], &[-1]],
        minimum: -2,
        least: "ab",
    },
    Row {
        lines: EDGE,
        edits: "edits 1|drop 2|end",
        after: "ground a b c|weight a:-3 b:2",
        kept: &[Some(0)],
        walks: 0,
        bases: &[&[-3, 2]],
        minimum: -3,
        least: "a",
    },
    Row {
        lines: EDGE,
        edits: "edits 1|drop 1|add cut 2 b c|add weight c:-5|end",
        after: "ground a b c|cut 4 a b|cut 2 b c|weight c:-5",
        kept: &[Some(1), None, None],
        walks: 2,
        bases: &[&[0, 0], &[0, 0], &[-5]],
        minimum: -5,
        least: "c",
    },
    Row {
        lines: EDGE,
        edits: "edits 1|drop 1|drop 1|end",
        after: "ground a b c",
        kept: &[],
        walks: 0,
        bases: &[],
        minimum: 0,
        least: "",
    },
    Row {
        lines: "ground a b c|weight a:1|weight b:-2|weight c:3|cut 1 a b",
        edits: "edits 1|drop 2|drop 2|add weight b:4|drop 1|end",
        after: "ground a b c|cut 1 a b|weight b:4",
        kept: &[Some(3), None],
        walks: 0,
        bases: &[&[0, 0], &[4]],
        minimum: 0,
        least: "",
    },
    Row {
        lines: "ground a b c|weight a:-3 b:2|need a b",
        edits: "edits 1|drop 1|add weight a:-1 b:7|end",
        after: "ground a b c|need a b|weight a:-1 b:7",
        kept: &[Some(1), None],
        walks: 0,
        bases: &[&[2, -2], &[-1, 7]],
        minimum: 0,
        least: "",
    },
];

#[test]
fn minima_are_found_from_the_bases_before_edits(rt: HostRuntime) {
    for number in 0..ROWS.len() {
        assert!(rt; is_row(rt.alloc(), &ROWS[number]), "row {number}");
    }
}

/// Whether a row holds: the first fault of a text, and behind an arrow that text, as edits of the instance of another.
pub fn is_refused(alloc: Global, text: &str, row: &str) -> bool {
    let (told, edits) = row.split_once('>').unwrap_or((row, ""));
    let Some(instance) = read_text(alloc, text) else {
        return false;
    };
    let Some(edits) = text_of(alloc, edits) else {
        return false;
    };
    match apply(alloc, instance, edits.as_bytes()) {
        Ok(_) => false,
        Err(end) => is_fault(end, told),
    }
}

/// The text of weights and a cut.
const EDGE_TEXT: &str = "sfm 1|ground a b c|weight a:-3 b:2|cut 4 a b|end";

/// Texts with a fault, as edits of these.
const FAULTS: [&str; 9] = [
    "1 short>",
    "1 word>pins 1|end",
    "2 number>edits 1|drop 3|end",
    "3 number>edits 1|drop 1|drop 2|end",
    "5 number>edits 1|add weight a:1|drop 3|drop 1|drop 2|end",
    "2 shape>edits 1|drop 1 2|end",
    "2 word>edits 1|weight a:1|end",
    "2 name>edits 1|add cut 1 a z|end",
    "3 short>edits 1|drop 1",
];

#[test]
fn faults_of_edits_have_their_reasons(rt: HostRuntime) {
    for row in &FAULTS {
        assert!(rt; is_refused(rt.alloc(), EDGE_TEXT, row), "{row}");
    }
}
