// Texts of edits of instances with ranks whose elements have weights: a line has a term for each of its layers.
use crate::edits::{are_alike, are_kept, is_refused};
use crate::rows::{read_text, text_of};
use sfm_edit::{Edited, apply};
use std::alloc::Global;
use std::process::Abort;

/// The text of an instance, a text of edits, and the text of the instance to which it leads; for each of its terms the place
/// before, and for each of its lines the number of its layers. In a text `|` is a line feed.
#[derive(Clone, Copy)]
struct Row {
    text: &'static str,
    edits: &'static str,
    after: &'static str,
    kept: &'static [Option<usize>],
    layers: &'static [usize],
}

/// What edits lead to.
const ROWS: [Row; 4] = [
    Row {
        text: "sfm 2|ground a b c|weight a:-3|cut 4 a b|weight c:1|end",
        edits: "edits 1|drop 2|add rank 1 uniform 1 : a*3 b c*2|drop 1|end",
        after: "sfm 2|ground a b c|weight c:1|rank 1 uniform 1 : a*3 b c*2|end",
        kept: &[Some(2), None, None, None],
        layers: &[0, 3],
    },
    Row {
        text: "sfm 2|ground a b c|rank 1 uniform 2 : a*2 b|cut 4 b c|rank 1 uniform 1 : a*3 b c*2|end",
        edits: "edits 1|add rank 2 uniform 1 : b*5 c*7|drop 1|end",
        after: "sfm 2|ground a b c|cut 4 b c|rank 1 uniform 1 : a*3 b c*2|rank 2 uniform 1 : b*5 c*7|end",
        kept: &[Some(2), Some(3), Some(4), Some(5), None, None],
        layers: &[0, 3, 2],
    },
    Row {
        text: "sfm 2|ground a b c|cut 4 b c|rank 1 uniform 2 : a*2 b|end",
        edits: "edits 1|drop 2|add rank 1 uniform 1 : a*1 b|add cut 1 a c|end",
        after: "sfm 2|ground a b c|cut 4 b c|rank 1 uniform 1 : a*1 b|cut 1 a c|end",
        kept: &[Some(0), None, None],
        layers: &[0, 1, 0],
    },
    Row {
        text: "sfm 2|ground a b c|weight a:1|end",
        edits: "edits 1|add rank 1 graphic : a=x-y*4 b=y-z*2|drop 1|drop 1|add weight b:2|end",
        after: "sfm 2|ground a b c|weight b:2|end",
        kept: &[None],
        layers: &[0],
    },
];

/// What the edits of a text lead to.
fn edited(alloc: Global, text: &str, edits: &str) -> Option<Edited> {
    let instance = read_text(alloc, text)?;
    let edits = text_of(alloc, edits)?;
    apply(alloc, instance, edits.as_bytes()).ok()
}

/// Whether a row holds.
fn is_row(alloc: Global, row: &Row) -> bool {
    let Some(found) = edited(alloc, row.text, row.edits) else {
        return false;
    };
    let Some(after) = read_text(alloc, row.after) else {
        return false;
    };
    are_kept(&found.kept, row.kept)
        && are_alike(found.instance.terms(), after.terms())
        && found.instance.lines() == row.layers
        && after.lines() == row.layers
}

#[test]
fn each_layer_of_a_line_has_its_place(rt: HostRuntime) {
    for number in 0..ROWS.len() {
        assert!(rt; is_row(rt.alloc(), &ROWS[number]), "row {number}");
    }
}

/// The text of two lines, one with two layers.
const LAYERED: &str = "sfm 2|ground a b c|rank 1 uniform 2 : a*2 b|cut 4 b c|end";

/// Texts with a fault, as edits of these.
const FAULTS: [&str; 6] = [
    "2 number>edits 1|drop 3|end",
    "4 number>edits 1|add rank 1 uniform 1 : a*5 b*3 c|drop 1|drop 3|end",
    "2 number>edits 1|add rank 1 uniform 1 : a*0 b|end",
    "2 shape>edits 1|add rank 1 uniform 1 : a*2*3 b|end",
    "2 name>edits 1|add cut 1 a*2 b|end",
    "2 name>edits 1|add rank 1 uniform 1 : z*2 b|end",
];

#[test]
fn faults_of_added_layers_have_their_reasons(rt: HostRuntime) {
    for row in &FAULTS {
        assert!(rt; is_refused(rt.alloc(), LAYERED, row), "{row}");
    }
}
