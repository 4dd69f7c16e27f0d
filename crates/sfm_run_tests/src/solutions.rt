// Instances that are solved. Which of several proving bases is written is free, so the lines of such bases are left open,
// and each answer is checked against its instance.
use crate::cases::{Case, Outside, SOUND, parts_of, solve, solved};
use sfm_due::solve_text;
use std::alloc::Global;
use std::process::Abort;

/// Whether a line is as wanted. A wanted line that ends in `*` is the beginning of one.
fn is_wanted(line: &[u8], wanted: &[u8]) -> bool {
    match wanted.split_last() {
        Some((b'*', front)) => line.starts_with(front),
        _ => line == wanted,
    }
}

/// Whether each line of a text is as wanted.
fn are_wanted(lines: &[&[u8]], wanted: &[&[u8]]) -> bool {
    for (line, pattern) in lines.iter().zip(wanted) {
        if !is_wanted(line, pattern) {
            return false;
        }
    }
    lines.len() == wanted.len()
}

/// Whether the lines of a text are as wanted.
fn has_lines(alloc: Global, text: &[u8], wanted: &[u8]) -> bool {
    let Ok(lines) = parts_of(alloc, text, b'\n') else {
        return false;
    };
    let Ok(patterns) = parts_of(alloc, wanted, b'\n') else {
        return false;
    };
    are_wanted(&lines, &patterns)
}

/// Whether an instance, read in pieces of that size, has an answer with the lines that are wanted, which is a right file for it.
pub fn is_solved(alloc: Global, piece: usize, text: &[u8], wanted: &[u8]) -> bool {
    let outside = Outside {
        read_piece: piece,
        ..SOUND
    };
    let case = Case {
        outside: &outside,
        ..solve(text, 0, b"")
    };
    match solved(alloc, &case) {
        Some(answer) => has_lines(alloc, answer.taken(), wanted),
        None => false,
    }
}

/// Whether an instance, of which the text is there whole, has an answer with the lines that are wanted.
fn is_solved_whole(alloc: Global, text: &[u8], wanted: &[u8]) -> bool {
    match solve_text(alloc, text) {
        Ok(answer) => has_lines(alloc, answer.as_slice(), wanted),
        Err(_) => false,
    }
}

/// An instance, and the lines of its answer.
type Row = (&'static [u8], &'static [u8]);

const WEIGHTS_AND_CUTS: [Row; 8] = [
    (
        b"sfm 1\nground a\nweight a:5\nend\n",
        b"answer 1\nminimum 0\nleast\ngreatest\nslope 5/1 a\nat 0/1\nbase 1 5\nat 5/1\nbase 1 5\nend\n",
    ),
    (
        b"sfm 1\nground a b\nweight a:-3 b:2\ncut 4 a b\nend\n",
        b"answer 1\nminimum -1\nleast a b\ngreatest a b\nslope -1/2 a b\nat 0/1\nbase 1 -3 2\nbase 2 *\nat -1/2\nbase 1 -6 4\nbase 2 5 -5\nend\n",
    ),
    (
        b"sfm 1\nground\nend\n",
        b"answer 1\nminimum 0\nleast\ngreatest\nat 0/1\nend\n",
    ),
    (
        b"sfm 1\nground a b c\nend\n",
        b"answer 1\nminimum 0\nleast\ngreatest a b c\nblock 1 a :\nblock 2 b :\nblock 3 c :\nslope 0/1 a b c\nat 0/1\nat 0/1\nend\n",
    ),
    (
        b"sfm 1\nground a b\ncut 1 a b\ncut 1 b a\nend\n",
        b"answer 1\nminimum 0\nleast\ngreatest a b\nblock 1 a b :\nslope 0/1 a b\nat 0/1\nbase 1 *\nbase 2 *\nat 0/1\nbase 1 *\nbase 2 *\nend\n",
    ),
    (
        b"sfm 1\nground a b c\nweight a:1 b:1 c:-2\nend\n",
        b"answer 1\nminimum -2\nleast c\ngreatest c\nslope -2/1 c\nslope 1/1 a b c\nat 0/1\nbase 1 1 1 -2\nat -2/1\nbase 1 1 1 -2\nat 1/1\nbase 1 1 1 -2\nend\n",
    ),
    (
        b"\tsfm  1\r\n# weights\r\n\r\nground a\tb\r\nweight a:-3 b:2\r\nend",
        b"answer 1\nminimum -3\nleast a\ngreatest a\nslope -3/1 a\nslope 2/1 a b\nat 0/1\nbase 1 -3 2\nat -3/1\nbase 1 -3 2\nat 2/1\nbase 1 -3 2\nend\n",
    ),
    (
        b"sfm 1\nground\n# \xff\nend\n",
        b"answer 1\nminimum 0\nleast\ngreatest\nat 0/1\nend\n",
    ),
];

const NEEDS_COVERS_AND_TABLES: [Row; 4] = [
    (
        b"sfm 1\nground a b\nneed a b\nend\n",
        b"answer 1\nminimum 0\nleast\ngreatest a b\nblock 1 b :\nblock 2 a : 1\nslope 0/1 a b\nat 0/1\nbase 1 0 0\nat 0/1\nbase 1 0 0\nend\n",
    ),
    (
        b"sfm 1\nground a b c\nweight a:-2 b:-2 c:-1\ncover 3 a b c\nend\n",
        b"answer 1\nminimum -2\nleast a b c\ngreatest a b c\nslope -2/3 a b c\nat 0/1\nbase 1 -2 -2 -1\nbase 2 *\nat -2/3\nbase 1 -6 -6 -3\nbase 2 4 4 1\nend\n",
    ),
    (
        b"sfm 1\nground a b\nweight a:-1000000000000 b:1000000000000\nweight a:-1000000000000 b:1000000000000\nweight b:1000000000000\nneed a b\nend\n",
        b"answer 1\nminimum 0\nleast\ngreatest\nslope 500000000000/1 a b\nat 0/1\nbase 1 -1000000000000 1000000000000\nbase 2 -1000000000000 1000000000000\nbase 3 1000000000000\nbase 4 *\nat 500000000000/1\nbase 1 -1000000000000 1000000000000\nbase 2 -1000000000000 1000000000000\nbase 3 1000000000000\nbase 4 2500000000000 -2500000000000\nend\n",
    ),
    (
        b"sfm 1\nground a b\nweight a:-1 b:-1\ntable 0 2 2 3 : a b\nend\n",
        b"answer 1\nminimum 0\nleast\ngreatest\nslope 1/2 a b\nat 0/1\nbase 1 -1 -1\nbase 2 *\nat 1/2\nbase 1 -2 -2\nbase 2 *\nend\n",
    ),
];

const CONCAVE_FUNCTIONS_AND_RANKS: [Row; 4] = [
    (
        b"sfm 1\nground a b\nconcave 1 2 : a b\nend\n",
        b"answer 1\nminimum 0\nleast\ngreatest\nslope 1/1 a b\nat 0/1\nbase 1 1 1\nat 1/1\nbase 1 1 1\nend\n",
    ),
    (
        b"sfm 1\nground a b c\nweight a:-3 b:-2 c:-2\nconcave 4 6 6 : a b c\nend\n",
        b"answer 1\nminimum -1\nleast a b c\ngreatest a b c\nslope -1/3 a b c\nat 0/1\nbase 1 -3 -2 -2\nbase 2 *\nat -1/3\nbase 1 -9 -6 -6\nbase 2 *\nend\n",
    ),
    (
        b"sfm 1\nground a b\nweight a:-1 b:-3\nrank 2 uniform 1 : a b\nend\n",
        b"answer 1\nminimum -2\nleast a b\ngreatest a b\nslope -1/1 a b\nat 0/1\nbase 1 -1 -3\nbase 2 *\nat -1/1\nbase 1 -1 -3\nbase 2 0 2\nend\n",
    ),
    (
        b"sfm 1\nground a b c\nweight a:-2 b:-2 c:-2\nrank 3 laminar : a b c ; 2 a b c ; 1 a b\nend\n",
        b"answer 1\nminimum -1\nleast a b\ngreatest a b\nslope -1/2 a b\nslope 1/1 a b c\nat 0/1\nbase 1 -2 -2 -2\nbase 2 *\nat -1/2\nbase 1 -4 -4 -4\nbase 2 3 3 6\nat 1/1\nbase 1 -2 -2 -2\nbase 2 *\nend\n",
    ),
];

const RANKS_OF_GRAPHS_AND_OF_SLOTS: [Row; 3] = [
    (
        b"sfm 1\nground a b c\nweight a:-2 b:-2 c:-2\nrank 2 graphic : a=u-v b=v-w c=u-w\nend\n",
        b"answer 1\nminimum -2\nleast a b c\ngreatest a b c\nslope -2/3 a b c\nat 0/1\nbase 1 -2 -2 -2\nbase 2 *\nat -2/3\nbase 1 -6 -6 -6\nbase 2 4 4 4\nend\n",
    ),
    (
        b"sfm 1\nground a\nweight a:-1\nrank 5 graphic : a=u-u\nend\n",
        b"answer 1\nminimum -1\nleast a\ngreatest a\nslope -1/1 a\nat 0/1\nbase 1 -1\nbase 2 0\nat -1/1\nbase 1 -1\nbase 2 0\nend\n",
    ),
    (
        b"sfm 1\nground a b\nweight a:-1 b:-3\nrank 2 transversal : a=t b=t\nend\n",
        b"answer 1\nminimum -2\nleast a b\ngreatest a b\nslope -1/1 a b\nat 0/1\nbase 1 -1 -3\nbase 2 *\nat -1/1\nbase 1 -1 -3\nbase 2 0 2\nend\n",
    ),
];

// So many that their sections come from one tree of stages.
const MANY_SLOPES: [Row; 1] = [(
    b"sfm 1\nground a b c d e f g h i j k l m n o p q r\nweight a:-31 b:-12 c:-47 d:-8 e:-26 f:-55 g:-3 h:-40 i:-19 j:-62 k:-15 l:-35 m:-5 n:-22 o:-50 p:-28 q:-44 r:-10\nconcave 20 37 53 66 77 88 96 103 109 114 118 122 125 127 129 130 131 131 : a b c d e f g h i j k l m n o p q r\nend\n",
    b"answer 1\nminimum -381\nleast a b c d e f g h i j k l m n o p q r\ngreatest a b c d e f g h i j k l m n o p q r\nslope -42/1 j\nslope -38/1 f j\nslope -34/1 c f j o\nslope -33/1 c f j o q\nslope -29/1 c f h j o q\nslope -27/1 c f h j l o q\nslope -24/1 a c f h j l o q\nslope -22/1 a c f h j l o p q\nslope -21/1 a c e f h j l o p q\nslope -18/1 a c e f h j l n o p q\nslope -15/1 a c e f h i j l n o p q\nslope -12/1 a c e f h i j k l n o p q\nslope -10/1 a b c e f h i j k l n o p q\nslope -8/1 a b c e f h i j k l n o p q r\nslope -7/1 a b c d e f h i j k l n o p q r\nslope -4/1 a b c d e f h i j k l m n o p q r\nslope -3/1 a b c d e f g h i j k l m n o p q r\nat 0/1\nbase 1 -31 -12 -47 -8 -26 -55 -3 -40 -19 -62 -15 -35 -5 -22 -50 -28 -44 -10\nbase 2 *\nat -42/1\nbase 1 -31 -12 -47 -8 -26 -55 -3 -40 -19 -62 -15 -35 -5 -22 -50 -28 -44 -10\nbase 2 *\nat -38/1\nbase 1 -31 -12 -47 -8 -26 -55 -3 -40 -19 -62 -15 -35 -5 -22 -50 -28 -44 -10\nbase 2 *\nat -34/1\nbase 1 -31 -12 -47 -8 -26 -55 -3 -40 -19 -62 -15 -35 -5 -22 -50 -28 -44 -10\nbase 2 *\nat -33/1\nbase 1 -31 -12 -47 -8 -26 -55 -3 -40 -19 -62 -15 -35 -5 -22 -50 -28 -44 -10\nbase 2 *\nat -29/1\nbase 1 -31 -12 -47 -8 -26 -55 -3 -40 -19 -62 -15 -35 -5 -22 -50 -28 -44 -10\nbase 2 *\nat -27/1\nbase 1 -31 -12 -47 -8 -26 -55 -3 -40 -19 -62 -15 -35 -5 -22 -50 -28 -44 -10\nbase 2 *\nat -24/1\nbase 1 -31 -12 -47 -8 -26 -55 -3 -40 -19 -62 -15 -35 -5 -22 -50 -28 -44 -10\nbase 2 *\nat -22/1\nbase 1 -31 -12 -47 -8 -26 -55 -3 -40 -19 -62 -15 -35 -5 -22 -50 -28 -44 -10\nbase 2 *\nat -21/1\nbase 1 -31 -12 -47 -8 -26 -55 -3 -40 -19 -62 -15 -35 -5 -22 -50 -28 -44 -10\nbase 2 *\nat -18/1\nbase 1 -31 -12 -47 -8 -26 -55 -3 -40 -19 -62 -15 -35 -5 -22 -50 -28 -44 -10\nbase 2 *\nat -15/1\nbase 1 -31 -12 -47 -8 -26 -55 -3 -40 -19 -62 -15 -35 -5 -22 -50 -28 -44 -10\nbase 2 *\nat -12/1\nbase 1 -31 -12 -47 -8 -26 -55 -3 -40 -19 -62 -15 -35 -5 -22 -50 -28 -44 -10\nbase 2 *\nat -10/1\nbase 1 -31 -12 -47 -8 -26 -55 -3 -40 -19 -62 -15 -35 -5 -22 -50 -28 -44 -10\nbase 2 *\nat -8/1\nbase 1 -31 -12 -47 -8 -26 -55 -3 -40 -19 -62 -15 -35 -5 -22 -50 -28 -44 -10\nbase 2 *\nat -7/1\nbase 1 -31 -12 -47 -8 -26 -55 -3 -40 -19 -62 -15 -35 -5 -22 -50 -28 -44 -10\nbase 2 *\nat -4/1\nbase 1 -31 -12 -47 -8 -26 -55 -3 -40 -19 -62 -15 -35 -5 -22 -50 -28 -44 -10\nbase 2 *\nat -3/1\nbase 1 -31 -12 -47 -8 -26 -55 -3 -40 -19 -62 -15 -35 -5 -22 -50 -28 -44 -10\nbase 2 *\nend\n",
)];

/// The size of the pieces that are read, and instances with their answers.
const SOLUTIONS: [(usize, &[Row]); 6] = [
    (65536, &WEIGHTS_AND_CUTS),
    (1, &WEIGHTS_AND_CUTS),
    (7, &NEEDS_COVERS_AND_TABLES),
    (7, &CONCAVE_FUNCTIONS_AND_RANKS),
    (7, &RANKS_OF_GRAPHS_AND_OF_SLOTS),
    (7, &MANY_SLOPES),
];

/// Asserts that instances, read in pieces of that size, have their answers.
fn are_solved(rt: &impl Abort, alloc: Global, piece: usize, rows: &[Row]) {
    for number in 0..rows.len() {
        let (text, wanted) = rows[number];
        assert!(rt;
            is_solved(alloc, piece, text, wanted),
            "row {number}, pieces of {piece}"
        );
    }
}

#[test]
fn solves(rt: HostRuntime) {
    for (piece, rows) in &SOLUTIONS {
        are_solved(&rt, rt.alloc(), *piece, rows);
    }
}

#[test]
fn solves_a_text_that_is_there_whole(rt: HostRuntime) {
    let (text, wanted) = NEEDS_COVERS_AND_TABLES[1];
    assert!(rt; is_solved_whole(rt.alloc(), text, wanted));
}
