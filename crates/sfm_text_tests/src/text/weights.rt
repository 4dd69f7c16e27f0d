// Lines of ranks with weights, without them, and the weights.
use sfm_weights::{are_weights, weights_of, without_weights};
use std::alloc::Global;

/// What stands behind the word, the same without weights (nothing where there is no such line), and whether the weights are good.
struct Row {
    line: &'static [u8],
    plain: &'static [u8],
    good: bool,
    weights: &'static [i128],
}

const ROWS: [Row; 16] = [
    Row {
        line: b"1 uniform 1 : a*2 b",
        plain: b" 1 uniform 1 : a b ",
        good: true,
        weights: &[2, 1],
    },
    Row {
        line: b"1 uniform 1 : a b",
        plain: b" 1 uniform 1 : a b ",
        good: true,
        weights: &[],
    },
    Row {
        line: b"1 laminar : a*2\tb  c*1 ; 1 a*2",
        plain: b" 1 laminar : a b c ; 1 a*2",
        good: true,
        weights: &[2, 1, 1],
    },
    Row {
        line: b"1 uniform 1 : a*0",
        plain: b" 1 uniform 1 : a ",
        good: false,
        weights: &[],
    },
    Row {
        line: b"1 uniform 1 : a*",
        plain: b" 1 uniform 1 : a ",
        good: false,
        weights: &[],
    },
    Row {
        line: b"1 uniform 1 : a*1000000000000000",
        plain: b" 1 uniform 1 : a ",
        good: true,
        weights: &[1_000_000_000_000_000],
    },
    Row {
        line: b"1 uniform 1 : a*1000000000000001",
        plain: b" 1 uniform 1 : a ",
        good: false,
        weights: &[],
    },
    Row {
        line: b"1 uniform 1 : a*-1",
        plain: b" 1 uniform 1 : a ",
        good: false,
        weights: &[],
    },
    Row {
        line: b"1 uniform 1 : a*03",
        plain: b" 1 uniform 1 : a ",
        good: false,
        weights: &[],
    },
    Row {
        line: b"1 uniform 1 : a*2*3",
        plain: b"",
        good: true,
        weights: &[],
    },
    Row {
        line: b"1 uniform 1 : :*2",
        plain: b"",
        good: true,
        weights: &[],
    },
    Row {
        line: b"1 uniform 1 : a : b*2",
        plain: b"",
        good: true,
        weights: &[],
    },
    Row {
        line: b"1 uniform 1 : *3",
        plain: b" 1 uniform 1 : * ",
        good: true,
        weights: &[3],
    },
    Row {
        line: b"1 uniform 1 : *",
        plain: b" 1 uniform 1 : * ",
        good: false,
        weights: &[],
    },
    Row {
        line: b"1*2 uniform 1 : ",
        plain: b" 1*2 uniform 1 : ",
        good: true,
        weights: &[],
    },
    Row {
        line: b"1 uniform 1 a*2",
        plain: b"",
        good: true,
        weights: &[],
    },
];

fn has_plain(alloc: Global, row: &Row) -> bool {
    match without_weights(alloc, row.line) {
        Ok(Some(plain)) => plain.as_slice() == row.plain && are_weights(row.line) == row.good,
        Ok(None) => row.plain.is_empty(),
        Err(_) => false,
    }
}

fn has_weights(alloc: Global, row: &Row) -> bool {
    if row.plain.is_empty() || !row.good {
        return true;
    }
    match weights_of(alloc, row.line) {
        Ok(Some(weights)) => weights.as_slice() == row.weights,
        Ok(None) => row.weights.is_empty(),
        Err(_) => false,
    }
}

#[test]
fn lines_without_weights_are_those_worked_out(rt: HostRuntime) {
    for row in &ROWS {
        assert!(rt; has_plain(rt.alloc(), row));
        assert!(rt; has_weights(rt.alloc(), row));
    }
}
