// Verdicts on right files and on wrong ones, each by the first reason against it.
use crate::cases::{VALID, check, is_met};
use std::alloc::Global;
use std::process::Abort;

const WEIGHT: &[u8] = b"sfm 1\nground a b\nweight a:-3 b:2\nend\n";

const CUT: &[u8] = b"sfm 1\nground a b\nweight a:-3 b:2\ncut 4 a b\nend\n";

const THREE: &[u8] = b"sfm 1\nground a b c\nweight a:1 b:1 c:-2\nend\n";

const NEED: &[u8] = b"sfm 1\nground a b\nneed a b\nend\n";

const RANK: &[u8] = b"sfm 1\nground a b\nweight a:-1 b:-3\nrank 2 uniform 1 : a b\nend\n";

const TRIANGLE: &[u8] =
    b"sfm 1\nground a b c\nweight a:-2 b:-2 c:-2\nrank 2 graphic : a=u-v b=v-w c=u-w\nend\n";

const LONE: &[u8] = b"sfm 1\nground a\nweight a:-1\nrank 5 graphic : a=u-u\nend\n";

const SHARED: &[u8] = b"sfm 1\nground a b\nweight a:-1 b:-3\nrank 2 transversal : a=t b=t\nend\n";

const OVER_A_WEIGHT: &str = "\
valid|:answer 1|minimum -3|least a|greatest a|slope -3/1 a|slope 2/1 a b|at 0/1|base 1 -3 2|at -3/1|base 1 -3 2|at 2/1|base 1 -3 2|end|
invalid 5 answer|:answer 1|minimum -3|least a|greatest a|slope -2/1 a|slope 2/1 a b|at 0/1|base 1 -3 2|at -2/1|base 1 -3 2|at 2/1|base 1 -3 2|end|
invalid 6 answer|:answer 1|minimum -3|least a|greatest a|slope -3/1 a|slope 3/1 a b|at 0/1|base 1 -3 2|at -3/1|base 1 -3 2|at 3/1|base 1 -3 2|end|
invalid 6 answer|:answer 1|minimum -3|least a|greatest a|slope -3/1 a|slope 2/1 b|at 0/1|base 1 -3 2|at -3/1|base 1 -3 2|at 2/1|base 1 -3 2|end|
invalid 5 grammar|:answer 1|minimum -3|least a|greatest a|slope -6/2 a|slope 2/1 a b|at 0/1|base 1 -3 2|at -3/1|base 1 -3 2|at 2/1|base 1 -3 2|end|
invalid 6 answer|:answer 1|minimum -3|least a|greatest a|slope -3/1 a|at 0/1|base 1 -3 2|at -3/1|base 1 -3 2|end|
invalid 9 grammar|:answer 1|minimum -3|least a|greatest a|slope -3/1 a|slope 2/1 a b|at 0/1|base 1 -3 2|at 2/1|base 1 -3 2|end|
invalid 5 answer|:answer 1|minimum -3|least a|greatest a|at 0/1|base 1 -3 2|end|
invalid 2 answer|:answer 1|minimum -2|least a|greatest a|at 0/1|base 1 -3 2|end|
invalid 6 base|:answer 1|minimum -3|least a|greatest a|at 0/1|base 1 -3 3|end|
invalid 6 base|:answer 1|minimum -2|least a|greatest a|at 0/1|base 1 -3 3|end|
invalid 3 grammar|:answer 1|minimum -3|least  a|greatest a|at 0/1|base 1 -3 2|end|
invalid 7 grammar|:answer 1|minimum -3|least a|greatest a|at 0/1|base 1 -3 2|end
invalid 2 grammar|:answer 1|
invalid 1 grammar|:";

const OVER_A_CUT: &str = "\
invalid 2 answer|:answer 1|minimum -2|least a b|greatest a b|slope -1/2 a b|at 0/1|base 1 -3 2|base 2 3 -3|at -1/2|base 1 -6 4|base 2 5 -5|end|
invalid 8 base|:answer 1|minimum -2|least a b|greatest a b|slope -1/2 a b|at 0/1|base 1 -3 2|base 2 5 -5|at -1/2|base 1 -6 4|base 2 5 -5|end|
invalid 6 unproved|:answer 1|minimum -1|least a b|greatest a b|slope -1/2 a b|at 0/1|base 1 -3 2|base 2 0 0|at -1/2|base 1 -6 4|base 2 5 -5|end|
invalid 5 answer|:answer 1|minimum -1|least a b|greatest a b|slope -1/3 a b|at 0/1|base 1 -3 2|base 2 3 -3|at -1/3|base 1 -9 6|base 2 7 -7|end|
invalid 5 grammar|:answer 1|minimum -1|least a b|greatest a b|slope -2/4 a b|at 0/1|base 1 -3 2|base 2 3 -3|at -1/2|base 1 -6 4|base 2 5 -5|end|
invalid 9 grammar|:answer 1|minimum -1|least a b|greatest a b|slope -1/2 a b|at 0/1|base 1 -3 2|base 2 3 -3|at -1/3|base 1 -6 4|base 2 5 -5|end|
invalid 9 unproved|:answer 1|minimum -1|least a b|greatest a b|slope -1/2 a b|at 0/1|base 1 -3 2|base 2 3 -3|at -1/2|base 1 -6 4|base 2 0 0|end|
invalid 11 base|:answer 1|minimum -1|least a b|greatest a b|slope -1/2 a b|at 0/1|base 1 -3 2|base 2 3 -3|at -1/2|base 1 -6 4|base 2 9 -9|end|
valid|:answer 1|minimum -1|least a b|greatest a b|slope -1/2 a b|at 0/1|base 1 -3 2|base 2 3 -3|at -1/2|base 1 -6 4|base 2 5 -5|end|
valid|:answer 1|minimum -1|least a b|greatest a b|slope -1/2 a b|at 0/1|base 1 -3 2|base 2 2 -2|at -1/2|base 1 -6 4|base 2 5 -5|end|
invalid 5 unproved|:answer 1|minimum -1|least a b|greatest a b|at 0/1|base 1 -3 2|base 2 0 0|end|
invalid 7 base|:answer 1|minimum -1|least a b|greatest a b|at 0/1|base 1 -3 2|base 2 5 -5|end|
invalid 3 answer|:answer 1|minimum -1|least a|greatest a b|at 0/1|base 1 -3 2|base 2 2 -2|end|
invalid 1 grammar|:answer 1\r|minimum -1|least a b|greatest a b|at 0/1|base 1 -3 2|base 2 2 -2|end|
invalid 8 base|:answer 1|minimum -1|least a b|greatest a b|slope -1/2 a b|at 0/1|base 1 -3 2|base 2 1000000000000000000000000000000 -1000000000000000000000000000000|at -1/2|base 1 -6 4|base 2 5 -5|end|
invalid 8 grammar|:answer 1|minimum -1|least a b|greatest a b|slope -1/2 a b|at 0/1|base 1 -3 2|base 2 1000000000000000000000000000001 -1000000000000000000000000000001|at -1/2|base 1 -6 4|base 2 5 -5|end|
invalid 8 base|:answer 1|minimum -1|least a b|greatest a b|slope -1/2 a b|at 0/1|base 1 -3 2|base 2 -1 1|at -1/2|base 1 -6 4|base 2 5 -5|end|
invalid 9 unproved|:answer 1|minimum -1|least a b|greatest a b|slope -1/2 a b|at 0/1|base 1 -3 2|base 2 3 -3|at -1/2|base 1 -6 4|base 2 6 -6|end|
invalid 2 answer|:answer 1|minimum -1000000000000000000000000000000|least a b|greatest a b|slope -1/2 a b|at 0/1|base 1 -3 2|base 2 3 -3|at -1/2|base 1 -6 4|base 2 5 -5|end|
invalid 3 grammar|:answer 1|minimum -1|least b a|greatest a b|slope -1/2 a b|at 0/1|base 1 -3 2|base 2 3 -3|at -1/2|base 1 -6 4|base 2 5 -5|end|
invalid 3 grammar|:answer 1|minimum -1|least a a|greatest a b|slope -1/2 a b|at 0/1|base 1 -3 2|base 2 3 -3|at -1/2|base 1 -6 4|base 2 5 -5|end|
invalid 3 grammar|:answer 1|minimum -1|least z|greatest a b|slope -1/2 a b|at 0/1|base 1 -3 2|base 2 3 -3|at -1/2|base 1 -6 4|base 2 5 -5|end|
invalid 5 grammar|:answer 1|minimum -1|least a b|greatest a b|slope -1/1000001 a b|at 0/1|base 1 -3 2|base 2 3 -3|at -1/2|base 1 -6 4|base 2 5 -5|end|
invalid 9 grammar|:answer 1|minimum -1|least a b|greatest a b|slope -1/1000000 a b|at 0/1|base 1 -3 2|base 2 3 -3|at -1/2|base 1 -6 4|base 2 5 -5|end|
invalid 13 grammar|:answer 1|minimum -1|least a b|greatest a b|slope -1/2 a b|at 0/1|base 1 -3 2|base 2 3 -3|at -1/2|base 1 -6 4|base 2 5 -5|end|end|
invalid 2 grammar|:answer 1|
invalid 1 grammar|:";

const OVER_BLOCKS: &str = "\
valid|:answer 1|minimum 0|least|greatest a b|block 1 b :|block 2 a : 1|slope 0/1 a b|at 0/1|base 1 0 0|at 0/1|base 1 0 0|end|
invalid 5 answer|:answer 1|minimum 0|least|greatest a b|block 1 a :|block 2 b : 1|slope 0/1 a b|at 0/1|base 1 0 0|at 0/1|base 1 0 0|end|
invalid 5 answer|:answer 1|minimum 0|least|greatest a b|slope 0/1 a b|at 0/1|base 1 0 0|at 0/1|base 1 0 0|end|
invalid 6 answer|:answer 1|minimum 0|least|greatest a b|block 1 b :|block 2 a :|at 0/1|base 1 0 0|end|
invalid 6 grammar|:answer 1|minimum 0|least|greatest a b|block 1 b :|block 2 a : 2|at 0/1|base 1 0 0|end|
invalid 5 answer|:answer 1|minimum 0|least|greatest a b|block 1 a :|block 2 b : 1|at 0/1|base 1 0 0|end|
invalid 5 grammar|:answer 1|minimum 0|least|greatest a b|block 1 b : 2|block 2 a :|at 0/1|base 1 0 0|end|
invalid 6 answer|:answer 1|minimum 0|least|greatest a b|block 1 b :|at 0/1|base 1 0 0|end|
invalid 5 grammar|:answer 1|minimum 0|least|greatest a b|block 1 b : 2|block 2 a : 1|slope 0/1 a b|at 0/1|base 1 0 0|at 0/1|base 1 0 0|end|";

const OVER_THREE: &str = "\
valid|:answer 1|minimum -2|least c|greatest c|slope -2/1 c|slope 1/1 a b c|at 0/1|base 1 1 1 -2|at -2/1|base 1 1 1 -2|at 1/1|base 1 1 1 -2|end|
invalid 2 answer|:answer 1|minimum -1|least c|greatest c|slope -2/1 c|slope 1/1 a b c|at 0/1|base 1 1 1 -2|at -2/1|base 1 1 1 -2|at 1/1|base 1 1 1 -2|end|
invalid 3 answer|:answer 1|minimum -2|least|greatest c|slope -2/1 c|slope 1/1 a b c|at 0/1|base 1 1 1 -2|at -2/1|base 1 1 1 -2|at 1/1|base 1 1 1 -2|end|
invalid 4 answer|:answer 1|minimum -2|least c|greatest a c|slope -2/1 c|slope 1/1 a b c|at 0/1|base 1 1 1 -2|at -2/1|base 1 1 1 -2|at 1/1|base 1 1 1 -2|end|
invalid 5 answer|:answer 1|minimum -2|least c|greatest c|block 1 a :|slope -2/1 c|slope 1/1 a b c|at 0/1|base 1 1 1 -2|at -2/1|base 1 1 1 -2|at 1/1|base 1 1 1 -2|end|
invalid 5 answer|:answer 1|minimum -2|least c|greatest c|slope -2/1 b c|slope 1/1 a b c|at 0/1|base 1 1 1 -2|at -2/1|base 1 1 1 -2|at 1/1|base 1 1 1 -2|end|
invalid 6 answer|:answer 1|minimum -2|least c|greatest c|slope -2/1 c|at 0/1|base 1 1 1 -2|at -2/1|base 1 1 1 -2|end|
invalid 9 grammar|:answer 1|minimum -2|least c|greatest c|slope -2/1 c|slope 1/1 a b c|at 0/1|base 1 1 1 -2|at 1/1|base 1 1 1 -2|at -2/1|base 1 1 1 -2|end|
invalid 5 answer|:answer 1|minimum -2|least c|greatest c|slope 1/1 a b c|slope -2/1 c|at 0/1|base 1 1 1 -2|at 1/1|base 1 1 1 -2|at -2/1|base 1 1 1 -2|end|
invalid 6 answer|:answer 1|minimum -2|least c|greatest c|slope -2/1 c|slope 0/1 c|slope 1/1 a b c|at 0/1|base 1 1 1 -2|at -2/1|base 1 1 1 -2|at 0/1|base 1 1 1 -2|at 1/1|base 1 1 1 -2|end|";

const MIXED: &[u8] =
    b"sfm 1\nground a b c d\nneed a b\nweight a:-3 b:1 c:-1 d:5\ncover 1 c d\nend\n";

const OVER_CONDITIONS: &str = "\
valid|:answer 1|minimum -2|least a b|greatest a b c|block 1 c :|slope -1/1 a b|slope 0/1 a b c|slope 5/1 a b c d|at 0/1|base 1 1 -1|base 2 -3 1 -1 5|base 3 1 0|at -1/1|base 1 2 -2|base 2 -3 1 -1 5|base 3 1 0|at 0/1|base 1 1 -1|base 2 -3 1 -1 5|base 3 1 0|at 5/1|base 1 0 0|base 2 -3 1 -1 5|base 3 1 0|end|
invalid 3 answer|:answer 1|minimum -2|least a b c|greatest a b c|slope -1/1 a b|slope 0/1 a b c|slope 5/1 a b c d|at 0/1|base 1 1 -1|base 2 -3 1 -1 5|base 3 1 0|at -1/1|base 1 2 -2|base 2 -3 1 -1 5|base 3 1 0|at 0/1|base 1 1 -1|base 2 -3 1 -1 5|base 3 1 0|at 5/1|base 1 0 0|base 2 -3 1 -1 5|base 3 1 0|end|
invalid 9 unproved|:answer 1|minimum -2|least a b|greatest a b c|block 1 c :|slope -1/1 a b|slope 0/1 a b c|slope 5/1 a b c d|at 0/1|base 1 0 0|base 2 -3 1 -1 5|base 3 1 0|at -1/1|base 1 2 -2|base 2 -3 1 -1 5|base 3 1 0|at 0/1|base 1 1 -1|base 2 -3 1 -1 5|base 3 1 0|at 5/1|base 1 0 0|base 2 -3 1 -1 5|base 3 1 0|end|";

const FREE: &[u8] = b"sfm 1\nground a b\nend\n";

const OVER_FREE_PLACES: &str = "\
valid|:answer 1|minimum 0|least|greatest a b|block 1 a :|block 2 b :|slope 0/1 a b|at 0/1|at 0/1|end|";

const EMPTY: &[u8] = b"sfm 1\nground\nend\n";

const OVER_NO_PLACES: &str = "\
valid|:answer 1|minimum 0|least|greatest|at 0/1|end|";

const OVER_A_RANK: &str = "\
valid|:answer 1|minimum -2|least a b|greatest a b|slope -1/1 a b|at 0/1|base 1 -1 -3|base 2 1 1|at -1/1|base 1 -1 -3|base 2 0 2|end|
valid|:answer 1|minimum -2|least a b|greatest a b|slope -1/1 a b|at 0/1|base 1 -1 -3|base 2 0 2|at -1/1|base 1 -1 -3|base 2 0 2|end|
invalid 8 base|:answer 1|minimum -2|least a b|greatest a b|slope -1/1 a b|at 0/1|base 1 -1 -3|base 2 -1 3|at -1/1|base 1 -1 -3|base 2 0 2|end|
invalid 6 unproved|:answer 1|minimum -2|least a b|greatest a b|slope -1/1 a b|at 0/1|base 1 -1 -3|base 2 2 0|at -1/1|base 1 -1 -3|base 2 0 2|end|";

const OVER_A_TRIANGLE: &str = "\
valid|:answer 1|minimum -2|least a b c|greatest a b c|slope -2/3 a b c|at 0/1|base 1 -2 -2 -2|base 2 2 1 1|at -2/3|base 1 -6 -6 -6|base 2 4 4 4|end|
invalid 9 unproved|:answer 1|minimum -2|least a b c|greatest a b c|slope -2/3 a b c|at 0/1|base 1 -2 -2 -2|base 2 2 1 1|at -2/3|base 1 -6 -6 -6|base 2 6 3 3|end|
invalid 11 base|:answer 1|minimum -2|least a b c|greatest a b c|slope -2/3 a b c|at 0/1|base 1 -2 -2 -2|base 2 2 1 1|at -2/3|base 1 -6 -6 -6|base 2 6 3 4|end|
invalid 10 base|:answer 1|minimum -2|least a b c|greatest a b c|slope -2/3 a b c|at 0/1|base 1 -2 -2 -2|base 2 2 1 1|at -2/3|base 1 -6 -6 -5|base 2 6 3 3|end|
invalid 10 base|:answer 1|minimum -2|least a b c|greatest a b c|slope -2/3 a b c|at 0/1|base 1 -2 -2 -2|base 2 2 1 1|at -2/3|base 1 -2 -2 -2|base 2 4 4 4|end|
invalid 8 base|:answer 1|minimum -2|least a b c|greatest a b c|slope -2/3 a b c|at 0/1|base 1 -2 -2 -2|base 2 2 1 2|at -2/3|base 1 -6 -6 -6|base 2 6 3 6|end|";

const OVER_A_LOOP: &str = "\
invalid 8 base|:answer 1|minimum -1|least a|greatest a|slope -1/1 a|at 0/1|base 1 -1|base 2 1|at -1/1|base 1 -1|base 2 0|end|";

const OVER_SLOTS: &str = "\
valid|:answer 1|minimum -2|least a b|greatest a b|slope -1/1 a b|at 0/1|base 1 -1 -3|base 2 1 1|at -1/1|base 1 -1 -3|base 2 0 2|end|
invalid 8 base|:answer 1|minimum -2|least a b|greatest a b|slope -1/1 a b|at 0/1|base 1 -1 -3|base 2 -1 3|at -1/1|base 1 -1 -3|base 2 0 2|end|";

/// Instances, with a table of verdicts on answers. A row has the line that is written, and behind a colon the answer; in both `|`
/// is a line feed.
const CHECKS: [(&[u8], &str); 11] = [
    (WEIGHT, OVER_A_WEIGHT),
    (CUT, OVER_A_CUT),
    (NEED, OVER_BLOCKS),
    (THREE, OVER_THREE),
    (MIXED, OVER_CONDITIONS),
    (FREE, OVER_FREE_PLACES),
    (EMPTY, OVER_NO_PLACES),
    (RANK, OVER_A_RANK),
    (TRIANGLE, OVER_A_TRIANGLE),
    (LONE, OVER_A_LOOP),
    (SHARED, OVER_SLOTS),
];

/// The code where that line is written.
fn code_of(line: &str) -> u8 {
    if line.as_bytes() == VALID { 0 } else { 1 }
}

/// Whether a row holds over an instance.
fn is_row(alloc: Global, instance: &[u8], row: &str) -> bool {
    let Ok(text) = row.replace(alloc, "|", "\n") else {
        return false;
    };
    let (line, answer) = text.as_str().split_once(':').unwrap_or(("", ""));
    let code = code_of(line);
    is_met(
        alloc,
        &check(instance, answer.as_bytes(), code, line.as_bytes()),
    )
}

/// Asserts that the rows of a table hold over an instance.
fn has_verdicts(rt: &impl Abort, alloc: Global, instance: &[u8], table: &str) {
    for row in table.lines() {
        assert!(rt; is_row(alloc, instance, row), "{row}");
    }
}

#[test]
fn verdicts(rt: HostRuntime) {
    for (instance, table) in &CHECKS {
        has_verdicts(&rt, rt.alloc(), instance, table);
    }
}
