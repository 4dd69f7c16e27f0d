// Small texts, each worked by hand against the grammar: a right text is read and written back the same, and a broken one is
// bad at its line.
ghost use Rattle.sfm_cert.specs.{Form.{IsFormed}, Solved.{answer_of, form_of}};

use sfm_cert::{AnswerEnd, Solved, answer_len, line_of_at, line_of_base, write_answer};
use sfm_kind::Instance;
use sfm_readback::read_answer;
use sfm_text::read_instance;
use std::alloc::Global;
use std::process::Abort;
use std::test::Fail;

const FIRST: &[u8] =
    b"answer 1\nminimum -1\nleast a b\ngreatest a b\nat 0/1\nbase 1 -3 2\nbase 2 3 -3\nend\n";

/// The elements a and b, with weights -3 and 2 and a cut of 4.
const INSTANCE: &[u8] = b"sfm 1\nground a b\nweight a:-3 b:2\ncut 4 a b\nend\n";

/// Whether an answer is written as that text.
fn is_written(alloc: Global, instance: &Instance, solved: &Solved, text: &[u8]) -> bool
    requires formed { IsFormed (form_of instance.now) (answer_of solved.now) }
{
    if solved.blocks.len() > 256 {
        return false;
    }
    if solved.breaks.len() > 256 {
        return false;
    }
    let is_as_long = answer_len(instance, solved) == text.len();
    match write_answer(alloc, instance, solved) {
        Ok(written) => is_as_long && written.as_slice() == text,
        Err(_) => false,
    }
}

/// Whether that is the first bad line, or 0 where the text is an answer and is written back the same.
fn is_row(alloc: Global, instance: &Instance, text: &[u8], line: usize) -> bool {
    match read_answer(alloc, instance, text) {
        Ok(solved) => line == 0 && is_written(alloc, instance, &solved, text),
        Err(AnswerEnd::BadLine { line: found }) => found == line,
        Err(AnswerEnd::Memory) => false,
    }
}

/// Texts, and the first bad line of each, or 0.
const TEXTS: &[(&[u8], usize)] = &[
    (FIRST, 0),
    (b"answer 1\nminimum -1\nleast  a\n", 3),
    (b"answer 1\nminimum -1\nleast b a\n", 3),
    (b"answer 1\nminimum -1\nleast a a\n", 3),
    (b"answer 1\nminimum -1\nleast z\n", 3),
    (
        b"answer 1\nminimum -1\nleast a b\ngreatest a b\nat 0/1\nbase 1 -3 2\nbase 2 3 -3\nend",
        8,
    ),
    (b"", 1),
    (b"answer 1\n", 2),
    (
        b"answer 1\nminimum -1\nleast a b\ngreatest a b\nat 0/1\nbase 1 -3 2\nbase 2 3 -3\nend\nend\n",
        9,
    ),
    (
        b"answer 1\nminimum 0\nleast\ngreatest\nat 0/1\nbase 1 0 0\nbase 2 1000000000000000000000000000000 -1000000000000000000000000000000\nend\n",
        0,
    ),
    // Bases at a slope that are far longer than those of the minimum.
    (
        b"answer 1\nminimum 0\nleast\ngreatest\nslope -1/1 a b\nat 0/1\nbase 1 0 0\nbase 2 0 0\nat -1/1\nbase 1 1000000000000000000000000000000 -1000000000000000000000000000000\nbase 2 1000000000000000000000000000000 -1000000000000000000000000000000\nend\n",
        0,
    ),
    (
        b"answer 1\nminimum 0\nleast\ngreatest\nat 0/1\nbase 1 0 0\nbase 2 1000000000000000000000000000001 0\nend\n",
        7,
    ),
    (
        b"answer 1\nminimum 0\nleast\ngreatest\nat 0/1\nbase 1 0 0\nbase 2 0 0 0\nend\n",
        7,
    ),
    (
        b"answer 1\nminimum 0\nleast\ngreatest b\nblock 1 b : 2\n",
        5,
    ),
    (
        b"answer 1\nminimum 0\nleast\ngreatest b\nblock 1 b : 1\n",
        5,
    ),
    (b"answer 1\nminimum 0\nleast\ngreatest b\nblock 1 :\n", 5),
    (b"answer 1\nminimum 0\nleast\ngreatest b\nblock 2 b :\n", 5),
    (
        b"answer 1\nminimum 0\nleast\ngreatest a b\nblock 1 b :\nblock 2 a : 1\nat 0/1\nbase 1 0 0\nbase 2 0 0\nend\n",
        0,
    ),
    (
        b"answer 1\nminimum 0\nleast\ngreatest\nslope 0/1 a\nat 0/1\nbase 1 0 0\nbase 2 0 0\nat 0/1\nbase 1 0 0\nbase 2 0 0\nend\n",
        0,
    ),
    (
        b"answer 1\nminimum 0\nleast\ngreatest\nslope 0/1 a\nat 0/1\nbase 1 0 0\nbase 2 0 0\nend\n",
        9,
    ),
    (b"answer 1\nminimum 0\nleast\ngreatest\nslope -2/4 a b\n", 5),
    (
        b"answer 1\nminimum 0\nleast\ngreatest\nslope 1/1000001 a b\n",
        5,
    ),
    (
        b"answer 1\nminimum 0\nleast\ngreatest\nslope 1/1000000\n",
        5,
    ),
    (
        b"answer 1\nminimum 0\nleast\ngreatest\nslope 0/1 a\nblock 1 b :\n",
        6,
    ),
];

/// Asserts the first bad line of each text.
fn has_lines(rt: &impl Abort, alloc: Global, instance: &Instance) {
    for number in 0..TEXTS.len() {
        let (text, line) = TEXTS[number];
        assert!(rt; is_row(alloc, instance, text, line), "row {number}");
    }
}

#[test]
fn texts(rt: HostRuntime) -> Result<(), Fail> {
    let instance = read_instance(rt.alloc(), INSTANCE)?;
    has_lines(&rt, rt.alloc(), &instance);
    Ok(())
}

#[test]
fn line_numbers(rt: HostRuntime) {
    assert!(rt; line_of_at(2, 1, 3, 0) == 8 && line_of_at(2, 1, 3, 1) == 12);
    assert!(rt; line_of_base(2, 1, 3, 1, 2) == 14);
}
