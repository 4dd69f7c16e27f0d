// Reading an answer text: its lines are read one kind after another, and each kind of line begins in its own way, so the first
// line that is not read is the first bad one. What stands behind the first line does not depend on it, so the parts behind it
// are read as those of the form with `answer 1`.
ghost use Rattle.std.specs.Prelude.{◌≡◌, ◌≢◌, ℕ, ◌≤◌, List, [], codes, length, map, slice_index, IfOk, IfErr};
ghost use Rattle.sfm_extreme.specs.Blocks.{block_of};
ghost use Rattle.sfm_cert.specs.{Header.{header_text}, Solved.{answer_of, break_of, form_of, form_with, IsBadLineEnd}, LineLists.{IsAnswerText}};
ghost use Rattle.sfm_readback.specs.{Lines.{Ratio, ratio_of}, Lists.{break_of_head}, Parts.{ReadsBlocks, ReadsHeads, ReadsRows, ReadsBreaks, AreBreaksOf, AreHeads, ReadsFirst}, Reading.{header as header_due, listing, bases, EndsAt}};

use crate::cursor::Cursor;
use crate::head::Head;
use crate::next::{begins, expect};
use crate::steps::{read_at, read_base, read_block, read_head, read_set, read_value};
use sfm_base::{Rows, Set};
use sfm_cert::{AnswerEnd, Header, Solved, Spot};
use sfm_extreme::Block;
use sfm_kind::Instance;
use sfm_law::{Break, Term};
use std::alloc::Global;

/// The greatest length of an answer text.
pub const ANSWER_LIMIT: usize = 268_435_456;

/// The block lines: of the lines that may stand here only they begin with `b`.
fn read_blocks(
    alloc: Global,
    instance: &Instance,
    text: &[u8],
    cursor: &mut Cursor,
) -> Result<Vec<Block>, AnswerEnd>
    requires { cursor.old.at ≤ length text.now }
    ensures read { IfOk result (λ blocks. ReadsBlocks (form_of instance.now) text.now cursor.old
        cursor.new (map block_of blocks.items)) }
    ensures next { IfOk result (λ _. slice_index text.now cursor.new.at ≢ 98) }
    ensures stopped { IfErr result (EndsAt (form_of instance.now) text.now cursor.old
        (listing 0 [])) }
{
    let mut blocks = Vec::new(alloc);
    while begins(text, cursor, b'b') {
        let block = read_block(alloc, instance, text, cursor, blocks.len())?;
        blocks.push(block)?;
    }
    Ok(blocks)
}

/// The slope lines: of the lines that may stand here only they begin with `s`.
fn read_heads(
    alloc: Global,
    instance: &Instance,
    text: &[u8],
    cursor: &mut Cursor,
) -> Result<Vec<Head>, AnswerEnd>
    requires { cursor.old.at ≤ length text.now }
    ensures read { IfOk result (λ heads. ReadsHeads (form_of instance.now) text.now cursor.old
        cursor.new (map break_of_head heads.items)) }
    ensures next { IfOk result (λ _. slice_index text.now cursor.new.at ≢ 115) }
    ensures stopped { IfErr result (λ end. (k : ℕ) → EndsAt
        (form_of instance.now) text.now cursor.old (listing k []) end) }
{
    let mut heads = Vec::new(alloc);
    while begins(text, cursor, b's') {
        let head = read_head(alloc, instance, text, cursor)?;
        heads.push(head)?;
    }
    Ok(heads)
}

/// A base line for each term. All lines are read into one list, from which the rows are copied.
fn read_rows(
    alloc: Global,
    instance: &Instance,
    text: &[u8],
    cursor: &mut Cursor,
) -> Result<Rows, AnswerEnd>
    requires { cursor.old.at ≤ length text.now }
    ensures read { IfOk result (λ rows. ReadsRows (form_of instance.now) text.now cursor.old
        cursor.new rows) }
    ensures stopped { IfErr result (λ end. (due : List Ratio)
        → EndsAt (form_of instance.now) text.now cursor.old
        (bases 1 (form_of instance.now).widths due) end) }
{
    let lines = instance.lines();
    let mut spot = Spot::first(lines);
    let mut rows = Rows::new(alloc);
    let mut numbers = Vec::new(alloc);
    for term in instance.terms() {
        read_base(&mut numbers, text, cursor, spot, term.elements().len())?;
        rows.push(&numbers)?;
        spot = spot.next(lines);
    }
    Ok(rows)
}

/// For each slope line its section: the line that tells the slope, and the bases.
fn read_breaks(
    alloc: Global,
    instance: &Instance,
    text: &[u8],
    cursor: &mut Cursor,
    heads: &[Head],
) -> Result<Vec<Break>, AnswerEnd>
    requires within { cursor.old.at ≤ length text.now }
    requires heads { AreHeads (form_of instance.now) (map break_of_head heads.now) }
    ensures read { IfOk result (λ breaks. ReadsBreaks (form_of instance.now) text.now cursor.old
        cursor.new (map break_of_head heads.now) [] (map break_of breaks.items)) }
    ensures same { IfOk result (λ breaks. AreBreaksOf (form_of instance.now)
        (map break_of_head heads.now) (map break_of breaks.items)) }
    ensures stopped { IfErr result (λ end. (i : ℕ) → EndsAt
        (form_of instance.now) text.now cursor.old
        (bases i [] (map ratio_of (map break_of_head heads.now))) end) }
{
    let mut breaks = Vec::new(alloc);
    for head in heads {
        read_at(alloc, text, cursor, &head.slope)?;
        let bases = read_rows(alloc, instance, text, cursor)?;
        let set = head.set.copy(alloc)?;
        breaks.push(Break {
            slope: head.slope,
            set,
            bases,
        })?;
    }
    Ok(breaks)
}

/// The first four lines: the minimum, the least and the greatest minimiser.
fn read_first(
    alloc: Global,
    header: Header,
    instance: &Instance,
    text: &[u8],
    cursor: &mut Cursor,
) -> Result<(i128, Set, Set), AnswerEnd>
    requires { cursor.old.at ≤ length text.now }
    ensures read { IfOk result (λ r. ReadsFirst (form_with (header_text header) instance.now)
        text.now cursor.old cursor.new r.0 r.1 r.2) }
    ensures stopped { IfErr result (EndsAt (form_with (header_text header) instance.now) text.now
        cursor.old header_due) }
{
    expect(text, cursor, header.text())?;
    let value = read_value(text, cursor, b"minimum ")?;
    let least = read_set(alloc, instance, text, cursor, b"least")?;
    let greatest = read_set(alloc, instance, text, cursor, b"greatest")?;
    Ok((value, least, greatest))
}

/// What a text with that first line says, by the grammar that the instance's names and terms ask for.
///
/// # Errors
///
/// `BadLine` with the first line that is not of the grammar at its place, where there is one; `Memory` where there is none.
pub fn read_with(
    alloc: Global,
    header: Header,
    instance: &Instance,
    text: &[u8],
) -> Result<Solved, AnswerEnd>
    ensures read { IfOk result (λ solved. IsAnswerText (form_with (header_text header) instance.now)
        text.now (answer_of solved)) }
    ensures refused { IfErr result (IsBadLineEnd (form_with (header_text header) instance.now)
        text.now) }
{
    let _names = instance.names_len();
    let mut cursor = Cursor { at: 0, line: 1 };
    let (value, least, greatest) = read_first(alloc, header, instance, text, &mut cursor)?;
    let blocks = read_blocks(alloc, instance, text, &mut cursor)?;
    let heads = read_heads(alloc, instance, text, &mut cursor)?;
    expect(text, &mut cursor, b"at 0/1")?;
    let bases = read_rows(alloc, instance, text, &mut cursor)?;
    let breaks = read_breaks(alloc, instance, text, &mut cursor, &heads)?;
    expect(text, &mut cursor, b"end")?;
    if cursor.at < text.len() {
        return Err(AnswerEnd::BadLine { line: cursor.line });
    }
    Ok(Solved {
        value,
        least,
        greatest,
        blocks,
        bases,
        breaks,
    })
}

/// What a text says, where each element counts one.
///
/// # Errors
///
/// As `read_with`.
pub fn read_answer(alloc: Global, instance: &Instance, text: &[u8]) -> Result<Solved, AnswerEnd>
    ensures read { IfOk result (λ solved. IsAnswerText (form_of instance.now) text.now
        (answer_of solved)) }
    ensures refused { IfErr result (IsBadLineEnd (form_of instance.now) text.now) }
{
    read_with(alloc, Header::Answer, instance, text)
}

/// What a text says, where each element counts its size. The grammar does not look at sizes.
///
/// # Errors
///
/// As `read_with`.
pub fn read_weighed(
    alloc: Global,
    instance: &Instance,
    _sizes: &[i128],
    text: &[u8],
) -> Result<Solved, AnswerEnd>
    ensures read { IfOk result (λ solved. IsAnswerText (form_with (codes "weighed 1") instance.now)
        text.now (answer_of solved)) }
    ensures refused { IfErr result (IsBadLineEnd (form_with (codes "weighed 1") instance.now)
        text.now) }
{
    read_with(alloc, Header::Weighed, instance, text)
}
