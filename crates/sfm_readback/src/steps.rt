// The lines of a text, read one at a time: each call reads the next line where it is of its kind, and tells the
// number of that line where it is not.
ghost use Rattle.std.specs.Prelude.{◌≡◌, ℕ, ◌+◌, ◌<◌, ◌≤◌, ◌^◌, Bool, List, length, ℤ, IfOk, IfErr};
ghost use Rattle.sfm_spec.specs.Blocks.{Block as Generator};
ghost use Rattle.sfm_extreme.specs.Blocks.{block_of};
ghost use Rattle.sfm_cert.specs.{Answer.{at_line}, Spots.{spot_label}};
ghost use Rattle.sfm_readback.specs.{Lines.{IsValueLine, IsSetLine, IsBlockLine, IsSlopeLine, IsRowLine, IsBaseLine, ratio_of_head, Ratio}, Reading.{TakesSome, EndsStuck}};

use crate::cursor::Cursor;
use crate::head::Head;
use crate::lists::{block_of_line, head_of_line, labelled_into, row_of, set_of, value_of};
use crate::next::{expect, take_line};
use sfm_base::{Page, Set, Slope};
use sfm_cert::{AnswerEnd, Spot, put_at};
use sfm_extreme::Block;
use sfm_kind::Instance;
use std::alloc::Global;

/// The most bytes of the line that tells a slope: the word, the space, two numbers and what parts them.
const MOST_AT: usize = 68;

/// The number of a line of this word and a number.
///
/// # Errors
///
/// `BadLine` with the number of the next line, where it is no such line or no line feed follows.
pub fn read_value(text: &[u8], cursor: &mut Cursor, word: &[u8]) -> Result<i128, AnswerEnd>
    requires { cursor.old.at ≤ length text.now }
    ensures read { IfOk result (λ v. TakesSome text.now cursor.old cursor.new
        (λ line. IsValueLine word.now line v)) }
    ensures stuck { IfErr result (EndsStuck text.now cursor.old
        (λ line. (v : ℤ) × IsValueLine word.now line v)) }
{
    let end = AnswerEnd::BadLine { line: cursor.line };
    let Some(line) = take_line(text, cursor) else {
        return Err(end);
    };
    let Some(value) = value_of(line, word) else {
        return Err(end);
    };
    Ok(value)
}

/// The set of a line of this word and a list of names.
///
/// # Errors
///
/// `BadLine` with the number of the next line, where it is no such line or no line feed follows; `Memory` where there is
/// none.
pub fn read_set(
    alloc: Global,
    instance: &Instance,
    text: &[u8],
    cursor: &mut Cursor,
    word: &[u8],
) -> Result<Set, AnswerEnd>
    requires { cursor.old.at ≤ length text.now }
    ensures read { IfOk result (λ s. TakesSome text.now cursor.old cursor.new
        (λ line. IsSetLine word.now instance.now.names line s)) }
    ensures stuck { IfErr result (EndsStuck text.now cursor.old
        (λ line. (s : List Bool) × IsSetLine word.now instance.now.names line s)) }
{
    let end = AnswerEnd::BadLine { line: cursor.line };
    let Some(line) = take_line(text, cursor) else {
        return Err(end);
    };
    let Some(members) = set_of(alloc, instance, word, line)? else {
        return Err(end);
    };
    Ok(members)
}

/// The block of the block line behind so many others.
pub fn read_block(
    alloc: Global,
    instance: &Instance,
    text: &[u8],
    cursor: &mut Cursor,
    before: usize,
) -> Result<Block, AnswerEnd>
    requires within { cursor.old.at ≤ length text.now }
    requires few { before + 1 < 18446744073709551616 }
    ensures read { IfOk result (λ block. TakesSome text.now cursor.old cursor.new
        (λ line. IsBlockLine instance.now.names before line (block_of block))) }
    ensures stuck { IfErr result (EndsStuck text.now cursor.old
        (λ line. (block : Generator) × IsBlockLine instance.now.names before line block)) }
{
    let end = AnswerEnd::BadLine { line: cursor.line };
    let Some(line) = take_line(text, cursor) else {
        return Err(end);
    };
    let Some(block) = block_of_line(alloc, instance, before, line)? else {
        return Err(end);
    };
    Ok(block)
}

/// What a slope line says.
pub fn read_head(
    alloc: Global,
    instance: &Instance,
    text: &[u8],
    cursor: &mut Cursor,
) -> Result<Head, AnswerEnd>
    requires { cursor.old.at ≤ length text.now }
    ensures read { IfOk result (λ head. TakesSome text.now cursor.old cursor.new
        (λ line. IsSlopeLine instance.now.names line (ratio_of_head head) head.set)) }
    ensures stuck { IfErr result (EndsStuck text.now cursor.old
        (λ line. (r : Ratio) × (s : List Bool) × IsSlopeLine instance.now.names line r s)) }
{
    let end = AnswerEnd::BadLine { line: cursor.line };
    let Some(line) = take_line(text, cursor) else {
        return Err(end);
    };
    let Some(head) = head_of_line(alloc, instance, line)? else {
        return Err(end);
    };
    Ok(head)
}

/// The numbers of a line of this word and label, of which there are `width`.
///
/// # Errors
///
/// `BadLine` with the number of the next line, where it is no such line or no line feed follows; `Memory` where there is
/// none.
pub fn read_row(
    alloc: Global,
    text: &[u8],
    cursor: &mut Cursor,
    word: &[u8],
    label: &[u8],
    width: usize,
) -> Result<Vec<i128>, AnswerEnd>
    requires { cursor.old.at ≤ length text.now }
    ensures read { IfOk result (λ x. TakesSome text.now cursor.old cursor.new
        (λ line. IsRowLine word.now label.now width line x.items)) }
    ensures stuck { IfErr result (EndsStuck text.now cursor.old
        (λ line. (x : List ℤ) × IsRowLine word.now label.now width line x)) }
{
    let end = AnswerEnd::BadLine { line: cursor.line };
    let Some(line) = take_line(text, cursor) else {
        return Err(end);
    };
    let Some(numbers) = row_of(alloc, word, label, width, line)? else {
        return Err(end);
    };
    Ok(numbers)
}

/// The numbers of a line of this word and the label of a term, of which there are `width`.
///
/// # Errors
///
/// As `read_row`.
pub fn read_labelled(
    alloc: Global,
    text: &[u8],
    cursor: &mut Cursor,
    word: &[u8],
    spot: Spot,
    width: usize,
) -> Result<Vec<i128>, AnswerEnd>
    requires within { cursor.old.at ≤ length text.now }
    requires few { spot.before + 1 < 18446744073709551616 }
    ensures read { IfOk result (λ x. TakesSome text.now cursor.old cursor.new
        (λ line. IsRowLine word.now (spot_label spot) width line x.items)) }
    ensures stuck { IfErr result (EndsStuck text.now cursor.old
        (λ line. (x : List ℤ) × IsRowLine word.now (spot_label spot) width line x)) }
{
    let mut numbers = Vec::new(alloc);
    read_into(&mut numbers, text, cursor, word, spot, width)?;
    Ok(numbers)
}

/// Reads the numbers of a line of this word and the label of a term in place of those of a list, so that line after line is
/// read into one list. Behind an error nothing is known of that list.
fn read_into(
    numbers: &mut Vec<i128>,
    text: &[u8],
    cursor: &mut Cursor,
    word: &[u8],
    spot: Spot,
    width: usize,
) -> Result<(), AnswerEnd>
    requires within { cursor.old.at ≤ length text.now }
    requires few { spot.before + 1 < 18446744073709551616 }
    ensures read { IfOk result (λ _. TakesSome text.now cursor.old cursor.new
        (λ line. IsRowLine word.now (spot_label spot) width line numbers.new.items)) }
    ensures stuck { IfErr result (EndsStuck text.now cursor.old
        (λ line. (x : List ℤ) × IsRowLine word.now (spot_label spot) width line x)) }
{
    let end = AnswerEnd::BadLine { line: cursor.line };
    let Some(line) = take_line(text, cursor) else {
        return Err(end);
    };
    let Some(()) = labelled_into(numbers, word, spot, width, line)? else {
        return Err(end);
    };
    Ok(())
}

/// Reads the numbers of the line of the base of a term, of which there are `width`, in place of those of a list.
pub fn read_base(
    numbers: &mut Vec<i128>,
    text: &[u8],
    cursor: &mut Cursor,
    spot: Spot,
    width: usize,
) -> Result<(), AnswerEnd>
    requires within { cursor.old.at ≤ length text.now }
    requires few { spot.before + 1 < 18446744073709551616 }
    ensures read { IfOk result (λ _. TakesSome text.now cursor.old cursor.new
        (λ line. IsBaseLine (spot_label spot) width line numbers.new.items)) }
    ensures stuck { IfErr result (EndsStuck text.now cursor.old
        (λ line. (x : List ℤ) × IsBaseLine (spot_label spot) width line x)) }
{
    read_into(numbers, text, cursor, b"base ", spot, width)
}

/// Reads the line that tells a slope.
pub fn read_at(
    alloc: Global,
    text: &[u8],
    cursor: &mut Cursor,
    slope: &Slope,
) -> Result<(), AnswerEnd>
    requires { cursor.old.at ≤ length text.now }
    ensures read { IfOk result (λ _. TakesSome text.now cursor.old cursor.new
        (λ line. line ≡ at_line slope.now.num slope.now.den)) }
    ensures stuck { IfErr result (EndsStuck text.now cursor.old
        (λ line. line ≡ at_line slope.now.num slope.now.den)) }
{
    let mut due = Page::new(alloc);
    due.reserve(MOST_AT)?;
    put_at(&mut due, slope);
    expect(text, cursor, due.bytes())?;
    Ok(())
}
