// Reading a text: each line is of a kind that is known beforehand, so the first that is not read is the first bad one.
ghost use Rattle.std.specs.Prelude.{◌≡◌, ℕ, ◌≤◌, List, [], ◌++◌, length, ℤ, IfOk, IfErr};
ghost use Rattle.sfm_cert.specs.Solved.{form_of};
ghost use Rattle.sfm_readback.specs.{Reading.{EndsAtBy}, Slots.{FillsNext, Slot, row_slots}};
ghost use Rattle.sfm_meet.specs.Told.{met_of};
ghost use Rattle.sfm_met.specs.{MetSlots.{told_slots}, MetReading.{IsBadMetEnd, ReadsSide, ReadsTold, IsMetText}};

use sfm_base::{Numbers, Rows, Set};
use sfm_cert::{AnswerEnd, Spot};
use sfm_kind::Instance;
use sfm_law::Term;
use sfm_meet::{Bases, Met};
use sfm_readback::{Cursor, expect, read_labelled, read_row, read_set, read_value};
use std::alloc::Global;

/// A line of this word for each term of an instance.
fn read_side(
    alloc: Global,
    instance: &Instance,
    text: &[u8],
    cursor: &mut Cursor,
    word: &[u8],
) -> Result<Rows, AnswerEnd>
    requires { cursor.old.at ≤ length text.now }
    ensures read { IfOk result (λ rows. ReadsSide word.now (form_of instance.now) text.now
        cursor.old cursor.new rows) }
    ensures stopped { IfErr result (λ end. (names : List (List ℕ)) (more : List Slot)
        → EndsAtBy (FillsNext names) [] text.now cursor.old
        (row_slots word.now instance.now.lines 1 (form_of instance.now).widths ++ more) end) }
{
    let lines = instance.lines();
    let mut spot = Spot::first(lines);
    let mut rows = Rows::new(alloc);
    for term in instance.terms() {
        let width = term.elements().len();
        let numbers = read_labelled(alloc, text, cursor, word, spot, width)?;
        rows.push(&numbers)?;
        spot = spot.next(lines);
    }
    Ok(rows)
}

/// The first lines: the value, the set and the common vector.
fn read_told(
    alloc: Global,
    instance: &Instance,
    text: &[u8],
    cursor: &mut Cursor,
) -> Result<(i128, Set, Vec<i128>), AnswerEnd>
    requires { cursor.old.at ≤ length text.now }
    ensures read { IfOk result (λ r. ReadsTold instance.now.names text.now cursor.old cursor.new
        r.0 r.1 r.2.items) }
    ensures stopped { IfErr result (λ end. (more : List Slot)
        → EndsAtBy (FillsNext instance.now.names) [] text.now cursor.old
        (told_slots instance.now.names more) end) }
{
    expect(text, cursor, b"meet 1")?;
    let value = read_value(text, cursor, b"value ")?;
    let members = read_set(alloc, instance, text, cursor, b"set")?;
    let common = read_row(alloc, text, cursor, b"common", b"", instance.names_len())?;
    Ok((value, members, common))
}

/// What a text says, by the grammar that two instances ask for.
///
/// # Errors
///
/// `BadLine` with the first line that is not of the grammar at its place, where there is one; `Memory` where there is none.
pub fn read_met(
    alloc: Global,
    left: &Instance,
    right: &Instance,
    text: &[u8],
) -> Result<Met, AnswerEnd>
    ensures read { IfOk result (λ r. IsMetText (form_of left.now) (form_of right.now) text.now
        (met_of r)) }
    ensures refused { IfErr result (IsBadMetEnd (form_of left.now) (form_of right.now) text.now) }
{
    let _names = left.names_len();
    let mut cursor = Cursor { at: 0, line: 1 };
    let (value, members, common) = read_told(alloc, left, text, &mut cursor)?;
    let left_bases = read_side(alloc, left, text, &mut cursor, b"left ")?;
    let right_bases = read_side(alloc, right, text, &mut cursor, b"right ")?;
    expect(text, &mut cursor, b"end")?;
    if cursor.at < text.len() {
        return Err(AnswerEnd::BadLine { line: cursor.line });
    }
    Ok(Met {
        value,
        members,
        common: Numbers::from_vec(common),
        bases: Bases {
            left: left_bases,
            right: right_bases,
        },
    })
}
