// What is due for texts, made whole: the texts are read one after the other, as the program reads its files.
ghost use Rattle.std.specs.Prelude.{◌≡◌, ℕ, List, length, codes, IfOk};
ghost use Rattle.sfm_text.specs.{GoodText.{IsTextOf}, Numbered.{AreNumbersOf}};
ghost use Rattle.sfm_ask.specs.Pinned.{IsAnswered};
ghost use Rattle.sfm_sizes.specs.Sizes.{AreElementSizes};
ghost use Rattle.sfm_due.specs.{Due.{IsJudged, IsJudgedBy, IsSolved}, Level.{IsLevelFault}, Meanings.{meanings_of, question_of}, Owing.{IsMade, IsJudgedBySizes, IsWeighed, IsLevelled, IsSmallEnough}};
ghost use Rattle.sfm_cert.specs.Header.{header_text};
ghost use Rattle.sfm_c.specs.{Calls.{IsDone, IsDueForEdits, IsDueForPins, IsDueForSizes, IsDueToAsk, IsDueToCheck, IsDueToCheckWeighed, IsDueToEdit, IsDueToLevel, IsDueToSolve, IsDueToWeigh}, Making.{GoesOut, IsRefusalDue}};

use crate::SfmText;
use sfm_base::Memory;
use sfm_cert::Header;
use sfm_check::judge_with;
use sfm_due::{
    Due, due_for_verdict, due_to_ask, due_to_level, due_to_solve, due_to_weigh, refuse, too_large,
};
use sfm_edit::apply;
use sfm_kind::Instance;
use sfm_side::{read_pins, read_sizes};
use sfm_sizes::ones;
use sfm_text::{Numbered, Reason, TextEnd, read_instance, read_numbered};
use std::alloc::Global;

/// Lets what is due go out, in memory of its own, and gives its code; where memory ran out, no byte goes out, and the code
/// is 5.
pub(crate) fn give(due: Result<Due, Memory>, out: &mut SfmText) -> u32
    ensures { GoesOut due out.new.bytes.now result }
{
    match due {
        Ok(due) => {
            let code = due.status.code();
            out.bytes = due.text.leak();
            u32::from(code)
        }
        Err(_) => {
            out.bytes = b"";
            5
        }
    }
}

/// What is due for a text that is not good, which that word refuses.
pub(crate) fn due_for_end(alloc: Global, word: &[u8], end: TextEnd) -> Result<Due, Memory>
    ensures { IfOk result (IsRefusalDue word.now end) }
{
    match end {
        TextEnd::Refused { line, reason } => Ok(refuse(alloc, word, line, reason)?),
        TextEnd::Memory => Err(Memory),
    }
}

/// What is due to solve the instance of a text.
pub(crate) fn make_solve(alloc: Global, text: &[u8]) -> Result<Due, Memory>
    ensures { IfOk result (IsMade (IsDueToSolve text.now)) }
{
    match read_instance(alloc, text) {
        Ok(instance) => due_to_solve(alloc, &instance),
        Err(end) => due_for_end(alloc, b"refused", end),
    }
}

/// What is due to check an answer, which is to have that first line, against an instance where each element has its size.
fn judged(
    alloc: Global,
    header: Header,
    instance: &Instance,
    sizes: &[i128],
    answer: &[u8],
) -> Result<Due, Memory>
    requires { AreElementSizes (length instance.now.names) sizes.now }
    ensures { IfOk result (IsMade (IsJudgedBy (header_text header) sizes.now
        (question_of instance.now) answer.now)) }
{
    let verdict = judge_with(alloc, header, instance, sizes, answer)?;
    Ok(due_for_verdict(alloc, verdict)?)
}

/// The same where each element counts one.
fn judged_by_ones(alloc: Global, instance: &Instance, answer: &[u8]) -> Result<Due, Memory>
    ensures { IfOk result (IsMade (IsJudged (question_of instance.now) answer.now)) }
{
    let _terms = instance.terms();
    let sizes = ones(alloc, instance.names_len())?;
    judged(alloc, Header::Answer, instance, &sizes, answer)
}

/// What is due to check an answer against the instance of a text.
pub(crate) fn make_check(alloc: Global, text: &[u8], answer: &[u8]) -> Result<Due, Memory>
    ensures { IfOk result (IsMade (IsDueToCheck text.now answer.now)) }
{
    match read_instance(alloc, text) {
        Ok(instance) => judged_by_ones(alloc, &instance, answer),
        Err(end) => due_for_end(alloc, b"refused", end),
    }
}

/// What is due to find the slopes of an instance by the sizes of a text.
fn weigh_by(alloc: Global, instance: &Instance, sizes: &[u8]) -> Result<Due, Memory>
    ensures { IfOk result (IsMade (IsDueForSizes (question_of instance.now) sizes.now
        (λ by. IsDone (IsWeighed (question_of instance.now) by)))) }
{
    match read_sizes(alloc, instance, sizes) {
        Ok(by) => due_to_weigh(alloc, instance, &by),
        Err(end) => due_for_end(alloc, b"sizes", end),
    }
}

/// What is due to find the slopes of the instance of a text by the sizes of a second one.
pub(crate) fn make_weigh(alloc: Global, text: &[u8], sizes: &[u8]) -> Result<Due, Memory>
    ensures { IfOk result (IsMade (IsDueToWeigh text.now sizes.now)) }
{
    match read_instance(alloc, text) {
        Ok(instance) => weigh_by(alloc, &instance, sizes),
        Err(end) => due_for_end(alloc, b"refused", end),
    }
}

/// What is due to check an answer against an instance by the sizes of a text.
fn check_by(alloc: Global, instance: &Instance, sizes: &[u8], answer: &[u8]) -> Result<Due, Memory>
    ensures { IfOk result (IsMade (IsDueForSizes (question_of instance.now) sizes.now
        (λ by. IsJudgedBySizes (question_of instance.now) by answer.now))) }
{
    match read_sizes(alloc, instance, sizes) {
        Ok(by) => judged(alloc, Header::Weighed, instance, &by, answer),
        Err(end) => due_for_end(alloc, b"sizes", end),
    }
}

/// What is due to check an answer against the instance of a text by the sizes of a second one.
pub(crate) fn make_weighed(
    alloc: Global,
    text: &[u8],
    sizes: &[u8],
    answer: &[u8],
) -> Result<Due, Memory>
    ensures { IfOk result (IsMade (IsDueToCheckWeighed text.now sizes.now answer.now)) }
{
    match read_instance(alloc, text) {
        Ok(instance) => check_by(alloc, &instance, sizes, answer),
        Err(end) => due_for_end(alloc, b"refused", end),
    }
}

/// What is due to find the best set of an instance with the pins of a text.
fn ask_by(alloc: Global, instance: &Instance, pins: &[u8]) -> Result<Due, Memory>
    ensures { IfOk result (IsMade (IsDueForPins (question_of instance.now) pins.now
        (λ p. IsDone (IsAnswered instance.now.names (meanings_of instance.now.terms) p)))) }
{
    match read_pins(alloc, instance, pins) {
        Ok(pinned) => due_to_ask(alloc, instance, &pinned),
        Err(end) => due_for_end(alloc, b"pins", end),
    }
}

/// What is due to find the best set of the instance of a text with the pins of a second one.
pub(crate) fn make_ask(alloc: Global, text: &[u8], pins: &[u8]) -> Result<Due, Memory>
    ensures { IfOk result (IsMade (IsDueToAsk text.now pins.now)) }
{
    match read_instance(alloc, text) {
        Ok(instance) => ask_by(alloc, &instance, pins),
        Err(end) => due_for_end(alloc, b"refused", end),
    }
}

/// What is due to find the most level base of an instance with the numbers of its lines.
fn level_of(alloc: Global, numbered: &Numbered) -> Result<Due, Memory>
    requires { length numbered.now.term_lines.items ≡ length numbered.now.instance.terms }
    ensures { (text : List ℕ)
        → IsTextOf text numbered.now.instance
        → AreNumbersOf text numbered.now.ground_line
        numbered.now.instance.lines numbered.now.term_lines.items
        → IfOk result (IsMade (IsDueToLevel text)) }
{
    match too_large(&numbered.instance, &numbered.term_lines) {
        Some(line) => Ok(refuse(alloc, b"refused", line, Reason::Total)?),
        None => due_to_level(alloc, &numbered.instance),
    }
}

/// What is due to find the most level base of the instance of a text.
pub(crate) fn make_level(alloc: Global, text: &[u8]) -> Result<Due, Memory>
    ensures { IfOk result (IsMade (IsDueToLevel text.now)) }
{
    match read_numbered(alloc, text) {
        Ok(numbered) => level_of(alloc, &numbered),
        Err(end) => due_for_end(alloc, b"refused", end),
    }
}

/// What is due to solve the instance that the edits of a text lead to.
fn edit_by(alloc: Global, instance: Instance, edits: &[u8]) -> Result<Due, Memory>
    ensures { IfOk result (IsMade (IsDueForEdits (question_of instance) edits.now
        (λ edited. IsDone (IsSolved edited)))) }
{
    match apply(alloc, instance, edits) {
        Ok(edited) => due_to_solve(alloc, &edited.instance),
        Err(end) => due_for_end(alloc, b"edits", end),
    }
}

/// What is due to solve the instance that the edits of a second text lead to from that of a first.
pub(crate) fn make_edit(alloc: Global, text: &[u8], edits: &[u8]) -> Result<Due, Memory>
    ensures { IfOk result (IsMade (IsDueToEdit text.now edits.now)) }
{
    match read_instance(alloc, text) {
        Ok(instance) => edit_by(alloc, instance, edits),
        Err(end) => due_for_end(alloc, b"refused", end),
    }
}
