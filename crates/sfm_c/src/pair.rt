// What is due for the texts of two instances, made whole: the left text is read first, then the right one, which has to go
// together with it; what is then asked of both is made of their instances.
ghost use Rattle.std.specs.Prelude.{◌≡◌, ℕ, List, length, IfOk};
ghost use Rattle.sfm_due.specs.{Lined.{IsLined}, Meanings.{question_of}, Owing.{IsMade}};
ghost use Rattle.sfm_meet.specs.Meetable.{AreMeetable};
ghost use Rattle.sfm_pair.specs.{Pair.{IsMeeting}, Sides.{IsMetJudged, lined_of}};
ghost use Rattle.sfm_c.specs.Calls.{IsDone, IsDueForRight, IsDueToMeet, IsDueToMet};

use crate::make::due_for_end;
use sfm_base::Memory;
use sfm_due::{Due, due_for_verdict};
use sfm_kind::Instance;
use sfm_met::judge_met;
use sfm_pair::{clash_of, due_to_meet, refuse_clash};
use sfm_text::{Numbered, read_numbered};
use std::alloc::Global;

/// What is due to find a greatest common vector of two instances with the numbers of their lines.
fn meet_of(alloc: Global, left: &Numbered, right: &Numbered) -> Result<Due, Memory>
    requires left { length left.now.term_lines.items ≡ length left.now.instance.terms }
    requires right { length right.now.term_lines.items ≡ length right.now.instance.terms }
    ensures { (text : List ℕ) → IsLined text (lined_of right.now) → IfOk result (IsMade
        (IsDueForRight (lined_of left.now) text
        (λ r. IsDone (IsMeeting (question_of left.now.instance) r.asked)))) }
{
    match clash_of(left, right) {
        Some((clash, line)) => Ok(refuse_clash(alloc, clash, line)?),
        None => due_to_meet(alloc, &left.instance, &right.instance),
    }
}

/// What is due to find a greatest common vector of an instance and of that of a text.
fn meet_by(alloc: Global, left: &Numbered, right: &[u8]) -> Result<Due, Memory>
    requires { length left.now.term_lines.items ≡ length left.now.instance.terms }
    ensures { IfOk result (IsMade (IsDueForRight (lined_of left.now) right.now
        (λ r. IsDone (IsMeeting (question_of left.now.instance) r.asked)))) }
{
    match read_numbered(alloc, right) {
        Ok(numbered) => meet_of(alloc, left, &numbered),
        Err(end) => due_for_end(alloc, b"right", end),
    }
}

/// What is due to find a greatest common vector of the instances of two texts.
pub(crate) fn make_meet(alloc: Global, left: &[u8], right: &[u8]) -> Result<Due, Memory>
    ensures { IfOk result (IsMade (IsDueToMeet left.now right.now)) }
{
    match read_numbered(alloc, left) {
        Ok(numbered) => meet_by(alloc, &numbered, right),
        Err(end) => due_for_end(alloc, b"left", end),
    }
}

/// What is due to check an answer against two instances that go together.
fn met_judged(
    alloc: Global,
    left: &Instance,
    right: &Instance,
    answer: &[u8],
) -> Result<Due, Memory>
    requires { AreMeetable left.now right.now }
    ensures { IfOk result (IsMade (IsMetJudged (question_of left.now) (question_of right.now)
        answer.now)) }
{
    let verdict = judge_met(alloc, left, right, answer)?;
    Ok(due_for_verdict(alloc, verdict)?)
}

/// What is due to check an answer against two instances with the numbers of their lines.
fn met_of(alloc: Global, left: &Numbered, right: &Numbered, answer: &[u8]) -> Result<Due, Memory>
    requires left { length left.now.term_lines.items ≡ length left.now.instance.terms }
    requires right { length right.now.term_lines.items ≡ length right.now.instance.terms }
    ensures { (text : List ℕ) → IsLined text (lined_of right.now) → IfOk result (IsMade
        (IsDueForRight (lined_of left.now) text
        (λ r. IsMetJudged (question_of left.now.instance) r.asked answer.now))) }
{
    match clash_of(left, right) {
        Some((clash, line)) => Ok(refuse_clash(alloc, clash, line)?),
        None => met_judged(alloc, &left.instance, &right.instance, answer),
    }
}

/// What is due to check an answer against an instance and that of a text.
fn met_by(alloc: Global, left: &Numbered, right: &[u8], answer: &[u8]) -> Result<Due, Memory>
    requires { length left.now.term_lines.items ≡ length left.now.instance.terms }
    ensures { IfOk result (IsMade (IsDueForRight (lined_of left.now) right.now
        (λ r. IsMetJudged (question_of left.now.instance) r.asked answer.now))) }
{
    match read_numbered(alloc, right) {
        Ok(numbered) => met_of(alloc, left, &numbered, answer),
        Err(end) => due_for_end(alloc, b"right", end),
    }
}

/// What is due to check an answer against the instances of two texts.
pub(crate) fn make_met(
    alloc: Global,
    left: &[u8],
    right: &[u8],
    answer: &[u8],
) -> Result<Due, Memory>
    ensures { IfOk result (IsMade (IsDueToMet left.now right.now answer.now)) }
{
    match read_numbered(alloc, left) {
        Ok(numbered) => met_by(alloc, &numbered, right, answer),
        Err(end) => due_for_end(alloc, b"left", end),
    }
}
