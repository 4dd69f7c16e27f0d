// What is due for two instances, made whole before any of it is written.
ghost use Rattle.std.specs.Prelude.{◌≡◌, ℕ, ◌<◌, List, length, IfOk};
ghost use Rattle.sfm_cert.specs.Grammar.{answer_limit};
ghost use Rattle.sfm_due.specs.{Files.{IsReadAs}, Meanings.{question_of}, Owing.{IsMade}};
ghost use Rattle.sfm_meet.specs.Meetable.{AreMeetable};
ghost use Rattle.sfm_met.specs.MetVerdict.{IsMetVerdict};
ghost use Rattle.sfm_pair.specs.{Pair.{IsMeeting, clash_line}, Sides.{IsMetJudged}};

use crate::clash::Clash;
use sfm_base::Memory;
use sfm_check::{Verdict, Wrong};
use sfm_due::{Due, Status, due_for_verdict, refuse_by};
use sfm_kind::Instance;
use sfm_met::{judge_met, met_text};
use std::alloc::{AllocError, Global};

/// The line that refuses two instances that do not go together.
///
/// # Errors
///
/// `AllocError` where there is no memory.
pub fn refuse_clash(alloc: Global, clash: Clash, line: usize) -> Result<Due, AllocError>
    ensures { IfOk result (λ due. (due.text.items ≡ clash_line clash line)
        × (due.status ≡ Status.Refused)) }
{
    match clash {
        Clash::Ground => refuse_by(alloc, b"right", line, b"ground"),
        Clash::LeftNeed => refuse_by(alloc, b"left", line, b"need"),
        Clash::RightNeed => refuse_by(alloc, b"right", line, b"need"),
        Clash::Total => refuse_by(alloc, b"right", line, b"total"),
    }
}

/// What is due to find a greatest common vector of two instances that go together.
///
/// # Errors
///
/// `Memory` where there is none.
pub fn due_to_meet(alloc: Global, left: &Instance, right: &Instance) -> Result<Due, Memory>
    requires { AreMeetable left.now right.now }
    ensures { IfOk result (IsMade (λ written code. IsMeeting (question_of left.now)
        (question_of right.now) written × (code ≡ 0))) }
{
    Ok(Due {
        text: met_text(alloc, left, right)?,
        status: Status::Done,
    })
}

/// The verdict on a text that is too long. No right one is: the ground has few names, and the terms have few places.
fn verdict_on_long(left: &Instance, right: &Instance) -> Verdict
    requires { AreMeetable left.now right.now }
    ensures { (answer : List ℕ) → answer_limit < length answer → IsMetVerdict (question_of left.now)
        (question_of right.now) answer result }
{
    let _count = left.names_len();
    let _left_terms = left.terms();
    let _right_terms = right.terms();
    let _left_lines = left.lines();
    let _right_lines = right.lines();
    Verdict::Invalid {
        line: 0,
        reason: Wrong::Long,
    }
}

/// The verdict on a text that was read, or, for None, on one that is too long.
fn verdict_on(
    alloc: Global,
    left: &Instance,
    right: &Instance,
    bytes: &Option<Vec<u8>>,
) -> Result<Verdict, Memory>
    requires { AreMeetable left.now right.now }
    ensures { IfOk result (λ v. (answer : List ℕ) → IsReadAs answer_limit bytes.now answer
        → IsMetVerdict (question_of left.now) (question_of right.now) answer v) }
{
    match bytes {
        Some(bytes) => judge_met(alloc, left, right, bytes.as_slice()),
        None => Ok(verdict_on_long(left, right)),
    }
}

/// What is due to check a text that was read, or, for None, one that is too long, as that of a common vector of two instances
/// that go together.
///
/// # Errors
///
/// `Memory` where there is none.
pub fn due_to_met(
    alloc: Global,
    left: &Instance,
    right: &Instance,
    bytes: &Option<Vec<u8>>,
) -> Result<Due, Memory>
    requires { AreMeetable left.now right.now }
    ensures { IfOk result (λ due. (answer : List ℕ) → IsReadAs answer_limit bytes.now answer
        → IsMade (IsMetJudged (question_of left.now) (question_of right.now) answer) due) }
{
    let verdict = verdict_on(alloc, left, right, bytes)?;
    Ok(due_for_verdict(alloc, verdict)?)
}
