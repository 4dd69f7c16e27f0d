// What is due for texts that were read: a file, a refusal or a verdict, made whole before any of it is written.
ghost use Rattle.std.specs.Prelude.{◌≡◌, ◌⊎◌, ◌+◌, ◌<◌, ℕ, List, length, IfOk};
ghost use Rattle.sfm_sizes.specs.Sizes.{AreElementSizes};
ghost use Rattle.sfm_side.specs.PinLines.{pins_of};
ghost use Rattle.sfm_ask.specs.Pinned.{IsAnswered};
ghost use Rattle.sfm_cert.specs.{Header.{header_text}, Solved.{form_with}, Grammar.{answer_limit}};
ghost use Rattle.sfm_check.specs.Verdict.{IsVerdict};
ghost use Rattle.sfm_due.specs.{Due.{SaysVerdict, wrong_word, fault_line, IsJudged, IsSolved}, Meanings.{meanings_of, question_of}, Status.{code_of}, Owing.{IsMade, refusal, IsJudgedBySizes, IsWeighed}, Files.{IsReadAs}};

use crate::solve::{file_by, file_for, ones_of};
use crate::status::Status;
use itoa::Buffer;
use sfm_ask::asked_text;
use sfm_base::Memory;
use sfm_cert::Header;
use sfm_check::{Verdict, Wrong, judge_with};
use sfm_kind::Instance;
use sfm_side::Pins;
use sfm_text::Reason;
use std::alloc::{AllocError, Global};

/// A text that is to be written, and the status that goes with it.
#[derive(Drop)]
pub struct Due {
    pub text: Vec<u8>,
    pub status: Status,
}

/// A line of a word, the number of a line, and the word of the reason against that.
fn named_fault(
    alloc: Global,
    word: &[u8],
    line: usize,
    reason: &[u8],
) -> Result<Vec<u8>, AllocError>
    ensures { IfOk result (λ v. v.items ≡ fault_line word.now line reason.now) }
{
    let mut buffer = Buffer::new();
    let mut out = Vec::from_slice(alloc, word)?;
    out.extend_from_slice(b" ")?;
    out.extend_from_slice(buffer.format(line).as_bytes())?;
    out.extend_from_slice(b" ")?;
    out.extend_from_slice(reason)?;
    out.extend_from_slice(b"\n")?;
    Ok(out)
}

/// The word that names a reason against an answer.
fn word_of(reason: Wrong) -> &'static [u8]
    ensures { result.now ≡ wrong_word reason }
{
    match reason {
        Wrong::Long => b"long",
        Wrong::Grammar => b"grammar",
        Wrong::Base => b"base",
        Wrong::Unproved => b"unproved",
        Wrong::Answer => b"answer",
    }
}

/// The line of a verdict, and its status.
///
/// # Errors
///
/// `AllocError` where there is no memory.
pub fn due_for_verdict(alloc: Global, verdict: Verdict) -> Result<Due, AllocError>
    ensures said { IfOk result (λ due. SaysVerdict verdict due.text.items (code_of due.status)) }
    ensures answered { IfOk result (λ due. (due.status ≡ Status.Done)
        ⊎ (due.status ≡ Status.Invalid)) }
{
    match verdict {
        Verdict::Valid => Ok(Due {
            text: Vec::from_slice(alloc, b"valid\n")?,
            status: Status::Done,
        }),
        Verdict::Invalid { line, reason } => Ok(Due {
            text: named_fault(alloc, b"invalid", line, word_of(reason))?,
            status: Status::Invalid,
        }),
    }
}

/// The line that refuses a text at a line, for the reason of a word. The first word tells what the text is.
///
/// # Errors
///
/// `AllocError` where there is no memory.
pub fn refuse_by(alloc: Global, word: &[u8], line: usize, reason: &[u8]) -> Result<Due, AllocError>
    ensures { IfOk result (λ due. (due.text.items ≡ fault_line word.now line reason.now)
        × (due.status ≡ Status.Refused)) }
{
    let text = named_fault(alloc, word, line, reason)?;
    Ok(Due {
        text,
        status: Status::Refused,
    })
}

/// The line that refuses a text with this fault, at a line counted from 1 (0 where the whole text is too long). The word
/// tells what the text is: `refused` for the instance that a command is about.
pub fn refuse(alloc: Global, word: &[u8], line: usize, reason: Reason) -> Result<Due, AllocError>
    ensures { IfOk result (λ due. (due.text.items ≡ refusal word.now line reason)
        × (due.status ≡ Status.Refused)) }
{
    refuse_by(alloc, word, line, reason.word())
}

/// What is due to solve an instance.
///
/// # Errors
///
/// `Memory` where there is none.
pub fn due_to_solve(alloc: Global, instance: &Instance) -> Result<Due, Memory>
    ensures { IfOk result (IsMade (λ written code. IsSolved (question_of instance.now) written
        × (code ≡ 0))) }
{
    Ok(Due {
        text: file_for(alloc, instance)?,
        status: Status::Done,
    })
}

/// What is due to find the slopes of an instance where each element has its size.
///
/// # Errors
///
/// `Memory` where there is none.
pub fn due_to_weigh(alloc: Global, instance: &Instance, sizes: &[i128]) -> Result<Due, Memory>
    requires { AreElementSizes (length instance.now.names) sizes.now }
    ensures { IfOk result (IsMade (λ written code. IsWeighed (question_of instance.now) sizes.now
        written × (code ≡ 0))) }
{
    Ok(Due {
        text: file_by(alloc, Header::Weighed, instance, sizes)?,
        status: Status::Done,
    })
}

/// What is due to find the best set of an instance with these pins.
///
/// # Errors
///
/// `Memory` where there is none.
pub fn due_to_ask(alloc: Global, instance: &Instance, pins: &Pins) -> Result<Due, Memory>
    requires inside { length pins.now.inside ≡ length instance.now.names }
    requires outside { length pins.now.outside ≡ length instance.now.names }
    ensures { IfOk result (IsMade (λ written code. IsAnswered instance.now.names
        (meanings_of instance.now.terms) (pins_of pins.now) written × (code ≡ 0))) }
{
    Ok(Due {
        text: asked_text(alloc, instance, pins)?,
        status: Status::Done,
    })
}

/// The verdict on an answer that is too long. No right file is: an instance has few names, and few terms over few places.
fn verdict_on_long(_header: Header, instance: &Instance, _sizes: &[i128]) -> Verdict
    requires { AreElementSizes (length instance.now.names) _sizes.now }
    ensures { (answer : List ℕ) → answer_limit < length answer
        → IsVerdict (form_with (header_text _header) instance.now) (meanings_of instance.now.terms)
        _sizes.now answer result }
{
    let _count = instance.names_len();
    let _terms = instance.terms();
    let _lines = instance.lines();
    Verdict::Invalid {
        line: 0,
        reason: Wrong::Long,
    }
}

/// The verdict on an answer that was read, or, for None, on one that is too long.
fn verdict_on(
    alloc: Global,
    header: Header,
    instance: &Instance,
    sizes: &[i128],
    bytes: &Option<Vec<u8>>,
) -> Result<Verdict, Memory>
    requires { AreElementSizes (length instance.now.names) sizes.now }
    ensures { IfOk result (λ v. (answer : List ℕ) → IsReadAs answer_limit bytes.now answer
        → IsVerdict (form_with (header_text header) instance.now) (meanings_of instance.now.terms)
        sizes.now answer v) }
{
    match bytes {
        Some(bytes) => judge_with(alloc, header, instance, sizes, bytes.as_slice()),
        None => Ok(verdict_on_long(header, instance, sizes)),
    }
}

/// What is due to check an answer that was read, or, for None, one that is too long, against an instance.
///
/// # Errors
///
/// `Memory` where there is none.
pub fn due_to_check(
    alloc: Global,
    instance: &Instance,
    bytes: &Option<Vec<u8>>,
) -> Result<Due, Memory>
    ensures { IfOk result (λ due. (answer : List ℕ) → IsReadAs answer_limit bytes.now answer
        → IsMade (IsJudged (question_of instance.now) answer) due) }
{
    let sizes = ones_of(alloc, instance)?;
    let verdict = verdict_on(alloc, Header::Answer, instance, &sizes, bytes)?;
    Ok(due_for_verdict(alloc, verdict)?)
}

/// The same of an answer where each element has its size.
///
/// # Errors
///
/// `Memory` where there is none.
pub fn due_to_check_weighed(
    alloc: Global,
    instance: &Instance,
    sizes: &[i128],
    bytes: &Option<Vec<u8>>,
) -> Result<Due, Memory>
    requires { AreElementSizes (length instance.now.names) sizes.now }
    ensures { IfOk result (λ due. (answer : List ℕ) → IsReadAs answer_limit bytes.now answer
        → IsMade (IsJudgedBySizes (question_of instance.now) sizes.now answer) due) }
{
    let verdict = verdict_on(alloc, Header::Weighed, instance, sizes, bytes)?;
    Ok(due_for_verdict(alloc, verdict)?)
}
