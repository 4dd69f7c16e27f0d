// A demonstration: the instance of a seed is solved, its answer is judged as any other, and one line tells what it says.
ghost use Rattle.std.specs.Prelude.{◌≡◌, ◌≤◌, ◌++◌, decimal, length, IfOk, OnOk};
ghost use Rattle.sfm_spec.specs.Laws.{ones};
ghost use Rattle.sfm_cert.specs.Solved.{answer_of};
ghost use Rattle.sfm_due.specs.{Demo.{demo_line, IsDemoed, IsDueToDemo}, Meanings.{question_of}, Owing.{IsMade}, Solving.{IsTrueAnswer, counts_told}};

use crate::due::{Due, refuse};
use crate::solve::{ones_of, solve_by};
use crate::status::Status;
use itoa::Buffer;
use sfm_base::Memory;
use sfm_cert::{Solved, write_answer};
use sfm_check::{Verdict, judge};
use sfm_demo::demo_text;
use sfm_kind::Instance;
use sfm_text::{TextEnd, read_instance};
use std::alloc::{AllocError, Global};

/// A word and a count.
fn put_count(out: &mut Vec<u8>, word: &[u8], n: usize) -> Result<(), AllocError>
    ensures { OnOk result (out.new.items ≡ out.old.items ++ word.now ++ decimal n) }
{
    let mut buffer = Buffer::new();
    out.extend_from_slice(word)?;
    out.extend_from_slice(buffer.format(n).as_bytes())?;
    Ok(())
}

/// The counts that an answer tells, to the end of the line.
fn put_counts(out: &mut Vec<u8>, solved: &Solved) -> Result<(), AllocError>
    ensures { OnOk result (out.new.items ≡ out.old.items ++ counts_told (answer_of solved.now)) }
{
    put_count(out, b" least ", solved.least.size())?;
    put_count(out, b" greatest ", solved.greatest.size())?;
    put_count(out, b" blocks ", solved.blocks.len())?;
    put_count(out, b" slopes ", solved.breaks.len())?;
    out.extend_from_slice(b" valid\n")
}

/// The line that tells what an answer says.
fn line_for(alloc: Global, seed: u64, solved: &Solved) -> Result<Vec<u8>, AllocError>
    ensures { IfOk result (λ line. line.items ≡ demo_line seed (answer_of solved.now)) }
{
    let mut buffer = Buffer::new();
    let mut out = Vec::from_slice(alloc, b"demo ")?;
    out.extend_from_slice(buffer.format(seed).as_bytes())?;
    out.extend_from_slice(b" minimum ")?;
    out.extend_from_slice(buffer.format(solved.value).as_bytes())?;
    put_counts(&mut out, solved)?;
    Ok(out)
}

/// The answer of an instance, which was judged.
fn judged_answer(alloc: Global, instance: &Instance) -> Result<Solved, Memory>
    ensures { IfOk result (λ s. IsTrueAnswer instance.now (ones (length instance.now.names))
        (answer_of s)) }
{
    let sizes = ones_of(alloc, instance)?;
    let solved = solve_by(alloc, instance, &sizes)?;
    let file = write_answer(alloc, instance, &solved)?;
    match judge(alloc, instance, file.as_slice())? {
        Verdict::Valid => Ok(solved),
        Verdict::Invalid { .. } => unreachable!(),
    }
}

/// The line of a seed's instance.
fn line_of(alloc: Global, seed: u64, instance: &Instance) -> Result<Vec<u8>, Memory>
    ensures { IfOk result (λ line. IsDemoed seed (question_of instance.now) line.items) }
{
    let solved = judged_answer(alloc, instance)?;
    Ok(line_for(alloc, seed, &solved)?)
}

/// What is due for the demonstration of a seed.
pub fn due_to_demo(alloc: Global, seed: u64) -> Result<Due, Memory>
    requires { seed ≤ 999999999 }
    ensures { IfOk result (IsMade (IsDueToDemo seed)) }
{
    let text = demo_text(alloc, seed)?;
    match read_instance(alloc, text.as_slice()) {
        Ok(instance) => Ok(Due {
            text: line_of(alloc, seed, &instance)?,
            status: Status::Done,
        }),
        Err(TextEnd::Refused { line, reason }) => Ok(refuse(alloc, b"refused", line, reason)?),
        Err(TextEnd::Memory) => Err(Memory),
    }
}
