// The judge. A text that is read has its rows tested as bases of their terms. The bases then prove the common vector, or they do
// not, and where they do they tell the least split, with which what the text says is compared. Nothing here finds a common vector.
ghost use Rattle.std.specs.Prelude.{length, pos, IfOk, MatchOption};
ghost use Rattle.sfm_spec.specs.{Sets.{sum_over, whole_set}, Families.{AreBases}};
ghost use Rattle.sfm_cert.specs.Solved.{form_of};
ghost use Rattle.sfm_meet.specs.{Common.{IsLeastSplit}, Meetable.{AreMeetable}, Met.{IsProvedMet}, Told.{met_of, side_terms}};
ghost use Rattle.sfm_met.specs.{MetText.{IsFormedMet}, MetVerdict.{IsFirstNoMetBase, IsMetVerdict}, MetFindings.{IsFoundMet}, Sums.{sum_of_instance}};

use crate::read::read_met;
use sfm_base::{Memory, Set};
use sfm_cert::AnswerEnd;
use sfm_check::{Verdict, Wrong, are_same, first_no_base_in};
use sfm_kind::Instance;
use sfm_law::has_sum;
use sfm_meet::{Met, proved_split};
use sfm_readback::ANSWER_LIMIT;
use std::alloc::Global;

/// The line of the first row that is no base of its term: those of the left stand before those of the right.
fn first_no_met_base(
    alloc: Global,
    left: &Instance,
    right: &Instance,
    met: &Met,
) -> Result<Option<usize>, Memory>
    requires { IsFormedMet (form_of left.now) (form_of right.now) (met_of met.now) }
    ensures { IfOk result (λ r. MatchOption r
        (AreBases (pos 1) (side_terms left.now.terms) met.now.bases.left
        × AreBases (pos 1) (side_terms right.now.terms) met.now.bases.right)
        (IsFirstNoMetBase (sum_of_instance left.now) (sum_of_instance right.now)
        (met_of met.now))) }
{
    let left_terms = left.terms();
    let right_terms = right.terms();
    if let Some(i) = first_no_base_in(alloc, left_terms, 1, &met.bases.left)? {
        return Ok(Some(i + 5));
    }
    if let Some(i) = first_no_base_in(alloc, right_terms, 1, &met.bases.right)? {
        return Ok(Some(left_terms.len() + i + 5));
    }
    Ok(None)
}

/// What is to be said of a text whose bases prove: line 2 against what the common vector adds up to, then line 3 against the least
/// set.
fn compare(left: &Instance, right: &Instance, met: &Met, least: &Set) -> Verdict
    requires formed { IsFormedMet (form_of left.now) (form_of right.now) (met_of met.now) }
    requires proved { IsProvedMet (side_terms left.now.terms) (side_terms right.now.terms)
        (length left.now.names) (met_of met.now) }
    requires split { IsLeastSplit (side_terms left.now.terms) (side_terms right.now.terms)
        (length left.now.names) (sum_over (whole_set (length left.now.names)) met.now.common)
        least.now }
    ensures { IsFoundMet (sum_of_instance left.now) (sum_of_instance right.now) (met_of met.now)
        result }
{
    let _names = left.names_len();
    if !has_sum(met.common.as_slice(), met.value) {
        return Verdict::Invalid {
            line: 2,
            reason: Wrong::Answer,
        };
    }
    if !are_same(&met.members, least) {
        return Verdict::Invalid {
            line: 3,
            reason: Wrong::Answer,
        };
    }
    Verdict::Valid
}

/// What is to be said of what a text says.
fn judge_told(
    alloc: Global,
    left: &Instance,
    right: &Instance,
    met: &Met,
) -> Result<Verdict, Memory>
    requires meetable { AreMeetable left.now right.now }
    requires formed { IsFormedMet (form_of left.now) (form_of right.now) (met_of met.now) }
    ensures { IfOk result (IsFoundMet (sum_of_instance left.now) (sum_of_instance right.now)
        (met_of met.now)) }
{
    if let Some(line) = first_no_met_base(alloc, left, right, met)? {
        return Ok(Verdict::Invalid {
            line,
            reason: Wrong::Base,
        });
    }
    match proved_split(alloc, left, right, met)? {
        Some(least) => Ok(compare(left, right, met, &least)),
        None => Ok(Verdict::Invalid {
            line: 4,
            reason: Wrong::Unproved,
        }),
    }
}

/// What is to be said of a text that is offered for two instances, whoever wrote it: that it is right, or the first reason against
/// it with its first line.
///
/// # Errors
///
/// `Memory` where there is none.
pub fn judge_met(
    alloc: Global,
    left: &Instance,
    right: &Instance,
    text: &[u8],
) -> Result<Verdict, Memory>
    requires { AreMeetable left.now right.now }
    ensures verdict { IfOk result (IsMetVerdict (sum_of_instance left.now)
        (sum_of_instance right.now) text.now) }
{
    let _names = left.names_len();
    let _left_terms = left.terms();
    let _right_terms = right.terms();
    let _left_lines = left.lines();
    let _right_lines = right.lines();
    if text.len() > ANSWER_LIMIT {
        return Ok(Verdict::Invalid {
            line: 0,
            reason: Wrong::Long,
        });
    }
    match read_met(alloc, left, right, text) {
        Ok(met) => judge_told(alloc, left, right, &met),
        Err(AnswerEnd::BadLine { line }) => Ok(Verdict::Invalid {
            line,
            reason: Wrong::Grammar,
        }),
        Err(AnswerEnd::Memory) => Err(Memory),
    }
}
