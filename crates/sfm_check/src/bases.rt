// Whether the rows of an answer are bases of their terms: each row is tested by its term, section by section. Many rows are those of
// the section before but for the factor, though few of those of graphs are. Where that row is a base, so is such a one: all that
// bounds it is in the same ratio. So the term is not asked for it. A term with at most two places, as a cut, is asked all the same:
// it answers about as soon as the rows are compared.
ghost use Rattle.std.specs.{Prelude.{◌≡◌, ◌↔◌, ◌<◌, ◌≤◌, ◌^◌, ℕ, length, map, pos, ◌≤ℤ◌, IfOk, IfSome, IsTrue, MatchOption}, List.{All}};
ghost use Rattle.sfm_spec.specs.{Bounds.{IsEntry, IsFactor}, Families.{meanings}, Terms.{times, IsBase}, Walks.{base_at}};
ghost use Rattle.sfm_law.specs.Based.{IsBased};
ghost use Rattle.sfm_kind.specs.Kinds.{kind_places, kind_value, kind_size};
ghost use Rattle.sfm_cert.specs.{Answer.{answer_lines}, Form.{IsFormed, AreFormedRows}, Grammar.{answer_limit}, Solved.{answer_of, form_of}};
ghost use Rattle.sfm_check.specs.{Truth.{section_at, sections_of}, Verdict.{IsBaseAt, IsFirstNoBase}, Findings.{AllRowsAreBases, AreInRatio, IsFirstNoBaseIn, AreBasesIn}};

use crate::sections::{Section, section_of};
use sfm_base::{Memory, Rows};
use sfm_cert::{Solved, line_of_base};
use sfm_kind::{Instance, Kind};
use sfm_law::{At, Term};
use std::alloc::Global;

/// Whether two vectors are one but for their factors: each entry of one times the factor of the other is the same.
fn are_in_ratio(at: &At<'_>, known: &At<'_>) -> bool
    requires factor { IsFactor at.now.q }
    requires other { IsFactor known.now.q }
    requires entries { length known.now.x.now ≡ length at.now.x.now }
    requires small { All IsEntry at.now.x.now }
    requires known { All IsEntry known.now.x.now }
    ensures { IsTrue result
        → AreInRatio (length at.now.x.now) at.now.q at.now.x.now known.now.q known.now.x.now }
{
    for i in 0..at.x.len() {
        if known.q * at.x[i] != at.q * known.x[i] {
            return false;
        }
    }
    true
}

/// Whether a vector is a base of q times a term, of which a base is known. One in the ratio of that is a base as well, so a term with
/// more than two places is not asked for it. One with at most two is always asked.
fn is_base_beside(alloc: Global, term: &Kind, at: &At<'_>, known: &At<'_>) -> Result<bool, Memory>
    requires factor { IsFactor at.now.q }
    requires entries { length at.now.x.now ≡ length (kind_places term.now) }
    requires small { All IsEntry at.now.x.now }
    requires known { IsBased kind_places kind_value kind_size term.now known.now.q known.now.x.now }
    ensures { IfOk result (λ r. IsTrue r
        ↔ IsBase (times at.now.q (kind_value term.now)) at.now.x.now) }
{
    if at.x.len() > 2 && are_in_ratio(at, known) {
        return Ok(true);
    }
    term.is_base(alloc, at.q, at.x)
}

/// Whether row i of a section is a base of its term; of that before it, if there is one, that row is.
fn is_base_in(
    alloc: Global,
    term: &Kind,
    section: &Section<'_>,
    before: Option<&Section<'_>>,
    i: usize,
) -> Result<bool, Memory>
    requires factor { IsFactor section.now.den }
    requires bounded { kind_size term.now ≤ℤ pos (10 ^ 18) }
    requires row { i < length section.now.bases.now }
    requires entries { length (base_at section.now.bases.now i) ≡ length (kind_places term.now) }
    requires small { All IsEntry (base_at section.now.bases.now i) }
    requires known { IfSome before (λ b. (i < length b.now.bases.now)
        × IsBased kind_places kind_value kind_size term.now b.now.den
        (base_at b.now.bases.now i)) }
    ensures { IfOk result (λ r. IsTrue r
        ↔ IsBase (times section.now.den (kind_value term.now)) (base_at section.now.bases.now i)) }
{
    let at = At {
        q: section.den,
        x: section.bases.row(i),
    };
    match before {
        Some(other) => {
            let known = At {
                q: other.den,
                x: other.bases.row(i),
            };
            is_base_beside(alloc, term, &at, &known)
        }
        None => term.is_base(alloc, at.q, at.x),
    }
}

/// The first term of which the row of a section is no base, or None where all are bases. So are all rows of the section before it,
/// if there is one.
fn first_no_base_beside(
    alloc: Global,
    terms: &[Kind],
    section: &Section<'_>,
    before: Option<&Section<'_>>,
) -> Result<Option<usize>, Memory>
    requires factor { IsFactor section.now.den }
    requires bounded { All (λ term. kind_size term ≤ℤ pos (10 ^ 18)) terms.now }
    requires rows { AreFormedRows (map (λ term. length (kind_places term)) terms.now)
        section.now.bases.now }
    requires known { IfSome before (λ b. IsFactor b.now.den
        × AreFormedRows (map (λ term. length (kind_places term)) terms.now) b.now.bases.now
        × AreBasesIn (meanings kind_places kind_value terms.now) b.now.den b.now.bases.now) }
    ensures { IfOk result (λ r. MatchOption r
        (AreBasesIn (meanings kind_places kind_value terms.now) section.now.den
        section.now.bases.now)
        (IsFirstNoBaseIn (meanings kind_places kind_value terms.now) section.now.den
        section.now.bases.now)) }
{
    for (i, term) in terms.iter().enumerate() {
        if !is_base_in(alloc, term, section, before, i)? {
            return Ok(Some(i));
        }
    }
    Ok(None)
}

/// The number, counted from 0, of the first of some terms of which the row is no base of q times the term, or None where
/// all are bases. There is a row for each term, of as many entries as the term has places, each of magnitude at most 10^30;
/// q is from 1 to 1,000,000, and each size at most 10^18.
///
/// # Errors
///
/// `Memory` where there is none.
pub fn first_no_base_in(
    alloc: Global,
    terms: &[Kind],
    q: i128,
    rows: &Rows,
) -> Result<Option<usize>, Memory>
    requires factor { IsFactor q }
    requires bounded { All (λ term. kind_size term ≤ℤ pos (10 ^ 18)) terms.now }
    requires rows { AreFormedRows (map (λ term. length (kind_places term)) terms.now) rows.now }
    ensures { IfOk result (λ r. MatchOption r
        (AreBasesIn (meanings kind_places kind_value terms.now) q rows.now)
        (IsFirstNoBaseIn (meanings kind_places kind_value terms.now) q rows.now)) }
{
    let section = Section {
        num: 0,
        den: q,
        bases: rows,
    };
    first_no_base_beside(alloc, terms, &section, None)
}

/// The first term of which the row of section s is no base, or None where all are bases, as all rows of the sections before are.
fn first_no_base_at(
    alloc: Global,
    instance: &Instance,
    solved: &Solved,
    s: usize,
) -> Result<Option<usize>, Memory>
    requires formed { IsFormed (form_of instance.now) (answer_of solved.now) }
    requires at { s < length (sections_of (answer_of solved.now)) }
    requires before { (k i : ℕ) → k < s
        → i < length (meanings kind_places kind_value instance.now.terms)
        → IsBaseAt (meanings kind_places kind_value instance.now.terms) (answer_of solved.now) k i }
    ensures { IfOk result (λ r. MatchOption r
        (AreBasesIn (meanings kind_places kind_value instance.now.terms)
        (section_at (answer_of solved.now) s).den (section_at (answer_of solved.now) s).bases)
        (IsFirstNoBaseIn (meanings kind_places kind_value instance.now.terms)
        (section_at (answer_of solved.now) s).den (section_at (answer_of solved.now) s).bases)) }
{
    let terms = instance.terms();
    let section = section_of(solved, s);
    if s == 0 {
        return first_no_base_beside(alloc, terms, &section, None);
    }
    let before = section_of(solved, s - 1);
    first_no_base_beside(alloc, terms, &section, Some(&before))
}

/// The line of the first row that is no base of its term.
pub fn first_no_base(
    alloc: Global,
    instance: &Instance,
    solved: &Solved,
) -> Result<Option<usize>, Memory>
    requires formed { IsFormed (form_of instance.now) (answer_of solved.now) }
    requires few { length (answer_lines (form_of instance.now) (answer_of solved.now))
        ≤ answer_limit }
    ensures { IfOk result (λ r. MatchOption r
        (AllRowsAreBases (meanings kind_places kind_value instance.now.terms)
        (answer_of solved.now))
        (IsFirstNoBase (meanings kind_places kind_value instance.now.terms)
        (answer_of solved.now))) }
{
    let terms = instance.terms();
    for s in 0..solved.breaks.len() + 1 {
        if let Some(i) = first_no_base_at(alloc, instance, solved, s)? {
            let line = line_of_base(
                solved.blocks.len(),
                solved.breaks.len(),
                terms.len(),
                s,
                i + 1,
            );
            return Ok(Some(line));
        }
    }
    Ok(None)
}
