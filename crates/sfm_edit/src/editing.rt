// A text of edits, applied to an instance line by line. What stands behind `add` is read by the call that reads the term lines
// of an instance text, so that a line is judged alike wherever it comes from; what stands behind `drop` is the number of a term
// line in the list as it then is. Where a line is refused or memory is wanting, all is let go, so that nothing has to be undone.
ghost use Rattle.std.specs.Prelude.{◌≡◌, ◌∷◌, ℕ, ◌+◌, ◌<◌, ◌≤◌, List, length, take, codes, pos, Any, IfOk, IfErr, MatchOption, MatchResult};
ghost use Rattle.sfm_base.specs.NumberText.{IsNumber};
ghost use Rattle.sfm_lines.specs.{Lines.{tokens_of}, Reading.{IsBadByte}};
ghost use Rattle.sfm_text.specs.{Language.{text_limit, IsReadAs, IsRefusalIn}};
ghost use Rattle.sfm_side.specs.Side.{side_language, ended};
ghost use Rattle.sfm_edit.specs.{Edits.{edits_form, IsDrop, IsLineNumber}, EditLines.{editing_of, IsEdited, IsEditRefusal, unedited}, Origins.{AreOrigins}};

use crate::origins::Origins;
use sfm_base::read_number;
use sfm_kind::{Instance, terms_before, width};
use sfm_lines::separator::is_separator;
use sfm_lines::tokens::first_token;
use sfm_lines::word::is_word;
use sfm_side::Frame;
use sfm_text::{LineEnd, Reason, TextEnd, add_line};
use std::alloc::Global;

/// An instance under edits, and where its terms come from.
pub struct Edited {
    pub instance: Instance,
    /// For each term, its place among the terms before the first edit.
    pub kept: Origins,
}

// Written out, so that letting one go is one step, which is proved here once.
impl Drop for Edited {
    fn drop(self) {
        let Self {
            instance: _,
            kept: _,
        } = self;
    }
}

impl Edited {
    /// The instance alone.
    pub fn into_instance(self) -> Instance
        ensures { result ≡ self.instance }
    {
        let Edited { instance, kept: _ } = self;
        instance
    }
}

/// The one token of a line, which is no separator; None where the line is another.
fn only_token(line: &[u8]) -> Option<&[u8]>
    ensures { MatchOption result
        ((text : List ℕ) → IsDrop (codes "drop" ∷ tokens_of line.now) text → ⊥)
        (λ text. IsDrop (codes "drop" ∷ tokens_of line.now) text.now) }
{
    let Some((text, behind)) = first_token(line) else {
        return None;
    };
    if first_token(behind).is_some() {
        return None;
    }
    if is_separator(text) {
        return None;
    }
    Some(text)
}

/// The place, counted from 0, of the line whose number the text is, where there are so many lines; None where it is the number
/// of none.
fn line_place(text: &[u8], count: usize) -> Option<usize>
    ensures { MatchOption result
        ((i : ℕ) → IsLineNumber count text.now i → ⊥)
        (IsLineNumber count text.now) }
{
    let Some(number) = read_number(text) else {
        return None;
    };
    if number < 1 {
        return None;
    }
    if number > count as i128 {
        return None;
    }
    Some((number - 1) as usize)
}

/// Takes the term line out whose number stands in a line behind `drop`.
fn take_drop(edited: &mut Edited, line: &[u8]) -> Result<(), LineEnd>
    requires count { length edited.old.kept ≡ length edited.old.instance.terms }
    ensures { MatchResult result
        (λ _. IsEdited (editing_of edited.old) (codes "drop" ∷ tokens_of line.now)
        (editing_of edited.new))
        (IsEditRefusal (editing_of edited.old) (codes "drop" ∷ tokens_of line.now)) }
{
    let Some(text) = only_token(line) else {
        return Err(LineEnd::Fault(Reason::Shape));
    };
    let _terms = edited.instance.terms();
    let lines = edited.instance.lines();
    let Some(i) = line_place(text, lines.len()) else {
        return Err(LineEnd::Fault(Reason::Number));
    };
    let first = terms_before(lines, i);
    let count = width(lines[i]);
    edited.instance.drop_line(i);
    edited.kept.remove_all(first, count);
    Ok(())
}

/// Adds the terms of the term line that stands in a line behind `add`.
fn take_add(alloc: Global, edited: &mut Edited, line: &[u8]) -> Result<(), LineEnd>
    requires count { length edited.old.kept ≡ length edited.old.instance.terms }
    requires short { length line.now ≤ text_limit }
    requires good { Any IsBadByte line.now → ⊥ }
    ensures { MatchResult result
        (λ _. IsEdited (editing_of edited.old) (codes "add" ∷ tokens_of line.now)
        (editing_of edited.new))
        (IsEditRefusal (editing_of edited.old) (codes "add" ∷ tokens_of line.now)) }
{
    add_line(alloc, &mut edited.instance, line)?;
    edited.kept.push_added(edited.instance.terms().len())?;
    Ok(())
}

/// Takes a line of edits.
fn take_line(alloc: Global, edited: &mut Edited, line: &[u8]) -> Result<(), LineEnd>
    requires count { length edited.old.kept ≡ length edited.old.instance.terms }
    requires short { length line.now ≤ text_limit }
    requires good { Any IsBadByte line.now → ⊥ }
    ensures { MatchResult result
        (λ _. IsEdited (editing_of edited.old) (tokens_of line.now) (editing_of edited.new))
        (IsEditRefusal (editing_of edited.old) (tokens_of line.now)) }
{
    let Some((word, rest)) = first_token(line) else {
        return Err(LineEnd::Fault(Reason::Word));
    };
    if is_word(word, b"drop") {
        return take_drop(edited, rest);
    }
    if is_word(word, b"add") {
        return take_add(alloc, edited, rest);
    }
    Err(LineEnd::Fault(Reason::Word))
}

/// Takes the lines of a text behind its header.
fn take_lines(alloc: Global, edited: &mut Edited, text: &[u8]) -> Result<(), TextEnd>
    requires nothing { editing_of edited.old ≡ unedited edited.old.instance }
    ensures read { IfOk result (λ _. IsReadAs (side_language (edits_form edited.old.instance))
        text.now (ended (editing_of edited.new))) }
    ensures refused { IfErr result (IsRefusalIn (side_language (edits_form edited.old.instance))
        text.now) }
    ensures names { IfOk result (λ _. edited.new.instance.names ≡ edited.old.instance.names) }
    ensures origins { IfOk result (λ _. AreOrigins edited.old.instance.terms
        edited.new.instance.terms edited.new.kept) }
{
    let mut frame = Frame::open(text, b"edits")?;
    while let Some(line) = frame.next_line()? {
        match take_line(alloc, edited, line.bytes) {
            Ok(()) => {}
            Err(LineEnd::Fault(reason)) => {
                return Err(TextEnd::Refused {
                    line: line.number,
                    reason,
                });
            }
            Err(LineEnd::Memory) => return Err(TextEnd::Memory),
        }
    }
    Ok(())
}

/// The instance with the edits of a text, and where its terms come from.
///
/// # Errors
///
/// `Refused` with the line and the reason of the first fault of the text; `Memory` where there is none. The instance is then let
/// go.
pub fn apply(alloc: Global, instance: Instance, edits: &[u8]) -> Result<Edited, TextEnd>
    ensures edited { IfOk result (λ e. IsReadAs (side_language (edits_form instance)) edits.now
        (ended (editing_of e))) }
    ensures refused { IfErr result (IsRefusalIn (side_language (edits_form instance)) edits.now) }
    ensures names { IfOk result (λ e. e.instance.names ≡ instance.names) }
    ensures origins { IfOk result (λ e. AreOrigins instance.terms e.instance.terms e.kept) }
{
    let kept = Origins::unedited(alloc, instance.terms().len())?;
    let mut edited = Edited { instance, kept };
    take_lines(alloc, &mut edited, edits)?;
    Ok(edited)
}
