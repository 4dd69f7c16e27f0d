// Reading line by line: what a content line adds to what was read before it, or the first reason for which it is refused.
ghost use Rattle.std.specs.{Prelude.{◌≡◌, ◌≢◌, ◌≤◌, ℕ, List, [], ◌∷◌, length, bytes_eq, codes, MatchBool, IfOk, MatchOption, MatchResult}, Str.Lines.{strip_carriage_return}};
ghost use Rattle.sfm_kind.specs.Instance.{InstanceData};
ghost use Rattle.sfm_lines.specs.{Lines.{tokens_of}, Versions.{header_tokens}, Reading.{start, FirstReason, Takes, IsLineRefusal}, ReadParts.{state_at, IsLineOf}, declared.stage.Stage.TheVariants.{Ground}};
ghost use Rattle.sfm_text.specs.{Judging.{AreGroundNames, BeginsEnd}, GoodText.{text_limit}};

use crate::added::{add_line, are_good_bytes};
use crate::lines::without_return;
use sfm_base::Memory;
use sfm_kind::{Instance, Version};
use sfm_lines::tokens::{first_token, has_token, is_skipped, token};
use sfm_lines::{LineEnd, Reason, Stage};
use sfm_passes::{Separator, are_names_in, has_repeat_in, has_separator_in};
use std::alloc::Global;

/// The most names of a ground.
const MOST_NAMES: usize = 256;

/// What has been read of a text.
pub struct Reading {
    pub stage: Stage,
    pub instance: Instance,
}

// Written out, so that letting one go is one step, which is proved here once.
impl Drop for Reading {
    fn drop(self) {
        let Self {
            stage: _,
            instance: _,
        } = self;
    }
}

/// The line behind a word, or None where its first token is another.
pub fn behind_token<'a>(line: &'a [u8], word: &[u8]) -> Option<&'a [u8]>
    ensures { MatchOption result
        ((rest : List (List ℕ)) → tokens_of line.now ≢ word.now ∷ rest)
        (λ rest. tokens_of line.now ≡ word.now ∷ tokens_of rest.now) }
{
    let Some((first, rest)) = first_token(line) else {
        return None;
    };
    if first == word { Some(rest) } else { None }
}

/// Whether a line has that one token.
fn has_only(word: &[u8], line: &[u8]) -> bool
    ensures { MatchBool result
        (tokens_of line.now ≡ word.now ∷ [])
        (tokens_of line.now ≢ word.now ∷ []) }
{
    match behind_token(line, word) {
        Some(more) => first_token(more).is_none(),
        None => false,
    }
}

/// Whether a line has the one token `1`.
pub fn is_version(line: &[u8]) -> bool
    ensures { MatchBool result
        (tokens_of line.now ≡ codes "1" ∷ [])
        (tokens_of line.now ≢ codes "1" ∷ []) }
{
    has_only(b"1", line)
}

/// The version whose number is the one token of a line behind `sfm`, or None where there is none.
fn version_behind(line: &[u8]) -> Option<Version>
    ensures { MatchOption result
        ((version : Version) → codes "sfm" ∷ tokens_of line.now ≢ header_tokens version)
        (λ version. codes "sfm" ∷ tokens_of line.now ≡ header_tokens version) }
{
    if is_version(line) {
        return Some(Version::First);
    }
    if has_only(b"2", line) {
        return Some(Version::Second);
    }
    None
}

/// An instance of that version, with no names and no terms.
fn empty_instance(alloc: Global, version: Version) -> Instance
    ensures version { result.version ≡ version }
    ensures names { result.names ≡ [] }
    ensures terms { result.terms ≡ [] }
    ensures lines { result.lines ≡ [] }
{
    let mut instance = Instance::new(alloc);
    if version == Version::Second {
        instance.set_version2();
    }
    instance
}

/// Whether a token is `end`.
fn is_end(token: &[u8]) -> bool
    ensures { result ≡ bytes_eq token.now (codes "end") }
{
    token == b"end".as_slice()
}

/// Whether the first token of a line is `end`.
pub fn is_last(line: &[u8]) -> bool
    ensures { MatchBool result (BeginsEnd (tokens_of line.now))
        (BeginsEnd (tokens_of line.now) → ⊥) }
{
    match token(line, 0) {
        Some(first) => is_end(first),
        None => false,
    }
}

/// The first reason of the names that stand in the ground line behind its word, or None where there is none.
fn names_fault(alloc: Global, names: &[u8]) -> Result<Option<Reason>, Memory>
    ensures { IfOk result (λ r. MatchOption r
        (AreGroundNames (tokens_of names.now))
        (λ reason. (instance : InstanceData) (line : List ℕ)
        → IsLineOf line (codes "ground" ∷ tokens_of names.now)
        → FirstReason (state_at Ground instance) line reason)) }
{
    if has_separator_in(names) {
        return Ok(Some(Reason::Shape));
    }
    if !are_names_in(names) {
        return Ok(Some(Reason::Name));
    }
    if has_repeat_in(alloc, Separator::Blanks, names)? {
        return Ok(Some(Reason::Twice));
    }
    if has_token(names, MOST_NAMES) {
        return Ok(Some(Reason::Total));
    }
    Ok(None)
}

/// The instance of that version with the names that stand in a line behind its word, and no terms.
fn with_names(alloc: Global, version: Version, line: &[u8]) -> Result<Instance, Memory>
    requires { AreGroundNames (tokens_of line.now) }
    ensures version { IfOk result (λ r. r.version ≡ version) }
    ensures names { IfOk result (λ r. r.names ≡ tokens_of line.now) }
    ensures terms { IfOk result (λ r. r.terms ≡ []) }
    ensures lines { IfOk result (λ r. r.lines ≡ []) }
{
    let mut instance = empty_instance(alloc, version);
    let mut left = line;
    while let Some((name, behind)) = first_token(left) {
        instance.add_name(name)?;
        left = behind;
    }
    Ok(instance)
}

impl Reading {
    ghost use Rattle.sfm_lines.specs.{ReadParts.{state_at}, declared.stage.Stage.TheVariants.{Header, Ground, Terms}};
    ghost use Rattle.sfm_text.specs.Judging.{state_of, IsOutcome, Passes, Fails};

    /// Nothing has been read.
    pub fn new(alloc: Global) -> Reading
        ensures { state_of result ≡ start }
    {
        Reading {
            stage: Stage::Header,
            instance: Instance::new(alloc),
        }
    }

    /// The instance, of what is done with.
    pub fn into_instance(self) -> Instance
        ensures { result ≡ self.instance }
    {
        let Reading { stage: _, instance } = self;
        instance
    }

    /// Takes the next line, which is no longer than a text may be, and tells whether it counts: a blank line or a comment
    /// changes nothing.
    ///
    /// # Errors
    ///
    /// `Fault` with the first reason that the line has; `Memory` where there is none.
    pub fn take_line(&mut self, alloc: Global, piece: &[u8]) -> Result<bool, LineEnd>
        requires { length piece.now ≤ text_limit }
        ensures { MatchResult result
            (λ counts. Passes counts (state_of self.old) (strip_carriage_return piece.now)
            (state_of self.new))
            (Fails (state_of self.old) (strip_carriage_return piece.now)) }
    {
        let line = without_return(piece);
        if is_skipped(line) {
            return Ok(false);
        }
        self.take(alloc, line)?;
        Ok(true)
    }

    /// Takes the next content line.
    fn take(&mut self, alloc: Global, line: &[u8]) -> Result<(), LineEnd>
        requires { length line.now ≤ text_limit }
        ensures { MatchResult result
            (λ _. Takes (state_of self.old) line.now (state_of self.new))
            (IsLineRefusal (state_of self.old) line.now) }
    {
        if self.stage == Stage::Terms {
            return self.take_later(alloc, line);
        }
        if !are_good_bytes(line) {
            return Err(LineEnd::Fault(Reason::Bytes));
        }
        match self.stage {
            Stage::Header => self.take_header(alloc, line),
            Stage::Ground => self.take_ground(alloc, line),
            Stage::Terms | Stage::Ended => Err(LineEnd::Fault(Reason::Word)),
        }
    }

    /// Takes the header, `sfm` and the number of a version.
    fn take_header(&mut self, alloc: Global, line: &[u8]) -> Result<(), LineEnd>
        ensures { IsOutcome (state_at Header self.old.instance) (tokens_of line.now) result
            (state_of self.new) }
    {
        let Some(rest) = behind_token(line, b"sfm") else {
            return Err(LineEnd::Fault(Reason::Word));
        };
        let Some(version) = version_behind(rest) else {
            return Err(LineEnd::Fault(Reason::Shape));
        };
        let instance = empty_instance(alloc, version);
        self.instance = instance;
        self.stage = Stage::Ground;
        Ok(())
    }

    /// Takes the line with the names of the ground.
    fn take_ground(&mut self, alloc: Global, line: &[u8]) -> Result<(), LineEnd>
        ensures { IsOutcome (state_at Ground self.old.instance) (tokens_of line.now) result
            (state_of self.new) }
    {
        let Some(rest) = behind_token(line, b"ground") else {
            return Err(LineEnd::Fault(Reason::Word));
        };
        let fault = names_fault(alloc, rest)?;
        if let Some(reason) = fault {
            return Err(LineEnd::Fault(reason));
        }
        let version = self.instance.text_version();
        self.instance = with_names(alloc, version, rest)?;
        self.stage = Stage::Terms;
        Ok(())
    }

    /// Takes a term line or the end.
    fn take_later(&mut self, alloc: Global, line: &[u8]) -> Result<(), LineEnd>
        requires stage { self.old.stage ≡ Terms }
        requires short { length line.now ≤ text_limit }
        ensures { MatchResult result
            (λ _. Takes (state_of self.old) line.now (state_of self.new))
            (IsLineRefusal (state_of self.old) line.now) }
    {
        if !is_last(line) {
            return add_line(alloc, &mut self.instance, line);
        }
        if !are_good_bytes(line) {
            return Err(LineEnd::Fault(Reason::Bytes));
        }
        if token(line, 1).is_some() {
            return Err(LineEnd::Fault(Reason::Shape));
        }
        self.stage = Stage::Ended;
        Ok(())
    }
}
