// The lines of a text one after another, each found where the one before ends, so that no list of them is kept; and the
// content lines, which are those that are neither blank nor comments.
ghost use Rattle.std.specs.{Prelude.{◌≡◌, ◌≤◌, ◌==◌, ℕ, ◌+◌, List, [], ◌∷◌, drop, length, map, slice_index, slice_range, IsTrue, IfOk, MatchOption, IfSome, IfNone}, Str.Lines.{strip_carriage_return}, List.{All, position_or_len}};
ghost use Rattle.sfm_lines.specs.Lines.{lines_of};
ghost use Rattle.sfm_text.specs.Places.{span_of, placed_content, lines_from, LiesIn};

use sfm_base::Memory;
use sfm_lines::pair::place_of_byte;
use sfm_lines::tokens::is_skipped;
use std::alloc::Global;

/// A line of a text, without its line feed and without a carriage return at its end.
#[derive(Clone, Copy)]
pub struct Line<'a> {
    /// The number of the line, counted from 1.
    pub number: usize,
    /// The place in the text at which it begins.
    pub start: usize,
    /// Its bytes.
    pub bytes: &'a [u8],
}

/// The lines of a text that are still to come.
#[derive(Clone, Copy)]
pub struct Lines<'a> {
    text: &'a [u8],
    at: usize,
    number: usize,
    ghost within: { at ≤ length text.now },
    ghost counted: { number ≤ at + 1 },
    ghost whole: { number + length (lines_from number at (drop at text.now))
        ≡ length (lines_of text.now) + 1 },
}

/// The line without a carriage return at its end.
pub fn without_return(line: &[u8]) -> &[u8]
    ensures stripped { result.now ≡ strip_carriage_return line.now }
    ensures shorter { length result.now ≤ length line.now }
{
    match line {
        [front @ .., b'\r'] => front,
        _ => line,
    }
}

/// The place of the first line feed, or the length where there is none.
pub fn line_end(text: &[u8]) -> usize
    ensures { result ≡ position_or_len (λ c. c == 10) text.now }
{
    place_of_byte(text, b'\n')
}

impl<'a> Lines<'a> {
    ghost use Rattle.sfm_lines.specs.Lines.{lines_of, content_of};
    ghost use Rattle.sfm_text.specs.{Places.{placed_content, LiesIn}, Cursor.{lines_left, placed_left, content_left, line_of, text_of, next_number}};

    /// All lines of a text.
    pub fn new(text: &'a [u8]) -> Lines<'a>
        ensures content { content_left result ≡ content_of text.now }
        ensures places { placed_left result ≡ placed_content text.now }
        ensures text { text_of result ≡ text.now }
    {
        Lines {
            text,
            at: 0,
            number: 1,
        }
    }

    /// The number of the next line; one more than the number of lines where none is left.
    pub fn number(&self) -> usize
        ensures { result ≡ next_number self.now }
    {
        self.number
    }

    /// The next line, or None at the end of the text.
    fn next_line(&mut self) -> Option<Line<'a>>
        ensures next { MatchOption result
            (lines_left self.old ≡ [])
            (λ line. lines_left self.old ≡ line_of line ∷ lines_left self.new) }
        ensures end { IfNone result (lines_left self.new ≡ []) }
        ensures placed { IfSome result (λ line. LiesIn (text_of self.old) (line_of line)) }
        ensures text { text_of self.new ≡ text_of self.old }
    {
        let rest = &self.text[self.at..];
        if rest.is_empty() {
            return None;
        }
        let end = line_end(rest);
        let line = Line {
            number: self.number,
            start: self.at,
            bytes: without_return(&rest[..end]),
        };
        self.at += rest.len().min(end + 1);
        self.number += 1;
        Some(line)
    }

    /// The next line that is neither blank nor a comment, or None where no such line is left. The number of the next line is then
    /// one more than that of all lines.
    pub fn next_content(&mut self) -> Option<Line<'a>>
        ensures next { MatchOption result
            (content_left self.old ≡ [])
            (λ line. content_left self.old
            ≡ (line.number, line.bytes.now) ∷ content_left self.new) }
        ensures places { MatchOption result
            (placed_left self.old ≡ [])
            (λ line. placed_left self.old ≡ line_of line ∷ placed_left self.new) }
        ensures placed { IfSome result (λ line. LiesIn (text_of self.old) (line_of line)) }
        ensures end { IfNone result
            (next_number self.new ≡ length (lines_of (text_of self.new)) + 1) }
        ensures text { text_of self.new ≡ text_of self.old }
    {
        while let Some(line) = self.next_line() {
            if !is_skipped(line.bytes) {
                return Some(line);
            }
        }
        None
    }
}

/// The number, beginning and end of each line that is neither blank nor a comment.
///
/// # Errors
///
/// `Memory` where there is none.
pub fn content_lines(alloc: Global, text: &[u8]) -> Result<Vec<(usize, usize, usize)>, Memory>
    ensures spans { IfOk result (λ v. v.items ≡ map span_of (placed_content text.now)) }
    ensures placed { IfOk result (λ _. All (LiesIn text.now) (placed_content text.now)) }
{
    let mut spans = Vec::new(alloc);
    let mut lines = Lines::new(text);
    while let Some(line) = lines.next_content() {
        spans.push((line.number, line.start, line.start + line.bytes.len()))?;
    }
    Ok(spans)
}
