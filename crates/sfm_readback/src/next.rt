// The lines of a text, one after another.
ghost use Rattle.std.specs.Prelude.{◌≡◌, ◌≢◌, ◌↔◌, ℕ, ◌+◌, ◌<◌, ◌≤◌, List, length, slice_index, IsTrue, IfOk, IfErr, IfSome, IfNone};
ghost use Rattle.sfm_readback.specs.Reading.{IsNextLine, Takes, IsStuck, EndsStuck};

use crate::cursor::Cursor;
use crate::numbers::split_at_first;
use sfm_cert::AnswerEnd;

/// The line that begins at a place, without its line feed, or None where no line feed follows.
fn next_line(text: &[u8], at: usize) -> Option<&[u8]>
    requires { at ≤ length text.now }
    ensures found { IfSome result (λ line. IsNextLine text.now at line.now) }
    ensures within { IfSome result (λ line. at + length line.now + 1 ≤ length text.now) }
    ensures none { IfNone result ((line : List ℕ) → IsNextLine text.now at line → ⊥) }
{
    let (line, _) = split_at_first(&text[at..], b'\n')?;
    Some(line)
}

/// Reads the next line, or gives None where no line feed follows.
pub fn take_line<'a>(text: &'a [u8], cursor: &mut Cursor) -> Option<&'a [u8]>
    requires { cursor.old.at ≤ length text.now }
    ensures taken { IfSome result (λ line. Takes text.now cursor.old cursor.new line.now) }
    ensures within { IfSome result (λ _. cursor.new.at ≤ length text.now) }
    ensures none { IfNone result ((line : List ℕ) → IsNextLine text.now cursor.old.at line → ⊥) }
{
    let line = next_line(text, cursor.at)?;
    *cursor = Cursor {
        at: cursor.at + line.len() + 1,
        line: cursor.line + 1,
    };
    Some(line)
}

/// Reads a line that is due.
pub fn expect(text: &[u8], cursor: &mut Cursor, due: &[u8]) -> Result<(), AnswerEnd>
    requires { cursor.old.at ≤ length text.now }
    ensures taken { IfOk result (λ _. Takes text.now cursor.old cursor.new due.now) }
    ensures within { IfOk result (λ _. cursor.new.at ≤ length text.now) }
    ensures stuck { IfErr result (EndsStuck text.now cursor.old (λ line. line ≡ due.now)) }
{
    let end = AnswerEnd::BadLine { line: cursor.line };
    let Some(line) = take_line(text, cursor) else {
        return Err(end);
    };
    if line != due {
        return Err(end);
    }
    Ok(())
}

/// Whether the text goes on with this byte.
pub fn begins(text: &[u8], cursor: &Cursor, first: u8) -> bool
    requires { 0 < first }
    ensures { IsTrue result ↔ (slice_index text.now cursor.now.at ≡ first) }
{
    cursor.at < text.len() && text[cursor.at] == first
}
