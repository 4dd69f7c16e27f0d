// The frame of a text beside an instance: the header, the end, what stands behind it, bad bytes, and the end of the text. All
// this is the same in every form, and comes before or behind what a form says of its own lines: a bad byte comes before every
// other reason of a line, a line that begins with `end` is no form's, and a line behind the end is wrong whatever it says.
// So a form is a loop over the lines that `next_line` gives. What these lines add is the form's matter: the clauses here speak
// of no form, and the lemmas of `proofs/Framing.antt` say what follows for each.
ghost use Rattle.std.specs.Prelude.{◌≡◌, ◌∷◌, [], codes, IfOk, IfErr, MatchOption, MatchResult};
ghost use Rattle.sfm_side.specs.Frame.{IsInner, IsLineWith, IsHeaderReason, IsPastReason, IsDueLine};

use sfm_text::{
    Line, Lines, Reason, TEXT_LIMIT, TextEnd, are_good_bytes, behind_token, is_last, is_version,
    token,
};

/// The lines of a text that stand between its header and its end.
#[derive(Clone, Copy)]
pub struct Frame<'a> {
    lines: Lines<'a>,
}

/// What a line is where a line of a form or the end is due.
#[derive(Clone, Copy)]
enum Due {
    /// A line for the form to judge.
    Inner,
    /// The end.
    End,
    /// A line that every form refuses, for that reason.
    Faulty(Reason),
}

/// The first reason of a line where the header with that word is due, or None where the line is this header.
fn header_reason(word: &[u8], line: &[u8]) -> Option<Reason>
    ensures { MatchOption result
        (IsLineWith line.now (word.now ∷ codes "1" ∷ []))
        (IsHeaderReason word.now line.now) }
{
    if !are_good_bytes(line) {
        return Some(Reason::Bytes);
    }
    let Some(rest) = behind_token(line, word) else {
        return Some(Reason::Word);
    };
    if is_version(rest) {
        None
    } else {
        Some(Reason::Shape)
    }
}

/// What a line is where a line of a form or the end is due.
fn due_line(line: &[u8]) -> Due
    ensures { IsDueLine line.now result }
{
    if !are_good_bytes(line) {
        return Due::Faulty(Reason::Bytes);
    }
    if !is_last(line) {
        return Due::Inner;
    }
    if token(line, 1).is_some() {
        return Due::Faulty(Reason::Shape);
    }
    Due::End
}

/// The first reason of a line behind the end.
fn past_reason(line: &[u8]) -> Reason
    ensures { IsPastReason line.now result }
{
    if are_good_bytes(line) {
        Reason::Word
    } else {
        Reason::Bytes
    }
}

impl<'a> Frame<'a> {
    ghost use Rattle.sfm_side.specs.Frame.{left_of, text_in, IsOpened, IsOpenRefusal, IsLeftRefusal, IsAtEnd, IsPastRefusal};

    /// The text behind its header, whose first token is that word.
    ///
    /// # Errors
    ///
    /// `Refused` with the first fault of the text in every form with this word, where it has no such header: `long` at line 0,
    /// `short` behind the last line where no line has content, else the first reason of the first content line. Never `Memory`.
    pub fn open(text: &'a [u8], word: &[u8]) -> Result<Frame<'a>, TextEnd>
        ensures opened { IfOk result (IsOpened word.now text.now) }
        ensures refused { IfErr result (IsOpenRefusal word.now text.now) }
    {
        if text.len() > TEXT_LIMIT {
            return Err(TextEnd::Refused {
                line: 0,
                reason: Reason::Long,
            });
        }
        let mut lines = Lines::new(text);
        let Some(first) = lines.next_content() else {
            return Err(TextEnd::Refused {
                line: lines.number(),
                reason: Reason::Short,
            });
        };
        if let Some(reason) = header_reason(word, first.bytes) {
            return Err(TextEnd::Refused {
                line: first.number,
                reason,
            });
        }
        Ok(Frame { lines })
    }

    /// The next line that is for the form to judge, or None at the end of the text, which is then good as far as the frame goes.
    ///
    /// # Errors
    ///
    /// `Refused` with the next line that every form refuses, and its first reason, or `short` behind the last line where there
    /// is no end. Never `Memory`.
    pub fn next_line(&mut self) -> Result<Option<Line<'a>>, TextEnd>
        ensures next { MatchResult result
            (λ told. MatchOption told
            (IsAtEnd (left_of self.old))
            (λ line. IsInner line.bytes.now
            × (left_of self.old ≡ (line.number, line.bytes.now) ∷ left_of self.new)))
            (IsLeftRefusal (text_in self.old) (left_of self.old)) }
        ensures text { text_in self.new ≡ text_in self.old }
    {
        let Some(line) = self.lines.next_content() else {
            return Err(TextEnd::Refused {
                line: self.lines.number(),
                reason: Reason::Short,
            });
        };
        match due_line(line.bytes) {
            Due::Inner => Ok(Some(line)),
            Due::Faulty(reason) => Err(TextEnd::Refused {
                line: line.number,
                reason,
            }),
            Due::End => match self.past_end() {
                None => Ok(None),
                Some(end) => Err(end),
            },
        }
    }

    /// The refusal of the next line, as behind the end, or None where no line is left.
    fn past_end(&mut self) -> Option<TextEnd>
        ensures end { MatchOption result
            (left_of self.old ≡ [])
            (IsPastRefusal (left_of self.old)) }
        ensures text { text_in self.new ≡ text_in self.old }
    {
        match self.lines.next_content() {
            None => None,
            Some(line) => Some(TextEnd::Refused {
                line: line.number,
                reason: past_reason(line.bytes),
            }),
        }
    }
}
