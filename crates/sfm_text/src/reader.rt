// Reading an instance text in pieces. A line is judged as soon as it ends, against what the lines before it led to. So only
// the names, the terms and the line that has not ended are kept, and behind the first fault no more than a count of bytes.
ghost use Rattle.std.specs.{Prelude.{◌≡◌, ◌==◌, ◌+◌, ◌≤◌, ◌<◌, ℕ, List, [], ◌∷◌, ◌++◌, length, replicate, true, false, None, Err, IfOk, IfErr, IsOk, OnOk, OnErr, MatchOption}, List.{All, concat}};
ghost use Rattle.sfm_lines.specs.Lines.{texts_of};
ghost use Rattle.sfm_text.specs.{GoodText.{text_limit, IsTextOf, IsRefusalOf}, Numbered.{AreNumbersOf, for_terms}};
ghost use Rattle.sfm_text.specs.declared.end.TextEnd.TheVariants as ends;

use crate::end::{Fault, TextEnd};
use crate::lines::line_end;
use crate::reading::Reading;
use sfm_base::Memory;
use sfm_kind::Instance;
use sfm_lines::{LineEnd, Reason, Stage};
use std::alloc::{AllocError, Global};
use std::mem;

/// The most bytes of an instance text.
pub const TEXT_LIMIT: usize = 16_777_216;

/// What a good text stands for, with the numbers of its lines, counted from 1.
pub struct Numbered {
    /// The names and the terms.
    pub instance: Instance,
    /// The number of the line with the names.
    pub ground_line: usize,
    /// For each term, in order, the number of its line: the layers of a rank have that of one line.
    pub term_lines: Vec<usize>,
}

// Written out, so that letting one go is one step, which is proved here once.
impl Drop for Numbered {
    fn drop(self) {
        let Self {
            instance: _,
            ground_line: _,
            term_lines: _,
        } = self;
    }
}

impl Numbered {
    /// The instance alone.
    pub fn into_instance(self) -> Instance
        ensures { result ≡ self.instance }
    {
        let Numbered {
            instance,
            ground_line: _,
            term_lines: _,
        } = self;
        instance
    }
}

/// A reader of an instance text that comes in pieces, cut anywhere.
pub struct Reader {
    /// Whether a call ran out of memory: then all further calls say so.
    spent: bool,
    /// How many bytes have come, or one more than a text may have where more have come.
    count: usize,
    /// How many lines have ended.
    lines: usize,
    /// The numbers of the content lines that were taken, of the header first and of the ground line second.
    numbers: Vec<usize>,
    /// The bytes of the line that has not ended.
    rest: Vec<u8>,
    /// What the lines that have ended led to.
    reading: Reading,
    /// The first fault of a line that has ended.
    fault: Option<Fault>,
    ghost counted: { count ≤ 16777217 },
    ghost fewer: { lines + length rest.items ≤ count },
}

// Written out, so that letting one go is one step, which is proved here once.
impl Drop for Reader {
    fn drop(self) {
        let Self {
            spent: _,
            count: _,
            lines: _,
            numbers: _,
            rest: _,
            reading: _,
            fault: _,
        } = self;
    }
}

impl Reader {
    ghost use Rattle.sfm_text.specs.{GoodText.{EndsEarly}, Standing.{Stands, HasRead, HasReadAll, LeadsTo, IsOpen, JudgesLine, IsToldBy, progress_of}};

    /// Nothing has been read.
    ///
    /// # Errors
    ///
    /// None: nothing is asked of memory before the first piece.
    pub fn new(alloc: Global) -> Result<Reader, Memory>
        ensures stands { IfOk result (λ reader. Stands reader []) }
        ensures fresh { IfOk result (λ reader. reader.spent ≡ false) }
        ensures made { IsOk result }
    {
        Ok(Reader {
            spent: false,
            count: 0,
            lines: 0,
            numbers: Vec::new(alloc),
            rest: Vec::new(alloc),
            reading: Reading::new(alloc),
            fault: None,
        })
    }

    /// Reads the next piece of the text.
    ///
    /// # Errors
    ///
    /// `Memory` where there is none. The reader is then spent, and all further calls answer `Memory` too.
    pub fn feed(&mut self, alloc: Global, piece: &[u8]) -> Result<(), Memory>
        ensures stands { OnOk result ((text : List ℕ) → Stands self.old text
            → Stands self.new (text ++ piece.now)) }
        ensures fresh { OnOk result ((self.old.spent ≡ false) × (self.new.spent ≡ false)) }
        ensures spent { OnErr result (self.new.spent ≡ true) }
    {
        if self.spent {
            return Err(Memory);
        }
        match self.read_piece(alloc, piece) {
            Ok(()) => Ok(()),
            Err(_) => {
                self.spent = true;
                Err(Memory)
            }
        }
    }

    /// The instance of the whole text, or its first fault.
    ///
    /// # Errors
    ///
    /// `Refused` with the line and the reason of the first fault; `Memory` where there is none, and where the reader is
    /// spent.
    pub fn finish(self, alloc: Global) -> Result<Instance, TextEnd>
        ensures read { IfOk result (λ instance. (text : List ℕ) → Stands self text
            → IsTextOf text instance) }
        ensures refused { IfErr result (λ end. (text : List ℕ) → Stands self text
            → IsRefusalOf text end) }
        ensures spent { self.spent ≡ true → result ≡ Err ends.Memory }
    {
        let numbered = self.finish_numbered(alloc)?;
        Ok(numbered.into_instance())
    }

    /// The instance of the whole text and the numbers of its lines, or its first fault.
    ///
    /// # Errors
    ///
    /// As those of `finish`.
    pub fn finish_numbered(mut self, alloc: Global) -> Result<Numbered, TextEnd>
        ensures read { IfOk result (λ r. (text : List ℕ) → Stands self text
            → IsTextOf text r.instance) }
        ensures numbered { IfOk result (λ r. (text : List ℕ) → Stands self text
            → AreNumbersOf text r.ground_line
            r.instance.lines r.term_lines.items) }
        ensures counted { IfOk result (λ r. (text : List ℕ) → Stands self text
            → length r.term_lines.items ≡ length r.instance.terms) }
        ensures refused { IfErr result (λ end. (text : List ℕ) → Stands self text
            → IsRefusalOf text end) }
        ensures spent { self.spent ≡ true → result ≡ Err ends.Memory }
    {
        self.close(alloc)?;
        let lines = self.lines;
        match self.into_numbered(alloc)? {
            Some(numbered) => Ok(numbered),
            None => Err(TextEnd::Refused {
                line: lines + 1,
                reason: Reason::Short,
            }),
        }
    }

    /// What was read of a text without a faulty line, or None where it ends too early, of a reader that is done with.
    fn into_numbered(self, alloc: Global) -> Result<Option<Numbered>, Memory>
        ensures { IfOk result (λ told. MatchOption told
            ((text : List ℕ) → LeadsTo text (progress_of self) → EndsEarly text)
            (λ r. (text : List ℕ) → LeadsTo text (progress_of self) → IsToldBy text r)) }
    {
        let Reader {
            spent: _,
            count: _,
            lines: _,
            numbers,
            rest: _,
            reading,
            fault: _,
        } = self;
        if reading.stage != Stage::Ended {
            return Ok(None);
        }
        let Some((ground_line, between)) = split_numbers(numbers) else {
            return Ok(None);
        };
        let instance = reading.into_instance();
        let term_lines = numbers_of_terms(alloc, instance.lines(), &between)?;
        Ok(Some(Numbered {
            instance,
            ground_line,
            term_lines,
        }))
    }

    /// Reads what is left of the text: a line with a fault, or too many bytes, end the reader.
    fn close(&mut self, alloc: Global) -> Result<(), TextEnd>
        ensures read { OnOk result ((text : List ℕ) → Stands self.old text
            → (length text ≤ text_limit) × LeadsTo text (progress_of self.new)) }
        ensures refused { IfErr result (λ end. (text : List ℕ) → Stands self.old text
            → IsRefusalOf text end) }
        ensures spent { self.old.spent ≡ true → result ≡ Err ends.Memory }
    {
        if self.spent {
            return Err(TextEnd::Memory);
        }
        let count = self.count;
        if count > TEXT_LIMIT {
            return Err(TextEnd::Refused {
                line: 0,
                reason: Reason::Long,
            });
        }
        self.read_end(alloc)?;
        match self.fault {
            Some(fault) => Err(TextEnd::Refused {
                line: fault.line,
                reason: fault.reason,
            }),
            None => Ok(()),
        }
    }

    /// Counts the bytes of a piece, and reads it where the text is neither too long nor faulty before it.
    fn read_piece(&mut self, alloc: Global, piece: &[u8]) -> Result<(), Memory>
        ensures stands { OnOk result ((text : List ℕ) → Stands self.old text
            → Stands self.new (text ++ piece.now)) }
        ensures spent { self.new.spent ≡ self.old.spent }
    {
        let count = (self.count + piece.len()).min(TEXT_LIMIT + 1);
        self.count = count;
        if count > TEXT_LIMIT {
            return Ok(());
        }
        if self.fault.is_some() {
            return Ok(());
        }
        self.read_lines(alloc, piece)
    }

    /// Reads a piece, whose bytes have been counted, up to the first fault.
    fn read_lines(&mut self, alloc: Global, piece: &[u8]) -> Result<(), Memory>
        requires faultless { self.old.fault ≡ None }
        requires room { self.old.lines + length self.old.rest.items + length piece.now
            ≤ self.old.count }
        ensures read { OnOk result ((text : List ℕ) → IsOpen
            (progress_of self.old) self.old.rest.items text
            → HasRead self.new (text ++ piece.now)) }
        ensures count { self.new.count ≡ self.old.count }
        ensures spent { self.new.spent ≡ self.old.spent }
    {
        let mut left = piece;
        let mut end = line_end(left);
        while end < left.len() {
            self.read_line(alloc, &left[..end])?;
            if self.fault.is_some() {
                return Ok(());
            }
            left = &left[end + 1..];
            end = line_end(left);
        }
        self.rest.extend_from_slice(left)?;
        Ok(())
    }

    /// Ends the line that has not ended with these bytes, which hold no line feed, and judges it.
    fn read_line(&mut self, alloc: Global, front: &[u8]) -> Result<(), Memory>
        requires faultless { self.old.fault ≡ None }
        requires room { self.old.lines + length self.old.rest.items + length front.now
            < self.old.count }
        requires plain { All (λ c. (c == 10) ≡ false) front.now }
        ensures read { OnOk result ((text : List ℕ) → IsOpen
            (progress_of self.old) self.old.rest.items text
            → HasRead self.new (text ++ front.now ++ 10 ∷ [])) }
        ensures rest { self.new.rest.items ≡ [] }
        ensures lines { self.new.lines ≤ self.old.lines + 1 }
        ensures count { self.new.count ≡ self.old.count }
        ensures spent { self.new.spent ≡ self.old.spent }
    {
        if self.rest.is_empty() {
            return self.judge(alloc, front);
        }
        let mut line = mem::replace(&mut self.rest, Vec::new(alloc));
        line.extend_from_slice(front)?;
        self.judge(alloc, &line)
    }

    /// Reads the last line, where it has not ended.
    fn read_end(&mut self, alloc: Global) -> Result<(), Memory>
        requires { self.old.count ≤ text_limit }
        ensures read { OnOk result ((text : List ℕ) → HasRead self.old text
            → HasReadAll self.new text) }
    {
        if self.fault.is_some() {
            return Ok(());
        }
        if self.rest.is_empty() {
            return Ok(());
        }
        let line = mem::replace(&mut self.rest, Vec::new(alloc));
        self.judge(alloc, &line)
    }

    /// Judges a piece of the text as a line.
    fn judge(&mut self, alloc: Global, piece: &[u8]) -> Result<(), Memory>
        requires faultless { self.old.fault ≡ None }
        requires room { self.old.lines + length self.old.rest.items < self.old.count }
        requires short { length piece.now ≤ text_limit }
        ensures judged { OnOk result (JudgesLine self.old piece.now self.new) }
        ensures rest { self.new.rest.items ≡ self.old.rest.items }
        ensures lines { self.new.lines ≤ self.old.lines + 1 }
        ensures count { self.new.count ≡ self.old.count }
        ensures spent { self.new.spent ≡ self.old.spent }
    {
        match self.reading.take_line(alloc, piece) {
            Ok(true) => {
                self.lines += 1;
                self.numbers.push(self.lines)?;
                Ok(())
            }
            Ok(false) => {
                self.lines += 1;
                Ok(())
            }
            Err(LineEnd::Fault(reason)) => {
                let line = self.lines + 1;
                self.fault = Some(Fault { line, reason });
                Ok(())
            }
            Err(LineEnd::Memory) => Err(Memory),
        }
    }
}

/// The numbers of the ground line and of the term lines, of those of all content lines of a good text: the header has the first,
/// and the line `end` the last. None where these are fewer than three.
fn split_numbers(mut numbers: Vec<usize>) -> Option<(usize, Vec<usize>)>
    ensures { MatchOption result (length numbers.items < 3) (λ r. (header : ℕ) × (last : ℕ)
        × (numbers.items ≡ header ∷ r.0 ∷ (r.1.items ++ last ∷ []))) }
{
    if numbers.len() < 3 {
        return None;
    }
    let _header = numbers.remove(0);
    let ground_line = numbers.remove(0);
    let _last = numbers.pop();
    Some((ground_line, numbers))
}

/// Puts an item so many times behind others.
fn push_times(all: &mut Vec<usize>, item: usize, count: usize) -> Result<(), AllocError>
    ensures { OnOk result (all.new.items ≡ all.old.items ++ replicate count item) }
{
    for _ in 0..count {
        all.push(item)?;
    }
    Ok(())
}

/// The numbers of the lines of terms, by those of the term lines, of lines with so many layers.
fn numbers_of_terms(
    alloc: Global,
    layers: &[usize],
    numbers: &[usize],
) -> Result<Vec<usize>, Memory>
    ensures { IfOk result (λ r. r.items ≡ for_terms layers.now numbers.now) }
{
    let mut all = Vec::new(alloc);
    for i in 0..layers.len().min(numbers.len()) {
        push_times(&mut all, numbers[i], layers[i].max(1))?;
    }
    Ok(all)
}

/// The instance that a text stands for, or its first fault.
///
/// # Errors
///
/// `Refused` with the line and the reason of the first fault; `Memory` where there is none.
pub fn read_instance(alloc: Global, text: &[u8]) -> Result<Instance, TextEnd>
    ensures read { IfOk result (λ instance. IsTextOf text.now instance) }
    ensures refused { IfErr result (IsRefusalOf text.now) }
{
    read_pieces(alloc, &[text])
}

/// The instance of a text that comes in pieces, or its first fault: the same wherever the text is cut.
///
/// # Errors
///
/// `Refused` with the line and the reason of the first fault; `Memory` where there is none.
pub fn read_pieces(alloc: Global, pieces: &[&[u8]]) -> Result<Instance, TextEnd>
    ensures read { IfOk result (λ instance. IsTextOf (concat (texts_of pieces.now)) instance) }
    ensures refused { IfErr result (IsRefusalOf (concat (texts_of pieces.now))) }
{
    let mut reader = Reader::new(alloc)?;
    for piece in pieces {
        reader.feed(alloc, piece)?;
    }
    reader.finish(alloc)
}

/// The instance of a text and the numbers of its lines, or its first fault.
///
/// # Errors
///
/// `Refused` with the line and the reason of the first fault; `Memory` where there is none.
pub fn read_numbered(alloc: Global, text: &[u8]) -> Result<Numbered, TextEnd>
    ensures read { IfOk result (λ r. IsTextOf text.now r.instance) }
    ensures numbered { IfOk result (λ r. AreNumbersOf text.now r.ground_line
        r.instance.lines r.term_lines.items) }
    ensures counted { IfOk result (λ r. length r.term_lines.items ≡ length r.instance.terms) }
    ensures refused { IfErr result (IsRefusalOf text.now) }
{
    let mut reader = Reader::new(alloc)?;
    reader.feed(alloc, text)?;
    reader.finish_numbered(alloc)
}
