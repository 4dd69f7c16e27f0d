// Files that commands open: each is read whole, and stands for something, or is refused.
ghost use Rattle.std.specs.Prelude.{◌≡◌, ℕ, List, [], length, IfOk, ◌≤ℤ◌};
ghost use Rattle.sfm_kind.specs.Limits.{total_size_of};
ghost use Rattle.sfm_sizes.specs.Sizes.{AreElementSizes};
ghost use Rattle.sfm_text.specs.{GoodText.{IsTextOf}, Numbered.{AreNumbersOf}};
ghost use Rattle.sfm_side.specs.PinLines.{AreOver, pins_of};
ghost use Rattle.sfm_due.specs.{Level.{level_limit}, Meanings.{question_of}};
ghost use Rattle.sfm_due.specs.Lined.{IsLined};
ghost use Rattle.sfm_meet.specs.Meetable.{AreMeetable};
ghost use Rattle.sfm_pair.specs.Sides.{lined_of};
ghost use Rattle.sfm_run.specs.{Files.{edits_file, left_file, level_file, pins_file, right_file, sizes_file}, Preparing.{IsClashing, IsFaulty, OpensFile, Tells, items_of}, Tasks.{main_file}};

use crate::stop::Stop;
use sfm_due::{Status, feed_text, read_text, refuse, too_large};
use sfm_edit::apply;
use sfm_io::Shelf;
use sfm_kind::Instance;
use sfm_pair::{Clash, clash_of, refuse_clash};
use sfm_side::{Pins, read_pins, read_sizes};
use sfm_text::{Numbered, Reason, TEXT_LIMIT, TextEnd};
use std::alloc::Global;

/// What a text with this fault comes to, which that word refuses.
fn faulty(alloc: Global, word: &[u8], line: usize, reason: Reason) -> Stop
    ensures { IsFaulty word.now line reason result }
{
    match refuse(alloc, word, line, reason) {
        Ok(due) => Stop::Faulty(due),
        Err(_) => Stop::Failed(Status::Memory),
    }
}

/// Opens a file with the instance that a command is about.
pub fn open_instance<S: Shelf>(alloc: Global, shelf: &mut S, file: &str) -> Result<Instance, Stop>
    ensures { OpensFile question_of (main_file file.now) (S.state shelf.old) (S.state shelf.new)
        result }
{
    let reader = feed_text(alloc, shelf, file)?;
    match reader.finish(alloc) {
        Ok(instance) => Ok(instance),
        Err(TextEnd::Refused { line, reason }) => Err(faulty(alloc, b"refused", line, reason)),
        Err(TextEnd::Memory) => Err(Stop::Failed(Status::Memory)),
    }
}

/// The sizes that a text gives the elements of an instance, or what is due for a text with a fault.
fn sizes_in(alloc: Global, instance: &Instance, text: &[u8]) -> Result<Vec<i128>, Stop>
    ensures told { Tells items_of (sizes_file (question_of instance.now) []) text.now result }
    ensures sizes { IfOk result (λ v. AreElementSizes (length instance.now.names)
        (items_of v)) }
{
    match read_sizes(alloc, instance, text) {
        Ok(sizes) => Ok(sizes),
        Err(TextEnd::Refused { line, reason }) => Err(faulty(alloc, b"sizes", line, reason)),
        Err(TextEnd::Memory) => Err(Stop::Failed(Status::Memory)),
    }
}

/// Opens a file with the sizes of the elements of an instance.
pub fn open_sizes<S: Shelf>(
    alloc: Global,
    shelf: &mut S,
    instance: &Instance,
    file: &str,
) -> Result<Vec<i128>, Stop>
    ensures opened { OpensFile items_of (sizes_file (question_of instance.now) file.now)
        (S.state shelf.old) (S.state shelf.new) result }
    ensures sizes { IfOk result (λ v. AreElementSizes (length instance.now.names)
        (items_of v)) }
{
    match read_text(alloc, shelf, file, TEXT_LIMIT)? {
        Some(text) => sizes_in(alloc, instance, text.as_slice()),
        None => Err(faulty(alloc, b"sizes", 0, Reason::Long)),
    }
}

/// The elements of an instance that a text pins, or what is due for a text with a fault.
fn pins_in(alloc: Global, instance: &Instance, text: &[u8]) -> Result<Pins, Stop>
    ensures told { Tells pins_of (pins_file (question_of instance.now) []) text.now result }
    ensures over { IfOk result (λ p. AreOver (length instance.now.names) (pins_of p)) }
{
    match read_pins(alloc, instance, text) {
        Ok(pins) => Ok(pins),
        Err(TextEnd::Refused { line, reason }) => Err(faulty(alloc, b"pins", line, reason)),
        Err(TextEnd::Memory) => Err(Stop::Failed(Status::Memory)),
    }
}

/// Opens a file with pinned elements of an instance.
pub fn open_pins<S: Shelf>(
    alloc: Global,
    shelf: &mut S,
    instance: &Instance,
    file: &str,
) -> Result<Pins, Stop>
    ensures opened { OpensFile pins_of (pins_file (question_of instance.now) file.now)
        (S.state shelf.old) (S.state shelf.new) result }
    ensures over { IfOk result (λ p. AreOver (length instance.now.names) (pins_of p)) }
{
    match read_text(alloc, shelf, file, TEXT_LIMIT)? {
        Some(text) => pins_in(alloc, instance, text.as_slice()),
        None => Err(faulty(alloc, b"pins", 0, Reason::Long)),
    }
}

/// An instance of which the most level base is found, or what is due for one whose sizes add to too much.
fn level_in(alloc: Global, numbered: Numbered) -> Result<Instance, Stop>
    requires { length numbered.term_lines.items ≡ length numbered.instance.terms }
    ensures told { (text : List ℕ) → IsTextOf text numbered.instance
        → AreNumbersOf text numbered.ground_line
        numbered.instance.lines numbered.term_lines.items
        → Tells question_of (level_file []) text result }
    ensures small { IfOk result (λ instance. total_size_of instance.terms ≤ℤ level_limit) }
{
    match too_large(&numbered.instance, &numbered.term_lines) {
        Some(line) => Err(faulty(alloc, b"refused", line, Reason::Total)),
        None => Ok(numbered.into_instance()),
    }
}

/// Opens a file with an instance of which the most level base is asked for: one whose sizes add to more than 10^13 is refused
/// too, at the line at which they do.
pub fn open_level<S: Shelf>(alloc: Global, shelf: &mut S, file: &str) -> Result<Instance, Stop>
    ensures opened { OpensFile question_of (level_file file.now) (S.state shelf.old)
        (S.state shelf.new) result }
    ensures small { IfOk result (λ instance. total_size_of instance.terms ≤ℤ level_limit) }
{
    let reader = feed_text(alloc, shelf, file)?;
    match reader.finish_numbered(alloc) {
        Ok(numbered) => level_in(alloc, numbered),
        Err(TextEnd::Refused { line, reason }) => Err(faulty(alloc, b"refused", line, reason)),
        Err(TextEnd::Memory) => Err(Stop::Failed(Status::Memory)),
    }
}

/// Opens the left of two files with instances, of which the common vectors are asked for.
pub fn open_left<S: Shelf>(alloc: Global, shelf: &mut S, file: &str) -> Result<Numbered, Stop>
    ensures opened { OpensFile lined_of (left_file file.now) (S.state shelf.old)
        (S.state shelf.new) result }
    ensures counted { IfOk result (λ side. length side.term_lines.items
        ≡ length side.instance.terms) }
{
    let reader = feed_text(alloc, shelf, file)?;
    match reader.finish_numbered(alloc) {
        Ok(numbered) => Ok(numbered),
        Err(TextEnd::Refused { line, reason }) => Err(faulty(alloc, b"left", line, reason)),
        Err(TextEnd::Memory) => Err(Stop::Failed(Status::Memory)),
    }
}

/// What two good texts come to that do not go together.
fn clashing(alloc: Global, clash: Clash, line: usize) -> Stop
    ensures { IsClashing clash line result }
{
    match refuse_clash(alloc, clash, line) {
        Ok(due) => Stop::Faulty(due),
        Err(_) => Stop::Failed(Status::Memory),
    }
}

/// An instance beside another one, or what is due where they do not go together.
fn beside(alloc: Global, left: &Numbered, right: Numbered) -> Result<Numbered, Stop>
    requires left { length left.now.term_lines.items ≡ length left.now.instance.terms }
    requires right { length right.term_lines.items ≡ length right.instance.terms }
    ensures told { (text : List ℕ) → IsLined text (lined_of right)
        → Tells lined_of (right_file (lined_of left.now) []) text result }
    ensures meetable { IfOk result (λ r. AreMeetable left.now.instance r.instance) }
{
    match clash_of(left, &right) {
        Some((clash, line)) => Err(clashing(alloc, clash, line)),
        None => Ok(right),
    }
}

/// Opens the right one of them: one that does not go together with the left is refused too.
pub fn open_right<S: Shelf>(
    alloc: Global,
    shelf: &mut S,
    left: &Numbered,
    file: &str,
) -> Result<Numbered, Stop>
    requires { length left.now.term_lines.items ≡ length left.now.instance.terms }
    ensures opened { OpensFile lined_of (right_file (lined_of left.now) file.now)
        (S.state shelf.old) (S.state shelf.new) result }
    ensures meetable { IfOk result (λ r. AreMeetable left.now.instance r.instance) }
{
    let reader = feed_text(alloc, shelf, file)?;
    match reader.finish_numbered(alloc) {
        Ok(numbered) => beside(alloc, left, numbered),
        Err(TextEnd::Refused { line, reason }) => Err(faulty(alloc, b"right", line, reason)),
        Err(TextEnd::Memory) => Err(Stop::Failed(Status::Memory)),
    }
}

/// The instance that edits lead to, or what is due for a text of edits with a fault.
fn edits_in(alloc: Global, instance: Instance, text: &[u8]) -> Result<Instance, Stop>
    ensures { Tells question_of (edits_file (question_of instance) []) text.now result }
{
    match apply(alloc, instance, text) {
        Ok(edited) => Ok(edited.into_instance()),
        Err(TextEnd::Refused { line, reason }) => Err(faulty(alloc, b"edits", line, reason)),
        Err(TextEnd::Memory) => Err(Stop::Failed(Status::Memory)),
    }
}

/// Opens a file with edits of an instance, and gives the instance that they lead to.
pub fn open_edits<S: Shelf>(
    alloc: Global,
    shelf: &mut S,
    instance: Instance,
    file: &str,
) -> Result<Instance, Stop>
    ensures { OpensFile question_of (edits_file (question_of instance) file.now)
        (S.state shelf.old) (S.state shelf.new) result }
{
    match read_text(alloc, shelf, file, TEXT_LIMIT)? {
        Some(text) => edits_in(alloc, instance, text.as_slice()),
        None => Err(faulty(alloc, b"edits", 0, Reason::Long)),
    }
}
