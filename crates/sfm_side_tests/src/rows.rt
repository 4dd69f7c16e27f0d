// What a row of a table says: the line and the word of the first fault of a text, or what a good text gives.
use sfm_base::{Set, read_number};
use sfm_kind::Instance;
use sfm_text::{TextEnd, read_instance};
use std::alloc::Global;

/// The text of a row, in which `|` is a line feed.
pub fn text_of(alloc: Global, row: &str) -> Option<String> {
    row.replace(alloc, "|", "\n").ok()
}

/// The instance of a text in which `|` is a line feed.
pub fn read_text(alloc: Global, text: &str) -> Option<Instance> {
    let text = text_of(alloc, text)?;
    read_instance(alloc, text.as_bytes()).ok()
}

/// The instance with these lines, between which `|` stands.
pub fn instance_of(alloc: Global, lines: &str) -> Option<Instance> {
    let text = format!(in alloc; "sfm 1|{lines}|end").ok()?;
    read_text(alloc, text.as_str())
}

/// Whether a set of the elements a, b and c has those that are listed.
pub fn has_listed(set: &Set, list: &str) -> bool {
    set.len() == 3
        && set.contains(0) == list.contains('a')
        && set.contains(1) == list.contains('b')
        && set.contains(2) == list.contains('c')
}

/// Whether the end of a reading is that fault: its line and its word.
pub fn is_fault(end: TextEnd, fault: &str) -> bool {
    let (line, word) = fault.split_once(' ').unwrap_or((fault, ""));
    match end {
        TextEnd::Refused { line: at, reason } => {
            read_number(line.as_bytes()) == Some(at as i128) && word.as_bytes() == reason.word()
        }
        TextEnd::Memory => false,
    }
}

/// What is read of a text over an instance.
pub trait Read {
    /// What a good text gives.
    type Found: Drop;

    /// Reads a text.
    fn read(alloc: Global, instance: &Instance, text: &[u8]) -> Result<Self::Found, TextEnd>;

    /// Whether what was read is what a row lists.
    fn is_listed(found: &Self::Found, list: &str) -> bool;
}

/// Whether a text gives what is told: what is listed behind `=`, or else its first fault.
pub fn is_told<R: Read>(alloc: Global, instance: &Instance, text: &[u8], told: &str) -> bool {
    match R::read(alloc, instance, text) {
        Ok(found) => match told.strip_prefix("=") {
            Some(list) => R::is_listed(&found, list),
            None => false,
        },
        Err(end) => is_fault(end, told),
    }
}

/// Whether a row holds: what is told of a text, and behind an arrow that text.
fn is_row<R: Read>(alloc: Global, instance: &Instance, row: &str) -> bool {
    let (told, text) = row.split_once('>').unwrap_or((row, ""));
    match text_of(alloc, text) {
        Some(text) => is_told::<R>(alloc, instance, text.as_bytes(), told),
        None => false,
    }
}

/// Whether all rows hold over an instance with this ground line.
pub fn are_rows<R: Read>(alloc: Global, ground: &str, rows: &[&str]) -> bool {
    let Some(instance) = instance_of(alloc, ground) else {
        return false;
    };
    for row in rows {
        if !is_row::<R>(alloc, &instance, row) {
            return false;
        }
    }
    true
}
