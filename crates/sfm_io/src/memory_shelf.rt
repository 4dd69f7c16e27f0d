// A shelf over memory. It tells everything, and fails at the calls that it was told to fail at: so what a program does
// over it is known to the byte, also where a call fails in mid-stream. It keeps the place of the next byte, which lies
// within a text, so that a read copies from that text and no byte is stored twice.
ghost use Rattle.std.specs.{Prelude.{◌≡◌, ◌+◌, ◌<◌, ◌≤◌, [], ◌∷◌, ◌++◌, length, IfOk, is_ok, Some, None, MatchOption, refl, if◌then◌else◌}, Str.{bytes_eq}};
ghost use Rattle.sfm_io.specs.{Shelf.{Opens, Reads, text_named}, HeldShelf.{OpensHeld, ReadsHeld, state_of, text_at}};

use crate::asked::Asked;
use crate::calls::Calls;
use crate::{Failed, Shelf};
use sfm_base::Memory;
use std::alloc::Global;
use std::marker::Model;

/// A text and its name.
#[derive(Drop)]
struct Text {
    name: String,
    bytes: Vec<u8>,
}

impl Model for Text {
    ghost use Rattle.std.specs.Prelude.{List, ℕ, string_bytes};

    ghost Value = { List ℕ × List ℕ };

    ghost view = { λ t. (string_bytes t.name, t.bytes.items) };
}

impl Text {
    fn is_named(&self, name: &str) -> bool
        ensures { result ≡ bytes_eq self.now.0 name.now }
    {
        self.name.as_str() == name
    }

    fn as_slice(&self) -> &[u8]
        ensures { result.now ≡ self.now.1 }
    {
        self.bytes.as_slice()
    }
}

/// The next byte to be read: a text, and how many of its bytes were read.
#[derive(Clone, Copy)]
struct Place {
    text: usize,
    at: usize,
}

/// Texts in memory, read in pieces.
#[derive(Drop)]
pub struct MemoryShelf {
    alloc: Global,
    texts: Vec<Text>,
    place: Option<Place>,
    piece: usize,
    calls: Calls,
    asked: Asked,
}

impl Model for MemoryShelf {
    ghost use Rattle.sfm_io.specs.HeldShelf.{HeldShelf};

    ghost Value = { HeldShelf };

    ghost use Rattle.sfm_io.specs.MemoryShelf.{unread, IsReadable};

    ghost view = { λ s. record {
      texts = s.texts.items;
      rest = unread s.texts.items s.place;
      faults = s.calls.faults;
      calls = s.calls.made;
      piece = s.piece;
      failing = s.calls.failing;
      asked = s.asked.names;
    } };

    ghost invariant = { λ s. IsReadable s.texts.items s.place s.piece };
}

impl MemoryShelf {
    /// A shelf with no text. A read gives at most `piece` bytes. `failing` lists the calls that fail, numbered from 1
    /// over `open` and `read` together.
    pub fn new(alloc: Global, piece: usize, failing: &[usize]) -> Result<MemoryShelf, Memory>
        requires { 1 ≤ piece }
        ensures { IfOk result (λ s. s ≡ record {
          texts = [];
          rest = [];
          faults = 0;
          calls = 0;
          piece = piece;
          failing = failing.now;
          asked = [];
        }) }
    {
        let calls = Calls::new(alloc, failing)?;
        Ok(MemoryShelf {
            alloc,
            texts: Vec::new(alloc),
            place: None,
            piece,
            calls,
            asked: Asked::new(),
        })
    }

    /// Adds a copy of a text, before the first call.
    pub fn add(&mut self, name: &str, bytes: &[u8]) -> Result<(), Memory>
        requires fresh { text_named self.old.texts name.now ≡ None }
        requires unused { self.old.calls ≡ 0 }
        ensures { self.new ≡ (if is_ok result then record self.old {
          texts = self.old.texts
              ++ (name.now, bytes.now) ∷ [];
        } else self.old) }
    {
        let name = String::from_str(self.alloc, name)?;
        let bytes = Vec::from_slice(self.alloc, bytes)?;
        self.texts.push(Text { name, bytes })?;
        Ok(())
    }
}

/// The place of the first text of that name.
fn place_of(texts: &[Text], name: &str) -> Option<usize>
    ensures { MatchOption result (text_named texts.now name.now ≡ None)
        (λ i. (i < length texts.now) × (text_named texts.now name.now ≡ Some (text_at texts.now i))) }
{
    for (i, text) in texts.iter().enumerate() {
        if text.is_named(name) {
            return Some(i);
        }
    }
    None
}

impl Shelf for MemoryShelf {
    ghost state = { state_of };

    /// Fails exactly at a listed call, or where no text has that name.
    fn open(&mut self, name: &str) -> Result<(), Failed>
        ensures exact { OpensHeld self.old name.now result self.new }
        ensures opens { Opens (state_of self.old) name.now result (state_of self.new) }
    {
        self.asked = self.asked.and(name);
        self.place = None;
        self.calls.make()?;
        let Some(text) = place_of(self.texts.as_slice(), name) else {
            return Err(self.calls.fail());
        };
        self.place = Some(Place { text, at: 0 });
        Ok(())
    }

    /// Fails exactly at a listed call.
    fn read(&mut self, buf: &mut [u8]) -> Result<usize, Failed>
        ensures exact { ReadsHeld self.old buf.old result buf.new self.new }
        ensures reads { Reads (state_of self.old) result buf.new (state_of self.new) }
    {
        self.calls.make()?;
        let Some(place) = self.place else {
            return Ok(0);
        };
        let text = &self.texts[place.text];
        let rest = &text.as_slice()[place.at..];
        let count = self.piece.min(buf.len()).min(rest.len());
        buf[..count].copy_from_slice(&rest[..count]);
        self.place = Some(Place {
            text: place.text,
            at: place.at + count,
        });
        Ok(count)
    }

    ghost sound_is_told = { λ _ _. refl };

    ghost texts_tell_rest = { λ _ _. refl };
}
