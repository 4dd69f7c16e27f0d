// Where the text of an answer goes. One walk over an answer makes its text, piece by piece; run over a gauge it tells how
// long the text is, and run over a page it writes the text. Two pieces do what the longer piece does that they make, so it
// is known what the whole text does.
ghost use Rattle.std.specs.{Prelude.{◌≡◌, ◌-◌, ◌^◌, List, [], ◌∷◌, ◌++◌, ℕ, length}, Fmt.{signed_decimal}};
ghost use Rattle.sfm_cert.specs.Pages.{after_page, page_nothing, page_joined, left_nothing, left_joined};

use crate::digits::{put_byte_upto, put_few};
use crate::width::width;
use itoa::Buffer;
use sfm_base::Page;
use std::marker::Model;

/// Takes the pieces of a text, in order.
pub trait Out {
    /// What it becomes by a piece.
    ghost after: { Self → List ℕ → Self };

    /// Takes a piece, or as much of it as there is room for.
    fn put(&mut self, piece: &[u8])
        ensures { self.new ≡ after self.old piece.now };

    /// Takes one byte, or none where there is no room.
    fn put_byte(&mut self, byte: u8)
        ensures { self.new ≡ after self.old (byte ∷ []) };

    /// Takes the text of a number.
    fn put_signed(&mut self, a: i128)
        ensures { self.new ≡ after self.old (signed_decimal a) };

    /// No bytes change nothing.
    ghost nothing: { (out : Self) → after out [] ≡ out };

    /// Two pieces do what the longer piece does that they make.
    ghost joined: { (out : Self) (x y : List ℕ) → after (after out x) y ≡ after out (x ++ y) };
}

/// Measures a text by the room that it uses up, seen as the number of further bytes that there is room for.
#[derive(Drop)]
pub struct Gauge {
    left: usize,
}

impl Model for Gauge {
    ghost Value = { ℕ };

    ghost view = { λ gauge. gauge.left };
}

impl Gauge {
    /// Room for the longest text whose length is a number of 64 bits.
    pub fn new() -> Gauge
        ensures { result ≡ 2 ^ 64 - 1 }
    {
        Gauge { left: usize::MAX }
    }

    /// How many bytes were used up.
    pub fn used(&self) -> usize
        ensures { result ≡ 2 ^ 64 - 1 - self.now }
    {
        usize::MAX - self.left
    }
}

impl Out for Gauge {
    ghost after = { λ left piece. left - length piece };

    fn put(&mut self, piece: &[u8]) {
        self.left = self.left.saturating_sub(piece.len());
    }

    fn put_byte(&mut self, _byte: u8) {
        self.left = self.left.saturating_sub(1);
    }

    fn put_signed(&mut self, a: i128) {
        self.left = self.left.saturating_sub(width(a));
    }

    ghost nothing = { left_nothing };

    ghost joined = { left_joined };
}

/// Puts a piece at the end of a page, or as much of it as there is room for.
fn put_upto(page: &mut Page, piece: &[u8])
    ensures { page.new ≡ after_page page.old piece.now }
{
    let count = piece.len().min(page.spare());
    page.put(&piece[..count]);
}

/// Puts the text of a number, as much of it as there is room for.
#[inline(never)]
fn put_many(page: &mut Page, a: i128)
    ensures { page.new ≡ after_page page.old (signed_decimal a) }
{
    let mut buffer = Buffer::new();
    put_upto(page, buffer.format(a).as_bytes());
}

/// Puts the text of a number, as much of it as there is room for. Most numbers are small.
#[inline(always)]
fn put_signed_upto(page: &mut Page, a: i128)
    ensures { page.new ≡ after_page page.old (signed_decimal a) }
{
    let size = a.unsigned_abs();
    if size < 1_000 {
        if a < 0 {
            put_byte_upto(page, b'-');
        }
        put_few(page, size as u16);
    } else {
        put_many(page, a);
    }
}

impl Out for Page {
    ghost after = { after_page };

    fn put(&mut self, piece: &[u8]) {
        put_upto(self, piece);
    }

    fn put_byte(&mut self, byte: u8) {
        put_byte_upto(self, byte);
    }

    fn put_signed(&mut self, a: i128) {
        put_signed_upto(self, a);
    }

    ghost nothing = { page_nothing };

    ghost joined = { page_joined };
}
