// The places of a set one after another, from the least on. What is left of the word that is looked at is kept beside its
// number, so that no place is looked for again in a word that is done with.
ghost use Rattle.std.specs.Prelude.{◌≡◌, ◌≢◌, ℕ, MatchOption};
ghost use Rattle.sfm_reach.specs.Bits.{IsTaken, bit_in};

use crate::bits::Bits;
use std::marker::Model;

/// The places of a set that are still to come, seen as a set.
#[derive(Drop)]
pub struct Ahead<'a> {
    places: &'a Bits,
    /// The word that is looked at, and what is left of it.
    k: usize,
    word: u64,
}

impl<'a> Model for Ahead<'a> {
    ghost use Rattle.std.specs.Prelude.{◌≡◌, ◌<◌, length};
    ghost use Rattle.sfm_reach.specs.{declared.bits.Bits.{Bits}, Bits.{left_of}};

    ghost Value = { Bits };

    ghost view = { λ s. left_of s.places.now s.k s.word };

    ghost invariant = { λ s. (s.k < 4) × (length s.places.now.words ≡ 4) };
}

impl<'a> Ahead<'a> {
    /// All places of a set.
    #[inline(always)]
    pub fn of(places: &'a Bits) -> Ahead<'a>
        ensures { (e : ℕ) → bit_in result e ≡ bit_in places.now e }
    {
        Ahead {
            places,
            k: 0,
            word: places.words[0],
        }
    }

    /// Takes one of the places that are still to come.
    #[inline(always)]
    pub fn next(&mut self) -> Option<usize>
        ensures { MatchOption result ((e : ℕ) → bit_in self.old e ≡ 0)
            (λ e. IsTaken self.old e self.new) }
    {
        let mut k = self.k;
        let mut word = self.word;
        while word == 0 {
            if k == 3 {
                return None;
            }
            k += 1;
            word = self.places.words[k];
        }
        let t = word.trailing_zeros() as usize;
        self.k = k;
        self.word = word & !(1 << t);
        Some(64 * k + t)
    }
}
