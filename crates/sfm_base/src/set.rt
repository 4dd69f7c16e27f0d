// Sets of places. A set of a ground of n places is seen as a list of n truth values, the value at e telling whether e is
// in the set, so each call is the operation on that list. It is kept as words of 64 places each, and what is done with all
// places goes word by word. The bits past the ground are 0, so that counts and tests of words need no care for the last.
// After it is made, a set takes no more memory.
ghost use Rattle.std.specs.Prelude.{◌≡◌, ◌↔◌, ℕ, ◌<◌, Bool, true, false, List, length, slice_index, slice_index_or, slice_set, IfOk, OnOk, IsTrue, MatchOption};
ghost use Rattle.sfm_spec.specs.Sets.{Has, empty_set, whole_set, union, intersection, complement, size, part, IsWithin};
ghost use Rattle.sfm_base.specs.Words.{members, AreWords, joined};

use crate::Memory;
use crate::words::{Joining, are_within, count, first, join, with_bit};
use std::alloc::Global;
use std::marker::Model;

/// A set of places of a ground, seen as a list of truth values, one for each place.
#[derive(Drop)]
pub struct Set {
    n: usize,
    words: Vec<u64>,
}

impl Model for Set {
    ghost Value = { List Bool };

    ghost view = { λ s. members s.n s.words.items };

    ghost invariant = { λ s. AreWords s.n s.words.items };
}

impl Set {
    /// The set with no place, of a ground of n.
    ///
    /// # Errors
    ///
    /// `Memory` where there is none.
    pub fn empty(alloc: Global, n: usize) -> Result<Set, Memory>
        ensures { IfOk result (λ s. s ≡ empty_set n) }
    {
        let words = vec![in alloc; 0u64; n.div_ceil(64)]?;
        Ok(Set { n, words })
    }

    /// The set with every place, of a ground of n.
    ///
    /// # Errors
    ///
    /// `Memory` where there is none.
    pub fn whole(alloc: Global, n: usize) -> Result<Set, Memory>
        ensures { IfOk result (λ s. s ≡ whole_set n) }
    {
        let mut words = vec![in alloc; u64::MAX; n.div_ceil(64)]?;
        if n % 64 != 0 {
            words[n / 64] = (1 << (n % 64)) - 1;
        }
        Ok(Set { n, words })
    }

    /// A set with the same places.
    ///
    /// # Errors
    ///
    /// `Memory` where there is none.
    pub fn copy(&self, alloc: Global) -> Result<Set, Memory>
        ensures { IfOk result (λ s. s ≡ self.now) }
    {
        let words = Vec::from_slice(alloc, &self.words)?;
        Ok(Set { n: self.n, words })
    }

    /// The set of the places that this one has not.
    ///
    /// # Errors
    ///
    /// `Memory` where there is none.
    pub fn complement(&self, alloc: Global) -> Result<Set, Memory>
        ensures { IfOk result (λ s. s ≡ complement self.now) }
    {
        let mut rest = Set::whole(alloc, self.len())?;
        rest.remove_all(self);
        Ok(rest)
    }

    /// The part of the set at the places of a term, by the term's local places.
    ///
    /// # Errors
    ///
    /// `Memory` where there is none.
    pub fn part(&self, alloc: Global, places: &[usize]) -> Result<Set, Memory>
        requires { (j : ℕ) → j < length places.now → slice_index places.now j < length self.now }
        ensures { IfOk result (λ s. s ≡ part places.now self.now) }
    {
        let mut part = Set::empty(alloc, places.len())?;
        part.put_part(self, places);
        Ok(part)
    }

    /// Makes of the set the part of another one at the places of a term. It takes no memory where it has as many words already.
    ///
    /// # Errors
    ///
    /// `Memory` where there is none.
    pub fn take_part(&mut self, alloc: Global, whole: &Set, places: &[usize]) -> Result<(), Memory>
        requires { (j : ℕ) → j < length places.now → slice_index places.now j < length whole.now }
        ensures { OnOk result (self.new ≡ part places.now whole.now) }
    {
        self.restart(alloc, places.len())?;
        self.put_part(whole, places);
        Ok(())
    }

    // Makes of the set that with no place, of a ground of n.
    fn restart(&mut self, alloc: Global, n: usize) -> Result<(), Memory>
        ensures { OnOk result (self.new ≡ empty_set n) }
    {
        if self.words.len() == n.div_ceil(64) {
            self.words.fill(0);
            self.n = n;
        } else {
            self.words = vec![in alloc; 0u64; n.div_ceil(64)]?;
            self.n = n;
        }
        Ok(())
    }

    // Puts in of the places of a term, by its local places, those that another set has, and takes the others out.
    fn put_part(&mut self, whole: &Set, places: &[usize])
        requires places { length self.old ≡ length places.now }
        requires inside { (j : ℕ) → j < length places.now
            → slice_index places.now j < length whole.now }
        ensures { self.new ≡ part places.now whole.now }
    {
        for (j, place) in places.iter().enumerate() {
            self.put(j, whole.contains(*place));
        }
    }

    /// How many places the ground has.
    pub fn len(&self) -> usize
        ensures { result ≡ length self.now }
    {
        self.n
    }

    /// Its words of 64 places each, bit t of word k telling of the place 64·k + t. The bits past the last place are 0.
    pub fn words(&self) -> &[u64]
        ensures set { self.now ≡ members (length self.now) result.now }
        ensures words { AreWords (length self.now) result.now }
    {
        self.words.as_slice()
    }

    /// How many places are in the set.
    pub fn size(&self) -> usize
        ensures { result ≡ size self.now }
    {
        count(&self.words)
    }

    /// Whether the set has no place.
    pub fn is_empty(&self) -> bool
        ensures { IsTrue result ↔ (self.now ≡ empty_set (length self.now)) }
    {
        self.first().is_none()
    }

    /// The least place of the set.
    pub fn first(&self) -> Option<usize>
        ensures { MatchOption result (self.now ≡ empty_set (length self.now))
            (λ e. Has self.now e × ((k : ℕ) → k < e → ¬ Has self.now k)) }
    {
        first(&self.words)
    }

    /// Whether the place e is in the set.
    pub fn contains(&self, e: usize) -> bool
        requires { e < length self.now }
        ensures { result ≡ slice_index_or self.now e false }
    {
        (self.words[e / 64] >> (e % 64)) % 2 == 1
    }

    /// Puts the place e in.
    pub fn insert(&mut self, e: usize)
        requires { e < length self.old }
        ensures { self.new ≡ slice_set self.old e true }
    {
        self.put(e, true);
    }

    /// Takes the place e out.
    pub fn remove(&mut self, e: usize)
        requires { e < length self.old }
        ensures { self.new ≡ slice_set self.old e false }
    {
        self.put(e, false);
    }

    /// Puts the place e in where it is to be a member, and takes it out where it is not.
    #[inline(always)]
    pub fn put(&mut self, e: usize, member: bool)
        requires { e < length self.old }
        ensures { self.new ≡ slice_set self.old e member }
    {
        let word = &mut self.words[e / 64];
        *word = with_bit(*word, e % 64, member);
    }

    /// Takes every place out.
    pub fn clear(&mut self)
        ensures { self.new ≡ empty_set (length self.old) }
    {
        self.words.fill(0);
    }

    /// Whether each place of this set is in the other.
    pub fn is_within(&self, other: &Set) -> bool
        requires { length self.now ≡ length other.now }
        ensures { IsTrue result ↔ IsWithin self.now other.now }
    {
        are_within(&self.words, &other.words)
    }

    /// Puts each place of the other set in.
    pub fn union_with(&mut self, other: &Set)
        requires { length self.old ≡ length other.now }
        ensures { self.new ≡ union self.old other.now }
    {
        self.join(other, Joining::Union);
    }

    /// Takes each place out that is not in the other set.
    pub fn keep_with(&mut self, other: &Set)
        requires { length self.old ≡ length other.now }
        ensures { self.new ≡ intersection self.old other.now }
    {
        self.join(other, Joining::Intersection);
    }

    /// Takes each place out that is in the other set.
    pub fn remove_all(&mut self, other: &Set)
        requires { length self.old ≡ length other.now }
        ensures { self.new ≡ intersection self.old (complement other.now) }
    {
        self.join(other, Joining::Difference);
    }

    /// Makes of the set what becomes of it with another one.
    #[inline(always)]
    fn join(&mut self, other: &Set, joining: Joining)
        requires { length self.old ≡ length other.now }
        ensures { self.new ≡ joined joining self.old other.now }
    {
        join(&mut self.words, &other.words, joining);
    }
}
