// Lists of numbers, as the slots that each of some demands may use. All numbers lie in one list, one of the lists behind the other,
// and another one tells where each ends: so they take no memory each, and are copied at once.
ghost use Rattle.std.specs.Prelude.{◌≡◌, ◌<◌, ◌≤◌, ◌-◌, length, take, drop, slice_index_or, is_ok, IfOk, [], ◌∷◌, ◌++◌, if◌then◌else◌};

use crate::Memory;
use crate::rows::begin_of;
use std::alloc::Global;
use std::marker::Model;

/// Lists of numbers, seen as a list of lists.
#[derive(Drop)]
pub struct Lists {
    // The lists, one behind the other.
    items: Vec<usize>,
    // Where each of them ends.
    ends: Vec<usize>,
}

impl Model for Lists {
    ghost use Rattle.std.specs.Prelude.{List, ℕ, length};
    ghost use Rattle.sfm_base.specs.Rows.{AreEnds, rows_from};

    ghost Value = { List (List ℕ) };

    ghost view = { λ s. rows_from 0 s.ends.items s.items.items };

    ghost invariant = { λ s. AreEnds 0 s.ends.items (length s.items.items) };
}

impl Lists {
    /// No lists.
    pub fn new(alloc: Global) -> Lists
        ensures { result ≡ [] }
    {
        Lists {
            items: Vec::new(alloc),
            ends: Vec::new(alloc),
        }
    }

    /// No lists, with room for so many, with so many numbers in all.
    ///
    /// # Errors
    ///
    /// `Memory` where there is none.
    pub fn with_room(alloc: Global, lists: usize, numbers: usize) -> Result<Lists, Memory>
        ensures { IfOk result (λ r. r ≡ []) }
    {
        let items = Vec::with_capacity(alloc, numbers)?;
        let ends = Vec::with_capacity(alloc, lists)?;
        Ok(Lists { items, ends })
    }

    /// A copy.
    ///
    /// # Errors
    ///
    /// `Memory` where there is none.
    pub fn copy(&self, alloc: Global) -> Result<Lists, Memory>
        ensures { IfOk result (λ r. r ≡ self.now) }
    {
        let items = Vec::from_slice(alloc, &self.items)?;
        let ends = Vec::from_slice(alloc, &self.ends)?;
        Ok(Lists { items, ends })
    }

    /// How many lists there are.
    pub fn len(&self) -> usize
        ensures { result ≡ length self.now }
    {
        self.ends.len()
    }

    /// How many numbers they have in all, to set aside room for as many.
    pub fn room(&self) -> usize {
        self.items.len()
    }

    /// Puts a list at the end.
    ///
    /// # Errors
    ///
    /// `Memory` where there is none; the lists are then as they were.
    pub fn push(&mut self, list: &[usize]) -> Result<(), Memory>
        ensures { self.new ≡ (if is_ok result then self.old ++ list.now ∷ [] else self.old) }
    {
        self.ends.reserve(1)?;
        self.items.extend_from_slice(list)?;
        let end = self.items.len();
        self.ends.push(end).unwrap();
        Ok(())
    }

    /// The list i.
    pub fn at(&self, i: usize) -> &[usize]
        requires { i < length self.now }
        ensures { result.now ≡ slice_index_or self.now i [] }
    {
        let begin = begin_of(&self.ends, i);
        between(&self.items, begin, self.ends[i])
    }
}

// The numbers from one place up to another.
#[inline(always)]
fn between(numbers: &[usize], begin: usize, end: usize) -> &[usize]
    requires order { begin ≤ end }
    requires within { end ≤ length numbers.now }
    ensures { result.now ≡ take (end - begin) (drop begin numbers.now) }
{
    &numbers[begin..end]
}
