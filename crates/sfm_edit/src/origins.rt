// Where the terms of an edited instance come from. As terms are added behind the others, and those behind one that is taken
// out close up, the old ones stand first, in their old order.
ghost use Rattle.std.specs.Prelude.{◌≡◌, ◌+◌, ◌-◌, ◌<◌, ◌≤◌, ◌++◌, length, take, drop, replicate, slice_index_or, is_ok, if◌then◌else◌, None, IfOk};
ghost use Rattle.sfm_edit.specs.Origins.{all_kept};

use sfm_base::Memory;
use std::alloc::Global;
use std::marker::Model;

/// For each term, the place of the same term in the list before, counted from 0, or None where it was added. Seen as a list
/// of such.
#[derive(Drop)]
pub struct Origins {
    places: Vec<Option<usize>>,
}

impl Model for Origins {
    ghost use Rattle.std.specs.Prelude.{List, ℕ, Option};

    ghost Value = { List (Option ℕ) };

    ghost view = { λ s. s.places.items };
}

/// Takes so many places out, from one on; those behind them close up.
fn take_out(places: &mut Vec<Option<usize>>, first: usize, count: usize)
    requires { first + count ≤ length places.old.items }
    ensures { places.new.items ≡ take first places.old.items
        ++ drop (first + count) places.old.items }
{
    for _taken in 0..count {
        places.remove(first);
    }
}

impl Origins {
    /// Those of n terms that are all at their old places.
    pub(crate) fn unedited(alloc: Global, n: usize) -> Result<Origins, Memory>
        ensures { IfOk result (λ s. s ≡ all_kept n) }
    {
        let mut places = Vec::new(alloc);
        for i in 0..n {
            places.push(Some(i))?;
        }
        Ok(Origins { places })
    }

    /// How many terms there are.
    pub fn len(&self) -> usize
        ensures { result ≡ length self.now }
    {
        self.places.len()
    }

    /// The place of term j in the list before, or None where it was added.
    pub fn at(&self, j: usize) -> Option<usize>
        requires { j < length self.now }
        ensures { result ≡ slice_index_or self.now j None }
    {
        self.places[j]
    }

    /// More terms, which were added, so that there are so many.
    pub(crate) fn push_added(&mut self, count: usize) -> Result<(), Memory>
        requires { length self.old ≤ count }
        ensures { self.new ≡ (if is_ok result
            then self.old ++ replicate (count - length self.old) None else self.old) }
    {
        self.places.resize(count, None)?;
        Ok(())
    }

    /// So many terms less, from one on; those behind them close up.
    pub(crate) fn remove_all(&mut self, first: usize, count: usize)
        requires { first + count ≤ length self.old }
        ensures { self.new ≡ take first self.old ++ drop (first + count) self.old }
    {
        take_out(&mut self.places, first, count);
    }
}
