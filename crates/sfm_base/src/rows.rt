// Rows of numbers, one for each term: a list that grows at its end, and whose numbers can be exchanged. All numbers lie in
// one list, one row behind the other, and another one tells where each row ends: so rows take no memory each, and are copied
// at once.
ghost use Rattle.std.specs.{Prelude.{◌≡◌, ◌≢◌, ◌↔◌, ◌<◌, ◌≤◌, ◌-◌, ◌*◌, ◌^◌, ℤ, pos, ◌*ℤ◌, length, map, take, drop, slice_index_or, slice_set, is_ok, unsigned_abs, IsTrue, IfOk, [], ◌∷◌, ◌++◌, ◌==◌, if◌then◌else◌}, List.{All}};
ghost use Rattle.sfm_spec.specs.{Bounds.{IsAtMost, IsFactor}, Terms.{exchanged}};

use crate::Memory;
use std::alloc::Global;
use std::marker::Model;

/// Rows of numbers, seen as a list of lists.
#[derive(Drop)]
pub struct Rows {
    // The rows, one behind the other.
    numbers: Vec<i128>,
    // Where each row ends.
    ends: Vec<usize>,
}

impl Model for Rows {
    ghost use Rattle.std.specs.Prelude.{List, ℤ, length};
    ghost use Rattle.sfm_base.specs.Rows.{AreEnds, rows_from};

    ghost Value = { List (List ℤ) };

    ghost view = { λ s. rows_from 0 s.ends.items s.numbers.items };

    ghost invariant = { λ s. AreEnds 0 s.ends.items (length s.numbers.items) };
}

impl Rows {
    /// No rows.
    pub fn new(alloc: Global) -> Rows
        ensures { result ≡ [] }
    {
        Rows {
            numbers: Vec::new(alloc),
            ends: Vec::new(alloc),
        }
    }

    /// No rows, with room for so many, with so many numbers in all.
    ///
    /// # Errors
    ///
    /// `Memory` where there is none.
    pub fn with_room(alloc: Global, rows: usize, numbers: usize) -> Result<Rows, Memory>
        ensures { IfOk result (λ r. r ≡ []) }
    {
        let numbers = Vec::with_capacity(alloc, numbers)?;
        let ends = Vec::with_capacity(alloc, rows)?;
        Ok(Rows { numbers, ends })
    }

    /// The same rows once more.
    ///
    /// # Errors
    ///
    /// `Memory` where there is none.
    pub fn copy(&self, alloc: Global) -> Result<Rows, Memory>
        ensures { IfOk result (λ r. r ≡ self.now) }
    {
        let numbers = Vec::from_slice(alloc, &self.numbers)?;
        let ends = Vec::from_slice(alloc, &self.ends)?;
        Ok(Rows { numbers, ends })
    }

    /// How many rows there are.
    pub fn len(&self) -> usize
        ensures { result ≡ length self.now }
    {
        self.ends.len()
    }

    /// Whether there is no row.
    pub fn is_empty(&self) -> bool
        ensures { result ≡ (length self.now == 0) }
    {
        self.ends.is_empty()
    }

    /// How many numbers they have in all, to make room for as many.
    pub fn room(&self) -> usize {
        self.numbers.len()
    }

    /// Puts a row at the end.
    ///
    /// # Errors
    ///
    /// `Memory` where there is none; the rows are then as they were.
    pub fn push(&mut self, row: &[i128]) -> Result<(), Memory>
        ensures { self.new ≡ (if is_ok result then self.old ++ row.now ∷ [] else self.old) }
    {
        self.ends.reserve(1)?;
        self.numbers.extend_from_slice(row)?;
        let end = self.numbers.len();
        self.ends.push(end).unwrap();
        Ok(())
    }

    /// The row i.
    pub fn row(&self, i: usize) -> &[i128]
        requires { i < length self.now }
        ensures { result.now ≡ slice_index_or self.now i [] }
    {
        let begin = begin_of(&self.ends, i);
        between(&self.numbers, begin, self.ends[i])
    }

    /// Raises number u of row i by an amount, and lowers number v by it.
    pub fn exchange(&mut self, i: usize, u: usize, v: usize, a: i128)
        requires inside { i < length self.old }
        requires from { u < length (slice_index_or self.old i []) }
        requires onto { v < length (slice_index_or self.old i []) }
        requires apart { u ≢ v }
        requires one { IsAtMost (2 * 10 ^ 30) (slice_index_or (slice_index_or self.old i []) u
            (pos 0)) }
        requires other { IsAtMost (2 * 10 ^ 30) (slice_index_or (slice_index_or self.old i []) v
            (pos 0)) }
        requires amount { IsAtMost (2 * 10 ^ 30) a }
        ensures { self.new ≡ slice_set self.old i (exchanged (slice_index_or self.old i []) u v a) }
    {
        let begin = begin_of(&self.ends, i);
        self.numbers[begin + u] += a;
        self.numbers[begin + v] -= a;
    }

    /// Each number times another one.
    ///
    /// # Errors
    ///
    /// `Memory` where there is none.
    pub fn times(&self, alloc: Global, q: i128) -> Result<Rows, Memory>
        requires factor { IsFactor q }
        requires small { All (λ x. All (IsAtMost (10 ^ 21)) x) self.now }
        ensures { IfOk result (λ r. r ≡ map (λ x. map (λ a. q *ℤ a) x) self.now) }
    {
        let mut numbers = Vec::with_capacity(alloc, self.numbers.len())?;
        for a in &self.numbers {
            numbers.push(q * *a)?;
        }
        let ends = Vec::from_slice(alloc, &self.ends)?;
        Ok(Rows { numbers, ends })
    }

    /// Whether each number has a magnitude of at most `most`.
    pub fn are_within(&self, most: u128) -> bool
        ensures { IsTrue result ↔ All (λ x. All (λ a. unsigned_abs a ≤ most) x) self.now }
    {
        are_all_within(&self.numbers, most)
    }
}

// Whether each of some numbers has a magnitude of at most `most`.
fn are_all_within(numbers: &[i128], most: u128) -> bool
    ensures { IsTrue result ↔ All (λ a. unsigned_abs a ≤ most) numbers.now }
{
    numbers.iter().all(|a| a.unsigned_abs() <= most)
}

// Where row i begins.
#[inline(always)]
pub(crate) fn begin_of(ends: &[usize], i: usize) -> usize
    requires { i < length ends.now }
    ensures { result ≡ slice_index_or (0 ∷ ends.now) i 0 }
{
    if i == 0 { 0 } else { ends[i - 1] }
}

// The numbers from one place up to another.
#[inline(always)]
fn between(numbers: &[i128], begin: usize, end: usize) -> &[i128]
    requires order { begin ≤ end }
    requires within { end ≤ length numbers.now }
    ensures { result.now ≡ take (end - begin) (drop begin numbers.now) }
{
    &numbers[begin..end]
}
