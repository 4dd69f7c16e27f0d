// A number for each part of at most eight elements, listed in binary counting: any submodular function of them.
// All calls go through the parts: what a part leaves of its value is its slack, a base leaves none negative, and the room
// of (u, v) is the least slack of a part with u and not v.
ghost use Rattle.std.specs.{Prelude.{◌≡◌, ◌≢◌, ◌↔◌, ℕ, ◌<◌, ◌≤◌, ◌^◌, length, slice_index_or, pos, ◌*ℤ◌, ◌≤ℤ◌, IfOk, OnOk, IsTrue, Err}, List.{All}};
ghost use Rattle.sfm_spec.specs.{Bounds.{IsAtMost, IsEntry, IsFactor, IsGiven, AreElements}, Sets.{Has}, Terms.{IsSubmodular, IsGreedy}, Kinds.{table_value}};
ghost use Rattle.sfm_law.specs.Values.{greatest};
ghost use Rattle.sfm_simple.specs.{Subsets.{members}, Breaches.{IsFirstBreach}, TableLaws.{gain_of, table_start, slack_of, Separates, IsLeastSlack, table-family, table-bounded, table-starts, table-starts_small, table-starts_times}};

use crate::breach::first_breach;
use crate::place::all_but;
use crate::subset::{has, keep_members, number_of, sum_at, unit};
use sfm_base::{Memory, Numbers, Places, Set};
use sfm_law::{At, Plain, Room, Swap, greatest_magnitude, product, write_each};
use std::alloc::Global;

/// Why numbers make no table.
#[derive(Clone, Copy, Debug, PartialEq, Eq)]
pub enum TableEnd {
    /// The number of the empty part is not 0.
    NotZero,
    /// The part with the number `set` is the first, in binary counting, with places a < b outside it that gain more
    /// together than each alone; a is the least of it, and then b.
    LawBroken { set: usize, a: usize, b: usize },
    /// Want of memory.
    Memory,
}

impl From<Memory> for TableEnd {
    ghost use Rattle.sfm_simple.specs.declared.table.TableEnd.TheVariants.{Memory};

    ghost from_gives = { λ _ e. e ≡ Memory };

    fn from(_: Memory) -> Self {
        TableEnd::Memory
    }
}

/// A submodular function of at most eight elements by its values (Schrijver, Combinatorial Optimization, section 44).
#[derive(Drop)]
pub struct Table {
    pub places: Places,
    /// The values of the parts, in binary counting: place j counts 2^j.
    pub values: Numbers,
    /// The greatest magnitude of a value.
    pub most: i128,
    pub ghost elements: { AreElements places },
    pub ghost few: { length places ≤ 8 },
    pub ghost counted: { length values ≡ 2 ^ length places },
    pub ghost few_values: { length values ≤ 256 },
    pub ghost given: { All IsGiven values },
    pub ghost lawful: { IsSubmodular (length places) (table_value values) },
    pub ghost topped: { most ≡ greatest values },
}

/// Whether the set of k places with the number s has u and not v.
fn splits(_k: usize, s: usize, u: usize, v: usize) -> bool
    requires few { _k ≤ 8 }
    requires from { u < _k }
    requires onto { v < _k }
    ensures { IsTrue result ↔ Separates _k s u v }
{
    has(s, u) && !has(s, v)
}

impl Table {
    /// The term with these values; both lists are copied. The law is tried before memory is asked for.
    pub fn new(alloc: Global, elements: &[usize], values: &[i128]) -> Result<Table, TableEnd>
        requires elements { AreElements elements.now }
        requires few { length elements.now ≤ 8 }
        requires counted { length values.now ≡ 2 ^ length elements.now }
        requires given { All IsGiven values.now }
        ensures zero { (result ≡ Err TableEnd.NotZero) ↔ (slice_index_or values.now 0 (pos 0)
            ≢ pos 0) }
        ensures broken { (set a b : ℕ) → (result ≡ Err (TableEnd.LawBroken set a b))
            ↔ ((slice_index_or values.now 0 (pos 0) ≡ pos 0)
            × IsFirstBreach values.now (length elements.now) set a b) }
        ensures lawful { OnOk result (IsSubmodular (length elements.now) (table_value values.now)) }
        ensures places { IfOk result (λ r. r.places ≡ elements.now) }
        ensures values { IfOk result (λ r. r.values ≡ values.now) }
    {
        if values[0] != 0 {
            return Err(TableEnd::NotZero);
        }
        if let Some(breach) = first_breach(values, elements.len()) {
            return Err(TableEnd::LawBroken {
                set: breach.set,
                a: breach.a,
                b: breach.b,
            });
        }
        let most = greatest_magnitude(values);
        let places = Places::from_slice(alloc, elements)?;
        let values = Numbers::from_slice(alloc, values)?;
        Ok(Table {
            places,
            values,
            most,
        })
    }

    /// A term that is equal in every part.
    ///
    /// # Errors
    ///
    /// `Memory` where there is none.
    pub fn copy(&self, alloc: Global) -> Result<Table, Memory>
        ensures { IfOk result (λ r. r ≡ self.now) }
    {
        let places = Places::from_slice(alloc, self.places.as_slice())?;
        let values = Numbers::from_slice(alloc, self.values.as_slice())?;
        Ok(Table {
            places,
            values,
            most: self.most,
        })
    }

    /// The value of the part with the number s.
    fn listed(&self, s: usize) -> i128
        requires { s < length self.now.values }
        ensures value { result ≡ slice_index_or self.now.values s (pos 0) }
        ensures given { IsGiven result }
    {
        self.values.as_slice()[s]
    }

    /// The value of the part with the number s, q times.
    fn scaled(&self, q: i128, s: usize) -> i128
        requires factor { IsFactor q }
        requires number { s < length self.now.values }
        ensures { (result ≡ (q *ℤ slice_index_or self.now.values s (pos 0)))
            × IsAtMost (10 ^ 27) result }
    {
        product(q, self.listed(s))
    }

    /// How many parts there are.
    fn count(&self) -> usize
        ensures { result ≡ length self.now.values }
    {
        self.values.as_slice().len()
    }

    /// What the place j adds to those before it, q times.
    fn gain(&self, q: i128, j: usize) -> i128
        requires factor { IsFactor q }
        requires place { j < length self.now.places }
        ensures { result ≡ gain_of q self.now.values j }
    {
        self.scaled(q, unit(j + 1) - 1) - self.scaled(q, unit(j) - 1)
    }

    /// What the part with the number s leaves of q times its value.
    fn slack(&self, q: i128, x: &[i128], s: usize) -> i128
        requires factor { IsFactor q }
        requires entries { length x.now ≡ length self.now.places }
        requires small { All IsEntry x.now }
        requires number { s < length self.now.values }
        ensures { result ≡ slack_of q self.now.values x.now s }
    {
        self.scaled(q, s) - sum_at(x, s)
    }

    /// Whether the part with the number s has no slack.
    fn is_tight(&self, q: i128, x: &[i128], s: usize) -> bool
        requires factor { IsFactor q }
        requires entries { length x.now ≡ length self.now.places }
        requires small { All IsEntry x.now }
        requires number { s < length self.now.values }
        ensures { IsTrue result ↔ (slack_of q self.now.values x.now s ≡ pos 0) }
    {
        self.slack(q, x, s) == 0
    }

    /// Whether no part gets more than q times its value.
    fn is_within(&self, q: i128, x: &[i128]) -> bool
        requires factor { IsFactor q }
        requires entries { length x.now ≡ length self.now.places }
        requires small { All IsEntry x.now }
        ensures { IsTrue result ↔ ((n : ℕ) → n < length self.now.values
            → pos 0 ≤ℤ slack_of q self.now.values x.now n) }
    {
        for s in 0..self.count() {
            if self.slack(q, x, s) < 0 {
                return false;
            }
        }
        true
    }

    /// The least slack of a part with u and not v.
    fn least_slack(&self, q: i128, x: &[i128], u: usize, v: usize) -> i128
        requires factor { IsFactor q }
        requires entries { length x.now ≡ length self.now.places }
        requires small { All IsEntry x.now }
        requires apart { u ≢ v }
        requires from { u < length x.now }
        requires onto { v < length x.now }
        ensures { IsLeastSlack q self.now.values x.now u v result }
    {
        let mut least = self.slack(q, x, unit(u));
        for s in 0..self.count() {
            if splits(x.len(), s, u, v) {
                least = least.min(self.slack(q, x, s));
            }
        }
        least
    }

    /// Whether the part with the number s has u and no slack.
    fn is_tight_with(&self, q: i128, x: &[i128], s: usize, u: usize) -> bool
        requires factor { IsFactor q }
        requires entries { length x.now ≡ length self.now.places }
        requires small { All IsEntry x.now }
        requires from { u < length x.now }
        requires number { s < length self.now.values }
        ensures { IsTrue result ↔ (Has (members (length x.now) s) u
            × (slack_of q self.now.values x.now s ≡ pos 0)) }
    {
        has(s, u) && self.is_tight(q, x, s)
    }

    /// Takes out of a set what is not in each part with u that has no slack.
    fn keep_tight(&self, q: i128, x: &[i128], u: usize, to: &mut Set)
        requires factor { IsFactor q }
        requires entries { length x.now ≡ length self.now.places }
        requires small { All IsEntry x.now }
        requires from { u < length x.now }
        requires room_for_answer { length to.old ≡ length x.now }
        ensures places { length to.new ≡ length to.old }
        ensures kept { (v : ℕ) → Has to.new v ↔ (Has to.old v
            × ((n : ℕ) → n < length self.now.values → Has (members (length x.now) n) u
            → slack_of q self.now.values x.now n ≡ pos 0 → Has (members (length x.now) n) v)) }
    {
        for s in 0..self.count() {
            if self.is_tight_with(q, x, s, u) {
                keep_members(to, s);
            }
        }
    }
}

impl Plain for Table {
    type Note = ();

    ghost places = { λ s. s.places };

    ghost value_of = { λ s. table_value s.values };

    ghost size_of = { λ s. greatest s.values };

    ghost start_of = { λ s q. table_start q s.values (length s.places) };

    ghost family = { λ s. table-family s.values };

    ghost submodular = { λ s. s.lawful };

    ghost bounded = { λ s t a h e. table-bounded s.values t a e };

    ghost starts = { λ s q low. table-starts _ q s.values low s.lawful };

    ghost starts_small = { λ s q low. table-starts_small _ q s.values low };

    ghost starts_times = { λ s q. table-starts_times (length s.places) q s.values };

    fn elements_of(&self) -> &[usize] {
        self.places.as_slice()
    }

    fn size_of(&self) -> i128 {
        self.most
    }

    /// The value of a part: every part is allowed.
    fn value_of(&self, _alloc: Global, s: &Set) -> Result<Option<i128>, Memory> {
        Ok(Some(self.listed(number_of(s))))
    }

    /// Writes what each place adds to those before it: the greedy base.
    fn start_of(&self, q: i128, x: &mut [i128])
        requires factor { IsFactor q }
        requires entries { length x.old ≡ length self.now.places }
        ensures start { x.new ≡ table_start q self.now.values (length self.now.places) }
        ensures greedy { IsGreedy q (table_value self.now.values) (length self.now.places) x.new }
    {
        write_each(x, |j| self.gain(q, j));
    }

    /// Whether x is a base of q times the term.
    fn is_base_of(&self, q: i128, x: &[i128]) -> bool {
        self.is_within(q, x) && self.is_tight(q, x, self.count() - 1)
    }

    /// The room of (u, v) at a base: the least slack of a part with u and not v.
    fn room_of(&self, at: &At<'_>, _note: Option<&()>, u: usize, v: usize) -> Room {
        Room::Upto(self.least_slack(at.q, at.x, u, v))
    }

    /// Writes the places other than u to which u has room at a base: those in each part with u that has no slack.
    fn reach_of(&self, at: &At<'_>, _note: Option<&()>, u: usize, to: &mut Set) {
        all_but(to, u);
        self.keep_tight(at.q, at.x, u, to);
    }

    fn note_of(&self, _alloc: Global, _at: &At<'_>) -> Result<(), Memory> {
        Ok(())
    }

    fn note_moved(&self, _at: &At<'_>, _note: &mut (), _swap: &Swap) {}
}
