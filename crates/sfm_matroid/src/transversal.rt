// A number w times the rank of a transversal matroid. A part of the elements is independent where its members have slots of
// their own entries, all distinct. The elements that are taken one after another while their slots suffice are a greatest
// independent part, so their count is the rank. The bases of q times the term are told by one test: the entries are split over
// slots that hold q·w each. The room of (u, v) is the least of what v has, what u lacks of q·w, and what u lacks of the most
// that it gets in the test without v. To whom u has room is told by one search in the test: to those that can lend to u.
// The split of a base is kept beside it. A room is then told in a copy of it, in which v gives up what it has and u is raised;
// an exchange takes that copy, as it lacks only what v keeps.
ghost use Rattle.std.specs.Prelude.{◌≡◌, ℕ, ◌<◌, ◌≤◌, ◌^◌, length, ℤ, pos, ◌≤ℤ◌, IfOk, IsOk, OnOk, Some};
ghost use Rattle.sfm_spec.specs.{Bounds.{IsAtMost, IsFactor, IsGiven, AreElements}, Terms.{IsGreedy}, Kinds.{IsMatchable, IsRank, IsRankFunction}};
ghost use Rattle.sfm_matroid.specs.{Slots.{transversal_rank, transversal_basis, transversal_value, transversal_size, transversal_start}, Notes.{transversal_fits}, TransversalLaws.{transversal-family, transversal-submodular, transversal-bounded, transversal-starts, transversal-starts_small, transversal-starts_times}};

use crate::entries::Entries;
use crate::frame::Frame;
use crate::givers::row;
use crate::ranked::{adds_up, cap_of, worth, write_start};
use crate::room::{moved, pull_of};
use crate::splits::{SlotSplit, bring_split};
use sfm_base::{Memory, Places, Set};
use sfm_law::{At, Lead, Room, Swap, Term};
use std::alloc::Global;

/// A number for each element of a greatest independent part: elements are independent where they have slots of their own
/// entries, all distinct (Schrijver, Combinatorial Optimization, section 39).
pub struct Transversal {
    pub places: Places,
    pub w: i128,
    pub entries: Entries,
    /// The elements that are taken one after another while their slots suffice.
    pub basis: Set,
    /// What the splits of a base are made from.
    pub frame: Frame,
    pub ghost elements: { AreElements places },
    pub ghost few: { length places ≤ 256 },
    pub ghost low: { pos 0 ≤ℤ w },
    pub ghost given: { IsGiven w },
    pub ghost same_count: { length entries ≡ length places },
    pub ghost based: { basis ≡ transversal_basis entries },
    pub ghost framed: { frame ≡ entries },
}

// Written out, so that letting one go is one step, which is proved here once.
impl Drop for Transversal {
    fn drop(self) {
        let Self {
            places: _,
            w: _,
            entries: _,
            basis: _,
            frame: _,
        } = self;
    }
}

impl Transversal {
    /// The term that is worth w for each element of a greatest part with slots of their own; the elements are copied, and the
    /// entries are taken over.
    ///
    /// # Errors
    ///
    /// `Memory` where there is none.
    pub fn new(
        alloc: Global,
        elements: &[usize],
        w: i128,
        entries: Entries,
    ) -> Result<Transversal, Memory>
        requires elements { AreElements elements.now }
        requires low { pos 0 ≤ℤ w }
        requires given { IsGiven w }
        requires same_count { length entries ≡ length elements.now }
        ensures places { IfOk result (λ r. r.places ≡ elements.now) }
        ensures number { IfOk result (λ r. r.w ≡ w) }
        ensures entries { IfOk result (λ r. r.entries ≡ entries) }
    {
        let places = Places::from_slice(alloc, elements)?;
        let frame = Frame::of(alloc, &entries)?;
        let basis = frame.basis(alloc)?;
        Ok(Transversal {
            places,
            w,
            entries,
            basis,
            frame,
        })
    }

    /// A copy.
    ///
    /// # Errors
    ///
    /// `Memory` where there is none.
    pub fn copy(&self, alloc: Global) -> Result<Transversal, Memory>
        ensures { IfOk result (λ r. r ≡ self.now) }
    {
        let places = Places::from_slice(alloc, self.places.as_slice())?;
        let entries = self.entries.copy(alloc)?;
        let basis = self.basis.copy(alloc)?;
        let frame = self.frame.share()?;
        Ok(Transversal {
            places,
            w: self.w,
            entries,
            basis,
            frame,
        })
    }

    /// How many elements of a part may be independent together, and no more.
    ///
    /// # Errors
    ///
    /// `Memory` where there is none.
    pub fn rank(&self, alloc: Global, s: &Set) -> Result<i128, Memory>
        requires { length s.now ≡ length self.now.places }
        ensures rank { IfOk result (λ r. r ≡ pos (transversal_rank self.now.entries s.now)) }
        ensures greatest { IfOk result (λ r. (n : ℕ) × (r ≡ pos n)
            × IsRank (IsMatchable self.now.entries) s.now n) }
    {
        let taken = self.frame.matched(alloc, s)?;
        Ok(taken.size() as i128)
    }

    /// The value of each part is w times its rank: a law, with nothing to do.
    pub fn values_are_ranks(&self)
        ensures { IsRankFunction (length self.now.places) self.now.w (IsMatchable self.now.entries)
            (transversal_value self.now.w self.now.entries) }
    {}
}

impl Term for Transversal {
    type Note = SlotSplit;

    ghost places = { λ s. s.places };

    ghost value_of = { λ s. transversal_value s.w s.entries };

    ghost size_of = { λ s. transversal_size s.w s.entries };

    ghost start_of = { λ s q. transversal_start q s.w s.entries };

    // Nothing is said: the calls take memory.
    ghost lean_value = { λ s. ⊥ };

    ghost lean_calls = { λ s. ⊥ };

    ghost fits = { λ s note q x. transversal_fits s.w s.entries note q x };

    ghost family = { λ s. transversal-family (length s.places) s.w s.entries s.same_count };

    ghost submodular = { λ s. transversal-submodular (length s.places) s.w s.entries s.same_count
        s.low };

    ghost bounded = { λ s t a h e. transversal-bounded (length s.places) s.w s.entries s.same_count
        s.low t a h e };

    ghost starts = { λ s q low. transversal-starts (length s.places) s.w s.entries s.same_count
        s.low q low };

    ghost starts_small = { λ s q low. transversal-starts_small
        (length s.places) s.w s.entries s.same_count s.low q low };

    ghost starts_times = { λ s q. transversal-starts_times q s.w s.entries };

    fn elements(&self) -> &[usize] {
        self.places.as_slice()
    }

    // These two are as in the trait. As they stand here, nothing has to be proved of how notes of any kind are let go.
    fn order(&self) -> Option<&[usize]> {
        None
    }

    fn asks_at_once(&self) -> bool {
        false
    }

    /// The greatest value: that of all elements.
    fn size(&self) -> i128
        ensures value { result ≡ transversal_size self.now.w self.now.entries }
        ensures small { IsAtMost (10 ^ 21) result }
    {
        worth(self.w, &self.basis)
    }

    /// The value of a part: w times its rank.
    fn value(&self, alloc: Global, s: &Set) -> Result<Option<i128>, Memory> {
        let taken = self.frame.matched(alloc, s)?;
        Ok(Some(worth(self.w, &taken)))
    }

    /// Writes the base with q·w at each element of the part that is kept, and 0 at the others.
    fn start(&self, _alloc: Global, q: i128, x: &mut [i128]) -> Result<(), Memory>
        requires factor { IsFactor q }
        requires entries { length x.old ≡ length self.now.places }
        ensures start { OnOk result (x.new ≡ transversal_start q self.now.w self.now.entries) }
        ensures greedy { OnOk result (IsGreedy q (transversal_value self.now.w self.now.entries)
            (length self.now.places) x.new) }
        ensures sure { IsOk result }
    {
        write_start(q, self.w, &self.basis, x);
        Ok(())
    }

    fn is_base(&self, alloc: Global, q: i128, x: &[i128]) -> Result<bool, Memory> {
        if !adds_up(x, q, self.w, &self.basis) {
            return Ok(false);
        }
        let told = self.frame.can_meet(alloc, x, cap_of(q, self.w))?;
        Ok(told)
    }

    /// The room of (u, v) at a base, by a note that is made for it.
    fn room(&self, alloc: Global, at: &At<'_>, u: usize, v: usize) -> Result<Room, Memory> {
        let mut note = self.note(alloc, at)?;
        let swap = Swap { u, v, a: at.x[v] };
        let most = self.room_by(alloc, at, &mut note, &swap)?;
        Ok(Room::Upto(most))
    }

    /// Writes the places other than u to which u has room at a base, by a note that is made for it.
    fn reach(&self, alloc: Global, at: &At<'_>, u: usize, to: &mut Set) -> Result<(), Memory> {
        let mut note = self.note(alloc, at)?;
        self.reach_by(alloc, at, &mut note, &Lead { from: u, onto: u }, to)
    }

    /// The split in the test that tells a base.
    fn note(&self, alloc: Global, at: &At<'_>) -> Result<SlotSplit, Memory> {
        let cap = cap_of(at.q, self.w);
        self.frame.split(alloc, at.x, cap)
    }

    /// Writes the places other than the first of a lead to which that has room at a base, by the split that is kept beside it.
    fn reach_by(
        &self,
        alloc: Global,
        at: &At<'_>,
        note: &mut SlotSplit,
        lead: &Lead,
        to: &mut Set,
    ) -> Result<(), Memory> {
        let cap = cap_of(at.q, self.w);
        row(alloc, &mut note.pair.kept, at.x, cap, lead.from, to)?;
        Ok(())
    }

    /// How much of an amount u can get of v at a base, by a second split beside the one that is kept, which stays. The second one,
    /// with nothing at v and as much more at u, is left as the spare.
    fn room_by(
        &self,
        alloc: Global,
        at: &At<'_>,
        note: &mut SlotSplit,
        swap: &Swap,
    ) -> Result<i128, Memory> {
        let cap = cap_of(at.q, self.w);
        let pull = pull_of(at.x, cap, swap);
        if pull.limit == 0 {
            return Ok(0);
        }
        let most = note.pair.raise_spare(alloc, &note.capacities, &pull)?;
        Ok(most)
    }

    /// Brings the spare split, or else the one that is kept, to the exchanged base.
    fn moved(
        &self,
        alloc: Global,
        at: &At<'_>,
        note: &mut SlotSplit,
        swap: &Swap,
    ) -> Result<(), Memory> {
        if note.pair.exchange(alloc, swap)? {
            return Ok(());
        }
        let after = moved(alloc, at.x, swap)?;
        note.pair.swap();
        bring_split(alloc, &mut note.pair.kept, &after, &note.capacities)
    }

    /// The split that is kept, m times.
    fn note_times(
        &self,
        alloc: Global,
        m: i128,
        _at: &At<'_>,
        note: &SlotSplit,
    ) -> Result<Option<SlotSplit>, Memory> {
        let times = note.times(alloc, m)?;
        Ok(Some(times))
    }

    /// The split that is kept, m times, over another one with as many slots.
    fn note_over(&self, m: i128, _at: &At<'_>, note: &SlotSplit, over: &mut SlotSplit) -> bool {
        if over.capacities.len() != note.capacities.len() {
            return false;
        }
        over.copy_times(m, note);
        true
    }
}
