// A number w times the rank of a laminar matroid. A part is independent where no group has more of it than its cap.
// The bases of q times the term are the vectors with entries from 0 to q·w that give no group more than q·w times its cap,
// or its size where that is less, and that have q times the whole value in all. So the room of (u, v) is the least of what
// v has, what u lacks of q·w, and what each group lacks that has u and not v. What each group lacks is kept beside a base, as the
// places that have something are: a row is then made word by word, and a room is the least of a few numbers.
ghost use Rattle.std.specs.{Prelude.{◌≡◌, ◌↔◌, ℕ, ◌<◌, ◌≤◌, ◌^◌, false, length, slice_index_or, pos, ◌*ℤ◌, ◌+ℤ◌, ◌-ℤ◌, ◌≤ℤ◌, ◌<ℤ◌, IfOk, IfSome, OnOk, IsTrue, Err, Contains}, List.{All}};
ghost use Rattle.sfm_spec.specs.{Bounds.{IsAtMost, IsEntry, IsFactor, IsGiven, AreElements, total_of}, Terms.{IsGreedy}, Kinds.{IsWithinCaps, IsRank, IsRankFunction}};
ghost use Rattle.sfm_laminar.specs.{Groups.{IsGroup, IsBelow, AreGroups, NoneCross, IsFirstCrossing}, Crossing.{group_at}, Ranks.{rank}, Indexes.{IsIndex, AreHoldersOf, AreMasks}, Masks.{mask}, Slacks.{AreSlacks, laminar_fits, share_of}, Rooms.{slack_of, IsLeast, IsKept, IsHeld, IsHeldAt}, LaminarLaws.{laminar_value, laminar_size, laminar_start, basis_of, laminar-family, laminar-submodular, laminar-bounded, laminar-starts, laminar-starts_small, laminar-starts_times}};

use crate::crossing::first_crossing;
use crate::groups::{CappedGroup, Groups};
use crate::growing::grow;
use crate::index::Index;
use crate::masks::Masks;
use crate::number::{bound, sum_listed};
use crate::slacks::{Slacks, move_support, put_some, share, support_of};
use sfm_base::{Memory, Places, Set};
use sfm_law::{At, Plain, Room, Swap, are_within, has_sum, least_left, product, write_each};
use std::alloc::Global;

/// Why groups make no laminar matroid.
#[derive(Clone, Copy, Debug, PartialEq, Eq)]
pub enum LaminarEnd {
    /// The groups with the numbers `first` < `second` share a place, and neither holds the other; `second` is the least of
    /// such, and then `first`.
    Crosses { first: usize, second: usize },
    /// Want of memory.
    Memory,
}

impl From<Memory> for LaminarEnd {
    ghost use Rattle.sfm_laminar.specs.declared.laminar.LaminarEnd.TheVariants.{Memory};

    ghost from_gives = { λ _ e. e ≡ Memory };

    fn from(_: Memory) -> Self {
        LaminarEnd::Memory
    }
}

/// A number for each element of a greatest independent part (Schrijver, Combinatorial Optimization, section 39).
pub struct Laminar {
    pub places: Places,
    pub w: i128,
    pub groups: Groups,
    /// The elements that are taken one after another while they stay independent.
    pub basis: Set,
    /// For each place the groups that hold it.
    index: Index,
    /// For each group the set of its members.
    masks: Masks,
    pub ghost elements: { AreElements places },
    pub ghost few: { length places ≤ 256 },
    pub ghost low: { pos 0 ≤ℤ w },
    pub ghost given: { IsGiven w },
    pub ghost grouped: { AreGroups (length places) groups },
    pub ghost based: { basis ≡ basis_of (length places) groups },
    pub ghost indexed: { IsIndex (length places) groups index },
    pub ghost masked: { AreMasks (length places) groups masks },
}

// Written out, so that letting one go is one step, which is proved here once.
impl Drop for Laminar {
    fn drop(self) {
        let Self {
            places: _,
            w: _,
            groups: _,
            basis: _,
            index: _,
            masks: _,
        } = self;
    }
}

impl Laminar {
    /// The term that is worth w for each element of a greatest independent part; the elements are copied. Whether groups
    /// cross is told before memory is asked for.
    pub fn new(
        alloc: Global,
        elements: &[usize],
        w: i128,
        groups: Groups,
    ) -> Result<Laminar, LaminarEnd>
        requires elements { AreElements elements.now }
        requires low { pos 0 ≤ℤ w }
        requires given { IsGiven w }
        requires below { All (IsBelow (length elements.now)) groups }
        ensures crosses { (first second : ℕ) → (result ≡ Err (LaminarEnd.Crosses first second))
            ↔ IsFirstCrossing groups first second }
        ensures tried { (result ≡ Err LaminarEnd.Memory) → NoneCross groups }
        ensures none { OnOk result (NoneCross groups) }
        ensures places { IfOk result (λ r. r.places ≡ elements.now) }
        ensures number { IfOk result (λ r. r.w ≡ w) }
        ensures groups { IfOk result (λ r. r.groups ≡ groups) }
    {
        if let Some(crossing) = first_crossing(&groups) {
            return Err(LaminarEnd::Crosses {
                first: crossing.first,
                second: crossing.second,
            });
        }
        Ok(Laminar::uncrossed(alloc, elements, w, groups)?)
    }

    /// The same, where no two groups cross.
    pub(crate) fn uncrossed(
        alloc: Global,
        elements: &[usize],
        w: i128,
        groups: Groups,
    ) -> Result<Laminar, Memory>
        requires none { NoneCross groups }
        requires below { All (IsBelow (length elements.now)) groups }
        requires elements { AreElements elements.now }
        requires low { pos 0 ≤ℤ w }
        requires given { IsGiven w }
        ensures { IfOk result (λ r. (r.places ≡ elements.now) × (r.w ≡ w) × (r.groups ≡ groups)) }
    {
        let places = Places::from_slice(alloc, elements)?;
        let all = Set::whole(alloc, elements.len())?;
        let index = Index::new(alloc, &groups, elements.len())?;
        let basis = grow(alloc, &groups, &index, &all)?;
        let masks = Masks::new(alloc, &groups, elements.len())?;
        Ok(Laminar {
            places,
            w,
            groups,
            basis,
            index,
            masks,
        })
    }

    /// A term that is equal in every part.
    ///
    /// # Errors
    ///
    /// `Memory` where there is none.
    pub fn copy(&self, alloc: Global) -> Result<Laminar, Memory>
        ensures { IfOk result (λ r. r ≡ self.now) }
    {
        let places = Places::from_slice(alloc, self.places.as_slice())?;
        let groups = self.groups.copy(alloc)?;
        let basis = self.basis.copy(alloc)?;
        let index = self.index.copy(alloc)?;
        let masks = self.masks.copy(alloc)?;
        Ok(Laminar {
            places,
            w: self.w,
            groups,
            basis,
            index,
            masks,
        })
    }

    /// How many elements of a part may be independent together, and no more.
    ///
    /// # Errors
    ///
    /// `Memory` where there is none.
    pub fn rank(&self, alloc: Global, s: &Set) -> Result<i128, Memory>
        requires { length s.now ≡ length self.now.places }
        ensures rank { IfOk result (λ r. r ≡ pos (rank (length self.now.places) self.now.groups
            s.now)) }
        ensures greatest { IfOk result (λ r. (n : ℕ) × (r ≡ pos n)
            × IsRank (IsWithinCaps self.now.groups) s.now n) }
    {
        let most = grow(alloc, &self.groups, &self.index, s)?;
        Ok(most.size() as i128)
    }

    /// The value of each part is w times its rank: a law, with nothing to do.
    pub fn values_are_ranks(&self)
        ensures { IsRankFunction (length self.now.places) self.now.w (IsWithinCaps self.now.groups)
            (laminar_value (length self.now.places) self.now.w self.now.groups) }
    {}

    /// The value of a count of elements that are independent together.
    fn ranked(&self, count: i128) -> i128
        requires low { pos 0 ≤ℤ count }
        requires high { count ≤ℤ pos 256 }
        ensures value { result ≡ self.now.w *ℤ count }
        ensures small { IsAtMost (10 ^ 21) result }
    {
        self.w * count
    }

    /// The greatest value: that of all elements.
    fn most(&self) -> i128
        ensures value { result ≡ laminar_size (length self.now.places) self.now.w self.now.groups }
        ensures small { IsAtMost (10 ^ 21) result }
    {
        self.ranked(self.basis.size() as i128)
    }

    /// What the place j gets of the first base.
    fn share(&self, q: i128, j: usize) -> i128
        requires factor { IsFactor q }
        requires place { j < length self.now.places }
        ensures { result ≡ slice_index_or (laminar_start
            (length self.now.places) q self.now.w self.now.groups) j (pos 0) }
    {
        if !self.basis.contains(j) {
            return 0;
        }
        self.place_most(q)
    }

    /// The most that a place may have: q·w.
    fn place_most(&self, q: i128) -> i128
        requires factor { IsFactor q }
        ensures value { result ≡ q *ℤ self.now.w }
        ensures low { pos 0 ≤ℤ result }
        ensures high { result ≤ℤ pos (10 ^ 24) }
    {
        product(q, self.w)
    }

    /// The group i.
    fn group(&self, i: usize) -> &CappedGroup
        requires { i < length self.now.groups }
        ensures group { result.now ≡ group_at self.now.groups i }
        ensures sound { IsGroup result.now }
        ensures few { length result.now.members ≤ 256 }
    {
        self.groups.group(i)
    }

    /// What the group i lacks of the most that it gets.
    fn slack(&self, q: i128, x: &[i128], i: usize) -> i128
        requires factor { IsFactor q }
        requires entries { length x.now ≡ length self.now.places }
        requires small { All IsEntry x.now }
        requires group { i < length self.now.groups }
        ensures { result ≡ slack_of q self.now.w x.now (group_at self.now.groups i) }
    {
        let group = self.group(i);
        bound(self.place_most(q), group) - sum_listed(group.members(), x)
    }

    /// Whether no group gets more than it may.
    fn are_bounded(&self, q: i128, x: &[i128]) -> bool
        requires factor { IsFactor q }
        requires entries { length x.now ≡ length self.now.places }
        requires small { All IsEntry x.now }
        ensures { IsTrue result ↔ ((i : ℕ) → i < length self.now.groups
            → pos 0 ≤ℤ slack_of q self.now.w x.now (group_at self.now.groups i)) }
    {
        for i in 0..self.groups.len() {
            if self.slack(q, x, i) < 0 {
                return false;
            }
        }
        true
    }

    /// Whether each entry is from 0 to q·w.
    fn are_capped(&self, q: i128, x: &[i128]) -> bool
        requires factor { IsFactor q }
        ensures { IsTrue result ↔ All (λ a. (pos 0 ≤ℤ a) × (a ≤ℤ (q *ℤ self.now.w))) x.now }
    {
        are_within(x, self.place_most(q))
    }

    /// Whether the entries are q times the whole value in all.
    fn has_whole(&self, q: i128, x: &[i128]) -> bool
        requires factor { IsFactor q }
        requires entries { length x.now ≡ length self.now.places }
        requires small { All IsEntry x.now }
        ensures { IsTrue result ↔ (total_of x.now ≡ (q *ℤ laminar_size
            (length self.now.places) self.now.w self.now.groups)) }
    {
        has_sum(x, product(q, self.most()))
    }

    /// What the group i lacks, by what is kept if there is something.
    fn slack_by(&self, at: &At<'_>, note: Option<&Slacks>, i: usize) -> i128
        requires factor { IsFactor at.now.q }
        requires entries { length at.now.x.now ≡ length self.now.places }
        requires small { All IsEntry at.now.x.now }
        requires noted { IfSome note (λ n. laminar_fits self.now.w self.now.groups n.now at.now.q
            at.now.x.now) }
        requires group { i < length self.now.groups }
        ensures { result ≡ slack_of at.now.q self.now.w at.now.x.now (group_at self.now.groups i) }
    {
        match note {
            Some(note) => note.slacks[i],
            None => self.slack(at.q, at.x, i),
        }
    }

    /// The members of the group i.
    fn mask(&self, i: usize) -> &Set
        requires { i < length self.now.groups }
        ensures { result.now ≡ mask (length self.now.places) (group_at self.now.groups i).members }
    {
        self.masks.of(i)
    }

    /// Whether the group i has v.
    fn has(&self, i: usize, v: usize) -> bool
        requires group { i < length self.now.groups }
        requires place { v < length self.now.places }
        ensures member { IsTrue result ↔ Contains (group_at self.now.groups i).members v }
        ensures masked { result ≡ slice_index_or (mask (length self.now.places)
            (group_at self.now.groups i).members) v false }
    {
        self.mask(i).contains(v)
    }

    /// The numbers of the groups that have u.
    fn holders(&self, u: usize) -> &[usize]
        requires { u < length self.now.places }
        ensures { AreHoldersOf self.now.groups u result.now }
    {
        self.index.of(u)
    }

    /// What v has, or what u lacks of q·w where that is less.
    fn least_entry(&self, at: &At<'_>, u: usize, v: usize) -> i128
        requires factor { IsFactor at.now.q }
        requires small { All IsEntry at.now.x.now }
        requires from { u < length at.now.x.now }
        requires onto { v < length at.now.x.now }
        ensures { IsLeast at.now.q self.now.w self.now.groups at.now.x.now u v 0 result }
    {
        least_left(at.x, u, v, self.place_most(at.q))
    }

    /// The least of what v has, what u lacks of q·w, and what each group lacks that has u and not v.
    fn least_left(&self, at: &At<'_>, note: Option<&Slacks>, u: usize, v: usize) -> i128
        requires factor { IsFactor at.now.q }
        requires entries { length at.now.x.now ≡ length self.now.places }
        requires small { All IsEntry at.now.x.now }
        requires noted { IfSome note (λ n. laminar_fits self.now.w self.now.groups n.now at.now.q
            at.now.x.now) }
        requires from { u < length at.now.x.now }
        requires onto { v < length at.now.x.now }
        ensures { IsLeast at.now.q self.now.w self.now.groups at.now.x.now u v
            (length self.now.groups) result }
    {
        let mut least = self.least_entry(at, u, v);
        let holders = self.holders(u);
        for i in holders {
            if !self.has(*i, v) {
                least = least.min(self.slack_by(at, note, *i));
            }
        }
        least
    }

    /// Whether the group i lacks nothing.
    fn is_full(&self, at: &At<'_>, note: Option<&Slacks>, i: usize) -> bool
        requires factor { IsFactor at.now.q }
        requires entries { length at.now.x.now ≡ length self.now.places }
        requires small { All IsEntry at.now.x.now }
        requires noted { IfSome note (λ n. laminar_fits self.now.w self.now.groups n.now at.now.q
            at.now.x.now) }
        requires group { i < length self.now.groups }
        ensures { IsTrue result ↔ (slack_of at.now.q self.now.w at.now.x.now
            (group_at self.now.groups i) ≡ pos 0) }
    {
        self.slack_by(at, note, i) == 0
    }

    /// Takes out what is not in the group i, where it lacks nothing.
    fn keep_full_group(&self, at: &At<'_>, note: Option<&Slacks>, i: usize, to: &mut Set)
        requires factor { IsFactor at.now.q }
        requires entries { length at.now.x.now ≡ length self.now.places }
        requires small { All IsEntry at.now.x.now }
        requires noted { IfSome note (λ n. laminar_fits self.now.w self.now.groups n.now at.now.q
            at.now.x.now) }
        requires group { i < length self.now.groups }
        requires sized { length to.old ≡ length self.now.places }
        ensures { IsKept to.old to.new (IsHeldAt at.now.q self.now.w self.now.groups at.now.x.now
            i) }
    {
        if !self.is_full(at, note, i) {
            return;
        }
        to.keep_with(self.mask(i));
    }

    /// Takes out what is not in each group that has u and lacks nothing.
    fn keep_full(&self, at: &At<'_>, note: Option<&Slacks>, u: usize, to: &mut Set)
        requires factor { IsFactor at.now.q }
        requires entries { length at.now.x.now ≡ length self.now.places }
        requires small { All IsEntry at.now.x.now }
        requires noted { IfSome note (λ n. laminar_fits self.now.w self.now.groups n.now at.now.q
            at.now.x.now) }
        requires from { u < length at.now.x.now }
        requires sized { length to.old ≡ length self.now.places }
        ensures { IsKept to.old to.new (IsHeld at.now.q self.now.w self.now.groups at.now.x.now u
            (length self.now.groups)) }
    {
        let holders = self.holders(u);
        for i in holders {
            self.keep_full_group(at, note, *i, to);
        }
    }

    /// Whether u lacks something of q·w.
    fn lacks(&self, at: &At<'_>, u: usize) -> bool
        requires factor { IsFactor at.now.q }
        requires small { All IsEntry at.now.x.now }
        requires from { u < length at.now.x.now }
        ensures { IsTrue result
            ↔ (slice_index_or at.now.x.now u (pos 0) <ℤ (at.now.q *ℤ self.now.w)) }
    {
        at.x[u] < self.place_most(at.q)
    }

    /// What each group lacks.
    fn slacks_of(&self, alloc: Global, at: &At<'_>) -> Result<Vec<i128>, Memory>
        requires factor { IsFactor at.now.q }
        requires entries { length at.now.x.now ≡ length self.now.places }
        requires small { All IsEntry at.now.x.now }
        ensures { IfOk result (λ r. AreSlacks at.now.q self.now.w self.now.groups at.now.x.now
            r.items) }
    {
        let mut slacks = Vec::new(alloc);
        for i in 0..self.groups.len() {
            slacks.push(self.slack(at.q, at.x, i))?;
        }
        Ok(slacks)
    }

    /// What the group i has of an amount at v: all of it, or nothing.
    fn share_in(&self, i: usize, v: usize, a: i128) -> i128
        requires group { i < length self.now.groups }
        requires place { v < length self.now.places }
        requires low { pos 0 ≤ℤ a }
        ensures value { result ≡ share_of (length self.now.places)
            (group_at self.now.groups i) v a }
        ensures low { pos 0 ≤ℤ result }
        ensures high { result ≤ℤ a }
    {
        share(self.has(i, v), a)
    }

    /// What the group i lacks once u is raised and v lowered by a.
    fn moved_slack(&self, slack: i128, i: usize, swap: &Swap) -> i128
        requires small { IsAtMost (10 ^ 27) slack }
        requires group { i < length self.now.groups }
        requires from { swap.now.u < length self.now.places }
        requires onto { swap.now.v < length self.now.places }
        requires low { pos 0 ≤ℤ swap.now.a }
        requires high { swap.now.a ≤ℤ pos (10 ^ 30) }
        ensures { result ≡ ((slack -ℤ share_of (length self.now.places)
            (group_at self.now.groups i) swap.now.u swap.now.a) +ℤ share_of (length self.now.places)
            (group_at self.now.groups i) swap.now.v swap.now.a) }
    {
        slack - self.share_in(i, swap.u, swap.a) + self.share_in(i, swap.v, swap.a)
    }

    /// Brings what each group lacks up to an exchange.
    fn move_slacks(&self, slacks: &mut [i128], swap: &Swap)
        requires groups { length slacks.old ≡ length self.now.groups }
        requires small { All (IsAtMost (10 ^ 27)) slacks.old }
        requires from { swap.now.u < length self.now.places }
        requires onto { swap.now.v < length self.now.places }
        requires low { pos 0 ≤ℤ swap.now.a }
        requires high { swap.now.a ≤ℤ pos (10 ^ 30) }
        ensures places { length slacks.new ≡ length slacks.old }
        ensures moved { (i : ℕ) → i < length slacks.old → slice_index_or slacks.new i (pos 0)
            ≡ ((slice_index_or slacks.old i (pos 0) -ℤ share_of (length self.now.places)
            (group_at self.now.groups i) swap.now.u swap.now.a) +ℤ share_of (length self.now.places)
            (group_at self.now.groups i) swap.now.v swap.now.a) }
    {
        for i in 0..slacks.len() {
            slacks[i] = self.moved_slack(slacks[i], i, swap);
        }
    }
}

impl Plain for Laminar {
    type Note = Slacks;

    ghost places = { λ s. s.places };

    ghost value_of = { λ s. laminar_value (length s.places) s.w s.groups };

    ghost size_of = { λ s. laminar_size (length s.places) s.w s.groups };

    ghost start_of = { λ s q. laminar_start (length s.places) q s.w s.groups };

    ghost lean_value = { λ s. ⊥ };

    ghost fits = { λ s note q x. laminar_fits s.w s.groups note q x };

    ghost family = { λ s. laminar-family (length s.places) s.w s.groups };

    ghost submodular = { λ s. laminar-submodular (length s.places) s.w s.groups s.low s.grouped };

    ghost bounded = { λ s t a h e. laminar-bounded (length s.places) s.w s.groups s.low s.grouped t
        a h e };

    ghost starts = { λ s q low. laminar-starts (length s.places) s.w s.groups s.low s.grouped q
        low };

    ghost starts_small = { λ s q low. laminar-starts_small (length s.places) s.w s.groups s.low
        s.grouped q low };

    ghost starts_times = { λ s q. laminar-starts_times (length s.places) q s.w s.groups };

    fn elements_of(&self) -> &[usize] {
        self.places.as_slice()
    }

    fn has_cheap_rows(&self) -> bool {
        true
    }

    fn size_of(&self) -> i128 {
        self.most()
    }

    /// The value of a part: every part is allowed. Its rank is counted, which takes memory.
    fn value_of(&self, alloc: Global, s: &Set) -> Result<Option<i128>, Memory> {
        let rank = self.rank(alloc, s)?;
        Ok(Some(self.ranked(rank)))
    }

    /// Writes the base with q·w at each element of the base of the matroid that is kept.
    fn start_of(&self, q: i128, x: &mut [i128])
        requires factor { IsFactor q }
        requires entries { length x.old ≡ length self.now.places }
        ensures start { x.new ≡ laminar_start (length self.now.places) q self.now.w
            self.now.groups }
        ensures greedy { IsGreedy q (laminar_value (length self.now.places) self.now.w
            self.now.groups) (length self.now.places) x.new }
    {
        write_each(x, |j| self.share(q, j));
    }

    /// Whether x is a base of q times the term.
    fn is_base_of(&self, q: i128, x: &[i128]) -> bool {
        if !self.are_capped(q, x) {
            return false;
        }
        if !self.has_whole(q, x) {
            return false;
        }
        self.are_bounded(q, x)
    }

    /// The room of (u, v) at a base, by what is kept beside it if there is something: the least of what v has, what u lacks
    /// of q·w, and what each group lacks that has u and not v.
    fn room_of(&self, at: &At<'_>, note: Option<&Slacks>, u: usize, v: usize) -> Room {
        Room::Upto(self.least_left(at, note, u, v))
    }

    /// Writes the places other than u to which u has room at a base, by what is kept beside it if there is something: those
    /// that have something and are in each group that has u and lacks nothing, where u lacks something of q·w.
    fn reach_of(&self, at: &At<'_>, note: Option<&Slacks>, u: usize, to: &mut Set) {
        if !self.lacks(at, u) {
            to.clear();
            return;
        }
        put_some(at.x, note, to);
        to.remove(u);
        self.keep_full(at, note, u, to);
    }

    fn note_of(&self, alloc: Global, at: &At<'_>) -> Result<Slacks, Memory> {
        let slacks = self.slacks_of(alloc, at)?;
        let support = support_of(alloc, at.x)?;
        Ok(Slacks { slacks, support })
    }

    fn note_moved(&self, at: &At<'_>, note: &mut Slacks, swap: &Swap) {
        self.move_slacks(&mut note.slacks, swap);
        move_support(at.x, &mut note.support, swap);
    }
}
