// A number w times the rank of a graphic matroid. A part of the edges is independent where no closed trail takes distinct
// edges of it: where it is a forest. The edges that are taken one after another, unless they close a trail, are a greatest
// forest of a part, so their count is the rank. The bases of q times the term are told by a test for each vertex, and those of the
// tails are enough. What an edge u may get is told by the test of an end of it alone: the room of (u, v) is the least of what v
// has, what u lacks of q·w, and what u lacks of the most that it gets in that test without v, and to whom u has room is told by
// one search in it.
ghost use Rattle.std.specs.Prelude.{◌≡◌, ℕ, ◌<◌, ◌≤◌, ◌^◌, length, ℤ, pos, ◌≤ℤ◌, IfOk, IsOk, OnOk, Some, None};
ghost use Rattle.sfm_spec.specs.{Bounds.{IsAtMost, IsFactor, IsGiven, AreElements}, Terms.{IsGreedy}, Kinds.{IsForest, IsRank, IsRankFunction}};
ghost use Rattle.sfm_graphic.specs.{Ends.{edges_of}, Numbered.{IsEndOf, numbered, vertex_count}, Notes.{graphic_fits, AreOverEnds, IsGraphicBase}, Graphs.{graphic_rank, graphic_value, graphic_size, graphic_start, graphic_basis}, GraphicLaws.{graphic-family, graphic-submodular, graphic-bounded, graphic-starts, graphic-starts_small, graphic-starts_times}};

use crate::ends::Ends;
use crate::graph::{Graph, numbered};
use crate::growing::{basis_of, grow};
use crate::rooted::RootSplit;
use crate::testing::{brought, capacities, end_demand, passes_tails};
use sfm_base::{Memory, Places, Set};
use sfm_law::{At, Lead, Room, Swap, Term};
use sfm_matroid::SplitPair;
use sfm_matroid::givers::row;
use sfm_matroid::ranked::{adds_up, cap_of, worth, write_start};
use sfm_matroid::room::{moved, pull_of};
use sfm_matroid::splits::split_of;
use std::alloc::Global;
use std::mem;

/// A number for each element of a greatest independent part: elements are edges, and independent where they are a forest
/// (Schrijver, Combinatorial Optimization, section 39).
pub struct Graphic {
    pub places: Places,
    pub w: i128,
    pub ends: Ends,
    /// The edges that are taken one after another unless they close a trail.
    pub basis: Set,
    /// The edges by the numbers of their ends: the tests that tell bases go over these.
    graph: Graph,
    pub ghost elements: { AreElements places },
    pub ghost few: { length places ≤ 256 },
    pub ghost low: { pos 0 ≤ℤ w },
    pub ghost given: { IsGiven w },
    pub ghost same_count: { length ends ≡ length places },
    pub ghost based: { basis ≡ graphic_basis ends },
    ghost of_ends: { edges_of graph.ends ≡ numbered ends },
    ghost counted: { graph.vertices ≡ vertex_count ends },
}

// Written out, so that letting one go is one step, which is proved here once.
impl Drop for Graphic {
    fn drop(self) {
        let Self {
            places: _,
            w: _,
            ends: _,
            basis: _,
            graph: _,
        } = self;
    }
}

impl Graphic {
    /// The term that is worth w for each edge of a greatest forest; the elements and the ends of their edges are copied.
    ///
    /// # Errors
    ///
    /// `Memory` where there is none.
    pub fn new(
        alloc: Global,
        elements: &[usize],
        w: i128,
        ends: &[(u32, u32)],
    ) -> Result<Graphic, Memory>
        requires elements { AreElements elements.now }
        requires low { pos 0 ≤ℤ w }
        requires given { IsGiven w }
        requires same_count { length ends.now ≡ length elements.now }
        ensures places { IfOk result (λ r. r.places ≡ elements.now) }
        ensures number { IfOk result (λ r. r.w ≡ w) }
        ensures ends { IfOk result (λ r. r.ends ≡ edges_of ends.now) }
    {
        let places = Places::from_slice(alloc, elements)?;
        let basis = basis_of(alloc, ends)?;
        let own = Ends::from_slice(alloc, ends)?;
        let graph = numbered(alloc, ends)?;
        Ok(Graphic {
            places,
            w,
            ends: own,
            basis,
            graph,
        })
    }

    /// A copy.
    ///
    /// # Errors
    ///
    /// `Memory` where there is none.
    pub fn copy(&self, alloc: Global) -> Result<Graphic, Memory>
        ensures { IfOk result (λ r. r ≡ self.now) }
    {
        let places = Places::from_slice(alloc, self.places.as_slice())?;
        let ends = self.ends.copy(alloc)?;
        let basis = self.basis.copy(alloc)?;
        let graph = self.graph.copy(alloc)?;
        Ok(Graphic {
            places,
            w: self.w,
            ends,
            basis,
            graph,
        })
    }

    /// How many elements of a part may be independent together, and no more.
    ///
    /// # Errors
    ///
    /// `Memory` where there is none.
    pub fn rank(&self, alloc: Global, s: &Set) -> Result<i128, Memory>
        requires { length s.now ≡ length self.now.places }
        ensures rank { IfOk result (λ r. r ≡ pos (graphic_rank self.now.ends s.now)) }
        ensures greatest { IfOk result (λ r. (n : ℕ) × (r ≡ pos n)
            × IsRank (IsForest self.now.ends) s.now n) }
    {
        let forest = grow(alloc, self.ends.as_slice(), s)?;
        Ok(forest.size() as i128)
    }

    /// The value of each part is w times its rank: a law, with nothing to do.
    pub fn values_are_ranks(&self)
        ensures { IsRankFunction (length self.now.places) self.now.w (IsForest self.now.ends)
            (graphic_value self.now.w self.now.ends) }
    {}

    /// The root if it is an end of an edge, and else the hub of that.
    fn end_near(&self, root: usize, u: usize) -> usize
        requires { u < length self.now.places }
        ensures { IsEndOf (numbered self.now.ends) u result }
    {
        let (tail, head) = self.graph.ends.as_slice()[u];
        if root == head || root != tail && self.graph.hub(u) == Some(head) {
            head
        } else {
            tail
        }
    }

    /// Brings a split of whatever amounts that is kept to a base, in the test of a root.
    ///
    /// # Errors
    ///
    /// `Memory` where there is none.
    fn bring(
        &self,
        alloc: Global,
        at: &At<'_>,
        note: &mut RootSplit,
        root: usize,
    ) -> Result<(), Memory>
        requires base { IsGraphicBase (length self.now.places) self.now.w self.now.ends at.now.q
            at.now.x.now }
        requires vertex { root < vertex_count self.now.ends }
        requires over { AreOverEnds (numbered self.now.ends)
            (vertex_count self.now.ends) note.old.pair }
        ensures root { OnOk result (note.new.root ≡ root) }
        ensures noted { OnOk result (graphic_fits self.now.w self.now.ends note.new at.now.q
            at.now.x.now) }
    {
        let cap = cap_of(at.q, self.w);
        if !brought(alloc, &self.graph, &mut note.pair.kept, at.x, cap, root)? {
            unreachable!();
        }
        note.pair.near = None;
        note.root = root;
        Ok(())
    }

    /// Moves the root of the split that is kept beside a base to an end of u, unless it is there.
    ///
    /// # Errors
    ///
    /// `Memory` where there is none.
    fn root_near(
        &self,
        alloc: Global,
        at: &At<'_>,
        note: &mut RootSplit,
        u: usize,
    ) -> Result<(), Memory>
        requires base { IsGraphicBase (length self.now.places) self.now.w self.now.ends at.now.q
            at.now.x.now }
        requires noted { graphic_fits self.now.w self.now.ends note.old at.now.q at.now.x.now }
        requires place { u < length self.now.places }
        ensures end { OnOk result (IsEndOf (numbered self.now.ends) u note.new.root) }
        ensures noted { OnOk result (graphic_fits self.now.w self.now.ends note.new at.now.q
            at.now.x.now) }
    {
        let root = self.end_near(note.root, u);
        if root == note.root {
            return Ok(());
        }
        self.bring(alloc, at, note, root)
    }

    /// Whether there is a spare split, with its root at an end of u.
    fn has_near(&self, note: &RootSplit, u: usize) -> bool
        requires { u < length self.now.places }
    {
        note.pair.spare.is_some() && self.end_near(note.spare_root, u) == note.spare_root
    }

    /// Takes the spare split in place of the one that is kept, if its root is an end of u. The other one is the spare then.
    fn take_spare(&self, note: &mut RootSplit, u: usize)
        requires place { u < length self.now.places }
        requires over { AreOverEnds (numbered self.now.ends)
            (vertex_count self.now.ends) note.old.pair }
        ensures { AreOverEnds (numbered self.now.ends) (vertex_count self.now.ends) note.new.pair }
    {
        if self.has_near(note, u) {
            note.pair.swap();
            mem::swap(&mut note.root, &mut note.spare_root);
        }
    }
}

impl Term for Graphic {
    type Note = RootSplit;

    ghost places = { λ s. s.places };

    ghost value_of = { λ s. graphic_value s.w s.ends };

    ghost size_of = { λ s. graphic_size s.w s.ends };

    ghost start_of = { λ s q. graphic_start q s.w s.ends };

    // Nothing is said: the calls take memory.
    ghost lean_value = { λ s. ⊥ };

    ghost lean_calls = { λ s. ⊥ };

    ghost fits = { λ s note q x. graphic_fits s.w s.ends note q x };

    ghost family = { λ s. graphic-family (length s.places) s.w s.ends s.same_count };

    ghost submodular = { λ s. graphic-submodular (length s.places) s.w s.ends s.same_count s.low };

    ghost bounded = { λ s t a h e. graphic-bounded (length s.places) s.w s.ends s.same_count s.low t
        a h e };

    ghost starts = { λ s q low. graphic-starts (length s.places) s.w s.ends s.same_count s.low q
        low };

    ghost starts_small = { λ s q low. graphic-starts_small (length s.places) s.w s.ends s.same_count
        s.low q low };

    ghost starts_times = { λ s q. graphic-starts_times q s.w s.ends };

    fn elements(&self) -> &[usize] {
        self.places.as_slice()
    }

    fn order(&self) -> Option<&[usize]> {
        Some(self.graph.order.as_slice())
    }

    fn asks_at_once(&self) -> bool {
        true
    }

    /// The greatest value: that of all elements.
    fn size(&self) -> i128
        ensures value { result ≡ graphic_size self.now.w self.now.ends }
        ensures small { IsAtMost (10 ^ 21) result }
    {
        worth(self.w, &self.basis)
    }

    /// The value of a part: w times its rank.
    fn value(&self, alloc: Global, s: &Set) -> Result<Option<i128>, Memory> {
        let forest = grow(alloc, self.ends.as_slice(), s)?;
        Ok(Some(worth(self.w, &forest)))
    }

    /// Writes the base with q·w at each edge of the forest that is kept, and 0 at the others.
    fn start(&self, _alloc: Global, q: i128, x: &mut [i128]) -> Result<(), Memory>
        requires factor { IsFactor q }
        requires entries { length x.old ≡ length self.now.places }
        ensures start { OnOk result (x.new ≡ graphic_start q self.now.w self.now.ends) }
        ensures greedy { OnOk result (IsGreedy q (graphic_value self.now.w self.now.ends)
            (length self.now.places) x.new) }
        ensures sure { IsOk result }
    {
        write_start(q, self.w, &self.basis, x);
        Ok(())
    }

    fn is_base(&self, alloc: Global, q: i128, x: &[i128]) -> Result<bool, Memory> {
        if !adds_up(x, q, self.w, &self.basis) {
            return Ok(false);
        }
        let passed = passes_tails(alloc, &self.graph, x, cap_of(q, self.w))?;
        Ok(passed)
    }

    /// The room of (u, v) at a base, by a note that is made for it.
    fn room(&self, alloc: Global, at: &At<'_>, u: usize, v: usize) -> Result<Room, Memory> {
        let mut note = self.note(alloc, at)?;
        let swap = Swap { u, v, a: at.x[v] };
        let most = self.room_by(alloc, at, &mut note, &swap)?;
        Ok(Room::Upto(most))
    }

    /// Writes the places other than u to which u has room at a base, by a note that is made for it.
    fn reach(&self, alloc: Global, at: &At<'_>, u: usize, to: &mut Set) -> Result<(), Memory> {
        let mut note = self.note(alloc, at)?;
        self.reach_by(alloc, at, &mut note, &Lead { from: u, onto: u }, to)
    }

    /// The split in the test of a vertex.
    fn note(&self, alloc: Global, at: &At<'_>) -> Result<RootSplit, Memory> {
        let cap = cap_of(at.q, self.w);
        let demand = end_demand(alloc, &self.graph, at.x, cap, 0)?;
        let kept = split_of(alloc, demand)?;
        Ok(RootSplit {
            pair: SplitPair {
                kept,
                spare: None,
                near: None,
            },
            root: 0,
            spare_root: 0,
        })
    }

    /// Writes the places other than the first of a lead to which that has room at a base, by the split that is kept, with its root
    /// at an end of the second.
    fn reach_by(
        &self,
        alloc: Global,
        at: &At<'_>,
        note: &mut RootSplit,
        lead: &Lead,
        to: &mut Set,
    ) -> Result<(), Memory> {
        self.root_near(alloc, at, note, lead.onto)?;
        let cap = cap_of(at.q, self.w);
        row(alloc, &mut note.pair.kept, at.x, cap, lead.from, to)?;
        Ok(())
    }

    /// How much of an amount u can get of v at a base, by a second split beside the one that is kept, which is brought to what stays
    /// without v, with the root at an end of u, and stays in the note.
    fn room_by(
        &self,
        alloc: Global,
        at: &At<'_>,
        note: &mut RootSplit,
        swap: &Swap,
    ) -> Result<i128, Memory> {
        let cap = cap_of(at.q, self.w);
        let root = self.end_near(note.root, swap.u);
        let pull = pull_of(at.x, cap, swap);
        let held = capacities(alloc, self.graph.vertices, cap, root)?;
        note.spare_root = root;
        let most = note.pair.raise_spare(alloc, &held, &pull)?;
        Ok(most)
    }

    /// Brings what is kept beside a base to the exchanged one, with the root at an end of the place that is raised: the spare
    /// split, or else the one that is kept.
    fn moved(
        &self,
        alloc: Global,
        at: &At<'_>,
        note: &mut RootSplit,
        swap: &Swap,
    ) -> Result<(), Memory> {
        if note.pair.exchange(alloc, swap)? {
            mem::swap(&mut note.root, &mut note.spare_root);
            return Ok(());
        }
        let after = moved(alloc, at.x, swap)?;
        self.take_spare(note, swap.u);
        let root = self.end_near(note.root, swap.u);
        self.bring(alloc, &At { q: at.q, x: &after }, note, root)
    }

    /// The split that is kept, m times, with the same root.
    fn note_times(
        &self,
        alloc: Global,
        m: i128,
        _at: &At<'_>,
        note: &RootSplit,
    ) -> Result<Option<RootSplit>, Memory> {
        let times = note.times(alloc, m)?;
        Ok(Some(times))
    }

    /// The split that is kept, m times, with the same root, over another one.
    fn note_over(&self, m: i128, _at: &At<'_>, note: &RootSplit, over: &mut RootSplit) -> bool {
        over.copy_times(m, note);
        true
    }
}
