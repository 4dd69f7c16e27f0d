// A split that is kept, for all that is asked of it later. Who can lend to a demand is told by what it leads to over the amounts
// that are kept. Where that is a slot with room, the demand can get one more as it is. Else those that it leads to are exactly
// those that can give up one. What was told of a demand is remembered until the split changes, and later searches go no further
// where they come to it. The amounts for other demands are found beside those that stand and then put in their place, so that want
// of memory leaves these as they were. All this is done in memory that is kept with the split and used again, so that none is
// taken once there is enough.
ghost use Rattle.std.specs.{Prelude.{◌≡◌, ◌↔◌, ℕ, ◌<◌, ◌≤◌, true, false, length, map, slice_set, pos, ◌*ℤ◌, ◌+ℤ◌, ◌≤ℤ◌, ◌<ℤ◌, IsTrue, IfOk, OnOk, OnErr, MatchResult, MatchBool, None, []}, List.{All}};
ghost use Rattle.sfm_spec.specs.Sets.{Has};
ghost use Rattle.sfm_cells.specs.{Splits.{amount_at, CanBeMet, IsAmount, IsCapacity, AreDemands}, Cells.{AreMet}, Left.{AreLeft}, Lenders.{IsLender, with_more, IsMostUpto}};
ghost use Rattle.sfm_split.specs.{Changes.{changed, changed_demands, AreChanges, IsEnded}, Ends.{IsAssignEnd}, Grown.{IsGrown}};
ghost use Rattle.sfm_assign.specs.Spread.{answer_at, AreAnswers, AreAsking, LeadsToRoom, AreLedTo};

use crate::gather::{Standing, gather};
use crate::spread::Spread;
use crate::told::Told;
use sfm_base::{Memory, Set};
use sfm_cells::{Demand, Shares, copy_times, left_of};
use sfm_split::{
    Aim, AssignEnd, Change, Steps, Work, begin, find_amounts, find_changed, met_shares, raise_most,
};
use std::alloc::Global;
use std::mem;

/// What is kept beside a split: what was told of it, and the memory in which this is found and the split is changed.
struct Beside {
    /// What is told of each demand, as far as it was asked for since the split changed.
    answers: Told,
    /// The memory of the searches that tell it.
    search: Spread,
    /// The memory in which the split is changed.
    work: Work,
    /// The demands that ask for something, where these are counted.
    asking: Set,
    counted: bool,
}

/// Demands with a split that meets them, which is kept by the amount on each cell.
pub struct Kept {
    pub demand: Demand,
    shares: Shares,
    /// What each slot has left.
    rooms: Vec<i128>,
    beside: Beside,
    ghost met: { AreMet demand shares.cells.whos.items shares.cells.slots.items shares.y.items },
    ghost left: { AreLeft demand.capacities shares.cells.slots.items shares.y.items rooms.items },
    ghost few: { length beside.answers ≤ length demand.demands },
    ghost each: { length beside.asking ≡ length demand.demands },
    ghost asked: { IsTrue beside.counted → AreAsking demand.demands beside.asking },
    ghost known: { AreAnswers (length demand.demands) shares.cells.whos.items
        shares.cells.slots.items shares.y.items rooms.items beside.answers },
}

/// Whether a demand asks for something.
fn asks(demands: &[i128], v: usize) -> bool
    requires { v < length demands.now }
    ensures { IsTrue result ↔ (pos 0 <ℤ amount_at demands.now v) }
{
    demands[v] > 0
}

/// Writes the demands that ask for something.
fn write_asking(demands: &[i128], to: &mut Set)
    requires { length to.old ≡ length demands.now }
    ensures places { length to.new ≡ length demands.now }
    ensures asking { AreAsking demands.now to.new }
{
    for v in 0..demands.len() {
        to.put(v, asks(demands, v));
    }
}

/// Changes demands one after another.
fn change_all(demand: &mut Demand, changes: &[Change])
    requires { AreChanges changes.now demand.old.demands }
    ensures { demand.new ≡ changed_demands changes.now demand.old.capacities demand.old }
{
    for change in changes {
        demand.raise(change.k, change.more);
    }
}

/// Writes the demands of a set other than u.
fn write_others(set: &Set, u: usize, to: &mut Set)
    requires same { length to.old ≡ length set.now }
    requires place { u < length set.now }
    ensures { to.new ≡ slice_set set.now u false }
{
    to.clear();
    to.union_with(set);
    to.remove(u);
}

// Written out, so that whoever lets one go does so in one step.
impl Drop for Beside {
    fn drop(self) {
        let Self {
            answers: _,
            search: _,
            work: _,
            asking: _,
            counted: _,
        } = self;
    }
}

impl Beside {
    /// For a split of n demands: nothing is told yet, and no memory of searches is used.
    fn new(alloc: Global, n: usize) -> Result<Beside, Memory>
        ensures answers { IfOk result (λ r. r.answers ≡ []) }
        ensures asking { IfOk result (λ r. length r.asking ≡ n) }
        ensures counted { IfOk result (λ r. r.counted ≡ false) }
    {
        let asking = Set::empty(alloc, n)?;
        let search = Spread::new(alloc)?;
        Ok(Beside {
            answers: Told::new(alloc),
            search,
            work: Work::new(alloc),
            asking,
            counted: false,
        })
    }

    /// Forgets what was told of a split, as it changes.
    fn forget(&mut self)
        ensures same { length self.new.answers ≡ length self.old.answers }
        ensures none { (u : ℕ) → answer_at self.new.answers u ≡ None }
        ensures asking { self.new.asking ≡ self.old.asking }
        ensures counted { self.new.counted ≡ false }
    {
        self.answers.forget(&mut self.search);
        self.counted = false;
    }

    /// Puts the amounts that were found, and what slots have left with these, in place of those of a split. What was told of it
    /// is forgotten.
    fn put(&mut self, y: &mut Vec<i128>, rooms: &mut Vec<i128>)
        ensures amounts { y.new.items ≡ self.old.work.y.items }
        ensures rooms { rooms.new.items ≡ self.old.work.left.rooms.items }
        ensures same { length self.new.answers ≡ length self.old.answers }
        ensures none { (u : ℕ) → answer_at self.new.answers u ≡ None }
        ensures asking { self.new.asking ≡ self.old.asking }
        ensures counted { self.new.counted ≡ false }
    {
        mem::swap(y, &mut self.work.y);
        mem::swap(rooms, &mut self.work.left.rooms);
        self.forget();
    }
}

/// Finds amounts by which all demands are met still, and the demand u gets as much more as it can, up to a limit; tells how much.
fn find_more(
    alloc: Global,
    work: &mut Work,
    demand: &Demand,
    split: &Standing,
    u: usize,
    limit: i128,
) -> Result<i128, Memory>
    requires met { AreMet demand.now split.now.shares.now.cells.whos.items
        split.now.shares.now.cells.slots.items split.now.shares.now.y.items }
    requires left { AreLeft demand.now.capacities split.now.shares.now.cells.slots.items
        split.now.shares.now.y.items split.now.rooms.now }
    requires place { u < length demand.now.demands }
    requires low { pos 0 ≤ℤ limit }
    requires small { IsAmount (amount_at demand.now.demands u +ℤ limit) }
    ensures { IfOk result (IsGrown demand.now split.now.shares.now.cells.whos.items
        split.now.shares.now.cells.slots.items work.new.y.items work.new.left.rooms.items u limit) }
{
    let _sound = demand.demands();
    begin(work, demand, split.shares, split.rooms)?;
    let more = raise_most(alloc, split.shares.cells.all(), work, u, limit)?;
    Ok(more)
}

// Written out, so that whoever lets one go does so in one step.
impl Drop for Kept {
    fn drop(self) {
        let Self {
            demand: _,
            shares: _,
            rooms: _,
            beside: _,
        } = self;
    }
}

impl Kept {
    /// Splits each demand over its slots, no slot getting more than its capacity; the demands are taken over.
    ///
    /// # Errors
    ///
    /// `Shortage` where there is no split, as `assign`; `Memory` where there is none.
    pub fn new(alloc: Global, demand: Demand) -> Result<Kept, AssignEnd>
        ensures { MatchResult result (λ r. r.demand ≡ demand)
            (IsAssignEnd demand.demands demand.lists demand.capacities) }
    {
        let shares = met_shares(alloc, &demand)?;
        let kept = Kept::around(alloc, demand, shares)?;
        Ok(kept)
    }

    /// A split that is kept, by its amounts; nothing is remembered of it.
    fn around(alloc: Global, demand: Demand, shares: Shares) -> Result<Kept, Memory>
        requires { AreMet demand shares.cells.whos.items shares.cells.slots.items shares.y.items }
        ensures { IfOk result (λ r. r.demand ≡ demand) }
    {
        let beside = Beside::new(alloc, demand.demands().len())?;
        let rooms = left_of(
            alloc,
            demand.capacities(),
            &shares.cells.all().slots,
            &shares.y,
        )?;
        Ok(Kept {
            demand,
            shares,
            rooms,
            beside,
        })
    }

    /// A copy, for changes beside those that are kept. Nothing is remembered of it.
    ///
    /// # Errors
    ///
    /// `Memory` where there is none.
    pub fn copy(&self, alloc: Global) -> Result<Kept, Memory>
        ensures { IfOk result (λ r. r.demand ≡ self.now.demand) }
    {
        let demand = self.demand.copy(alloc)?;
        let shares = self.shares.copy(alloc)?;
        Kept::around(alloc, demand, shares)
    }

    /// A split of m times the demands over slots that hold m times as much: each amount is m times what it was. Nothing is remembered
    /// of it.
    ///
    /// # Errors
    ///
    /// `Memory` where there is none.
    pub fn times(&self, alloc: Global, m: i128) -> Result<Kept, Memory>
        requires low { pos 1 ≤ℤ m }
        requires amounts { All IsAmount (map (λ a. m *ℤ a) self.now.demand.demands) }
        requires bounded { All IsCapacity (map (λ a. m *ℤ a) self.now.demand.capacities) }
        ensures { IfOk result (λ r. r.demand ≡ record {
          demands = map (λ a. m *ℤ a) self.now.demand.demands;
          lists = self.now.demand.lists;
          capacities = map (λ a. m *ℤ a) self.now.demand.capacities;
        }) }
    {
        let _sound = self.demand.demands();
        let demand = self.demand.times(alloc, m)?;
        let shares = self.shares.times(alloc, m)?;
        Kept::around(alloc, demand, shares)
    }

    /// Writes a split of m times the demands of another over the same lists, whose slots hold m times as much, in place of this one.
    /// Each amount is m times what it is there; nothing is remembered. The amounts take no memory.
    pub fn copy_times(&mut self, m: i128, from: &Kept)
        requires low { pos 1 ≤ℤ m }
        requires lists { self.old.demand.lists ≡ from.now.demand.lists }
        requires slots { length self.old.demand.capacities ≡ length from.now.demand.capacities }
        requires amounts { All IsAmount (map (λ a. m *ℤ a) from.now.demand.demands) }
        requires bounded { All IsCapacity (map (λ a. m *ℤ a) from.now.demand.capacities) }
        ensures { self.new.demand ≡ record {
          demands = map (λ a. m *ℤ a) from.now.demand.demands;
          lists = from.now.demand.lists;
          capacities = map (λ a. m *ℤ a) from.now.demand.capacities;
        } }
    {
        let _sound = self.demand.demands();
        let _other = from.demand.demands();
        copy_times(m, &from.shares.y, &mut self.shares.y);
        copy_times(m, &from.rooms, &mut self.rooms);
        self.demand.copy_times(m, &from.demand);
        self.beside.forget();
    }

    /// Puts other demands and capacities in place of these, over the same lists, and splits them, from the split as it stands:
    /// what is too much is lowered, and what is lacking is raised. It takes no memory once it has had what it wants.
    ///
    /// # Errors
    ///
    /// `Shortage` where there is no such split, `Memory` where there is none; demands and capacities are then as they were.
    pub fn bring(
        &mut self,
        alloc: Global,
        demands: &[i128],
        capacities: &[i128],
    ) -> Result<(), AssignEnd>
        requires sized { length demands.now ≡ length self.old.demand.demands }
        requires slots { length capacities.now ≡ length self.old.demand.capacities }
        requires amounts { All IsAmount demands.now }
        requires bounded { All IsCapacity capacities.now }
        ensures brought { MatchResult result (λ _. self.new.demand
            ≡ record {
              demands = demands.now;
              lists = self.old.demand.lists;
              capacities = capacities.now;
            }) (IsAssignEnd demands.now self.old.demand.lists
            capacities.now) }
        ensures unchanged { OnErr result (self.new.demand ≡ self.old.demand) }
    {
        let _sound = self.demand.demands();
        let aim = Aim {
            demands,
            capacities,
        };
        find_amounts(
            alloc,
            &mut self.beside.work,
            &self.demand,
            &self.shares,
            &self.rooms,
            &aim,
        )?;
        self.demand.copy_from(demands, capacities);
        self.beside.put(&mut self.shares.y, &mut self.rooms);
        Ok(())
    }

    /// Whether other demands can be met over the same lists, with other capacities. The split stays as it is; amounts for them are
    /// looked for beside it.
    ///
    /// # Errors
    ///
    /// `Memory` where there is none.
    pub fn can_meet(&self, alloc: Global, aim: &Aim) -> Result<bool, Memory>
        requires sized { length aim.now.demands.now ≡ length self.now.demand.demands }
        requires slots { length aim.now.capacities.now ≡ length self.now.demand.capacities }
        requires amounts { All IsAmount aim.now.demands.now }
        requires bounded { All IsCapacity aim.now.capacities.now }
        ensures { IfOk result (λ r. IsTrue r ↔ CanBeMet aim.now.demands.now
            self.now.demand.lists aim.now.capacities.now) }
    {
        let _sound = self.demand.demands();
        let mut work = Work::new(alloc);
        match find_amounts(
            alloc,
            &mut work,
            &self.demand,
            &self.shares,
            &self.rooms,
            aim,
        ) {
            Ok(()) => Ok(true),
            Err(AssignEnd::Shortage { .. }) => Ok(false),
            Err(AssignEnd::Memory) => Err(Memory),
        }
    }

    /// Finds amounts by which demands are met of which some change, with other capacities; they can be met.
    fn find_met(&self, alloc: Global, work: &mut Work, steps: &Steps) -> Result<(), Memory>
        requires changes { AreChanges steps.now.changes.now self.now.demand.demands }
        requires slots { length steps.now.capacities.now ≡ length self.now.demand.capacities }
        requires bounded { All IsCapacity steps.now.capacities.now }
        requires can { CanBeMet (changed steps.now.changes.now self.now.demand.demands)
            self.now.demand.lists steps.now.capacities.now }
        ensures { OnOk result (IsEnded (changed_demands steps.now.changes.now
            steps.now.capacities.now self.now.demand) self.now.shares.cells.whos.items
            self.now.shares.cells.slots.items work.new.y.items work.new.left.lacks.items
            work.new.left.rooms.items) }
    {
        match find_changed(alloc, work, &self.demand, &self.shares, &self.rooms, steps) {
            Ok(()) => Ok(()),
            Err(AssignEnd::Shortage { .. }) => unreachable!(),
            Err(AssignEnd::Memory) => Err(Memory),
        }
    }

    /// Finds amounts by which demands are met of which some change, with other capacities, and the demand u gets as much more as it
    /// can, up to a limit; tells how much. The demands without that can be met.
    fn find_raised(
        &self,
        alloc: Global,
        work: &mut Work,
        steps: &Steps,
        u: usize,
        limit: i128,
    ) -> Result<i128, Memory>
        requires changes { AreChanges steps.now.changes.now self.now.demand.demands }
        requires slots { length steps.now.capacities.now ≡ length self.now.demand.capacities }
        requires bounded { All IsCapacity steps.now.capacities.now }
        requires met { CanBeMet (changed steps.now.changes.now self.now.demand.demands)
            self.now.demand.lists steps.now.capacities.now }
        requires place { u < length self.now.demand.demands }
        requires low { pos 0 ≤ℤ limit }
        requires small { IsAmount (amount_at (changed steps.now.changes.now
            self.now.demand.demands) u +ℤ limit) }
        ensures { IfOk result (IsGrown (changed_demands steps.now.changes.now
            steps.now.capacities.now self.now.demand) self.now.shares.cells.whos.items
            self.now.shares.cells.slots.items work.new.y.items work.new.left.rooms.items u limit) }
    {
        let _sound = self.demand.demands();
        self.find_met(alloc, work, steps)?;
        let more = raise_most(alloc, self.shares.cells.all(), work, u, limit)?;
        Ok(more)
    }

    /// Raises the demand u by as much as can be met with all others, up to a limit, and tells by how much. It takes no memory
    /// once it has had what it wants.
    ///
    /// # Errors
    ///
    /// `Memory` where there is none; demands and capacities are then as they were.
    pub fn grow(&mut self, alloc: Global, u: usize, limit: i128) -> Result<i128, Memory>
        requires place { u < length self.old.demand.demands }
        requires low { pos 0 ≤ℤ limit }
        requires small { IsAmount (amount_at self.old.demand.demands u +ℤ limit) }
        ensures grown { IfOk result (λ g. self.new.demand ≡ with_more self.old.demand u g) }
        ensures most { IfOk result (IsMostUpto self.old.demand u limit) }
        ensures unchanged { OnErr result (self.new.demand ≡ self.old.demand) }
    {
        let _sound = self.demand.demands();
        let split = Standing {
            shares: &self.shares,
            rooms: &self.rooms,
        };
        let work = &mut self.beside.work;
        let more = find_more(alloc, work, &self.demand, &split, u, limit)?;
        self.demand.raise(u, more);
        self.beside.put(&mut self.shares.y, &mut self.rooms);
        Ok(more)
    }

    /// Takes over how another split over the same lists meets its demands once some of these have changed, with other capacities, and
    /// the demand u raised by as much as can be met besides, up to a limit; tells by how much. It takes no memory once it has had
    /// what it wants.
    ///
    /// # Errors
    ///
    /// `Memory` where there is none; demands and capacities are then as they were.
    pub fn grow_from(
        &mut self,
        alloc: Global,
        from: &Kept,
        steps: &Steps,
        u: usize,
        limit: i128,
    ) -> Result<i128, Memory>
        requires lists { self.old.demand.lists ≡ from.now.demand.lists }
        requires slots { length steps.now.capacities.now ≡ length self.old.demand.capacities }
        requires other_slots { length steps.now.capacities.now ≡ length from.now.demand.capacities }
        requires changes { AreChanges steps.now.changes.now from.now.demand.demands }
        requires bounded { All IsCapacity steps.now.capacities.now }
        requires met { CanBeMet (changed steps.now.changes.now from.now.demand.demands)
            from.now.demand.lists steps.now.capacities.now }
        requires place { u < length from.now.demand.demands }
        requires low { pos 0 ≤ℤ limit }
        requires small { IsAmount (amount_at (changed steps.now.changes.now
            from.now.demand.demands) u +ℤ limit) }
        ensures grown { IfOk result (λ g. self.new.demand ≡ with_more (changed_demands
            steps.now.changes.now steps.now.capacities.now from.now.demand) u g) }
        ensures most { IfOk result (IsMostUpto (changed_demands steps.now.changes.now
            steps.now.capacities.now from.now.demand) u limit) }
        ensures unchanged { OnErr result (self.new.demand ≡ self.old.demand) }
    {
        let _sound = self.demand.demands();
        let before = from.demand.demands();
        let more = from.find_raised(alloc, &mut self.beside.work, steps, u, limit)?;
        self.demand.copy_from(before, steps.capacities);
        change_all(&mut self.demand, steps.changes);
        self.demand.raise(u, more);
        self.beside.put(&mut self.shares.y, &mut self.rooms);
        Ok(more)
    }

    /// Changes demands one after another, and splits them from the split as it stands: what is too much is lowered, and what is
    /// lacking is raised. It takes no memory once it has had what it wants.
    ///
    /// # Errors
    ///
    /// `Shortage` where there is no such split, `Memory` where there is none; demands are then as they were.
    pub fn bring_changed(&mut self, alloc: Global, changes: &[Change]) -> Result<(), AssignEnd>
        requires { AreChanges changes.now self.old.demand.demands }
        ensures brought { MatchResult result (λ _. self.new.demand ≡ changed_demands changes.now
            self.old.demand.capacities self.old.demand)
            (IsAssignEnd (changed changes.now self.old.demand.demands) self.old.demand.lists
            self.old.demand.capacities) }
        ensures unchanged { OnErr result (self.new.demand ≡ self.old.demand) }
    {
        let _sound = self.demand.demands();
        let steps = Steps {
            changes,
            capacities: self.demand.capacities(),
        };
        find_changed(
            alloc,
            &mut self.beside.work,
            &self.demand,
            &self.shares,
            &self.rooms,
            &steps,
        )?;
        change_all(&mut self.demand, changes);
        self.beside.put(&mut self.shares.y, &mut self.rooms);
        Ok(())
    }

    /// Sees to it that the demands that ask for something are counted.
    fn count_asking(&mut self)
        ensures same { self.new.demand ≡ self.old.demand }
        ensures counted { IsTrue self.new.beside.counted }
    {
        if self.beside.counted {
            return;
        }
        write_asking(self.demand.demands(), &mut self.beside.asking);
        self.beside.counted = true;
    }

    /// Makes room for what is told of each demand.
    fn make_room(&mut self) -> Result<(), Memory>
        ensures same { self.new.demand ≡ self.old.demand }
        ensures places { OnOk result (length self.new.beside.answers
            ≡ length self.new.demand.demands) }
    {
        let n = self.demand.demands().len();
        self.beside.answers.make_room(n)
    }

    /// Gathers what the demand u leads to, but for u itself; tells whether a slot with room is led to.
    fn gather(&mut self, alloc: Global, u: usize, to: &mut Set) -> Result<bool, Memory>
        requires place { u < length self.old.demand.demands }
        requires places { length self.old.beside.answers ≡ length self.old.demand.demands }
        requires room_for_answer { length to.old ≡ length self.old.demand.demands }
        ensures same { self.new.demand ≡ self.old.demand }
        ensures whos { self.new.shares.cells.whos.items ≡ self.old.shares.cells.whos.items }
        ensures slots { self.new.shares.cells.slots.items ≡ self.old.shares.cells.slots.items }
        ensures amounts { self.new.shares.y.items ≡ self.old.shares.y.items }
        ensures rooms { self.new.rooms.items ≡ self.old.rooms.items }
        ensures places { length to.new ≡ length to.old }
        ensures led { IfOk result (λ room. MatchBool room
            (LeadsToRoom self.old.shares.cells.whos.items self.old.shares.cells.slots.items
            self.old.shares.y.items self.old.rooms.items u)
            (AreLedTo (length self.old.demand.demands) self.old.shares.cells.whos.items
            self.old.shares.cells.slots.items self.old.shares.y.items self.old.rooms.items u
            (slice_set to.new u true))) }
    {
        let _sound = self.demand.demands();
        let split = Standing {
            shares: &self.shares,
            rooms: &self.rooms,
        };
        let answers = &mut self.beside.answers;
        gather(alloc, &mut self.beside.search, &split, answers, u, to)
    }

    /// Writes the demands that can lend to u over what was gathered.
    fn write_lenders(&mut self, room: bool, u: usize, to: &mut Set)
        requires place { u < length self.old.demand.demands }
        requires room_for_answer { length to.old ≡ length self.old.demand.demands }
        requires led { MatchBool room
            (LeadsToRoom self.old.shares.cells.whos.items self.old.shares.cells.slots.items
            self.old.shares.y.items self.old.rooms.items u)
            (AreLedTo (length self.old.demand.demands) self.old.shares.cells.whos.items
            self.old.shares.cells.slots.items self.old.shares.y.items self.old.rooms.items u
            (slice_set to.old u true)) }
        ensures same { self.new.demand ≡ self.old.demand }
        ensures places { length to.new ≡ length to.old }
        ensures reached { (v : ℕ) → v < length to.new → Has to.new v
            ↔ IsLender self.old.demand.demands self.old.demand.lists self.old.demand.capacities u
            v }
    {
        let _sound = self.demand.demands();
        if room {
            self.count_asking();
            write_others(&self.beside.asking, u, to);
            return;
        }
        to.remove(u);
    }

    /// Writes the demands that can lend to u: those that ask for something and that, given one less, leave room for u to get
    /// one more with all others met.
    ///
    /// # Errors
    ///
    /// `Memory` where there is none.
    pub fn reach(&mut self, alloc: Global, u: usize, to: &mut Set) -> Result<(), Memory>
        requires place { u < length self.old.demand.demands }
        requires room_for_answer { length to.old ≡ length self.old.demand.demands }
        ensures same { self.new.demand ≡ self.old.demand }
        ensures places { length to.new ≡ length to.old }
        ensures reached { OnOk result ((v : ℕ) → v < length to.new → Has to.new v
            ↔ IsLender self.old.demand.demands self.old.demand.lists self.old.demand.capacities u
            v) }
    {
        self.make_room()?;
        let room = self.gather(alloc, u, to)?;
        self.write_lenders(room, u, to);
        Ok(())
    }
}
