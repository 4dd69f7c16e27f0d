// What a demand leads to while all demands are met: another demand that has something on one of its slots, what that leads to,
// and so on. Each of these can give one up, if the first is to get one more. A search from the demand finds them: each stands in
// a queue and is handled once. It ends where a slot has room, since the demand can then get one more as it is. Where it comes to
// a demand of which the answer is known, it takes that answer in and goes no further from there; and where that one leads
// back, both lead to the same demands. The memory of a search serves for the next one, and so does that of sets that are told no
// more: once there is as much as was wanted before, none is taken.
ghost use Rattle.std.specs.Prelude.{◌≡◌, ℕ, ◌+◌, ◌<◌, Bool, List, [], ◌∷◌, ◌++◌, true, length, slice_set, pos, ◌≤ℤ◌, IfOk, OnOk, MatchOption};
ghost use Rattle.sfm_spec.specs.Sets.{Has, empty_set, union};
ghost use Rattle.sfm_cells.specs.{Splits.{amount_at}, Cells.{label_at}};
ghost use Rattle.sfm_assign.specs.{declared.spread.Answer.TheVariants.{Full}, Spread.{IsAnswer, AreTold, IsSpread, IsJoin, IsWider}};

use sfm_base::{Memory, Set};
use sfm_cells::Shares;
use sfm_split::Link;
use std::alloc::Global;
use std::mem;

/// What is told of a demand.
#[derive(Drop)]
pub(crate) enum Answer {
    /// A slot of a demand that it leads to has room.
    Room,
    /// The demands that it leads to, none of whose slots has room.
    Full(Set),
}

/// How far a search is: where it began, the demands that were found, the marked slots, the demands that are handled one after
/// another, and the place of the next of these. The next search uses its memory again, and that of sets that are idle.
pub(crate) struct Spread {
    from: usize,
    found: Set,
    marks: Set,
    queue: Vec<usize>,
    next: usize,
    idle: Vec<Set>,
    /// For each slot a cell that may have something on it: a guess, of which nothing is known.
    hints: Vec<usize>,
}

// Written out, so that letting one go is one step, which is proved here once.
impl Drop for Spread {
    fn drop(self) {
        let Self {
            from: _,
            found: _,
            marks: _,
            queue: _,
            next: _,
            idle: _,
            hints: _,
        } = self;
    }
}

/// Makes a set the one with nothing of n places, in its own memory where it has as many.
fn make_empty(alloc: Global, set: &mut Set, n: usize) -> Result<(), Memory>
    ensures { OnOk result (set.new ≡ empty_set n) }
{
    if set.len() == n {
        set.clear();
        return Ok(());
    }
    *set = Set::empty(alloc, n)?;
    Ok(())
}

/// The set with nothing of n places, in memory of an idle set if there is one.
fn empty_of(alloc: Global, idle: &mut Vec<Set>, n: usize) -> Result<Set, Memory>
    ensures { IfOk result (λ s. s ≡ empty_set n) }
{
    match idle.pop() {
        Some(mut set) => {
            make_empty(alloc, &mut set, n)?;
            Ok(set)
        }
        None => Set::empty(alloc, n),
    }
}

/// What is told of the demand u, by what is known of others.
pub(crate) fn find_answer(
    alloc: Global,
    at: &mut Spread,
    shares: &Shares,
    rooms: &[i128],
    answers: &[Option<Answer>],
    u: usize,
) -> Result<Answer, Memory>
    requires told { AreTold shares.now.cells.whos.items shares.now.cells.slots.items
        shares.now.y.items rooms.now answers.now }
    requires place { u < length answers.now }
    ensures { IfOk result (IsAnswer (length answers.now) shares.now.cells.whos.items
        shares.now.cells.slots.items shares.now.y.items rooms.now u) }
{
    at.begin(alloc, answers.len(), rooms.len(), u)?;
    while at.next < at.queue.len() {
        if let Some(answer) = at.handle(alloc, shares, rooms, answers)? {
            return Ok(answer);
        }
    }
    let found = at.take_found(alloc)?;
    Ok(Answer::Full(found))
}

impl Spread {
    /// The memory of a search, of which nothing is used yet.
    pub(crate) fn new(alloc: Global) -> Result<Spread, Memory> {
        Ok(Spread {
            from: 0,
            found: Set::empty(alloc, 0)?,
            marks: Set::empty(alloc, 0)?,
            queue: Vec::new(alloc),
            next: 0,
            idle: Vec::new(alloc),
            hints: Vec::new(alloc),
        })
    }

    /// Notes a cell for the slot s, where there is room for a note.
    pub(crate) fn hint(&mut self, s: usize, cell: usize) {
        if s < self.hints.len() {
            self.hints[s] = cell;
        }
    }

    /// The cell that is noted for the slot s, if one is.
    pub(crate) fn hinted(&self, s: usize) -> Option<usize> {
        match self.hints.get(s) {
            Some(cell) => Some(*cell),
            None => None,
        }
    }

    /// Makes room for a note of each of m slots.
    fn make_room(&mut self, m: usize) -> Result<(), Memory>
        ensures from { self.new.from ≡ self.old.from }
        ensures found { self.new.found ≡ self.old.found }
        ensures marks { self.new.marks ≡ self.old.marks }
        ensures queue { self.new.queue.items ≡ self.old.queue.items }
        ensures next { self.new.next ≡ self.old.next }
    {
        self.hints.reserve(m.saturating_sub(self.hints.len()))?;
        for _ in self.hints.len()..m {
            self.hints.push(0)?;
        }
        Ok(())
    }

    /// Keeps the memory of a set that is told no more. It is let go where there is no memory to note it.
    pub(crate) fn put_aside(&mut self, set: Set) {
        let _ = self.idle.push(set);
    }

    /// Begins a search from the demand u of n, with m slots.
    fn begin(&mut self, alloc: Global, n: usize, m: usize, u: usize) -> Result<(), Memory>
        requires { u < n }
        ensures from { OnOk result (self.new.from ≡ u) }
        ensures found { OnOk result (self.new.found ≡ slice_set (empty_set n) u true) }
        ensures marks { OnOk result (self.new.marks ≡ empty_set m) }
        ensures queue { OnOk result (self.new.queue.items ≡ u ∷ []) }
        ensures next { OnOk result (self.new.next ≡ 0) }
    {
        make_empty(alloc, &mut self.found, n)?;
        self.found.insert(u);
        make_empty(alloc, &mut self.marks, m)?;
        self.queue.clear();
        self.queue.reserve(n)?;
        self.queue.push(u)?;
        self.from = u;
        self.next = 0;
        self.make_room(m)
    }

    /// Takes out what was found; an idle set, or else a new one, stands in its place.
    fn take_found(&mut self, alloc: Global) -> Result<Set, Memory>
        ensures { IfOk result (λ s. s ≡ self.old.found) }
    {
        let other = empty_of(alloc, &mut self.idle, self.found.len())?;
        Ok(mem::replace(&mut self.found, other))
    }

    /// Puts a demand into the queue.
    fn enter(&mut self, f: usize) -> Result<(), Memory>
        requires { f < length self.old.found }
        ensures from { self.new.from ≡ self.old.from }
        ensures next { self.new.next ≡ self.old.next }
        ensures marks { self.new.marks ≡ self.old.marks }
        ensures found { OnOk result (self.new.found ≡ slice_set self.old.found f true) }
        ensures queue { OnOk result (self.new.queue.items ≡ self.old.queue.items ++ f ∷ []) }
    {
        self.queue.push(f)?;
        self.found.insert(f);
        Ok(())
    }

    /// Takes in what the demand f leads to, which is known; or tells it, where f leads back to where the search began.
    fn join(&mut self, alloc: Global, set: &Set) -> Result<Option<Answer>, Memory>
        requires same { length set.now ≡ length self.old.found }
        requires place { self.old.from < length self.old.found }
        ensures from { self.new.from ≡ self.old.from }
        ensures next { self.new.next ≡ self.old.next }
        ensures marks { self.new.marks ≡ self.old.marks }
        ensures queue { self.new.queue.items ≡ self.old.queue.items }
        ensures found { IfOk result (λ r. MatchOption r (self.new.found
            ≡ union self.old.found set.now) (λ a. (self.new.found ≡ self.old.found)
            × Has set.now self.old.from × (a ≡ Full set.now))) }
    {
        if set.contains(self.from) {
            let mut same = empty_of(alloc, &mut self.idle, set.len())?;
            same.union_with(set);
            return Ok(Some(Answer::Full(same)));
        }
        self.found.union_with(set);
        Ok(None)
    }

    /// Takes in the answer of a demand; or tells it, where it is the answer of the first one as well.
    fn take_in(&mut self, alloc: Global, answer: &Answer) -> Result<Option<Answer>, Memory>
        requires sized { (set : List Bool) → answer.now ≡ Full set
            → length set ≡ length self.old.found }
        requires place { self.old.from < length self.old.found }
        ensures from { self.new.from ≡ self.old.from }
        ensures next { self.new.next ≡ self.old.next }
        ensures marks { self.new.marks ≡ self.old.marks }
        ensures queue { self.new.queue.items ≡ self.old.queue.items }
        ensures found { IfOk result (IsJoin answer.now self.old.from self.old.found
            self.new.found) }
    {
        match answer {
            Answer::Room => Ok(Some(Answer::Room)),
            Answer::Full(set) => {
                let joined = self.join(alloc, set)?;
                Ok(joined)
            }
        }
    }

    /// Finds the demand of a cell from another on its slot, where it has something there and was not found before.
    fn find(
        &mut self,
        alloc: Global,
        shares: &Shares,
        rooms: &[i128],
        answers: &[Option<Answer>],
        link: Link,
    ) -> Result<Option<Answer>, Memory>
        requires told { AreTold shares.now.cells.whos.items shares.now.cells.slots.items
            shares.now.y.items rooms.now answers.now }
        requires own { link.own < length shares.now.cells.whos.items }
        requires other { link.other < length shares.now.cells.whos.items }
        requires shared { label_at shares.now.cells.slots.items link.own
            ≡ label_at shares.now.cells.slots.items link.other }
        requires found { Has self.old.found (label_at shares.now.cells.whos.items link.other) }
        requires spread { IsSpread (length answers.now) shares.now.cells.whos.items
            shares.now.cells.slots.items shares.now.y.items rooms.now self.old.from self.old.found
            self.old.marks self.old.queue.items self.old.next }
        ensures from { self.new.from ≡ self.old.from }
        ensures next { self.new.next ≡ self.old.next }
        ensures marks { self.new.marks ≡ self.old.marks }
        ensures spread { OnOk result (IsSpread (length answers.now) shares.now.cells.whos.items
            shares.now.cells.slots.items shares.now.y.items rooms.now self.new.from self.new.found
            self.new.marks self.new.queue.items self.new.next) }
        ensures wider { OnOk result (IsWider self.old.found self.old.queue.items self.new.found
            self.new.queue.items) }
        ensures end { IfOk result (λ r. MatchOption r
            (pos 1 ≤ℤ amount_at shares.now.y.items link.own
            → Has self.new.found (label_at shares.now.cells.whos.items link.own))
            (IsAnswer (length answers.now) shares.now.cells.whos.items shares.now.cells.slots.items
            shares.now.y.items rooms.now self.old.from)) }
    {
        if shares.y[link.own] <= 0 {
            return Ok(None);
        }
        let f = shares.cells.all().whos[link.own];
        if self.found.contains(f) {
            return Ok(None);
        }
        match &answers[f] {
            None => {
                self.enter(f)?;
                Ok(None)
            }
            Some(answer) => {
                let joined = self.take_in(alloc, answer)?;
                Ok(joined)
            }
        }
    }

    /// Marks the slot of a cell of a found demand, and finds all demands that have something on it.
    fn sweep(
        &mut self,
        alloc: Global,
        shares: &Shares,
        rooms: &[i128],
        answers: &[Option<Answer>],
        e: usize,
    ) -> Result<Option<Answer>, Memory>
        requires told { AreTold shares.now.cells.whos.items shares.now.cells.slots.items
            shares.now.y.items rooms.now answers.now }
        requires cell { e < length shares.now.cells.whos.items }
        requires full { amount_at rooms.now (label_at shares.now.cells.slots.items e) ≤ℤ pos 0 }
        requires found { Has self.old.found (label_at shares.now.cells.whos.items e) }
        requires spread { IsSpread (length answers.now) shares.now.cells.whos.items
            shares.now.cells.slots.items shares.now.y.items rooms.now self.old.from self.old.found
            self.old.marks self.old.queue.items self.old.next }
        ensures from { self.new.from ≡ self.old.from }
        ensures next { self.new.next ≡ self.old.next }
        ensures spread { OnOk result (IsSpread (length answers.now) shares.now.cells.whos.items
            shares.now.cells.slots.items shares.now.y.items rooms.now self.new.from self.new.found
            self.new.marks self.new.queue.items self.new.next) }
        ensures wider { OnOk result (IsWider self.old.found self.old.queue.items self.new.found
            self.new.queue.items) }
        ensures end { IfOk result (λ r. MatchOption r
            (self.new.marks ≡ slice_set self.old.marks
            (label_at shares.now.cells.slots.items e) true)
            (IsAnswer (length answers.now) shares.now.cells.whos.items shares.now.cells.slots.items
            shares.now.y.items rooms.now self.old.from)) }
    {
        let cells = shares.cells.all();
        let s = cells.slots[e];
        for own in cells.by_slot.list(s) {
            let link = Link {
                own: *own,
                other: e,
            };
            if let Some(answer) = self.find(alloc, shares, rooms, answers, link)? {
                return Ok(Some(answer));
            }
        }
        self.marks.insert(s);
        Ok(None)
    }

    /// Sees to it that the slot of a cell of a found demand is marked; or tells an answer, as where it has room.
    fn visit(
        &mut self,
        alloc: Global,
        shares: &Shares,
        rooms: &[i128],
        answers: &[Option<Answer>],
        e: usize,
    ) -> Result<Option<Answer>, Memory>
        requires told { AreTold shares.now.cells.whos.items shares.now.cells.slots.items
            shares.now.y.items rooms.now answers.now }
        requires cell { e < length shares.now.cells.whos.items }
        requires found { Has self.old.found (label_at shares.now.cells.whos.items e) }
        requires spread { IsSpread (length answers.now) shares.now.cells.whos.items
            shares.now.cells.slots.items shares.now.y.items rooms.now self.old.from self.old.found
            self.old.marks self.old.queue.items self.old.next }
        ensures from { self.new.from ≡ self.old.from }
        ensures next { self.new.next ≡ self.old.next }
        ensures spread { OnOk result (IsSpread (length answers.now) shares.now.cells.whos.items
            shares.now.cells.slots.items shares.now.y.items rooms.now self.new.from self.new.found
            self.new.marks self.new.queue.items self.new.next) }
        ensures wider { OnOk result (IsWider self.old.found self.old.queue.items self.new.found
            self.new.queue.items) }
        ensures end { IfOk result (λ r. MatchOption r
            (Has self.new.marks (label_at shares.now.cells.slots.items e)
            × ((s : ℕ) → Has self.old.marks s → Has self.new.marks s))
            (IsAnswer (length answers.now) shares.now.cells.whos.items shares.now.cells.slots.items
            shares.now.y.items rooms.now self.old.from)) }
    {
        let s = shares.cells.all().slots[e];
        if self.marks.contains(s) {
            return Ok(None);
        }
        if rooms[s] > 0 {
            return Ok(Some(Answer::Room));
        }
        if let Some(answer) = self.sweep(alloc, shares, rooms, answers, e)? {
            return Ok(Some(answer));
        }
        Ok(None)
    }

    /// Handles the next demand of the queue: marks its slots; or tells an answer.
    fn handle(
        &mut self,
        alloc: Global,
        shares: &Shares,
        rooms: &[i128],
        answers: &[Option<Answer>],
    ) -> Result<Option<Answer>, Memory>
        requires told { AreTold shares.now.cells.whos.items shares.now.cells.slots.items
            shares.now.y.items rooms.now answers.now }
        requires place { self.old.next < length self.old.queue.items }
        requires spread { IsSpread (length answers.now) shares.now.cells.whos.items
            shares.now.cells.slots.items shares.now.y.items rooms.now self.old.from self.old.found
            self.old.marks self.old.queue.items self.old.next }
        ensures from { self.new.from ≡ self.old.from }
        ensures end { IfOk result (λ r. MatchOption r
            ((self.new.next ≡ self.old.next + 1) × IsSpread
            (length answers.now) shares.now.cells.whos.items shares.now.cells.slots.items
            shares.now.y.items rooms.now self.new.from self.new.found self.new.marks
            self.new.queue.items self.new.next)
            (IsAnswer (length answers.now) shares.now.cells.whos.items shares.now.cells.slots.items
            shares.now.y.items rooms.now self.old.from)) }
    {
        let g = self.queue[self.next];
        for e in shares.cells.all().by_who.list(g) {
            if let Some(answer) = self.visit(alloc, shares, rooms, answers, *e)? {
                return Ok(Some(answer));
            }
        }
        self.next += 1;
        Ok(None)
    }
}
