// What a demand leads to, put together from what is told of those that hold its slots. All that have something on one slot lead to
// each other, so one of them tells for the slot; and a demand leads to what the holders of its slots lead to, and to no other.
// So a search is made for holders alone, and few are: a dense graph has many edges and few vertices.
ghost use Rattle.std.specs.Prelude.{◌≡◌, ℕ, ◌<◌, Bool, List, false, true, length, slice_set, IfOk, OnOk, MatchOption, MatchBool, IsTrue};
ghost use Rattle.sfm_assign.specs.{Spread.{AreTold, IsKnown, AreLedTo, LeadsToRoom, Holds, IsHeldBy, IsFullClosed, AreTakenIn, HeldWithRoom, IsPutTo}, declared.spread.Answer.TheVariants.{Full}, declared.spread.Answer.{Answer}};

use crate::spread::{Answer, Spread, find_answer};
use crate::told::Told;
use sfm_base::{Memory, Set};
use sfm_cells::Shares;
use std::alloc::Global;

/// A split as it stands: the amounts on its cells, and what its slots have left.
#[derive(Clone, Copy)]
pub(crate) struct Standing<'a> {
    pub shares: &'a Shares,
    pub rooms: &'a [i128],
}

/// Sees to it that the answer for the demand h is known.
fn learn(
    alloc: Global,
    at: &mut Spread,
    split: &Standing,
    answers: &mut Told,
    h: usize,
) -> Result<(), Memory>
    requires told { AreTold split.now.shares.now.cells.whos.items
        split.now.shares.now.cells.slots.items split.now.shares.now.y.items split.now.rooms.now
        answers.old }
    requires place { h < length answers.old }
    ensures same { length answers.new ≡ length answers.old }
    ensures told { AreTold split.now.shares.now.cells.whos.items
        split.now.shares.now.cells.slots.items split.now.shares.now.y.items split.now.rooms.now
        answers.new }
    ensures known { OnOk result (IsKnown answers.new h) }
{
    if answers.knows(h) {
        return Ok(());
    }
    let answer = find_answer(alloc, at, split.shares, split.rooms, answers.as_slice(), h)?;
    answers.tell(h, answer)?;
    Ok(())
}

/// Whether a cell is one of the slot s that has something on it.
fn is_held(shares: &Shares, s: usize, f: usize) -> bool
    requires same { length shares.now.y.items ≡ length shares.now.cells.whos.items }
    requires each { length shares.now.cells.slots.items ≡ length shares.now.cells.whos.items }
    ensures { IsTrue result → IsHeldBy shares.now.cells.whos.items shares.now.cells.slots.items
        shares.now.y.items s f }
{
    f < shares.y.len() && shares.cells.all().slots[f] == s && shares.y[f] > 0
}

/// A cell of the slot s that has something on it, if there is one.
fn held_cell(shares: &Shares, s: usize) -> Option<usize>
    requires same { length shares.now.y.items ≡ length shares.now.cells.whos.items }
    requires each { length shares.now.cells.slots.items ≡ length shares.now.cells.whos.items }
    ensures { MatchOption result ((h : ℕ) → Holds shares.now.cells.whos.items
        shares.now.cells.slots.items shares.now.y.items s h → ⊥)
        (IsHeldBy shares.now.cells.whos.items shares.now.cells.slots.items shares.now.y.items s) }
{
    let cells = shares.cells.all();
    for f in cells.by_slot.list(s) {
        if shares.y[*f] > 0 {
            return Some(*f);
        }
    }
    None
}

/// A demand that has something on the slot s, if there is one: that of the cell that is noted, or else of the first that is found,
/// which is noted then.
fn holder_of(at: &mut Spread, shares: &Shares, s: usize) -> Option<usize>
    requires same { length shares.now.y.items ≡ length shares.now.cells.whos.items }
    requires each { length shares.now.cells.slots.items ≡ length shares.now.cells.whos.items }
    ensures { MatchOption result ((h : ℕ) → Holds shares.now.cells.whos.items
        shares.now.cells.slots.items shares.now.y.items s h → ⊥)
        (Holds shares.now.cells.whos.items shares.now.cells.slots.items shares.now.y.items s) }
{
    if let Some(f) = at.hinted(s) {
        if is_held(shares, s, f) {
            return Some(shares.cells.all().whos[f]);
        }
    }
    let f = held_cell(shares, s)?;
    at.hint(s, f);
    Some(shares.cells.all().whos[f])
}

/// Puts what is told to a set, or tells room.
fn put_told(answer: &Answer, to: &mut Set) -> bool
    requires { (set : List Bool) → answer.now ≡ Full set → length set ≡ length to.old }
    ensures places { length to.new ≡ length to.old }
    ensures put { IsPutTo answer.now to.old to.new result }
{
    match answer {
        Answer::Room => true,
        Answer::Full(set) => {
            to.union_with(set);
            false
        }
    }
}

/// Takes in what the holder h of the slot s leads to, if it was not found before; tells whether that has room.
fn take_holder(
    split: &Standing,
    answers: &[Option<Answer>],
    s: usize,
    h: usize,
    to: &mut Set,
) -> bool
    requires told { AreTold split.now.shares.now.cells.whos.items
        split.now.shares.now.cells.slots.items split.now.shares.now.y.items split.now.rooms.now
        answers.now }
    requires known { IsKnown answers.now h }
    requires place { h < length answers.now }
    requires holds { Holds split.now.shares.now.cells.whos.items
        split.now.shares.now.cells.slots.items split.now.shares.now.y.items s h }
    requires whole { IsFullClosed (length answers.now) split.now.shares.now.cells.whos.items
        split.now.shares.now.cells.slots.items split.now.shares.now.y.items split.now.rooms.now
        to.old }
    ensures places { length to.new ≡ length to.old }
    ensures taken { MatchBool result (HeldWithRoom split.now.shares.now.cells.whos.items
        split.now.shares.now.cells.slots.items split.now.shares.now.y.items split.now.rooms.now s)
        (AreTakenIn (length answers.now) split.now.shares.now.cells.whos.items
        split.now.shares.now.cells.slots.items split.now.shares.now.y.items split.now.rooms.now s
        to.old to.new) }
{
    if to.contains(h) {
        return false;
    }
    match &answers[h] {
        Some(answer) => put_told(answer, to),
        None => unreachable!(),
    }
}

/// Takes in the holders of the slot s and what they lead to; tells whether that has room.
fn take_slot(
    alloc: Global,
    at: &mut Spread,
    split: &Standing,
    answers: &mut Told,
    s: usize,
    to: &mut Set,
) -> Result<bool, Memory>
    requires told { AreTold split.now.shares.now.cells.whos.items
        split.now.shares.now.cells.slots.items split.now.shares.now.y.items split.now.rooms.now
        answers.old }
    requires whole { IsFullClosed (length answers.old) split.now.shares.now.cells.whos.items
        split.now.shares.now.cells.slots.items split.now.shares.now.y.items split.now.rooms.now
        to.old }
    ensures same { length answers.new ≡ length answers.old }
    ensures places { length to.new ≡ length to.old }
    ensures told { AreTold split.now.shares.now.cells.whos.items
        split.now.shares.now.cells.slots.items split.now.shares.now.y.items split.now.rooms.now
        answers.new }
    ensures taken { IfOk result (λ room. MatchBool room
        (HeldWithRoom split.now.shares.now.cells.whos.items split.now.shares.now.cells.slots.items
        split.now.shares.now.y.items split.now.rooms.now s)
        (AreTakenIn (length answers.old) split.now.shares.now.cells.whos.items
        split.now.shares.now.cells.slots.items split.now.shares.now.y.items split.now.rooms.now s
        to.old to.new)) }
{
    let Some(h) = holder_of(at, split.shares, s) else {
        return Ok(false);
    };
    learn(alloc, at, split, answers, h)?;
    Ok(take_holder(split, answers.as_slice(), s, h, to))
}

/// Gathers what the demand u leads to, but for u itself, of which nothing is told; tells whether a slot with room is led to, and
/// what is gathered is then of no use.
pub(crate) fn gather(
    alloc: Global,
    at: &mut Spread,
    split: &Standing,
    answers: &mut Told,
    u: usize,
    to: &mut Set,
) -> Result<bool, Memory>
    requires told { AreTold split.now.shares.now.cells.whos.items
        split.now.shares.now.cells.slots.items split.now.shares.now.y.items split.now.rooms.now
        answers.old }
    requires place { u < length answers.old }
    requires places { length to.old ≡ length answers.old }
    ensures same { length answers.new ≡ length answers.old }
    ensures places { length to.new ≡ length to.old }
    ensures told { AreTold split.now.shares.now.cells.whos.items
        split.now.shares.now.cells.slots.items split.now.shares.now.y.items split.now.rooms.now
        answers.new }
    ensures led { IfOk result (λ room. MatchBool room
        (LeadsToRoom split.now.shares.now.cells.whos.items split.now.shares.now.cells.slots.items
        split.now.shares.now.y.items split.now.rooms.now u)
        (AreLedTo (length answers.old) split.now.shares.now.cells.whos.items
        split.now.shares.now.cells.slots.items split.now.shares.now.y.items split.now.rooms.now u
        (slice_set to.new u true))) }
{
    to.clear();
    let cells = split.shares.cells.all();
    for e in cells.by_who.list(u) {
        let s = cells.slots[*e];
        if split.rooms[s] > 0 {
            return Ok(true);
        }
        if take_slot(alloc, at, split, answers, s, to)? {
            return Ok(true);
        }
    }
    Ok(false)
}
