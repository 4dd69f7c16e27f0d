// Small demands over a few slots, in tables: how they are split, or that they ask for too much; and of a split that is kept, what
// each step answers. All is worked by hand, and a row costs no proof. Each is asked by a function that answers yes or no, and no where
// memory lacks.
ghost use Rattle.std.specs.{Prelude.{◌≡◌, ◌↔◌, ◌<◌, ◌≤◌, [], ◌∷◌, ◌++◌, length, slice_set, slice_index_or, pos, ◌+ℤ◌, IsTrue, IfOk, IfSome}, List.{All}};
ghost use Rattle.sfm_assign.specs.Splits.{IsAmount, IsCapacity};

use sfm_assign::{AssignEnd, Change, Demand, Kept, Split, assign, most};
use sfm_base::{Memory, Set};
use std::alloc::Global;
use std::process::Abort;

const MOST_AMOUNT: i128 = 100_000_000_000_000_000_000_000_000_000_000;

const MOST_CAPACITY: i128 = 1_000_000_000_000_000_000_000_000;

/// Whether each number is a possible amount of a demand.
fn are_amounts(x: &[i128]) -> bool
    ensures { IsTrue result ↔ All IsAmount x.now }
{
    x.iter().all(|a| 0 <= *a && *a <= MOST_AMOUNT)
}

/// Whether each number is a possible capacity of a slot.
fn are_capacities(x: &[i128]) -> bool
    ensures { IsTrue result ↔ All IsCapacity x.now }
{
    x.iter().all(|a| 0 <= *a && *a <= MOST_CAPACITY)
}

/// Whether each slot is one of the first m.
fn are_below(slots: &[usize], m: usize) -> bool
    ensures { IsTrue result ↔ All (λ s. s < m) slots.now }
{
    slots.iter().all(|s| *s < m)
}

/// Capacities of slots, and the amounts of demands, each with the slots that it may use.
#[derive(Clone, Copy)]
struct Asking<'a> {
    capacities: &'a [i128],
    demands: &'a [(i128, &'a [usize])],
}

/// Demands, with their amounts and the number of slots beside them.
#[derive(Drop)]
struct Asked {
    demand: Demand,
    amounts: Vec<i128>,
    slots: usize,
    ghost told: { demand.demands ≡ amounts.items },
    ghost counted: { length demand.capacities ≡ slots },
}

/// No demands, over slots with these capacities.
fn nothing_asked(alloc: Global, capacities: &[i128]) -> Option<Asked> {
    if capacities.len() > 256 {
        return None;
    }
    if !are_capacities(capacities) {
        return None;
    }
    let Ok(demand) = Demand::new(alloc, capacities) else {
        return None;
    };
    Some(Asked {
        demand,
        amounts: Vec::new(alloc),
        slots: capacities.len(),
    })
}

/// Whether one more demand of some slots can be asked for.
fn may_ask(amounts: &[i128], slots: usize, amount: i128, list: &[usize]) -> bool
    ensures few { IsTrue result → length amounts.now < 256 }
    ensures amount { IsTrue result → IsAmount amount }
    ensures exist { IsTrue result → All (λ s. s < slots) list.now }
{
    amounts.len() < 256 && 0 <= amount && amount <= MOST_AMOUNT && are_below(list, slots)
}

/// Demands and one more.
fn pushed(demand: Demand, amount: i128, list: &[usize]) -> Result<Demand, Memory>
    requires few { length demand.demands < 256 }
    requires amount { IsAmount amount }
    requires exist { All (λ s. s < length demand.capacities) list.now }
    ensures amounts { IfOk result (λ r. r.demands ≡ demand.demands ++ amount ∷ []) }
    ensures slots { IfOk result (λ r. r.capacities ≡ demand.capacities) }
{
    let mut demand = demand;
    demand.push(amount, list)?;
    Ok(demand)
}

/// Amounts and one more.
fn with_amount(amounts: Vec<i128>, amount: i128) -> Result<Vec<i128>, Memory>
    ensures { IfOk result (λ r. r.items ≡ amounts.items ++ amount ∷ []) }
{
    let mut amounts = amounts;
    amounts.push(amount)?;
    Ok(amounts)
}

/// These demands and one more.
fn asked_more(alloc: Global, asked: Asked, amount: i128, list: &[usize]) -> Option<Asked> {
    if !may_ask(&asked.amounts, asked.slots, amount, list) {
        return None;
    }
    let Ok(demand) = pushed(asked.demand, amount, list) else {
        return None;
    };
    let Ok(amounts) = with_amount(asked.amounts, amount) else {
        return None;
    };
    Some(Asked {
        demand,
        amounts,
        slots: asked.slots,
    })
}

/// The demands of a row; nothing where there can be none such, or memory lacks.
fn asked_of(alloc: Global, asking: &Asking) -> Option<Asked> {
    let Some(mut asked) = nothing_asked(alloc, asking.capacities) else {
        return None;
    };
    for ask in asking.demands {
        match asked_more(alloc, asked, ask.0, ask.1) {
            Some(more) => asked = more,
            None => return None,
        }
    }
    Some(asked)
}

/// Whether the demands have these amounts.
fn has_rows(split: &Split, rows: &[&[i128]]) -> bool {
    if split.len() != rows.len() {
        return false;
    }
    for i in 0..rows.len() {
        if split.row(i) != rows[i] {
            return false;
        }
    }
    true
}

/// Whether demands are split so.
fn is_split(alloc: Global, demand: &Demand, rows: &[&[i128]]) -> bool {
    match assign(alloc, demand) {
        Ok(split) => has_rows(&split, rows),
        Err(_) => false,
    }
}

/// Whether a set of so many has each of these.
fn has_all(set: &Set, n: usize, members: &[usize]) -> bool {
    for e in members {
        if *e >= set.len() || !set.contains(*e) {
            return false;
        }
    }
    set.len() == n
}

/// Whether an end is a shortage of so many demands, with each of these.
fn is_shortage(end: &AssignEnd, n: usize, members: &[usize]) -> bool {
    match end {
        AssignEnd::Shortage { set } => has_all(set, n, members),
        AssignEnd::Memory => false,
    }
}

/// Whether demands have no split, since each set that asks for too much has these.
fn is_short(alloc: Global, demand: &Demand, n: usize, members: &[usize]) -> bool {
    match assign(alloc, demand) {
        Ok(_) => false,
        Err(end) => is_shortage(&end, n, members),
    }
}

/// Whether no split of demands is kept for the same reason.
fn is_none_kept(alloc: Global, demand: Demand, n: usize, members: &[usize]) -> bool {
    match Kept::new(alloc, demand) {
        Ok(_) => false,
        Err(end) => is_shortage(&end, n, members),
    }
}

/// Whether demands have no split, and none is kept, since each set that asks for too much has these.
fn has_shortage(alloc: Global, asked: Asked, members: &[usize]) -> bool {
    let n = asked.amounts.len();
    is_short(alloc, &asked.demand, n, members) && is_none_kept(alloc, asked.demand, n, members)
}

/// Whether the others can be met, and that is the most of a demand that asks for nothing.
fn is_most(alloc: Global, demand: &Demand, u: usize, wanted: i128) -> bool
    requires place { u < length demand.now.demands }
    requires nothing { slice_set demand.now.demands u (pos 0) ≡ demand.now.demands }
{
    match assign(alloc, demand) {
        Ok(_) => most(alloc, demand, u) == Ok(wanted),
        Err(_) => false,
    }
}

/// Whether a demand of that number asks for nothing, and that is the most of it.
fn has_most(alloc: Global, asked: &Asked, u: usize, wanted: i128) -> bool {
    if u >= asked.amounts.len() {
        return false;
    }
    if asked.amounts[u] != 0 {
        return false;
    }
    is_most(alloc, &asked.demand, u, wanted)
}

/// A split that is kept, with the amounts of its demands and the number of slots beside it.
#[derive(Drop)]
struct Held {
    kept: Kept,
    amounts: Vec<i128>,
    slots: usize,
    ghost told: { kept.demand.demands ≡ amounts.items },
    ghost counted: { length kept.demand.capacities ≡ slots },
}

/// The split of demands, if all can be met.
fn held_of(alloc: Global, asked: Asked) -> Option<Held> {
    let Asked {
        demand,
        amounts,
        slots,
    } = asked;
    match Kept::new(alloc, demand) {
        Ok(kept) => Some(Held {
            kept,
            amounts,
            slots,
        }),
        Err(_) => None,
    }
}

/// A copy.
fn copied(alloc: Global, held: &Held) -> Option<Held> {
    let Ok(amounts) = Vec::from_slice(alloc, held.amounts.as_slice()) else {
        return None;
    };
    let Ok(kept) = held.kept.copy(alloc) else {
        return None;
    };
    Some(Held {
        kept,
        amounts,
        slots: held.slots,
    })
}

/// What is asked of a split that is kept, and what it answers.
#[derive(Clone, Copy)]
enum Step {
    /// Those that can lend to a demand.
    Reach(usize, &'static [usize]),
    /// Other amounts and capacities, and, where these can't be split, what each set that asks for too much has.
    Bring(&'static [i128], &'static [i128], &'static [usize]),
    /// A demand and by how much it changes, and, where that can't be split, what each set that asks for too much has.
    Change(usize, i128, &'static [usize]),
    /// A demand that is raised up to so much, and by how much.
    Grow(usize, i128, i128),
}

/// Whether a set has these and no others.
fn has_only(set: &Set, members: &[usize]) -> bool {
    set.size() == members.len() && has_all(set, set.len(), members)
}

/// Whether these demands can lend to one, and no others.
fn reaches(alloc: Global, held: &mut Held, u: usize, lenders: &[usize]) -> bool {
    if u >= held.amounts.len() {
        return false;
    }
    let Ok(mut to) = Set::whole(alloc, held.amounts.len()) else {
        return false;
    };
    let reached = held.kept.reach(alloc, u, &mut to).is_ok();
    reached && has_only(&to, lenders)
}

/// Whether a split can be brought to other amounts and capacities.
fn may_bring(held: &Held, amounts: &[i128], capacities: &[i128]) -> bool
    ensures sized { IsTrue result → length amounts.now ≡ length held.now.amounts.items }
    ensures slots { IsTrue result → length capacities.now ≡ held.now.slots }
    ensures amounts { IsTrue result → All IsAmount amounts.now }
    ensures bounded { IsTrue result → All IsCapacity capacities.now }
{
    amounts.len() == held.amounts.len()
        && capacities.len() == held.slots
        && are_amounts(amounts)
        && are_capacities(capacities)
}

/// Whether a split is brought to other amounts and capacities, or, where some demands lack, each set that asks for too much has
/// these.
fn brings(
    alloc: Global,
    held: &mut Held,
    amounts: &[i128],
    capacities: &[i128],
    lacking: &[usize],
) -> bool {
    if !may_bring(held, amounts, capacities) {
        return false;
    }
    match held.kept.bring(alloc, amounts, capacities) {
        Ok(()) => {
            held.amounts.copy_from_slice(amounts);
            lacking.is_empty()
        }
        Err(end) => !lacking.is_empty() && is_shortage(&end, amounts.len(), lacking),
    }
}

/// What a demand asks for once that changes, if it can be asked for.
fn changed_amount(held: &Held, k: usize, more: i128) -> Option<i128>
    ensures place { IfSome result (λ _. k < length held.now.amounts.items) }
    ensures sum { IfSome result (λ a. a ≡ slice_index_or held.now.amounts.items k (pos 0) +ℤ more) }
    ensures amount { IfSome result IsAmount }
{
    if k >= held.amounts.len() {
        return None;
    }
    match held.amounts[k].checked_add(more) {
        Some(amount) if 0 <= amount && amount <= MOST_AMOUNT => Some(amount),
        _ => None,
    }
}

/// Whether the amount of one demand changes, or, where some demands lack then, each set that asks for too much has these.
fn changes(alloc: Global, held: &mut Held, k: usize, more: i128, lacking: &[usize]) -> bool {
    let Some(amount) = changed_amount(held, k, more) else {
        return false;
    };
    let n = held.amounts.len();
    match held.kept.bring_changed(alloc, &[Change { k, more }]) {
        Ok(()) => {
            held.amounts[k] = amount;
            lacking.is_empty()
        }
        Err(end) => !lacking.is_empty() && is_shortage(&end, n, lacking),
    }
}

/// Raises a demand up to a limit, and tells by how much.
fn grow(
    rt: &impl Abort,
    alloc: Global,
    held: &mut Held,
    u: usize,
    limit: i128,
) -> Result<i128, Memory> {
    assert!(rt; u < held.amounts.len());
    let amount = held.amounts[u];
    assert!(rt; 0 <= amount && amount <= 1_000_000_000);
    assert!(rt; 0 <= limit && limit <= 1_000_000_000);
    let more = held.kept.grow(alloc, u, limit)?;
    let Some(sum) = amount.checked_add(more) else {
        panic!(rt; "the sum is too large");
    };
    held.amounts[u] = sum;
    Ok(more)
}

/// Whether a step answers what it is to answer.
fn answers(rt: &impl Abort, alloc: Global, held: &mut Held, step: Step) -> bool {
    match step {
        Step::Reach(u, lenders) => reaches(alloc, held, u, lenders),
        Step::Bring(amounts, capacities, lacking) => {
            brings(alloc, held, amounts, capacities, lacking)
        }
        Step::Change(k, more, lacking) => changes(alloc, held, k, more, lacking),
        Step::Grow(u, limit, more) => grow(rt, alloc, held, u, limit) == Ok(more),
    }
}

/// Whether steps that are taken one after another answer so.
fn answer(rt: &impl Abort, alloc: Global, held: &mut Held, steps: &[Step]) -> bool {
    for step in steps {
        if !answers(rt, alloc, held, *step) {
            return false;
        }
    }
    true
}

/// Whether steps with the split of demands answer so.
fn answer_kept(rt: &impl Abort, alloc: Global, asked: Asked, steps: &[Step]) -> bool {
    match held_of(alloc, asked) {
        Some(mut held) => answer(rt, alloc, &mut held, steps),
        None => false,
    }
}

/// What demands answer.
#[derive(Clone, Copy)]
enum Wanted {
    /// The amounts of each, once they are split.
    Split(&'static [&'static [i128]]),
    /// They ask for too much: what each set that does has.
    Shortage(&'static [usize]),
    /// A demand that asks for nothing, and the most that it can get.
    Most(usize, i128),
    /// Steps with their split, which is kept.
    Steps(&'static [Step]),
}

/// Capacities of two slots.
const TWO: &[i128] = &[3, 2];

/// The capacity of one slot.
const ONE: &[i128] = &[3];

/// Four demands, the last two of 1, over three slots that hold 1 each: the third shares a slot with the second alone, and the
/// last shares with none.
const IN_A_ROW: Asking = Asking {
    capacities: &[1, 1, 1],
    demands: &[(0, &[0]), (1, &[0, 1]), (1, &[1]), (1, &[2])],
};

/// The same, where the second asks for nothing.
const HALF_A_ROW: Asking = Asking {
    capacities: &[1, 1, 1],
    demands: &[(0, &[0]), (0, &[0, 1]), (1, &[1]), (1, &[2])],
};

/// Two demands of two slots that hold 1 each: what one of them leads to leads back.
const RING: Asking = Asking {
    capacities: &[1, 1],
    demands: &[(1, &[0, 1]), (1, &[1, 0])],
};

/// Demands, and what they answer.
const ROWS: [(Asking, Wanted); 16] = [
    (
        Asking {
            capacities: TWO,
            demands: &[(2, &[0, 1]), (2, &[0]), (1, &[0])],
        },
        Wanted::Split(&[&[0, 2], &[2], &[1]]),
    ),
    (
        Asking {
            capacities: ONE,
            demands: &[(2, &[0]), (1, &[0])],
        },
        Wanted::Split(&[&[2], &[1]]),
    ),
    (
        Asking {
            capacities: TWO,
            demands: &[(1, &[0, 1]), (2, &[0]), (2, &[0])],
        },
        Wanted::Shortage(&[1, 2]),
    ),
    (
        Asking {
            capacities: ONE,
            demands: &[(2, &[0]), (2, &[0])],
        },
        Wanted::Shortage(&[0, 1]),
    ),
    (
        Asking {
            capacities: TWO,
            demands: &[(0, &[0, 1]), (2, &[0]), (1, &[0])],
        },
        Wanted::Most(0, 2),
    ),
    (
        Asking {
            capacities: ONE,
            demands: &[(2, &[0]), (0, &[0])],
        },
        Wanted::Most(1, 1),
    ),
    (
        Asking {
            capacities: ONE,
            demands: &[(2, &[0]), (1, &[0])],
        },
        Wanted::Steps(&[Step::Reach(1, &[0])]),
    ),
    (
        Asking {
            capacities: ONE,
            demands: &[(3, &[0]), (0, &[0])],
        },
        Wanted::Steps(&[Step::Reach(0, &[])]),
    ),
    (
        Asking {
            capacities: ONE,
            demands: &[(1, &[0]), (1, &[0])],
        },
        Wanted::Steps(&[
            Step::Reach(0, &[1]),
            Step::Grow(0, 5, 1),
            Step::Reach(0, &[1]),
        ]),
    ),
    (
        Asking {
            capacities: ONE,
            demands: &[(2, &[0]), (0, &[0])],
        },
        Wanted::Steps(&[Step::Reach(0, &[]), Step::Reach(1, &[0])]),
    ),
    (
        IN_A_ROW,
        Wanted::Steps(&[
            Step::Reach(0, &[1, 2]),
            Step::Reach(2, &[]),
            Step::Reach(1, &[2]),
            Step::Reach(0, &[1, 2]),
        ]),
    ),
    (
        RING,
        Wanted::Steps(&[Step::Reach(0, &[1]), Step::Reach(1, &[0])]),
    ),
    (
        IN_A_ROW,
        Wanted::Steps(&[
            Step::Reach(0, &[1, 2]),
            Step::Bring(&[1, 0, 1, 1], &[1, 1, 1], &[]),
            Step::Reach(0, &[]),
            Step::Reach(1, &[0, 2]),
        ]),
    ),
    (
        IN_A_ROW,
        Wanted::Steps(&[
            Step::Reach(0, &[1, 2]),
            Step::Change(1, -1, &[]),
            Step::Reach(0, &[2, 3]),
            Step::Change(0, 1, &[]),
            Step::Reach(0, &[]),
            Step::Change(1, 1, &[0, 1, 2]),
            Step::Reach(1, &[0, 2]),
            Step::Change(0, -1, &[]),
            Step::Change(1, 1, &[]),
            Step::Reach(0, &[1, 2]),
        ]),
    ),
    (
        HALF_A_ROW,
        Wanted::Steps(&[Step::Grow(1, 5, 1), Step::Grow(0, 5, 0)]),
    ),
    (
        Asking {
            capacities: TWO,
            demands: &[(1, &[0, 1]), (1, &[0]), (0, &[0])],
        },
        Wanted::Steps(&[Step::Grow(0, 2, 2), Step::Grow(2, 2, 1)]),
    ),
];

/// Whether demands answer what they are to answer.
fn is_met(rt: &impl Abort, alloc: Global, asked: Asked, wanted: Wanted) -> bool {
    match wanted {
        Wanted::Split(rows) => is_split(alloc, &asked.demand, rows),
        Wanted::Shortage(members) => has_shortage(alloc, asked, members),
        Wanted::Most(u, most) => has_most(alloc, &asked, u, most),
        Wanted::Steps(steps) => answer_kept(rt, alloc, asked, steps),
    }
}

/// Whether the demands of a row answer what they are to answer.
fn is_row(rt: &impl Abort, alloc: Global, row: &(Asking, Wanted)) -> bool {
    match asked_of(alloc, &row.0) {
        Some(asked) => is_met(rt, alloc, asked, row.1),
        None => false,
    }
}

#[test]
fn demands_are_split(rt: HostRuntime) {
    for row in &ROWS {
        assert!(rt; is_row(&rt, rt.alloc(), row));
    }
}

/// Steps with a copy of the split in a row.
const WITH_A_COPY: [Step; 6] = [
    Step::Bring(&[1, 0, 1, 1], &[1, 1, 1], &[]),
    Step::Reach(1, &[0, 2]),
    Step::Bring(&[0, 3, 0, 0], &[2, 1, 0], &[]),
    Step::Reach(2, &[1]),
    Step::Bring(&[0, 1, 1, 1], &[1, 1, 1], &[]),
    Step::Reach(0, &[1, 2]),
];

/// What the split answers after them.
const AFTER_A_COPY: [Step; 1] = [Step::Reach(0, &[1, 2])];

/// Further steps with the copy.
const TOO_MUCH: [Step; 2] = [
    Step::Bring(&[1, 1, 1, 0], &[1, 1, 1], &[0, 1, 2]),
    Step::Reach(0, &[1, 2]),
];

/// Whether a split and its copy answer those steps.
fn answer_by_turns(rt: &impl Abort, alloc: Global, first: &mut Held, other: &mut Held) -> bool {
    answer(rt, alloc, other, &WITH_A_COPY)
        && answer(rt, alloc, first, &AFTER_A_COPY)
        && answer(rt, alloc, other, &TOO_MUCH)
}

/// Whether a split and a new copy of it answer those steps.
fn answers_with_a_copy(rt: &impl Abort, alloc: Global, mut first: Held) -> bool {
    match copied(alloc, &first) {
        Some(mut other) => answer_by_turns(rt, alloc, &mut first, &mut other),
        None => false,
    }
}

/// Whether the split of the demands in a row and its copy answer those steps.
fn row_answers_with_a_copy(rt: &impl Abort, alloc: Global) -> bool {
    let Some(asked) = asked_of(alloc, &IN_A_ROW) else {
        return false;
    };
    match held_of(alloc, asked) {
        Some(first) => answers_with_a_copy(rt, alloc, first),
        None => false,
    }
}

#[test]
fn a_copy_is_brought_to_other_demands(rt: HostRuntime) {
    assert!(rt; row_answers_with_a_copy(&rt, rt.alloc()));
}

/// Demands of 2 over both slots, which hold 3 and 2, and of 1 over the first.
fn two_asked(alloc: Global) -> Result<Demand, Memory>
    ensures amounts { IfOk result (λ r. r.demands ≡ pos 2 ∷ pos 1 ∷ []) }
    ensures slots { IfOk result (λ r. r.capacities ≡ pos 3 ∷ pos 2 ∷ []) }
{
    let mut demand = Demand::new(alloc, &[3, 2])?;
    demand.push(2, &[0, 1])?;
    demand.push(1, &[0])?;
    Ok(demand)
}

/// The split of these, and a split of three times as much, made of it.
fn three_times(alloc: Global) -> Result<Kept, AssignEnd>
    ensures amounts { IfOk result (λ r. r.demand.demands ≡ pos 6 ∷ pos 3 ∷ []) }
    ensures slots { IfOk result (λ r. r.demand.capacities ≡ pos 9 ∷ pos 6 ∷ []) }
{
    let demand = two_asked(alloc)?;
    let kept = Kept::new(alloc, demand)?;
    let three = kept.times(alloc, 3)?;
    Ok(three)
}

/// Whether a split has these demands and capacities.
fn asks_for(kept: &Kept, amounts: &[i128], capacities: &[i128]) -> bool {
    kept.demand.demands() == amounts && kept.demand.capacities() == capacities
}

/// Whether each demand and each capacity is three times as much, and the second demand can get what the first slot has left.
fn has_three_times_the_room(alloc: Global) -> bool {
    match three_times(alloc) {
        Ok(mut kept) => { asks_for(&kept, &[6, 3], &[9, 6]) && kept.grow(alloc, 1, 100) == Ok(6) }
        Err(_) => false,
    }
}

#[test]
fn a_split_times_three_has_three_times_the_room(rt: HostRuntime) {
    assert!(rt; has_three_times_the_room(rt.alloc()));
}
