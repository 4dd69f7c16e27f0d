// Two instances made by calls, with answers worked by hand.
ghost use Rattle.std.specs.Prelude.{◌<◌, ◌^◌, ◌≤ℤ◌, pos};

use sfm_base::Memory;
use sfm_kind::{Instance, Kind, MOST_SIZE};
use sfm_law::Term;
use sfm_simple::{Cut, Need, Weight};
use sfm_trial::{NO, add, add_names, value_at};
use std::alloc::Global;

/// The names of the elements.
const NAMES: [&str; 2] = ["a", "b"];

/// Adds weights -3 and 2, if they can be.
fn add_weight(alloc: Global, instance: &mut Instance) -> bool {
    match Weight::new(alloc, &[0, 1], &[-3, 2]) {
        Ok(term) => add(instance, Kind::Weight(term)),
        Err(_) => false,
    }
}

/// Adds weights -3 and 2 and a cut of 4, if they can be.
fn add_terms(alloc: Global, instance: &mut Instance) -> bool {
    add_weight(alloc, instance) && add(instance, Kind::Cut(Cut::new(4, 0, 1)))
}

/// The sum of the values of terms over two elements at a part.
fn sum_at(alloc: Global, terms: &[Kind], number: usize) -> Result<i128, Memory> {
    let mut sum = 0i128;
    for term in terms {
        sum = sum.saturating_add(value_at(alloc, term, number)?);
    }
    Ok(sum)
}

/// Whether terms are over two elements each.
fn are_pairs(terms: &[Kind]) -> bool {
    for term in terms {
        if term.elements().len() != 2 {
            return false;
        }
    }
    true
}

/// Whether the sums of the values of the terms at the four parts are these.
fn has_sums(alloc: Global, terms: &[Kind], sums: &[i128; 4]) -> bool {
    for number in 0..4 {
        if sum_at(alloc, terms, number) != Ok(sums[number]) {
            return false;
        }
    }
    are_pairs(terms)
}

/// A name that no element has.
const OTHER_NAME: &str = "c";

/// Whether an instance has the elements of those names alone.
fn has_names(instance: &Instance) -> bool {
    instance.names_len() == 2
        && is_named(instance, 0, NAMES[0])
        && is_named(instance, 1, NAMES[1])
        && instance.place_of(OTHER_NAME.as_bytes()).is_none()
}

/// Whether the name of an element is that one, which no other has.
fn is_named(instance: &Instance, e: usize, name: &str) -> bool {
    e < instance.names_len()
        && instance.name(e) == name.as_bytes()
        && instance.place_of(name.as_bytes()) == Some(e)
}

/// Whether an instance has room for so many more places and for so large a size, and for no more.
fn has_room_for(instance: &Instance, places: usize, size: i128) -> bool
    requires places { places < 2 ^ 32 }
    requires size { size ≤ℤ pos (10 ^ 18) }
{
    instance.has_room(places, size)
        && !instance.has_room(places + 1, 0)
        && !instance.has_room(1, size + 1)
}

/// Whether an instance has the counts of a weight and a cut, and room for what they leave.
fn has_counts(instance: &Instance) -> bool {
    instance.terms().len() == 2
        && instance.support() == 4
        && instance.total_size() == 9
        && has_room_for(instance, 16_380, MOST_SIZE - 9)
}

/// Whether an instance takes a condition of an element that it lacks.
fn takes_more(instance: &Instance) -> bool {
    instance.takes(&Kind::Need(Need::new(0, 2)))
}

/// The sums of the values of a weight and a cut.
const SUMS: [i128; 4] = [0, 1, 2, -1];

/// Whether an instance is that of a weight and a cut over a and b.
fn is_weight_and_cut(alloc: Global, instance: &Instance) -> bool {
    has_names(instance)
        && has_counts(instance)
        && !takes_more(instance)
        && has_sums(alloc, instance.terms(), &SUMS)
}

/// Whether the instance of a weight and a cut is so once it is made.
fn makes_weight_and_cut(alloc: Global) -> bool {
    let mut instance = Instance::new(alloc);
    add_names(&mut instance, &NAMES)
        && add_terms(alloc, &mut instance)
        && is_weight_and_cut(alloc, &instance)
}

/// The sums of the values of a condition.
const SUMS_OF_A_NEED: [i128; 4] = [0, NO, 0, 0];

/// Whether the instance of a condition is so once it is made.
fn makes_need(alloc: Global) -> bool {
    let mut instance = Instance::new(alloc);
    add_names(&mut instance, &NAMES)
        && add(&mut instance, Kind::Need(Need::new(0, 1)))
        && instance.total_size() == 0
        && has_sums(alloc, instance.terms(), &SUMS_OF_A_NEED)
}

#[test]
fn a_weight_and_a_cut(rt: HostRuntime) {
    assert!(rt; makes_weight_and_cut(rt.alloc()));
}

#[test]
fn a_lone_need(rt: HostRuntime) {
    assert!(rt; makes_need(rt.alloc()));
}
