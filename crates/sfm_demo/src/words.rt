// Words of a line, put at the end of a text with a space in front of each: elements, what is drawn for an element, and numbers.
ghost use Rattle.std.specs.{Prelude.{◌≡◌, ◌<◌, ◌≤◌, ◌++◌, OnOk, codes, pos, ◌≤ℤ◌}, String.{string_bytes}};
ghost use Rattle.sfm_demo.specs.{DemoText.{each, edge, entry, falling, pair}, Names.{IsPut, item_of, names, numbers}};

use crate::draws::Draws;
use crate::kind::Item;
use std::alloc::AllocError;

/// How many elements there are.
pub const ELEMENTS: u64 = 200;

const SLOTS: u64 = 5;

/// So many elements, each a step behind the one before.
pub fn write_run(out: &mut String, p: u64, step: u64, count: u64) -> Result<(), AllocError>
    requires first { p < 200 }
    requires step { step < 200 }
    requires count { count ≤ 200 }
    ensures { OnOk result (string_bytes out.new ≡ string_bytes out.old ++ names p step count) }
{
    for j in 0..count {
        let e = (p + step * j) % ELEMENTS;
        write!(out, " e{e}")?;
    }
    Ok(())
}

/// A colon, and so many elements.
pub fn write_set(out: &mut String, p: u64, step: u64, count: u64) -> Result<(), AllocError>
    requires first { p < 200 }
    requires step { step < 200 }
    requires count { count ≤ 200 }
    ensures { OnOk result (string_bytes out.new ≡ string_bytes out.old
        ++ (codes " :" ++ names p step count)) }
{
    write!(out, " :")?;
    write_run(out, p, step, count)
}

/// An element with a weight.
#[tactic(auto, unfolding(crate::specs::DemoText::pair, crate::specs::DemoText::element))]
fn write_pair(out: &mut String, draws: &mut Draws, e: u64) -> Result<(), AllocError>
    ensures { OnOk result (IsPut (pair e) (string_bytes out.old)
        (string_bytes out.new) draws.old draws.new) }
{
    let w = draws.draw(2001) as i64 - 1000;
    write!(out, " e{e}:{w}")
}

/// An element as an edge of two vertices.
fn write_edge(out: &mut String, draws: &mut Draws, e: u64) -> Result<(), AllocError>
    ensures { OnOk result (IsPut (edge e) (string_bytes out.old)
        (string_bytes out.new) draws.old draws.new) }
{
    let u = draws.draw(6);
    let x = draws.draw(6);
    write!(out, " e{e}=v{u}-v{x}")
}

/// An element with two slots.
#[tactic(auto, unfolding(crate::specs::DemoText::entry, crate::specs::DemoText::element))]
fn write_entry(out: &mut String, draws: &mut Draws, e: u64) -> Result<(), AllocError>
    ensures { OnOk result (IsPut (entry e) (string_bytes out.old)
        (string_bytes out.new) draws.old draws.new) }
{
    let a = draws.draw(SLOTS);
    let b = (a + 1 + draws.draw(4)) % SLOTS;
    write!(out, " e{e}=s{a},s{b}")
}

/// An element with what is drawn for it.
fn write_item(out: &mut String, draws: &mut Draws, item: Item, e: u64) -> Result<(), AllocError>
    ensures { OnOk result (IsPut (item_of item e) (string_bytes out.old)
        (string_bytes out.new) draws.old draws.new) }
{
    match item {
        Item::Pair => write_pair(out, draws, e),
        Item::Edge => write_edge(out, draws, e),
        Item::Entry => write_entry(out, draws, e),
    }
}

/// So many elements, each a step behind the one before, with what is drawn for each.
pub fn write_items(
    out: &mut String,
    draws: &mut Draws,
    item: Item,
    p: u64,
    step: u64,
    count: u64,
) -> Result<(), AllocError>
    requires first { p < 200 }
    requires step { step < 200 }
    requires count { count ≤ 200 }
    ensures { OnOk result (IsPut (each (item_of item) p step count) (string_bytes out.old)
        (string_bytes out.new) draws.old draws.new) }
{
    for j in 0..count {
        write_item(out, draws, item, (p + step * j) % ELEMENTS)?;
    }
    Ok(())
}

/// What a first number becomes by so many increments, each the one before less a draw.
pub fn write_sums(
    out: &mut String,
    draws: &mut Draws,
    first: i64,
    count: u64,
) -> Result<(), AllocError>
    requires low { pos 0 ≤ℤ first }
    requires high { first ≤ℤ pos 600 }
    requires count { count ≤ 10 }
    ensures { OnOk result (IsPut (falling count first first) (string_bytes out.old)
        (string_bytes out.new) draws.old draws.new) }
{
    let mut sum = first;
    let mut increment = first;
    for _i in 0..count {
        increment -= draws.draw(150) as i64;
        sum += increment;
        write!(out, " {sum}")?;
    }
    Ok(())
}

/// Numbers.
pub fn write_numbers(out: &mut String, values: &[i64]) -> Result<(), AllocError>
    ensures { OnOk result (string_bytes out.new ≡ string_bytes out.old ++ numbers values.now) }
{
    for value in values {
        write!(out, " {value}")?;
    }
    Ok(())
}
