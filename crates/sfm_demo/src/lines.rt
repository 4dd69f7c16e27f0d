// One line of each kind, put at the end of a text without its line feed. The draws of a line are made in the order in which its
// definition names them.
#![tactic(auto, unfolding(crate::specs::DemoText::line_of), using(crate::proofs::Pieces::joining))]

ghost use Rattle.std.specs.{Prelude.{◌≡◌, ◌+◌, ◌%◌, ◌<◌, ◌++◌, OnOk, pos, neg_ℤ, ◌≤ℤ◌}, String.{string_bytes}};
ghost use Rattle.sfm_demo.specs.{DemoText.{line_of, level, set_values}, Names.{IsPut, table_drawn}, declared.kind.LineKind.TheVariants.{Cut, Need, Cover, Concave, Uniform, Laminar, Graphic, Transversal, Table}};

use crate::draws::Draws;
use crate::kind::Item;
use crate::words::{ELEMENTS, write_items, write_numbers, write_run, write_set, write_sums};
use std::alloc::AllocError;

/// The element that stands d + 1 behind a.
fn other_than(a: u64, d: u64) -> u64
    requires first { a < 200 }
    requires distance { d < 199 }
    ensures { result ≡ (a + 1 + d) % 200 }
{
    (a + 1 + d) % ELEMENTS
}

/// A cut of two elements.
pub fn write_cut(out: &mut String, draws: &mut Draws) -> Result<(), AllocError>
    ensures { OnOk result (IsPut (line_of Cut) (string_bytes out.old)
        (string_bytes out.new) draws.old draws.new) }
{
    let c = draws.draw(400);
    let a = draws.draw(200);
    let b = other_than(a, draws.draw(199));
    write!(out, "cut {c} e{a} e{b}")
}

/// A condition on two elements.
pub fn write_need(out: &mut String, draws: &mut Draws) -> Result<(), AllocError>
    ensures { OnOk result (IsPut (line_of Need) (string_bytes out.old)
        (string_bytes out.new) draws.old draws.new) }
{
    let a = draws.draw(200);
    let b = other_than(a, draws.draw(199));
    write!(out, "need e{a} e{b}")
}

/// A cover of six elements.
pub fn write_cover(out: &mut String, draws: &mut Draws) -> Result<(), AllocError>
    ensures { OnOk result (IsPut (line_of Cover) (string_bytes out.old)
        (string_bytes out.new) draws.old draws.new) }
{
    let w = draws.draw(1500);
    let p = draws.draw(200);
    write!(out, "cover {w}")?;
    write_run(out, p, 7, 6)
}

/// A concave function of the number of elements among eight.
pub fn write_concave(out: &mut String, draws: &mut Draws) -> Result<(), AllocError>
    ensures { OnOk result (IsPut (line_of Concave) (string_bytes out.old)
        (string_bytes out.new) draws.old draws.new) }
{
    let p = draws.draw(200);
    let first = draws.draw(600);
    write!(out, "concave {first}")?;
    write_sums(out, draws, first as i64, 7)?;
    write_set(out, p, 11, 8)
}

/// The rank of a uniform matroid of ten elements.
pub fn write_uniform(out: &mut String, draws: &mut Draws) -> Result<(), AllocError>
    ensures { OnOk result (IsPut (line_of Uniform) (string_bytes out.old)
        (string_bytes out.new) draws.old draws.new) }
{
    let w = draws.draw(500);
    let c = 1 + draws.draw(9);
    let p = draws.draw(200);
    write!(out, "rank {w} uniform {c}")?;
    write_set(out, p, 3, 10)
}

/// The rank of a laminar matroid of ten elements, with two groups.
pub fn write_laminar(out: &mut String, draws: &mut Draws) -> Result<(), AllocError>
    ensures { OnOk result (IsPut (line_of Laminar) (string_bytes out.old)
        (string_bytes out.new) draws.old draws.new) }
{
    let w = draws.draw(500);
    let c = 1 + draws.draw(2);
    let p = draws.draw(200);
    write!(out, "rank {w} laminar")?;
    write_set(out, p, 1, 10)?;
    write!(out, " ; 4")?;
    write_run(out, p, 1, 6)?;
    write!(out, " ; {c}")?;
    write_run(out, p, 1, 3)
}

/// The rank of a graphic matroid of ten edges.
pub fn write_graphic(out: &mut String, draws: &mut Draws) -> Result<(), AllocError>
    ensures { OnOk result (IsPut (line_of Graphic) (string_bytes out.old)
        (string_bytes out.new) draws.old draws.new) }
{
    let w = draws.draw(500);
    let p = draws.draw(200);
    write!(out, "rank {w} graphic :")?;
    write_items(out, draws, Item::Edge, p, 13, 10)
}

/// The rank of a transversal matroid of eight elements.
pub fn write_transversal(out: &mut String, draws: &mut Draws) -> Result<(), AllocError>
    ensures { OnOk result (IsPut (line_of Transversal) (string_bytes out.old)
        (string_bytes out.new) draws.old draws.new) }
{
    let w = draws.draw(500);
    let p = draws.draw(200);
    write!(out, "rank {w} transversal :")?;
    write_items(out, draws, Item::Entry, p, 9, 8)?;
    Ok(())
}

/// A number from -200 to 200.
fn draw_level(draws: &mut Draws) -> i64
    ensures value { result ≡ (level draws.old).value }
    ensures after { draws.new ≡ (level draws.old).state }
    ensures low { neg_ℤ (pos 200) ≤ℤ result }
    ensures high { result ≤ℤ pos 200 }
{
    draws.draw(401) as i64 - 200
}

/// The values of the sets of three elements, the number of a set having a bit for each element that it holds.
fn table_values(x: i64, y: i64, z: i64, t: u64) -> [i64; 8]
    requires x_low { neg_ℤ (pos 200) ≤ℤ x }
    requires x_high { x ≤ℤ pos 200 }
    requires y_low { neg_ℤ (pos 200) ≤ℤ y }
    requires y_high { y ≤ℤ pos 200 }
    requires z_low { neg_ℤ (pos 200) ≤ℤ z }
    requires z_high { z ≤ℤ pos 200 }
    requires t { t < 300 }
    ensures { result ≡ set_values x y z (pos t) }
{
    let t = t as i64;
    let xy = x + y;
    let zt = z + t;
    [0, x + t, y + t, xy + t, zt, x + zt, y + zt, xy + zt]
}

/// The values of the sets of three elements, drawn: what the members bring, and then what all sets but the empty one have more.
fn draw_values(draws: &mut Draws) -> [i64; 8]
    ensures value { result ≡ (table_drawn draws.old).value }
    ensures after { draws.new ≡ (table_drawn draws.old).state }
{
    let x = draw_level(draws);
    let y = draw_level(draws);
    let z = draw_level(draws);
    let t = draws.draw(300);
    table_values(x, y, z, t)
}

/// A table of the sets of three elements.
pub fn write_table(out: &mut String, draws: &mut Draws) -> Result<(), AllocError>
    ensures { OnOk result (IsPut (line_of Table) (string_bytes out.old)
        (string_bytes out.new) draws.old draws.new) }
{
    let p = draws.draw(200);
    let values = draw_values(draws);
    write!(out, "table")?;
    write_numbers(out, &values)?;
    write_set(out, p, 17, 3)
}
