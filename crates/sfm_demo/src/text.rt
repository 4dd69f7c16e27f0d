// The whole text: the ground, the weights, so many lines of each kind, and the end.
ghost use Rattle.std.specs.{Prelude.{◌≡◌, ◌≤◌, ◌++◌, IfOk, OnOk}, String.{string_bytes}};
ghost use Rattle.sfm_demo.specs.{DemoText.{demo_text_of, line_of, lines}, Names.{IsPut, term_lines}};

use crate::draws::Draws;
use crate::kind::{Item, LineKind};
use crate::lines::{
    write_concave, write_cover, write_cut, write_graphic, write_laminar, write_need, write_table,
    write_transversal, write_uniform,
};
use crate::words::{ELEMENTS, write_items, write_run};
use sfm_base::Memory;
use std::alloc::{AllocError, Global};

/// One line of a kind, without its line feed.
fn write_line(out: &mut String, draws: &mut Draws, kind: LineKind) -> Result<(), AllocError>
    ensures { OnOk result (IsPut (line_of kind) (string_bytes out.old)
        (string_bytes out.new) draws.old draws.new) }
{
    match kind {
        LineKind::Cut => write_cut(out, draws),
        LineKind::Need => write_need(out, draws),
        LineKind::Cover => write_cover(out, draws),
        LineKind::Concave => write_concave(out, draws),
        LineKind::Uniform => write_uniform(out, draws),
        LineKind::Laminar => write_laminar(out, draws),
        LineKind::Graphic => write_graphic(out, draws),
        LineKind::Transversal => write_transversal(out, draws),
        LineKind::Table => write_table(out, draws),
    }
}

/// So many lines of a kind.
fn write_lines(
    out: &mut String,
    draws: &mut Draws,
    kind: LineKind,
    count: usize,
) -> Result<(), AllocError>
    ensures { OnOk result (IsPut (lines count kind) (string_bytes out.old)
        (string_bytes out.new) draws.old draws.new) }
{
    for _i in 0..count {
        write_line(out, draws, kind)?;
        writeln!(out)?;
    }
    Ok(())
}

/// The lines of the terms behind the weights.
#[tactic(auto, unfolding(crate::specs::Names::term_lines), using(crate::proofs::Pieces::joining))]
fn write_terms(out: &mut String, draws: &mut Draws) -> Result<(), AllocError>
    ensures { OnOk result (string_bytes out.new ≡ string_bytes out.old
        ++ (term_lines draws.old).value) }
{
    write_lines(out, draws, LineKind::Cut, 100)?;
    write_lines(out, draws, LineKind::Need, 20)?;
    write_lines(out, draws, LineKind::Cover, 20)?;
    write_lines(out, draws, LineKind::Concave, 10)?;
    write_lines(out, draws, LineKind::Uniform, 5)?;
    write_lines(out, draws, LineKind::Laminar, 5)?;
    write_lines(out, draws, LineKind::Graphic, 5)?;
    write_lines(out, draws, LineKind::Transversal, 5)?;
    write_lines(out, draws, LineKind::Table, 5)?;
    Ok(())
}

/// The whole text, drawn from the first state of the generator on.
fn write_text(out: &mut String, draws: &mut Draws) -> Result<(), AllocError>
    ensures { OnOk result (string_bytes out.new ≡ string_bytes out.old ++ demo_text_of draws.old) }
{
    write!(out, "sfm 1\nground")?;
    write_run(out, 0, 1, ELEMENTS)?;
    write!(out, "\nweight")?;
    write_items(out, draws, Item::Pair, 0, 1, ELEMENTS)?;
    writeln!(out)?;
    write_terms(out, draws)?;
    writeln!(out, "end")
}

/// The text of the demonstration instance of a seed.
///
/// # Errors
///
/// `Memory` where there is none.
pub fn demo_text(alloc: Global, seed: u64) -> Result<Vec<u8>, Memory>
    requires { seed ≤ 999999999 }
    ensures { IfOk result (λ r. r.items ≡ demo_text_of seed) }
{
    let mut out = String::new(alloc);
    write_text(&mut out, &mut Draws::new(seed))?;
    Ok(out.into_bytes())
}
