// The text of a most level base: the sum of its squares, its entries, and the bases of the terms. The same walk tells how long
// the text is and writes it, so that room is made once, before the first byte, and nothing is refused behind that.
ghost use Rattle.std.specs.Prelude.{◌≡◌, ◌++◌, ◌≤◌, ◌^◌, length, pos, ◌≤ℤ◌, IfOk};
ghost use Rattle.sfm_spec.specs.Families.{meanings};
ghost use Rattle.sfm_kind.specs.{Kinds.{kind_places, kind_value}, Limits.{total_size_of}};
ghost use Rattle.sfm_cert.specs.{Answer.{text_of}, Solved.{form_of}};
ghost use Rattle.sfm_level.specs.{LevelText.{IsLevelText}, Told.{level_lines, level_of, IsFormedLevel}};

use crate::levelling::level;
use crate::told::Level;
use sfm_base::{Memory, Page};
use sfm_cert::{Gauge, Out, put_number, put_numbers, put_rows};
use sfm_kind::Instance;
use std::alloc::Global;

// The text, piece by piece.
fn put_level<O: Out>(out: &mut O, instance: &Instance, level: &Level)
    requires { IsFormedLevel (form_of instance.now) (level_of level.now) }
    ensures { out.new ≡ O.after out.old (text_of (level_lines (form_of instance.now)
        (level_of level.now))) }
{
    out.put(b"level 1\nsquares ");
    put_number(out, level.squares);
    out.put(b"\nvector");
    put_numbers(out, level.vector.as_slice());
    out.put(b"\n");
    put_rows(out, instance, b"base ", &level.bases);
    out.put(b"end\n");
}

// How many bytes the text has.
fn level_len(instance: &Instance, level: &Level) -> usize
    requires { IsFormedLevel (form_of instance.now) (level_of level.now) }
    ensures { result ≡ length (text_of (level_lines (form_of instance.now) (level_of level.now))) }
{
    let _ = instance.terms();
    let _ = instance.lines();
    let _ = instance.names_len();
    let mut gauge = Gauge::new();
    put_level(&mut gauge, instance, level);
    gauge.used()
}

// Puts the text at the end of a page that has room for it.
fn put_page(page: &mut Page, instance: &Instance, level: &Level)
    requires formed { IsFormedLevel (form_of instance.now) (level_of level.now) }
    requires room { length (text_of (level_lines (form_of instance.now) (level_of level.now)))
        ≤ page.old.spare }
    ensures { page.new.bytes ≡ page.old.bytes ++ text_of (level_lines (form_of instance.now)
        (level_of level.now)) }
{
    put_level(page, instance, level);
}

/// The text of a most level base. Room for all of it is made first, and nothing is refused behind that.
///
/// # Errors
///
/// `Memory` where there is none.
pub fn write_level(alloc: Global, instance: &Instance, level: &Level) -> Result<Vec<u8>, Memory>
    requires { IsFormedLevel (form_of instance.now) (level_of level.now) }
    ensures { IfOk result (λ text. text.items ≡ text_of (level_lines (form_of instance.now)
        (level_of level.now))) }
{
    let mut page = Page::new(alloc);
    page.reserve(level_len(instance, level))?;
    put_page(&mut page, instance, level);
    Ok(page.into_vec())
}

/// The text of a most level base of the sum of the terms, where the sizes of the terms add to at most 10^13: `level 1`, a line
/// `squares` with the sum of its squares, a line `vector` with its entries, a line for each base of a term, and `end`.
///
/// # Errors
///
/// `Memory` where there is none.
pub fn level_text(alloc: Global, instance: &Instance) -> Result<Vec<u8>, Memory>
    requires { total_size_of instance.now.terms ≤ℤ pos (10 ^ 13) }
    ensures { IfOk result (λ text. IsLevelText instance.now.lines
        (meanings kind_places kind_value instance.now.terms) (length instance.now.names) text.items) }
{
    let told = level(alloc, instance)?;
    write_level(alloc, instance, &told)
}
