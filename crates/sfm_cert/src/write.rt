// Writing an answer: a line for each thing that it says, then the bases that prove it. The same walk tells how long the
// text is and writes it. Room is made before the first byte, for about as much as the text may want; where that is not
// enough, or more than there is, the text is measured, and written into room for it. The first line is all that differs
// where elements have sizes.
ghost use Rattle.std.specs.{Prelude.{◌≡◌, ◌-◌, ◌≤◌, ◌++◌, codes, length, map, pos, IfOk}, List.{All}};
ghost use Rattle.sfm_spec.specs.Bounds.{IsEntry};
ghost use Rattle.sfm_cert.specs.{Answer.{head_lines, text_of}, Header.{header_text}, LineLists.{answer_text, break_lines, first_lines}, Few.{HasFewLines}, Form.{AreFormedRows, IsFormed}, Solved.{answer_of, break_of, form_of, form_with}};

use crate::header::Header;
use crate::out::{Gauge, Out};
use crate::put::{put_blocks, put_breaks, put_names, put_number, put_section};
use crate::solved::Solved;
use crate::width::width;
use sfm_base::{Memory, Page, Slope};
use sfm_kind::Instance;
use sfm_law::Break;
use std::alloc::Global;

/// The first lines: the minimum and its extreme minimisers.
fn put_extremes<O: Out>(out: &mut O, header: Header, instance: &Instance, solved: &Solved)
    requires value { IsEntry solved.now.value }
    requires least { length instance.now.names ≡ length solved.now.least }
    requires greatest { length instance.now.names ≡ length solved.now.greatest }
    ensures { out.new ≡ O.after out.old (text_of (first_lines
        (form_with (header_text header) instance.now) (answer_of solved.now))) }
{
    out.put(header.text());
    out.put(b"\nminimum ");
    put_number(out, solved.value);
    out.put(b"\nleast");
    put_names(out, instance, &solved.least);
    out.put(b"\ngreatest");
    put_names(out, instance, &solved.greatest);
    out.put(b"\n");
}

/// The answer lines: the first lines, the blocks and the slopes.
fn put_head<O: Out>(out: &mut O, header: Header, instance: &Instance, solved: &Solved)
    requires { IsFormed (form_with (header_text header) instance.now) (answer_of solved.now) }
    ensures { out.new ≡ O.after out.old (text_of (head_lines
        (form_with (header_text header) instance.now) (answer_of solved.now))) }
{
    put_extremes(out, header, instance, solved);
    put_blocks(out, instance, &solved.blocks);
    put_breaks(out, instance, &solved.breaks);
}

/// The bases at each slope.
fn put_proofs<O: Out>(out: &mut O, instance: &Instance, breaks: &[Break])
    requires { All (λ b. AreFormedRows (form_of instance.now).widths b.bases)
        (map break_of breaks.now) }
    ensures { out.new ≡ O.after out.old (text_of (break_lines instance.now.lines
        (map break_of breaks.now))) }
{
    for b in breaks {
        put_section(out, instance, &b.slope, &b.bases);
    }
}

/// The text of an answer, piece by piece.
fn put_text<O: Out>(out: &mut O, header: Header, instance: &Instance, solved: &Solved)
    requires { IsFormed (form_with (header_text header) instance.now) (answer_of solved.now) }
    ensures { out.new ≡ O.after out.old (answer_text (form_with (header_text header) instance.now)
        (answer_of solved.now)) }
{
    put_head(out, header, instance, solved);
    put_section(out, instance, &Slope::new(0, 1), &solved.bases);
    put_proofs(out, instance, &solved.breaks);
    out.put(b"end\n");
}

/// How many bytes the text of an answer has, where each element counts one. It takes no memory.
pub fn answer_len(instance: &Instance, solved: &Solved) -> usize
    requires formed { IsFormed (form_of instance.now) (answer_of solved.now) }
    requires few { HasFewLines (answer_of solved.now) }
    ensures { result ≡ length (answer_text (form_of instance.now) (answer_of solved.now)) }
{
    len_with(Header::Answer, instance, solved)
}

// How many bytes the text of an answer with that first line has.
fn len_with(header: Header, instance: &Instance, solved: &Solved) -> usize
    requires formed { IsFormed (form_with (header_text header) instance.now)
        (answer_of solved.now) }
    requires few { HasFewLines (answer_of solved.now) }
    ensures { result ≡ length (answer_text (form_with (header_text header) instance.now)
        (answer_of solved.now)) }
{
    let _ = instance.terms();
    let _ = instance.lines();
    let _ = instance.names_len();
    let mut gauge = Gauge::new();
    put_text(&mut gauge, header, instance, solved);
    gauge.used()
}

/// Puts the text of an answer at the end of a page that has room for it, where each element counts one. It takes no memory.
pub fn put_answer(page: &mut Page, instance: &Instance, solved: &Solved)
    requires formed { IsFormed (form_of instance.now) (answer_of solved.now) }
    requires room { length (answer_text (form_of instance.now) (answer_of solved.now))
        ≤ page.old.spare }
    ensures bytes { page.new.bytes ≡ page.old.bytes ++ answer_text (form_of instance.now)
        (answer_of solved.now) }
    ensures spare { page.new.spare ≡ page.old.spare - length
        (answer_text (form_of instance.now) (answer_of solved.now)) }
{
    put_with(page, Header::Answer, instance, solved);
}

// The same with that first line.
fn put_with(page: &mut Page, header: Header, instance: &Instance, solved: &Solved)
    requires formed { IsFormed (form_with (header_text header) instance.now)
        (answer_of solved.now) }
    requires room { length (answer_text (form_with (header_text header) instance.now)
        (answer_of solved.now)) ≤ page.old.spare }
    ensures bytes { page.new.bytes ≡ page.old.bytes ++ answer_text
        (form_with (header_text header) instance.now) (answer_of solved.now) }
    ensures spare { page.new.spare ≡ page.old.spare - length
        (answer_text (form_with (header_text header) instance.now) (answer_of solved.now)) }
{
    put_text(page, header, instance, solved);
}

// How long the text is thought to be: its head and the bases of the minimum are measured, and at each slope an entry is taken to
// be longer by the digits of the denominator.
fn rough_len(header: Header, instance: &Instance, solved: &Solved) -> usize
    requires { IsFormed (form_with (header_text header) instance.now) (answer_of solved.now) }
{
    let mut gauge = Gauge::new();
    put_head(&mut gauge, header, instance, solved);
    let mut len = gauge.used();
    let mut gauge = Gauge::new();
    put_section(&mut gauge, instance, &Slope::new(0, 1), &solved.bases);
    let first = gauge.used();
    len = len.saturating_add(first);
    let entries = solved.bases.room();
    for b in &solved.breaks {
        let longer = entries.saturating_mul(width(b.slope.den));
        len = len.saturating_add(first).saturating_add(longer);
    }
    len.saturating_add(64)
}

/// The text of an answer with that first line.
///
/// # Errors
///
/// `Memory` where there is none.
pub fn write_with(
    alloc: Global,
    header: Header,
    instance: &Instance,
    solved: &Solved,
) -> Result<Vec<u8>, Memory>
    requires formed { IsFormed (form_with (header_text header) instance.now)
        (answer_of solved.now) }
    requires few { HasFewLines (answer_of solved.now) }
    ensures { IfOk result (λ text. text.items ≡ answer_text
        (form_with (header_text header) instance.now) (answer_of solved.now)) }
{
    let mut page = Page::new(alloc);
    if page.reserve(rough_len(header, instance, solved)).is_ok() {
        put_text(&mut page, header, instance, solved);
        if page.spare() > 0 {
            return Ok(page.into_vec());
        }
    }
    drop(page);
    // The text is measured, and then written into room for it.
    let mut page = Page::new(alloc);
    page.reserve(len_with(header, instance, solved))?;
    put_with(&mut page, header, instance, solved);
    Ok(page.into_vec())
}

/// The text of an answer, where each element counts one.
///
/// # Errors
///
/// `Memory` where there is none.
pub fn write_answer(alloc: Global, instance: &Instance, solved: &Solved) -> Result<Vec<u8>, Memory>
    requires formed { IsFormed (form_of instance.now) (answer_of solved.now) }
    requires few { HasFewLines (answer_of solved.now) }
    ensures { IfOk result (λ text. text.items ≡ answer_text (form_of instance.now)
        (answer_of solved.now)) }
{
    write_with(alloc, Header::Answer, instance, solved)
}

/// The text of an answer, where each element counts its size.
///
/// # Errors
///
/// `Memory` where there is none.
pub fn write_weighed(alloc: Global, instance: &Instance, solved: &Solved) -> Result<Vec<u8>, Memory>
    requires formed { IsFormed (form_of instance.now) (answer_of solved.now) }
    requires few { HasFewLines (answer_of solved.now) }
    ensures { IfOk result (λ text. text.items ≡ answer_text
        (form_with (codes "weighed 1") instance.now) (answer_of solved.now)) }
{
    write_with(alloc, Header::Weighed, instance, solved)
}
