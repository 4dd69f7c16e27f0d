// Writing what is told of two instances: the value, the set and the common vector, then a line for each base. The same walk
// tells how long the text is and writes it, so room is made once, before the first byte.
ghost use Rattle.std.specs.{Prelude.{◌≡◌, length, IfOk}, List.{All}};
ghost use Rattle.sfm_spec.specs.Bounds.{IsEntry};
ghost use Rattle.sfm_cert.specs.{Answer.{text_of}, Solved.{form_of}};
ghost use Rattle.sfm_meet.specs.Told.{met_of};
ghost use Rattle.sfm_met.specs.{MetText.{IsFormedMet, met_lines}, MetSlots.{told_lines}};

use sfm_base::{Memory, Page};
use sfm_cert::{Gauge, Out, put_names, put_number, put_numbers, put_rows};
use sfm_kind::Instance;
use sfm_meet::Met;
use std::alloc::Global;

/// The first lines: the value, the set and the common vector.
fn put_told<O: Out>(out: &mut O, instance: &Instance, met: &Met)
    requires value { IsEntry met.now.value }
    requires members { length instance.now.names ≡ length met.now.members }
    requires common { All IsEntry met.now.common }
    ensures { out.new ≡ O.after out.old (text_of (told_lines instance.now.names (met_of met.now))) }
{
    out.put(b"meet 1\nvalue ");
    put_number(out, met.value);
    out.put(b"\nset");
    put_names(out, instance, &met.members);
    out.put(b"\ncommon");
    put_numbers(out, met.common.as_slice());
    out.put(b"\n");
}

/// The text, piece by piece.
fn put_met<O: Out>(out: &mut O, left: &Instance, right: &Instance, met: &Met)
    requires { IsFormedMet (form_of left.now) (form_of right.now) (met_of met.now) }
    ensures { out.new ≡ O.after out.old (text_of (met_lines (form_of left.now) (form_of right.now)
        (met_of met.now))) }
{
    put_told(out, left, met);
    put_rows(out, left, b"left ", &met.bases.left);
    put_rows(out, right, b"right ", &met.bases.right);
    out.put(b"end\n");
}

/// How many bytes the text has.
fn met_len(left: &Instance, right: &Instance, met: &Met) -> usize
    requires { IsFormedMet (form_of left.now) (form_of right.now) (met_of met.now) }
    ensures { result ≡ length (text_of (met_lines (form_of left.now) (form_of right.now)
        (met_of met.now))) }
{
    let _names = left.names_len();
    let _left_terms = left.terms();
    let _right_terms = right.terms();
    let _left_lines = left.lines();
    let _right_lines = right.lines();
    let mut gauge = Gauge::new();
    put_met(&mut gauge, left, right, met);
    gauge.used()
}

/// The text of what is told of two instances: the least value of a split, its least set, a common vector, and a line for each base
/// of the left terms and then of the right ones, by its label. Room for all of it is made first.
///
/// # Errors
///
/// `Memory` where there is none.
pub fn write_met(
    alloc: Global,
    left: &Instance,
    right: &Instance,
    met: &Met,
) -> Result<Vec<u8>, Memory>
    requires { IsFormedMet (form_of left.now) (form_of right.now) (met_of met.now) }
    ensures { IfOk result (λ text. text.items ≡ text_of (met_lines (form_of left.now)
        (form_of right.now) (met_of met.now))) }
{
    let mut page = Page::new(alloc);
    page.reserve(met_len(left, right, met))?;
    put_met(&mut page, left, right, met);
    Ok(page.into_vec())
}
