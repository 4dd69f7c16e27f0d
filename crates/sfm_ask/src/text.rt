// The text that tells the least value among the sets that keep pins: the value and the extreme sets, or `none`.
ghost use Rattle.std.specs.{Prelude.{◌≡◌, ◌++◌, length, IfOk, OnOk}, Fmt.{signed_decimal}};
ghost use Rattle.sfm_spec.specs.{Bounds.{IsEntry}, Families.{meanings}};
ghost use Rattle.sfm_kind.specs.Kinds.{kind_places, kind_value};
ghost use Rattle.sfm_cert.specs.Answer.{listed};
ghost use Rattle.sfm_side.specs.PinLines.{pins_of};
ghost use Rattle.sfm_ask.specs.{Pinned.{IsAnswered}, Asking.{IsWritable, text_of_asked}};
ghost use Rattle.sfm_ask.specs.declared.asking.Asked.TheVariants.{Best};

use crate::asking::{Asked, Pinned, ask};
use itoa::Buffer;
use sfm_base::{Memory, Set};
use sfm_kind::Instance;
use sfm_side::Pins;
use std::alloc::{AllocError, Global};

/// A space and the name of each member.
fn put_names(text: &mut Vec<u8>, instance: &Instance, members: &Set) -> Result<(), AllocError>
    requires { length instance.now.names ≡ length members.now }
    ensures { OnOk result (text.new.items ≡ text.old.items
        ++ listed instance.now.names members.now) }
{
    for e in 0..instance.names_len() {
        if members.contains(e) {
            text.push(b' ')?;
            text.extend_from_slice(instance.name(e))?;
        }
    }
    Ok(())
}

/// The text of a number.
fn put_number(text: &mut Vec<u8>, a: i128) -> Result<(), AllocError>
    ensures { OnOk result (text.new.items ≡ text.old.items ++ signed_decimal a) }
{
    let mut buffer = Buffer::new();
    text.extend_from_slice(buffer.format(a).as_bytes())
}

/// The lines that tell the least value and the extreme sets.
fn put_best(text: &mut Vec<u8>, instance: &Instance, best: &Pinned) -> Result<(), AllocError>
    requires writable { IsWritable (length instance.now.names) (Best best.now) }
    ensures { OnOk result (text.new.items ≡ text.old.items
        ++ text_of_asked instance.now.names (Best best.now)) }
{
    text.extend_from_slice(b"pinned 1\nminimum ")?;
    put_number(text, best.value)?;
    text.extend_from_slice(b"\nleast")?;
    put_names(text, instance, &best.least)?;
    text.extend_from_slice(b"\ngreatest")?;
    put_names(text, instance, &best.greatest)?;
    text.extend_from_slice(b"\nend\n")?;
    Ok(())
}

/// Puts what is told at the end.
fn put_asked(text: &mut Vec<u8>, instance: &Instance, asked: &Asked) -> Result<(), AllocError>
    requires { IsWritable (length instance.now.names) asked.now }
    ensures { OnOk result (text.new.items ≡ text.old.items
        ++ text_of_asked instance.now.names asked.now) }
{
    match asked {
        Asked::Best(best) => put_best(text, instance, best),
        Asked::Nothing => text.extend_from_slice(b"none\n"),
    }
}

/// The text of what is told: `pinned 1`, the least value, the two sets and `end`, or `none` alone.
///
/// # Errors
///
/// `Memory` where there is none.
pub fn write_asked(alloc: Global, instance: &Instance, asked: &Asked) -> Result<Vec<u8>, Memory>
    requires { IsWritable (length instance.now.names) asked.now }
    ensures { IfOk result (λ text. text.items ≡ text_of_asked instance.now.names asked.now) }
{
    let mut text = Vec::new(alloc);
    put_asked(&mut text, instance, asked)?;
    Ok(text)
}

/// The text that tells the least value among the sets that have all elements that must be in and none of those that must be out.
///
/// # Errors
///
/// `Memory` where there is none.
pub fn asked_text(alloc: Global, instance: &Instance, pins: &Pins) -> Result<Vec<u8>, Memory>
    requires inside { length pins.now.inside ≡ length instance.now.names }
    requires outside { length pins.now.outside ≡ length instance.now.names }
    ensures { IfOk result (λ text. IsAnswered instance.now.names
        (meanings kind_places kind_value instance.now.terms) (pins_of pins.now) text.items) }
{
    let asked = ask(alloc, instance, pins)?;
    write_asked(alloc, instance, &asked)
}
