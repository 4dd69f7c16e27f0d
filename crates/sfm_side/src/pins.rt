// The text of pins: which elements of an instance a set must have, and which it must not have. A line is gone over in passes,
// one for each reason in their order, so that no list of its tokens is kept however long it is. An element that is pinned
// again, on one line or on two, is found in one of the two sets.
ghost use Rattle.std.specs.{Prelude.{◌≡◌, ◌≢◌, ◌∷◌, ℕ, Bool, List, length, IfOk, IfErr, MatchBool, MatchOption}, List.{All}};
ghost use Rattle.sfm_lines.specs.{Lines.{tokens_of}, ReadParts.{IsKnown}};
ghost use Rattle.sfm_text.specs.Language.{IsReadAs, IsRefusalIn};
ghost use Rattle.sfm_side.specs.declared.pins.Pin.{Pin};
ghost use Rattle.sfm_side.specs.{Side.{side_language, ended}, Frame.{IsTold}, Pins.{pins_form}, PinLines.{pins_of, pin_word, to_of, other_of, AreOver, PutsNames, PutsAgain, PutsPins, AreNamesTold}};

use crate::frame::Frame;
use crate::passes::{TokenTest, all_pass};
use sfm_base::Set;
use sfm_kind::Instance;
use sfm_lines::tokens::first_token;
use sfm_passes::has_separator_in;
use sfm_text::{Reason, TextEnd, behind_token};
use std::alloc::Global;

/// The members that a set must have, and those that it must not have, as sets of the elements of an instance.
#[derive(Drop)]
pub struct Pins {
    pub inside: Set,
    pub outside: Set,
}

/// Which of the two a line pins.
#[derive(Clone, Copy)]
enum Pin {
    In,
    Out,
}

/// What the first token of a line says that it pins, and the line behind it; None where it is another token.
fn pin_of(line: &[u8]) -> Option<(Pin, &[u8])>
    ensures { MatchOption result
        ((pin : Pin) (rest : List (List ℕ)) → tokens_of line.now ≢ pin_word pin ∷ rest)
        (λ r. tokens_of line.now ≡ pin_word r.0 ∷ tokens_of r.1.now) }
{
    if let Some(rest) = behind_token(line, b"in") {
        return Some((Pin::In, rest));
    }
    if let Some(rest) = behind_token(line, b"out") {
        return Some((Pin::Out, rest));
    }
    None
}

/// The first reason of the names behind the word of a line, but for what is pinned already.
fn names_reason(instance: &Instance, line: &[u8]) -> Option<Reason>
    ensures { AreNamesTold instance.now.names (tokens_of line.now) result }
{
    let Some(_) = first_token(line) else {
        return Some(Reason::Shape);
    };
    if has_separator_in(line) {
        return Some(Reason::Shape);
    }
    if !all_pass(instance, TokenTest::Element, line) {
        return Some(Reason::Name);
    }
    None
}

/// Whether each name of a line is of an element that is in neither set; each is then put into the first.
fn put_names(instance: &Instance, to: &mut Set, other: &Set, line: &[u8]) -> bool
    requires to { length to.old ≡ length instance.now.names }
    requires other { length other.now ≡ length instance.now.names }
    requires known { All (IsKnown instance.now.names) (tokens_of line.now) }
    ensures put { MatchBool result
        (PutsNames instance.now.names to.old other.now (tokens_of line.now) to.new)
        (PutsAgain instance.now.names to.old other.now (tokens_of line.now)) }
    ensures places { length to.new ≡ length instance.now.names }
{
    let mut left = line;
    while let Some((name, behind)) = first_token(left) {
        let Some(e) = instance.place_of(name) else {
            unreachable!();
        };
        if to.contains(e) {
            return false;
        }
        if other.contains(e) {
            return false;
        }
        to.insert(e);
        left = behind;
    }
    true
}

/// Whether each name of a line is of an element that is not pinned; each is then put into the set of that pin.
fn put_pins(instance: &Instance, pins: &mut Pins, pin: Pin, line: &[u8]) -> bool
    requires over { AreOver (length instance.now.names) (pins_of pins.old) }
    requires known { All (IsKnown instance.now.names) (tokens_of line.now) }
    ensures put { MatchBool result
        (PutsPins instance.now.names pin (pins_of pins.old) (tokens_of line.now)
        (pins_of pins.new))
        (PutsAgain instance.now.names (to_of pin (pins_of pins.old))
        (other_of pin (pins_of pins.old)) (tokens_of line.now)) }
    ensures over { AreOver (length instance.now.names) (pins_of pins.new) }
{
    match pin {
        Pin::In => put_names(instance, &mut pins.inside, &pins.outside, line),
        Pin::Out => put_names(instance, &mut pins.outside, &pins.inside, line),
    }
}

/// Takes a line of pins, or tells the first reason that it has; then what is pinned is of no use.
fn take_line(instance: &Instance, pins: &mut Pins, line: &[u8]) -> Option<Reason>
    requires over { AreOver (length instance.now.names) (pins_of pins.old) }
    ensures told { IsTold (pins_form instance.now.names) (pins_of pins.old) (tokens_of line.now)
        result (pins_of pins.new) }
    ensures over { AreOver (length instance.now.names) (pins_of pins.new) }
{
    let Some((pin, rest)) = pin_of(line) else {
        return Some(Reason::Word);
    };
    if let Some(reason) = names_reason(instance, rest) {
        return Some(reason);
    }
    let _count = instance.names_len();
    if !put_pins(instance, pins, pin, rest) {
        return Some(Reason::Twice);
    }
    None
}

/// Takes the lines of a text behind its header.
fn take_lines(instance: &Instance, text: &[u8], pins: &mut Pins) -> Result<(), TextEnd>
    requires nothing { pins_of pins.old ≡ (pins_form instance.now.names).nothing }
    ensures read { IfOk result (λ _. IsReadAs (side_language (pins_form instance.now.names))
        text.now (ended (pins_of pins.new))) }
    ensures over { AreOver (length instance.now.names) (pins_of pins.new) }
    ensures refused { IfErr result (IsRefusalIn (side_language (pins_form instance.now.names))
        text.now) }
{
    let mut frame = Frame::open(text, b"pins")?;
    while let Some(line) = frame.next_line()? {
        if let Some(reason) = take_line(instance, pins, line.bytes) {
            return Err(TextEnd::Refused {
                line: line.number,
                reason,
            });
        }
    }
    Ok(())
}

/// What a text of pins says of the elements of an instance.
///
/// # Errors
///
/// `Refused` with the line and the reason of the first fault of the text; `Memory` where there is none.
pub fn read_pins(alloc: Global, instance: &Instance, text: &[u8]) -> Result<Pins, TextEnd>
    ensures read { IfOk result (λ p. IsReadAs (side_language (pins_form instance.now.names))
        text.now (ended (pins_of p))) }
    ensures refused { IfErr result (IsRefusalIn (side_language (pins_form instance.now.names))
        text.now) }
    ensures places { IfOk result (λ p. (length p.inside ≡ length instance.now.names)
        × (length p.outside ≡ length instance.now.names)) }
{
    let n = instance.names_len();
    let mut pins = Pins {
        inside: Set::empty(alloc, n)?,
        outside: Set::empty(alloc, n)?,
    };
    take_lines(instance, text, &mut pins)?;
    Ok(pins)
}
