// Texts of pins.
use crate::rows::{Read, are_rows, has_listed};
use sfm_kind::Instance;
use sfm_side::{Pins, read_pins};
use sfm_text::TextEnd;
use std::alloc::Global;
use std::process::Abort;

const GROUND: &str = "ground a b c";

/// Pins, listed with a `/` between the members and the others.
struct OfPins;

impl Read for OfPins {
    type Found = Pins;

    fn read(alloc: Global, instance: &Instance, text: &[u8]) -> Result<Pins, TextEnd> {
        read_pins(alloc, instance, text)
    }

    fn is_listed(pins: &Pins, list: &str) -> bool {
        let (inside, outside) = list.split_once('/').unwrap_or((list, ""));
        has_listed(&pins.inside, inside) && has_listed(&pins.outside, outside)
    }
}

/// The frame of the text.
const FRAMES: [&str; 11] = [
    "1 short>",
    "1 word>sizes 1",
    "1 shape>pins",
    "1 shape>pins 2",
    "1 shape>pins 1 x",
    "2 shape>pins 1|end x",
    "3 word>pins 1|end|in z",
    "=/>pins 1|end|# x",
    "2 word>pins 1|at a",
    "2 word>pins 1|pins 1",
    "2 short>pins 1",
];

#[test]
fn a_text_of_pins_has_its_frame(rt: HostRuntime) {
    assert!(rt; are_rows::<OfPins>(rt.alloc(), GROUND, &FRAMES));
}

/// The lines of the text.
const LINES: [&str; 17] = [
    "=a/b>pins 1|in a|out b|end",
    "=/a>pins 1|out a|end",
    "=ab/c>pins 1|in b|out c|in a|end",
    "=abc/>pins 1|in c a b|end",
    "=/>pins 1|end",
    "3 twice>pins 1|in a|out a|end",
    "3 twice>pins 1|in a|in a|end",
    "3 twice>pins 1|out a|in b a|end",
    "2 twice>pins 1|in a a|end",
    "2 shape>pins 1|in|end",
    "2 shape>pins 1|in :|end",
    "2 shape>pins 1|out a ;|end",
    "2 name>pins 1|in z|end",
    "2 name>pins 1|in a:1|end",
    "2 name>pins 1|out a-b|end",
    "2 name>pins 1|in z z|end",
    "2 word>pins 1|inside a|end",
];

#[test]
fn lines_of_pins_have_their_reasons(rt: HostRuntime) {
    assert!(rt; are_rows::<OfPins>(rt.alloc(), GROUND, &LINES));
}
