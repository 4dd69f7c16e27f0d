// What is told of pins.
use crate::rows::{instance_of, text_of};
use sfm_ask::{Asked, ask, asked_text};
use sfm_base::Set;
use sfm_kind::Instance;
use sfm_side::{Pins, read_pins};
use std::alloc::Global;
use std::process::Abort;

/// Whether a text of pins gives that text.
fn is_told(alloc: Global, instance: &Instance, pins: &[u8], told: &[u8]) -> bool {
    let Ok(pins) = read_pins(alloc, instance, pins) else {
        return false;
    };
    match asked_text(alloc, instance, &pins) {
        Ok(text) => text.as_slice() == told,
        Err(_) => false,
    }
}

/// Whether a row holds: lines of an instance, a text of pins behind an arrow, and behind another one what is told.
fn is_row(alloc: Global, row: &str) -> bool {
    let (lines, rest) = row.split_once('>').unwrap_or((row, ""));
    let (pins, told) = rest.split_once('>').unwrap_or((rest, ""));
    let Some(instance) = instance_of(alloc, lines) else {
        return false;
    };
    let Some(pins) = text_of(alloc, pins) else {
        return false;
    };
    match text_of(alloc, told) {
        Some(told) => is_told(alloc, &instance, pins.as_bytes(), told.as_bytes()),
        None => false,
    }
}

/// Whether all rows hold.
fn are_rows(alloc: Global, rows: &[&str]) -> bool {
    for row in rows {
        if !is_row(alloc, row) {
            return false;
        }
    }
    true
}

/// A set that must have some elements and must not have others.
const PINNED: [&str; 17] = [
    "ground a b|weight a:-3 b:2|cut 4 a b>pins 1|in a|out b|end>pinned 1|minimum 1|least a|greatest a|end|",
    "ground a b|weight a:-3 b:2|cut 4 a b>pins 1|out a|end>pinned 1|minimum 0|least|greatest|end|",
    "ground a b|weight a:-3 b:2|cut 4 a b>pins 1|end>pinned 1|minimum -1|least a b|greatest a b|end|",
    "ground a b|weight a:-3 b:2|cut 4 a b>pins 1|in b|end>pinned 1|minimum -1|least a b|greatest a b|end|",
    "ground a b|weight a:-3 b:2|cut 4 a b>pins 1|in b|in a|end>pinned 1|minimum -1|least a b|greatest a b|end|",
    "ground a b|weight a:-3 b:2|cut 4 a b>pins 1|in b|out a|end>pinned 1|minimum 2|least b|greatest b|end|",
    "ground a b|need a b>pins 1|in a|end>pinned 1|minimum 0|least a b|greatest a b|end|",
    "ground a b|need a b>pins 1|out a|end>pinned 1|minimum 0|least|greatest b|end|",
    "ground a b|cut 1 a b|cut 1 b a>pins 1|in a|end>pinned 1|minimum 0|least a b|greatest a b|end|",
    "ground a b|cut 1 a b|cut 1 b a>pins 1|in a|out b|end>pinned 1|minimum 1|least a|greatest a|end|",
    "ground a b c>pins 1|in b|end>pinned 1|minimum 0|least b|greatest a b c|end|",
    "ground a b c|need a b|need b c|weight a:-5 b:1 c:1>pins 1|in b|end>pinned 1|minimum -3|least a b c|greatest a b c|end|",
    "ground a b c|need a b|need b c|weight a:-5 b:1 c:1>pins 1|in b|out a|end>pinned 1|minimum 2|least b c|greatest b c|end|",
    "ground a b c|cover 5 a b c|weight a:-2 b:-2 c:-2>pins 1|in a|end>pinned 1|minimum -1|least a b c|greatest a b c|end|",
    "ground a b c|cover 5 a b c|weight a:-2 b:-2 c:-2>pins 1|in a|out b|end>pinned 1|minimum 1|least a c|greatest a c|end|",
    "ground a b c|cover 5 a b c|weight a:-2 b:-2 c:-2>pins 1|out b|end>pinned 1|minimum 0|least|greatest|end|",
    "ground>pins 1|end>pinned 1|minimum 0|least|greatest|end|",
];

#[test]
fn the_least_value_among_pinned_sets_is_told(rt: HostRuntime) {
    assert!(rt; are_rows(rt.alloc(), &PINNED));
}

/// No set is allowed that has the elements and lacks the others.
const NONE: [&str; 3] = [
    "ground a b|need a b>pins 1|in a|out b|end>none|",
    "ground a b|need a b|weight a:-3 b:2>pins 1|in a|out b|end>none|",
    "ground a b c|need a b|need b c|weight a:-5 b:1 c:1>pins 1|in a|out c|end>none|",
];

#[test]
fn where_no_set_is_allowed_none_is_told(rt: HostRuntime) {
    assert!(rt; are_rows(rt.alloc(), &NONE));
}

/// Whether nothing is told where every element must be both in and out.
fn is_nothing_told(alloc: Global) -> bool {
    let Some(instance) = instance_of(alloc, "ground a b") else {
        return false;
    };
    let n = instance.names_len();
    let Ok(inside) = Set::whole(alloc, n) else {
        return false;
    };
    let Ok(outside) = Set::whole(alloc, n) else {
        return false;
    };
    let pins = Pins { inside, outside };
    match ask(alloc, &instance, &pins) {
        Ok(Asked::Nothing) => true,
        _ => false,
    }
}

#[test]
fn an_element_both_in_and_out_is_in_no_set(rt: HostRuntime) {
    assert!(rt; is_nothing_told(rt.alloc()));
}
