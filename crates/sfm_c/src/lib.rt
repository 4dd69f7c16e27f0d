// What C may call: an instance text to its answer, and a text that is offered as an answer to the verdict on it, each also
// by sizes of the elements; the best set with pinned elements; the most level base; the answer of an edited instance; and two
// instance texts to a greatest common vector, with the verdict on one. Each call gives the text that the program writes for files
// with these texts, and the code that it ends with. No call keeps anything, or touches more than its texts and memory of its own;
// c/sfm.h declares them to C.
#![tactic(auto)]

mod make;
mod pair;

ghost use Rattle.std.specs.Prelude.{◌≡◌};
ghost use Rattle.sfm_c.specs.Calls.{Gives, IsDueToAsk, IsDueToCheck, IsDueToCheckWeighed, IsDueToEdit, IsDueToLevel, IsDueToMeet, IsDueToMet, IsDueToSolve, IsDueToWeigh};

use crate::make::{
    give, make_ask, make_check, make_edit, make_level, make_solve, make_weigh, make_weighed,
};
use crate::pair::{make_meet, make_met};
use std::alloc::Global;

/// A text in memory of its own.
#[repr(C)]
#[derive(Drop)]
pub struct SfmText {
    pub bytes: &'static [u8],
}

/// Solves the instance of a text. 0: its answer; 2: the text has a fault, which is named; 5: memory ran out.
#[unsafe(no_mangle)]
pub extern "C" fn sfm_solve(alloc: Global, text: &[u8], out: &mut SfmText) -> u32
    ensures { Gives (IsDueToSolve text.now) out.new.bytes.now result }
{
    give(make_solve(alloc, text), out)
}

/// Judges a text as the answer of the instance of a text. 0: it is right; 1: it is not, for the first reason at the first
/// line; 2: the text of the instance has a fault, which is named; 5: memory ran out.
#[unsafe(no_mangle)]
pub extern "C" fn sfm_check(alloc: Global, text: &[u8], answer: &[u8], out: &mut SfmText) -> u32
    ensures { Gives (IsDueToCheck text.now answer.now) out.new.bytes.now result }
{
    give(make_check(alloc, text, answer), out)
}

/// Solves the instance of a text where its elements have the sizes of a second text. 0: its answer; 2: one of the texts
/// has a fault, the first of which is named; 5: memory ran out.
#[unsafe(no_mangle)]
pub extern "C" fn sfm_weigh(alloc: Global, text: &[u8], sizes: &[u8], out: &mut SfmText) -> u32
    ensures { Gives (IsDueToWeigh text.now sizes.now) out.new.bytes.now result }
{
    give(make_weigh(alloc, text, sizes), out)
}

/// Judges a text as the answer of the instance of a text where its elements have the sizes of a second text. 0, 1, 2 and 5
/// as from `sfm_check`; 2 also where the sizes have a fault.
#[unsafe(no_mangle)]
pub extern "C" fn sfm_weighed(
    alloc: Global,
    text: &[u8],
    sizes: &[u8],
    answer: &[u8],
    out: &mut SfmText,
) -> u32
    ensures { Gives (IsDueToCheckWeighed text.now sizes.now answer.now) out.new.bytes.now result }
{
    give(make_weighed(alloc, text, sizes, answer), out)
}

/// Finds the best set of the instance of a text among those that have the elements that a second text says are in, and none
/// that it says are out. 0: the text that tells it, which may be `none`; 2: one of the texts has a fault, the first of which
/// is named; 5: memory ran out.
#[unsafe(no_mangle)]
pub extern "C" fn sfm_ask(alloc: Global, text: &[u8], pins: &[u8], out: &mut SfmText) -> u32
    ensures { Gives (IsDueToAsk text.now pins.now) out.new.bytes.now result }
{
    give(make_ask(alloc, text, pins), out)
}

/// Finds the most level base of the instance of a text. 0: the text that tells it, with bases of the terms; 2: the text has a
/// fault, or its sizes add to more than 10^13, which is named; 5: memory ran out.
#[unsafe(no_mangle)]
pub extern "C" fn sfm_level(alloc: Global, text: &[u8], out: &mut SfmText) -> u32
    ensures { Gives (IsDueToLevel text.now) out.new.bytes.now result }
{
    give(make_level(alloc, text), out)
}

/// Solves the instance that the edits of a second text lead to from that of a first. 0: its answer; 2: one of the texts has a
/// fault, the first of which is named; 5: memory ran out.
#[unsafe(no_mangle)]
pub extern "C" fn sfm_edit(alloc: Global, text: &[u8], edits: &[u8], out: &mut SfmText) -> u32
    ensures { Gives (IsDueToEdit text.now edits.now) out.new.bytes.now result }
{
    give(make_edit(alloc, text, edits), out)
}

/// Finds a greatest common vector of the instances of two texts. 0: the text that tells it, with the least set that bounds it
/// and bases of the terms of both; 2: one of the texts has a fault, or they do not go together, the first of which is named;
/// 5: memory ran out.
#[unsafe(no_mangle)]
pub extern "C" fn sfm_meet(alloc: Global, left: &[u8], right: &[u8], out: &mut SfmText) -> u32
    ensures { Gives (IsDueToMeet left.now right.now) out.new.bytes.now result }
{
    give(make_meet(alloc, left, right), out)
}

/// Judges a text as that of a greatest common vector of the instances of two texts. 0: it is right; 1: it is not, for the first
/// reason at its line; 2 and 5 as from `sfm_meet`.
#[unsafe(no_mangle)]
pub extern "C" fn sfm_met(
    alloc: Global,
    left: &[u8],
    right: &[u8],
    answer: &[u8],
    out: &mut SfmText,
) -> u32
    ensures { Gives (IsDueToMet left.now right.now answer.now) out.new.bytes.now result }
{
    give(make_met(alloc, left, right, answer), out)
}
