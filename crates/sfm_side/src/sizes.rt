// The text of sizes: how much each element of an instance counts. A line is gone over in passes, one for each reason in their
// order, so that no list of its tokens is kept however long it is. What is known is one number for each element, 0 where it
// was not named: an element that is named again, on one line or on two, is found by its number, and in the end each 0 is a 1.
// No memory is asked for but these numbers, which are the result.
ghost use Rattle.std.specs.{Prelude.{◌≡◌, ◌≢◌, ℕ, ◌<◌, ◌≤◌, ◌^◌, List, [], ◌∷◌, length, codes, replicate, Any, Option, None, ℤ, pos, ◌≤ℤ◌, map, IfOk, IfErr, MatchBool, MatchOption, MatchResult}, List.{All}};
ghost use Rattle.sfm_spec.specs.Bounds.{total_of};
ghost use Rattle.sfm_kind.specs.Names.{AreElementNames};
ghost use Rattle.sfm_lines.specs.{Lines.{tokens_of}, Reading.{IsBadByte}};
ghost use Rattle.sfm_text.specs.Language.{IsReadAs, IsRefusalIn, IsFirstOf};
ghost use Rattle.sfm_sizes.specs.Sizes.{AreElementSizes};
ghost use Rattle.sfm_side.specs.{Side.{side_language, ended}, Frame.{IsTold}, Sizes.{sizes_of, sizes_form}, SizeLines.{given_of, count_of, AreKept, IsSizePair, Puts, PutsTwice, ArePairsTold}, Passes.{Passes}};
ghost use Rattle.sfm_side.specs.declared.passes.TokenTest.TheVariants.{Pair, PairSize, PairElement};

use crate::frame::Frame;
use crate::passes::{MOST_ELEMENT_SIZE, TokenTest, all_pass, size_for};
use sfm_kind::Instance;
use sfm_lines::pair::cut_pair;
use sfm_lines::tokens::first_token;
use sfm_text::{Reason, TextEnd, behind_token};
use std::alloc::Global;

/// What an element counts by its number: its size, or 1 where it was not named.
fn counted(kept: i128) -> i128
    ensures { result ≡ count_of kept }
{
    if 1 <= kept { kept } else { 1 }
}

/// What all elements count together.
fn total_size(kept: &[i128]) -> i128
    requires few { length kept.now ≤ 256 }
    requires each { All (λ w. (pos 0 ≤ℤ w) × (w ≤ℤ pos (10 ^ 6))) kept.now }
    ensures { result ≡ total_of (map count_of kept.now) }
{
    let mut total = 0;
    for size in kept {
        total += counted(*size);
    }
    total
}

/// Puts what each element counts in the place of its number.
fn count_each(kept: &mut [i128])
    requires { All (λ w. (pos 0 ≤ℤ w) × (w ≤ℤ pos (10 ^ 6))) kept.old }
    ensures { kept.new ≡ map count_of kept.old }
{
    for e in 0..kept.len() {
        kept[e] = counted(kept[e]);
    }
}

/// The element and the size of a pair that has both.
fn pair_size(instance: &Instance, token: &[u8]) -> (usize, i128)
    requires size { Passes instance.now.names PairSize token.now }
    requires element { Passes instance.now.names PairElement token.now }
    ensures pair { IsSizePair instance.now.names token.now result.0 result.1 }
    ensures within { result.0 < length instance.now.names }
{
    let Some((name, number)) = cut_pair(token) else {
        unreachable!();
    };
    let Some(e) = instance.place_of(name) else {
        unreachable!();
    };
    let Some(size) = size_for(number) else {
        unreachable!();
    };
    (e, size)
}

/// Whether each pair of a line is of an element that has no size yet; each then has its own.
fn put_sizes(instance: &Instance, kept: &mut [i128], line: &[u8]) -> bool
    requires kept { AreKept (length instance.now.names) kept.old }
    requires sizes { All (Passes instance.now.names PairSize) (tokens_of line.now) }
    requires elements { All (Passes instance.now.names PairElement) (tokens_of line.now) }
    ensures put { MatchBool result
        (Puts instance.now.names (given_of kept.old) (tokens_of line.now) (given_of kept.new))
        (PutsTwice instance.now.names (given_of kept.old) (tokens_of line.now)) }
    ensures kept { AreKept (length instance.now.names) kept.new }
{
    let mut left = line;
    while let Some((token, behind)) = first_token(left) {
        let (e, size) = pair_size(instance, token);
        if kept[e] > 0 {
            return false;
        }
        kept[e] = size;
        left = behind;
    }
    true
}

/// The first reason of the tokens behind the word of a line, but for what they do to the sizes that are known.
fn pairs_reason(instance: &Instance, line: &[u8]) -> Option<Reason>
    ensures { ArePairsTold instance.now.names (tokens_of line.now) result }
{
    let Some(_) = first_token(line) else {
        return Some(Reason::Shape);
    };
    if !all_pass(instance, TokenTest::Pair, line) {
        return Some(Reason::Shape);
    }
    if !all_pass(instance, TokenTest::PairSize, line) {
        return Some(Reason::Number);
    }
    if !all_pass(instance, TokenTest::PairElement, line) {
        return Some(Reason::Name);
    }
    None
}

/// Takes a line of sizes, or tells the first reason that it has; then what is kept is of no use.
fn take_line(instance: &Instance, kept: &mut [i128], line: &[u8]) -> Option<Reason>
    requires kept { AreKept (length instance.now.names) kept.old }
    ensures told { IsTold (sizes_form instance.now.names) (given_of kept.old) (tokens_of line.now)
        result (given_of kept.new) }
    ensures kept { AreKept (length instance.now.names) kept.new }
{
    let Some(rest) = behind_token(line, b"size") else {
        return Some(Reason::Word);
    };
    if let Some(reason) = pairs_reason(instance, rest) {
        return Some(reason);
    }
    let _count = instance.names_len();
    if !put_sizes(instance, kept, rest) {
        return Some(Reason::Twice);
    }
    if total_size(kept) > MOST_ELEMENT_SIZE {
        return Some(Reason::Total);
    }
    None
}

/// Takes the lines of a text behind its header.
fn take_lines(instance: &Instance, text: &[u8], kept: &mut [i128]) -> Result<(), TextEnd>
    requires kept { kept.old ≡ replicate (length instance.now.names) (pos 0) }
    ensures read { IfOk result (λ _. IsReadAs (side_language (sizes_form instance.now.names))
        text.now (ended (given_of kept.new))) }
    ensures small { IfOk result (λ _. total_of (map count_of kept.new) ≤ℤ pos (10 ^ 6)) }
    ensures kept { AreKept (length instance.now.names) kept.new }
    ensures refused { IfErr result (IsRefusalIn (side_language (sizes_form instance.now.names))
        text.now) }
{
    let _count = instance.names_len();
    let mut frame = Frame::open(text, b"sizes")?;
    while let Some(line) = frame.next_line()? {
        if let Some(reason) = take_line(instance, kept, line.bytes) {
            return Err(TextEnd::Refused {
                line: line.number,
                reason,
            });
        }
    }
    Ok(())
}

/// Puts what each element counts by a text in the place of its number.
fn read_kept(instance: &Instance, text: &[u8], kept: &mut [i128]) -> Result<(), TextEnd>
    requires kept { kept.old ≡ replicate (length instance.now.names) (pos 0) }
    ensures read { IfOk result (λ _. (given : List (Option ℤ)) × (kept.new ≡ sizes_of given)
        × IsReadAs (side_language (sizes_form instance.now.names)) text.now (ended given)) }
    ensures sizes { IfOk result (λ _. AreElementSizes (length instance.now.names) kept.new) }
    ensures refused { IfErr result (IsRefusalIn (side_language (sizes_form instance.now.names))
        text.now) }
{
    take_lines(instance, text, kept)?;
    count_each(kept);
    Ok(())
}

/// How much each element of the instance counts by a text of sizes: from 1, together at most 1,000,000, and 1 for an element
/// that the text does not name.
///
/// # Errors
///
/// `Refused` with the line and the reason of the first fault of the text; `Memory` where there is none.
pub fn read_sizes(alloc: Global, instance: &Instance, text: &[u8]) -> Result<Vec<i128>, TextEnd>
    ensures read { IfOk result (λ r. (given : List (Option ℤ)) × (r.items ≡ sizes_of given)
        × IsReadAs (side_language (sizes_form instance.now.names)) text.now (ended given)) }
    ensures sizes { IfOk result (λ r. AreElementSizes (length instance.now.names) r.items) }
    ensures refused { IfErr result (IsRefusalIn (side_language (sizes_form instance.now.names))
        text.now) }
{
    let mut sizes = vec![in alloc; 0i128; instance.names_len()]?;
    read_kept(instance, text, &mut sizes)?;
    Ok(sizes)
}
