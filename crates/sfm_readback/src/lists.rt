// What the lines of a text hold besides numbers: a list of names, read by one pass over the names of the ground, and the
// lines of a value, a set, a block, a slope and a row. Each is read in one way only, since what ends a name or a number is
// told by the byte behind it, names differ, and they come in the order of the ground.
ghost use Rattle.std.specs.{Prelude.{◌≡◌, ◌≢◌, ◌↔◌, ℕ, ◌+◌, ◌<◌, ◌≤◌, ◌^◌, Bool, List, [], ◌∷◌, ◌++◌, codes, length, ℤ, IsTrue, MatchOption, IfOk}, Fmt.{decimal, signed_decimal}};
ghost use Rattle.sfm_spec.specs.{Sets.{Has}, Blocks.{Block as Generator}, Names.{IsName}};
ghost use Rattle.sfm_extreme.specs.Blocks.{block_of};
ghost use Rattle.sfm_cert.specs.{Answer.{listed}, Spots.{spot_label}};
ghost use Rattle.sfm_readback.specs.{Lists.{IsStop, IsListCut}, Lines.{IsValueLine, IsSetLine, IsBlockLine, IsSlopeLine, IsRowLine, ratio_of_head, Ratio}};

use crate::head::Head;
use crate::numbers::{
    behind, behind_space, needs_of, numbers_into, numbers_of, read_entry, slope_of, split_token,
};
use crate::short::{is_stop, short_count};
use itoa::Buffer;
use sfm_base::{Memory, Set};
use sfm_cert::Spot;
use sfm_extreme::Block;
use sfm_kind::Instance;
use std::alloc::Global;

/// The bytes behind a space and the name, where these stand at the front and the name ends there.
fn behind_name<'a>(bytes: &'a [u8], name: &[u8]) -> Option<&'a [u8]>
    ensures { MatchOption result
        ((rest : List ℕ) → IsStop rest → bytes.now ≡ 32 ∷ (name.now ++ rest) → ⊥)
        (λ rest. IsStop rest.now × (bytes.now ≡ 32 ∷ (name.now ++ rest.now))) }
{
    let rest = behind(behind_space(bytes)?, name)?;
    if is_stop(rest) { Some(rest) } else { None }
}

/// The set whose names stand at the front, and the bytes behind it.
fn split_names<'a>(
    alloc: Global,
    instance: &Instance,
    bytes: &'a [u8],
) -> Result<(Set, &'a [u8]), Memory>
    ensures { IfOk result (λ r. IsListCut instance.now.names bytes.now r.0 r.1.now) }
{
    let mut members = Set::empty(alloc, instance.names_len())?;
    let mut rest = bytes;
    for e in 0..instance.names_len() {
        if let Some(behind) = behind_name(rest, instance.name(e)) {
            members.insert(e);
            rest = behind;
        }
    }
    Ok((members, rest))
}

/// Whether the set has a member.
fn has_some(set: &Set) -> bool
    ensures { IsTrue result ↔ ((e : ℕ) × Has set.now e) }
{
    for e in 0..set.len() {
        if set.contains(e) {
            return true;
        }
    }
    false
}

/// The number of a line of this word and a number, or None where the line is none.
pub fn value_of(line: &[u8], word: &[u8]) -> Option<i128>
    ensures { MatchOption result
        ((v : ℤ) → IsValueLine word.now line.now v → ⊥)
        (IsValueLine word.now line.now) }
{
    read_entry(behind(line, word)?)
}

/// The set of a line of this word and a list of names, or None where the line is none.
pub fn set_of(
    alloc: Global,
    instance: &Instance,
    word: &[u8],
    line: &[u8],
) -> Result<Option<Set>, Memory>
    ensures { IfOk result (λ r. MatchOption r
        ((s : List Bool) → IsSetLine word.now instance.now.names line.now s → ⊥)
        (IsSetLine word.now instance.now.names line.now)) }
{
    let Some(bytes) = behind(line, word) else {
        return Ok(None);
    };
    let (members, rest) = split_names(alloc, instance, bytes)?;
    if !rest.is_empty() {
        return Ok(None);
    }
    Ok(Some(members))
}

/// The bytes behind a word and a label.
fn behind_label<'a>(line: &'a [u8], word: &[u8], label: &[u8]) -> Option<&'a [u8]>
    ensures { MatchOption result
        ((rest : List ℕ) → line.now ≡ word.now ++ (label.now ++ rest) → ⊥)
        (λ rest. line.now ≡ word.now ++ (label.now ++ rest.now)) }
{
    behind(behind(line, word)?, label)
}

/// The bytes behind a word and a count.
#[inline(always)]
fn behind_count<'a>(line: &'a [u8], word: &[u8], count: usize) -> Option<&'a [u8]>
    ensures { MatchOption result
        ((rest : List ℕ) → line.now ≡ word.now ++ (decimal count ++ rest) → ⊥)
        (λ rest. line.now ≡ word.now ++ (decimal count ++ rest.now)) }
{
    let text = behind(line, word)?;
    if let Some((found, rest)) = short_count(text) {
        if found == count as u64 {
            return Some(rest);
        }
    }
    // A count of more than 18 digits, one with further digits behind it, or another one.
    let mut buffer = Buffer::new();
    behind(text, buffer.format(count).as_bytes())
}

/// The bytes behind a word and the label of a term.
fn behind_spot<'a>(line: &'a [u8], word: &[u8], spot: Spot) -> Option<&'a [u8]>
    requires { spot.before + 1 < 18446744073709551616 }
    ensures { MatchOption result
        ((rest : List ℕ) → line.now ≡ word.now ++ (spot_label spot ++ rest) → ⊥)
        (λ rest. line.now ≡ word.now ++ (spot_label spot ++ rest.now)) }
{
    let rest = behind_count(line, word, spot.before + 1)?;
    if spot.layer == 0 {
        return Some(rest);
    }
    behind_count(rest, b".", spot.layer)
}

/// The block of a block line that stands behind so many others, or None where the line is none.
pub fn block_of_line(
    alloc: Global,
    instance: &Instance,
    before: usize,
    line: &[u8],
) -> Result<Option<Block>, Memory>
    requires { before + 1 < 18446744073709551616 }
    ensures { IfOk result (λ r. MatchOption r
        ((block : Generator) → IsBlockLine instance.now.names before line.now block → ⊥)
        (λ block. IsBlockLine instance.now.names before line.now (block_of block))) }
{
    let Some(bytes) = behind_count(line, b"block ", before + 1) else {
        return Ok(None);
    };
    let (members, rest) = split_names(alloc, instance, bytes)?;
    let Some(list) = behind(rest, b" :") else {
        return Ok(None);
    };
    if !has_some(&members) {
        return Ok(None);
    }
    let Some(needs) = needs_of(alloc, list, before)? else {
        return Ok(None);
    };
    Ok(Some(Block { members, needs }))
}

/// The slope and the set of a slope line, or None where the line is none.
pub fn head_of_line(alloc: Global, instance: &Instance, line: &[u8]) -> Result<Option<Head>, Memory>
    ensures { IfOk result (λ r. MatchOption r
        ((ratio : Ratio) (s : List Bool) → IsSlopeLine instance.now.names line.now ratio s → ⊥)
        (λ head. IsSlopeLine instance.now.names line.now (ratio_of_head head) head.set)) }
{
    let Some(bytes) = behind(line, b"slope ") else {
        return Ok(None);
    };
    let (token, list) = split_token(bytes);
    let Some(slope) = slope_of(token) else {
        return Ok(None);
    };
    let (set, rest) = split_names(alloc, instance, list)?;
    if !rest.is_empty() || !has_some(&set) {
        return Ok(None);
    }
    Ok(Some(Head { slope, set }))
}

/// The numbers of a line of this word and label, of which there are `width`, or None where the line is none.
pub fn row_of(
    alloc: Global,
    word: &[u8],
    label: &[u8],
    width: usize,
    line: &[u8],
) -> Result<Option<Vec<i128>>, Memory>
    ensures { IfOk result (λ r. MatchOption r
        ((x : List ℤ) → IsRowLine word.now label.now width line.now x → ⊥)
        (λ x. IsRowLine word.now label.now width line.now x.items)) }
{
    let Some(bytes) = behind_label(line, word, label) else {
        return Ok(None);
    };
    let Some(numbers) = numbers_of(alloc, bytes, width)? else {
        return Ok(None);
    };
    Ok(Some(numbers))
}

/// Reads the numbers of a line of this word and the label of a term, of which there are `width`, in place of those of a list,
/// or None where the line is none.
pub fn labelled_into(
    numbers: &mut Vec<i128>,
    word: &[u8],
    spot: Spot,
    width: usize,
    line: &[u8],
) -> Result<Option<()>, Memory>
    requires { spot.before + 1 < 18446744073709551616 }
    ensures { IfOk result (λ r. MatchOption r
        ((x : List ℤ) → IsRowLine word.now (spot_label spot) width line.now x → ⊥)
        (λ _. IsRowLine word.now (spot_label spot) width line.now numbers.new.items)) }
{
    let Some(bytes) = behind_spot(line, word, spot) else {
        return Ok(None);
    };
    let Some(()) = numbers_into(numbers, bytes, width)? else {
        return Ok(None);
    };
    Ok(Some(()))
}
