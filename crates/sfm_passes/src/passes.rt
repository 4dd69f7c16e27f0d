// Passes over the tokens of a line. A line that is refused may have millions of tokens, so they are looked at one after
// another, and no list of them is made.
ghost use Rattle.std.specs.{Prelude.{◌≡◌, ◌↔◌, ◌≤◌, ◌++◌, ℕ, List, length, take, codes, bytes_eq, Any, Contains, IsTrue, IfOk, MatchBool, MatchOption}, List.{All}};
ghost use Rattle.sfm_spec.specs.Names.{IsName};
ghost use Rattle.sfm_lines.specs.{Lines.{texts_of, tokens_of}, Parts.{IsSeparator, HaveNoSeparator, IsCutAtColon}, TermLines.{StandsTwice}};
ghost use Rattle.sfm_passes.specs.Passes.{Holds, Fails, IsKept, texts_between};

use crate::between::{Separator, first_between};
use crate::token_test::{TokenTest, holds};
use indexmap::IndexSet;
use sfm_base::Memory;
use sfm_kind::{Instance, is_name};
use sfm_lines::separator::is_separator;
use sfm_lines::tokens::first_token;
use std::alloc::Global;

/// The most texts that are kept at once to tell whether one stands twice.
const MOST_KEPT: usize = 262_144;

/// Whether some token of a line is a colon or a semicolon alone.
pub fn has_separator_in(line: &[u8]) -> bool
    ensures { MatchBool result (Any IsSeparator (tokens_of line.now))
        (HaveNoSeparator (tokens_of line.now)) }
{
    let mut left = line;
    while let Some((token, behind)) = first_token(left) {
        if is_separator(token) {
            return true;
        }
        left = behind;
    }
    false
}

/// Whether each token of a line has the form of a name.
pub fn are_names_in(line: &[u8]) -> bool
    ensures { MatchBool result
        (All IsName (tokens_of line.now))
        (Any (λ text. IsName text → ⊥) (tokens_of line.now)) }
{
    let mut left = line;
    while let Some((token, behind)) = first_token(left) {
        if !is_name(token) {
            return false;
        }
        left = behind;
    }
    true
}

/// Keeps texts of a line behind those that are kept, until there are so many, and gives the line behind them; or None where one
/// of them is kept twice.
fn keep<'a>(
    separator: Separator,
    kept: &mut IndexSet<&'a [u8]>,
    line: &'a [u8],
) -> Result<Option<&'a [u8]>, Memory>
    requires { StandsTwice (texts_of kept.old.keys) → ⊥ }
    ensures { IfOk result (λ r. MatchOption r
        (StandsTwice (texts_of kept.old.keys ++ texts_between separator line.now))
        (λ rest. IsKept (texts_of kept.old.keys ++ texts_between separator line.now)
        (texts_of kept.new.keys) (texts_between separator rest.now)
        × (length rest.now ≤ length line.now))) }
{
    let mut left = line;
    while kept.len() < MOST_KEPT {
        let Some((token, behind)) = first_between(separator, left) else {
            return Ok(Some(left));
        };
        if !kept.insert(token)? {
            return Ok(None);
        }
        left = behind;
    }
    Ok(Some(left))
}

/// Whether a token is kept.
fn is_kept(kept: &IndexSet<&[u8]>, token: &[u8]) -> bool
    ensures { MatchBool result
        (Contains (texts_of kept.now.keys) token.now)
        (Contains (texts_of kept.now.keys) token.now → ⊥) }
{
    kept.contains(token)
}

/// Whether some text of a line is kept.
fn has_kept(separator: Separator, kept: &IndexSet<&[u8]>, line: &[u8]) -> bool
    ensures { MatchBool result
        (Any (Contains (texts_of kept.now.keys)) (texts_between separator line.now))
        (All (λ token. Contains (texts_of kept.now.keys) token → ⊥)
        (texts_between separator line.now)) }
{
    let mut left = line;
    while let Some((token, behind)) = first_between(separator, left) {
        if is_kept(kept, token) {
            return true;
        }
        left = behind;
    }
    false
}

/// Whether some text of a line stands twice, by what is kept of it in place of what was kept. A part of the texts is kept, and
/// what stands behind it is compared with it, and then the next part, so that no more than one part is kept at a time.
fn repeats<'a>(
    separator: Separator,
    kept: &mut IndexSet<&'a [u8]>,
    line: &'a [u8],
) -> Result<bool, Memory>
    ensures { IfOk result (λ r. IsTrue r ↔ StandsTwice (texts_between separator line.now)) }
{
    let mut left = line;
    while let Some((first, behind)) = first_between(separator, left) {
        kept.clear();
        kept.insert(first)?;
        let Some(rest) = keep(separator, kept, behind)? else {
            return Ok(true);
        };
        if has_kept(separator, kept, rest) {
            return Ok(true);
        }
        left = rest;
    }
    Ok(false)
}

/// Whether some text of a line stands twice.
pub fn has_repeat_in(alloc: Global, separator: Separator, line: &[u8]) -> Result<bool, Memory>
    ensures { IfOk result (λ r. IsTrue r ↔ StandsTwice (texts_between separator line.now)) }
{
    let mut kept = IndexSet::new(alloc);
    repeats(separator, &mut kept, line)
}

/// How many tokens a line has.
pub fn token_count(line: &[u8]) -> usize
    ensures { result ≡ length (tokens_of line.now) }
{
    let mut count = 0;
    let mut left = line;
    while let Some((_, behind)) = first_token(left) {
        count += 1;
        left = behind;
    }
    count
}

/// Whether a token is a colon alone.
pub fn is_colon(token: &[u8]) -> bool
    ensures { result ≡ bytes_eq token.now (codes ":") }
{
    token == b":".as_slice()
}

/// How many tokens of a line stand before the one colon alone, and the line behind it; or None where there is no such colon,
/// or more of them, or a semicolon alone.
pub fn colon_cut(line: &[u8]) -> Option<(usize, &[u8])>
    ensures { MatchOption result
        ((before behind : List (List ℕ)) → IsCutAtColon (tokens_of line.now) before behind → ⊥)
        (λ r. (before : List (List ℕ)) × (length before ≡ r.0)
        × IsCutAtColon (tokens_of line.now) before (tokens_of r.1.now)) }
{
    let mut count = 0;
    let mut left = line;
    while let Some((token, behind)) = first_token(left) {
        if is_separator(token) {
            if !is_colon(token) {
                return None;
            }
            if has_separator_in(behind) {
                return None;
            }
            return Some((count, behind));
        }
        count += 1;
        left = behind;
    }
    None
}

/// Whether each token of a line passes the test.
pub fn all_hold(instance: &Instance, test: TokenTest, line: &[u8]) -> bool
    ensures { MatchBool result
        (All (Holds instance.now test) (tokens_of line.now))
        (Any (Fails instance.now test) (tokens_of line.now)) }
{
    let mut left = line;
    while let Some((token, behind)) = first_token(left) {
        if !holds(instance, test, token) {
            return false;
        }
        left = behind;
    }
    true
}

/// Whether each of the first so many tokens of a line passes the test.
pub fn first_hold(instance: &Instance, test: TokenTest, count: usize, line: &[u8]) -> bool
    ensures { MatchBool result
        (All (Holds instance.now test) (take count (tokens_of line.now)))
        (Any (Fails instance.now test) (take count (tokens_of line.now))) }
{
    let mut due = count;
    let mut left = line;
    while due > 0 {
        let Some((token, behind)) = first_token(left) else {
            return true;
        };
        if !holds(instance, test, token) {
            return false;
        }
        due -= 1;
        left = behind;
    }
    true
}
