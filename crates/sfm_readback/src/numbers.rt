// Numbers, lists of numbers and slopes, read from bytes.
ghost use Rattle.std.specs.{Prelude.{◌≡◌, ◌≢◌, ◌⊎◌, ℕ, ◌<◌, ◌≤◌, List, [], ◌∷◌, ◌++◌, length, ℤ, MatchOption, IfOk}, Fmt.{decimal, signed_decimal}, List.{All}};
ghost use Rattle.sfm_spec.specs.{Bounds.{IsEntry, IsFactor}, Slopes.{IsLowest}};
ghost use Rattle.sfm_cert.specs.{Answer.{slope_text}, LineLists.{counted, numbered}};
ghost use Rattle.sfm_readback.specs.Lists.{IsStop, AreNeeds};

use crate::short::short_entry;
use memchr::memchr;
use sfm_base::{Memory, Slope, read_number};
use std::alloc::Global;

const MOST_DENOMINATOR: i128 = 1_000_000;

/// The number whose text the bytes are, of magnitude at most 10^30, or None where there is none.
pub fn read_entry(bytes: &[u8]) -> Option<i128>
    ensures { MatchOption result
        ((a : ℤ) → IsEntry a → bytes.now ≡ signed_decimal a → ⊥)
        (λ a. IsEntry a × (bytes.now ≡ signed_decimal a)) }
{
    read_number(bytes)
}

/// The bytes before the first space, and those from it on.
pub fn split_token(bytes: &[u8]) -> (&[u8], &[u8])
    ensures cut { bytes.now ≡ result.0.now ++ result.1.now }
    ensures plain { All (λ c. c ≢ 32) result.0.now }
    ensures stop { IsStop result.1.now }
{
    let end = memchr(b' ', bytes).unwrap_or(bytes.len());
    (&bytes[..end], &bytes[end..])
}

/// The bytes behind a word at the front.
pub fn behind<'a>(bytes: &'a [u8], word: &[u8]) -> Option<&'a [u8]>
    ensures { MatchOption result
        ((rest : List ℕ) → bytes.now ≡ word.now ++ rest → ⊥)
        (λ rest. bytes.now ≡ word.now ++ rest.now) }
{
    bytes.strip_prefix(word)
}

/// The bytes behind a space at the front.
pub fn behind_space(bytes: &[u8]) -> Option<&[u8]>
    ensures { MatchOption result
        ((rest : List ℕ) → bytes.now ≡ 32 ∷ rest → ⊥)
        (λ rest. bytes.now ≡ 32 ∷ rest.now) }
{
    match bytes {
        [b' ', rest @ ..] => Some(rest),
        _ => None,
    }
}

/// The number behind the space at the front, and the bytes behind that number.
#[inline(always)]
fn split_entry(bytes: &[u8]) -> Option<(i128, &[u8])>
    ensures { MatchOption result
        ((a : ℤ) (rest : List ℕ) → IsEntry a → IsStop rest
        → bytes.now ≡ 32 ∷ (signed_decimal a ++ rest) → ⊥)
        (λ r. IsEntry r.0 × IsStop r.1.now × (bytes.now ≡ 32 ∷ (signed_decimal r.0 ++ r.1.now))) }
{
    let text = behind_space(bytes)?;
    if let Some(cut) = short_entry(text) {
        return Some(cut);
    }
    long_entry(text)
}

/// The number at the front, of however many digits, and the bytes behind it.
fn long_entry(bytes: &[u8]) -> Option<(i128, &[u8])>
    ensures { MatchOption result
        ((a : ℤ) (rest : List ℕ) → IsEntry a → IsStop rest
        → bytes.now ≡ signed_decimal a ++ rest → ⊥)
        (λ r. IsEntry r.0 × IsStop r.1.now × (bytes.now ≡ signed_decimal r.0 ++ r.1.now)) }
{
    let (token, rest) = split_token(bytes);
    let a = read_entry(token)?;
    Some((a, rest))
}

/// So many numbers, each behind a space, where the bytes are nothing else.
pub fn numbers_of(alloc: Global, bytes: &[u8], count: usize) -> Result<Option<Vec<i128>>, Memory>
    ensures { IfOk result (λ r. MatchOption r
        ((x : List ℤ) → length x ≡ count → All IsEntry x → bytes.now ≡ numbered x → ⊥)
        (λ x. (length x.items ≡ count) × All IsEntry x.items × (bytes.now ≡ numbered x.items))) }
{
    let mut numbers = Vec::new(alloc);
    let Some(()) = numbers_into(&mut numbers, bytes, count)? else {
        return Ok(None);
    };
    Ok(Some(numbers))
}

/// Reads so many numbers, each behind a space, in place of those of a list, where the bytes are nothing else.
pub fn numbers_into(
    numbers: &mut Vec<i128>,
    bytes: &[u8],
    count: usize,
) -> Result<Option<()>, Memory>
    ensures { IfOk result (λ r. MatchOption r
        ((x : List ℤ) → length x ≡ count → All IsEntry x → bytes.now ≡ numbered x → ⊥)
        (λ _. (length numbers.new.items ≡ count) × All IsEntry numbers.new.items
        × (bytes.now ≡ numbered numbers.new.items))) }
{
    numbers.clear();
    let mut rest = bytes;
    for _ in 0..count {
        let Some((a, more)) = split_entry(rest) else {
            return Ok(None);
        };
        numbers.push(a)?;
        rest = more;
    }
    if !rest.is_empty() {
        return Ok(None);
    }
    Ok(Some(()))
}

/// Numbers from 1 to `most`, ascending, each behind a space, where the bytes are nothing else.
pub fn needs_of(alloc: Global, bytes: &[u8], most: usize) -> Result<Option<Vec<usize>>, Memory>
    ensures { IfOk result (λ r. MatchOption r
        ((needs : List ℕ) → AreNeeds most needs → bytes.now ≡ counted needs → ⊥)
        (λ needs. AreNeeds most needs.items × (bytes.now ≡ counted needs.items))) }
{
    let mut needs = Vec::new(alloc);
    let mut last = 0;
    let mut rest = bytes;
    while !rest.is_empty() {
        let Some((need, more)) = split_need(rest, last, most) else {
            return Ok(None);
        };
        needs.push(need)?;
        last = need;
        rest = more;
    }
    Ok(Some(needs))
}

/// The number behind the space at the front, where it is above `last` and at most `most`, and the bytes behind it.
fn split_need(bytes: &[u8], last: usize, most: usize) -> Option<(usize, &[u8])>
    ensures { MatchOption result
        ((n : ℕ) (rest : List ℕ) → last < n → n ≤ most → IsStop rest
        → bytes.now ≡ 32 ∷ (decimal n ++ rest) → ⊥)
        (λ r. (last < r.0) × (r.0 ≤ most) × IsStop r.1.now
        × (bytes.now ≡ 32 ∷ (decimal r.0 ++ r.1.now))) }
{
    let (a, rest) = split_entry(bytes)?;
    if (last as i128) < a && a <= (most as i128) {
        Some((a as usize, rest))
    } else {
        None
    }
}

/// The slope in lowest terms whose text the bytes are, or None where there is none.
pub fn slope_of(bytes: &[u8]) -> Option<Slope>
    ensures { MatchOption result
        ((p q : ℤ) → IsLowest p q → IsEntry p → IsFactor q → bytes.now ≡ slope_text p q → ⊥)
        (λ slope. bytes.now ≡ slope_text slope.num slope.den) }
{
    let (front, back) = split_at_first(bytes, b'/')?;
    let p = read_entry(front)?;
    let q = read_entry(back)?;
    in_lowest_terms(p, q)
}

/// The bytes before and behind the first byte of that value.
pub fn split_at_first(bytes: &[u8], value: u8) -> Option<(&[u8], &[u8])>
    ensures { MatchOption result
        (All (λ c. c ≢ value) bytes.now)
        (λ r. All (λ c. c ≢ value) r.0.now × (bytes.now ≡ r.0.now ++ (value ∷ r.1.now))) }
{
    let mid = memchr(value, bytes)?;
    Some((&bytes[..mid], &bytes[mid + 1..]))
}

/// The slope p/q, where q is from 1 to 1,000,000 and p/q is in lowest terms.
fn in_lowest_terms(p: i128, q: i128) -> Option<Slope>
    requires { IsEntry p }
    ensures { MatchOption result
        (IsLowest p q → IsFactor q → ⊥)
        (λ slope. (slope.num ≡ p) × (slope.den ≡ q)) }
{
    if q < 1 || q > MOST_DENOMINATOR {
        return None;
    }
    let slope = Slope::new(p, q);
    if slope.num == p && slope.den == q {
        Some(slope)
    } else {
        None
    }
}
