// Numbers of few digits at the front of bytes, read in one pass, and what may stand behind a number. Most numbers of an
// answer are such; where none is found here, the caller reads the bytes in the way that holds for any number.
ghost use Rattle.std.specs.{Prelude.{◌≡◌, ◌↔◌, ◌<◌, ◌≤◌, ◌^◌, ◌++◌, length, take, IfSome, IsTrue}, Fmt.{decimal, signed_decimal}, Str.Parse.{AllDigits, digits_value}};
ghost use Rattle.sfm_spec.specs.Bounds.{IsEntry};
ghost use Rattle.sfm_readback.specs.Lists.{IsStop};

const MOST_DIGITS: usize = 18;

/// The number at the front, where it has at most 18 digits and nothing or a space follows, and the bytes behind it.
#[inline(always)]
pub fn short_entry(bytes: &[u8]) -> Option<(i128, &[u8])>
    ensures { IfSome result (λ r. IsEntry r.0 × IsStop r.1.now
        × (bytes.now ≡ signed_decimal r.0 ++ r.1.now)) }
{
    if let [b'-', digits @ ..] = bytes {
        let (count, rest) = short_count(digits)?;
        if count == 0 || !is_stop(rest) {
            return None;
        }
        return Some((-(count as i128), rest));
    }
    let (count, rest) = short_count(bytes)?;
    if !is_stop(rest) {
        return None;
    }
    Some((count as i128, rest))
}

/// The count at the front, where it has at most 18 digits, and the bytes behind these digits.
pub fn short_count(bytes: &[u8]) -> Option<(u64, &[u8])>
    ensures { IfSome result (λ r. (r.0 < 10 ^ 18) × (bytes.now ≡ decimal r.0 ++ r.1.now)) }
{
    let (value, len) = digits_at(bytes);
    if len == 0 || len > 1 && bytes[0] == b'0' {
        return None;
    }
    Some((value, &bytes[len..]))
}

/// The value of the digits at the front and how many they are, up to 18.
fn digits_at(bytes: &[u8]) -> (u64, usize)
    ensures within { result.1 ≤ length bytes.now }
    ensures digits { AllDigits 10 (take result.1 bytes.now) }
    ensures value { result.0 ≡ digits_value 10 (take result.1 bytes.now) }
    ensures small { result.0 < 10 ^ 18 }
{
    let most = bytes.len().min(MOST_DIGITS);
    let mut value = 0;
    let mut len = 0;
    while len < most && bytes[len].is_ascii_digit() {
        value = value * 10 + (bytes[len] - b'0') as u64;
        len += 1;
    }
    (value, len)
}

/// Whether nothing or a space follows.
pub fn is_stop(rest: &[u8]) -> bool
    ensures { IsTrue result ↔ IsStop rest.now }
{
    if rest.is_empty() {
        return true;
    }
    rest[0] == b' '
}
