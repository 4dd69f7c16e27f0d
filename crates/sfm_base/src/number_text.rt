// Reads the text of a whole number. A text of more than 31 digits is beyond the bound, so it is refused by its length,
// and the value of what is left cannot overflow.
ghost use Rattle.std.specs.{Prelude.{◌≡◌, ◌↔◌, ℕ, ◌≤◌, ◌^◌, ℤ, length, slice_index, codes, SomeIff, IfSome, IsTrue}, Str.Parse.{AllDigits, digits_value}};
ghost use Rattle.sfm_spec.specs.Bounds.{IsEntry};
ghost use Rattle.sfm_base.specs.NumberText.{IsCount, IsNumber};

const GREATEST: u128 = 1_000_000_000_000_000_000_000_000_000_000;

const MOST_DIGITS: usize = 31;

/// The number that the bytes are the text of, where its magnitude is at most 10^30; None where they are no number's
/// text, or that of a greater magnitude.
///
/// The text is `0`, or an optional `-`, a digit 1 to 9 and further digits.
pub fn read_number(bytes: &[u8]) -> Option<i128>
    ensures { (a : ℤ) → (result ≡ Some a) ↔ (IsNumber bytes.now a × IsEntry a) }
{
    if is_zero(bytes) {
        Some(0)
    } else if has_minus(bytes) {
        let count = read_count(&bytes[1..])?;
        Some(-(count as i128))
    } else {
        let count = read_count(bytes)?;
        Some(count as i128)
    }
}

fn is_zero(bytes: &[u8]) -> bool
    ensures { IsTrue result ↔ (bytes.now ≡ codes "0") }
{
    bytes.len() == 1 && bytes[0] == b'0'
}

fn has_minus(bytes: &[u8]) -> bool
    ensures { IsTrue result ↔ (slice_index bytes.now 0 ≡ 45) }
{
    !bytes.is_empty() && bytes[0] == b'-'
}

// The value of a digit 1 to 9 and further digits, where it is at most 10^30.
fn read_count(digits: &[u8]) -> Option<u128>
    ensures value { (n : ℕ) → (result ≡ Some n) ↔ (IsCount digits.now n × (n ≤ 10 ^ 30)) }
    ensures small { IfSome result (λ n. n ≤ 10 ^ 30) }
{
    if digits.is_empty() || digits[0] < b'1' || digits.len() > MOST_DIGITS {
        return None;
    }
    let count = value_of(digits)?;
    if count <= GREATEST { Some(count) } else { None }
}

// The value of some digits, where each byte is one.
fn value_of(digits: &[u8]) -> Option<u128>
    requires { length digits.now ≤ 31 }
    ensures { SomeIff result (AllDigits 10 digits.now) (digits_value 10 digits.now) }
{
    let mut value: u128 = 0;
    for digit in digits {
        if !digit.is_ascii_digit() {
            return None;
        }
        value = value * 10 + (*digit - b'0') as u128;
    }
    Some(value)
}
