// How long the text of a number is, without its text: an answer that outgrows the room made for it is measured, and most of it is
// numbers. Most numbers are small, so these are told by comparisons, and larger ones lose four digits at a time.
ghost use Rattle.std.specs.{Prelude.{◌≡◌, ◌<◌, ◌^◌, length}, Fmt.{decimal, signed_decimal}};

/// How many digits a number below 10,000 has.
#[inline(always)]
fn few_digits_of(n: u64) -> usize
    requires { n < 10000 }
    ensures { result ≡ length (decimal n) }
{
    if n < 100 {
        return if n < 10 { 1 } else { 2 };
    }
    if n < 1_000 { 3 } else { 4 }
}

/// How many digits a number of 64 bits has.
#[inline(always)]
fn low_digits_of(n: u64) -> usize
    ensures { result ≡ length (decimal n) }
{
    let mut low = n;
    let mut count = 0;
    while low >= 10_000 {
        low /= 10_000;
        count += 4;
    }
    count + few_digits_of(low)
}

/// How many digits a number has.
fn digits_of(n: u128) -> usize
    ensures { result ≡ length (decimal n) }
{
    let mut rest = n;
    let mut count = 0;
    while rest > u64::MAX as u128 {
        rest /= 10;
        count += 1;
    }
    count + low_digits_of(rest as u64)
}

/// How many bytes the text of a number has.
pub(crate) fn width(a: i128) -> usize
    ensures { result ≡ length (signed_decimal a) }
{
    let digits = digits_of(a.unsigned_abs());
    if a < 0 {
        return digits + 1;
    }
    digits
}
