// Slopes: numbers over numbers in lowest terms. A slope p/q is divided by the greatest common divisor of both, which
// leaves the same slope and no common divisor but 1. Two slopes compare as their cross products do, for which no
// division is needed; with the bounds here no product exceeds 10^36.
ghost use Rattle.std.specs.{Prelude.{◌≡◌, ◌↔◌, ℕ, ◌≤◌, ◌<◌, ℤ, unsigned_abs, pos, ◌*ℤ◌, ◌≤ℤ◌}, Int.{IsGcd, ◌∣◌}};
ghost use Rattle.sfm_spec.specs.{Slopes.{IsLowest, IsSameSlope, IsLowerSlope}, Bounds.{IsEntry, IsFactor}};

use std::cmp::Ordering;

/// The number `num / den`, in lowest terms.
#[derive(Clone, Copy, PartialEq, Eq)]
pub struct Slope {
    /// From -10^30 to 10^30.
    pub num: i128,
    /// From 1 to 1,000,000.
    pub den: i128,
    pub ghost lowest: { IsLowest num den },
    pub ghost entry: { IsEntry num },
    pub ghost factor: { IsFactor den },
}

impl Slope {
    /// The slope `p / q`, for q from 1 to 1,000,000 and p from -10^30 to 10^30.
    pub fn new(p: i128, q: i128) -> Slope
        requires entry { IsEntry p }
        requires factor { IsFactor q }
        ensures lowest { IsLowest result.num result.den }
        ensures same { IsSameSlope p q result.num result.den }
    {
        let divisor = greatest_divisor(p.unsigned_abs(), q.unsigned_abs());
        Slope {
            num: quotient(p, divisor),
            den: quotient(q, divisor),
        }
    }

    /// Whether this slope is less than, the same as or greater than the other.
    pub fn compare(&self, other: &Slope) -> Ordering
        ensures less { (result ≡ Ordering.Less) ↔ IsLowerSlope self.now.num self.now.den
            other.now.num other.now.den }
        ensures equal { (result ≡ Ordering.Equal) ↔ IsSameSlope self.now.num self.now.den
            other.now.num other.now.den }
        ensures greater { (result ≡ Ordering.Greater) ↔ IsLowerSlope other.now.num other.now.den
            self.now.num self.now.den }
    {
        let mine = product(self.num, other.den);
        let theirs = product(other.num, self.den);
        mine.cmp(&theirs)
    }
}

// The greatest number that divides both, by Euclid's algorithm.
fn greatest_divisor(a: u128, b: u128) -> u128
    ensures { IsGcd a b result }
{
    let mut x = a;
    let mut y = b;
    while y != 0 {
        let rest = x % y;
        x = y;
        y = rest;
    }
    x
}

// What a is, divided by one of its divisors.
fn quotient(a: i128, divisor: u128) -> i128
    requires some { 0 < divisor }
    requires small { divisor ≤ 1000000 }
    requires divides { divisor ∣ unsigned_abs a }
    ensures { (pos divisor *ℤ result) ≡ a }
{
    a / divisor as i128
}

// A numerator times a denominator.
fn product(num: i128, den: i128) -> i128
    requires entry { IsEntry num }
    requires factor { IsFactor den }
    ensures { result ≡ (num *ℤ den) }
{
    num * den
}
