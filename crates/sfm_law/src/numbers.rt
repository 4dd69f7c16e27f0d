// Products and sums of the numbers that a term and its bases are made of.
ghost use Rattle.std.specs.{Prelude.{◌≡◌, ◌↔◌, ◌<◌, ◌≤◌, ◌^◌, IsTrue, length, nat_abs, slice_index_or, ℤ, ◌*ℤ◌, ◌-ℤ◌, ◌≤ℤ◌, pos}, Int.{int_min}, List.{All}};
ghost use Rattle.sfm_spec.specs.Bounds.{IsAtMost, IsEntry, IsFactor, IsGiven, total_of};

/// The magnitude of a number.
pub fn magnitude(w: i128) -> i128
    requires { IsGiven w }
    ensures { result ≡ pos (nat_abs w) }
{
    if w < 0 { -w } else { w }
}

/// A factor times a number.
pub fn product(q: i128, w: i128) -> i128
    requires factor { IsFactor q }
    requires given { IsAtMost (10 ^ 21) w }
    ensures { result ≡ q *ℤ w }
{
    q * w
}

/// The sum of the entries.
pub fn sum_of(x: &[i128]) -> i128
    requires few { length x.now ≤ 256 }
    requires small { All IsEntry x.now }
    ensures { result ≡ total_of x.now }
{
    let mut sum = 0;
    for a in x {
        sum += *a;
    }
    sum
}

/// Whether the entries add to a number.
pub fn has_sum(x: &[i128], sum: i128) -> bool
    requires few { length x.now ≤ 256 }
    requires small { All IsEntry x.now }
    ensures { IsTrue result ↔ (total_of x.now ≡ sum) }
{
    sum_of(x) == sum
}

/// Whether each entry is from 0 to a number.
pub fn are_within(x: &[i128], most: i128) -> bool
    ensures { IsTrue result ↔ All (λ a. (pos 0 ≤ℤ a) × (a ≤ℤ most)) x.now }
{
    x.iter().all(|a| 0 <= *a && *a <= most)
}

/// What v has, or what u lacks of a number where that is less.
pub fn least_left(x: &[i128], u: usize, v: usize, most: i128) -> i128
    requires small { All IsEntry x.now }
    requires most { IsAtMost (10 ^ 27) most }
    requires from { u < length x.now }
    requires onto { v < length x.now }
    ensures { result ≡ int_min (slice_index_or x.now v (pos 0))
        (most -ℤ slice_index_or x.now u (pos 0)) }
{
    let left = most - x[u];
    x[v].min(left)
}
