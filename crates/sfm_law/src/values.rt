// What the kinds of terms do with lists of numbers: the greatest magnitude of some, the entries of a base one place after
// another, and the places that have more than a number.
ghost use Rattle.std.specs.{Prelude.{◌≡◌, ◌≢◌, ◌↔◌, ℕ, ◌<◌, length, slice_index_or, pos, IsTrue}, List.{All}};
ghost use Rattle.sfm_spec.specs.{Bounds.{IsEntry, IsGiven}, Sets.{Has}};
ghost use Rattle.sfm_law.specs.Values.{greatest, IsOver};

use crate::numbers::magnitude;
use sfm_base::Set;

/// The greatest magnitude of the numbers.
pub fn greatest_magnitude(values: &[i128]) -> i128
    requires { All IsGiven values.now }
    ensures { result ≡ greatest values.now }
{
    let mut most = 0;
    for value in values {
        most = magnitude(*value).max(most);
    }
    most
}

/// Writes what each place gets.
pub fn write_each<F: Fn(usize) -> i128>(x: &mut [i128], share: F)
    requires { (j : ℕ) → j < length x.old → F.pre share j }
    ensures places { length x.new ≡ length x.old }
    ensures shares { (j : ℕ) → j < length x.old → F.post share j (slice_index_or x.new j (pos 0)) }
{
    for (j, a) in x.iter_mut().enumerate() {
        *a = share(j);
    }
}

/// Whether a number is above a bar, if there is one.
fn is_over(bar: Option<i128>, a: i128) -> bool
    ensures { IsTrue result ↔ IsOver bar a }
{
    match bar {
        None => true,
        Some(bar) => a > bar,
    }
}

/// Writes the places whose entries are above a bar, if there is one.
pub fn put_over(x: &[i128], bar: Option<i128>, to: &mut Set)
    requires small { All IsEntry x.now }
    requires room_for_answer { length to.old ≡ length x.now }
    ensures places { length to.new ≡ length to.old }
    ensures over { (v : ℕ) → v < length x.now → Has to.new v
        ↔ IsOver bar (slice_index_or x.now v (pos 0)) }
{
    for (v, a) in x.iter().enumerate() {
        to.put(v, is_over(bar, *a));
    }
}

/// Writes the places other than u whose entries are above a bar, if there is one.
pub fn put_others_over(x: &[i128], u: usize, bar: Option<i128>, to: &mut Set)
    requires small { All IsEntry x.now }
    requires from { u < length x.now }
    requires room_for_answer { length to.old ≡ length x.now }
    ensures places { length to.new ≡ length to.old }
    ensures over { (v : ℕ) → v < length x.now → Has to.new v
        ↔ ((v ≢ u) × IsOver bar (slice_index_or x.now v (pos 0))) }
{
    put_over(x, bar, to);
    to.remove(u);
}
