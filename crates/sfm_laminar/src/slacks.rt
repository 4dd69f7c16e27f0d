// What is kept beside a base, so that rooms and rows are told without a sum over the members of a group: what each group lacks,
// and the places that have something. An exchange changes what those groups lack that have one of its places, by its amount.
ghost use Rattle.std.specs.{Prelude.{◌≡◌, ◌≢◌, ◌↔◌, ◌<◌, ◌^◌, IsTrue, length, pos, ◌≤ℤ◌, if◌then◌else◌, IfOk, IfSome}, List.{All}};
ghost use Rattle.sfm_spec.specs.{Bounds.{IsEntry}, Terms.{exchanged}};
ghost use Rattle.sfm_laminar.specs.Slacks.{IsSupport};

use sfm_base::{Memory, Set};
use sfm_law::{Swap, put_over};
use std::alloc::Global;

/// What each group lacks, and the places that have something.
#[derive(Drop)]
pub struct Slacks {
    pub slacks: Vec<i128>,
    pub support: Set,
}

/// Whether an entry is something.
fn is_some(a: i128) -> bool
    ensures { IsTrue result ↔ (pos 1 ≤ℤ a) }
{
    a >= 1
}

/// An amount where it is had, and else nothing.
pub(crate) fn share(has: bool, a: i128) -> i128
    requires { pos 0 ≤ℤ a }
    ensures value { result ≡ (if has then a else pos 0) }
    ensures low { pos 0 ≤ℤ result }
    ensures high { result ≤ℤ a }
{
    if has { a } else { 0 }
}

/// Puts the places that have something.
fn put_support(x: &[i128], to: &mut Set)
    requires small { All IsEntry x.now }
    requires sized { length to.old ≡ length x.now }
    ensures { IsSupport x.now to.new }
{
    put_over(x, Some(0), to);
}

/// The places that have something.
pub(crate) fn support_of(alloc: Global, x: &[i128]) -> Result<Set, Memory>
    requires small { All IsEntry x.now }
    ensures { IfOk result (IsSupport x.now) }
{
    let mut support = Set::empty(alloc, x.len())?;
    put_support(x, &mut support);
    Ok(support)
}

/// Puts the places of another set, and no others.
fn put_set(s: &Set, to: &mut Set)
    requires { length to.old ≡ length s.now }
    ensures { to.new ≡ s.now }
{
    to.clear();
    to.union_with(s);
}

/// Puts the places that have something, by what is kept if there is something.
pub(crate) fn put_some(x: &[i128], note: Option<&Slacks>, to: &mut Set)
    requires small { All IsEntry x.now }
    requires noted { IfSome note (λ n. IsSupport x.now n.now.support) }
    requires sized { length to.old ≡ length x.now }
    ensures { IsSupport x.now to.new }
{
    match note {
        Some(note) => put_set(&note.support, to),
        None => put_support(x, to),
    }
}

/// Brings the places that have something up to an exchange.
pub(crate) fn move_support(x: &[i128], support: &mut Set, swap: &Swap)
    requires small { All IsEntry x.now }
    requires apart { swap.now.u ≢ swap.now.v }
    requires from { swap.now.u < length x.now }
    requires onto { swap.now.v < length x.now }
    requires low { pos 0 ≤ℤ swap.now.a }
    requires high { swap.now.a ≤ℤ pos (10 ^ 30) }
    requires before { IsSupport x.now support.old }
    ensures { IsSupport (exchanged x.now swap.now.u swap.now.v swap.now.a) support.new }
{
    support.put(swap.u, is_some(x[swap.u] + swap.a));
    support.put(swap.v, is_some(x[swap.v] - swap.a));
}
