// The first increment of listed numbers that is above the one before.
ghost use Rattle.std.specs.{Prelude.{◌≡◌, ◌↔◌, ◌≤◌, ◌*◌, ◌^◌, length, IsTrue, MatchOption}, List.{All}};
ghost use Rattle.sfm_spec.specs.Bounds.{IsAtMost, IsGiven};
ghost use Rattle.sfm_concave.specs.ConcaveLaws.{increment, RisesAt, IsFirstRise, NeverRises};

/// What the number of the count `at` adds to the one before.
fn added(values: &[i128], at: usize) -> i128
    requires given { All IsGiven values.now }
    requires low { 1 ≤ at }
    requires high { at ≤ length values.now }
    ensures value { result ≡ increment values.now at }
    ensures small { IsAtMost (2 * 10 ^ 18) result }
{
    if at == 1 {
        return values[0];
    }
    values[at - 1] - values[at - 2]
}

/// Whether increment number `at` is above the one before.
fn rises(values: &[i128], at: usize) -> bool
    requires given { All IsGiven values.now }
    requires low { 2 ≤ at }
    requires high { at ≤ length values.now }
    ensures { IsTrue result ↔ RisesAt values.now at }
{
    added(values, at) > added(values, at - 1)
}

/// The first increment, counted from 1, that is above the one before, if there is one.
pub(crate) fn first_rise(values: &[i128]) -> Option<usize>
    requires { All IsGiven values.now }
    ensures { MatchOption result (NeverRises values.now) (IsFirstRise values.now) }
{
    for at in 2..=values.len() {
        if rises(values, at) {
            return Some(at);
        }
    }
    None
}
