// One amount of a list made more or less.
ghost use Rattle.std.specs.Prelude.{◌≡◌, ◌<◌, ◌^◌, length, pos, ◌+ℤ◌, ◌-ℤ◌, ◌≤ℤ◌, slice_set};
ghost use Rattle.sfm_cells.specs.Splits.{amount_at};

/// Adds to an amount of a list.
pub fn put(to: &mut [i128], k: usize, a: i128)
    requires place { k < length to.old }
    requires low { pos 0 ≤ℤ (amount_at to.old k +ℤ a +ℤ pos (10 ^ 32)) }
    requires high { (amount_at to.old k +ℤ a) ≤ℤ pos (10 ^ 32) }
    ensures { to.new ≡ slice_set to.old k (amount_at to.old k +ℤ a) }
{
    to[k] += a;
}

/// Takes an amount from one that is no less.
pub fn take(from: &mut [i128], k: usize, a: i128)
    requires place { k < length from.old }
    requires low { pos 0 ≤ℤ a }
    requires enough { a ≤ℤ amount_at from.old k }
    ensures { from.new ≡ slice_set from.old k (amount_at from.old k -ℤ a) }
{
    from[k] -= a;
}
