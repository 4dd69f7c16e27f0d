// The value that bases prove: the sum of min(z, 0) over all places. With the magnitudes of z bounded in all, no sum on
// the way exceeds that bound.
ghost use Rattle.std.specs.Prelude.{◌≡◌, ◌^◌, ℤ, length, slice_index_or, pos, ◌≤ℤ◌};
ghost use Rattle.sfm_spec.specs.{Sets.{magnitudes}, Families.{deficit}};

/// The sum of min(z, 0).
pub fn deficit_of(z: &[i128]) -> i128
    requires { magnitudes z.now ≤ℤ pos (10 ^ 37) }
    ensures { result ≡ deficit (length z.now) (λ e. slice_index_or z.now e (pos 0)) }
{
    let mut sum = 0;
    for a in z {
        sum += (*a).min(0);
    }
    sum
}
