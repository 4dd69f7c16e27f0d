// The squares of a vector. All squares are at least 0, so no sum on the way is above the last one.
ghost use Rattle.std.specs.Prelude.{◌≡◌, ◌^◌, pos, ◌≤ℤ◌};
ghost use Rattle.sfm_squares.specs.Level.{squares};

/// The sum of the squares.
pub fn squares_of(z: &[i128]) -> i128
    requires { squares z.now ≤ℤ pos (10 ^ 30) }
    ensures { result ≡ squares z.now }
{
    let mut sum = 0;
    for a in z {
        sum += *a * *a;
    }
    sum
}
