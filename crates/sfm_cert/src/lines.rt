// The line numbers of an answer text.
ghost use Rattle.std.specs.Prelude.{◌≡◌, ◌+◌, ◌≤◌};
ghost use Rattle.sfm_cert.specs.Answer.{line_at};

/// The line of a section, counted from 1, in a text with k block lines and j slope lines for m terms: section 0 is that
/// of 0/1, and section s that of slope s. Each count is at most 268,435,456.
pub fn line_of_at(k: usize, j: usize, m: usize, s: usize) -> usize
    requires blocks { k ≤ 268435456 }
    requires slopes { j ≤ 268435456 }
    requires terms { m ≤ 268435456 }
    requires section { s ≤ 268435456 }
    ensures { result ≡ line_at k j m s }
{
    5 + k + j + s * (m + 1)
}

/// The line of base i, counted from 1, of that section.
pub fn line_of_base(k: usize, j: usize, m: usize, s: usize, i: usize) -> usize
    requires blocks { k ≤ 268435456 }
    requires slopes { j ≤ 268435456 }
    requires terms { m ≤ 268435456 }
    requires section { s ≤ 268435456 }
    requires base { i ≤ 268435456 }
    ensures { result ≡ line_at k j m s + i }
{
    line_of_at(k, j, m, s) + i
}
