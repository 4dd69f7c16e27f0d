// A walk over the terms of an instance, which tells the label of each: the number of its line, and its layer in a line that
// has layers. A step takes constant time and no memory.
ghost use Rattle.std.specs.Prelude.{◌≡◌, ℕ, ◌+◌, ◌<◌, ◌≤◌, length, slice_index_or};
ghost use Rattle.sfm_cert.specs.{Labels.{labels_of}, Spots.{StandsAt}};

/// Where a term stands among the lines of an instance.
#[derive(Clone, Copy)]
pub struct Spot {
    /// How many lines stand before its line.
    pub before: usize,
    /// Its layer, counted from 1, or 0 where it is the one term of its line.
    pub layer: usize,
}

impl Spot {
    /// The first term of the line behind so many.
    fn first_behind(lines: &[usize], before: usize) -> Spot
        ensures before { result.before ≡ before }
        ensures plain { slice_index_or lines.now before 0 ≡ 0 → result.layer ≡ 0 }
        ensures layered { 0 < slice_index_or lines.now before 0 → result.layer ≡ 1 }
    {
        if before < lines.len() && lines[before] > 0 {
            return Spot { before, layer: 1 };
        }
        Spot { before, layer: 0 }
    }

    /// The first term of lines with so many layers, 0 for one without.
    pub fn first(lines: &[usize]) -> Spot
        ensures { StandsAt lines.now 0 result }
    {
        Spot::first_behind(lines, 0)
    }

    /// The term behind this one.
    pub fn next(self, lines: &[usize]) -> Spot
        requires { self.before < length lines.now }
        ensures { (i : ℕ) → StandsAt lines.now i self → i < length (labels_of lines.now)
            → StandsAt lines.now (i + 1) result }
    {
        if self.layer < lines[self.before] {
            return Spot {
                before: self.before,
                layer: self.layer + 1,
            };
        }
        Spot::first_behind(lines, self.before + 1)
    }
}
