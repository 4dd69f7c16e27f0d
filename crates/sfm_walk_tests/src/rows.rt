// Whether the entries of rows of bases are within the bounds.
ghost use Rattle.std.specs.{Prelude.{◌<◌, ℕ, IsTrue}, List.{All}};
ghost use Rattle.sfm_spec.specs.Bounds.{IsEntry};

use sfm_base::Rows;
use sfm_trial::are_entries;

/// Whether each entry of all rows has a magnitude of at most 10^30.
pub fn are_small(rows: &Rows) -> bool
    ensures { IsTrue result → All (λ x. All IsEntry x) rows.now }
{
    for i in 0..rows.len() {
        if !are_entries(rows.row(i)) {
            return false;
        }
    }
    true
}
