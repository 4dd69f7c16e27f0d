// A split: for each demand the amounts on the slots of its list, in their order.
ghost use Rattle.std.specs.Prelude.{◌≡◌, ◌<◌, ◌==◌, length, IfOk};
ghost use Rattle.sfm_cells.specs.{Splits.{row_at}, Cells.{joined, cut}};

use sfm_base::{Lists, Memory, Rows};
use std::alloc::Global;
use std::marker::Model;

/// For each demand the amounts on its slots, seen as a list of lists.
#[derive(Drop)]
pub struct Split {
    rows: Rows,
}

impl Model for Split {
    ghost use Rattle.std.specs.Prelude.{List, ℤ};

    ghost Value = { List (List ℤ) };

    ghost view = { λ s. s.rows };
}

impl Split {
    /// How many demands there are.
    pub fn len(&self) -> usize
        ensures { result ≡ length self.now }
    {
        self.rows.len()
    }

    /// Whether there are no demands.
    pub fn is_empty(&self) -> bool
        ensures { result ≡ (length self.now == 0) }
    {
        self.rows.is_empty()
    }

    /// The amounts of the demand i.
    pub fn row(&self, i: usize) -> &[i128]
        requires { i < length self.now }
        ensures { result.now ≡ row_at self.now i }
    {
        self.rows.row(i)
    }

    /// The amounts on the cells, cut into rows as long as the lists.
    pub(crate) fn cut(alloc: Global, lists: &Lists, y: &[i128]) -> Result<Split, Memory>
        requires { length y.now ≡ length (joined lists.now) }
        ensures { IfOk result (λ r. r ≡ cut lists.now y.now) }
    {
        let mut rows = Rows::new(alloc);
        let mut at = 0;
        for i in 0..lists.len() {
            let end = at + lists.at(i).len();
            rows.push(&y[at..end])?;
            at = end;
        }
        Ok(Split { rows })
    }
}
