// What the minimum, the search for the breakpoints and the runs for their sections share: three exchange graphs of the terms and a
// shift, which are made once and used again at each slope. The rows at the first bases hang on no slope, so one graph stays
// at these, and no term is asked for them again. One goes from slope to slope at 64 times the terms, whatever the denominators
// are: so it comes within a 64th of each slope, though slopes may lie close together where sizes are large.
ghost use Rattle.std.specs.{Prelude.{◌≡◌, ◌^◌, length, map, pos, ◌≤ℤ◌, IfOk, OnOk}, List.{All}};
ghost use Rattle.sfm_spec.specs.{Bounds.{AreBounded, IsAtMost, IsEntry}, Families.{meanings, AreBases, Prove, even_shift, sized_shift}, Sets.{magnitudes}, Walks.{IsFewWalks}};
ghost use Rattle.sfm_sizes.specs.Sizes.{AreElementSizes};
ghost use Rattle.sfm_exchange.specs.Graph.{IsWhole};
ghost use Rattle.sfm_slope.specs.Searches.{IsSearch};

use crate::rows::first_rows;
use sfm_base::{Memory, Rows};
use sfm_exchange::{Graph, ask_claimed, graph_at, graph_by};
use sfm_law::Term;
use sfm_sizes::write_sized;
use sfm_walk::improve_from_start;
use std::alloc::Global;

/// The factor of the graph that goes from slope to slope.
pub const GRAIN: i128 = 64;

/// Three exchange graphs of the terms over one ground.
pub struct Search<N> {
    /// Where lists are made.
    pub alloc: Global,
    /// Of the terms themselves, at their first bases.
    pub first: Graph<N>,
    /// Of `GRAIN` times the terms, at the bases of the slope that was looked at last.
    pub warm: Graph<N>,
    /// Of some factor times the terms, made one at other bases before each use.
    pub cold: Graph<N>,
    /// A number for each place of the ground.
    pub shift: Vec<i128>,
}

// Written out, so that letting one go is one step, which is proved here once.
impl<N: Drop> Drop for Search<N> {
    fn drop(self) {
        let Self {
            alloc: _,
            first: _,
            warm: _,
            cold: _,
            shift: _,
        } = self;
    }
}

impl<N> Search<N> {
    /// A search over some terms on a ground of n places, at the first bases.
    ///
    /// # Errors
    ///
    /// `Memory` where there is none.
    pub fn new<T: Term<Note = N>>(alloc: Global, terms: &[T], n: usize) -> Result<Search<N>, Memory>
        requires bounded { AreBounded n (map T.places terms.now) (map T.size_of terms.now) }
        ensures { IfOk result (IsSearch T.Term terms.now n) }
    {
        let shift = vec![in alloc; 0i128; n]?;
        let first = graph_at(alloc, terms, n, 1, first_rows(alloc, terms)?)?;
        let warm = graph_by(alloc, terms, n, GRAIN, &first)?;
        let cold = graph_by(alloc, terms, n, 1, &first)?;
        Ok(Search {
            alloc,
            first,
            warm,
            cold,
            shift,
        })
    }

    /// Bases of the terms that prove the minimum, reached from the first bases by few walks. One graph is that at these bases,
    /// with all its rows asked.
    ///
    /// # Errors
    ///
    /// `Memory` where there is none.
    pub fn optimum<T: Term<Note = N>>(&mut self, terms: &[T]) -> Result<Rows, Memory>
        requires search { IsSearch T.Term terms.now (length self.old.shift.items) self.old }
        ensures search { OnOk result (IsSearch T.Term terms.now (length self.old.shift.items)
            self.new) }
        ensures cold { OnOk result (IsWhole T.Term terms.now (length self.old.shift.items) (pos 1)
            self.new.cold) }
        ensures same { IfOk result (λ r. r ≡ self.new.cold.bases) }
        ensures bases { IfOk result (AreBases (pos 1) (meanings T.places T.value_of terms.now)) }
        ensures small { IfOk result (λ r. All (λ x. All IsEntry x) r) }
        ensures proves { IfOk result (Prove (meanings T.places T.value_of terms.now)
            (length self.old.shift.items) (pos 1)
            (even_shift (length self.old.shift.items) (pos 0))) }
        ensures few { IfOk result (IsFewWalks (meanings T.places T.value_of terms.now)
            (length self.old.shift.items) (pos 1)
            (even_shift (length self.old.shift.items) (pos 0))
            (map (λ term. T.start_of term (pos 1)) terms.now)) }
    {
        self.shift.fill(0);
        improve_from_start(
            self.alloc,
            &mut self.cold,
            &self.first,
            terms,
            1,
            &self.shift,
        )?;
        ask_claimed(self.alloc, &mut self.cold, terms, 1)?;
        let bases = self.cold.bases.copy(self.alloc)?;
        Ok(bases)
    }
}

/// Makes a shift that of a slope with p above its line: p times the size of each element.
pub(crate) fn set_shift(shift: &mut Vec<i128>, sizes: &[i128], p: i128)
    requires sizes { AreElementSizes (length shift.old.items) sizes.now }
    requires small { IsAtMost (10 ^ 21) p }
    ensures shift { shift.new.items ≡ sized_shift sizes.now p }
    ensures places { length shift.new.items ≡ length sizes.now }
    ensures small { magnitudes shift.new.items ≤ℤ pos (10 ^ 27) }
{
    write_sized(shift, sizes, p);
}
