// What is kept beside a base of a graphic term: a split in the test of one vertex, its root. At a base there is a split for each
// root, so a split can be brought to another root from where it stands. What an edge may get is told with the root at an end of it;
// and so it is of an edge that has room to another one, with the root at an end of that. A room leaves a spare split, from which an
// exchange goes on.
ghost use Rattle.std.specs.Prelude.{◌≡◌, length, IfOk, None};
ghost use Rattle.sfm_matroid.specs.Notes.{AreBeside, CanMultiply, demands_times};

use sfm_base::Memory;
use sfm_matroid::SplitPair;
use std::alloc::Global;

/// The split of a base in the test of a vertex, and the split that the last room left, of whatever amounts, with its root.
pub struct RootSplit {
    pub pair: SplitPair,
    pub root: usize,
    pub spare_root: usize,
}

// Written out, so that letting one go is one step, which is proved here once.
impl Drop for RootSplit {
    fn drop(self) {
        let Self {
            pair: _,
            root: _,
            spare_root: _,
        } = self;
    }
}

impl RootSplit {
    /// The split m times, with the same root and no spare one.
    ///
    /// # Errors
    ///
    /// `Memory` where there is none.
    pub(crate) fn times(&self, alloc: Global, m: i128) -> Result<RootSplit, Memory>
        requires { CanMultiply m self.now.pair.kept.demand }
        ensures kept { IfOk result (λ r. r.pair.kept.demand
            ≡ demands_times m self.now.pair.kept.demand) }
        ensures spare { IfOk result (λ r. AreBeside r.pair) }
        ensures near { IfOk result (λ r. r.pair.near ≡ None) }
        ensures root { IfOk result (λ r. r.root ≡ self.now.root) }
    {
        let pair = self.pair.times(alloc, m)?;
        Ok(RootSplit {
            pair,
            root: self.root,
            spare_root: self.root,
        })
    }

    /// Writes another split over the same lists m times, with its root, in place of this one; the spare one stays.
    pub(crate) fn copy_times(&mut self, m: i128, from: &RootSplit)
        requires multiple { CanMultiply m from.now.pair.kept.demand }
        requires lists { self.old.pair.kept.demand.lists ≡ from.now.pair.kept.demand.lists }
        requires slots { length self.old.pair.kept.demand.capacities
            ≡ length from.now.pair.kept.demand.capacities }
        requires spare { AreBeside self.old.pair }
        ensures kept { self.new.pair.kept.demand ≡ demands_times m from.now.pair.kept.demand }
        ensures spare { AreBeside self.new.pair }
        ensures near { self.new.pair.near ≡ None }
        ensures root { self.new.root ≡ from.now.root }
    {
        self.pair.copy_times(m, &from.pair);
        self.root = from.root;
    }
}
