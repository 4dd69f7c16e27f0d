// What a split that is kept tells of its demands: that they can be met.
ghost use Rattle.sfm_cells.specs.Splits.{CanBeMet};

use crate::kept::Kept;

impl Kept {
    /// The demands are met, so they can be: a law, with nothing to do.
    pub fn are_met(&self)
        ensures { CanBeMet self.now.demand.demands self.now.demand.lists
            self.now.demand.capacities }
    {
        let _ = self.demand.demands();
    }
}
