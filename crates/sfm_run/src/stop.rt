// Why a command makes nothing of what it was asked for: a text that it names is refused, and that is due in place of an answer; or
// nothing is written at all.
ghost use Rattle.std.specs.Prelude.{◌≡◌};
ghost use Rattle.sfm_run.specs.Preparing.{settled};

use sfm_base::Memory;
use sfm_due::{Due, Status};

/// Why what a command asks for is not made.
#[derive(Drop)]
pub enum Stop {
    /// A text has a fault: what is due is its refusal.
    Faulty(Due),
    /// Nothing is due, and the call ends with this status.
    Failed(Status),
}

impl From<Status> for Stop {
    ghost use Rattle.sfm_run.specs.declared.stop.Stop.TheVariants.{Failed};

    ghost from_gives = { λ status stop. stop ≡ Failed status };

    fn from(status: Status) -> Self {
        Stop::Failed(status)
    }
}

impl From<Memory> for Stop {
    ghost use Rattle.sfm_run.specs.declared.stop.Stop.TheVariants.{Failed};
    ghost use Rattle.sfm_due.specs.declared.status.Status.TheVariants.{Memory};

    ghost from_gives = { λ _ stop. stop ≡ Failed Memory };

    fn from(_: Memory) -> Self {
        Stop::Failed(Status::Memory)
    }
}

/// What is due in the end: where a text has a fault, its refusal.
pub fn settle(made: Result<Due, Stop>) -> Result<Due, Status>
    ensures { result ≡ settled made }
{
    match made {
        Ok(due) => Ok(due),
        Err(Stop::Faulty(due)) => Ok(due),
        Err(Stop::Failed(status)) => Err(status),
    }
}
