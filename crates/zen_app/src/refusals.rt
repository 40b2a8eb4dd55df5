//! Why `rescue` writes no plan.
use rescue_plan::RescueRefused;
use schedule_text::BadSchedule;
use std::alloc::AllocError;
use voting_config::NodeId;

/// Why there is no rescue: the first of these that holds.
#[derive(Clone, Copy, Debug, PartialEq, Eq)]
pub enum NoRescue {
    /// The node is none of the schedule, or it is down or halted.
    NotUp(NodeId),
    /// An order of the node's disk has not come yet.
    Armed(NodeId),
    /// There is no plan for the nodes.
    NoPlan(RescueRefused),
    /// The schedule and the lines of the plan together are larger than a schedule is.
    Full,
}

/// Why no plan is given.
#[derive(Clone, Copy, Debug, PartialEq, Eq)]
pub enum RescueError {
    Refused(NoRescue),
    Memory,
}

impl From<AllocError> for RescueError {
    ghost use Rattle.std.specs.Prelude.{◌≡◌};
    ghost use Rattle.zen_app.specs.declared.refusals.RescueError.TheVariants as error;

    ghost from_gives = { λ _ e. e ≡ error.Memory };

    fn from(_e: AllocError) -> RescueError {
        RescueError::Memory
    }
}

/// Why no lines answer an input.
#[derive(Clone, Copy, Debug, PartialEq, Eq)]
pub enum NoAnswer {
    /// It is no schedule of level core.
    Bad(BadSchedule),
    Refused(NoRescue),
    Memory,
}
