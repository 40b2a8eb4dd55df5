//! One event of an open node, as far as its disk lets it.
ghost use Rattle.std.specs.Prelude.{IfOk};
ghost use Rattle.policy_model.specs.Fitting.{IsFitEvent};
ghost use Rattle.coordinator.specs.Views.{IsReady};
ghost use Rattle.schedule_replay.specs.EventEnds.{Ends};

use coordinator::{Coordinator, Entries, Sealed, StepError};
use policy_model::Event;
use state_journal::StateJournal;
use std::alloc::{AllocError, Global};
use zen_disk::{Fuse, MemDisks, Struck};

/// A node whose journal is open on a memory disk under a fuse.
pub type OpenNode = Coordinator<StateJournal<Fuse<MemDisks>>>;

/// How an event came to its end.
#[derive(Drop)]
pub enum Ended {
    /// All of it was done.
    Whole(Sealed),
    /// The disk failed at the last of these acts, by an order.
    Failed(Entries),
    /// The disk stopped inside the last of these acts, so the node crashed.
    Crashed(Entries),
    /// The disk had failed before, and nothing was done.
    Stopped,
}

/// The node does what its policy says at an event, as far as its disk lets it. The error means that memory ran out; a fault of the
/// disk that no order has made is one too.
pub fn step(node: &mut OpenNode, alloc: Global, event: Event) -> Result<Ended, AllocError>
    requires ready { IsReady node.old }
    requires fit { IsFitEvent event }
    ensures { IfOk result (λ ended. Ends node.old node.new event ended) }
{
    match node.step(alloc, event) {
        Ok(sealed) => Ok(Ended::Whole(sealed)),
        Err(StepError::Stopped) => Ok(Ended::Stopped),
        Err(StepError::Memory) => Err(AllocError),
        Err(StepError::Disk(entries)) => match node.keeper().disk().struck() {
            None => Err(AllocError),
            Some(Struck::Fault) => Ok(Ended::Failed(entries)),
            Some(Struck::Stop) => Ok(Ended::Crashed(entries)),
        },
    }
}
