//! What an act of a node did, in the form that its trace needs.
ghost use Rattle.std.specs.Prelude.{◌≡◌, None};
ghost use Rattle.replay_node.specs.Did.{ending_by};

use crate::message::{FitPublishRequest, SentMessage};
use std::rc::Rc;
use trace_text::Ending;
use world_model::Cause;

/// What an act has brought about that was taken.
#[derive(Drop)]
pub struct Effects {
    /// The term whose election the node has won.
    pub won: Option<u64>,
    /// The publication that is committed.
    pub committed: Option<Rc<FitPublishRequest>>,
    pub sends: Option<SentMessage>,
}

/// What an act of a node did.
#[derive(Drop)]
pub enum Did {
    Taken(Effects),
    Refused(Cause),
    /// An earlier act met a fault of the disk.
    Stopped,
    /// The disk failed.
    Disk,
    /// The node crashed inside the act.
    Crashed,
    /// The node is down, and did nothing.
    Down,
}

impl Did {
    /// An act that was taken, sends this, and neither won nor committed anything.
    pub fn sends(sends: Option<SentMessage>) -> Did
        ensures { result ≡ Did.Taken (record { won = None; committed = None; sends = sends }) }
    {
        Did::Taken(Effects {
            won: None,
            committed: None,
            sends,
        })
    }

    /// How the act ended, where the node is up.
    pub fn ending(&self) -> Option<Ending>
        ensures { result ≡ ending_by self.now }
    {
        match self {
            Did::Taken(_) => Some(Ending::Taken),
            Did::Refused(cause) => Some(Ending::Refused(*cause)),
            Did::Stopped => Some(Ending::Stopped),
            Did::Disk => Some(Ending::Disk),
            Did::Crashed => Some(Ending::Crashed),
            Did::Down => None,
        }
    }
}
