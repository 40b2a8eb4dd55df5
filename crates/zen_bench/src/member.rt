//! A node, and what is given to it.
ghost use Rattle.std.specs.Prelude.{◌≡◌, false, IfOk};
ghost use Rattle.policy_model.specs.Fitting.{IsFitEvent};
ghost use Rattle.coordinator.specs.Views.{IsReady};
ghost use Rattle.zen_bench.specs.Ready.{IsReady-prop};

use crate::fault::Fault;
use client_lines::Line;
use coordinator::{Coordinator, Sealed, StepError};
use node_bytes::is_fit;
use policy_model::{Event, Settings};
use state_journal::Keeper;
use std::alloc::Global;
use voting_config::NodeId;
use wire_frames::{BoxedFrame, Frame};

/// What is given to a node, of which its event can be made again.
#[derive(Clone, Copy)]
pub enum Given<'a> {
    Start,
    Tick { now: u64, word: u64 },
    Frame(&'a Frame),
    Line(&'a str),
}

// A host knows of each frame that it reads from bytes that it is within the limits.
fn frame_event(alloc: Global, frame: &Frame) -> Result<Event, Fault>
    ensures { IfOk result IsFitEvent }
{
    if !is_fit(frame) {
        return Err(Fault::Unexpected("a frame beyond the limits"));
    }
    let copy = BoxedFrame::of(alloc, frame.copy()?)?;
    Ok(Event::Frame(copy))
}

fn line_event(alloc: Global, text: &str) -> Result<Event, Fault>
    ensures { IfOk result IsFitEvent }
{
    let line = Line::of(Vec::from_slice(alloc, text.as_bytes())?);
    Ok(Event::Client { conn: 1, line })
}

// The event, anew.
fn event(alloc: Global, given: Given) -> Result<Event, Fault>
    ensures { IfOk result IsFitEvent }
{
    match given {
        Given::Start => Ok(Event::Start),
        Given::Tick { now, word } => Ok(Event::Tick { now, word }),
        Given::Frame(frame) => frame_event(alloc, frame),
        Given::Line(text) => line_event(alloc, text),
    }
}

/// A node.
#[derive(Drop)]
pub struct Member<K> {
    pub me: NodeId,
    node: Coordinator<K>,
    ghost ready: { IsReady node } by { IsReady-prop node },
}

impl<K: Keeper> Member<K> {
    /// A node over this keeper.
    pub fn open(alloc: Global, settings: Settings, keeper: K) -> Member<K>
        requires { K.has_stopped keeper ≡ false }
    {
        Member {
            me: settings.me,
            node: Coordinator::open(alloc, settings, keeper),
        }
    }

    /// Gives it to the node, and once more where an event found no memory, since that changed nothing.
    pub fn give(&mut self, alloc: Global, given: Given) -> Result<Sealed, Fault> {
        for _ in 0..2 {
            match self.node.step(alloc, event(alloc, given)?) {
                Ok(sealed) => return Ok(sealed),
                Err(StepError::Memory) => {}
                Err(_) => return Err(Fault::Unexpected("a disk failed")),
            }
        }
        Err(Fault::Unexpected("no memory at the second time"))
    }
}
