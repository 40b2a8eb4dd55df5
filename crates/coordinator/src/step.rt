//! A whole event: what it shows is given out only sealed, once its last write was synced.
ghost use Rattle.std.specs.Prelude.{◌≡◌, ◌≤◌, ◌↔◌, false, true, is_ok, Err, IfOk, OnOk};
ghost use Rattle.policy_model.specs.declared.events.Event.TheVariants.{Start};
ghost use Rattle.policy_model.specs.Entries.{Life, log_of};
ghost use Rattle.policy_model.specs.Fitting.{IsFitEvent};
ghost use Rattle.policy_model.specs.Follows.{items_of};
ghost use Rattle.coordinator.specs.Limits.{IsFew, IsWithin};
ghost use Rattle.coordinator.specs.Lives.{Lasts, StandsForLife, Survives};
ghost use Rattle.coordinator.specs.Showing.{shown_in, nothing_shown};
ghost use Rattle.coordinator.specs.Steps.{Seals, Stays, Steps, drops_for, frames_for, deeds_for};
ghost use Rattle.coordinator.specs.declared.step.StepError.TheVariants as step_error;
ghost use Rattle.coordinator.specs.Views.{IsReady};

use crate::coordinator::{Coordinator, EventError};
use crate::output::{Listed, Output};
use crate::sorting::{sort_drops, sort_frames};
use master_tasks::Replies;
use policy_model::{Deed, Event, MemberDrop, law_event_holds_set, law_event_holds_settings};
use state_journal::Keeper;
use std::alloc::{AllocError, Global};
use voting_config::MAX_IDS;
use wire_frames::Frame;

/// How many deeds an event has at most: three acts and as many modes.
const MOST_DEEDS: usize = 6;

/// How many members a tick drops at most: those that fail their checks, and those that lag.
const TICK_DROPS: usize = 2 * MAX_IDS;

/// How many frames a tick has room for: to peers that are asked for peers, for pre-votes, and to start joins.
const TICK_FRAMES: usize = 3 * MAX_IDS;

/// How many frames a frame's event has room for: to all members, and one more.
const EVENT_FRAMES: usize = MAX_IDS + 1;

/// How many deeds the end of a connection has at most: a state that is refused, and a mode.
const LOSS_DEEDS: usize = 2;

/// What an event comes to beside frames and replies.
#[derive(Drop)]
pub struct Entries {
    pub event: Event,
    /// The acts and the changes of mode, in order.
    pub deeds: Listed<Deed>,
    /// Whom a leader drops, by ascending member.
    pub drops: Listed<MemberDrop>,
}

/// What an event showed, after its last write. Nobody but this crate makes one.
#[derive(Drop)]
pub struct Sealed {
    entries: Entries,
    sends: Listed<Frame>,
    replies: Replies,
}

impl Sealed {
    ghost use Rattle.std.specs.Prelude.{◌≡◌};

    /// What the event came to beside frames and replies.
    pub fn entries(&self) -> &Entries
        ensures { result.now ≡ self.now.entries }
    {
        &self.entries
    }

    /// The frames to be sent, by ascending receiver.
    pub fn sends(&self) -> &Listed<Frame>
        ensures { result.now ≡ self.now.sends }
    {
        &self.sends
    }

    /// The replies to clients, in order.
    pub fn replies(&self) -> &Replies
        ensures { result.now ≡ self.now.replies }
    {
        &self.replies
    }

    /// What the event came to, the frames by ascending receiver, and the replies in order: given up without a copy.
    pub fn into_parts(self) -> (Entries, Listed<Frame>, Replies)
        ensures { result ≡ (self.entries, self.sends, self.replies) }
    {
        let Sealed {
            entries,
            sends,
            replies,
        } = self;
        (entries, sends, replies)
    }
}

/// Why an event gave nothing to send.
#[derive(Drop)]
pub enum StepError {
    /// An earlier event met a fault of the disk, and the journal was not opened since.
    Stopped,
    /// Memory was lacking, and nothing was done.
    Memory,
    /// The disk failed: its count of faults rose. These are the entries up to the act that met the fault.
    Disk(Entries),
}

// Nothing shown, and no room.
fn no_output(alloc: Global) -> Output
    ensures { shown_in result ≡ nothing_shown }
{
    Output {
        alloc,
        deeds: Listed::new(alloc),
        drops: Listed::new(alloc),
        frames: Listed::new(alloc),
        replies: Replies::new(alloc),
    }
}

// Room for what an event shows at most, but for replies and for what comes of a client's line. At the start no memory is taken.
pub(crate) fn make_lists(out: &mut Output, event: &Event) -> Result<(), AllocError>
    ensures shown { shown_in out.new ≡ shown_in out.old }
    ensures deeds { OnOk result (deeds_for event.now ≤ out.new.deeds.room) }
    ensures drops { OnOk result (drops_for event.now ≤ out.new.drops.room) }
    ensures frames { OnOk result (frames_for event.now ≤ out.new.frames.room) }
    ensures start { event.now ≡ Start → is_ok result ≡ true }
{
    let (deeds, drops, frames) = match event {
        Event::Start | Event::Client { .. } => return Ok(()),
        Event::Tick { .. } => (MOST_DEEDS, TICK_DROPS, TICK_FRAMES),
        Event::Frame(_) => (MOST_DEEDS, 0, EVENT_FRAMES),
        Event::Disconnected { .. } => (LOSS_DEEDS, 1, MAX_IDS),
    };
    out.make_lists(deeds, drops, frames)?;
    Ok(())
}

// What was shown, in its order.
pub(crate) fn seal(
    ended: Result<(), EventError>,
    event: Event,
    output: Output,
) -> Result<Sealed, StepError>
    ensures { Seals ended event (shown_in output) result }
{
    let Output {
        alloc: _,
        deeds,
        drops,
        frames,
        replies,
    } = output;
    let mut drops = drops;
    sort_drops(&mut drops);
    let entries = Entries {
        event,
        deeds,
        drops,
    };
    match ended {
        Ok(()) => {
            let mut sends = frames;
            sort_frames(&mut sends);
            Ok(Sealed {
                entries,
                sends,
                replies,
            })
        }
        Err(EventError::Struck) => Err(StepError::Disk(entries)),
        Err(EventError::Memory) => Err(StepError::Memory),
    }
}

impl<K: Keeper> Coordinator<K> {
    /// What the node does at an event, by its policy. All memory is taken before the first act, at the start none. What is
    /// sealed may be sent: all that was written for it is synced.
    ///
    /// `Memory`: nothing was done. `Disk`: the disk failed, and its entries go up to the act that met the fault. `Stopped`
    /// exactly after a `Disk`: only a new opening goes on.
    pub fn step(&mut self, alloc: Global, event: Event) -> Result<Sealed, StepError>
        requires ready { IsReady self.old }
        requires fit { IsFitEvent event }

        // The deeds, drops, frames and replies are those of the policy, for each life that the node stood for; and it stands
        // for the life with this entry.
        ensures does { (life : Life) → StandsForLife K.Keeper self.old life
            → Steps K.Keeper self.old self.new event (items_of self.old.settings (log_of life) event) result }

        // Whatever it stood for: its settings stay, and the disk's count of faults never falls. At Disk that count rose, and
        // the node is halted; at Memory and Stopped nothing changed.
        ensures stays { Stays K.Keeper self.old self.new result }

        // A crash at any moment of it leaves the record of the acts so far, without the act in hand or with it.
        ensures crash { Survives K.Keeper self.old self.new event }

        // Few deeds and replies; and where the node was within the limits, so are its frames, and the node after it.
        ensures within { IfOk result (λ sealed. IsWithin K.Keeper self.old self.new sealed) }

        // At most 190 frames, and fewer but at a tick, where the node's sets were as small as sets in memory are; so they stay.
        ensures few { IfOk result (λ sealed. IsFew K.Keeper self.old self.new event sealed) }

        // After Ok, where the keeper tells, a crash leaves the record of the acts with this event and nothing else.
        ensures durable { IfOk result (λ sealed. Lasts K.Keeper self.old self.new event) }

        // The start never lacks memory: it is done, unless the node met a fault before.
        ensures start { event ≡ Start → K.has_stopped self.old.core.keeper ≡ false → is_ok result ≡ true }
        ensures start_memory { event ≡ Start → result ≡ Err step_error.Memory → ⊥ }

        // A node that met a fault does nothing.
        ensures stopped { (result ≡ Err step_error.Stopped) ↔ (K.has_stopped self.old.core.keeper ≡ true) }
        ensures ready { IsReady self.new }
    {
        if self.core.keeper().stopped() {
            return Err(StepError::Stopped);
        }
        let mut output = no_output(alloc);
        let Ok(()) = make_lists(&mut output, &event) else {
            return Err(StepError::Memory);
        };
        // For the proof alone: what the event, the settings in it and the queue are, by their types.
        law_event_holds_settings(&event);
        law_event_holds_set(&event);
        let _ = self.tasks.open_count();
        let ended = self.take_event(&mut output, &event);
        seal(ended, event, output)
    }
}
