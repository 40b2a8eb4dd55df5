//! A coordinator that gives the lines of each of its events.
ghost use Rattle.std.specs.Prelude.{◌≡◌, ◌≤◌, ℕ, Option, Some, None, false, IfSome};
ghost use Rattle.world_model.specs.declared.acts.Act.TheVariants.{Open};
ghost use Rattle.world_model.specs.Histories.{ContinuesUnlessFirst};
ghost use Rattle.coordinator.specs.Views.{IsReady};
ghost use Rattle.policy_model.specs.Entries.{Life, Opened, log_of};
ghost use Rattle.policy_model.specs.Events.{acts_of};
ghost use Rattle.node_loop.specs.Reporting.{AreLined, Reports};

use crate::event_node::{Done, EventNode, NotDone};
use crate::history::History;
use crate::lines::LastSent;
use coordinator::{Coordinator, Entries, Sealed};
use master_tasks::Outgoing;
use policy_model::{Event, Settings};
use state_journal::Keeper;
use std::alloc::{AllocError, Global};
use std::marker::PhantomData;
use std::mem;
use text::Text;
use trace_text::write_record;
use voting_config::NodeId;
use wire_frames::{Frame, FrameError};

/// The coordinator of a node, with what the lines need that say what it does: as much of it as the history has.
#[derive(Drop)]
pub struct Reporter<K: Keeper, H: History> {
    history: PhantomData<H>,
    me: NodeId,
    node: Coordinator<K>,
    // None once memory was lacking for the lines of an event: then there are none for later ones. None too where none are written.
    last_sent: Option<LastSent>,
    ghost ready: { IsReady node },
    ghost own: { me ≡ node.settings.me },
}

impl<K: Keeper, H: History> Reporter<K, H> {
    /// A node over what keeps its record and has not met a fault. Its first event is the start, which comes once.
    pub fn open(alloc: Global, settings: Settings, keeper: K) -> Reporter<K, H>
        requires { K.has_stopped keeper ≡ false }
        ensures keeper { result.node.core.keeper ≡ keeper }
        ensures stands { (life : Life) → ContinuesUnlessFirst (acts_of (log_of life)) (Open (K.record_of keeper))
            → Reports K.Keeper result.node result.last_sent settings (Opened life (K.record_of keeper)) }
    {
        Reporter {
            history: PhantomData,
            me: settings.me,
            node: Coordinator::open(alloc, settings, keeper),
            last_sent: Some(LastSent {
                published: None,
                number: 0,
            }),
        }
    }

    /// What keeps the node's record.
    pub fn keeper(&self) -> &K
        ensures { result.now ≡ self.now.node.core.keeper }
    {
        self.node.keeper()
    }

    /// What kept the node's record, given up by the node.
    pub fn into_keeper(self) -> K
        ensures { result ≡ self.node.core.keeper }
    {
        let Reporter {
            history: _,
            me: _,
            node,
            last_sent: _,
        } = self;
        node.into_keeper()
    }
}

// The lines of an event; what later ones need is kept.
fn report<H: History>(
    last_sent: &mut Option<LastSent>,
    alloc: Global,
    node: NodeId,
    entries: &Entries,
    frames: &[Frame],
    replies: &[Outgoing],
) -> Option<Text>
    ensures { AreLined H.lines node last_sent.old entries.now frames.now replies.now result last_sent.new }
{
    let kept = mem::replace(last_sent, None);
    if H::is_silent() {
        return Some(Text::new(alloc));
    }
    let Some(kept) = kept else {
        return None;
    };
    let mut kept = kept;
    let mut text = Text::new(alloc);
    let Ok(()) = H::write_entry(
        &mut text,
        alloc,
        node,
        &mut kept,
        &entries.event,
        entries.deeds.as_slice(),
        entries.drops.as_slice(),
        frames,
        replies,
    ) else {
        return None;
    };
    *last_sent = Some(kept);
    Some(text)
}

impl<K: Keeper, H: History> EventNode for Reporter<K, H> {
    ghost use Rattle.node_loop.specs.Reporting.{Reports, reports_idle, sent_of};
    ghost use Rattle.node_loop.specs.Texts.{opening_text};

    type Sealed = Sealed;

    ghost stands_for = { λ r s life. Reports K.Keeper r.node r.last_sent s life };

    ghost faults = { λ r. K.faults r.node.core.keeper };

    ghost told = { K.told };

    ghost moment = { λ r. K.moment r.node.core.keeper };

    ghost left_since = { λ r. K.left_since r.node.core.keeper };

    ghost output = { sent_of };

    ghost text = { H.lines };

    ghost opening = { opening_text };

    ghost idle = { λ r s life entry is stands. reports_idle _ r.node r.last_sent s life entry is stands };

    fn step(&mut self, alloc: Global, event: Event) -> Result<Done<Sealed>, NotDone> {
        match self.node.step(alloc, event) {
            Ok(sealed) => {
                let lines = report::<H>(
                    &mut self.last_sent,
                    alloc,
                    self.me,
                    sealed.entries(),
                    sealed.sends().as_slice(),
                    sealed.replies().as_slice(),
                );
                Ok(Done { sealed, lines })
            }
            Err(coordinator::StepError::Disk(entries)) => Err(NotDone::Disk(report::<H>(
                &mut self.last_sent,
                alloc,
                self.me,
                &entries,
                &[],
                &[],
            ))),
            Err(coordinator::StepError::Memory) => Err(NotDone::Memory),
            Err(coordinator::StepError::Stopped) => Err(NotDone::Stopped),
        }
    }

    fn opening_line(&self, alloc: Global) -> Result<Text, AllocError> {
        let mut text = Text::new(alloc);
        write_record(&mut text, self.me, self.node.keeper().kept())?;
        Ok(text)
    }

    fn bad_line(&self, alloc: Global, conn: u64, fault: FrameError) -> Result<Text, AllocError> {
        let mut text = Text::new(alloc);
        H::write_bad(&mut text, conn, fault)?;
        Ok(text)
    }

    fn gone_line(&self, alloc: Global, conn: u64) -> Result<Text, AllocError> {
        let mut text = Text::new(alloc);
        H::write_gone(&mut text, conn)?;
        Ok(text)
    }

    fn no_memory_line(&self) -> &[u8] {
        H::no_memory_line()
    }
}
