//! Events, by their kind.
ghost use Rattle.std.specs.Prelude.{◌≡◌, ◌≤◌, max, min, true, is_ok};
ghost use Rattle.wire_frames.specs.Messages.{IsFitMessage};
ghost use Rattle.policy_model.specs.declared.events.Event.TheVariants as event;
ghost use Rattle.policy_model.specs.declared.events.Event.TheVariants.{Start};
ghost use Rattle.policy_model.specs.Fitting.{IsFitEvent};
ghost use Rattle.policy_model.specs.Parts.{last_moment};
ghost use Rattle.policy_model.specs.Rules.{takes_frame, takes_message};
ghost use Rattle.coordinator.specs.Does.{DoesAll};
ghost use Rattle.coordinator.specs.Lives.{DoesEvent};
ghost use Rattle.coordinator.specs.Rooms.{event_deeds, loss_deeds, tick_drops, to_set, to_set_and_one, to_three_sets};
ghost use Rattle.coordinator.specs.Steps.{deeds_for, drops_for, frames_for};
ghost use Rattle.coordinator.specs.Views.{IsReady};

use crate::coordinator::{Coordinator, EventError};
use crate::output::Output;
use client_lines::Line;
use policy_model::Event;
use state_journal::Keeper;
use voting_config::NodeId;
use wire_frames::{Frame, WireMessage};

// All later moments count as this one, in ms.
const LAST_MOMENT: u64 = 1 << 62;

impl<K: Keeper> Coordinator<K> {
    // A message of p, by its kind.
    fn take_message(
        &mut self,
        out: &mut Output,
        p: NodeId,
        message: &WireMessage,
    ) -> Result<(), EventError>
        requires ready { IsReady self.old }
        requires fit { IsFitMessage message.now }
        requires deeds { event_deeds ≤ out.old.deeds.room }
        requires frames { to_set_and_one ≤ out.old.frames.room }
        ensures does { DoesAll K.Keeper self.old self.new out.old out.new (λ s v. takes_message s v p message.now) result }
    {
        match message {
            WireMessage::StartJoin { candidate, term } => self.on_start_join(
                out, *candidate, *term,
            ),
            WireMessage::Join { term, last } => self.on_join(out, p, *term, *last),
            WireMessage::Publish(state) => self.on_publish(out, p, state),
            WireMessage::Response(id) => self.on_response(out, p, *id),
            WireMessage::Commit(id) => self.on_commit(out, p, *id),
            WireMessage::JoinAsk { term } => self.on_join_ask(out, p, *term),
            WireMessage::PeersAsk { known } => self.on_peers_ask(out, p, known),
            WireMessage::PeersAnswer {
                master,
                term,
                known,
            } => self.on_peers_answer(out, p, master, *term, known),
            WireMessage::PreVoteAsk => {
                self.on_pre_vote_ask(out, p);
                Ok(())
            }
            WireMessage::PreVoteAnswer { term, last } => {
                self.on_pre_vote_answer(out, p, *term, *last);
                Ok(())
            }
            WireMessage::PreVoteRefuse { leader } => {
                self.on_pre_vote_refuse(*leader);
                Ok(())
            }
            WireMessage::FollowerCheck { term } => self.on_follower_check(out, p, *term),
            WireMessage::FollowerAnswer { good, applied, .. } => {
                self.on_follower_answer(p, *good, *applied);
                Ok(())
            }
            WireMessage::LeaderCheck { term } => {
                self.on_leader_check(out, p, *term);
                Ok(())
            }
            WireMessage::LeaderAnswer { good } => {
                self.on_leader_answer(p, *good);
                Ok(())
            }
        }
    }

    // A frame. One for another node does nothing.
    fn take_frame(&mut self, out: &mut Output, frame: &Frame) -> Result<(), EventError>
        requires ready { IsReady self.old }
        requires fit { IsFitMessage frame.now.message }
        requires deeds { event_deeds ≤ out.old.deeds.room }
        requires frames { to_set_and_one ≤ out.old.frames.room }
        ensures does { DoesAll K.Keeper self.old self.new out.old out.new (λ s v. takes_frame s v frame.now) result }
    {
        if frame.to == self.settings.me {
            self.take_message(out, frame.from, &frame.message)
        } else {
            Ok(())
        }
    }

    // The moment never goes back, in ms.
    fn begin_tick(&mut self, now: u64)
        ensures rest { self.new ≡ record self.old { moment = self.new.moment } }
        ensures moment { self.new.moment ≡ max self.old.moment (min now last_moment) }
    {
        self.moment = self.moment.max(now.min(LAST_MOMENT));
    }

    // The first event after the opening.
    fn on_start(&mut self) -> Result<(), EventError>
        ensures does { (out : _) → DoesEvent K.Keeper self.old self.new event.Start out out result }
        ensures fine { is_ok result ≡ true }
    {
        self.meet_first();
        Ok(())
    }

    // The moment, in ms, and a random word. Where memory is lacking, the moment stays.
    fn on_tick(&mut self, out: &mut Output, now: u64, word: u64) -> Result<(), EventError>
        requires ready { IsReady self.old }
        requires deeds { event_deeds ≤ out.old.deeds.room }
        requires drops { tick_drops ≤ out.old.drops.room }
        requires frames { to_three_sets ≤ out.old.frames.room }
        ensures { DoesEvent K.Keeper self.old self.new (event.Tick now word) out.old out.new result }
    {
        let before = self.moment;
        self.begin_tick(now);
        match self.tick_by_mode(out, word) {
            Ok(()) => Ok(()),
            Err(EventError::Struck) => Err(EventError::Struck),
            Err(EventError::Memory) => {
                self.moment = before;
                Err(EventError::Memory)
            }
        }
    }

    // A frame. `take_frame` does all of it by the kind of the message; this contract is that of an event.
    fn on_frame(&mut self, out: &mut Output, frame: &Frame) -> Result<(), EventError>
        requires ready { IsReady self.old }
        requires fit { IsFitMessage frame.now.message }
        requires deeds { event_deeds ≤ out.old.deeds.room }
        requires frames { to_set_and_one ≤ out.old.frames.room }
        ensures { DoesEvent K.Keeper self.old self.new (event.Frame frame.now) out.old out.new result }
    {
        self.take_frame(out, frame)
    }

    // A line of a client, by its connection.
    fn on_line(&mut self, out: &mut Output, conn: u64, line: &Line) -> Result<(), EventError>
        requires ready { IsReady self.old }
        ensures { DoesEvent K.Keeper self.old self.new (event.Client conn line.now) out.old out.new result }
    {
        self.takes_line(out, conn, line)
    }

    // The connection to a node has ended.
    fn on_disconnected(&mut self, out: &mut Output, peer: NodeId) -> Result<(), EventError>
        requires ready { IsReady self.old }
        requires deeds { loss_deeds ≤ out.old.deeds.room }
        requires drops { 1 ≤ out.old.drops.room }
        requires frames { to_set ≤ out.old.frames.room }
        ensures { DoesEvent K.Keeper self.old self.new (event.Disconnected peer) out.old out.new result }
    {
        self.lose(out, peer)
    }

    /// What the node does at an event, by its kind.
    pub(crate) fn take_event(&mut self, out: &mut Output, event: &Event) -> Result<(), EventError>
        requires ready { IsReady self.old }
        requires fit { IsFitEvent event.now }
        requires deeds { deeds_for event.now ≤ out.old.deeds.room }
        requires drops { drops_for event.now ≤ out.old.drops.room }
        requires frames { frames_for event.now ≤ out.old.frames.room }
        ensures does { DoesEvent K.Keeper self.old self.new event.now out.old out.new result }
        ensures start { event.now ≡ Start → is_ok result ≡ true }
    {
        match event {
            Event::Start => self.on_start(),
            Event::Tick { now, word } => self.on_tick(out, *now, *word),
            Event::Frame(frame) => self.on_frame(out, frame.frame()),
            Event::Client { conn, line } => self.on_line(out, *conn, line),
            Event::Disconnected { peer } => self.on_disconnected(out, *peer),
        }
    }
}
