//! What a client's request comes to.
ghost use Rattle.std.specs.Prelude.{◌≡◌, ◌≤◌, ◌&&◌, not, false, Ok, IfOk, OnOk, OnErr};
ghost use Rattle.cluster_state.specs.declared.reply.Answer.TheVariants as answer;
ghost use Rattle.cluster_state.specs.declared.reply.Reply.TheVariants as reply;
ghost use Rattle.client_lines.specs.Reading.{line_request};
ghost use Rattle.cluster_state.specs.Puts.{bad_setting_of};
ghost use Rattle.master_tasks.specs.Queue.{is_full_of, offered, arriving};
ghost use Rattle.master_tasks.specs.NextState.{leader_of as master_of};
ghost use Rattle.policy_model.specs.Parts.{policy_at};
ghost use Rattle.policy_model.specs.Doing.{is_leader};
ghost use Rattle.policy_model.specs.NextState.{is_in_flight};
ghost use Rattle.policy_model.specs.Requests.{replies, takes_line};
ghost use Rattle.coordinator.specs.Ahead.{HasPlan, queues_one};
ghost use Rattle.coordinator.specs.Does.{Does, DoesAll};
ghost use Rattle.coordinator.specs.Plans.{IsPlanned, replies_planned};
ghost use Rattle.coordinator.specs.Showing.{shown_in};
ghost use Rattle.coordinator.specs.Views.{view_in, IsReady};

use crate::coordinator::{Coordinator, EventError};
use crate::discovery::leader_of;
use crate::output::Output;
use crate::plan::Plan;
use client_lines::{Line, LineError, read_line};
use cluster_state::{Answer, Reply, Request};
use master_tasks::{MAX_OPEN, MasterTasks, Outgoing};
use state_journal::Keeper;
use std::alloc::{AllocError, Global};
use voting_config::MAX_IDS;

// How many deeds going on comes to at most: an act, and a change of mode.
const QUEUE_DEEDS: usize = 2;

// Takes a request that came by a connection at a moment, in ms; at an error nothing changed.
fn add_request(
    tasks: &mut MasterTasks,
    conn: u64,
    now: u64,
    request: Request,
) -> Result<(), AllocError>
    ensures ok { OnOk result (tasks.new ≡ offered tasks.old (arriving conn now request)) }
    ensures err { OnErr result (tasks.new ≡ tasks.old) }
{
    match tasks.offer(conn, now, request) {
        Ok(()) => Ok(()),
        Err(_) => Err(AllocError),
    }
}

impl<K: Keeper> Coordinator<K> {
    // What going on will take with these tasks.
    pub(crate) fn plan_of(
        &self,
        alloc: Global,
        tasks: &MasterTasks,
    ) -> Result<Option<Plan>, AllocError>
        ensures { IfOk result
            (λ plan. HasPlan (master_of self.now.settings.me (K.record_of self.now.core.keeper).term
            (K.record_of self.now.core.keeper).accepted (K.record_of self.now.core.keeper).committed self.now.core.join_votes
            (policy_at self.now.settings self.now.led_from self.now.moment)) tasks.now plan) }
    {
        self.plan_with(
            alloc,
            self.led_from,
            self.core.term(),
            tasks,
            self.core.votes(),
        )
    }

    // A leader with no publication in flight queues a request, and goes on. What that takes is planned over the queue itself, so that no
    // request that waits is copied for it; where there is no memory the request is taken out again.
    fn queue_and_go_on(
        &mut self,
        out: &mut Output,
        conn: u64,
        request: Request,
    ) -> Result<(), EventError>
        requires ready { IsReady self.old }
        ensures does { DoesAll K.Keeper self.old self.new out.old out.new (λ s v. queues_one s v conn request) result }
    {
        let place = self.tasks.open_count();
        let Ok(()) = out.make_lists(QUEUE_DEEDS, 0, MAX_IDS) else {
            return Err(EventError::Memory);
        };
        let Ok(()) = add_request(&mut self.tasks, conn, self.moment, request) else {
            return Err(EventError::Memory);
        };
        let Ok(mut plan) = self.plan_queued(out) else {
            self.tasks.settle(place);
            return Err(EventError::Memory);
        };
        self.go_on(out, &mut plan);
        Ok(())
    }

    // What going on will take with the tasks as they are, with room for its replies.
    fn plan_queued(&self, out: &mut Output) -> Result<Option<Plan>, AllocError>
        ensures plan { IfOk result (λ plan. IsPlanned self.now.settings (view_in K.Keeper self.now) plan) }
        ensures replies { IfOk result (λ plan. replies_planned plan ≤ out.new.replies.room) }
        ensures shown { shown_in out.new ≡ shown_in out.old }
        ensures rest { (out.new.deeds ≡ out.old.deeds) × (out.new.frames ≡ out.old.frames) }
    {
        let plan = self.plan_of(out.alloc, &self.tasks)?;
        out.make_room(0, &plan)?;
        Ok(plan)
    }

    // One with a publication in flight queues a request: it shows nothing, nothing is planned, and no request that waits is copied.
    fn queue_alone(&mut self, conn: u64, request: Request) -> Result<(), EventError>
        requires busy { (is_leader self.old.mode && not (is_in_flight self.old.publication)) ≡ false }
        ensures does { (out : _) → DoesAll K.Keeper self.old self.new out out (λ s v. queues_one s v conn request) result }
    {
        let Ok(()) = add_request(&mut self.tasks, conn, self.moment, request) else {
            return Err(EventError::Memory);
        };
        Ok(())
    }

    // A leader queues a request, and goes on.
    fn queue(&mut self, out: &mut Output, conn: u64, request: Request) -> Result<(), EventError>
        requires ready { IsReady self.old }
        ensures does { DoesAll K.Keeper self.old self.new out.old out.new (λ s v. queues_one s v conn request) result }
    {
        if self.is_free_leader() {
            return self.queue_and_go_on(out, conn, request);
        }
        self.queue_alone(conn, request)
    }

    // One reply, and nothing else.
    fn reply(&self, out: &mut Output, conn: u64, reply: Reply) -> Result<(), EventError>
        ensures does { DoesAll K.Keeper self.now self.now out.old out.new (λ s v. replies conn reply) result }
    {
        let Ok(()) = out.make_room(1, &None) else {
            return Err(EventError::Memory);
        };
        out.replies.push(Outgoing { conn, reply });
        Ok(())
    }

    // A request of a client.
    fn takes_request(
        &mut self,
        out: &mut Output,
        conn: u64,
        request: Request,
    ) -> Result<(), EventError>
        requires ready { IsReady self.old }
        ensures does { DoesAll K.Keeper self.old self.new out.old out.new (λ s v. takes_line s v conn (Ok request)) result }
    {
        let id = request.id;
        if !self.is_leader() {
            let answer = Answer::NotMaster(leader_of(self.settings.me, self.mode));
            return self.reply(out, conn, Reply::To { id, answer });
        }
        if let Some(length) = request.ask.bad_setting() {
            let answer = Answer::BadSetting(length as u64);
            return self.reply(out, conn, Reply::To { id, answer });
        }
        if self.tasks.is_full() {
            let answer = Answer::QueueFull(MAX_OPEN as u64);
            return self.reply(out, conn, Reply::To { id, answer });
        }
        self.queue(out, conn, request)
    }

    // What a line was read as.
    pub(crate) fn takes_line(
        &mut self,
        out: &mut Output,
        conn: u64,
        line: &Line,
    ) -> Result<(), EventError>
        requires ready { IsReady self.old }
        ensures does { DoesAll K.Keeper self.old self.new out.old out.new (λ s v. takes_line s v conn (line_request line.now)) result }
    {
        match read_line(out.alloc, line.as_bytes()) {
            Ok(request) => self.takes_request(out, conn, request),
            Err(LineError::Fault(fault)) => self.reply(out, conn, Reply::BadLine(fault)),
            Err(LineError::Memory) => Err(EventError::Memory),
        }
    }
}
