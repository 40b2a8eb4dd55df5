//! A node: one that runs, or one that was struck in an act and is not opened yet.
ghost use Rattle.std.specs.Prelude.{◌≡◌, IfOk, Bool, false, true, Option, None};
ghost use Rattle.voting_config.specs.Ids.{Id};
ghost use Rattle.world_model.specs.declared.acts.ActReply.{ActReply as TheReply};
ghost use Rattle.world_model.specs.declared.acts.ActReply.TheVariants.{Taken};
ghost use Rattle.world_model.specs.declared.acts.Message.{Message as TheMessage};
ghost use Rattle.world_model.specs.Acts.{NodeHistory, NoActs, Then, is_opening, wins as wins_by};
ghost use Rattle.world_model.specs.declared.acts.Act.TheVariants.{Open};
ghost use Rattle.world_model.specs.Histories.{is_down as is_down_of};
ghost use Rattle.world_model.specs.NodeState.{durable_of, halted_of, term_of};
ghost use Rattle.world_model.specs.declared.acts.Outcome.TheVariants.{Answered, Disk, Crashed};
ghost use Rattle.world_model.specs.Replies.{reply_of};
ghost use Rattle.world_model.specs.Settled.{settled, is_kept, shows_as as shows_as_of};
ghost use Rattle.node_audit.specs.Endings.{outcome_shown};
ghost use Rattle.node_audit.specs.Standing.{Stands, StandsRunning, StandsStruck, MayEnd};

use crate::placed::Placed;
use crate::running::Running;
use cluster_state::Kept;
use std::alloc::{AllocError, Global};
use trace_text::Ending;
use voting_config::NodeId;
use world_model::{Act, ActReply};

/// What a node keeps that was struck in an act: the record without this act, and with it.
#[derive(Drop)]
pub struct Struck {
    pub before: Kept,
    pub after: Kept,
}

/// A node.
#[derive(Drop)]
pub enum Node {
    Running(Placed<Running>),
    /// Its disk failed, and it was not opened since.
    Halted(Placed<Struck>),
    /// It crashed in an act, and was not opened since.
    Down(Placed<Struck>),
}

/// Whether the line `record` of one shows what that of the other does.
pub fn shows_as(a: &Kept, b: &Kept) -> bool
    ensures { result ≡ shows_as_of a.now b.now }
{
    a.term == b.term
        && a.accepted.term == b.accepted.term
        && a.accepted.version == b.accepted.version
        && a.accepted.config.is_same(&b.accepted.config)
        && a.committed.is_same(&b.committed)
}

// Strikes a node in an act.
fn strike(alloc: Global, running: Placed<Running>, act: &Act) -> Result<Placed<Struck>, AllocError>
    requires { is_opening act.now ≡ false }
    ensures { (g : NodeHistory) → StandsRunning running g
        → IfOk result (λ s. (kept : Bool) → StandsStruck s (Then g act.now (Disk kept)) × StandsStruck s (Then g act.now (Crashed kept))) }
{
    let mut running = Box::into_inner(running.value);
    let before = running.kept()?;
    running.take(alloc, act, false)?;
    let after = running.kept()?;
    Placed::of(alloc, Struck { before, after })
}

// An act that a running node takes.
fn taken(
    alloc: Global,
    running: Placed<Running>,
    act: &Act,
    wins: bool,
) -> Result<Placed<Running>, AllocError>
    requires { is_opening act.now ≡ false }
    ensures { (g : NodeHistory) → StandsRunning running g
        → IfOk result (λ r. (sends : Option TheMessage) → StandsRunning r (Then g act.now (Answered (Taken sends wins)))) }
{
    let mut running = running;
    running.value.take(alloc, act, wins)?;
    Ok(running)
}

impl Struck {
    // What the node keeps, by the record that its opening shows.
    fn found(self, shown: &Kept) -> Kept
        ensures { (g : NodeHistory) → StandsStruck self g → result ≡ durable_of (settled (is_kept g shown.now) g) }
    {
        if shows_as(shown, &self.after) {
            self.after
        } else {
            self.before
        }
    }
}

impl Node {
    /// A node that has done nothing.
    pub fn fresh(alloc: Global) -> Result<Node, AllocError>
        ensures { IfOk result (λ n. Stands n NoActs) }
    {
        let kept = Kept::empty(alloc)?;
        let running = Placed::of(alloc, Running::opened(alloc, kept))?;
        Ok(Node::Running(running))
    }

    /// A node that was opened and found this record.
    pub fn opened(alloc: Global, kept: Kept) -> Result<Node, AllocError>
        ensures { (g : NodeHistory) → kept ≡ durable_of g → IfOk result (λ n. Stands n (Then g (Open kept) (Answered (Taken None false)))) }
    {
        let running = Placed::of(alloc, Running::opened(alloc, kept))?;
        Ok(Node::Running(running))
    }

    /// Whether the node crashed and was not opened since.
    pub fn is_down(&self) -> bool
        ensures { (g : NodeHistory) → Stands self.now g → result ≡ is_down_of g }
    {
        match self {
            Node::Running(_) => false,
            Node::Halted(_) => false,
            Node::Down(_) => true,
        }
    }

    /// What a node that is not down answers to an act.
    pub fn reply(&self, alloc: Global, me: NodeId, act: &Act) -> Result<ActReply, AllocError>
        requires { is_opening act.now ≡ false }
        ensures { (g : NodeHistory) → Stands self.now g → is_down_of g ≡ false → IfOk result (λ r. r ≡ reply_of me g act.now) }
    {
        match self {
            Node::Running(running) => running.value.reply(alloc, me, act),
            Node::Halted(_) => Ok(ActReply::Stopped),
            Node::Down(_) => Ok(ActReply::Stopped),
        }
    }

    /// The term of a node that wins.
    pub fn term(&self) -> u64
        ensures { (g : NodeHistory) → Stands self.now g → halted_of g ≡ false → is_down_of g ≡ false → result ≡ term_of g }
    {
        match self {
            Node::Running(running) => running.value.term,
            Node::Halted(struck) => struck.value.before.term,
            Node::Down(struck) => struck.value.before.term,
        }
    }

    /// What becomes of a node that is not down, where an act ended as it may.
    pub fn ended(
        self,
        alloc: Global,
        act: &Act,
        wins: bool,
        ending: Ending,
    ) -> Result<Node, AllocError>
        requires { is_opening act.now ≡ false }
        ensures { (g : NodeHistory) (reply : TheReply) → Stands self g → is_down_of g ≡ false → wins ≡ wins_by (Answered reply)
            → MayEnd reply act.now ending → (me : Id) → reply ≡ reply_of me g act.now
            → IfOk result (λ n. Stands n (Then g act.now (outcome_shown reply ending))) }
    {
        match self {
            Node::Running(running) => match ending {
                Ending::Taken => Ok(Node::Running(taken(alloc, running, act, wins)?)),
                Ending::Refused(_) => Ok(Node::Running(running)),
                Ending::Stopped => Ok(Node::Running(running)),
                Ending::Disk => Ok(Node::Halted(strike(alloc, running, act)?)),
                Ending::Crashed => Ok(Node::Down(strike(alloc, running, act)?)),
            },
            Node::Halted(struck) => Ok(Node::Halted(struck)),
            Node::Down(struck) => Ok(Node::Down(struck)),
        }
    }

    /// What the node keeps, by the record that its opening shows.
    pub fn found(self, shown: &Kept) -> Result<Kept, AllocError>
        ensures { (g : NodeHistory) → Stands self g → IfOk result (λ k. k ≡ durable_of (settled (is_kept g shown.now) g)) }
    {
        match self {
            Node::Running(running) => running.value.kept(),
            Node::Halted(struck) => Ok(Box::into_inner(struck.value).found(shown)),
            Node::Down(struck) => Ok(Box::into_inner(struck.value).found(shown)),
        }
    }
}
