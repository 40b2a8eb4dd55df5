//! What is noted of acts that were taken: their messages, the wins, and the states that were published.
ghost use Rattle.std.specs.Prelude.{◌≡◌, ◌++◌, ◌∷◌, [], OnOk, List, Some, count_by, true};
ghost use Rattle.cluster_state.specs.declared.messages.ApplyCommit.{ApplyCommit as TheCommit};
ghost use Rattle.world_model.specs.declared.acts.Message.{Message as TheMessage};
ghost use Rattle.world_model.specs.declared.acts.Message.TheVariants as TheCommits;
ghost use Rattle.trace_audit.specs.Places.{is_held};
ghost use Rattle.world_model.specs.declared.acts.Act.{Act as TheAct};
ghost use Rattle.world_model.specs.declared.acts.Outcome.TheVariants.{Answered};
ghost use Rattle.trace_text.specs.declared.ending.Ending.TheVariants as ending;
ghost use Rattle.world_model.specs.Acts.{wins as wins_by};
ghost use Rattle.world_model.specs.NodeState.{term_of};
ghost use Rattle.world_model.specs.Histories.{History, NoEntries, Next, node_history};
ghost use Rattle.trace_audit.specs.declared.verdict.Winner.{Winner as TheWinner};
ghost use Rattle.node_audit.specs.Endings.{outcome_shown};
ghost use Rattle.trace_audit.specs.Verdicts.{is_committed};
ghost use Rattle.trace_audit.specs.Stands.{AreNotes, NotesOf, commits_by, winners_by, messages_by};

use crate::sent::SentMessages;
use crate::verdict::Winner;
use cluster_state::ApplyCommit;
use std::alloc::{AllocError, Global};
use trace_text::Ending;
use voting_config::NodeId;
use world_model::{ActReply, Message};

/// What is noted of acts that were taken.
#[derive(Drop)]
pub struct Notes {
    pub sent: SentMessages,
    pub winners: Vec<Winner>,
    /// The commits of the published states.
    pub published: Vec<ApplyCommit>,
}

impl Notes {
    /// Before any act.
    pub fn new(alloc: Global) -> Notes
        ensures { NotesOf result NoEntries }
    {
        Notes {
            sent: SentMessages::new(alloc),
            winners: Vec::new(alloc),
            published: Vec::new(alloc),
        }
    }

    fn add_published(&mut self, node: NodeId, message: &Message) -> Result<(), AllocError>
        ensures published { OnOk result (self.new.published.items ≡ self.old.published.items ++ commits_by node (Some message.now)) }
        ensures sent { self.new.sent ≡ self.old.sent }
        ensures winners { self.new.winners ≡ self.old.winners }
    {
        match message {
            Message::Publish(request) => {
                self.published.push(ApplyCommit {
                    source: node,
                    term: request.state.term,
                    version: request.state.version,
                })?;
                Ok(())
            }
            Message::Join(_) => Ok(()),
            Message::Response(_) => Ok(()),
            Message::Commit(_) => Ok(()),
        }
    }

    fn add_message(&mut self, node: NodeId, message: Message) -> Result<(), AllocError>
        ensures { (messages : List TheMessage) (winners : List TheWinner) (commits : List TheCommit)
            → AreNotes self.old messages winners commits
            → OnOk result (AreNotes self.new (messages ++ message ∷ []) winners (commits ++ commits_by node (Some message))) }
    {
        self.add_published(node, &message)?;
        self.sent.add(message)
    }

    fn add_win(&mut self, node: NodeId, term: u64, wins: bool) -> Result<(), AllocError>
        ensures { (messages : List TheMessage) (winners : List TheWinner) (commits : List TheCommit)
            → AreNotes self.old messages winners commits
            → OnOk result (AreNotes self.new messages (winners ++ winners_by node term wins) commits) }
    {
        if wins {
            self.winners.push(Winner { node, term })?;
        }
        Ok(())
    }

    fn add_taken(
        &mut self,
        node: NodeId,
        term: u64,
        sends: Option<Message>,
        wins: bool,
    ) -> Result<(), AllocError>
        ensures { (messages : List TheMessage) (winners : List TheWinner) (commits : List TheCommit)
            → AreNotes self.old messages winners commits
            → OnOk result (AreNotes self.new (messages ++ messages_by sends) (winners ++ winners_by node term wins)
            (commits ++ commits_by node sends)) }
    {
        self.add_win(node, term, wins)?;
        match sends {
            None => Ok(()),
            Some(message) => self.add_message(node, message),
        }
    }

    fn add_reply(&mut self, node: NodeId, term: u64, reply: ActReply) -> Result<(), AllocError>
        ensures { (h : History) (act : TheAct) → NotesOf self.old h
            → (wins_by (Answered reply) ≡ true → term ≡ term_of (node_history h node))
            → OnOk result (NotesOf self.new (Next h node act (outcome_shown reply ending.Taken))) }
    {
        match reply {
            ActReply::Taken(sends, wins) => self.add_taken(node, term, sends, wins),
            ActReply::Refused(_) => Ok(()),
            ActReply::Stopped => Ok(()),
        }
    }

    /// Notes an act of a node, which ended so and to which the node's reply is this. A node that wins has this term.
    pub fn add(
        &mut self,
        node: NodeId,
        term: u64,
        reply: ActReply,
        ending: Ending,
    ) -> Result<(), AllocError>
        ensures { (h : History) (act : TheAct) → NotesOf self.old h
            → (wins_by (Answered reply) ≡ true → term ≡ term_of (node_history h node))
            → OnOk result (NotesOf self.new (Next h node act (outcome_shown reply ending))) }
    {
        match ending {
            Ending::Taken => self.add_reply(node, term, reply),
            Ending::Refused(_) => Ok(()),
            Ending::Stopped => Ok(()),
            Ending::Disk => Ok(()),
            Ending::Crashed => Ok(()),
        }
    }

    fn count_sent(&self, commits: &[ApplyCommit]) -> usize
        ensures { result ≡ count_by (λ c. is_held self.now.sent (TheCommits.Commit c)) commits.now }
    {
        let mut count = 0;
        for commit in commits {
            if self.sent.has_commit(commit) {
                count += 1;
            }
        }
        count
    }

    /// How many of the published states were committed.
    pub fn committed(&self) -> usize
        ensures { (messages : List TheMessage) (winners : List TheWinner) (commits : List TheCommit)
            → AreNotes self.now messages winners commits → result ≡ count_by (is_committed messages) commits }
    {
        self.count_sent(self.published.as_slice())
    }

    /// The winners, in order.
    pub fn into_winners(self) -> Vec<Winner>
        ensures { result.items ≡ self.winners.items }
    {
        self.winners
    }
}
