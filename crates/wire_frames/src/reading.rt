//! The messages that are read without memory: all but a publication. A set of peers is read into a set in place.
ghost use Rattle.std.specs.Prelude.{IfOk};
ghost use Rattle.cluster_state.specs.Faults.{Reads};
ghost use Rattle.wire_frames.specs.declared.frame.Kind.TheVariants as kind;
ghost use Rattle.wire_frames.specs.Messages.{message_at};
ghost use Rattle.wire_frames.specs.Parts.{answer_of};
ghost use Rattle.wire_frames.specs.Plain.{IsPlain, IsPlainMessage};

use crate::frame::{Kind, WireMessage};
use cluster_state::{FieldError, Reader};
use voting_config::{MAX_IDS, NodeId, NodeSet};

/// What a node answers that is asked for peers: the master that it follows, its term, and the peers that it knows.
#[derive(Drop)]
pub struct PeersAnswer {
    pub master: Option<NodeId>,
    pub term: u64,
    pub known: NodeSet,
}

fn start_join(reader: &mut Reader) -> Result<WireMessage, FieldError>
    ensures read { Reads (λ x. x) result reader.new (message_at kind.StartJoin reader.old) }
    ensures other { IfOk result IsPlainMessage }
{
    let candidate = reader.id()?;
    let term = reader.term()?;
    Ok(WireMessage::StartJoin { candidate, term })
}

fn join(reader: &mut Reader) -> Result<WireMessage, FieldError>
    ensures read { Reads (λ x. x) result reader.new (message_at kind.Join reader.old) }
    ensures other { IfOk result IsPlainMessage }
{
    let term = reader.term()?;
    let last = reader.state_id()?;
    Ok(WireMessage::Join { term, last })
}

fn pre_vote_answer(reader: &mut Reader) -> Result<WireMessage, FieldError>
    ensures read { Reads (λ x. x) result reader.new (message_at kind.PreVoteAnswer reader.old) }
    ensures other { IfOk result IsPlainMessage }
{
    let term = reader.term()?;
    let last = reader.state_id()?;
    Ok(WireMessage::PreVoteAnswer { term, last })
}

fn follower_answer(reader: &mut Reader) -> Result<WireMessage, FieldError>
    ensures read { Reads (λ x. x) result reader.new (message_at kind.FollowerAnswer reader.old) }
    ensures other { IfOk result IsPlainMessage }
{
    let good = reader.flag()?;
    let term = reader.term()?;
    let applied = reader.state_id()?;
    Ok(WireMessage::FollowerAnswer {
        good,
        term,
        applied,
    })
}

/// An answer to who asks for peers.
pub(crate) fn peers_answer(reader: &mut Reader) -> Result<PeersAnswer, FieldError>
    ensures { Reads answer_of result reader.new (message_at kind.PeersAnswer reader.old) }
{
    let master = reader.optional_id()?;
    let term = reader.term()?;
    let known = reader.ids(MAX_IDS as u8)?;
    Ok(PeersAnswer {
        master,
        term,
        known,
    })
}

/// A message with neither a state nor a set of peers.
pub(crate) fn plain_message(reader: &mut Reader, kind: Kind) -> Result<WireMessage, FieldError>
    requires { IsPlain kind }
    ensures read { Reads (λ x. x) result reader.new (message_at kind reader.old) }
    ensures other { IfOk result IsPlainMessage }
{
    match kind {
        Kind::StartJoin => start_join(reader),
        Kind::Join => join(reader),
        Kind::Publish | Kind::PeersAsk | Kind::PeersAnswer => unreachable!(),
        Kind::Response => Ok(WireMessage::Response(reader.state_id()?)),
        Kind::Commit => Ok(WireMessage::Commit(reader.state_id()?)),
        Kind::JoinAsk => Ok(WireMessage::JoinAsk {
            term: reader.term()?,
        }),
        Kind::PreVoteAsk => Ok(WireMessage::PreVoteAsk),
        Kind::PreVoteAnswer => pre_vote_answer(reader),
        Kind::PreVoteRefuse => Ok(WireMessage::PreVoteRefuse {
            leader: reader.id()?,
        }),
        Kind::FollowerCheck => Ok(WireMessage::FollowerCheck {
            term: reader.term()?,
        }),
        Kind::FollowerAnswer => follower_answer(reader),
        Kind::LeaderCheck => Ok(WireMessage::LeaderCheck {
            term: reader.term()?,
        }),
        Kind::LeaderAnswer => Ok(WireMessage::LeaderAnswer {
            good: reader.flag()?,
        }),
    }
}
