//! Frames and the messages in them.

ghost use Rattle.std.specs.Prelude.{◌≡◌, IfOk};

use cluster_state::{SharedState, StateId};
use std::alloc::AllocError;
use voting_config::{IdList, NodeId};

/// How many bytes a frame has at most after its four bytes of length.
pub const MAX_BODY: u32 = 8_388_608;

/// What a message is about.
#[derive(Clone, Copy, Debug, PartialEq, Eq)]
pub enum Kind {
    StartJoin,
    Join,
    Publish,
    Response,
    Commit,
    JoinAsk,
    PeersAsk,
    PeersAnswer,
    PreVoteAsk,
    PreVoteAnswer,
    PreVoteRefuse,
    FollowerCheck,
    FollowerAnswer,
    LeaderCheck,
    LeaderAnswer,
}

impl Kind {
    ghost use Rattle.wire_frames.specs.Kinds.{code as code_of, kind_of};

    /// The byte that stands for the kind.
    pub fn code(self) -> u8
        ensures { result ≡ code_of self }
    {
        match self {
            Kind::StartJoin => 1,
            Kind::Join => 2,
            Kind::Publish => 17,
            Kind::Response => 4,
            Kind::Commit => 5,
            Kind::JoinAsk => 6,
            Kind::PeersAsk => 7,
            Kind::PeersAnswer => 8,
            Kind::PreVoteAsk => 9,
            Kind::PreVoteAnswer => 10,
            Kind::PreVoteRefuse => 11,
            Kind::FollowerCheck => 12,
            Kind::FollowerAnswer => 13,
            Kind::LeaderCheck => 14,
            Kind::LeaderAnswer => 15,
        }
    }

    /// The kind that the byte stands for, and None where it stands for none.
    pub fn of(byte: u8) -> Option<Kind>
        ensures { result ≡ kind_of byte }
    {
        match byte {
            1 => Some(Kind::StartJoin),
            2 => Some(Kind::Join),
            4 => Some(Kind::Response),
            5 => Some(Kind::Commit),
            6 => Some(Kind::JoinAsk),
            7 => Some(Kind::PeersAsk),
            8 => Some(Kind::PeersAnswer),
            9 => Some(Kind::PreVoteAsk),
            10 => Some(Kind::PreVoteAnswer),
            11 => Some(Kind::PreVoteRefuse),
            12 => Some(Kind::FollowerCheck),
            13 => Some(Kind::FollowerAnswer),
            14 => Some(Kind::LeaderCheck),
            15 => Some(Kind::LeaderAnswer),
            17 => Some(Kind::Publish),
            _ => None,
        }
    }
}

/// What a node says to another.
#[derive(Drop)]
pub enum WireMessage {
    /// Vote for the candidate in this term.
    StartJoin {
        candidate: NodeId,
        term: u64,
    },
    /// A vote, with the id of the last accepted state.
    Join {
        term: u64,
        last: StateId,
    },
    /// A state to accept. All frames that publish it share it.
    Publish(SharedState),
    /// The state of this id is accepted.
    Response(StateId),
    /// The state of this id is committed.
    Commit(StateId),
    /// The leader is asked to start a join for the sender, which is in this term.
    JoinAsk {
        term: u64,
    },
    /// Which peers the sender knows, and which does the receiver know?
    PeersAsk {
        known: IdList,
    },
    /// The master that the sender follows, its term, and the peers that it knows.
    PeersAnswer {
        master: Option<NodeId>,
        term: u64,
        known: IdList,
    },
    /// Would the receiver vote for the sender?
    PreVoteAsk,
    /// The term and the last accepted state, for a candidate that compares them with its own.
    PreVoteAnswer {
        term: u64,
        last: StateId,
    },
    /// No vote: there is a leader.
    PreVoteRefuse {
        leader: NodeId,
    },
    /// The leader of this term asks whether the receiver follows it.
    FollowerCheck {
        term: u64,
    },
    /// Whether the sender follows, its term, and the id of the state that it has applied.
    FollowerAnswer {
        good: bool,
        term: u64,
        applied: StateId,
    },
    /// A follower in this term asks whether the receiver leads it.
    LeaderCheck {
        term: u64,
    },
    /// Whether the sender leads.
    LeaderAnswer {
        good: bool,
    },
}

impl WireMessage {
    ghost use Rattle.wire_frames.specs.Kinds.{kind_of_message};

    /// What the message is about.
    pub fn kind(&self) -> Kind
        ensures { result ≡ kind_of_message self.now }
    {
        match self {
            WireMessage::StartJoin { .. } => Kind::StartJoin,
            WireMessage::Join { .. } => Kind::Join,
            WireMessage::Publish(_) => Kind::Publish,
            WireMessage::Response(_) => Kind::Response,
            WireMessage::Commit(_) => Kind::Commit,
            WireMessage::JoinAsk { .. } => Kind::JoinAsk,
            WireMessage::PeersAsk { .. } => Kind::PeersAsk,
            WireMessage::PeersAnswer { .. } => Kind::PeersAnswer,
            WireMessage::PreVoteAsk => Kind::PreVoteAsk,
            WireMessage::PreVoteAnswer { .. } => Kind::PreVoteAnswer,
            WireMessage::PreVoteRefuse { .. } => Kind::PreVoteRefuse,
            WireMessage::FollowerCheck { .. } => Kind::FollowerCheck,
            WireMessage::FollowerAnswer { .. } => Kind::FollowerAnswer,
            WireMessage::LeaderCheck { .. } => Kind::LeaderCheck,
            WireMessage::LeaderAnswer { .. } => Kind::LeaderAnswer,
        }
    }

    /// The same message once more.
    pub fn copy(&self) -> Result<WireMessage, AllocError>
        ensures { IfOk result (λ message. message ≡ self.now) }
    {
        Ok(match self {
            WireMessage::StartJoin { candidate, term } => WireMessage::StartJoin {
                candidate: *candidate,
                term: *term,
            },
            WireMessage::Join { term, last } => WireMessage::Join {
                term: *term,
                last: *last,
            },
            WireMessage::Publish(state) => WireMessage::Publish(state.share()?),
            WireMessage::Response(id) => WireMessage::Response(*id),
            WireMessage::Commit(id) => WireMessage::Commit(*id),
            WireMessage::JoinAsk { term } => WireMessage::JoinAsk { term: *term },
            WireMessage::PeersAsk { known } => WireMessage::PeersAsk {
                known: known.copy()?,
            },
            WireMessage::PeersAnswer {
                master,
                term,
                known,
            } => WireMessage::PeersAnswer {
                master: *master,
                term: *term,
                known: known.copy()?,
            },
            WireMessage::PreVoteAsk => WireMessage::PreVoteAsk,
            WireMessage::PreVoteAnswer { term, last } => WireMessage::PreVoteAnswer {
                term: *term,
                last: *last,
            },
            WireMessage::PreVoteRefuse { leader } => WireMessage::PreVoteRefuse { leader: *leader },
            WireMessage::FollowerCheck { term } => WireMessage::FollowerCheck { term: *term },
            WireMessage::FollowerAnswer {
                good,
                term,
                applied,
            } => WireMessage::FollowerAnswer {
                good: *good,
                term: *term,
                applied: *applied,
            },
            WireMessage::LeaderCheck { term } => WireMessage::LeaderCheck { term: *term },
            WireMessage::LeaderAnswer { good } => WireMessage::LeaderAnswer { good: *good },
        })
    }
}

/// A message from a node to another.
#[derive(Drop)]
pub struct Frame {
    pub from: NodeId,
    pub to: NodeId,
    pub message: WireMessage,
}

impl Frame {
    /// The same frame once more.
    pub fn copy(&self) -> Result<Frame, AllocError>
        ensures { IfOk result (λ frame. frame ≡ self.now) }
    {
        Ok(Frame {
            from: self.from,
            to: self.to,
            message: self.message.copy()?,
        })
    }
}
