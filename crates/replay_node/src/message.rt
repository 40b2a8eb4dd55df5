//! The messages of a replay. A published state is shared, and not copied for each that is sent it or accepts it.
ghost use Rattle.std.specs.Prelude.{◌≡◌, IfOk};
ghost use Rattle.cluster_state.specs.States.{IsFit};
ghost use Rattle.replay_node.specs.Sent.{message_of};
ghost use Rattle.trace_text.specs.Trace.{state_text};

use cluster_state::{ApplyCommit, Join, PublishResponse, SharedState, to_json};
use state_journal::Ready;
use std::alloc::{AllocError, Global};
use std::marker::Model;
use std::rc::Rc;
use voting_config::NodeId;

/// A publish request whose state is within the limits and ready to be kept by whoever accepts it, with the state's JSON, which is made once
/// for all lines that show it. Contracts see the request.
#[derive(Drop)]
pub struct FitPublishRequest {
    source: NodeId,
    ready: Ready,
    json: Vec<u8>,
    ghost shown: { json.items ≡ state_text ready.state },
}

impl Model for FitPublishRequest {
    ghost use Rattle.cluster_state.specs.declared.messages.PublishRequest.{PublishRequest};

    ghost Value = { PublishRequest };

    ghost view = { λ p. record { source = p.source; state = p.ready.state } };
}

impl FitPublishRequest {
    /// The request by which this node publishes this state, which is within the limits.
    pub fn of(
        alloc: Global,
        source: NodeId,
        state: &SharedState,
    ) -> Result<Rc<FitPublishRequest>, AllocError>
        requires { IsFit state.now }
        ensures { IfOk result (λ r. r.value ≡ record { source = source; state = state.now }) }
    {
        let publication = FitPublishRequest {
            source,
            json: to_json(alloc, state)?,
            ready: Ready::of(alloc, state)?,
        };
        Ok(Rc::new(alloc, publication)?)
    }

    /// Who has published the state.
    pub fn source(&self) -> &NodeId
        ensures { result.now ≡ self.now.source }
    {
        &self.source
    }

    /// The state.
    pub fn state(&self) -> &SharedState
        ensures state { result.now ≡ self.now.state }
        ensures fit { IsFit self.now.state }
    {
        self.ready.state()
    }

    /// The state, ready to be kept by one that accepts it.
    pub fn ready(&self) -> Result<Ready, AllocError>
        ensures { IfOk result (λ ready. ready.state ≡ self.now.state) }
    {
        self.ready.copy()
    }

    /// The state as JSON.
    pub fn json(&self) -> &[u8]
        ensures { result.now ≡ state_text self.now.state }
    {
        self.json.as_slice()
    }
}

/// A message that was sent. A published state is shared.
#[derive(Drop)]
pub enum SentMessage {
    Join(Join),
    Publish(Rc<FitPublishRequest>),
    Response(PublishResponse),
    Commit(ApplyCommit),
}

impl SentMessage {
    /// The same message once more. The error means that memory ran out.
    pub fn copy(&self) -> Result<SentMessage, AllocError>
        ensures { IfOk result (λ m. message_of m ≡ message_of self.now) }
    {
        match self {
            SentMessage::Join(join) => Ok(SentMessage::Join(*join)),
            SentMessage::Publish(request) => {
                let request = request.clone()?;
                Ok(SentMessage::Publish(request))
            }
            SentMessage::Response(response) => Ok(SentMessage::Response(*response)),
            SentMessage::Commit(commit) => Ok(SentMessage::Commit(*commit)),
        }
    }
}
