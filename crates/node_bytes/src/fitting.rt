//! Whether what a node sends is within the limits of frames.
ghost use Rattle.std.specs.Prelude.{◌↔◌, IsTrue};
ghost use Rattle.wire_frames.specs.Frames.{IsFitFrame};
ghost use Rattle.wire_frames.specs.Messages.{IsFitMessage};

use cluster_state::is_fit_number;
use wire_frames::{Frame, WireMessage};

fn is_fit_message(message: &WireMessage) -> bool
    ensures { IsTrue result ↔ IsFitMessage message.now }
{
    match message {
        WireMessage::StartJoin { candidate: _, term } => is_fit_number(*term),
        WireMessage::Join { term, last } => is_fit_number(*term) && last.is_fit(),
        WireMessage::Publish(state) => state.is_fit(),
        WireMessage::Response(id) => id.is_fit(),
        WireMessage::Commit(id) => id.is_fit(),
        WireMessage::JoinAsk { term } => is_fit_number(*term),
        WireMessage::PeersAsk { known: _ } => true,
        WireMessage::PeersAnswer {
            master: _,
            term,
            known: _,
        } => is_fit_number(*term),
        WireMessage::PreVoteAsk => true,
        WireMessage::PreVoteAnswer { term, last } => is_fit_number(*term) && last.is_fit(),
        WireMessage::PreVoteRefuse { leader: _ } => true,
        WireMessage::FollowerCheck { term } => is_fit_number(*term),
        WireMessage::FollowerAnswer {
            good: _,
            term,
            applied,
        } => is_fit_number(*term) && applied.is_fit(),
        WireMessage::LeaderCheck { term } => is_fit_number(*term),
        WireMessage::LeaderAnswer { good: _ } => true,
    }
}

/// Whether a frame has a spelling: its numbers go to 2^62 at most, and its state is within the limits.
pub fn is_fit(frame: &Frame) -> bool
    ensures { IsTrue result ↔ IsFitFrame frame.now }
{
    is_fit_message(&frame.message)
}
