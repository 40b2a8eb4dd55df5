//! A frame written as its bytes.
ghost use Rattle.std.specs.Prelude.{◌≡◌, ◌++◌, ◌+◌, ◌≤◌, length, OnOk, IfOk};
ghost use Rattle.cluster_state.specs.Fields.{id};
ghost use Rattle.wire_frames.specs.Messages.{term_and_last, payload, FitsMessage, IsFitId, IsFitMessage};
ghost use Rattle.wire_frames.specs.Frames.{SpellsBody, SpellsFrame, IsFitFrame, most_body};

use crate::frame::{Frame, WireMessage};
use bytes::{BufMut, Bytes, BytesMut};
use cluster_state::{
    StateId, write_flag, write_id, write_id_list, write_optional_id, write_shared_state,
    write_state_id, write_term,
};
use std::alloc::{AllocError, Global};

fn write_term_and_last(out: &mut Vec<u8>, term: u64, last: StateId) -> Result<(), AllocError>
    requires { IsFitId last }
    ensures { OnOk result (out.new.items ≡ out.old.items ++ term_and_last.spelling (term, last)) }
{
    write_term(out, term)?;
    write_state_id(out, last)
}

fn write_message(out: &mut Vec<u8>, message: &WireMessage) -> Result<(), AllocError>
    requires { IsFitMessage message.now }
    ensures written { OnOk result (out.new.items ≡ out.old.items ++ payload message.now) }
    ensures fits { OnOk result (FitsMessage message.now) }
{
    match message {
        WireMessage::StartJoin { candidate, term } => {
            write_id(out, *candidate)?;
            write_term(out, *term)
        }
        WireMessage::Join { term, last } => write_term_and_last(out, *term, *last),
        WireMessage::Publish(state) => write_shared_state(out, state),
        WireMessage::Response(id) => write_state_id(out, *id),
        WireMessage::Commit(id) => write_state_id(out, *id),
        WireMessage::JoinAsk { term } => write_term(out, *term),
        WireMessage::PeersAsk { known } => write_id_list(out, known),
        WireMessage::PeersAnswer {
            master,
            term,
            known,
        } => {
            write_optional_id(out, *master)?;
            write_term(out, *term)?;
            write_id_list(out, known)
        }
        WireMessage::PreVoteAsk => Ok(()),
        WireMessage::PreVoteAnswer { term, last } => write_term_and_last(out, *term, *last),
        WireMessage::PreVoteRefuse { leader } => write_id(out, *leader),
        WireMessage::FollowerCheck { term } => write_term(out, *term),
        WireMessage::FollowerAnswer {
            good,
            term,
            applied,
        } => {
            write_flag(out, *good)?;
            write_term_and_last(out, *term, *applied)
        }
        WireMessage::LeaderCheck { term } => write_term(out, *term),
        WireMessage::LeaderAnswer { good } => write_flag(out, *good),
    }
}

// The body of a frame: a kind byte, the ids from and to, and the fields of the kind.
fn write_body(alloc: Global, frame: &Frame) -> Result<Vec<u8>, AllocError>
    requires { IsFitFrame frame.now }
    ensures { IfOk result (λ body. SpellsBody frame.now body.items) }
{
    let mut body = Vec::new(alloc);
    body.push(frame.message.kind().code())?;
    write_id(&mut body, frame.from)?;
    write_id(&mut body, frame.to)?;
    write_message(&mut body, &frame.message)?;
    Ok(body)
}

/// The one spelling of a frame, whose numbers and state are within the limits: four bytes of length, big-endian, and the
/// body, which is never too long.
#[tactic(auto, unfolding(crate::specs::Frames::four_bytes))]
pub fn write_frame(alloc: Global, frame: &Frame) -> Result<Bytes, AllocError>
    requires { IsFitFrame frame.now }
    ensures spelled { IfOk result (λ bytes. SpellsFrame frame.now bytes) }
    ensures short { IfOk result (λ bytes. length bytes ≤ 4 + most_body) }
{
    let body = write_body(alloc, frame)?;
    let mut bytes = BytesMut::new(alloc);
    bytes.put_u32(body.len() as u32)?;
    bytes.put_slice(body.as_slice())?;
    Ok(bytes.freeze()?)
}
