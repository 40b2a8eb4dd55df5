//! `SealedFrames`: what an event of a node showed, as the bytes of its frames and replies.
ghost use Rattle.std.specs.Prelude.{◌≡◌, ◌+◌, length, IfOk, IsSomeAnd};
ghost use Rattle.node_bytes.specs.Pieces.{IsPieceOfFrame, IsPieceOfReply, PieceAt};
ghost use Rattle.cluster_state.specs.Field.{byte_at};
ghost use Rattle.cluster_state.specs.Fields.{id};
ghost use Rattle.node_bytes.specs.Senders.{id_read, sender_in_body, sender_of};

use crate::fitting::is_fit;
use bytes::Bytes;
use client_lines::write_reply;
use cluster_state::Reader;
use coordinator::Sealed;
use host_io::{Framing, Piece, Target};
use master_tasks::Outgoing;
use std::alloc::{AllocError, Global};
use voting_config::NodeId;
use wire_frames::{Frame, Kind, write_frame};

/// How what an event of a node showed becomes bytes: each frame goes to its receiver, and then each reply goes to the
/// connection that its request came by, as a line. Nothing is copied but into the bytes.
#[derive(Clone, Copy)]
pub struct SealedFrames;

// A frame without a spelling is no piece. A node within the limits has none.
fn frame_piece(alloc: Global, frame: &Frame) -> Result<Option<Piece>, AllocError>
    ensures { IfOk result (λ piece. IsPieceOfFrame frame.now piece) }
{
    if !is_fit(frame) {
        return Ok(None);
    }
    let to = Target::Node(frame.to);
    let bytes = write_frame(alloc, frame)?;
    Ok(Some(Piece { to, bytes }))
}

fn reply_piece(alloc: Global, reply: &Outgoing) -> Result<Option<Piece>, AllocError>
    ensures { IfOk result (λ piece. IsSomeAnd piece (IsPieceOfReply reply.now)) }
{
    let to = Target::Connection(reply.conn);
    let mut line = write_reply(alloc, &reply.reply)?;
    line.push(b'\n')?;
    let bytes = Bytes::from_vec(line)?;
    Ok(Some(Piece { to, bytes }))
}

// The piece at a place: first the frames in their order, then the replies in theirs.
fn piece_at(
    alloc: Global,
    frames: &[Frame],
    replies: &[Outgoing],
    place: usize,
) -> Result<Option<Piece>, AllocError>
    ensures { IfOk result (λ piece. PieceAt frames.now replies.now place piece) }
{
    if let Some(frame) = frames.get(place) {
        return frame_piece(alloc, frame);
    }
    match replies.get(place - frames.len()) {
        Some(reply) => reply_piece(alloc, reply),
        None => Ok(None),
    }
}

fn read_id(reader: &mut Reader) -> Option<NodeId>
    ensures { result ≡ id_read (id.at reader.old) }
{
    match reader.id() {
        Ok(id) => Some(id),
        Err(_) => None,
    }
}

// Who sends the frame whose body begins with these bytes.
fn sender_in(body: &[u8]) -> Option<NodeId>
    ensures { result ≡ sender_in_body (byte_at body.now) }
{
    let mut reader = Reader::new(body);
    let Ok(byte) = reader.byte() else {
        return None;
    };
    match Kind::of(byte) {
        Some(_) => read_id(&mut reader),
        None => None,
    }
}

impl Framing for SealedFrames {
    type Out = Sealed;

    fn count(&self, out: &Sealed) -> usize
        ensures { result ≡ length out.now.sends.list + length out.now.replies.sent }
    {
        out.sends().as_slice().len() + out.replies().as_slice().len()
    }

    fn piece(&self, alloc: Global, out: &Sealed, place: usize) -> Result<Option<Piece>, AllocError>
        ensures { IfOk result (λ piece. PieceAt out.now.sends.list out.now.replies.sent place piece) }
    {
        piece_at(
            alloc,
            out.sends().as_slice(),
            out.replies().as_slice(),
            place,
        )
    }

    #[tactic(auto, using(std::proofs::lemmas::List::drop_min))]
    fn sender(&self, prefix: &[u8]) -> Option<NodeId>
        ensures { result ≡ sender_of prefix.now }
    {
        let (_, body) = prefix.split_at(prefix.len().min(4));
        sender_in(body)
    }
}
