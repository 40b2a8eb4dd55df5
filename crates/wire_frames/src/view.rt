//! What a frame that lies in its bytes says.
ghost use Rattle.std.specs.Prelude.{◌≡◌, ℕ, List, Some, None, Ok, Err, IsOk, IfOk};
ghost use Rattle.cluster_state.specs.Passing.{Passes};
ghost use Rattle.cluster_state.specs.States.{whole};
ghost use Rattle.wire_frames.specs.declared.frame.Frame.{Frame};
ghost use Rattle.wire_frames.specs.Kinds.{kind_of_message};
ghost use Rattle.wire_frames.specs.declared.frame.Kind.TheVariants as kind;
ghost use Rattle.wire_frames.specs.Plain.{IsPlain};
ghost use Rattle.wire_frames.specs.Messages.{message_at};
ghost use Rattle.wire_frames.specs.Frames.{frame_at, as_frame, frame_of, SpellsBody, IsFitFrame};
ghost use Rattle.wire_frames.specs.Parts.{ArePartsOf, Checks, GivesParts, said, IsOther};
ghost use Rattle.wire_frames.specs.Views.{shown, shown_read};

use crate::boxed::BoxedFrame;
use crate::fault::FrameError;
use crate::frame::{Frame, Kind, WireMessage};
use crate::lent::FrameView;
use crate::reading::{PeersAnswer, peers_answer, plain_message};
use cluster_state::{FieldError, Reader, StateView};
use std::alloc::{AllocError, Global};
use voting_config::{IdList, MAX_IDS, NodeId, NodeSet};

/// What a lent frame says: a state that still lies in its bytes, peers in a set that takes no memory, or any other message.
#[derive(Drop)]
pub enum MessageView<'a> {
    Publish(StateView<'a>),
    PeersAsk {
        known: NodeSet,
    },
    PeersAnswer {
        master: Option<NodeId>,
        term: u64,
        known: NodeSet,
    },
    Other(WireMessage),
}

// What a frame's body consists of.
#[derive(Drop)]
struct Parts<'a> {
    kind: Kind,
    from: NodeId,
    to: NodeId,
    fields: &'a [u8],
}

impl<'a> FrameView<'a> {
    /// The frame with this body: a kind byte, the ids from and to, and the fields of the kind. Otherwise the first fault:
    /// `Field(Short)` where the body is empty, `UnknownKind`, `Field` of the first bad field, `Trailing` where bytes are left
    /// after the last field. Takes no memory.
    pub fn of(body: &'a [u8]) -> Result<FrameView<'a>, FrameError>
        // What is read is spelled by the body, and within the limits.
        ensures found { IfOk result (λ v. SpellsBody (shown v) body.now) }
        ensures fit { IfOk result (λ v. IsFitFrame (shown v)) }
        // What is spelled so is read.
        ensures only { (f : Frame) → SpellsBody f body.now → shown_read result ≡ Ok f }
        // Which fault it is.
        ensures exact { shown_read result ≡ frame_of body.now }
    {
        FrameView::checked(body)
    }

    // Has the exact answer in its contract. `of` only calls it, and says from it what callers need.
    fn checked(body: &'a [u8]) -> Result<FrameView<'a>, FrameError>
        ensures { shown_read result ≡ frame_of body.now }
    {
        match check_body(body) {
            Ok(()) => Ok(FrameView { body }),
            Err(fault) => Err(fault),
        }
    }

    /// The frame of a body that was checked before.
    pub fn of_checked(body: &'a [u8]) -> FrameView<'a>
        requires { IsOk (frame_of body.now) }
        ensures { frame_of body.now ≡ Ok (shown result) }
    {
        FrameView { body }
    }

    /// Who sent it.
    pub fn from(&self) -> NodeId
        ensures { result ≡ (shown self.now).from }
    {
        self.parts().from
    }

    /// Whom it is for.
    pub fn to(&self) -> NodeId
        ensures { result ≡ (shown self.now).to }
    {
        self.parts().to
    }

    /// What its message is about.
    pub fn kind(&self) -> Kind
        ensures { result ≡ kind_of_message (shown self.now).message }
    {
        self.parts().kind
    }

    /// What it says.
    pub fn message(&self) -> MessageView<'a>
        ensures message { said result ≡ (shown self.now).message }
        ensures other { IsOther result }
    {
        let parts = self.parts();
        message_of(parts.kind, parts.fields)
    }

    /// The frame by itself, with its state or its set of peers made of the bytes.
    pub fn frame(&self, alloc: Global) -> Result<Frame, AllocError>
        ensures found { IfOk result (λ f. f ≡ shown self.now) }
        ensures fit { IfOk result IsFitFrame }
    {
        let parts = self.parts();
        let message = own(alloc, message_of(parts.kind, parts.fields))?;
        // For the proof alone: a body was checked to be a frame.
        fits(self.body);
        Ok(Frame {
            from: parts.from,
            to: parts.to,
            message,
        })
    }

    /// The frame by itself, as [`FrameView::frame`] makes it, in a place of its own. The error means that memory ran out.
    pub fn boxed(&self, alloc: Global) -> Result<BoxedFrame, AllocError>
        ensures found { IfOk result (λ f. f ≡ shown self.now) }
        ensures fit { IfOk result IsFitFrame }
    {
        BoxedFrame::of(alloc, self.frame(alloc)?)
    }

    fn parts(&self) -> Parts<'a>
        ensures { ArePartsOf result (shown self.now) }
    {
        match parts_of(self.body) {
            Some(parts) => parts,
            None => unreachable!(),
        }
    }
}

// The frame that a body holds is within the limits.
fn fits(body: &[u8])
    ensures { (f : Frame) → frame_of body.now ≡ Ok f → IsFitFrame f }
{}

// The message by itself.
fn own(alloc: Global, message: MessageView) -> Result<WireMessage, AllocError>
    ensures { IfOk result (λ m. m ≡ said message.entry) }
{
    match message {
        MessageView::Publish(state) => Ok(WireMessage::Publish(state.decode(alloc)?)),
        MessageView::PeersAsk { known } => Ok(WireMessage::PeersAsk {
            known: IdList::of(alloc, &known)?,
        }),
        MessageView::PeersAnswer {
            master,
            term,
            known,
        } => Ok(WireMessage::PeersAnswer {
            master,
            term,
            known: IdList::of(alloc, &known)?,
        }),
        MessageView::Other(message) => Ok(message),
    }
}

// The parts of a body that is a frame.
fn parts_of(body: &[u8]) -> Option<Parts<'_>>
    ensures { GivesParts result (frame_of body.now) }
{
    let mut reader = Reader::new(body);
    let Ok(byte) = reader.byte() else {
        return None;
    };
    let Some(kind) = Kind::of(byte) else {
        return None;
    };
    let Ok(from) = reader.id() else {
        return None;
    };
    let Ok(to) = reader.id() else {
        return None;
    };
    let fields = reader.rest();
    Some(Parts {
        kind,
        from,
        to,
        fields,
    })
}

// The message of a kind with these fields, which were checked.
fn message_of(kind: Kind, fields: &[u8]) -> MessageView<'_>
    requires { IsOk (whole (message_at kind fields.now)) }
    ensures message { whole (message_at kind fields.now) ≡ Ok (said result) }
    ensures other { IsOther result }
{
    match kind {
        Kind::Publish => lent_publication(fields),
        Kind::PeersAsk => lent_peers_ask(fields),
        Kind::PeersAnswer => lent_peers_answer(fields),
        Kind::StartJoin
        | Kind::Join
        | Kind::Response
        | Kind::Commit
        | Kind::JoinAsk
        | Kind::PreVoteAsk
        | Kind::PreVoteAnswer
        | Kind::PreVoteRefuse
        | Kind::FollowerCheck
        | Kind::FollowerAnswer
        | Kind::LeaderCheck
        | Kind::LeaderAnswer => other_message(kind, fields),
    }
}

fn lent_publication(fields: &[u8]) -> MessageView<'_>
    requires { IsOk (whole (message_at kind.Publish fields.now)) }
    ensures message { whole (message_at kind.Publish fields.now) ≡ Ok (said result) }
    ensures other { IsOther result }
{
    MessageView::Publish(StateView::of_checked(fields))
}

fn lent_peers_ask(fields: &[u8]) -> MessageView<'_>
    requires { IsOk (whole (message_at kind.PeersAsk fields.now)) }
    ensures message { whole (message_at kind.PeersAsk fields.now) ≡ Ok (said result) }
    ensures other { IsOther result }
{
    let mut reader = Reader::new(fields);
    match reader.ids(MAX_IDS as u8) {
        Ok(known) => MessageView::PeersAsk { known },
        Err(_) => unreachable!(),
    }
}

fn lent_peers_answer(fields: &[u8]) -> MessageView<'_>
    requires { IsOk (whole (message_at kind.PeersAnswer fields.now)) }
    ensures message { whole (message_at kind.PeersAnswer fields.now) ≡ Ok (said result) }
    ensures other { IsOther result }
{
    let mut reader = Reader::new(fields);
    match peers_answer(&mut reader) {
        Ok(answer) => {
            let PeersAnswer {
                master,
                term,
                known,
            } = answer;
            MessageView::PeersAnswer {
                master,
                term,
                known,
            }
        }
        Err(_) => unreachable!(),
    }
}

fn other_message(kind: Kind, fields: &[u8]) -> MessageView<'_>
    requires plain { IsPlain kind }
    requires ok { IsOk (whole (message_at kind fields.now)) }
    ensures message { whole (message_at kind fields.now) ≡ Ok (said result) }
    ensures other { IsOther result }
{
    let mut reader = Reader::new(fields);
    match plain_message(&mut reader, kind) {
        Ok(message) => MessageView::Other(message),
        Err(_) => unreachable!(),
    }
}

fn pass_publication(reader: &mut Reader) -> Result<(), FieldError>
    ensures { Passes result reader.new (message_at kind.Publish reader.old) }
{
    reader.pass_state()?;
    Ok(())
}

fn pass_peers_ask(reader: &mut Reader) -> Result<(), FieldError>
    ensures { Passes result reader.new (message_at kind.PeersAsk reader.old) }
{
    reader.pass_ids(MAX_IDS as u8)?;
    Ok(())
}

fn pass_peers_answer(reader: &mut Reader) -> Result<(), FieldError>
    ensures { Passes result reader.new (message_at kind.PeersAnswer reader.old) }
{
    reader.optional_id()?;
    reader.term()?;
    reader.pass_ids(MAX_IDS as u8)?;
    Ok(())
}

fn pass_plain(reader: &mut Reader, kind: Kind) -> Result<(), FieldError>
    requires { IsPlain kind }
    ensures { Passes result reader.new (message_at kind reader.old) }
{
    plain_message(reader, kind)?;
    Ok(())
}

// Passes over the fields of a message.
fn pass_message(reader: &mut Reader, kind: Kind) -> Result<(), FieldError>
    ensures { Passes result reader.new (message_at kind reader.old) }
{
    match kind {
        Kind::Publish => pass_publication(reader),
        Kind::PeersAsk => pass_peers_ask(reader),
        Kind::PeersAnswer => pass_peers_answer(reader),
        Kind::StartJoin
        | Kind::Join
        | Kind::Response
        | Kind::Commit
        | Kind::JoinAsk
        | Kind::PreVoteAsk
        | Kind::PreVoteAnswer
        | Kind::PreVoteRefuse
        | Kind::FollowerCheck
        | Kind::FollowerAnswer
        | Kind::LeaderCheck
        | Kind::LeaderAnswer => pass_plain(reader, kind),
    }
}

// Whether the ids and the fields of a kind are all that is left.
fn check_rest(reader: &mut Reader, kind: Kind) -> Result<(), FrameError>
    ensures { Checks result (as_frame (whole (frame_at kind reader.old))) }
{
    reader.id()?;
    reader.id()?;
    pass_message(reader, kind)?;
    if !reader.is_at_end() {
        return Err(FrameError::Trailing);
    }
    Ok(())
}

// Whether the body is a frame, or its first fault.
pub(crate) fn check_body(body: &[u8]) -> Result<(), FrameError>
    ensures { Checks result (frame_of body.now) }
{
    let mut reader = Reader::new(body);
    let byte = reader.byte()?;
    match Kind::of(byte) {
        None => Err(FrameError::UnknownKind(byte)),
        Some(kind) => check_rest(&mut reader, kind),
    }
}
