//! `PackedMessage`: a message in few bytes. Its ids are places on a roster, and a published state is the bytes that spell it.
ghost use Rattle.std.specs.Prelude.{◌≡◌, IfOk, IsOk, List};
ghost use Rattle.voting_config.specs.Ids.{Id};
ghost use Rattle.cluster_state.specs.States.{IsFit, state as state_field, whole as whole_of};
ghost use Rattle.cluster_state.specs.Viewed.{state_in};
ghost use Rattle.world_model.specs.declared.acts.Message.TheVariants.{Publish as PublishMessage};
ghost use Rattle.replay_node.specs.Kept.{request_in};
ghost use Rattle.replay_node.specs.Packed.{GrowsTo, HasPlace, IsPacked, Packs, unpacked};
ghost use Rattle.replay_node.specs.Sent.{message_of};

use crate::message::{FitPublishRequest, SentMessage};
use cluster_state::{
    ApplyCommit, ClusterState, Join, PublishResponse, SharedState, StateView, encode_state,
};
use std::alloc::{AllocError, Global};
use std::mem::size_of;
use voting_config::{Full, NodeId, Roster};

/// A message whose ids are places on a roster, counted from 0. A state has lists and settings of its own, so it is kept as its bytes, which
/// lie in one place.
#[derive(Drop)]
pub enum PackedMessage {
    Join {
        source: u8,
        target: u8,
        term: u64,
        last_term: u64,
        last_version: u64,
    },
    Publish {
        source: u8,
        bytes: Vec<u8>,
    },
    Response {
        source: u8,
        target: u8,
        term: u64,
        version: u64,
    },
    Commit {
        source: u8,
        term: u64,
        version: u64,
    },
    /// A message with an id that has no place, since the roster is full.
    Whole(Box<SentMessage>),
}

// A replay keeps each message to its end, so each is to be small.
const _: () = prove!(size_of::<PackedMessage>() == 32);

/// The message in few bytes, where its ids are on the roster or there is room for them.
pub fn pack(
    alloc: Global,
    roster: &mut Roster,
    message: &SentMessage,
) -> Result<PackedMessage, AllocError>
    ensures roster { GrowsTo roster.old roster.new }
    ensures packed { IfOk result (λ p. Packs roster.new p (message_of message.now)) }
{
    match message {
        SentMessage::Join(join) => match admit_both(roster, join.source, join.target) {
            Ok(places) => Ok(PackedMessage::Join {
                source: places.source,
                target: places.target,
                term: join.term,
                last_term: join.last_term,
                last_version: join.last_version,
            }),
            Err(Full) => pack_whole(alloc, message),
        },
        SentMessage::Publish(request) => match roster.admit(*request.source()) {
            Ok(source) => pack_publish(alloc, source, request.state()),
            Err(Full) => pack_whole(alloc, message),
        },
        SentMessage::Response(response) => {
            match admit_both(roster, response.source, response.target) {
                Ok(places) => Ok(PackedMessage::Response {
                    source: places.source,
                    target: places.target,
                    term: response.term,
                    version: response.version,
                }),
                Err(Full) => pack_whole(alloc, message),
            }
        }
        SentMessage::Commit(commit) => match roster.admit(commit.source) {
            Ok(source) => Ok(PackedMessage::Commit {
                source,
                term: commit.term,
                version: commit.version,
            }),
            Err(Full) => pack_whole(alloc, message),
        },
    }
}

// Where the two ids of a message stand on a roster.
#[derive(Clone, Copy)]
struct Places {
    source: u8,
    target: u8,
}

fn admit_both(roster: &mut Roster, source: NodeId, target: NodeId) -> Result<Places, Full>
    ensures roster { GrowsTo roster.old roster.new }
    ensures source { IfOk result (λ places. HasPlace roster.new source places.source) }
    ensures target { IfOk result (λ places. HasPlace roster.new target places.target) }
{
    Ok(Places {
        source: roster.admit(source)?,
        target: roster.admit(target)?,
    })
}

fn pack_publish(alloc: Global, source: u8, state: &SharedState) -> Result<PackedMessage, AllocError>
    requires { IsFit state.now }
    ensures { IfOk result
        (λ p. (roster : List Id) (id : Id) → HasPlace roster id source
        → Packs roster p (PublishMessage (record { source = id; state = state.now }))) }
{
    let bytes = spelled(alloc, state)?;
    Ok(PackedMessage::Publish { source, bytes })
}

fn pack_whole(alloc: Global, message: &SentMessage) -> Result<PackedMessage, AllocError>
    ensures { IfOk result (λ p. (roster : List Id) → Packs roster p (message_of message.now)) }
{
    match Box::new(alloc, message.copy()?) {
        Ok(message) => Ok(PackedMessage::Whole(message)),
        Err(_) => Err(AllocError),
    }
}

/// The message whose ids stand at its places among these. A state is made of its bytes once more.
pub fn unpack(
    alloc: Global,
    ids: &[NodeId],
    packed: &PackedMessage,
) -> Result<SentMessage, AllocError>
    requires { IsPacked ids.now packed.now }
    ensures { IfOk result (λ m. message_of m ≡ unpacked ids.now packed.now) }
{
    match packed {
        PackedMessage::Join {
            source,
            target,
            term,
            last_term,
            last_version,
        } => Ok(SentMessage::Join(Join {
            source: ids[*source as usize],
            target: ids[*target as usize],
            term: *term,
            last_term: *last_term,
            last_version: *last_version,
        })),
        PackedMessage::Publish { source, bytes } => {
            unpack_publish(alloc, ids[*source as usize], bytes)
        }
        PackedMessage::Response {
            source,
            target,
            term,
            version,
        } => Ok(SentMessage::Response(PublishResponse {
            source: ids[*source as usize],
            target: ids[*target as usize],
            term: *term,
            version: *version,
        })),
        PackedMessage::Commit {
            source,
            term,
            version,
        } => Ok(SentMessage::Commit(ApplyCommit {
            source: ids[*source as usize],
            term: *term,
            version: *version,
        })),
        PackedMessage::Whole(message) => message.copy(),
    }
}

fn unpack_publish(alloc: Global, source: NodeId, bytes: &[u8]) -> Result<SentMessage, AllocError>
    requires { IsOk (whole_of (state_field.at bytes.now)) }
    ensures { IfOk result (λ m. message_of m ≡ PublishMessage (request_in source bytes.now)) }
{
    let state = read_again(alloc, bytes)?;
    let request = FitPublishRequest::of(alloc, source, &state)?;
    Ok(SentMessage::Publish(request))
}

// The bytes of a state, which is within the limits.
fn spelled(alloc: Global, written: &ClusterState) -> Result<Vec<u8>, AllocError>
    requires { IsFit written.now }
    ensures good { IfOk result (λ bytes. IsOk (whole_of (state_field.at bytes.items))) }
    ensures held { IfOk result (λ bytes. state_in (whole_of (state_field.at bytes.items)) ≡ written.now) }
{
    encode_state(alloc, written)
}

// The state that these bytes spell.
fn read_again(alloc: Global, bytes: &[u8]) -> Result<SharedState, AllocError>
    requires { IsOk (whole_of (state_field.at bytes.now)) }
    ensures state { IfOk result (λ s. s ≡ state_in (whole_of (state_field.at bytes.now))) }
    ensures fit { IfOk result (λ s. IsFit s) }
{
    let view = StateView::of_checked(bytes);
    // For the proof alone: a state that is spelled is within the limits.
    let _ = view.bytes();
    view.decode(alloc)
}
