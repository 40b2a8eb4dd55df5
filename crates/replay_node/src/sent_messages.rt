//! `SentMessages`: the messages that a replay has sent, in few bytes each.
ghost use Rattle.std.specs.Option.{ForSome};
ghost use Rattle.std.specs.Prelude.{◌≡◌, ◌⊎◌, ◌<◌, ◌^◌, ◌++◌, ◌∷◌, [], length, slice_get, Some, IfOk, IfSome, OnOk, OnErr};
ghost use Rattle.world_model.specs.declared.acts.Message.TheVariants.{Publish as PublishMessage};
ghost use Rattle.replay_node.specs.Sent.{message_of};

use crate::message::{FitPublishRequest, SentMessage};
use crate::packed::{PackedMessage, pack, unpack};
use std::alloc::{AllocError, Global};
use std::marker::Model;
use std::rc::Rc;
use voting_config::Roster;

// A publication, whole, and its place among the messages.
#[derive(Drop)]
struct Publication {
    place: usize,
    request: Rc<FitPublishRequest>,
}

/// The messages that were sent, in their order, each in 32 bytes beside the bytes of its state. The publication that was sent last is at
/// hand whole too, shared with the node that published it; another one is made of its bytes when it is asked for. Contracts see the list of
/// the messages.
#[derive(Drop)]
pub struct SentMessages {
    alloc: Global,
    // Whose ids the messages name, in the order of their first sight.
    roster: Roster,
    packed: Vec<PackedMessage>,
    last: Option<Publication>,
}

impl Model for SentMessages {
    ghost use Rattle.std.specs.Prelude.{◌≡◌, List, Some, map, slice_get};
    ghost use Rattle.std.specs.List.{AllByRecursion};
    ghost use Rattle.std.specs.Option.{ForSome};
    ghost use Rattle.world_model.specs.declared.acts.Message.{Message};
    ghost use Rattle.world_model.specs.declared.acts.Message.TheVariants.{Publish};
    ghost use Rattle.replay_node.specs.Packed.{IsPacked, unpacked};

    ghost Value = { List Message };

    ghost view = { λ s. map (unpacked s.roster) s.packed.items };

    ghost invariant = { λ s. AllByRecursion (IsPacked s.roster) s.packed.items
        × ForSome s.last (λ p. slice_get (map (unpacked s.roster) s.packed.items) p.place ≡ Some (Publish p.request.value)) };
}

impl SentMessages {
    /// No messages. It takes no memory.
    pub fn new(alloc: Global) -> SentMessages
        ensures { result ≡ [] }
    {
        SentMessages {
            alloc,
            roster: Roster::new(),
            packed: Vec::new(alloc),
            last: None,
        }
    }

    /// How many there are.
    pub fn len(&self) -> usize
        ensures value { result ≡ length self.now }
        ensures fits { length self.now < 2 ^ 63 }
    {
        self.packed.len()
    }

    /// Puts a message behind the others. The error means that memory ran out; they are as before then.
    pub fn push(&mut self, message: &SentMessage) -> Result<(), AllocError>
        ensures ok { OnOk result (self.new ≡ self.old ++ message_of message.now ∷ []) }
        ensures err { OnErr result (self.new ≡ self.old) }
    {
        let packed = pack(self.alloc, &mut self.roster, message)?;
        let next = publication_of(message, self.packed.len())?;
        let Ok(()) = self.packed.push(packed) else {
            return Err(AllocError);
        };
        keep_last(&mut self.last, next);
        Ok(())
    }

    /// The message at a place, counted from 0. The error means that memory ran out.
    pub fn get(&self, place: usize) -> Result<SentMessage, AllocError>
        requires { place < length self.now }
        ensures { IfOk result (λ m. slice_get self.now place ≡ Some (message_of m)) }
    {
        match publication_at(&self.last, place) {
            Some(request) => share(request),
            None => unpack(
                self.alloc,
                self.roster.as_slice(),
                &self.packed.as_slice()[place],
            ),
        }
    }
}

// The publication that this message is, at this place, where it is one.
fn publication_of(message: &SentMessage, place: usize) -> Result<Option<Publication>, AllocError>
    ensures { IfOk result
        (λ next. ForSome next (λ p. (p.place ≡ place) × (message_of message.now ≡ PublishMessage p.request.value))) }
{
    match message {
        SentMessage::Publish(request) => {
            let request = request.clone()?;
            Ok(Some(Publication { place, request }))
        }
        _ => Ok(None),
    }
}

fn keep_last(last: &mut Option<Publication>, next: Option<Publication>)
    ensures { ForSome last.new (λ p. (next ≡ Some p) ⊎ (last.old ≡ Some p)) }
{
    match next {
        None => (),
        Some(publication) => *last = Some(publication),
    }
}

// The publication, where it is the one at this place.
fn publication_at(last: &Option<Publication>, place: usize) -> Option<&Rc<FitPublishRequest>>
    ensures { IfSome result (λ r. last.now ≡ Some (record { place = place; request = r.now })) }
{
    match last {
        None => None,
        Some(publication) => {
            if publication.place != place {
                return None;
            }
            Some(&publication.request)
        }
    }
}

fn share(request: &Rc<FitPublishRequest>) -> Result<SentMessage, AllocError>
    ensures { IfOk result (λ m. message_of m ≡ PublishMessage request.now.value) }
{
    let request = request.clone()?;
    Ok(SentMessage::Publish(request))
}
