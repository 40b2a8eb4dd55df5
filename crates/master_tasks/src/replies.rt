//! Replies in order, in room that was taken beforehand.
ghost use Rattle.std.specs.Prelude.{◌≡◌, ◌≤◌, length, IfOk, [], ◌∷◌};
ghost use Rattle.master_tasks.specs.Replying.{room_for, with_sent};

use crate::waiting::Outgoing;
use std::alloc::{AllocError, Global};
use std::marker::Model;

/// Replies in the order in which they are sent, with room for more, so that replying takes no memory.
#[derive(Drop)]
pub struct Replies {
    replies: Vec<Outgoing>,
    room: usize,
}

impl Model for Replies {
    ghost use Rattle.std.specs.Prelude.{◌+◌, ◌≤◌, vec_len, vec_capacity};
    ghost use Rattle.master_tasks.specs.Replying.{Replies as RepliesOf};

    ghost Value = { RepliesOf };

    ghost view = { λ r. record { sent = r.replies.items; room = r.room } };

    ghost invariant = { λ r. vec_len r.replies + r.room ≤ vec_capacity r.replies };
}

impl Replies {
    /// No replies, and no room.
    pub fn new(alloc: Global) -> Replies
        ensures { result ≡ room_for 0 }
    {
        Replies {
            replies: Vec::new(alloc),
            room: 0,
        }
    }

    /// No replies, and room for so many.
    pub fn with_room(alloc: Global, room: usize) -> Result<Replies, AllocError>
        ensures { IfOk result (λ r. r ≡ room_for room) }
    {
        Ok(Replies {
            replies: Vec::with_capacity(alloc, room)?,
            room,
        })
    }

    /// How many more replies there is room for.
    pub fn room(&self) -> usize
        ensures { result ≡ self.now.room }
    {
        self.room
    }

    /// The replies, in the order in which they were sent.
    pub fn as_slice(&self) -> &[Outgoing]
        ensures { result.now ≡ self.now.sent }
    {
        &self.replies
    }

    /// One more reply.
    pub fn push(&mut self, reply: Outgoing)
        requires { 1 ≤ self.old.room }
        ensures { self.new ≡ with_sent self.old (reply ∷ []) }
    {
        self.room -= 1;
        match self.replies.push(reply) {
            Ok(()) => {}
            Err(_) => unreachable!(),
        }
    }

    /// The replies of another, after these.
    pub fn append(&mut self, more: Replies)
        requires { length more.sent ≤ self.old.room }
        ensures { self.new ≡ with_sent self.old more.sent }
    {
        let Replies {
            mut replies,
            room: _,
        } = more;
        self.room -= replies.len();
        match self.replies.append(&mut replies) {
            Ok(()) => {}
            Err(_) => unreachable!(),
        }
    }
}
