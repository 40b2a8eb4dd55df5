//! How much was sealed so far, by kinds.
use client_lines::{Answer, Reply};
use coordinator::Sealed;
use master_tasks::Outgoing;
use policy_model::{Deed, Mode};
use std::fmt;
use std::hash::{DefaultHasher, Hasher};
use wire_frames::Frame;

/// What was sealed so far.
#[derive(Clone, Copy)]
pub struct Counts {
    events: u64,
    acts: u64,
    modes: u64,
    drops: u64,
    frames: u64,
    replies: u64,
    /// How many replies said that a request is done.
    pub acked: u64,
    /// The place of the node that became a leader last.
    pub leader: Option<usize>,
    // Of the places of nodes, the terms of modes, the kinds of frames and the ids of requests, in their order.
    digest: DefaultHasher,
}

impl fmt::Display for Counts {
    fn fmt<W: fmt::Write>(&self, f: &mut fmt::Formatter<W>) -> fmt::Result {
        write!(
            f,
            "events {}, acts {}, modes {}, drops {}, frames {}, replies {}, acked {}, digest {:016x}",
            self.events,
            self.acts,
            self.modes,
            self.drops,
            self.frames,
            self.replies,
            self.acked,
            self.digest.finish()
        )
    }
}

impl Counts {
    pub fn new() -> Counts {
        Counts {
            events: 0,
            acts: 0,
            modes: 0,
            drops: 0,
            frames: 0,
            replies: 0,
            acked: 0,
            leader: None,
            digest: DefaultHasher::new(),
        }
    }

    fn add_deeds(&mut self, place: usize, deeds: &[Deed]) {
        for deed in deeds {
            match deed {
                Deed::Act(_, _) => self.acts = self.acts.wrapping_add(1),
                Deed::Mode(mode, term) => {
                    self.modes = self.modes.wrapping_add(1);
                    self.digest.write_u64(*term);
                    if matches!(mode, Mode::Leader) {
                        self.leader = Some(place);
                    }
                }
            }
        }
    }

    fn add_frames(&mut self, frames: &[Frame]) {
        for frame in frames {
            self.frames = self.frames.wrapping_add(1);
            self.digest
                .write_u64(u64::from(frame.message.kind().code()));
        }
    }

    fn add_replies(&mut self, replies: &[Outgoing]) {
        for sent in replies {
            self.replies = self.replies.wrapping_add(1);
            if let Reply::To { id, answer } = &sent.reply {
                self.digest.write_u64(*id);
                if matches!(answer, Answer::Acked(_)) {
                    self.acked = self.acked.wrapping_add(1);
                }
            }
        }
    }

    /// An event more, of the node at a place, with what it showed.
    pub fn add(&mut self, place: usize, sealed: &Sealed) {
        let drops = sealed.entries().drops.as_slice().len();
        self.events = self.events.wrapping_add(1);
        self.drops = self.drops.wrapping_add(drops as u64);
        self.digest.write_u64(place as u64);
        self.add_deeds(place, sealed.entries().deeds.as_slice());
        self.add_frames(sealed.sends().as_slice());
        self.add_replies(sealed.replies().as_slice());
    }
}
