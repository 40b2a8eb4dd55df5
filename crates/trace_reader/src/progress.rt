//! What the lines of a trace so far come to, and how large a trace may be.
ghost use Rattle.std.specs.Prelude.{◌≡◌, ◌+◌, ◌<◌, ◌≤◌, ◌^◌, length, OnOk};
ghost use Rattle.schedule_text.specs.Answers.{Gives};
ghost use Rattle.trace_reader.specs.Limits.{most_trace_lines};
ghost use Rattle.trace_reader.specs.Reading.{first_progress, actor_after, next_after, after_line, sized_at, why_cut};

use crate::fault::BadTrace;
use crate::said::Said;
use schedule_text::WhyBad;
use voting_config::NodeId;

/// How many bytes a trace has at most.
pub const MAX_TRACE_BYTES: usize = 268435456;

/// How many lines a trace has at most.
pub const MAX_TRACE_LINES: usize = 1000000;

/// What the lines before a line come to.
#[derive(Clone, Copy)]
pub struct Progress {
    /// The number of the line, counted from 1.
    pub number: usize,
    /// How many bytes stand before it.
    pub before: usize,
    /// The node of the last line of the schedule.
    pub actor: Option<NodeId>,
    /// The number of the next message, counted from 1.
    pub next: u64,
}

fn next_behind(next: u64, said: &Said) -> u64
    requires { next + 1 < 2 ^ 64 }
    ensures { result ≡ next_after next said.now }
{
    match said {
        Said::Sent(_, _) => next + 1,
        _ => next,
    }
}

fn actor_behind(actor: Option<NodeId>, said: &Said) -> Option<NodeId>
    ensures { result ≡ actor_after actor said.now }
{
    match said {
        Said::Delivery(node, _) => Some(*node),
        Said::Event(node) => Some(*node),
        _ => actor,
    }
}

impl Progress {
    /// What nothing comes to.
    pub fn first() -> Progress
        ensures { result ≡ first_progress }
    {
        Progress {
            number: 1,
            before: 0,
            actor: None,
            next: 1,
        }
    }

    /// The fault of this line.
    pub fn bad(&self, why: WhyBad) -> BadTrace
        ensures { result ≡ record { line = self.now.number; why = why } }
    {
        BadTrace {
            line: self.number,
            why,
        }
    }

    /// What the lines up to this one come to.
    pub fn after(&self, line: &[u8], said: &Said) -> Progress
        requires bytes { self.now.before + length line.now + 1 < 2 ^ 64 }
        requires lines { self.now.number + 1 < 2 ^ 64 }
        requires messages { self.now.next + 1 < 2 ^ 64 }
        ensures { result ≡ after_line self.now line.now said.now }
    {
        Progress {
            number: self.number + 1,
            before: self.before + line.len() + 1,
            actor: actor_behind(self.actor, said),
            next: next_behind(self.next, said),
        }
    }

    /// Whether a line that has its line feed is within the limits: `TooBig` or `TooMany` where it is not.
    pub fn check_size(&self, line: &[u8]) -> Result<(), WhyBad>
        requires { self.now.before + length line.now + 1 < 2 ^ 64 }
        ensures is { result ≡ sized_at self.now line.now }
        ensures counted { OnOk result (self.now.number ≤ most_trace_lines) }
    {
        if self.before + line.len() + 1 > MAX_TRACE_BYTES {
            return Err(WhyBad::TooBig);
        }
        if self.number > MAX_TRACE_LINES {
            return Err(WhyBad::TooMany);
        }
        Ok(())
    }

    /// Why a last line without a line feed is bad: `TooBig`, `TooMany` or `NoNewline`.
    pub fn why_cut(&self, line: &[u8]) -> WhyBad
        requires { self.now.before + length line.now < 2 ^ 64 }
        ensures { result ≡ why_cut self.now line.now }
    {
        if self.before + line.len() > MAX_TRACE_BYTES {
            return WhyBad::TooBig;
        }
        if self.number > MAX_TRACE_LINES {
            return WhyBad::TooMany;
        }
        WhyBad::NoNewline
    }
}
