//! Where in a text a line stands, and how large a text may be.
ghost use Rattle.std.specs.Prelude.{◌≡◌, ◌+◌, ◌<◌, ◌≤◌, ◌^◌, length, nat_le};
ghost use Rattle.recorded_trace.specs.Reading.{first_progress, after_line, why_cut as why_cut_of, no_header as no_header_of, most_bytes};

use crate::fault::{BadTrace, Why};

/// How many bytes a recorded trace has at most.
pub const MAX_BYTES: usize = 67108864;

/// What the lines before a line come to.
#[derive(Clone, Copy)]
pub struct Progress {
    /// The number of the line, counted from 1.
    pub number: usize,
    /// How many bytes stand before it.
    pub before: usize,
}

impl Progress {
    /// What no line comes to.
    pub fn first() -> Progress
        ensures { result ≡ first_progress }
    {
        Progress {
            number: 1,
            before: 0,
        }
    }

    /// What the lines up to this one come to.
    pub fn after(&self, line: &[u8]) -> Progress
        requires bytes { self.now.before + length line.now + 1 < 2 ^ 64 }
        requires lines { self.now.number + 1 < 2 ^ 64 }
        ensures { result ≡ after_line self.now line.now }
    {
        Progress {
            number: self.number + 1,
            before: self.before + line.len() + 1,
        }
    }

    /// The fault of this line.
    pub fn bad(&self, why: Why) -> BadTrace
        ensures { result ≡ record { line = self.now.number; why = why } }
    {
        BadTrace {
            line: self.number,
            why,
        }
    }

    /// Whether a line that has its line feed is within the limit.
    pub fn has_room(&self, line: &[u8]) -> bool
        requires { self.now.before + length line.now + 1 < 2 ^ 64 }
        ensures { result ≡ nat_le (self.now.before + length line.now + 1) most_bytes }
    {
        self.before + line.len() + 1 <= MAX_BYTES
    }

    /// Why a last line without a line feed is bad: `TooBig` or `NoNewline`.
    pub fn why_cut(&self, line: &[u8]) -> Why
        requires { self.now.before + length line.now < 2 ^ 64 }
        ensures { result ≡ why_cut_of self.now line.now }
    {
        if self.before + line.len() > MAX_BYTES {
            return Why::TooBig;
        }
        Why::NoNewline
    }
}

/// Why a text without a line feed is bad.
pub fn no_header(line: &[u8]) -> Why
    requires { length line.now < 2 ^ 64 }
    ensures { result ≡ no_header_of line.now }
{
    if line.is_empty() {
        return Why::Header;
    }
    Progress::first().why_cut(line)
}
