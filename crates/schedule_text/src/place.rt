//! Where a line stands in a text, and the limits of texts and lines.
ghost use Rattle.std.specs.Prelude.{◌≡◌, ◌+◌, ◌<◌, ◌^◌, length};
ghost use Rattle.schedule_text.specs.Reading.{first_place, after_line, sized_at, why_cut};
ghost use Rattle.schedule_text.specs.Answers.{Gives};

use crate::fault::{BadSchedule, WhyBad};

/// How many bytes a schedule has at most.
pub const MAX_BYTES: usize = 16777216;

/// How many lines a schedule has at most, those of the header counted.
pub const MAX_LINES: usize = 1000000;

/// How many bytes a line has at most, its line feed not counted.
pub const MAX_LINE_BYTES: usize = 16384;

/// Where a line stands: its number from 1 on, and how many bytes are before it.
#[derive(Clone, Copy)]
pub struct Place {
    pub number: usize,
    pub before: usize,
}

impl Place {
    /// Where the first line stands.
    pub fn first() -> Place
        ensures { result ≡ first_place }
    {
        Place {
            number: 1,
            before: 0,
        }
    }

    /// The fault of this line.
    pub fn bad(self, why: WhyBad) -> BadSchedule
        ensures { result ≡ record { line = self.number; why = why } }
    {
        BadSchedule {
            line: self.number,
            why,
        }
    }

    /// Where the line after this one stands.
    pub fn after(self, line: &[u8]) -> Place
        requires bytes { self.before + length line.now + 1 < 2 ^ 64 }
        requires lines { self.number + 1 < 2 ^ 64 }
        ensures { result ≡ after_line self line.now }
    {
        Place {
            number: self.number + 1,
            before: self.before + line.len() + 1,
        }
    }

    /// Whether a line that has its line feed is within the limits: `TooBig`, `TooMany` or `TooLong` where it is not.
    pub fn check_size(self, line: &[u8]) -> Result<(), WhyBad>
        requires { self.before + length line.now + 1 < 2 ^ 64 }
        ensures { Gives (λ u. line.now) result (sized_at self line.now) }
    {
        if self.before + line.len() + 1 > MAX_BYTES {
            return Err(WhyBad::TooBig);
        }
        if self.number > MAX_LINES {
            return Err(WhyBad::TooMany);
        }
        if line.len() > MAX_LINE_BYTES {
            return Err(WhyBad::TooLong);
        }
        Ok(())
    }

    /// Why a last line without a line feed is bad: `TooBig`, `TooMany` or `NoNewline`.
    pub fn why_cut(self, line: &[u8]) -> WhyBad
        requires { self.before + length line.now < 2 ^ 64 }
        ensures { result ≡ why_cut self line.now }
    {
        if self.before + line.len() > MAX_BYTES {
            return WhyBad::TooBig;
        }
        if self.number > MAX_LINES {
            return WhyBad::TooMany;
        }
        WhyBad::NoNewline
    }
}
