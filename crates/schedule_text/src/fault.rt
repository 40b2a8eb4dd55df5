//! Why a text is no schedule.
ghost use Rattle.std.specs.Prelude.{◌≡◌};
ghost use Rattle.schedule_text.specs.Printed.{why_text};
ghost use Rattle.schedule_text.specs.declared.fault.ReadError.TheVariants as error;

use std::fmt::Display;
use thiserror::Error;

/// Why a line is bad. Where several hold, it is the first of them in this order, and among the last five that of the
/// first bad word from the left.
#[derive(Clone, Copy, Debug, PartialEq, Eq, Error)]
pub enum WhyBad {
    /// The line, its line feed counted, reaches past [`MAX_BYTES`](crate::MAX_BYTES) bytes of text.
    #[error("the text has too many bytes")]
    TooBig,
    /// [`MAX_LINES`](crate::MAX_LINES) lines stand before this one.
    #[error("the text has too many lines")]
    TooMany,
    /// The text ends before the line does.
    #[error("the last line has no line feed")]
    NoNewline,
    /// The line has over [`MAX_LINE_BYTES`](crate::MAX_LINE_BYTES) bytes before its line feed.
    #[error("the line has too many bytes")]
    TooLong,
    /// It is line 1 or 2, and no `nodes` or `initial` line that may stand there; or there is no line 2.
    #[error("the line is no header")]
    Header,
    /// The first word is no verb of the level.
    #[error("the first word is no verb")]
    Verb,
    /// The verb has another number of words after it, or a `client` line no node with a space after it.
    #[error("the verb takes another number of words")]
    Arity,
    /// The word is no listed node.
    #[error("a word names no listed node")]
    Id,
    /// The word is no decimal number without leading zeros, or it is out of bounds.
    #[error("a word is no number within bounds")]
    Number,
    /// The word is not 1 to 32 bytes of `a-z`, `0-9` and `-`.
    #[error("a word is no text of a setting")]
    Text,
    /// The word is no ascending list of listed nodes.
    #[error("a word is no list of listed nodes")]
    List,
    /// The word is not `none`, `all`, or `torn:` with two digits of `0-9` and `a-f`.
    #[error("a word is no mode of a stop")]
    Mode,
}

impl WhyBad {
    /// The name of the reason, as it stands in the printed form of a fault.
    pub fn name(self) -> &'static str
        ensures { result.now ≡ why_text self }
    {
        match self {
            WhyBad::TooBig => "TooBig",
            WhyBad::TooMany => "TooMany",
            WhyBad::NoNewline => "NoNewline",
            WhyBad::TooLong => "TooLong",
            WhyBad::Header => "Header",
            WhyBad::Verb => "Verb",
            WhyBad::Arity => "Arity",
            WhyBad::Id => "Id",
            WhyBad::Number => "Number",
            WhyBad::Text => "Text",
            WhyBad::List => "List",
            WhyBad::Mode => "Mode",
        }
    }
}

/// The first bad line of a text, and why it is bad.
#[derive(Clone, Copy, Debug, PartialEq, Eq, Error)]
#[error("bad schedule at line {line}: {why}")]
pub struct BadSchedule {
    /// The number of the line, counted from 1.
    pub line: usize,
    pub why: WhyBad,
}

/// Why nothing was read: a fault of the bytes, or that memory ran out.
#[derive(Clone, Copy, Debug, PartialEq, Eq, Error)]
#[error_bound(E: Display)]
pub enum ReadError<E> {
    #[error("{0}")]
    Bad(E),
    #[error("memory ran out")]
    Memory,
}

impl From<WhyBad> for ReadError<WhyBad> {
    ghost from_gives = { λ why e. e ≡ error.Bad why };

    fn from(why: WhyBad) -> ReadError<WhyBad> {
        ReadError::Bad(why)
    }
}
