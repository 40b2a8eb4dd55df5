//! Lines out of a stream of bytes, the same however the bytes are cut.
ghost use Rattle.std.specs.Prelude.{◌≡◌, ℕ, ◌≤◌, List, [], ◌++◌, length, IfOk, OnErr};
ghost use Rattle.client_lines.specs.Lines.{kept as kept_of, lines_of, rest_of};
ghost use Rattle.client_lines.specs.Laws.{CutsAnywhere, KeepsEnough};
ghost use Rattle.client_lines.specs.Ends.{IsEnding, IsWhole};

use crate::reading::MAX_LINE;
use bytes::BytesMut;
use memchr::memchr;
use std::alloc::{AllocError, Global};
use std::marker::Model;

// One byte more than a line may have, so that one that is too long still shows.
const MAX_KEPT: usize = MAX_LINE + 1;

/// A line without its line feed. Contracts see its bytes.
#[derive(Drop)]
pub struct Line {
    bytes: Vec<u8>,
}

impl Model for Line {
    ghost use Rattle.std.specs.Prelude.{ℕ, List};
    ghost use Rattle.std.specs.Coded.{coded_list, coded_ℕ};

    ghost Value = { List ℕ };

    ghost coded = { coded_list coded_ℕ };

    ghost view = { λ l. l.bytes.items };
}

impl Line {
    /// The line of these bytes.
    pub fn of(bytes: Vec<u8>) -> Line
        ensures { result ≡ bytes.items }
    {
        Line { bytes }
    }

    /// The bytes.
    pub fn as_bytes(&self) -> &[u8]
        ensures { result.now ≡ self.now }
    {
        &self.bytes
    }
}

/// Lines, in the order in which they came. Contracts see the list of them.
#[derive(Drop)]
pub struct Lines {
    lines: Vec<Line>,
}

impl Model for Lines {
    ghost use Rattle.std.specs.Prelude.{ℕ, List};
    ghost use Rattle.std.specs.Coded.{coded_list, coded_ℕ};

    ghost Value = { List (List ℕ) };

    ghost coded = { coded_list (coded_list coded_ℕ) };

    ghost view = { λ l. l.lines.items };
}

impl Lines {
    /// The lines.
    pub fn as_slice(&self) -> &[Line]
        ensures { result.now ≡ self.now }
    {
        &self.lines
    }

    /// The lines, to be owned one by one.
    pub fn into_lines(self) -> Vec<Line>
        ensures { result.items ≡ self }
    {
        self.lines
    }
}

// The lines that end in bytes, and how many bytes they take with their line feeds.
#[derive(Drop)]
struct Ended {
    lines: Vec<Line>,
    used: usize,
}

// Of a line that is too long, one byte more than a line may have.
fn kept(line: &[u8]) -> &[u8]
    ensures { result.now ≡ kept_of line.now }
{
    if line.len() <= MAX_KEPT {
        return line;
    }
    &line[..MAX_KEPT]
}

fn copied(alloc: Global, bytes: &[u8]) -> Result<Line, AllocError>
    ensures { IfOk result (λ line. line ≡ kept_of bytes.now) }
{
    Ok(Line::of(Vec::from_slice(alloc, kept(bytes))?))
}

// The lines that end in bytes, of which the first ones, so many, have no line feed.
fn lines_in(alloc: Global, bytes: &[u8], clean: usize) -> Result<Ended, AllocError>
    requires { IsEnding [] 0 clean bytes.now }
    ensures { IfOk result (λ ended. IsWhole ended.lines.items ended.used bytes.now) }
{
    let mut lines = Vec::new(alloc);
    let mut used = 0;
    let mut seen = clean;
    while let Some(more) = memchr(b'\n', &bytes[seen..]) {
        let end = seen + more;
        lines.push(copied(alloc, &bytes[used..end])?)?;
        used = end + 1;
        seen = used;
    }
    Ok(Ended { lines, used })
}

/// What makes lines of bytes. Contracts see what it holds of the line that has not ended: its first bytes, one more
/// than a line may have at most.
#[derive(Drop)]
pub struct LineReader {
    held: BytesMut,
    alloc: Global,
}

impl Model for LineReader {
    ghost use Rattle.std.specs.Prelude.{ℕ, List};
    ghost use Rattle.std.specs.Coded.{coded_list, coded_ℕ};
    ghost use Rattle.client_lines.specs.Lines.{IsHeld};

    ghost Value = { List ℕ };

    ghost coded = { coded_list coded_ℕ };

    ghost view = { λ r. r.held.items };

    ghost invariant = { λ r. IsHeld r.held.items };
}

impl LineReader {
    /// A reader to which nothing has come.
    pub fn new(alloc: Global) -> LineReader
        ensures { result ≡ [] }
    {
        LineReader {
            held: BytesMut::new(alloc),
            alloc,
        }
    }

    /// The lines that these bytes end, the first of which begins with what is held. A line that is longer than a line
    /// may be comes with its first bytes alone, one more than it may have. After an error the reader is as before.
    pub fn feed(&mut self, bytes: &[u8]) -> Result<Lines, AllocError>
        ensures ok { IfOk result (λ lines. lines ≡ lines_of (self.old ++ bytes.now)) }
        ensures held { IfOk result (λ lines. self.new ≡ rest_of (self.old ++ bytes.now)) }
        ensures err { OnErr result (self.new ≡ self.old) }
    {
        let held = self.held.len();
        self.held.extend_from_slice(bytes)?;
        match lines_in(self.alloc, self.held.as_slice(), held) {
            Ok(Ended { lines, used }) => {
                self.held.advance(used);
                self.held.truncate(MAX_KEPT);
                Ok(Lines { lines })
            }
            Err(error) => {
                self.held.truncate(held);
                Err(error)
            }
        }
    }
}

/// Bytes that come in two pieces give the lines that they give in one, and leave the same to be held.
pub fn law_cuts()
    ensures { (prefix back : List ℕ) → CutsAnywhere prefix back }
{}

/// What is kept of a line is the request that the whole line is, or has its fault.
pub fn law_kept()
    ensures { (line : List ℕ) → KeepsEnough line }
{}
