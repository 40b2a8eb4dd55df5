//! The standard input as a source, and the standard output as a sink.
ghost use Rattle.std.specs.Prelude.{None, ⊤};
ghost use Rattle.std.specs.Io.{WritesAtMost};

use crate::connection::is_later;
use libc::net::{POLLOUT, poll};
use libc::types::pollfd;
use libc::{SEEK_CUR, lseek};
use std::io;
use std::io::{ErrorKind, Read, Stdin, Stdout, Write};
use std::os::fd::AsRawFd;
use zen_link::{Failed, Sink, Source};

/// The standard input.
#[derive(Drop)]
pub struct StandardInput {
    input: Stdin,
    faults: u64,
}

impl StandardInput {
    /// This standard input, with no fault yet.
    pub fn new(input: Stdin) -> StandardInput {
        StandardInput { input, faults: 0 }
    }
}

impl Source for StandardInput {
    ghost left = { λ _. None };

    ghost faults = { λ input. input.faults };

    ghost moves = { λ _ _ _. ⊤ };

    fn read(&mut self, into: &mut [u8]) -> Result<usize, Failed> {
        let Ok(count) = self.input.read(into) else {
            self.faults = self.faults.saturating_add(1);
            return Err(Failed);
        };
        Ok(count)
    }
}

/// How long a node waits for its standard output while that takes nothing, in milliseconds.
pub const STANDSTILL_MS: i32 = 10_000;

// The most bytes of one write. What is ready takes so many without a wait: of a pipe it is said for PIPE_BUF.
const PIECE: usize = 4096;

// A wait with no bound, in the words of the system.
const FOR_EVER: i32 = -1;

/// An output over a descriptor, which is waited for while it takes nothing, also where a write to it would not wait by itself.
#[derive(Drop)]
pub struct DescriptorOutput<W: Write + AsRawFd + Drop> {
    output: W,
    // How long it is waited for, in milliseconds, or `None` where it is always ready, as a file is.
    patience: Option<i32>,
    faults: u64,
}

/// The standard output.
pub type StandardOutput = DescriptorOutput<Stdout>;

impl<W: Write + AsRawFd + Drop> DescriptorOutput<W> {
    /// This output, with no fault yet. A write waits for it as long as it takes nothing.
    pub fn new(output: W) -> DescriptorOutput<W> {
        DescriptorOutput::with(output, FOR_EVER)
    }

    /// The same, but a write fails where the output takes nothing for so many milliseconds. This holds of a pipe, a socket and a
    /// file; a terminal may let a write wait for longer.
    pub fn within(output: W, milliseconds: i32) -> DescriptorOutput<W> {
        DescriptorOutput::with(output, milliseconds.max(0))
    }

    fn with(output: W, patience: i32) -> DescriptorOutput<W> {
        // What can be sought in is no pipe, socket or terminal.
        let can_seek = lseek(output.as_raw_fd(), 0, SEEK_CUR) >= 0;
        DescriptorOutput {
            output,
            patience: if can_seek { None } else { Some(patience) },
            faults: 0,
        }
    }
}

// Waits until an output is ready. `TimedOut` where it was not within so many milliseconds.
fn wait_for(output: &impl AsRawFd, patience: i32) -> io::Result<()> {
    let mut asked = [pollfd {
        fd: output.as_raw_fd(),
        events: POLLOUT,
        revents: 0,
    }];
    match poll(&mut asked, patience) {
        0 => Err(io::Error::from(ErrorKind::TimedOut)),
        // Where something is wrong with it, the next write says what.
        1 => Ok(()),
        _ => Err(io::Error::from(ErrorKind::Interrupted)),
    }
}

// Writes a prefix, once.
fn write_once<W: Write + AsRawFd>(
    output: &mut W,
    patience: Option<i32>,
    bytes: &[u8],
) -> io::Result<usize>
    ensures bound { WritesAtMost result bytes.now }
{
    let Some(patience) = patience else {
        return output.write(bytes);
    };
    wait_for(output, patience)?;
    output.write(&bytes[..bytes.len().min(PIECE)])
}

// Writes a prefix, as soon as the output takes one.
fn write_part<W: Write + AsRawFd>(
    output: &mut W,
    patience: Option<i32>,
    bytes: &[u8],
) -> io::Result<usize>
    ensures bound { WritesAtMost result bytes.now }
{
    for _ in 0..u64::MAX {
        match write_once(output, patience, bytes) {
            Err(error) if is_later(&error) => {}
            answer => return answer,
        }
    }
    Err(io::Error::from(ErrorKind::TimedOut))
}

impl<W: Write + AsRawFd + Drop> Sink for DescriptorOutput<W> {
    ghost written = { λ _. None };

    ghost faults = { λ output. output.faults };

    ghost moves = { λ _ _ _ _. ⊤ };

    fn write(&mut self, bytes: &[u8]) -> Result<usize, Failed> {
        if let Ok(count) = write_part(&mut self.output, self.patience, bytes) {
            if count > 0 || bytes.is_empty() {
                return Ok(count);
            }
        }
        self.faults = self.faults.saturating_add(1);
        Err(Failed)
    }
}
