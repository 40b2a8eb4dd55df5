//! The children of the process: started, read from while one is waited for, and killed.
use crate::errors::error_of;
use libc::net::{POLLIN, poll};
use libc::types::pollfd;
use std::alloc::{AllocError, Global};
use std::io;
use std::io::Read;
use std::os::fd::AsRawFd;
use std::os::unix::process::ExitStatusExt;
use std::process::{Child, ChildStdout, Command, ExitStatus, Stdio};
use zen_host::{Ended, HostError};

// How many bytes are read at once.
const PIECE: usize = 16384;

// How long the other children's output is read before a child that has closed its own is asked again whether it has ended,
// in milliseconds.
const PAUSE: i32 = 10;

/// A child, by the number that was given it.
#[derive(Drop)]
pub struct SystemChild {
    number: u64,
}

/// Why a child was not waited for, and whether it was ended then.
#[derive(Clone, Copy)]
pub struct Unwaited {
    pub error: HostError,
    pub ended: bool,
}

// A child that was neither waited for nor killed.
#[derive(Drop)]
struct Running {
    number: u64,
    process: Child,
    // `None` at the end of its output, and after a fault
    pipe: Option<ChildStdout>,
    output: Vec<u8>,
    // why its output could not be kept
    fault: Option<HostError>,
}

/// The children of this process. While one is waited for, the output of all is read, so that none waits at a full pipe.
#[derive(Drop)]
pub struct Children {
    alloc: Global,
    running: Vec<Running>,
    // how many were spawned
    spawned: u64,
}

fn launch(rt: &HostRuntime, alloc: Global, program: &str, words: &[String]) -> io::Result<Child> {
    let mut command = Command::new(alloc, program)?;
    for word in words {
        command.arg(word.as_str())?;
    }
    command
        .stdin(Stdio::null())
        .stdout(Stdio::piped())
        .spawn(rt)
}

// Ends a child, and takes its status, so that the system keeps nothing of it.
fn end(process: &mut Child) -> io::Result<()> {
    process.kill()?;
    process.wait()?;
    Ok(())
}

// The exit status, or 128 and the number of the signal that ended the child.
fn code_of(status: ExitStatus) -> u8 {
    let code = match status.code() {
        Some(code) => code,
        None => 128i32.saturating_add(status.signal().unwrap_or(0)),
    };
    u8::try_from(code).unwrap_or(u8::MAX)
}

impl Running {
    // What is asked of the system: nothing, by the descriptor -1, where there is no more to read.
    fn asks(&self) -> pollfd {
        let fd = match &self.pipe {
            Some(pipe) => pipe.as_raw_fd(),
            None => -1,
        };
        pollfd {
            fd,
            events: POLLIN,
            revents: 0,
        }
    }

    fn read_piece(&mut self) -> Result<bool, HostError> {
        let Some(pipe) = &mut self.pipe else {
            return Ok(false);
        };
        let mut piece = [0; PIECE];
        match pipe.read(&mut piece) {
            Ok(count) => match self.output.extend_from_slice(&piece[..count]) {
                Ok(()) => Ok(count > 0),
                Err(_) => Err(HostError::Memory),
            },
            Err(error) if error.kind() == io::ErrorKind::Interrupted => Ok(true),
            Err(error) => Err(error_of(error)),
        }
    }

    // Reads what is there, and notes the end of the output.
    fn read(&mut self) {
        match self.read_piece() {
            Ok(true) => {}
            Ok(false) => self.pipe = None,
            Err(fault) => {
                self.pipe = None;
                self.fault = Some(fault);
            }
        }
    }

    // Reads what is there by the system's answer.
    fn read_by(&mut self, answer: Option<&pollfd>) {
        match answer {
            Some(answer) if answer.revents != 0 => self.read(),
            _ => {}
        }
    }

    // Its status, once its output is read to the end and it has ended.
    fn status(&mut self) -> Result<Option<ExitStatus>, HostError> {
        if let Some(fault) = self.fault {
            return Err(fault);
        }
        if self.pipe.is_some() {
            return Ok(None);
        }
        match self.process.try_wait() {
            Ok(status) => Ok(status),
            Err(error) => Err(error_of(error)),
        }
    }
}

impl Children {
    /// No children.
    pub fn new(alloc: Global) -> Children {
        Children {
            alloc,
            running: Vec::new(alloc),
            spawned: 0,
        }
    }

    /// Runs a program with these words: with an empty input, a pipe as its output, and this process's standard error. The
    /// program is looked for as a shell does.
    pub fn spawn(
        &mut self,
        rt: &HostRuntime,
        program: &str,
        words: &[String],
    ) -> Result<SystemChild, HostError> {
        // A child that has no place here would have to be ended, which may fail.
        let Ok(()) = self.running.reserve(1) else {
            return Err(HostError::Memory);
        };
        let mut process = match launch(rt, self.alloc, program, words) {
            Ok(process) => process,
            Err(error) => return Err(error_of(error)),
        };
        let pipe = process.stdout.take();
        self.spawned = self.spawned.saturating_add(1);
        self.running.push_reserved(Running {
            number: self.spawned,
            process,
            pipe,
            output: Vec::new(self.alloc),
            fault: None,
        });
        Ok(SystemChild {
            number: self.spawned,
        })
    }

    /// Waits until a child has ended and its output is closed, also by those that it has started. Where that fails, the
    /// child is killed, unless that fails too.
    pub fn wait(&mut self, child: SystemChild) -> Result<Ended, Unwaited> {
        let Some(mut running) = self.take(&child) else {
            return Err(Unwaited {
                error: HostError::Failed,
                ended: false,
            });
        };
        match self.status_of(&mut running) {
            Ok(status) => Ok(Ended {
                status: code_of(status),
                output: running.output,
            }),
            Err(error) => {
                // The error that is told is the one that came first.
                let ended = end(&mut running.process).is_ok();
                Err(Unwaited { error, ended })
            }
        }
    }

    /// Ends a child at once.
    pub fn kill(&mut self, child: SystemChild) -> Result<(), HostError> {
        match self.take(&child) {
            Some(mut running) => end(&mut running.process).map_err(error_of),
            None => Err(HostError::Failed),
        }
    }

    fn take(&mut self, child: &SystemChild) -> Option<Running> {
        for place in 0..self.running.len() {
            if self.running[place].number == child.number {
                return Some(self.running.remove(place));
            }
        }
        None
    }

    // Reads the output of this child and of all others until it has ended.
    fn status_of(&mut self, awaited: &mut Running) -> Result<ExitStatus, HostError> {
        for _ in 0..u64::MAX {
            if let Some(status) = awaited.status()? {
                return Ok(status);
            }
            self.read_ready(awaited)?;
        }
        Err(HostError::Failed)
    }

    // Waits until one of them has written or closed its output, and reads a piece of each that has. Where this child has
    // closed its own, it waits for a pause at most.
    fn read_ready(&mut self, awaited: &mut Running) -> Result<(), HostError> {
        let Ok(mut asked) = self.asked(awaited) else {
            return Err(HostError::Memory);
        };
        let pause = if awaited.pipe.is_some() { -1 } else { PAUSE };
        // A wait that a signal has ended has set nothing.
        let _ = poll(asked.as_mut_slice(), pause);
        let mut answers = asked.iter();
        awaited.read_by(answers.next());
        for running in &mut self.running {
            running.read_by(answers.next());
        }
        Ok(())
    }

    // What is asked of the system: which of them have something to read, this one first.
    fn asked(&self, awaited: &Running) -> Result<Vec<pollfd>, AllocError> {
        let mut asked = Vec::new(self.alloc);
        asked.push(awaited.asks())?;
        for running in &self.running {
            asked.push(running.asks())?;
        }
        Ok(asked)
    }
}
