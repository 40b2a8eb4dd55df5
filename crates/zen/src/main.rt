//! The program `zen` over the standard streams and the file system.
#![tactic(auto)]

use command_line::{ProgramCommand, WordsError, read_words};
use host_io::{Owner, STANDSTILL_MS, StandardInput, StandardOutput, SystemHost};
use node_bytes::SealedFrames;
use std::alloc::AllocError;
use std::process::ExitCode;
use std::{env, io};
use zen_app::{Status, run};

// The words after the program's name.
fn words(rt: &HostRuntime) -> io::Result<Vec<String>> {
    Ok(env::args(rt)?.skip(1).collect(rt.alloc())?)
}

// For whom a command has folders opened: a node names its own, and a tool that is told an id asks for the folder of that node.
fn owner_of(command: &Option<ProgramCommand>) -> Owner {
    match command {
        Some(ProgramCommand::Node(words)) => Owner::Named(words.link.settings().me),
        Some(ProgramCommand::UnsafeBootstrap { id, .. }) => Owner::Known(*id),
        _ => Owner::Any,
    }
}

// A node whose output stands still ends, since it would lead and serve nobody. What any other command writes can wait.
fn output_of(rt: &HostRuntime, command: &Option<ProgramCommand>) -> StandardOutput {
    match command {
        Some(ProgramCommand::Node(_)) => StandardOutput::within(rt.stdout(), STANDSTILL_MS),
        _ => StandardOutput::new(rt.stdout()),
    }
}

fn main(rt: HostRuntime) -> ExitCode {
    let words = match words(&rt) {
        Ok(words) => words,
        Err(error) if error.kind() == io::ErrorKind::OutOfMemory => {
            return ExitCode::from(Status::NoMemory.code());
        }
        // a word is no UTF-8, and so none that the program knows: without words, `run` writes the usage
        Err(_) => Vec::new(rt.alloc()),
    };
    let command = match read_words(rt.alloc(), words.as_slice()) {
        Ok(command) => Some(command),
        Err(WordsError::Usage) => None,
        Err(WordsError::Memory) => return ExitCode::from(Status::NoMemory.code()),
    };
    let mut input = StandardInput::new(rt.stdin());
    let mut output = output_of(&rt, &command);
    let mut host = SystemHost::new(&rt, SealedFrames).owned_by(owner_of(&command));
    let status: Status = run(
        rt.alloc(),
        words.as_slice(),
        &mut input,
        &mut output,
        &mut host,
    );
    ExitCode::from(status.code())
}
