//! The program `zen_chart`: it reads a trace from the standard input and writes its picture to the standard output.
#![tactic(auto)]

mod running;
mod status;
#[cfg(test)]
mod tests;

use host_io::{StandardInput, StandardOutput};
use running::run;
use status::Status;
use std::alloc::AllocError;
use std::process::ExitCode;
use std::{env, io};

// Whether there are words after the program's name.
fn has_words(rt: &HostRuntime) -> Result<bool, AllocError> {
    match env::args(rt) {
        Ok(words) => Ok(words.skip(1).count() > 0),
        Err(error) if error.kind() == io::ErrorKind::OutOfMemory => Err(AllocError),
        // a word is no UTF-8, but it is a word
        Err(_) => Ok(true),
    }
}

fn main(rt: HostRuntime) -> ExitCode {
    let Ok(has_words) = has_words(&rt) else {
        return ExitCode::from(Status::NoMemory.code());
    };
    let mut input = StandardInput::new(rt.stdin());
    let mut output = StandardOutput::new(rt.stdout());
    let status: Status = run(rt.alloc(), has_words, &mut input, &mut output);
    ExitCode::from(status.code())
}
