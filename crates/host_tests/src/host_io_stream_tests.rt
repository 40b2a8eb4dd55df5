//! Outputs of which the other side is a program: one that reads late, not at all, or is gone. What is expected follows from when
//! it reads.
use self::Kind::*;
use host_io::{DescriptorOutput, StandardOutput};
use std::io;
use std::io::Write;
use std::os::fd::{AsRawFd, OwnedFd};
use std::os::unix::net::UnixStream;
use std::process::{Child, Command, Stdio};
use std::test::Fail;
use zen_link::{Failed, Sink, write_all};

// More than a pipe or a socket holds.
const LENGTH: usize = 1_000_000;

// What the program reads from.
#[derive(Clone, Copy)]
enum Kind {
    Pipe,
    // A socket whose writes don't wait: one that can't be done is refused.
    Socket,
}

// A test's name, what a shell does that reads, from what, how long it is waited for in milliseconds, or `None` for as long as it takes,
// and whether it has taken all.
type Test = (&'static str, &'static str, Kind, Option<i32>, bool);

const LATE: &str = "sleep 0.3; cat > /dev/null";

const NEVER: &str = "exec sleep 60";

const TESTS: &[Test] = &[
    ("a_late_reader_is_waited_for", LATE, Pipe, None, true),
    ("a_late_reader_is_waited_for", LATE, Socket, None, true),
    (
        "a_reader_is_waited_for_to_the_bound",
        LATE,
        Pipe,
        Some(30_000),
        true,
    ),
    (
        "a_reader_is_waited_for_to_the_bound",
        LATE,
        Socket,
        Some(30_000),
        true,
    ),
    ("a_write_ends_at_the_bound", NEVER, Pipe, Some(50), false),
    ("a_write_ends_at_the_bound", NEVER, Socket, Some(50), false),
    ("a_reader_that_is_gone_ends_a_write", ":", Pipe, None, false),
    (
        "a_reader_that_is_gone_ends_a_write",
        ":",
        Socket,
        None,
        false,
    ),
];

fn shell(rt: &HostRuntime, text: &str, input: Stdio) -> io::Result<Child> {
    let mut command = Command::new(rt.alloc(), "/bin/sh")?;
    command.arg("-c")?;
    command.arg(text)?;
    command.stdin(input).spawn(rt)
}

// Writes many bytes.
fn written<W: Write + AsRawFd + Drop>(
    rt: &HostRuntime,
    output: W,
    patience: Option<i32>,
) -> Result<(), Failed> {
    let mut output = match patience {
        Some(milliseconds) => DescriptorOutput::within(output, milliseconds),
        None => DescriptorOutput::new(output),
    };
    match vec![in rt.alloc(); 7u8; LENGTH] {
        Ok(bytes) => write_all(&mut output, bytes.as_slice()),
        Err(_) => Err(Failed),
    }
}

fn end(child: &mut Child) -> io::Result<()> {
    child.kill()?;
    child.wait()?;
    Ok(())
}

// Whether a program took all over a pipe.
fn pipe_takes(rt: &HostRuntime, text: &str, patience: Option<i32>) -> io::Result<bool> {
    let mut child = shell(rt, text, Stdio::piped())?;
    let is_taken = match child.stdin.take() {
        Some(pipe) => written(rt, pipe, patience).is_ok(),
        None => false,
    };
    end(&mut child)?;
    Ok(is_taken)
}

// Whether it took all over a socket.
fn socket_takes(rt: &HostRuntime, text: &str, patience: Option<i32>) -> io::Result<bool> {
    let (here, there) = UnixStream::pair(rt)?;
    here.set_nonblocking(true)?;
    let mut child = shell(rt, text, Stdio::from(OwnedFd::from(there)))?;
    let is_taken = written(rt, here, patience).is_ok();
    end(&mut child)?;
    Ok(is_taken)
}

#[test]
fn an_output_is_waited_for_within_its_bound(rt: HostRuntime) -> Result<(), Fail> {
    for (name, text, kind, patience, wanted) in TESTS {
        let is_taken = match kind {
            Pipe => pipe_takes(&rt, text, *patience)?,
            Socket => socket_takes(&rt, text, *patience)?,
        };
        assert!(rt; is_taken == *wanted, "{name}");
    }
    Ok(())
}

#[test]
fn the_standard_output_takes_bytes(rt: HostRuntime) -> Result<(), Fail> {
    let mut output = StandardOutput::new(rt.stdout());
    assert!(rt; output.write(b"") == Ok(0));
    assert!(rt; output.write(b"\n") == Ok(1));
    Ok(())
}
