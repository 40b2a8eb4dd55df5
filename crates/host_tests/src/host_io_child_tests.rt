//! Real children: what they write, how they end, and that none is left. What is expected is what the shell writes and how it
//! ends.
use host_io::{Children, SystemChild};
use std::alloc::{AllocError, Global};
use std::fs;
use std::test::Fail;
use std::time::Instant;
use zen_host::{Ended, HostError};

// The words that have a shell do this.
fn script(alloc: Global, script: &str) -> Result<Vec<String>, AllocError> {
    let flag = String::from_str(alloc, "-c")?;
    let script = String::from_str(alloc, script)?;
    Ok(vec![in alloc; flag, script]?)
}

fn spawned(
    rt: &HostRuntime,
    children: &mut Children,
    text: &str,
) -> Result<SystemChild, HostError> {
    let Ok(words) = script(rt.alloc(), text) else {
        return Err(HostError::Memory);
    };
    children.spawn(rt, "/bin/sh", words.as_slice())
}

fn waited(children: &mut Children, child: SystemChild) -> Result<Ended, HostError> {
    children.wait(child).map_err(|unwaited| unwaited.error)
}

// How a shell that does this ends.
fn ended(rt: &HostRuntime, text: &str) -> Result<Ended, HostError> {
    let mut children = Children::new(rt.alloc());
    let child = spawned(rt, &mut children, text)?;
    waited(&mut children, child)
}

fn is_ended(answer: Result<Ended, HostError>, status: u8, output: &[u8]) -> bool {
    match answer {
        Ok(ended) => ended.status == status && ended.output.as_slice() == output,
        Err(_) => false,
    }
}

// A test's name, what a shell does, the status with which it ends, and what it has written.
const ENDS: &[(&str, &str, u8, &[u8])] = &[
    (
        "what_a_child_writes_and_its_status_come_back",
        "printf 'a\nb'; exit 11",
        11,
        b"a\nb",
    ),
    ("what_a_child_writes_and_its_status_come_back", ":", 0, b""),
    ("a_child_has_an_empty_input", "cat; echo end", 0, b"end\n"),
    (
        "a_signal_is_a_status_above_128",
        "echo a; kill -9 $$",
        137,
        b"a\n",
    ),
    (
        "a_child_that_closes_its_output_is_still_waited_for",
        "echo a; exec >&-; sleep 0.1; exit 3",
        3,
        b"a\n",
    ),
];

#[test]
fn a_child_ends_with_its_status_and_its_output(rt: HostRuntime) {
    for (name, text, status, output) in ENDS {
        assert!(rt; is_ended(ended(&rt, text), *status, output), "{name}");
    }
}

#[test]
fn a_program_that_is_not_there_is_refused(rt: HostRuntime) -> Result<(), Fail> {
    let mut children = Children::new(rt.alloc());
    let refused = children.spawn(&rt, "./no/such/program", &[]);
    assert!(rt; matches!(refused, Err(HostError::Failed)));
    Ok(())
}

// How much each of three children writes: 5 MB, and a line.
const LENGTH: usize = 5000004;

// The first child ends only after the others have written all that they have, of which a pipe holds 64 KiB.
const LAST: &str =
    "head -c 5000000 /dev/zero; while [ ! -e host_io_c1 ] || [ ! -e host_io_c2 ]; do sleep 0.05; done; echo end";

const TEXTS: &[&str] = &[
    LAST,
    "head -c 5000000 /dev/zero; : > host_io_c1; echo end",
    "head -c 5000000 /dev/zero; : > host_io_c2; echo end",
];

// The three of them.
fn started(rt: &HostRuntime, children: &mut Children) -> Result<Vec<SystemChild>, Fail> {
    let mut started = Vec::new(rt.alloc());
    for text in TEXTS {
        started.push(spawned(rt, children, text)?)?;
    }
    Ok(started)
}

// Whether one of them has ended, and has written all that it had.
fn is_all(answer: Result<Ended, HostError>) -> bool {
    match answer {
        Ok(ended) => {
            ended.status == 0
                && ended.output.len() == LENGTH
                && ended.output.as_slice().ends_with(b"end\n")
        }
        Err(_) => false,
    }
}

#[test]
fn all_children_write_while_one_is_waited_for(rt: HostRuntime) -> Result<(), Fail> {
    let _ = fs::remove_file(&rt, "host_io_c1");
    let _ = fs::remove_file(&rt, "host_io_c2");
    let mut children = Children::new(rt.alloc());
    for child in started(&rt, &mut children)? {
        assert!(rt; is_all(waited(&mut children, child)));
    }
    fs::remove_file(&rt, "host_io_c1")?;
    fs::remove_file(&rt, "host_io_c2")?;
    Ok(())
}

// Whether the system has a process of this number, be it one that has ended and was not waited for.
fn is_there(rt: &HostRuntime, process: &str) -> Result<bool, AllocError> {
    let path = format!(in rt.alloc(); "/proc/{process}/stat")?;
    Ok(fs::metadata(rt, path.as_str()).is_ok())
}

// A child that has written its number and then sleeps.
fn sleeper(rt: &HostRuntime, children: &mut Children) -> Result<SystemChild, HostError> {
    let text = "echo $$ > host_io_pid.new; mv host_io_pid.new host_io_pid; exec sleep 1000";
    let child = spawned(rt, children, text)?;
    let until_it_has = "while [ ! -e host_io_pid ]; do sleep 0.05; done";
    let other = spawned(rt, children, until_it_has)?;
    waited(children, other)?;
    Ok(child)
}

// Whether the system has a child's process until it is killed, and has none then.
fn is_gone(rt: &HostRuntime, children: &mut Children) -> Result<bool, Fail> {
    let child = sleeper(rt, children)?;
    let number = fs::read_to_string(rt, "host_io_pid")?;
    let was_there = is_there(rt, number.as_str().trim())?;
    children.kill(child)?;
    Ok(was_there && !is_there(rt, number.as_str().trim())?)
}

// The same, and whether that takes less time than the child would.
fn is_gone_at_once(rt: &HostRuntime) -> Result<bool, Fail> {
    let began = Instant::now(rt)?;
    let is_gone = {
        let mut children = Children::new(rt.alloc());
        is_gone(rt, &mut children)
    };
    Ok(is_gone? && began.elapsed(rt)?.as_secs() < 100)
}

#[test]
fn a_child_that_was_killed_is_gone(rt: HostRuntime) -> Result<(), Fail> {
    let _ = fs::remove_file(&rt, "host_io_pid");
    assert!(rt; is_gone_at_once(&rt)?);
    fs::remove_file(&rt, "host_io_pid")?;
    Ok(())
}
