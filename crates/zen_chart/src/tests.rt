//! Runs in memory, one for each status that no lack of memory brings. The statuses are those of docs/charts.md.

use crate::running::run;
use crate::status::Status;
use std::alloc::{AllocError, Global};
use std::test::Fail;
use zen_link::{MemSink, MemSource};

// A run: what the input holds, whether there are words, and the numbers of the reads and writes that fail.
#[derive(Clone, Copy)]
struct Case<'a> {
    input: &'a str,
    has_words: bool,
    reads: &'a [u64],
    writes: &'a [u64],
}

const VOTE: Case<'static> = Case {
    input: "> boot a\n\
        act a ok boot a\n\
        > startjoin a a 1\n\
        act a ok startjoin a 1\n\
        m1 a->a join 1 0/0\n\
        > deliver a 1\n\
        act a ok join a a 1 0/0\n\
        won a 1\n",
    has_words: false,
    reads: &[],
    writes: &[],
};

#[derive(Drop)]
struct Ended {
    status: Status,
    sink: MemSink,
}

// The sink takes 100 bytes at a time.
fn ran(alloc: Global, case: Case<'_>) -> Result<Ended, AllocError> {
    let bytes = Vec::from_slice(alloc, case.input.as_bytes())?;
    let mut source = MemSource::new(bytes, Vec::from_slice(alloc, case.reads)?);
    let mut sink = MemSink::new(alloc, 100, Vec::from_slice(alloc, case.writes)?);
    let status = run(alloc, case.has_words, &mut source, &mut sink);
    Ok(Ended { status, sink })
}

// Whether these bytes stand somewhere in the text.
fn has(text: &[u8], wanted: &str) -> bool {
    for start in 0..text.len() {
        if text[start..].starts_with(wanted.as_bytes()) {
            return true;
        }
    }
    false
}

#[test]
fn a_trace_is_drawn(rt: HostRuntime) -> Result<(), Fail> {
    let ended = ran(rt.alloc(), VOTE)?;
    let picture = ended.sink.as_bytes();
    assert!(rt; ended.status == Status::Ok);
    assert!(rt; picture.starts_with("<svg ".as_bytes()));
    assert!(rt; picture.ends_with("</svg>\n".as_bytes()));
    assert!(rt; has(picture, "<title>m1 a-&gt;a join 1 0/0</title></path>"));
    assert!(rt; has(picture, "<title>won a 1</title>won 1</text>"));
    Ok(())
}

#[test]
fn no_byte_is_a_trace(rt: HostRuntime) -> Result<(), Fail> {
    let ended = ran(rt.alloc(), Case { input: "", ..VOTE })?;
    assert!(rt; ended.status == Status::Ok);
    assert!(rt; ended.sink.as_bytes().ends_with("</svg>\n".as_bytes()));
    Ok(())
}

// Whether a run ends so, with this written and nothing more.
fn ends(alloc: Global, case: Case<'_>, status: Status, written: &str) -> Result<bool, AllocError> {
    let ended = ran(alloc, case)?;
    Ok(ended.status == status && ended.sink.as_bytes() == written.as_bytes())
}

#[test]
fn words_are_refused(rt: HostRuntime) -> Result<(), Fail> {
    let words = Case {
        has_words: true,
        ..VOTE
    };
    let cut = Case {
        writes: &[1],
        ..words
    };
    assert!(rt; ends(rt.alloc(), words, Status::Usage, "zen_chart: usage\n")?);
    assert!(rt; ends(rt.alloc(), cut, Status::WriteFault, "")?);
    Ok(())
}

#[test]
fn the_first_bad_line_is_written(rt: HostRuntime) -> Result<(), Fail> {
    for (input, line) in [
        (
            "act a ok boot a\n",
            "zen_chart: bad trace at line 1: Header\n",
        ),
        (
            "> boot a\nbooted a\n",
            "zen_chart: bad trace at line 2: Verb\n",
        ),
        (
            "> boot a\nwon a 1",
            "zen_chart: bad trace at line 2: NoNewline\n",
        ),
        (
            "> boot a\nwon a\nwon a 1",
            "zen_chart: bad trace at line 2: Arity\n",
        ),
        (
            "> boot a\nm2 a->b join 1 0/0\n",
            "zen_chart: bad trace at line 2: Number\n",
        ),
        (
            "> boot a\nwon A! 1\n",
            "zen_chart: bad trace at line 2: Id\n",
        ),
        ("> crash a most\n", "zen_chart: bad trace at line 1: Mode\n"),
    ] {
        let bad = Case { input, ..VOTE };
        let cut = Case {
            writes: &[1],
            ..bad
        };
        assert!(rt; ends(rt.alloc(), bad, Status::BadTrace, line)?, "{input}");
        assert!(rt; ends(rt.alloc(), cut, Status::WriteFault, "")?, "{input}");
    }
    Ok(())
}

#[test]
fn a_read_that_fails_ends_the_run(rt: HostRuntime) -> Result<(), Fail> {
    for number in [1, 2] {
        let case = Case {
            reads: &[number],
            ..VOTE
        };
        assert!(rt; ends(rt.alloc(), case, Status::ReadFault, "")?, "{number}");
    }
    Ok(())
}

// Whether a run whose write of this number fails has written so many bytes of the whole.
fn leaves_a_prefix(
    alloc: Global,
    number: u64,
    bytes: usize,
    whole: &[u8],
) -> Result<bool, AllocError> {
    let ended = ran(
        alloc,
        Case {
            writes: &[number],
            ..VOTE
        },
    )?;
    let written = ended.sink.as_bytes();
    Ok(ended.status == Status::WriteFault && written.len() == bytes && whole.starts_with(written))
}

#[test]
fn a_write_that_fails_leaves_a_prefix(rt: HostRuntime) -> Result<(), Fail> {
    let whole = ran(rt.alloc(), VOTE)?;
    for (number, bytes) in [(1, 0), (2, 100), (7, 600)] {
        assert!(rt;
            leaves_a_prefix(rt.alloc(), number, bytes, whole.sink.as_bytes())?,
            "{number}"
        );
    }
    Ok(())
}
