//! Traces that are read, and texts that are refused. The reasons are those of docs/formats.md.
use schedule_text::ReadError;
use std::alloc::{AllocError, Global};
use text::Text;
use trace_reader::{Ending, Said, TraceLine, read_trace, write_bad_trace};

const ELECTION: &str = "> boot a\n\
    act a ok boot a\n\
    > startjoin a a 1\n\
    act a ok startjoin a 1\n\
    m1 a->a join 1 0/0\n\
    > deliver a 1\n\
    act a ok join a a 1 0/0\n\
    won a 1\n";

// Whether the lines of the election are told as what they are.
fn are_told(lines: &[TraceLine]) -> bool {
    lines.len() == 8
        && lines[4].text.as_slice() == b"m1 a->a join 1 0/0".as_slice()
        && matches!(&lines[4].said, Said::Sent(_, Some(_)))
        && matches!(&lines[5].said, Said::Delivery(_, 1))
        && matches!(&lines[7].said, Said::Won(_, 1))
}

fn election_is_read(alloc: Global) -> bool {
    match read_trace(alloc, ELECTION.as_bytes()) {
        Ok(trace) => are_told(trace.as_slice()),
        Err(_) => false,
    }
}

#[test]
fn an_election_is_read(rt: HostRuntime) {
    assert!(rt; election_is_read(rt.alloc()));
}

// How the act of a second line ended.
fn second_ending(lines: &[TraceLine]) -> Option<Ending> {
    let line = lines.get(1)?;
    match &line.said {
        Said::Act(_, ending) => Some(*ending),
        _ => None,
    }
}

// Whether a text is so many lines, of which the second one is an act that ended so, or none.
fn is_read(alloc: Global, text: &str, count: usize, ending: Option<Ending>) -> bool {
    match read_trace(alloc, text.as_bytes()) {
        Ok(trace) => {
            trace.as_slice().len() == count && second_ending(trace.as_slice()) == ending
        }
        Err(_) => false,
    }
}

const READ: &[(&str, &str, usize, Option<Ending>)] = &[
    (
        "each_ending_is_read",
        "> boot a\nact a ok boot a\n",
        2,
        Some(Ending::Taken),
    ),
    (
        "each_ending_is_read",
        "> boot a\nact a refused:AlreadySet boot a\n",
        2,
        Some(Ending::Refused),
    ),
    (
        "each_ending_is_read",
        "> boot a\nact a stopped boot a\n",
        2,
        Some(Ending::Stopped),
    ),
    (
        "each_ending_is_read",
        "> boot a\nact a disk boot a\n",
        2,
        Some(Ending::Disk),
    ),
    (
        "each_ending_is_read",
        "> boot a\nact a crashed boot a\n",
        2,
        Some(Ending::Crashed),
    ),
    (
        "lines_of_whole_nodes_are_read",
        "> tick a 5 7\nmode a follower b 2\ndrop a b lag\nm1 a->* commit 1/1\nreply a {\"id\":1,\"not_master\":\"b\"}\n\
        > client a \n> crash a torn:a5\ncrashed a\n> restart a\nrecord a 1 0/0 a,b _\n> deliver a 9\nunsent\n\
        > disconnect a b\nmode a candidate 2\ndrop a b disconnect\n",
        15,
        None,
    ),
];

#[test]
fn lines_are_read(rt: HostRuntime) {
    for (name, text, count, ending) in READ {
        assert!(rt;
            is_read(rt.alloc(), text, *count, *ending),
            "{name}: {text}"
        );
    }
}

// Whether a text is no trace, and this is written of its first bad line.
fn is_bad(alloc: Global, text: &str, wanted: &str) -> Result<bool, AllocError> {
    let mut written = Text::new(alloc);
    if let Err(ReadError::Bad(bad)) = read_trace(alloc, text.as_bytes()) {
        write_bad_trace(&mut written, &bad)?;
    }
    Ok(written.as_bytes() == wanted.as_bytes())
}

// Texts that are no trace, and what is written of their first bad line.
const BAD: &[(&str, &str, &str)] = &[
    (
        "bad_lines_are_named",
        "act a ok boot a\n",
        "zen_chart: bad trace at line 1: Header\n",
    ),
    (
        "bad_lines_are_named",
        "> boot a",
        "zen_chart: bad trace at line 1: NoNewline\n",
    ),
    (
        "bad_lines_are_named",
        "> boot a\n\n",
        "zen_chart: bad trace at line 2: Verb\n",
    ),
    (
        "bad_lines_are_named",
        "> boot a b\n",
        "zen_chart: bad trace at line 1: Arity\n",
    ),
    (
        "bad_lines_are_named",
        "> boat a\n",
        "zen_chart: bad trace at line 1: Verb\n",
    ),
    (
        "bad_lines_are_named",
        "> deliver a 0\n",
        "zen_chart: bad trace at line 1: Number\n",
    ),
    (
        "bad_lines_are_named",
        "> boot A\n",
        "zen_chart: bad trace at line 1: Id\n",
    ),
    (
        "bad_lines_are_named",
        "> disconnect a\n",
        "zen_chart: bad trace at line 1: Arity\n",
    ),
    (
        "bad_lines_are_named",
        "> boot a\nact a maybe boot a\n",
        "zen_chart: bad trace at line 2: Verb\n",
    ),
    (
        "bad_lines_are_named",
        "> boot a\nact a ok\n",
        "zen_chart: bad trace at line 2: Arity\n",
    ),
    (
        "bad_lines_are_named",
        "> boot a\nact a ok open a\n",
        "zen_chart: bad trace at line 2: Verb\n",
    ),
    (
        "bad_lines_are_named",
        "> boot a\nm2 a->a join 1 0/0\n",
        "zen_chart: bad trace at line 2: Number\n",
    ),
    (
        "bad_lines_are_named",
        "> boot a\nm1 a=>a join 1 0/0\n",
        "zen_chart: bad trace at line 2: Id\n",
    ),
    (
        "bad_lines_are_named",
        "> boot a\nwon a 01\n",
        "zen_chart: bad trace at line 2: Number\n",
    ),
    (
        "bad_lines_are_named",
        "> boot a\nunsent a\n",
        "zen_chart: bad trace at line 2: Arity\n",
    ),
    (
        "a_fault_is_written",
        "> boot a\nboot a\n",
        "zen_chart: bad trace at line 2: Verb\n",
    ),
];

#[test]
fn bad_texts_are_refused(rt: HostRuntime) {
    for (name, text, wanted) in BAD {
        assert!(rt;
            is_bad(rt.alloc(), text, wanted) == Ok(true),
            "{name}: {text}"
        );
    }
}
