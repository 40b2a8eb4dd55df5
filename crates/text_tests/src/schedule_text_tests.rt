//! Texts with their first bad lines, and texts that are printed as they were read. The reasons are those of docs/formats.md.
use crate::long_lists::with_ids;
use schedule_text::{
    BadSchedule, Level, Line, ReadError, WhyBad, read_schedule, write_bad_schedule, write_schedule,
};
use std::alloc::{AllocError, Global};
use std::process::Abort;
use std::test::Fail;
use text::Text;
use zen_disk::Way;

const HEADER: &[u8] = b"nodes a\ninitial a\n";

// The line of a text's fault and its reason, where it has one.
type Fault = Option<(usize, WhyBad)>;

fn fault(alloc: Global, level: Level, text: &[u8]) -> Result<Fault, AllocError> {
    match read_schedule(alloc, text, level) {
        Ok(_) => Ok(None),
        Err(ReadError::Bad(bad)) => Ok(Some((bad.line, bad.why))),
        Err(ReadError::Memory) => Err(AllocError),
    }
}

// Whether a text has this fault at each of these levels, or is read at each.
fn has_fault(
    alloc: Global,
    levels: &[Level],
    text: &[u8],
    wanted: Fault,
) -> Result<bool, AllocError> {
    for level in levels {
        if fault(alloc, *level, text)? != wanted {
            return Ok(false);
        }
    }
    Ok(true)
}

const CORE: &[Level] = &[Level::Core];

const NODE: &[Level] = &[Level::Node];

const BOTH: &[Level] = &[Level::Core, Level::Node];

// Whether a text has this fault that begins so, goes on with so many times the same bytes, and ends so.
fn has_fault_with(
    alloc: Global,
    levels: &[Level],
    (head, part, count, end): (&[u8], &[u8], usize, &[u8]),
    wanted: Fault,
) -> Result<bool, AllocError> {
    let mut text = Vec::from_slice(alloc, head)?;
    text.extend_from_slice(&part.repeat(alloc, count)?)?;
    text.extend_from_slice(end)?;
    has_fault(alloc, levels, text.as_slice(), wanted)
}

fn third_lines_are_bad(
    alloc: Global,
    levels: &[Level],
    rows: &[(&str, WhyBad)],
) -> Result<(), Fail> {
    for (line, why) in rows {
        let parts = (HEADER, line.as_bytes(), 1, b"".as_slice());
        if !has_fault_with(alloc, levels, parts, Some((3, *why)))? {
            return Err(Fail::new(format_args!("at {line}")));
        }
    }
    Ok(())
}

const CORE_LINES: &[(&str, WhyBad)] = &[
    ("voting-only a\n", WhyBad::Verb),
    ("voting-only _\n", WhyBad::Verb),
    ("profile 2\n", WhyBad::Verb),
    ("tick a 0 0\n", WhyBad::Verb),
    ("client a x\n", WhyBad::Verb),
    ("disconnect a a\n", WhyBad::Verb),
    ("deliver a\n", WhyBad::Arity),
    ("deliver z x\n", WhyBad::Id),
    ("deliver a 01\n", WhyBad::Number),
    ("deliver a 0\n", WhyBad::Number),
    ("deliver a 4294967296\n", WhyBad::Number),
    ("startjoin a a 18446744073709551616\n", WhyBad::Number),
    ("value a 1 X a\n", WhyBad::Text),
    ("value a 1 x a,a\n", WhyBad::List),
    ("boot a", WhyBad::NoNewline),
    ("boot  a\n", WhyBad::Arity),
    ("boot a \n", WhyBad::Arity),
    (" boot a\n", WhyBad::Verb),
    ("boot \n", WhyBad::Id),
    ("boot\ta\n", WhyBad::Verb),
    ("\n", WhyBad::Verb),
    ("crash a\n", WhyBad::Arity),
    ("crash a all all\n", WhyBad::Arity),
    ("crash z all\n", WhyBad::Id),
    ("crash a most\n", WhyBad::Mode),
    ("crash a \n", WhyBad::Mode),
    ("crash a torn:\n", WhyBad::Mode),
    ("crash a torn:1\n", WhyBad::Mode),
    ("crash a torn:123\n", WhyBad::Mode),
    ("crash a torn:0G\n", WhyBad::Mode),
    ("crash a torn:AB\n", WhyBad::Mode),
    ("crash a torn:A5\n", WhyBad::Mode),
    ("crash a Torn:ab\n", WhyBad::Mode),
    ("restart\n", WhyBad::Arity),
    ("restart \n", WhyBad::Id),
    ("fuse a 1\n", WhyBad::Arity),
    ("fuse a 0 all\n", WhyBad::Number),
    ("fuse a 4294967296 all\n", WhyBad::Number),
    ("fuse a 0 x\n", WhyBad::Number),
    ("fuse a 1 x\n", WhyBad::Mode),
    ("fail a\n", WhyBad::Arity),
    ("fail a 0\n", WhyBad::Number),
];

#[test]
fn names_the_reason_of_a_third_line_at_level_core(rt: HostRuntime) -> Result<(), Fail> {
    third_lines_are_bad(rt.alloc(), CORE, CORE_LINES)
}

const NODE_LINES: &[(&str, WhyBad)] = &[
    ("voting-only\n", WhyBad::Header),
    ("voting-only \n", WhyBad::Header),
    ("voting-only z\n", WhyBad::Header),
    ("voting-only a,a\n", WhyBad::Header),
    ("voting-only a a\n", WhyBad::Header),
    ("voting-only a", WhyBad::NoNewline),
    ("voting-onlya a\n", WhyBad::Verb),
    ("voting\n", WhyBad::Verb),
    ("profile\n", WhyBad::Header),
    ("profile \n", WhyBad::Header),
    ("profile 1\n", WhyBad::Header),
    ("profile 02\n", WhyBad::Header),
    ("profile 2 \n", WhyBad::Header),
    ("profile  2\n", WhyBad::Header),
    ("profile 2", WhyBad::NoNewline),
    ("profiles 2\n", WhyBad::Verb),
    ("boot a\n", WhyBad::Verb),
    ("startjoin a a 1\n", WhyBad::Verb),
    ("value a 1 x a\n", WhyBad::Verb),
    ("clients a x\n", WhyBad::Verb),
    ("tick a 0\n", WhyBad::Arity),
    ("tick a 0 0 0\n", WhyBad::Arity),
    ("tick z x x\n", WhyBad::Id),
    ("tick a 00 0\n", WhyBad::Number),
    ("tick a 0 \n", WhyBad::Number),
    ("tick a 4611686018427387905 0\n", WhyBad::Number),
    ("tick a 0 18446744073709551616\n", WhyBad::Number),
    ("client\n", WhyBad::Arity),
    ("client \n", WhyBad::Arity),
    ("client a\n", WhyBad::Arity),
    ("client  a\n", WhyBad::Id),
    ("client z \n", WhyBad::Id),
    ("client a x", WhyBad::NoNewline),
    ("disconnect\n", WhyBad::Arity),
    ("disconnect a\n", WhyBad::Arity),
    ("disconnect a a a\n", WhyBad::Arity),
    ("disconnect z a\n", WhyBad::Id),
    ("disconnect a z\n", WhyBad::Id),
    ("disconnect a \n", WhyBad::Id),
    ("disconnect a a", WhyBad::NoNewline),
    ("deliver a\n", WhyBad::Arity),
    ("deliver a 0\n", WhyBad::Number),
    ("crash a most\n", WhyBad::Mode),
    ("restart z\n", WhyBad::Id),
    ("fuse a 1\n", WhyBad::Arity),
    ("fail a 0\n", WhyBad::Number),
];

#[test]
fn names_the_reason_of_a_third_line_at_level_node(rt: HostRuntime) -> Result<(), Fail> {
    third_lines_are_bad(rt.alloc(), NODE, NODE_LINES)
}

// A text with its fault at these levels.
const FAULTS: &[(&str, &[Level], &str, Fault)] = &[
    (
        "names_the_reason_of_a_header",
        BOTH,
        "nodes a\ninitial _\n",
        Some((2, WhyBad::Header)),
    ),
    (
        "names_the_reason_of_a_header",
        BOTH,
        "nodes a\ninitial b\n",
        Some((2, WhyBad::Header)),
    ),
    (
        "names_the_reason_of_a_header",
        BOTH,
        "nodes a\ninitial a",
        Some((2, WhyBad::NoNewline)),
    ),
    (
        "names_the_reason_of_a_header",
        BOTH,
        "nodes a\n",
        Some((2, WhyBad::Header)),
    ),
    (
        "names_the_reason_of_a_header",
        BOTH,
        "nodes a",
        Some((1, WhyBad::NoNewline)),
    ),
    (
        "names_the_reason_of_a_header",
        BOTH,
        "nodes b,a\n",
        Some((1, WhyBad::Header)),
    ),
    (
        "names_the_reason_of_a_header",
        BOTH,
        "\n",
        Some((1, WhyBad::Header)),
    ),
    ("names_the_reason_of_a_header", BOTH, "", None),
    (
        "names_the_reason_of_a_header",
        BOTH,
        "nodes a\ninitial a\n",
        None,
    ),
    (
        "takes_a_list_of_no_voting_only_nodes",
        NODE,
        "nodes a\ninitial a\nvoting-only _\n",
        None,
    ),
    (
        "takes_the_profile_after_the_voting_only_nodes",
        NODE,
        "nodes a\ninitial a\nvoting-only _\nprofile 2\ntick a 0 0\n",
        None,
    ),
    (
        "names_the_reason_of_a_header",
        NODE,
        "nodes a\ninitial a\nvoting-only a\nprofile 1\n",
        Some((4, WhyBad::Header)),
    ),
    // a further header line does not stand at its place
    (
        "takes_a_further_header_line_at_its_place_alone",
        NODE,
        "nodes a\ninitial a\nprofile 2\nprofile 2\n",
        Some((4, WhyBad::Verb)),
    ),
    (
        "takes_a_further_header_line_at_its_place_alone",
        NODE,
        "nodes a\ninitial a\nprofile 2\nvoting-only a\n",
        Some((4, WhyBad::Verb)),
    ),
    (
        "takes_a_further_header_line_at_its_place_alone",
        NODE,
        "nodes a\ninitial a\ntick a 0 0\nprofile 2\n",
        Some((4, WhyBad::Verb)),
    ),
    (
        "takes_a_further_header_line_at_its_place_alone",
        NODE,
        "nodes a\ninitial a\nvoting-only a\nvoting-only a\n",
        Some((4, WhyBad::Verb)),
    ),
    (
        "takes_a_further_header_line_at_its_place_alone",
        NODE,
        "nodes a\ninitial a\ntick a 0 0\nvoting-only a\n",
        Some((4, WhyBad::Verb)),
    ),
    (
        "takes_a_further_header_line_at_its_place_alone",
        NODE,
        "nodes a\ninitial a\nvoting-only a\ntick a 0 0\nboot a\n",
        Some((5, WhyBad::Verb)),
    ),
    (
        "counts_the_lines_before_a_bad_one",
        CORE,
        "nodes a\ninitial a\nrestart a\nfail a 10\nrestart z\n",
        Some((5, WhyBad::Id)),
    ),
];

#[test]
fn names_the_first_fault_of_a_text(rt: HostRuntime) {
    for (name, levels, text, wanted) in FAULTS {
        assert!(rt;
            has_fault(rt.alloc(), levels, text.as_bytes(), *wanted) == Ok(true),
            "{name}: {text}"
        );
    }
}

// A header with so many nodes and so many first voters.
fn header(alloc: Global, nodes: u8, voters: u8) -> Result<String, AllocError> {
    let head = with_ids(alloc, "nodes ", nodes, ",", "\ninitial ")?;
    with_ids(alloc, head.as_str(), voters, ",", "\n")
}

fn has_header_fault(
    alloc: Global,
    nodes: u8,
    voters: u8,
    wanted: Fault,
) -> Result<bool, AllocError> {
    let text = header(alloc, nodes, voters)?;
    has_fault(alloc, BOTH, text.as_bytes(), wanted)
}

// How many nodes and how many first voters, and the fault of such a header at both levels.
const LONG_HEADERS: &[(u8, u8, Fault)] = &[
    (64, 64, None),
    (65, 64, Some((1, WhyBad::Header))),
    (64, 65, Some((2, WhyBad::Header))),
];

#[test]
fn a_header_lists_up_to_64_ids(rt: HostRuntime) {
    for (nodes, voters, wanted) in LONG_HEADERS {
        assert!(rt;
            has_header_fault(rt.alloc(), *nodes, *voters, *wanted) == Ok(true),
            "{nodes} and {voters}"
        );
    }
}

// Whether the schedule that a text spells is printed so.
fn prints(alloc: Global, level: Level, text: &[u8], wanted: &[u8]) -> Result<bool, AllocError> {
    let Ok(schedule) = read_schedule(alloc, text, level) else {
        return Ok(false);
    };
    let printed = write_schedule(alloc, &schedule)?;
    Ok(printed.as_bytes() == wanted)
}

const PRINTED: &[(&str, Level, &[u8])] = &[
    (
        "prints_what_it_has_read",
        Level::Core,
        b"nodes a,b\ninitial a\nboot a\nstartjoin a b 18446744073709551615\nvalue b 0 x-1 _\nvalue b 7 x a,b\ndeliver a 4294967295\n",
    ),
    (
        "prints_each_stop_that_it_has_read",
        Level::Core,
        b"nodes a,b\ninitial a\ncrash b none\ncrash b all\ncrash b torn:09\nrestart b\nfuse a 1 torn:af\nfuse a 4294967295 none\nfail b 10\n",
    ),
    (
        "prints_what_it_has_read_at_level_node",
        Level::Node,
        b"nodes a,b\n\
          initial a\n\
          tick a 0 0\n\
          tick b 4611686018427387904 18446744073709551615\n\
          client a \n\
          client b  get  x \n\
          client a \xff\x00\x80\n\
          disconnect a b\n\
          disconnect b b\n\
          deliver a 1\n\
          crash a torn:09\n\
          restart a\n\
          fuse b 1 all\n\
          fail b 10\n",
    ),
    (
        "prints_the_voting_only_nodes_that_it_has_read",
        Level::Node,
        b"nodes v\ninitial v\nvoting-only v\n",
    ),
    (
        "prints_the_voting_only_nodes_that_it_has_read",
        Level::Node,
        b"nodes a,b,v,w\ninitial a,b,v\nvoting-only b,v\ntick a 0 0\n",
    ),
    (
        "prints_the_profile_that_it_has_read",
        Level::Node,
        b"nodes a\ninitial a\nprofile 2\n",
    ),
    (
        "prints_the_profile_that_it_has_read",
        Level::Node,
        b"nodes a,b\ninitial a\nvoting-only b\nprofile 2\ntick a 0 0\n",
    ),
];

#[test]
fn prints_each_schedule_as_it_was_read(rt: HostRuntime) {
    for (name, level, text) in PRINTED {
        assert!(rt;
            prints(rt.alloc(), *level, text, text) == Ok(true),
            "{name}"
        );
    }
}

// A text that says that nobody is voting-only, and what is printed of it.
const OF_NOBODY: &[(&[u8], &[u8])] = &[
    (
        b"nodes a\ninitial a\nvoting-only _\n",
        b"nodes a\ninitial a\n",
    ),
    (
        b"nodes a\ninitial a\nvoting-only _\nprofile 2\ntick a 0 0\n",
        b"nodes a\ninitial a\nprofile 2\ntick a 0 0\n",
    ),
];

#[test]
fn prints_no_line_of_voting_only_nodes_where_there_are_none(rt: HostRuntime) {
    for (at, (text, printed)) in OF_NOBODY.iter().enumerate() {
        assert!(rt;
            prints(rt.alloc(), Level::Node, text, printed) == Ok(true),
            "row {at}"
        );
    }
}

// Writes what a line of a client holds, to which byte a crash tears, or of a value its version, the length of its text and the number of its nodes.
fn write_shown(text: &mut Text, line: &Line) -> Result<(), AllocError> {
    match line {
        Line::Client(_, bytes) => {
            text.word("client ")?;
            text.bytes(bytes.as_slice())
        }
        Line::Crash(_, Way::Torn(byte)) => {
            text.word("torn ")?;
            text.number(u64::from(*byte))
        }
        Line::Value(_, version, setting, config) => {
            text.word("value ")?;
            text.number_and(*version, b' ')?;
            text.number_and(setting.get().as_str().len() as u64, b' ')?;
            text.number(config.lend().len() as u64)
        }
        _ => text.word("another"),
    }
}

// Whether the lines of a text show that.
fn shows(alloc: Global, level: Level, text: &[u8], wanted: &str) -> Result<bool, AllocError> {
    let mut shown = Text::new(alloc);
    if let Ok(schedule) = read_schedule(alloc, text, level) {
        for line in schedule.lines.as_slice() {
            write_shown(&mut shown, line)?;
        }
    }
    Ok(shown.as_bytes() == wanted.as_bytes())
}

// Texts of one line each, and what it shows.
const SHOWN: &[(&str, Level, &[u8], &str)] = &[
    (
        "shows_a_clients_line_with_its_spaces",
        Level::Node,
        b"nodes a\ninitial a\nclient a put x  1 \n",
        "client put x  1 ",
    ),
    (
        "shows_a_clients_line_with_its_spaces",
        Level::Node,
        b"nodes a\ninitial a\nclient a \n",
        "client ",
    ),
    (
        "shows_a_torn_byte",
        Level::Core,
        b"nodes a,b\ninitial a\ncrash b torn:a7\n",
        "torn 167",
    ),
    (
        "shows_a_value",
        Level::Core,
        b"nodes a,b\ninitial a\nvalue b 7 x-1 a,b\n",
        "value 7 3 2",
    ),
];

#[test]
fn shows_what_a_line_holds(rt: HostRuntime) {
    for (name, level, text, wanted) in SHOWN {
        assert!(rt;
            shows(rt.alloc(), *level, text, wanted) == Ok(true),
            "{name}"
        );
    }
}

// Whether a fault is written into a text that was cleared.
fn has_cleared_for_fault(alloc: Global) -> Result<bool, AllocError> {
    let mut text = Text::new(alloc);
    text.word("act ")?;
    let has_begun = text.len() == 4;
    text.clear();
    let bad = BadSchedule {
        line: 3,
        why: WhyBad::Id,
    };
    write_bad_schedule(&mut text, &bad)?;
    Ok(has_begun && text.as_bytes() == b"zen: bad schedule at line 3: Id\n".as_slice())
}

#[test]
fn prints_a_fault(rt: HostRuntime) {
    assert!(rt; has_cleared_for_fault(rt.alloc()) == Ok(true));
}

// What a text begins with, a part of it and how many times that stands there, its end, and its fault.
type Long = (&'static [u8], &'static [u8], usize, &'static [u8], Fault);

fn have_faults(rt: &impl Abort, alloc: Global, rows: &[Long]) -> Result<(), Fail> {
    for (head, part, count, end, wanted) in rows {
        let text = (*head, *part, *count, *end);
        let has_fault = has_fault_with(alloc, CORE, text, *wanted)?;
        assert!(rt; has_fault, "at {count}");
    }
    Ok(())
}

const MILLION: &[Long] = &[
    (HEADER, b"deliver a 1\n", 999_998, b"", None),
    (
        HEADER,
        b"deliver a 1\n",
        999_998,
        b"x",
        Some((1_000_001, WhyBad::TooMany)),
    ),
];

#[test]
fn takes_a_million_lines(rt: HostRuntime) -> Result<(), Fail> {
    have_faults(&rt, rt.alloc(), MILLION)
}

// Texts of 16,777,217 bytes. Where the first line is bad, that comes first.
const BIG: &[Long] = &[
    (
        HEADER,
        b"xxxxxxxxxxxxxxxx",
        1_048_574,
        b"xxxxxxxxxxxxxxx",
        Some((3, WhyBad::TooBig)),
    ),
    (
        b"",
        b"\n\n\n\n\n\n\n\n\n\n\n\n\n\n\n\n",
        1_048_576,
        b"\n",
        Some((1, WhyBad::Header)),
    ),
];

#[test]
fn names_a_text_that_is_too_big(rt: HostRuntime) -> Result<(), Fail> {
    have_faults(&rt, rt.alloc(), BIG)
}

const LONG_LINES: &[Long] = &[
    (HEADER, b"x", 16384, b"\n", Some((3, WhyBad::Verb))),
    (HEADER, b"x", 16385, b"\n", Some((3, WhyBad::TooLong))),
];

#[test]
fn names_a_line_that_is_too_long(rt: HostRuntime) -> Result<(), Fail> {
    have_faults(&rt, rt.alloc(), LONG_LINES)
}
