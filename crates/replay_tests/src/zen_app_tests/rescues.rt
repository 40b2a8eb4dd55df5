//! Schedules that are gone on with, and those that can't be. What is expected follows from docs/formats.md.
use super::runs::{
    Call, Case, Ending, Fault, REPLAY, Rest, Written, all_end, all_end_by, ends, replays,
    written_by,
};
use schedule_generator::Generator;
use schedule_text::{Level, write_line};
use std::alloc::{AllocError, Global};
use std::test::Fail;
use text::Text;
use zen_app::Status;

const UP_A: &[&str] = &["rescue", "--up", "a"];

const UP_A_AND_B: &[&str] = &["rescue", "--up", "a,b"];

// Of three nodes a has won term 1.
const ELECTED: &[u8] = b"nodes a,b,c\n\
    initial a,b,c\n\
    boot a\n\
    boot b\n\
    boot c\n\
    startjoin a a 1\n\
    startjoin b a 1\n\
    startjoin c a 1\n\
    deliver a 1\n\
    deliver a 2\n";

const GOES_ON: &[u8] = b"startjoin a a 2\n\
    startjoin b a 2\n\
    deliver a 4\n\
    deliver a 5\n\
    value a 1 rescue a,b,c\n\
    deliver a 6\n\
    deliver b 6\n\
    deliver a 7\n\
    deliver a 8\n";

// With what the trace of both together ends.
const WINS_AND_COMMITS: &[u8] = b"won a 2\n\
    > value a 1 rescue a,b,c\n\
    act a ok value 1 a,b,c {\"exclusions\":[],\"master\":null,\"members\":[],\"settings\":{\"v\":\"rescue\"}}\n\
    m6 a->* publish {\"committed\":[\"a\",\"b\",\"c\"],\"config\":[\"a\",\"b\",\"c\"],\"parent\":{\"term\":0,\"version\":0},\"term\":2,\"value\":{\"exclusions\":[],\"master\":null,\"members\":[],\"settings\":{\"v\":\"rescue\"}},\"version\":1}\n\
    > deliver a 6\n\
    act a ok publish a {\"committed\":[\"a\",\"b\",\"c\"],\"config\":[\"a\",\"b\",\"c\"],\"parent\":{\"term\":0,\"version\":0},\"term\":2,\"value\":{\"exclusions\":[],\"master\":null,\"members\":[],\"settings\":{\"v\":\"rescue\"}},\"version\":1}\n\
    m7 a->a response 2/1\n\
    > deliver b 6\n\
    act b ok publish a {\"committed\":[\"a\",\"b\",\"c\"],\"config\":[\"a\",\"b\",\"c\"],\"parent\":{\"term\":0,\"version\":0},\"term\":2,\"value\":{\"exclusions\":[],\"master\":null,\"members\":[],\"settings\":{\"v\":\"rescue\"}},\"version\":1}\n\
    m8 b->a response 2/1\n\
    > deliver a 7\n\
    act a ok response a a 2/1\n\
    > deliver a 8\n\
    act a ok response b a 2/1\n\
    committed {\"committed\":[\"a\",\"b\",\"c\"],\"config\":[\"a\",\"b\",\"c\"],\"parent\":{\"term\":0,\"version\":0},\"term\":2,\"value\":{\"exclusions\":[],\"master\":null,\"members\":[],\"settings\":{\"v\":\"rescue\"}},\"version\":1}\n\
    m9 a->* commit 2/1\n";

// Nodes a and b, of which b has accepted a state.
const NEWEST_OF_THE_LAST: &[u8] =
    b"nodes a,b\ninitial a,b\nboot a\nboot b\nstartjoin a b 1\nstartjoin b b 1\n\
    deliver b 1\ndeliver b 2\nvalue b 1 x a,b\ndeliver b 3\n";

const GOES_ON_WITH_THE_LAST: &[u8] =
    b"startjoin a b 2\nstartjoin b b 2\ndeliver b 5\ndeliver b 6\nvalue b 2 rescue a,b\n\
    deliver a 7\ndeliver b 7\ndeliver b 8\ndeliver b 9\n";

const ANSWERS: &[Ending] = &[
    // two of three go on
    (ELECTED, UP_A_AND_B, Status::Ok, GOES_ON, 0),
    // one of three does not
    (
        ELECTED,
        &["rescue", "--up", "c"],
        Status::RescueRefused,
        b"zen: no rescue: NoQuorum(1/3,1/3)\n",
        0,
    ),
    // a node that is none
    (
        ELECTED,
        &["rescue", "--up", "a,b,d,e"],
        Status::RescueRefused,
        b"zen: no rescue: NotUp(d)\n",
        0,
    ),
    // no node at all
    (
        b"",
        UP_A,
        Status::RescueRefused,
        b"zen: no rescue: NotUp(a)\n",
        0,
    ),
    // a node that crashed, within an act or between two, and one whose disk failed
    (
        b"nodes a\ninitial a\nboot a\ncrash a all\n",
        UP_A,
        Status::RescueRefused,
        b"zen: no rescue: NotUp(a)\n",
        0,
    ),
    (
        b"nodes a\ninitial a\nfuse a 1 none\nboot a\n",
        UP_A,
        Status::RescueRefused,
        b"zen: no rescue: NotUp(a)\n",
        0,
    ),
    (
        b"nodes a\ninitial a\nfail a 1\nboot a\n",
        UP_A,
        Status::RescueRefused,
        b"zen: no rescue: NotUp(a)\n",
        0,
    ),
    // a node that was opened again
    (
        b"nodes a\ninitial a\nboot a\ncrash a all\nrestart a\n",
        UP_A,
        Status::Ok,
        b"startjoin a a 1\ndeliver a 1\nvalue a 1 rescue a\ndeliver a 2\ndeliver a 3\n",
        0,
    ),
    // a stop or a fault that has not come; a node that is down comes first
    (
        b"nodes a\ninitial a\nboot a\nfuse a 9 none\n",
        UP_A,
        Status::RescueRefused,
        b"zen: no rescue: Armed(a)\n",
        0,
    ),
    (
        b"nodes a\ninitial a\nfail a 9\n",
        UP_A,
        Status::RescueRefused,
        b"zen: no rescue: Armed(a)\n",
        0,
    ),
    (
        b"nodes a,b\ninitial a\nfuse a 9 none\ncrash b all\n",
        UP_A_AND_B,
        Status::RescueRefused,
        b"zen: no rescue: NotUp(b)\n",
        0,
    ),
    // no configuration, and a quorum of the committed one alone
    (
        b"nodes a\ninitial a\nstartjoin a a 4611686018427387904\n",
        UP_A,
        Status::RescueRefused,
        b"zen: no rescue: NoQuorum(0/0,0/0)\n",
        0,
    ),
    (
        b"nodes a,b\ninitial a\nboot a\nstartjoin a a 1\nstartjoin b a 1\ndeliver a 1\ndeliver a 2\nvalue a 1 x a,b\ndeliver a 3\n",
        UP_A,
        Status::RescueRefused,
        b"zen: no rescue: NoQuorum(1/1,1/2)\n",
        0,
    ),
    // the last term, and the last version
    (
        b"nodes a\ninitial a\nboot a\nstartjoin a a 4611686018427387904\n",
        UP_A,
        Status::RescueRefused,
        b"zen: no rescue: Exhausted(4611686018427387904,0)\n",
        0,
    ),
    (
        b"nodes a\ninitial a\nboot a\nstartjoin a a 1\ndeliver a 1\nvalue a 4611686018427387904 x a\ndeliver a 2\n",
        UP_A,
        Status::RescueRefused,
        b"zen: no rescue: Exhausted(1,4611686018427387904)\n",
        0,
    ),
    // the newest state is not that of the least node
    (
        NEWEST_OF_THE_LAST,
        UP_A_AND_B,
        Status::Ok,
        GOES_ON_WITH_THE_LAST,
        0,
    ),
    // a node is in a greater term than the one that has the newest state
    (
        b"nodes a,b\ninitial a,b\nboot a\nboot b\nstartjoin b a 1\n",
        UP_A_AND_B,
        Status::Ok,
        b"startjoin a a 2\nstartjoin b a 2\ndeliver a 2\ndeliver a 3\nvalue a 1 rescue a,b\n\
          deliver a 4\ndeliver b 4\ndeliver a 5\ndeliver a 6\n",
        0,
    ),
    // no schedule
    (
        b"nodes a\ninitial a\ntick a 0 7\n",
        UP_A,
        Status::BadSchedule,
        b"zen: bad schedule at line 3: Verb\n",
        0,
    ),
];

#[test]
fn a_schedule_is_gone_on_with_or_it_is_said_why_not(rt: HostRuntime) -> Result<(), Fail> {
    all_end(&rt, rt.alloc(), &[], Rest::Nothing, ANSWERS)
}

// The last two: the first write of a plan, and that of a refusal.
const FAULTS: &[Fault] = &[
    (ELECTED, Call::Read, &[1], Status::ReadFault, b""),
    (ELECTED, Call::Write, &[1], Status::WriteFault, b""),
    (b"", Call::Write, &[1], Status::WriteFault, b""),
];

#[test]
fn a_rescue_ends_at_a_fault(rt: HostRuntime) -> Result<(), Fail> {
    all_end_by(&rt, rt.alloc(), UP_A_AND_B, FAULTS, 0)
}

fn joined(alloc: Global, prefix: &[u8], rest: &[u8]) -> Result<Vec<u8>, AllocError> {
    let mut whole = Vec::from_slice(alloc, prefix)?;
    whole.extend_from_slice(rest)?;
    Ok(whole)
}

// Whether a schedule with the lines by which it goes on has a trace that ends so.
fn goes_on(alloc: Global, case: &Case<'_>, ending: &[u8]) -> Result<bool, AllocError> {
    let (status, plan) = written_by(alloc, case)?;
    let whole = joined(alloc, case.input, plan.as_bytes())?;
    let goes_on = replays(alloc, Level::Core, &whole, Written::Ends(ending))?;
    Ok(status == Status::Ok && goes_on)
}

// The steps of the schedule of number 7, counted from 0, that send a message. With them a generator in another language drew a schedule whose trace has
// the digest that `generate` writes.
const SENDS: &[u64] = &[
    7, 9, 14, 26, 30, 93, 101, 108, 111, 121, 127, 148, 325, 351, 356, 400, 470, 518, 572, 634,
    691, 738, 804, 805, 833, 895, 904, 906, 908, 915,
];

// How many messages are sent before a step.
fn sent_before(step: u64) -> u64 {
    SENDS.iter().filter(|sends| **sends < step).count() as u64
}

// So many lines of the schedule of number 7, with their header.
fn drawn(alloc: Global, steps: u64) -> Result<Text, AllocError> {
    let mut generator = Generator::new(7);
    let mut text = Text::new(alloc);
    text.word("nodes a,b,c,d\ninitial a,b,c\n")?;
    for step in 0..steps {
        let line = generator.line(alloc, sent_before(step))?;
        write_line(&mut text, &line)?;
        text.word("\n")?;
    }
    Ok(text)
}

// After 1,000 lines b is down, a and d have an order left, and c is alone. After 900 a and b are up, in terms 1 and 9.
const DRAWN: &[(&[&str], &str)] = &[
    (
        &["rescue", "--up", "c"],
        "zen: no rescue: NoQuorum(1/3,0/2)\n",
    ),
    (&["rescue", "--up", "a,c"], "zen: no rescue: Armed(a)\n"),
    (&["rescue", "--up", "a,b,c,d"], "zen: no rescue: NotUp(b)\n"),
];

const DRAWN_COMMITS: &[u8] =
    b"committed {\"committed\":[\"a\",\"b\",\"c\"],\"config\":[\"a\",\"b\"],\"parent\":{\"term\":1,\"version\":31},\"term\":10,\"value\":{\"exclusions\":[],\"master\":null,\"members\":[],\"settings\":{\"v\":\"rescue\"}},\"version\":32}\n\
    m32 a->* commit 10/32\n";

// Whether a drawn schedule of 900 lines is gone on with.
fn drawn_lines_go_on(alloc: Global) -> Result<bool, AllocError> {
    let text = drawn(alloc, 900)?;
    let case = Case {
        input: text.as_bytes(),
        words: UP_A_AND_B,
        ..REPLAY
    };
    goes_on(alloc, &case, DRAWN_COMMITS)
}

// Whether one of 1,000 lines is refused for each list, as it should be.
fn drawn_lines_are_refused(alloc: Global) -> Result<bool, AllocError> {
    let text = drawn(alloc, 1000)?;
    let mut are_refused = true;
    for row in DRAWN {
        let (words, line) = *row;
        let case = Case {
            words,
            input: text.as_bytes(),
            ..REPLAY
        };
        let written = Written::Whole(line.as_bytes());
        let is_refused = ends(alloc, &case, Status::RescueRefused, written, 0)?;
        are_refused = are_refused && is_refused;
    }
    Ok(are_refused)
}

#[test]
fn a_drawn_schedule_is_gone_on_with_where_a_quorum_is_up(rt: HostRuntime) -> Result<(), Fail> {
    let goes_on = drawn_lines_go_on(rt.alloc())?;
    assert!(rt; goes_on);
    let are_refused = drawn_lines_are_refused(rt.alloc())?;
    assert!(rt; are_refused);
    Ok(())
}

#[test]
fn a_schedule_and_its_plan_elect_a_node_and_commit_a_state(rt: HostRuntime) -> Result<(), Fail> {
    let case = Case {
        input: ELECTED,
        words: UP_A_AND_B,
        ..REPLAY
    };
    let goes_on = goes_on(rt.alloc(), &case, WINS_AND_COMMITS)?;
    assert!(rt; goes_on);
    Ok(())
}
