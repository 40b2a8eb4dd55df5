//! Recorded traces and the verdicts on them. Each verdict follows from the one thing that was changed in a legal trace.
use schedule_text::ReadError;
use std::alloc::{AllocError, Global};
use std::test::Fail;
use text::Text;
use trace_audit::{audit, write_bad_trace, write_verdict};

// Whether a trace of these parts has this verdict, or this first bad line.
fn is_judged(alloc: Global, parts: &[&str], line: &str) -> Result<bool, AllocError> {
    let trace = parts.join(alloc, "")?;
    let mut text = Text::new(alloc);
    match audit(alloc, trace.as_bytes()) {
        Ok(verdict) => write_verdict(&mut text, &verdict)?,
        Err(ReadError::Bad(bad)) => write_bad_trace(&mut text, &bad)?,
        Err(ReadError::Memory) => return Err(AllocError),
    }
    Ok(text.as_bytes() == line.as_bytes())
}

/// Three nodes begin, and a is the master of term 1: 21 lines.
pub const ELECTION: &str = "initial a,b,c\n\
    > boot a\nact a ok boot a,b,c\n\
    > boot b\nact b ok boot a,b,c\n\
    > boot c\nact c ok boot a,b,c\n\
    > startjoin a a 1\nact a ok startjoin a 1\nm1 a->a join 1 0/0\n\
    > startjoin b a 1\nact b ok startjoin a 1\nm2 b->a join 1 0/0\n\
    > startjoin c a 1\nact c ok startjoin a 1\nm3 c->a join 1 0/0\n\
    > deliver a 1\nact a ok join a a 1 0/0\n\
    > deliver a 2\nact a ok join b a 1 0/0\nwon a 1\n";

/// The same, where the join of b is taken as one of term 2, which nobody sent.
pub const UNSENT: &str = "initial a,b,c\n\
    > boot a\nact a ok boot a,b,c\n\
    > boot b\nact b ok boot a,b,c\n\
    > boot c\nact c ok boot a,b,c\n\
    > startjoin a a 1\nact a ok startjoin a 1\nm1 a->a join 1 0/0\n\
    > startjoin b a 1\nact b ok startjoin a 1\nm2 b->a join 1 0/0\n\
    > startjoin c a 1\nact c ok startjoin a 1\nm3 c->a join 1 0/0\n\
    > deliver a 1\nact a ok join a a 1 0/0\n\
    > deliver a 2\nact a ok join b a 2 0/0\nwon a 1\n";

// Texts that are bad, whatever they show.
const BAD: &[(&str, &str)] = &[
    ("", "zen: bad trace at line 1: Header\n"),
    ("initial a,b,c\nfoo\n", "zen: bad trace at line 2: Word\n"),
    ("initial a,b,c", "zen: bad trace at line 1: NoNewline\n"),
    ("initial _\n", "zen: bad trace at line 1: Header\n"),
    ("initial b,a\n", "zen: bad trace at line 1: Header\n"),
    ("initial a b\n", "zen: bad trace at line 1: Header\n"),
    ("\n", "zen: bad trace at line 1: Header\n"),
    ("initial a\n\n", "zen: bad trace at line 2: Word\n"),
    ("initial a\nm01 a\n", "zen: bad trace at line 2: Word\n"),
    ("initial a\nm a\n", "zen: bad trace at line 2: Word\n"),
    (
        "initial a\nm1\nwon\nmodeless\n",
        "zen: bad trace at line 4: Word\n",
    ),
    (
        "initial a\nact a ok boot b\nact\n",
        "zen: bad trace at line 3: Shape\n",
    ),
    (
        "initial a\nact a ok boot a\nact a ok",
        "zen: bad trace at line 3: NoNewline\n",
    ),
    (
        "initial a\nact a ok boot b,a\n",
        "zen: bad trace at line 2: Shape\n",
    ),
    (
        "initial a\nact a ok open\n",
        "zen: bad trace at line 2: Shape\n",
    ),
    (
        "initial a\nact a refused:NotWon boot a\n",
        "zen: bad trace at line 2: Shape\n",
    ),
    (
        "initial a\nact a refused:NotForMe(a,b) join a a 1 0/0\n",
        "zen: bad trace at line 2: Shape\n",
    ),
    (
        "initial a\nact a refused:TermMismatch(1) join a a 1 0/0\n",
        "zen: bad trace at line 2: Shape\n",
    ),
    (
        "initial a\nact a refused:TermMismatch(1,02) join a a 1 0/0\n",
        "zen: bad trace at line 2: Shape\n",
    ),
    (
        "initial a\nact a refused:TermMismatch(1,2 join a a 1 0/0\n",
        "zen: bad trace at line 2: Shape\n",
    ),
    (
        "initial a\nact a ok join a a 1 0\n",
        "zen: bad trace at line 2: Shape\n",
    ),
    (
        "initial a\nact a ok join a a 1 0/0 \n",
        "zen: bad trace at line 2: Shape\n",
    ),
    (
        "initial a\nrecord a 1 0/0 a\n",
        "zen: bad trace at line 2: Shape\n",
    ),
    (
        "initial a\nact a ok value 1 a {\"exclusions\":[],\"master\":null,\"members\":[]}\n",
        "zen: bad trace at line 2: Shape\n",
    ),
    (
        "initial a\nact a ok value 1 a {\"exclusions\":[],\"master\":null,\"members\":[\"b\",\"a\"],\"settings\":{}}\n",
        "zen: bad trace at line 2: Shape\n",
    ),
    (
        "initial a\nact a ok value 1 a {\"exclusions\":[],\"master\":null,\"members\":[],\"settings\":{},\"x\":1}\n",
        "zen: bad trace at line 2: Shape\n",
    ),
];

// What stands after the election, and the verdict.
const CLAUSES: &[(&str, &str)] = &[
    // a restart
    (
        "crashed a\nrecord a 1 0/0 a,b,c a,b,c\nact a refused:NotStarted join a a 1 0/0\n",
        "legal=10\nwinners=1\ncommitted=0\nwon a 1\n",
    ),
    ("record a 2 0/0 a,b,c a,b,c\n", "zen: line 22: Opening\n"),
    ("record a 1 0/0 a,b,c a,b\n", "zen: line 22: Opening\n"),
    (
        "record d 0 0/0 _ _\nact d ok boot a,b,c\n",
        "legal=10\nwinners=1\ncommitted=0\nwon a 1\n",
    ),
    ("record d 1 0/0 _ _\n", "zen: line 22: Opening\n"),
    // a crash that was kept, or not, or is not known
    (
        "act a crashed startjoin a 2\nrecord a 2 0/0 a,b,c a,b,c\n",
        "legal=10\nwinners=1\ncommitted=0\nwon a 1\n",
    ),
    (
        "act a crashed startjoin a 2\nrecord a 1 0/0 a,b,c a,b,c\nact a ok startjoin a 2\n",
        "legal=11\nwinners=1\ncommitted=0\nwon a 1\n",
    ),
    (
        "act a crashed startjoin a 2\nrecord a 3 0/0 a,b,c a,b,c\n",
        "zen: line 23: Opening\n",
    ),
    (
        "act a crashed startjoin a 2\n",
        "legal=9\nwinners=1\ncommitted=0\nwon a 1\n",
    ),
    (
        "act a crashed startjoin a 2\nact a ok startjoin a 3\n",
        "zen: line 23: Opening\n",
    ),
    ("act a crashed startjoin a 1\n", "zen: line 22: Outcome\n"),
    ("act a crashed join a a 1 0/0\n", "zen: line 22: Outcome\n"),
    // a fault of the disk
    (
        "act a disk startjoin a 2\nact a stopped startjoin a 3\nact a stopped boot a,b,c\nrecord a 2 0/0 a,b,c a,b,c\nact a refused:TermNotGreater(2,2) startjoin a 2\n",
        "legal=13\nwinners=1\ncommitted=0\nwon a 1\n",
    ),
    (
        "act a disk startjoin a 2\nact a ok startjoin a 3\n",
        "zen: line 23: Outcome\n",
    ),
    ("act a stopped startjoin a 2\n", "zen: line 22: Outcome\n"),
    // the rest
    (
        "act a refused:AlreadySet boot a,b\n",
        "zen: line 22: Bootstrap\n",
    ),
    (
        "act a refused:AlreadySet boot a,b,c\n",
        "legal=9\nwinners=1\ncommitted=0\nwon a 1\n",
    ),
    (
        "act a refused:EmptyConfig boot a,b,c\n",
        "zen: line 22: Outcome\n",
    ),
    (
        "act a ok join b a 1 0/0\nact a ok startjoin a 1\n",
        "zen: line 23: Outcome\n",
    ),
    (
        "act a ok startjoin a 4611686018427387905\n",
        "zen: line 22: Outcome\n",
    ),
    (
        "act a refused:TermTooLarge(4611686018427387905) startjoin a 4611686018427387905\n",
        "legal=9\nwinners=1\ncommitted=0\nwon a 1\n",
    ),
    (
        "act b refused:NotForMe(a) join b a 1 0/0\n",
        "legal=9\nwinners=1\ncommitted=0\nwon a 1\n",
    ),
    (
        "act b refused:NotForMe(c) join b a 1 0/0\n",
        "zen: line 22: Outcome\n",
    ),
    // a join that was sent, but for the term of the last accepted state
    ("act a ok join c a 1 1/0\n", "zen: line 22: Unsent\n"),
    // a bad line comes before any verdict
    (
        "act a stopped startjoin a 2\nfoo\n",
        "zen: bad trace at line 23: Word\n",
    ),
];

const ELECTIONS: &[(&str, &str)] = &[
    (ELECTION, "legal=8\nwinners=1\ncommitted=0\nwon a 1\n"),
    (UNSENT, "zen: line 20: Unsent\n"),
];

// What the traces begin with, and what stands after it with the verdict.
const JUDGED: &[(&str, &str, &[(&str, &str)])] = &[
    ("an_election_is_legal", "", ELECTIONS),
    ("bad_texts_are_refused_by_their_first_bad_line", "", BAD),
    ("the_first_clause_that_breaks_is_named", ELECTION, CLAUSES),
];

#[test]
fn traces_have_these_verdicts(rt: HostRuntime) -> Result<(), Fail> {
    for (name, head, rows) in JUDGED {
        for (more, line) in *rows {
            let is_judged = is_judged(rt.alloc(), &[*head, *more], line)?;
            assert!(rt; is_judged, "{name}: {more}");
        }
    }
    Ok(())
}

// The state that is published, in two spellings, one with another value, and one with another parent; and the verdict on what comes of it.
const STATES: &[(&str, &str)] = &[
    (
        "{\"committed\":[\"a\",\"b\",\"c\"],\"config\":[\"a\",\"b\",\"c\"],\"parent\":{\"term\":0,\"version\":0},\"term\":1,\"value\":{\"exclusions\":[],\"master\":null,\"members\":[],\"settings\":{\"v\":\"x\"}},\"version\":1}",
        "legal=14\nwinners=1\ncommitted=1\nwon a 1\n",
    ),
    (
        "{ \"version\": 1, \"parent\": {\"version\":0,\"term\":0}, \"term\": 1, \"config\": [\"a\",\"b\",\"c\"], \"committed\":[\"a\",\"b\",\"c\"],\"value\":{\"settings\":{\"v\":\"x\"},\"exclusions\":[],\"master\":null,\"members\":[]}}",
        "legal=14\nwinners=1\ncommitted=1\nwon a 1\n",
    ),
    (
        "{\"committed\":[\"a\",\"b\",\"c\"],\"config\":[\"a\",\"b\",\"c\"],\"parent\":{\"term\":0,\"version\":0},\"term\":1,\"value\":{\"exclusions\":[],\"master\":null,\"members\":[],\"settings\":{\"v\":\"y\"}},\"version\":1}",
        "zen: line 26: Unsent\n",
    ),
    (
        "{\"committed\":[\"a\",\"b\",\"c\"],\"config\":[\"a\",\"b\",\"c\"],\"parent\":null,\"term\":1,\"value\":{\"exclusions\":[],\"master\":null,\"members\":[],\"settings\":{\"v\":\"x\"}},\"version\":1}",
        "zen: line 26: Unsent\n",
    ),
];

// What stands before the state that is published, and before it where it is accepted a second time.
const PUBLISHED: &str = "> value a 1 x a,b,c\n\
    act a ok value 1 a,b,c {\"exclusions\":[],\"master\":null,\"members\":[],\"settings\":{\"v\":\"x\"}}\n\
    m4 a->* publish\n\
    > deliver a 4\nact a ok publish a ";

const ACCEPTED: &str = "\nm5 a->a response 1/1\n> deliver b 4\nact b ok publish a ";

const COMMIT: &str = "\nm6 b->a response 1/1\n\
    > deliver a 5\nact a ok response a a 1/1\n\
    > deliver a 6\nact a ok response b a 1/1\ncommitted x\nm7 a->* commit 1/1\n\
    > deliver c 7\nact c refused:AcceptedTermMismatch(0,1) commit a 1/1\n";

#[test]
fn a_state_that_is_taken_is_the_one_that_was_published(rt: HostRuntime) -> Result<(), Fail> {
    for (state, line) in STATES {
        let parts = [ELECTION, PUBLISHED, *state, ACCEPTED, *state, COMMIT];
        let is_taken = is_judged(rt.alloc(), &parts, line)?;
        assert!(rt; is_taken, "{state}");
    }
    Ok(())
}
