//! Nodes over links, sinks and disks in memory, from the opening of the journal to the end of the run, as the program does it.
//! The expected lines are those that docs/formats.md gives, and of pre-votes and voting-only nodes what follows from
//! docs/policy.md.
ghost use Rattle.std.specs.Prelude.{◌<◌, IfOk, IsTrue};
ghost use Rattle.std.specs.List.{list_all};
ghost use Rattle.zen_link.specs.Told.{has_low_conn, most_connections};

use self::Comes::{Draws, Gone, Letters, Lost, OnFour, OnThree, Tick};
use crate::settings::{ALONE, Names, OF_TWO, settings_of};
use bytes::Bytes;
use coordinator::Sealed;
use node_loop::{
    Acts, All, End, History, JournalNode, Node, Nothing, law_crash_is_kill, law_end_is_kept,
    law_moment_is_cut, law_next_after_end, law_next_after_kill,
};
use policy_model::Settings;
use state_journal::OpenError;
use std::alloc::{AllocError, Global};
use std::test::Fail;
use voting_config::NodeId;
use zen_disk::{Disks, MemDisks, Side};
use zen_link::{Input, MemLink, MemSink, Traffic};

// ---- the laws

// A law is an empty function: its contract says it all, and the call shows that it can be called.
#[test]
fn the_laws_can_be_called() {
    law_crash_is_kill();
    law_moment_is_cut::<MemDisks>();
    law_end_is_kept();
    law_next_after_end();
    law_next_after_kill();
}

// ---- what comes

// What comes to the node at a turn.
#[derive(Clone, Copy)]
enum Comes {
    // A tick at this time, which draws 0.
    Tick(u64),
    // A tick at this time, which draws this word.
    Draws(u64, u64),
    // These bytes, over connection 3.
    OnThree(&'static [u8]),
    // The same over connection 4.
    OnFour(&'static [u8]),
    // So many letters x and a line feed, over connection 3.
    Letters(usize),
    // The end of connection 3.
    Gone,
    // The loss of peer b.
    Lost,
}

fn bytes(conn: u64, text: &'static [u8]) -> Input
    requires { conn < most_connections }
    ensures { IsTrue (has_low_conn result) }
{
    Input::Bytes {
        conn,
        bytes: Bytes::from_static(text),
    }
}

fn long_line(alloc: Global, count: usize) -> Result<Input, AllocError>
    ensures { IfOk result (λ input. IsTrue (has_low_conn input)) }
{
    let mut line = vec![in alloc; b'x'; count]?;
    line.push(b'\n')?;
    Ok(Input::Bytes {
        conn: 3,
        bytes: Bytes::from_vec(line)?,
    })
}

fn input(alloc: Global, comes: Comes) -> Result<Input, AllocError>
    ensures { IfOk result (λ input. IsTrue (has_low_conn input)) }
{
    match comes {
        Tick(now) => Ok(Input::Tick { now, word: 0 }),
        Draws(now, word) => Ok(Input::Tick { now, word }),
        OnThree(text) => Ok(bytes(3, text)),
        OnFour(text) => Ok(bytes(4, text)),
        Letters(count) => long_line(alloc, count),
        Gone => Ok(Input::Closed { conn: 3 }),
        Lost => Ok(Input::Disconnected {
            peer: NodeId::parse("b").unwrap_or_default(),
        }),
    }
}

fn inputs(alloc: Global, script: &[Comes]) -> Result<Vec<Input>, AllocError>
    ensures { IfOk result (λ inputs. IsTrue (list_all has_low_conn inputs.items)) }
{
    let mut inputs = Vec::new(alloc);
    for comes in script {
        inputs.push(input(alloc, *comes)?)?;
    }
    Ok(inputs)
}

const TICKS: &[Comes] = &[Tick(1), Tick(2), Tick(3)];

// The node is a quorum alone: it stands for election once its wait is over, and hears its own frames. Then a client puts a
// setting. Each frame comes as four bytes of length, the kind, the sender, the receiver and the fields.
const ELECTION: &[Comes] = &[
    Tick(1),
    Tick(1_000),
    OnThree(b"\0\0\0\x0f\x01\x01a\x01a\x01a\0\0\0\0\0\0\0\x01"),
    OnThree(b"\0\0\0\x1d\x02\x01a\x01a\0\0\0\0\0\0\0\x01\0\0\0\0\0\0\0\0\0\0\0\0\0\0\0\0"),
    OnThree(
        b"\0\0\0\x35\x11\x01a\x01a\0\0\0\0\0\0\0\x01\0\0\0\0\0\0\0\x01\x01\0\0\0\0\0\0\0\0\0\0\0\0\0\0\0\0\x01\x01a\x01\x01a\x01\x01a\x01\x01a\0\0\0",
    ),
    OnThree(b"\0\0\0\x15\x04\x01a\x01a\0\0\0\0\0\0\0\x01\0\0\0\0\0\0\0\x01"),
    OnThree(b"\0\0\0\x15\x05\x01a\x01a\0\0\0\0\0\0\0\x01\0\0\0\0\0\0\0\x01"),
    OnFour(b"{\"id\":1,\"put\":{\"key\":\"k\",\"value\":\"v\"}}\n"),
    OnThree(
        b"\0\0\0\x3b\x11\x01a\x01a\0\0\0\0\0\0\0\x01\0\0\0\0\0\0\0\x02\x01\0\0\0\0\0\0\0\x01\0\0\0\0\0\0\0\x01\x01\x01a\x01\x01a\x01\x01a\x01\x01a\0\0\x01\0\x01k\0\x01v",
    ),
    OnThree(b"\0\0\0\x15\x04\x01a\x01a\0\0\0\0\0\0\0\x01\0\0\0\0\0\0\0\x02"),
];

// The frame by which a asks itself whether it would vote for it, a byte at a turn and ticks between.
const SLOWLY: &[Comes] = &[
    OnThree(b"\0"),
    Tick(1),
    OnThree(b"\0"),
    Tick(1),
    OnThree(b"\0"),
    Tick(1),
    OnThree(b"\x05"),
    Tick(1),
    OnThree(b"\x09"),
    Tick(1),
    OnThree(b"\x01"),
    Tick(1),
    OnThree(b"a"),
    Tick(1),
    OnThree(b"\x01"),
    Tick(1),
    OnThree(b"a"),
];

// The node finds its fellow voter b and asks it for pre-votes. An answer of the last term ends the round, so that a further one
// finds none; the next round is answered with the term before it.
const PRE_VOTES: &[Comes] = &[
    Draws(0, 7),
    OnThree(b"\0\0\0\x13\x08\x01b\x01a\0\0\0\0\0\0\0\0\0\x02\x01a\x01b"),
    Draws(1_000, 7),
    Draws(2_000, 7),
    OnThree(b"\0\0\0\x1d\x0a\x01b\x01a\x40\0\0\0\0\0\0\0\0\0\0\0\0\0\0\0\0\0\0\0\0\0\0\0"),
    OnThree(b"\0\0\0\x1d\x0a\x01b\x01a\0\0\0\0\0\0\0\0\0\0\0\0\0\0\0\0\0\0\0\0\0\0\0\0"),
    Draws(3_000, 7),
    OnThree(
        b"\0\0\0\x1d\x0a\x01b\x01a\x3f\xff\xff\xff\xff\xff\xff\xff\0\0\0\0\0\0\0\0\0\0\0\0\0\0\0\0",
    ),
];

// A join of v by itself comes last, as no sound node sends it.
const VOTES_ONLY: &[Comes] = &[
    Draws(0, 7),
    Draws(8, 7),
    Draws(100_000, 7),
    OnThree(b"\0\0\0\x1d\x02\x01v\x01v\0\0\0\0\0\0\0\x01\0\0\0\0\0\0\0\0\0\0\0\0\0\0\0\0"),
];

// What is written of one tick, at which the node bootstraps.
const BOOTED: &[&str] = &[
    "record a 0 0/0 _ _",
    "> start",
    "> tick 1 0",
    "act a ok boot a",
];

// What is written of three ticks.
const TICKED: &[&str] = &[
    "record a 0 0/0 _ _",
    "> start",
    "> tick 1 0",
    "act a ok boot a",
    "> tick 2 0",
    "m1 a->a startjoin a 1",
    "> tick 3 0",
];

// A history counts the frames of its own node alone.
const PRE_VOTED: &[&str] = &[
    "record a 0 0/0 _ _",
    "> start",
    "> tick 0 7",
    "m1 a->b peersask b",
    "> frame b peersanswer _ 0 a,b",
    "> tick 1000 7",
    "act a ok boot a,b",
    "m2 a->b peersask b",
    "> tick 2000 7",
    "m3 a->b peersask b",
    "m4 a->b prevoteask",
    "> frame b prevoteanswer 4611686018427387904 0/0",
    "> frame b prevoteanswer 0 0/0",
    "> tick 3000 7",
    "m5 a->b peersask b",
    "m6 a->b prevoteask",
    "> frame b prevoteanswer 4611686018427387903 0/0",
    "m7 a->a startjoin a 4611686018427387904",
    "m8 a->b startjoin a 4611686018427387904",
];

// What is written of the election.
const ELECTED: &[&str] = &[
    "record a 0 0/0 _ _",
    "> start",
    "> tick 1 0",
    "act a ok boot a",
    "> tick 1000 0",
    "m1 a->a startjoin a 1",
    "> frame a startjoin a 1",
    "act a ok startjoin a 1",
    "m2 a->a join 1 0/0",
    "> frame a join 1 0/0",
    "act a ok join a a 1 0/0",
    "won a 1",
    "mode a leader 1",
    "act a ok value 1 a {\"exclusions\":[],\"master\":\"a\",\"members\":[\"a\"],\"settings\":{}}",
    "m3 a->a publish {\"committed\":[\"a\"],\"config\":[\"a\"],\"parent\":{\"term\":0,\"version\":0},\"term\":1,\"value\":{\"exclusions\":[],\"master\":\"a\",\"members\":[\"a\"],\"settings\":{}},\"version\":1}",
    "> frame a publish {\"committed\":[\"a\"],\"config\":[\"a\"],\"parent\":{\"term\":0,\"version\":0},\"term\":1,\"value\":{\"exclusions\":[],\"master\":\"a\",\"members\":[\"a\"],\"settings\":{}},\"version\":1}",
    "act a ok publish a {\"committed\":[\"a\"],\"config\":[\"a\"],\"parent\":{\"term\":0,\"version\":0},\"term\":1,\"value\":{\"exclusions\":[],\"master\":\"a\",\"members\":[\"a\"],\"settings\":{}},\"version\":1}",
    "m4 a->a response 1/1",
    "> frame a response 1/1",
    "act a ok response a a 1/1",
    "committed {\"committed\":[\"a\"],\"config\":[\"a\"],\"parent\":{\"term\":0,\"version\":0},\"term\":1,\"value\":{\"exclusions\":[],\"master\":\"a\",\"members\":[\"a\"],\"settings\":{}},\"version\":1}",
    "m5 a->a commit 1/1",
    "> frame a commit 1/1",
    "act a ok commit a 1/1",
    "> client {\"id\":1,\"put\":{\"key\":\"k\",\"value\":\"v\"}}",
    "act a ok value 2 a {\"exclusions\":[],\"master\":\"a\",\"members\":[\"a\"],\"settings\":{\"k\":\"v\"}}",
    "m6 a->a publish {\"committed\":[\"a\"],\"config\":[\"a\"],\"parent\":{\"term\":1,\"version\":1},\"term\":1,\"value\":{\"exclusions\":[],\"master\":\"a\",\"members\":[\"a\"],\"settings\":{\"k\":\"v\"}},\"version\":2}",
    "> frame a publish {\"committed\":[\"a\"],\"config\":[\"a\"],\"parent\":{\"term\":1,\"version\":1},\"term\":1,\"value\":{\"exclusions\":[],\"master\":\"a\",\"members\":[\"a\"],\"settings\":{\"k\":\"v\"}},\"version\":2}",
    "act a ok publish a {\"committed\":[\"a\"],\"config\":[\"a\"],\"parent\":{\"term\":1,\"version\":1},\"term\":1,\"value\":{\"exclusions\":[],\"master\":\"a\",\"members\":[\"a\"],\"settings\":{\"k\":\"v\"}},\"version\":2}",
    "m7 a->a response 1/2",
    "> frame a response 1/2",
    "act a ok response a a 1/2",
    "committed {\"committed\":[\"a\"],\"config\":[\"a\"],\"parent\":{\"term\":1,\"version\":1},\"term\":1,\"value\":{\"exclusions\":[],\"master\":\"a\",\"members\":[\"a\"],\"settings\":{\"k\":\"v\"}},\"version\":2}",
    "m8 a->a commit 1/2",
    "reply a {\"acked\":{\"term\":1,\"version\":2},\"id\":1}",
];

// What is written of it by who writes only what is done.
const ELECTED_IN_ACTS: &[&str] = &[
    "record a 0 0/0 _ _",
    "act a ok boot a",
    "act a ok startjoin a 1",
    "act a ok join a a 1 0/0",
    "won a 1",
    "mode a leader 1",
    "act a ok value 1 a {\"exclusions\":[],\"master\":\"a\",\"members\":[\"a\"],\"settings\":{}}",
    "act a ok publish a {\"committed\":[\"a\"],\"config\":[\"a\"],\"parent\":{\"term\":0,\"version\":0},\"term\":1,\"value\":{\"exclusions\":[],\"master\":\"a\",\"members\":[\"a\"],\"settings\":{}},\"version\":1}",
    "act a ok response a a 1/1",
    "committed {\"committed\":[\"a\"],\"config\":[\"a\"],\"parent\":{\"term\":0,\"version\":0},\"term\":1,\"value\":{\"exclusions\":[],\"master\":\"a\",\"members\":[\"a\"],\"settings\":{}},\"version\":1}",
    "act a ok commit a 1/1",
    "act a ok value 2 a {\"exclusions\":[],\"master\":\"a\",\"members\":[\"a\"],\"settings\":{\"k\":\"v\"}}",
    "act a ok publish a {\"committed\":[\"a\"],\"config\":[\"a\"],\"parent\":{\"term\":1,\"version\":1},\"term\":1,\"value\":{\"exclusions\":[],\"master\":\"a\",\"members\":[\"a\"],\"settings\":{\"k\":\"v\"}},\"version\":2}",
    "act a ok response a a 1/2",
    "committed {\"committed\":[\"a\"],\"config\":[\"a\"],\"parent\":{\"term\":1,\"version\":1},\"term\":1,\"value\":{\"exclusions\":[],\"master\":\"a\",\"members\":[\"a\"],\"settings\":{\"k\":\"v\"}},\"version\":2}",
];

// ---- runs

// How much of its life a node writes.
#[derive(Clone, Copy)]
enum Writes {
    All,
    Acts,
    Nothing,
}

// A run of a node over an empty disk, and what is to come of it.
#[derive(Clone, Copy)]
struct Run {
    name: &'static str,
    names: Names,
    script: &'static [Comes],
    // The numbers of the calls of disk, link and sink that fail, the first being 1; 0 is none.
    fails: (u64, u64, u64),
    // Whether a write takes all that it is given, and not a few bytes of it.
    writes_whole: bool,
    writes: Writes,
    end: End,
    // The lines that it writes. `...` stands for any line.
    lines: &'static [&'static str],
    // A letter each for what goes over its link: for what is taken, given and dropped.
    traffic: &'static [u8],
}

// A run of a turn for each input, in writes of few bytes.
const SERVED: Run = Run {
    name: "",
    names: ALONE,
    script: &[],
    fails: (0, 0, 0),
    writes_whole: false,
    writes: Writes::All,
    end: End::Turns,
    lines: &[],
    traffic: b"",
};

const V_ALONE: Names = Names {
    me: "v",
    nodes: "v",
    initial: "v",
    voting_only: "v",
};

const RUNS: &[Run] = &[
    Run {
        name: "a node takes a turn for each tick",
        script: TICKS,
        lines: TICKED,
        traffic: b"gtgtgtg",
        ..SERVED
    },
    Run {
        name: "a line in two pieces is answered by a candidate",
        script: &[OnThree(b"{\"id\":7,"), OnThree(b"\"state\":{}}\n{\"id\":8")],
        lines: &[
            "record a 0 0/0 _ _",
            "> start",
            "> client {\"id\":7,\"state\":{}}",
            "reply a {\"id\":7,\"not_master\":null}",
        ],
        traffic: b"gttg",
        ..SERVED
    },
    // A body of one byte, whose kind is 255.
    Run {
        name: "behind a fault a connection is dropped and begins anew",
        script: &[
            OnThree(b"\0\0\0\x01\xff"),
            OnThree(b"{\"id\":7,\"state\":{}}\n"),
        ],
        lines: &[
            "record a 0 0/0 _ _",
            "> start",
            "> bad 3 UnknownKind(255)",
            "> client {\"id\":7,\"state\":{}}",
            "reply a {\"id\":7,\"not_master\":null}",
        ],
        traffic: b"gtdtg",
        ..SERVED
    },
    Run {
        name: "a frame of an unknown kind drops its connection",
        script: &[OnThree(
            b"\0\0\0\x1d\x10\x01a\x01b\0\0\0\0\0\0\0\x01\0\0\0\0\0\0\0\0\0\0\0\0\0\0\0\0",
        )],
        lines: &["record a 0 0/0 _ _", "> start", "> bad 3 UnknownKind(16)"],
        traffic: b"gtd",
        ..SERVED
    },
    Run {
        name: "so does a length above 8 MiB",
        script: &[OnThree(b"\0\x80\0\x01")],
        lines: &["record a 0 0/0 _ _", "> start", "> bad 3 TooLong"],
        traffic: b"gtd",
        ..SERVED
    },
    Run {
        name: "so does a term above the last one",
        script: &[OnThree(b"\0\0\0\x0f\x01\x01a\x01b\x01a\x40\0\0\0\0\0\0\x01")],
        lines: &[
            "record a 0 0/0 _ _",
            "> start",
            "> bad 3 Field(TermTooLarge)",
        ],
        traffic: b"gtd",
        ..SERVED
    },
    Run {
        name: "a connection that ends within a frame is gone",
        script: &[OnThree(b"\0\0\0"), Gone],
        lines: &["record a 0 0/0 _ _", "> start", "> gone 3"],
        traffic: b"gtt",
        ..SERVED
    },
    Run {
        name: "the loss of a peer that never answered changes nothing",
        script: &[Lost],
        lines: &["record a 0 0/0 _ _", "> start", "> disconnect b"],
        traffic: b"gtg",
        ..SERVED
    },
    Run {
        name: "a candidate forgets what a lost peer answered and asks it at once",
        names: OF_TWO,
        script: &[
            Draws(0, 7),
            OnThree(b"\0\0\0\x13\x08\x01b\x01a\0\0\0\0\0\0\0\0\0\x02\x01a\x01b"),
            Lost,
            Draws(1, 7),
        ],
        lines: &[
            "record a 0 0/0 _ _",
            "> start",
            "> tick 0 7",
            "m1 a->b peersask b",
            "> frame b peersanswer _ 0 a,b",
            "> disconnect b",
            "> tick 1 7",
            "m2 a->b peersask b",
        ],
        traffic: b"gtgtgtgtg",
        ..SERVED
    },
    Run {
        name: "a frame comes with its last byte",
        script: SLOWLY,
        lines: &[
            "record a 0 0/0 _ _",
            "> start",
            "> tick 1 0",
            "act a ok boot a",
            "> tick 1 0",
            "> tick 1 0",
            "> tick 1 0",
            "> tick 1 0",
            "> tick 1 0",
            "> tick 1 0",
            "> tick 1 0",
            "> frame a prevoteask",
            "m1 a->a prevoteanswer 0 0/0",
        ],
        traffic: b"gttgttgttgttgttgttgttgttgtg",
        ..SERVED
    },
    Run {
        name: "a line of 8,192 bytes is read",
        script: &[Letters(8_192)],
        lines: &[
            "record a 0 0/0 _ _",
            "> start",
            "...",
            "reply a {\"error\":\"not_json\"}",
        ],
        traffic: b"gtg",
        ..SERVED
    },
    Run {
        name: "one of 8,193 bytes is too long",
        script: &[Letters(8_193)],
        lines: &[
            "record a 0 0/0 _ _",
            "> start",
            "...",
            "reply a {\"error\":\"too_long\"}",
        ],
        traffic: b"gtg",
        ..SERVED
    },
    Run {
        name: "an empty line and one of two requests are answered",
        script: &[
            OnThree(b"\n"),
            OnThree(b"{\"id\":1,\"put\":{},\"state\":{}}\n"),
        ],
        lines: &[
            "record a 0 0/0 _ _",
            "> start",
            "> client ",
            "reply a {\"error\":\"not_json\"}",
            "> client {\"id\":1,\"put\":{},\"state\":{}}",
            "reply a {\"error\":\"bad_shape\"}",
        ],
        traffic: b"gtgtg",
        ..SERVED
    },
    Run {
        name: "a node alone is elected and acknowledges a put",
        script: ELECTION,
        lines: ELECTED,
        traffic: b"gtgtgtgtgtgtgtgtgtgtg",
        ..SERVED
    },
    Run {
        name: "pre_votes_of_the_last_term_end_a_round_with_no_election",
        names: OF_TWO,
        script: PRE_VOTES,
        lines: PRE_VOTED,
        traffic: b"gtgtgtgtgtgtgtgtg",
        ..SERVED
    },
    // A voting-only node takes the first configuration, and never stands for election, though it is a quorum alone. It does
    // nothing with a join: its term does not even rise.
    Run {
        name: "a_voting_only_node_stands_for_no_election_and_counts_no_join",
        names: V_ALONE,
        script: VOTES_ONLY,
        lines: &[
            "record v 0 0/0 _ _",
            "> start",
            "> tick 0 7",
            "act v ok boot v",
            "> tick 8 7",
            "> tick 100000 7",
            "> frame v join 1 0/0",
        ],
        traffic: b"gtgtgtgtg",
        ..SERVED
    },
];

// These inputs, and then Stop, of as many turns as one likes.
const ENDED: Run = Run {
    script: TICKS,
    writes_whole: true,
    end: End::Stop,
    ..SERVED
};

// A run that the disk ends within its first tick.
const STRUCK: Run = Run {
    end: End::Disk,
    lines: &[
        "record a 0 0/0 _ _",
        "> start",
        "> tick 1 0",
        "act a disk boot a",
    ],
    traffic: b"gt",
    ..ENDED
};

// Runs of a node that writes less of its life.
const LEVELS: &[Run] = &[
    Run {
        name: "in acts there is neither what came nor what was sent",
        script: ELECTION,
        writes: Writes::Acts,
        lines: ELECTED_IN_ACTS,
        traffic: b"gtgtgtgtgtgtgtgtgtgtg",
        ..SERVED
    },
    Run {
        name: "in acts there is what was faulty, and no end of a connection",
        script: &[OnThree(b"\0\x80\0\x01"), OnThree(b"\0\0\0"), Gone],
        writes: Writes::Acts,
        lines: &["record a 0 0/0 _ _", "> bad 3 TooLong"],
        traffic: b"gtdtt",
        ..SERVED
    },
    Run {
        name: "of nothing there is the record",
        script: TICKS,
        writes: Writes::Nothing,
        lines: &["record a 0 0/0 _ _"],
        traffic: b"gtgtgtg",
        ..SERVED
    },
    Run {
        name: "not even what was faulty",
        script: &[OnThree(b"\0\x80\0\x01"), OnThree(b"\0\0\0"), Gone],
        writes: Writes::Nothing,
        lines: &["record a 0 0/0 _ _"],
        traffic: b"gtdtt",
        ..SERVED
    },
];

// Runs that end by what fails, or at a stop.
const ENDS: &[Run] = &[
    Run {
        name: "the script is over",
        lines: TICKED,
        traffic: b"gtgtgtgt",
        ..ENDED
    },
    Run {
        name: "the link fails",
        fails: (0, 1, 0),
        end: End::Link,
        lines: &["record a 0 0/0 _ _", "> start"],
        traffic: b"g",
        ..ENDED
    },
    // The first write is the line of the opening, the second that of the start. Nothing is sent whose lines are not written.
    Run {
        name: "the first write fails",
        fails: (0, 0, 1),
        end: End::Write,
        ..ENDED
    },
    Run {
        name: "the second write fails",
        fails: (0, 0, 2),
        end: End::Write,
        lines: &["record a 0 0/0 _ _"],
        ..ENDED
    },
    // The opening of an empty disk makes eight calls, and the first act that is kept four more.
    Run {
        name: "the disk fails in call 9",
        fails: (9, 0, 0),
        ..STRUCK
    },
    Run {
        name: "the disk fails in call 10",
        fails: (10, 0, 0),
        ..STRUCK
    },
    Run {
        name: "the disk fails in call 11",
        fails: (11, 0, 0),
        ..STRUCK
    },
    Run {
        name: "the disk fails in call 12",
        fails: (12, 0, 0),
        ..STRUCK
    },
    // Where Stop comes second, one tick is done.
    Run {
        name: "a_run_ends_at_a_stop",
        script: &[Tick(1)],
        lines: BOOTED,
        traffic: b"gtgt",
        ..ENDED
    },
];

const FIRST: Run = Run {
    name: "the first run",
    script: &[Tick(1)],
    writes_whole: true,
    lines: BOOTED,
    traffic: b"gtg",
    ..SERVED
};

const SECOND: Run = Run {
    name: "the second run",
    script: &[],
    lines: &["record a 0 0/0 a a", "> start"],
    traffic: b"gt",
    ..ENDED
};

// ---- what is shown

// Whether a sink was given these lines and no others.
fn wrote(out: &MemSink, lines: &[&str]) -> bool {
    let Ok(text) = str::from_utf8(out.as_bytes()) else {
        return false;
    };
    let mut rest = text;
    for line in lines {
        let Some((shown, next)) = rest.split_once('\n') else {
            return false;
        };
        if *line != "..." && shown != *line {
            return false;
        }
        rest = next;
    }
    rest.is_empty()
}

fn letter(traffic: &Traffic<Sealed>) -> u8 {
    match traffic {
        Traffic::Took(_) => b't',
        Traffic::Gave(_) => b'g',
        Traffic::Dropped(_) => b'd',
    }
}

// Whether this went over a link, in order.
fn went(link: &MemLink<Sealed>, letters: &[u8]) -> bool {
    let Some(traffic) = link.traffic() else {
        return false;
    };
    for (traffic, wanted) in traffic.iter().zip(letters) {
        if letter(traffic) != *wanted {
            return false;
        }
    }
    traffic.len() == letters.len()
}

// ---- nodes

// An empty disk whose call of this number fails.
fn empty_disk(alloc: Global, fails: u64) -> Result<MemDisks, AllocError> {
    let fails = vec![in alloc; fails]?;
    Ok(MemDisks::new(alloc, Vec::new(alloc), Vec::new(alloc), fails))
}

// A link that gives this, and whose call of this number fails.
fn link_of(alloc: Global, script: &[Comes], fails: u64) -> Result<MemLink<Sealed>, AllocError> {
    let inputs = inputs(alloc, script)?;
    Ok(MemLink::new(alloc, inputs, vec![in alloc; fails]?))
}

// The end of a run over a disk, and the disk that it gives back.
fn open_and_run<H: History>(
    alloc: Global,
    settings: Settings,
    disk: MemDisks,
    link: &mut MemLink<Sealed>,
    out: &mut MemSink,
    turns: u64,
) -> Result<(MemDisks, End), OpenError<MemDisks>> {
    let node: JournalNode<MemDisks, H> = Node::open(alloc, settings, disk)?;
    // What it lends here it gives back at the end.
    let _ = node.disk();
    Ok(node.run(link, out, turns))
}

// The same of a run that is to be opened.
fn ended(
    alloc: Global,
    run: &Run,
    disk: MemDisks,
    link: &mut MemLink<Sealed>,
    out: &mut MemSink,
) -> Result<(MemDisks, End), Fail> {
    let turns = match run.end {
        End::Turns => run.script.len() as u64,
        _ => 9,
    };
    let settings = settings_of(alloc, &run.names)?;
    let ended = match run.writes {
        Writes::All => open_and_run::<All>(alloc, settings, disk, link, out, turns),
        Writes::Acts => open_and_run::<Acts>(alloc, settings, disk, link, out, turns),
        Writes::Nothing => open_and_run::<Nothing>(alloc, settings, disk, link, out, turns),
    };
    match ended {
        Ok(ended) => Ok(ended),
        Err(_) => Err(Fail::new("the journal was not opened")),
    }
}

// Runs a node, which ends and shows what it is to. Answers its disk.
fn runs_so(alloc: Global, run: &Run, disk: MemDisks) -> Result<MemDisks, Fail> {
    let most = if run.writes_whole { 1 << 20 } else { 7 };
    let mut out = MemSink::new(alloc, most, vec![in alloc; run.fails.2]?);
    let mut link = link_of(alloc, run.script, run.fails.1)?;
    let (disk, end) = ended(alloc, run, disk, &mut link, &mut out)?;
    if end == run.end && wrote(&out, run.lines) && went(&link, run.traffic) {
        return Ok(disk);
    }
    Err(Fail::new(run.name))
}

#[test]
fn a_node_serves_its_link(rt: HostRuntime) -> Result<(), Fail> {
    for run in RUNS {
        let _ = runs_so(rt.alloc(), run, empty_disk(rt.alloc(), run.fails.0)?)?;
    }
    Ok(())
}

#[test]
fn a_node_writes_as_much_of_its_life_as_it_is_to(rt: HostRuntime) -> Result<(), Fail> {
    for run in LEVELS {
        let _ = runs_so(rt.alloc(), run, empty_disk(rt.alloc(), run.fails.0)?)?;
    }
    Ok(())
}

#[test]
fn a_run_ends_by_what_fails(rt: HostRuntime) -> Result<(), Fail> {
    for run in ENDS {
        let _ = runs_so(rt.alloc(), run, empty_disk(rt.alloc(), run.fails.0)?)?;
    }
    Ok(())
}

#[test]
fn the_disk_of_a_run_is_opened_by_the_next_one(rt: HostRuntime) -> Result<(), Fail> {
    let disk = runs_so(rt.alloc(), &FIRST, empty_disk(rt.alloc(), 0)?)?;
    let _ = runs_so(rt.alloc(), &SECOND, disk)?;
    Ok(())
}

// The disk whose first call fails, handed back.
fn handed_back(alloc: Global, out: &mut MemSink) -> Result<MemDisks, Fail> {
    let settings = settings_of(alloc, &ALONE)?;
    let mut link = link_of(alloc, &[], 0)?;
    match open_and_run::<All>(alloc, settings, empty_disk(alloc, 1)?, &mut link, out, 1) {
        Err(OpenError::Disk(disk)) => Ok(disk),
        _ => Err(Fail::new("the journal was opened")),
    }
}

#[test]
fn a_disk_that_fails_at_the_opening_is_handed_back(rt: HostRuntime) -> Result<(), Fail> {
    let mut out = MemSink::new(rt.alloc(), 1 << 20, Vec::new(rt.alloc()));
    let mut disk = handed_back(rt.alloc(), &mut out)?;
    assert!(rt; disk.len(Side::Zero)? == 0);
    assert!(rt; out.as_bytes().is_empty());
    Ok(())
}
