//! The texts are those of the format, written out by hand.
use crate::begun_text::{begun, goes_on};
use crate::names::{id, ids};
use client_lines::{Answer, LineFault, Reply as ClientReply};
use cluster_state::{
    ApplyCommit, ClusterState, Join, PublishRequest, PublishResponse, SharedConfig, SharedState,
    SharedValue, StartCause, StateId,
};
use event_text::*;
use master_tasks::Outgoing;
use policy_model::{Deed, DropCause, MemberDrop, Mode};
use std::alloc::{AllocError, Global};
use std::test::*;
use text::Text;
use voting_config::{IdList, NodeSet};
use wire_frames::{Frame, WireMessage};
use world_model::{Act, ActReply, Cause, Message as Sent, Outcome};

fn state_id(term: u64, version: u64) -> StateId {
    StateId { term, version }
}

// The state 2/1 of one voter, of the parent 1/4.
fn state(alloc: Global) -> Result<SharedState, AllocError> {
    let mut state = ClusterState::initial(alloc, &ids(&["a"]))?;
    state.term = 2;
    state.version = 1;
    state.parent = Some(state_id(1, 4));
    SharedState::of(alloc, state)
}

// The messages of the table, by their places.
fn message(alloc: Global, place: usize) -> Result<WireMessage, AllocError> {
    match place {
        0 => Ok(WireMessage::Publish(state(alloc)?)),
        1 => Ok(WireMessage::StartJoin {
            candidate: id("a"),
            term: 1,
        }),
        2 => Ok(WireMessage::Join {
            term: 1,
            last: state_id(0, 0),
        }),
        3 => Ok(WireMessage::Response(state_id(1, 1))),
        4 => Ok(WireMessage::Commit(state_id(1, 2))),
        5 => Ok(WireMessage::JoinAsk { term: 7 }),
        6 => Ok(WireMessage::PeersAsk {
            known: IdList::of(alloc, &ids(&["a", "b"]))?,
        }),
        7 => Ok(WireMessage::PeersAnswer {
            master: None,
            term: 3,
            known: IdList::of(alloc, &ids(&["a", "b"]))?,
        }),
        8 => Ok(WireMessage::PeersAnswer {
            master: Some(id("a")),
            term: 3,
            known: IdList::of(alloc, &NodeSet::new())?,
        }),
        9 => Ok(WireMessage::PreVoteAsk),
        10 => Ok(WireMessage::PreVoteAnswer {
            term: 2,
            last: state_id(1, 4),
        }),
        11 => Ok(WireMessage::PreVoteRefuse { leader: id("a") }),
        12 => Ok(WireMessage::FollowerCheck { term: 5 }),
        13 => Ok(WireMessage::FollowerAnswer {
            good: true,
            term: 1,
            applied: state_id(1, 2),
        }),
        14 => Ok(WireMessage::FollowerAnswer {
            good: false,
            term: 6,
            applied: state_id(0, 0),
        }),
        15 => Ok(WireMessage::LeaderCheck { term: 5 }),
        16 => Ok(WireMessage::LeaderAnswer { good: true }),
        _ => Ok(WireMessage::LeaderAnswer { good: false }),
    }
}

const MESSAGES: &[&str] = &[
    "publish {\"committed\":[\"a\"],\"config\":[\"a\"],\"parent\":{\"term\":1,\"version\":4},\"term\":2,\"value\":{\"exclusions\":[],\"master\":null,\"members\":[],\"settings\":{}},\"version\":1}",
    "startjoin a 1",
    "join 1 0/0",
    "response 1/1",
    "commit 1/2",
    "joinask 7",
    "peersask a,b",
    "peersanswer _ 3 a,b",
    "peersanswer a 3 _",
    "prevoteask",
    "prevoteanswer 2 1/4",
    "prevoterefuse a",
    "followercheck 5",
    "followeranswer yes 1 1/2",
    "followeranswer no 6 0/0",
    "leadercheck 5",
    "leaderanswer yes",
    "leaderanswer no",
];

// Whether the message at a place of the table has this text.
fn has_text(alloc: Global, place: usize, wanted: &str) -> Result<bool, AllocError> {
    let mut text = begun(alloc)?;
    write_message(&mut text, alloc, &message(alloc, place)?)?;
    goes_on(alloc, &text, wanted)
}

#[test]
fn each_message_has_its_word_and_its_fields(rt: HostRuntime) {
    for (place, wanted) in MESSAGES.iter().enumerate() {
        assert!(rt; has_text(rt.alloc(), place, wanted) == Ok(true), "{wanted}");
    }
}

fn joins() -> [Frame; 2] {
    [
        Frame {
            from: id("a"),
            to: id("b"),
            message: WireMessage::JoinAsk { term: 7 },
        },
        Frame {
            from: id("a"),
            to: id("c"),
            message: WireMessage::PreVoteAsk,
        },
    ]
}

fn write_numbered(text: &mut Text, alloc: Global) -> Result<(), AllocError> {
    let frames = joins();
    write_frames(text, alloc, 4, &frames)?;
    for frame in &frames {
        write_frame_line(text, alloc, 1 << 62, frame)?;
    }
    Ok(())
}

const FRAMES: &str =
    "m5 a->b joinask 7\nm6 a->c prevoteask\nm4611686018427387904 a->b joinask 7\nm4611686018427387904 a->c prevoteask\n";

const MODES: &str = "mode a candidate 3\nmode a leader 3\nmode a follower b 3\n";

fn write_modes(text: &mut Text) -> Result<(), AllocError> {
    for mode in [Mode::Candidate, Mode::Leader, Mode::Follower(id("b"))] {
        write_mode(text, id("a"), mode, 3)?;
    }
    Ok(())
}

fn drops() -> [MemberDrop; 2] {
    [
        MemberDrop {
            member: id("b"),
            cause: DropCause::Checks,
        },
        MemberDrop {
            member: id("c"),
            cause: DropCause::Lag,
        },
    ]
}

const DROPS: &str = "drop a b checks\ndrop a c lag\n";

fn replies() -> [Outgoing; 2] {
    [
        Outgoing {
            conn: 1,
            reply: ClientReply::To {
                id: 7,
                answer: Answer::NotMaster(None),
            },
        },
        Outgoing {
            conn: 2,
            reply: ClientReply::BadLine(LineFault::NotJson),
        },
    ]
}

const REPLIES: &str = "reply a {\"id\":7,\"not_master\":null}\nreply a {\"error\":\"not_json\"}\n";

fn request(alloc: Global) -> Result<PublishRequest, AllocError> {
    Ok(PublishRequest {
        source: id("a"),
        state: state(alloc)?,
    })
}

fn taken(sends: Option<Sent>, wins: bool) -> Outcome {
    Outcome::Answered(ActReply::Taken(sends, wins))
}

fn publishing(alloc: Global) -> Result<Deed, AllocError> {
    let request = request(alloc)?;
    let config = SharedConfig::of(request.state.share()?);
    let value = SharedValue::of(request.state.share()?);
    let sent = Some(Sent::Publish(request));
    Ok(Deed::Act(Act::Value(1, config, value), taken(sent, false)))
}

// The node wins an election and publishes.
fn winning(alloc: Global) -> Result<[Deed; 3], AllocError> {
    let publishing = publishing(alloc)?;
    let join = Join {
        source: id("b"),
        target: id("a"),
        term: 2,
        last_term: 0,
        last_version: 0,
    };
    Ok([
        Deed::Act(Act::TakeJoin(join), taken(None, true)),
        Deed::Mode(Mode::Leader, 2),
        publishing,
    ])
}

const WINNING: &str = "act a ok join b a 2 0/0\n\
    won a 2\n\
    mode a leader 2\n\
    act a ok value 1 a {\"exclusions\":[],\"master\":null,\"members\":[],\"settings\":{}}\n\
    drop a b checks\n\
    drop a c lag\n\
    m5 a->b joinask 7\n\
    m6 a->c prevoteask\n\
    reply a {\"id\":7,\"not_master\":null}\n\
    reply a {\"error\":\"not_json\"}\n";

fn write_winning(
    text: &mut Text,
    alloc: Global,
    last: &mut Option<SharedState>,
) -> Result<(), AllocError> {
    let deeds = winning(alloc)?;
    write_event(
        text,
        alloc,
        4,
        id("a"),
        last,
        &deeds,
        &drops(),
        &joins(),
        &replies(),
    )
}

fn response() -> Deed {
    let response = PublishResponse {
        source: id("b"),
        target: id("a"),
        term: 2,
        version: 1,
    };
    Deed::Act(
        Act::Response(response),
        taken(Some(Sent::Commit(commit())), false),
    )
}

fn commit() -> ApplyCommit {
    ApplyCommit {
        source: id("a"),
        term: 2,
        version: 1,
    }
}

fn accepting(alloc: Global, outcome: Outcome) -> Result<Deed, AllocError> {
    Ok(Deed::Act(Act::Publish(request(alloc)?), outcome))
}

fn booting(alloc: Global) -> Result<Deed, AllocError> {
    let initial = SharedState::of(alloc, ClusterState::initial(alloc, &ids(&["a", "b"]))?)?;
    Ok(Deed::Act(
        Act::Bootstrap(SharedConfig::of(initial)),
        Outcome::Disk(true),
    ))
}

// Each other act, and each way in which one ends.
fn responding(alloc: Global) -> Result<[Deed; 5], AllocError> {
    let accepting = accepting(alloc, Outcome::Crashed(true))?;
    let booting = booting(alloc)?;
    let late = Cause::Start(StartCause::TermNotGreater(2, 2));
    Ok([
        response(),
        Deed::Act(
            Act::StartJoin(id("b"), 2),
            Outcome::Answered(ActReply::Refused(late)),
        ),
        Deed::Act(Act::Commit(commit()), Outcome::Answered(ActReply::Stopped)),
        accepting,
        booting,
    ])
}

const RESPONDING: &str = "act a ok response b a 2/1\n\
    committed {\"committed\":[\"a\"],\"config\":[\"a\"],\"parent\":{\"term\":1,\"version\":4},\"term\":2,\"value\":{\"exclusions\":[],\"master\":null,\"members\":[],\"settings\":{}},\"version\":1}\n\
    act a refused:TermNotGreater(2,2) startjoin b 2\n\
    act a stopped commit a 2/1\n\
    act a crashed publish a {\"committed\":[\"a\"],\"config\":[\"a\"],\"parent\":{\"term\":1,\"version\":4},\"term\":2,\"value\":{\"exclusions\":[],\"master\":null,\"members\":[],\"settings\":{}},\"version\":1}\n\
    act a disk boot a,b\n";

// What was published last is the state of the response.
fn write_responding(
    text: &mut Text,
    alloc: Global,
    last: &mut Option<SharedState>,
) -> Result<(), AllocError> {
    *last = Some(state(alloc)?);
    write_deeds(text, alloc, id("a"), last, &responding(alloc)?)
}

const ACCEPTING: &str =
    "act a ok publish a {\"committed\":[\"a\"],\"config\":[\"a\"],\"parent\":{\"term\":1,\"version\":4},\"term\":2,\"value\":{\"exclusions\":[],\"master\":null,\"members\":[],\"settings\":{}},\"version\":1}\n";

fn write_accepting(
    text: &mut Text,
    alloc: Global,
    last: &mut Option<SharedState>,
) -> Result<(), AllocError> {
    let deed = accepting(alloc, taken(None, false))?;
    write_deeds(text, alloc, id("a"), last, &[deed])
}

fn struck() -> [Deed; 2] {
    [
        Deed::Mode(Mode::Candidate, 2),
        Deed::Act(Act::StartJoin(id("b"), 3), Outcome::Disk(false)),
    ]
}

fn write_struck(
    text: &mut Text,
    alloc: Global,
    last: &mut Option<SharedState>,
) -> Result<(), AllocError> {
    let deeds = struck();
    write_struck_deeds(text, alloc, id("a"), last, &deeds, false)?;
    write_struck_event(text, alloc, id("a"), last, &deeds, &drops(), true)
}

const STRUCK: &str =
    "mode a candidate 2\nact a disk startjoin b 3\nmode a candidate 2\nact a crashed startjoin b 3\ndrop a b checks\ndrop a c lag\n";

// What is shown of node a.
#[derive(Clone, Copy)]
enum Shown {
    Frames,
    Modes,
    Drops,
    Replies,
    Winning,
    Responding,
    Accepting,
    Struck,
}

// Writes it, and keeps the state that was published last.
fn write_shown(
    text: &mut Text,
    alloc: Global,
    last: &mut Option<SharedState>,
    shown: Shown,
) -> Result<(), AllocError> {
    match shown {
        Shown::Frames => write_numbered(text, alloc),
        Shown::Modes => write_modes(text),
        Shown::Drops => write_drops(text, id("a"), &drops()),
        Shown::Replies => write_replies(text, alloc, id("a"), &replies()),
        Shown::Winning => write_winning(text, alloc, last),
        Shown::Responding => write_responding(text, alloc, last),
        Shown::Accepting => write_accepting(text, alloc, last),
        Shown::Struck => write_struck(text, alloc, last),
    }
}

// Whether the state 2/1 was published last, or none where none is to be.
fn is_last(last: &Option<SharedState>, publishes: bool) -> bool {
    match last {
        Some(state) => publishes && state.id() == state_id(2, 1),
        None => !publishes,
    }
}

// Whether it has this text, and leaves a state that was published last.
fn is_shown(
    alloc: Global,
    shown: Shown,
    wanted: &str,
    publishes: bool,
) -> Result<bool, AllocError> {
    let mut last = None;
    let mut text = begun(alloc)?;
    write_shown(&mut text, alloc, &mut last, shown)?;
    Ok(is_last(&last, publishes) && goes_on(alloc, &text, wanted)?)
}

// What is shown, its text, and whether a state was published last then.
const ROWS: &[(&str, Shown, &str, bool)] = &[
    (
        "frames_are_numbered_from_the_next_one_on",
        Shown::Frames,
        FRAMES,
        false,
    ),
    (
        "modes_have_their_term_and_a_follower_its_leader",
        Shown::Modes,
        MODES,
        false,
    ),
    ("drops_have_their_cause", Shown::Drops, DROPS, false),
    (
        "replies_are_json_behind_the_node",
        Shown::Replies,
        REPLIES,
        false,
    ),
    (
        "an_event_shows_acts_and_modes_then_drops_then_frames_then_replies",
        Shown::Winning,
        WINNING,
        true,
    ),
    (
        "a_response_that_sends_a_commit_shows_what_was_published_last",
        Shown::Responding,
        RESPONDING,
        true,
    ),
    (
        "a_state_that_was_accepted_was_not_published",
        Shown::Accepting,
        ACCEPTING,
        false,
    ),
    (
        "an_act_in_which_the_node_stopped_is_shown_as_crashed",
        Shown::Struck,
        STRUCK,
        false,
    ),
];

#[test]
fn what_a_node_does_has_its_lines(rt: HostRuntime) {
    for (name, shown, wanted, publishes) in ROWS {
        assert!(rt;
            is_shown(rt.alloc(), *shown, wanted, *publishes) == Ok(true),
            "{name}"
        );
    }
}
