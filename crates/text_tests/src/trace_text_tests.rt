//! Acts, messages and causes with their texts. Their forms are those of docs/formats.md.
use crate::begun_text::{begun, goes_on};
use crate::names::{id, ids};
use cluster_state::{
    ApplyCommit, ClusterState, ClusterValue, CommitCause, InitialCause, Join, JoinCause, Kept,
    PublishCause, PublishRequest, PublishResponse, ResponseCause, SharedState, StartCause,
    ValueCause, to_json,
};
use std::alloc::{AllocError, Global};
use text::Text;
use trace_text::{
    Ending, write_act_head, write_boot, write_cause, write_commit, write_commit_message,
    write_committed, write_crashed, write_disk, write_down_line, write_join, write_join_message,
    write_publish, write_publish_message, write_record, write_response, write_response_message,
    write_start_join, write_up_line, write_value, write_won,
};
use voting_config::{IdList, NodeId, NodeSet, VotingConfig};
use world_model::Cause;

fn is_cause(alloc: Global, cause: Cause, wanted: &str) -> Result<bool, AllocError> {
    let mut text = begun(alloc)?;
    write_cause(&mut text, cause)?;
    goes_on(alloc, &text, wanted)
}

// A cause, whose values are for a row to say.
#[derive(Clone, Copy)]
enum Why {
    AlreadySet,
    EmptyConfig,
    TermNotGreater,
    TermTooLarge,
    NotForMe,
    JoinTerm,
    NotStarted,
    FresherTerm,
    FresherVersion,
    NoConfig,
    ValueNotWon,
    NotAccepted,
    VersionNotGreater,
    VersionTooLarge,
    Reconfiguring,
    NoJoinQuorum,
    PublishTerm,
    NoNewerState,
    ResponseNotForMe,
    ResponseNotWon,
    ResponseTerm,
    ResponseVersion,
    CommitTerm,
    AcceptedTerm,
    CommitVersion,
    Publishing,
}

// The cause with the node's own value and with the other one.
fn cause(why: Why, own: u64, other: u64) -> Cause {
    match why {
        Why::AlreadySet => Cause::Initial(InitialCause::AlreadySet),
        Why::EmptyConfig => Cause::Initial(InitialCause::EmptyConfig),
        Why::TermNotGreater => Cause::Start(StartCause::TermNotGreater(own, other)),
        Why::TermTooLarge => Cause::Start(StartCause::TermTooLarge(other)),
        Why::NotForMe => Cause::Join(JoinCause::NotForMe(id("a"))),
        Why::JoinTerm => Cause::Join(JoinCause::TermMismatch(own, other)),
        Why::NotStarted => Cause::Join(JoinCause::NotStarted),
        Why::FresherTerm => Cause::Join(JoinCause::FresherTerm(own, other)),
        Why::FresherVersion => Cause::Join(JoinCause::FresherVersion(own, other)),
        Why::NoConfig => Cause::Join(JoinCause::NoConfig),
        Why::ValueNotWon => Cause::Value(ValueCause::NotWon),
        Why::NotAccepted => Cause::Value(ValueCause::NotAccepted(own, other)),
        Why::VersionNotGreater => Cause::Value(ValueCause::VersionNotGreater(own, other)),
        Why::VersionTooLarge => Cause::Value(ValueCause::VersionTooLarge(other)),
        Why::Reconfiguring => Cause::Value(ValueCause::Reconfiguring),
        Why::NoJoinQuorum => Cause::Value(ValueCause::NoJoinQuorum),
        Why::PublishTerm => Cause::Publish(PublishCause::TermMismatch(own, other)),
        Why::NoNewerState => Cause::Publish(PublishCause::VersionNotGreater(own, other)),
        Why::ResponseNotForMe => Cause::Response(ResponseCause::NotForMe(id("b"))),
        Why::ResponseNotWon => Cause::Response(ResponseCause::NotWon),
        Why::ResponseTerm => Cause::Response(ResponseCause::TermMismatch(own, other)),
        Why::ResponseVersion => Cause::Response(ResponseCause::VersionMismatch(own, other)),
        Why::CommitTerm => Cause::Commit(CommitCause::TermMismatch(own, other)),
        Why::AcceptedTerm => Cause::Commit(CommitCause::AcceptedTermMismatch(own, other)),
        Why::CommitVersion => Cause::Commit(CommitCause::VersionMismatch(own, other)),
        Why::Publishing => Cause::Commit(CommitCause::Publishing(own, other)),
    }
}

// The values of a cause stand in the order of the clause that refuses, the node's own first.
const CAUSES: &[(Why, u64, u64, &str)] = &[
    (Why::AlreadySet, 0, 0, "AlreadySet"),
    (Why::EmptyConfig, 0, 0, "EmptyConfig"),
    (Why::TermNotGreater, 2, 1, "TermNotGreater(2,1)"),
    (Why::TermTooLarge, 0, 9, "TermTooLarge(9)"),
    (Why::NotForMe, 0, 0, "NotForMe(a)"),
    (Why::JoinTerm, 2, 1, "TermMismatch(2,1)"),
    (Why::NotStarted, 0, 0, "NotStarted"),
    (Why::FresherTerm, 1, 2, "FresherTerm(1,2)"),
    (Why::FresherVersion, 3, 4, "FresherVersion(3,4)"),
    (Why::NoConfig, 0, 0, "NoConfig"),
    (Why::ValueNotWon, 0, 0, "NotWon"),
    (Why::NotAccepted, 5, 6, "NotAccepted(5,6)"),
    (Why::VersionNotGreater, 7, 6, "VersionNotGreater(7,6)"),
    (Why::VersionTooLarge, 0, 9, "VersionTooLarge(9)"),
    (Why::Reconfiguring, 0, 0, "Reconfiguring"),
    (Why::NoJoinQuorum, 0, 0, "NoJoinQuorum"),
    (Why::PublishTerm, 2, 3, "TermMismatch(2,3)"),
    (Why::NoNewerState, 8, 7, "VersionNotGreater(8,7)"),
    (Why::ResponseNotForMe, 0, 0, "NotForMe(b)"),
    (Why::ResponseNotWon, 0, 0, "NotWon"),
    (Why::ResponseTerm, 4, 5, "TermMismatch(4,5)"),
    (Why::ResponseVersion, 6, 7, "VersionMismatch(6,7)"),
    (Why::CommitTerm, 1, 2, "TermMismatch(1,2)"),
    (Why::AcceptedTerm, 1, 2, "AcceptedTermMismatch(1,2)"),
    (Why::CommitVersion, 3, 2, "VersionMismatch(3,2)"),
    (Why::Publishing, 4, 3, "Publishing(4,3)"),
];

#[test]
fn causes_have_their_values(rt: HostRuntime) {
    for (why, own, other, wanted) in CAUSES {
        assert!(rt;
            is_cause(rt.alloc(), cause(*why, *own, *other), wanted) == Ok(true),
            "{wanted}"
        );
    }
}

fn join() -> Join {
    Join {
        source: id("a"),
        target: id("a"),
        term: 2,
        last_term: 0,
        last_version: 3,
    }
}

fn initial(alloc: Global) -> Result<ClusterState, AllocError> {
    ClusterState::initial(alloc, &NodeSet::new())
}

fn initial_shared(alloc: Global) -> Result<SharedState, AllocError> {
    SharedState::of(alloc, initial(alloc)?)
}

fn response(target: NodeId) -> PublishResponse {
    PublishResponse {
        source: id("a"),
        target,
        term: 1,
        version: 2,
    }
}

fn commit() -> ApplyCommit {
    ApplyCommit {
        source: id("a"),
        term: 1,
        version: 2,
    }
}

fn write_config_and_value(text: &mut Text, alloc: Global) -> Result<(), AllocError> {
    let config = IdList::new(alloc);
    write_value(text, alloc, 5, &config, &ClusterValue::empty(alloc))
}

fn write_request(text: &mut Text, alloc: Global) -> Result<(), AllocError> {
    let request = PublishRequest {
        source: id("a"),
        state: initial_shared(alloc)?,
    };
    write_publish(text, alloc, &request)
}

fn write_request_message(text: &mut Text, alloc: Global) -> Result<(), AllocError> {
    let state = initial(alloc)?;
    let json = to_json(alloc, &state)?;
    write_publish_message(text, 1, &id("a"), &state, json.as_slice())
}

// The state 2/5 of one voter is accepted, that of none committed.
fn write_found(text: &mut Text, alloc: Global) -> Result<(), AllocError> {
    let mut accepted = ClusterState::initial(alloc, &ids(&["a"]))?;
    accepted.term = 2;
    accepted.version = 5;
    let found = Kept {
        term: 3,
        accepted: SharedState::of(alloc, accepted)?,
        committed: VotingConfig::of(&NodeSet::new()),
    };
    write_record(text, id("a"), &found)
}

// A part of a trace: what an election writes, what a publication writes, and what is written as a node stops and starts again.
#[derive(Clone, Copy)]
enum Part {
    HeadTaken,
    HeadRefused,
    HeadStopped,
    HeadDisk,
    HeadCrashed,
    Boot,
    StartJoin,
    Join,
    Won,
    NotWon,
    JoinMessage,
    Value,
    Publish,
    ResponseToA,
    ResponseToB,
    Commit,
    Committed,
    PublishMessage,
    MessageToA,
    MessageToB,
    CommitMessage,
    Crashed,
    Down,
    Disk,
    Record,
    Up,
}

const NOT_GREATER: Cause = Cause::Start(StartCause::TermNotGreater(2, 1));

fn write_part(text: &mut Text, alloc: Global, part: Part) -> Result<(), AllocError> {
    let a = id("a");
    match part {
        Part::HeadTaken => write_act_head(text, a, Ending::Taken),
        Part::HeadRefused => write_act_head(text, a, Ending::Refused(NOT_GREATER)),
        Part::HeadStopped => write_act_head(text, a, Ending::Stopped),
        Part::HeadDisk => write_act_head(text, a, Ending::Disk),
        Part::HeadCrashed => write_act_head(text, a, Ending::Crashed),
        Part::Boot => write_boot(text, &[]),
        Part::StartJoin => write_start_join(text, a, 1),
        Part::Join => write_join(text, &join()),
        Part::Won => write_won(text, true, a, 2),
        Part::NotWon => write_won(text, false, a, 2),
        Part::JoinMessage => write_join_message(text, 7, &join()),
        Part::Value => write_config_and_value(text, alloc),
        Part::Publish => write_request(text, alloc),
        Part::ResponseToA => write_response(text, &response(a)),
        Part::ResponseToB => write_response(text, &response(id("b"))),
        Part::Commit => write_commit(text, &commit()),
        Part::Committed => write_committed(text, alloc, &initial_shared(alloc)?),
        Part::PublishMessage => write_request_message(text, alloc),
        Part::MessageToA => write_response_message(text, 2, &response(a)),
        Part::MessageToB => write_response_message(text, 2, &response(id("b"))),
        Part::CommitMessage => write_commit_message(text, 3, &commit()),
        Part::Crashed => write_crashed(text, a),
        Part::Down => write_down_line(text, a),
        Part::Disk => write_disk(text, a),
        Part::Record => write_found(text, alloc),
        Part::Up => write_up_line(text, a),
    }
}

fn is_part(alloc: Global, part: Part, wanted: &str) -> Result<bool, AllocError> {
    let mut text = begun(alloc)?;
    write_part(&mut text, alloc, part)?;
    goes_on(alloc, &text, wanted)
}

const ELECTIONS: &[(Part, &str)] = &[
    (Part::HeadTaken, "act a ok "),
    (Part::HeadRefused, "act a refused:TermNotGreater(2,1) "),
    (Part::HeadStopped, "act a stopped "),
    (Part::HeadDisk, "act a disk "),
    (Part::HeadCrashed, "act a crashed "),
    (Part::Boot, "boot _"),
    (Part::StartJoin, "startjoin a 1"),
    (Part::Join, "join a a 2 0/3"),
    (Part::Won, "won a 2\n"),
    (Part::NotWon, ""),
    (Part::JoinMessage, "m7 a->a join 2 0/3\n"),
];

const PUBLICATIONS: &[(Part, &str)] = &[
    (
        Part::Value,
        "value 5 _ {\"exclusions\":[],\"master\":null,\"members\":[],\"settings\":{}}",
    ),
    (
        Part::Publish,
        "publish a {\"committed\":[],\"config\":[],\"parent\":null,\"term\":0,\"value\":{\"exclusions\":[],\"master\":null,\"members\":[],\"settings\":{}},\"version\":0}",
    ),
    (Part::ResponseToA, "response a a 1/2"),
    (Part::ResponseToB, "response a b 1/2"),
    (Part::Commit, "commit a 1/2"),
    (
        Part::Committed,
        "committed {\"committed\":[],\"config\":[],\"parent\":null,\"term\":0,\"value\":{\"exclusions\":[],\"master\":null,\"members\":[],\"settings\":{}},\"version\":0}\n",
    ),
    (
        Part::PublishMessage,
        "m1 a->* publish {\"committed\":[],\"config\":[],\"parent\":null,\"term\":0,\"value\":{\"exclusions\":[],\"master\":null,\"members\":[],\"settings\":{}},\"version\":0}\n",
    ),
    (Part::MessageToA, "m2 a->a response 1/2\n"),
    (Part::MessageToB, "m2 a->b response 1/2\n"),
    (Part::CommitMessage, "m3 a->* commit 1/2\n"),
];

const STOPS: &[(Part, &str)] = &[
    (Part::Crashed, "crashed a\n"),
    (Part::Down, "down a\n"),
    (Part::Disk, "disk a\n"),
    (Part::Record, "record a 3 2/5 a _\n"),
    (Part::Up, "up a\n"),
];

const PARTS: &[(&str, &[(Part, &str)])] = &[
    ("lines_of_elections", ELECTIONS),
    ("lines_of_publications", PUBLICATIONS),
    ("lines_of_stops", STOPS),
];

#[test]
fn parts_have_their_lines(rt: HostRuntime) {
    for (name, rows) in PARTS {
        for (part, wanted) in *rows {
            assert!(rt;
                is_part(rt.alloc(), *part, wanted) == Ok(true),
                "{name}: {wanted}"
            );
        }
    }
}
