//! A publication from its start to its end, in time and late. The moments were worked out from the time that docs/policy.md
//! gives a publication.
use crate::names::{id, list, set};
use cluster_state::StateId;
use publication::*;
use std::test::*;

fn state(version: u64) -> StateId {
    StateId { term: 1, version }
}

// What comes of a publication to a and b, or how it then stands. Who has responded is told as a set, and as a word over the roster in
// the order of the responses.
#[derive(Clone, Copy)]
enum Call {
    Responded(&'static str),
    CommitSent,
    Applied(&'static str),
    Finished,
    IsOfVersion(u64),
    HasTargets(&'static str),
    IsRunning(u64),
    HasFailed(u64),
    IsDone(u64, &'static str),
    HaveResponded(&'static str, u64),
    IsCommitSent(bool),
    IsFinished(bool),
}

fn act(publication: &mut Publication, call: Call) {
    match call {
        Call::Responded(node) => publication.responded(id(node)),
        Call::CommitSent => publication.commit_sent(),
        Call::Applied(node) => publication.applied(id(node)),
        Call::Finished => publication.finished(),
        Call::IsOfVersion(_)
        | Call::HasTargets(_)
        | Call::IsRunning(_)
        | Call::HasFailed(_)
        | Call::IsDone(_, _)
        | Call::HaveResponded(_, _)
        | Call::IsCommitSent(_)
        | Call::IsFinished(_) => {}
    }
}

fn holds(publication: &Publication, call: Call) -> bool {
    match call {
        Call::IsOfVersion(version) => publication.id() == state(version),
        Call::HasTargets(nodes) => publication.targets().as_slice() == set(nodes).as_slice(),
        Call::IsRunning(now) => matches!(publication.tick(now), Stage::Running),
        Call::HasFailed(now) => matches!(publication.tick(now), Stage::Failed),
        Call::IsDone(now, laggards) => is_done(publication.tick(now), laggards),
        Call::HaveResponded(nodes, word) => {
            let responders = publication.responders();
            responders.sources().as_slice() == set(nodes).as_slice() && responders.marks().1 == word
        }
        Call::IsCommitSent(is_sent) => publication.is_commit_sent() == is_sent,
        Call::IsFinished(is_finished) => publication.is_finished() == is_finished,
        Call::Responded(_) | Call::CommitSent | Call::Applied(_) | Call::Finished => true,
    }
}

fn is_done(stage: Stage, laggards: &str) -> bool {
    match stage {
        Stage::Done(ids) => ids.as_slice() == set(laggards).as_slice(),
        Stage::Running | Stage::Failed => false,
    }
}

const CALLS: &[Call] = &[
    Call::IsRunning(30_099),
    Call::HasFailed(30_100),
    Call::Responded("b"),
    Call::HaveResponded("b", 1),
    Call::IsCommitSent(false),
    Call::CommitSent,
    Call::IsCommitSent(true),
    Call::IsRunning(30_099),
    Call::IsFinished(false),
    Call::Responded("a"),
    Call::HaveResponded("a,b", 3),
    Call::Applied("a"),
    Call::Finished,
    Call::IsFinished(true),
    Call::IsDone(30_100, "b"),
    Call::IsOfVersion(2),
    Call::HasTargets("a,b"),
];

#[test]
fn a_publication_fails_after_30_seconds_or_names_its_laggards(rt: HostRuntime) -> Result<(), Fail> {
    let targets = list(rt.alloc(), "a,b")?;
    let mut publication = Publication::start(state(2), &targets, 100);
    for (at, call) in CALLS.iter().enumerate() {
        act(&mut publication, *call);
        assert!(rt; holds(&publication, *call), "call {at}");
    }
    Ok(())
}
