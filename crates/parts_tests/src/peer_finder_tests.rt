//! Which peers are kept, and when they are asked. What is expected follows from docs/policy.md.
use crate::names::{numbered, set};
use peer_finder::*;
use std::test::*;
use voting_config::NodeId;

fn letter(letter: u8) -> NodeId {
    NodeId::from_bytes(&[letter]).unwrap_or_default()
}

// Whether these peers are known, in their order.
fn are_known(finder: &PeerFinder, peers: &str) -> bool {
    *finder.known() == *set(peers).as_slice()
}

#[test]
fn a_64th_peer_is_left_out(rt: HostRuntime) {
    let mut finder = PeerFinder::new(letter(b'a'));
    finder.add(letter(b'a'));
    for number in 1..=64 {
        finder.add(numbered(number));
    }
    assert!(rt; are_known(&finder, "n01..n63"), "64 were met");
    finder.add(numbered(5));
    assert!(rt; are_known(&finder, "n01..n63"), "one was met again");
    finder.forget(numbered(1));
    finder.add(numbered(64));
    assert!(rt; are_known(&finder, "n02..n64"), "the first was forgotten");
}

// What is done to a finder, or what it is then asked.
#[derive(Clone, Copy)]
enum Call {
    Add(u8),
    Asked(u64),
    Answered(u8),
    AnsweredWith(u8, u8),
    ForgetAnswers(u64),
    Disconnected(u8, u64),
    Hold(u64, u64),
    AsksBoth(u64),
    AsksNobody(u64),
    IsDue(u64, bool),
    FoundNoMaster(u8),
    FoundAMaster(u8),
    HasNotFound(u8),
    KnowsBoth,
    BothAnswered,
    IsFree(u8),
}

fn act(finder: &mut PeerFinder, call: Call) {
    match call {
        Call::Add(peer) => finder.add(letter(peer)),
        Call::Asked(now) => finder.asked(now),
        Call::Answered(peer) => finder.answered(letter(peer), None),
        Call::AnsweredWith(peer, master) => finder.answered(letter(peer), Some(letter(master))),
        Call::ForgetAnswers(now) => finder.forget_answers(now),
        Call::Disconnected(peer, now) => finder.disconnected(letter(peer), now),
        Call::Hold(now, wait) => finder.hold(now, wait),
        Call::AsksBoth(_)
        | Call::AsksNobody(_)
        | Call::IsDue(_, _)
        | Call::FoundNoMaster(_)
        | Call::FoundAMaster(_)
        | Call::HasNotFound(_)
        | Call::KnowsBoth
        | Call::BothAnswered
        | Call::IsFree(_) => {}
    }
}

fn are_both(ids: &[NodeId]) -> bool {
    ids == [letter(b'b'), letter(b'c')].as_slice()
}

fn holds(finder: &PeerFinder, call: Call) -> bool {
    match call {
        Call::AsksBoth(now) => are_both(finder.tick(now).as_slice()),
        Call::AsksNobody(now) => finder.tick(now).len() == 0,
        Call::IsDue(now, is_due) => finder.is_due(now) == is_due,
        Call::FoundNoMaster(peer) => has_master(finder.found(letter(peer))) == Some(false),
        Call::FoundAMaster(peer) => has_master(finder.found(letter(peer))) == Some(true),
        Call::HasNotFound(peer) => finder.found(letter(peer)).is_none(),
        Call::KnowsBoth => are_both(finder.known_set().as_slice()),
        Call::BothAnswered => are_both(finder.answered_set().as_slice()),
        Call::IsFree(peer) => finder.free_set().as_slice() == [letter(peer)].as_slice(),
        Call::Add(_)
        | Call::Asked(_)
        | Call::Answered(_)
        | Call::AnsweredWith(_, _)
        | Call::ForgetAnswers(_)
        | Call::Disconnected(_, _)
        | Call::Hold(_, _) => true,
    }
}

fn has_master(found: Option<Found>) -> Option<bool> {
    match found {
        Some(Found { master: Some(_) }) => Some(true),
        Some(Found { master: None }) => Some(false),
        None => None,
    }
}

const CALLS: &[Call] = &[
    Call::Add(b'c'),
    Call::Add(b'b'),
    Call::AsksBoth(0),
    Call::Asked(5),
    Call::AsksNobody(1_004),
    Call::IsDue(1_004, false),
    Call::IsDue(1_005, true),
    Call::AsksBoth(1_005),
    Call::Answered(b'b'),
    Call::AnsweredWith(b'c', b'b'),
    Call::Answered(b'd'),
    Call::FoundNoMaster(b'b'),
    Call::FoundAMaster(b'c'),
    Call::HasNotFound(b'd'),
    Call::KnowsBoth,
    Call::BothAnswered,
    Call::IsFree(b'b'),
    Call::ForgetAnswers(100),
    Call::HasNotFound(b'b'),
    Call::AsksBoth(100),
    // Whose connection has ended has not answered, and the others have.
    Call::Asked(200),
    Call::AnsweredWith(b'b', b'c'),
    Call::Answered(b'c'),
    Call::AsksNobody(300),
    Call::Disconnected(b'b', 300),
    Call::HasNotFound(b'b'),
    Call::FoundNoMaster(b'c'),
    Call::AsksBoth(300),
    Call::Hold(300, 50),
    Call::AsksNobody(349),
    Call::AsksBoth(350),
];

#[test]
fn known_peers_are_asked_each_second(rt: HostRuntime) {
    let mut finder = PeerFinder::new(letter(b'a'));
    for (at, call) in CALLS.iter().enumerate() {
        act(&mut finder, *call);
        assert!(rt; holds(&finder, *call), "call {at}");
    }
}
