//! Ids, sets and quorums at their limits. What is expected was counted by hand.
use crate::names::{id, list, numbered, set};
use std::alloc::{AllocError, Global};
use voting_config::{
    Full, IdError, IdList, IdRoom, MAX_IDS, NodeId, NodeSet, Roster, Tally, VotingConfig,
    quorum_mask, with_bit, without_bit,
};

const FULL: &str = "n01..n64";

// Whether the set is the one that the text lists.
fn is(ids: &NodeSet, text: &str) -> bool {
    ids.as_slice() == set(text).as_slice()
}

fn is_count(ids: Option<NodeSet>, wanted: Option<usize>) -> bool {
    match ids {
        Some(ids) => Some(ids.len()) == wanted,
        None => wanted == None,
    }
}

const LISTS: &[(&str, Option<usize>)] = &[
    ("_", Some(0)),
    ("a", Some(1)),
    ("a,b,node-1", Some(3)),
    ("", None),
    ("b,a", None),
    ("a,a", None),
    ("a,,b", None),
    ("a,B", None),
];

#[test]
fn a_list_is_a_set_where_its_ids_ascend(rt: HostRuntime) {
    for (text, wanted) in LISTS {
        assert!(rt; is_count(NodeSet::parse(text), *wanted));
    }
}

// The text that lists the ids from n01 up to the one of this number.
fn listed(alloc: Global, last: u8) -> Result<String, AllocError> {
    let mut text = String::from_str(alloc, "n01")?;
    for number in 2..=last {
        text.push_str(",")?;
        text.push_str(numbered(number).as_str())?;
    }
    Ok(text)
}

fn are_listed(alloc: Global, last: u8, wanted: Option<usize>) -> bool {
    match listed(alloc, last) {
        Ok(text) => is_count(NodeSet::parse(text.as_str()), wanted),
        Err(_) => false,
    }
}

const LONG_LISTS: &[(u8, Option<usize>)] = &[(63, Some(63)), (64, Some(MAX_IDS)), (65, None)];

#[test]
fn a_list_has_up_to_64_ids(rt: HostRuntime) {
    for (last, wanted) in LONG_LISTS {
        assert!(rt; are_listed(rt.alloc(), *last, *wanted), "up to {last}");
    }
    assert!(rt; MAX_IDS == 64);
}

// Whether a text is an id, or is none for this reason.
fn is_id(text: &str, wanted: Option<IdError>) -> bool {
    match NodeId::parse(text) {
        Ok(id) => wanted == None && id.as_str() == text,
        Err(error) => wanted == Some(error),
    }
}

const IDS: &[(&str, Option<IdError>)] = &[
    ("", Some(IdError::Empty)),
    ("node-1", None),
    ("a234567890123456789012345678901", None),
    ("a2345678901234567890123456789012", None),
    ("--------------------------------", None),
    ("a23456789012345678901234567890123", Some(IdError::TooLong)),
    ("a.b", Some(IdError::BadByte(1))),
    ("Node", Some(IdError::BadByte(0))),
];

#[test]
fn an_id_has_1_to_32_letters_digits_and_hyphens(rt: HostRuntime) {
    for (text, wanted) in IDS {
        assert!(rt; is_id(text, *wanted));
    }
    assert!(rt; id("b") > id("a") && id("b") > id("aa"));
    assert!(rt; NodeId::default() == id("--------------------------------"));
}

// Two ids, of which the first comes before the second. An id of 32 bytes leaves no byte that would say how long it is.
const ASCENDING: &[(&str, &str)] = &[
    ("-", "--------------------------------"),
    (
        "-------------------------------",
        "--------------------------------",
    ),
    ("-------------------------------0", "0"),
    (
        "a234567890123456789012345678901",
        "a2345678901234567890123456789010",
    ),
    (
        "a2345678901234567890123456789012",
        "a234567890123456789012345678902",
    ),
];

fn is_before(one: NodeId, other: NodeId) -> bool {
    one < other && one != other && NodeSet::of(&[other, one]).as_slice() == [one, other].as_slice()
}

#[test]
fn ids_of_31_and_32_bytes_are_in_their_order(rt: HostRuntime) {
    for (one, other) in ASCENDING {
        assert!(rt; is_before(id(one), id(other)), "{one}");
    }
}

// What is done to a set.
#[derive(Clone, Copy)]
enum Act {
    Insert(&'static str),
    Remove(&'static str),
    Put(&'static str),
    PutIfRoom(&'static str),
    CopyFrom(&'static str),
    Clear,
}

fn put(ids: &mut NodeSet, id: NodeId) {
    if ids.has_room(id) {
        ids.put(id);
    }
}

// Does the act, and says what it answers: nothing where there is no answer or an error.
fn does(ids: &mut NodeSet, act: Act) -> Option<bool> {
    match act {
        Act::Insert(one) => return ids.insert(id(one)).ok(),
        Act::Remove(one) => return Some(ids.remove(id(one))),
        Act::Put(one) => put(ids, id(one)),
        Act::PutIfRoom(one) => ids.put_if_room(id(one)),
        Act::CopyFrom(others) => ids.copy_from(&set(others)),
        Act::Clear => ids.clear(),
    }
    None
}

// What is shown, a set, what is done to it, what that answers, and the set after it.
type Row = (&'static str, &'static str, Act, Option<bool>, &'static str);

fn holds(row: &Row) -> bool {
    let (_, before, act, answer, after) = row;
    let mut ids = set(before);
    does(&mut ids, *act) == *answer && is(&ids, after)
}

const ACTS: &[Row] = &[
    (
        "a_65th_id_is_refused",
        "a,b,c",
        Act::Insert("b"),
        Some(false),
        "a,b,c",
    ),
    (
        "a_65th_id_is_refused",
        "a,c",
        Act::Insert("b"),
        Some(true),
        "a,b,c",
    ),
    (
        "a_65th_id_is_refused",
        "a,b,c",
        Act::Remove("b"),
        Some(true),
        "a,c",
    ),
    (
        "a_65th_id_is_refused",
        "a,c",
        Act::Remove("b"),
        Some(false),
        "a,c",
    ),
    (
        "a_65th_id_is_refused",
        "n01..n63",
        Act::Insert("n64"),
        Some(true),
        FULL,
    ),
    ("a_65th_id_is_refused", FULL, Act::Insert("n65"), None, FULL),
    (
        "a_65th_id_is_refused",
        FULL,
        Act::Insert("n64"),
        Some(false),
        FULL,
    ),
    (
        "a_65th_id_is_refused",
        FULL,
        Act::Remove("n01"),
        Some(true),
        "n02..n64",
    ),
    (
        "an_id_is_put_in_if_there_is_room",
        "b,c",
        Act::PutIfRoom("a"),
        None,
        "a,b,c",
    ),
    (
        "an_id_is_put_in_if_there_is_room",
        "a,b,c",
        Act::PutIfRoom("b"),
        None,
        "a,b,c",
    ),
    (
        "an_id_is_put_in_if_there_is_room",
        FULL,
        Act::PutIfRoom("n65"),
        None,
        FULL,
    ),
    (
        "an_id_is_put_in_if_there_is_room",
        "b,c",
        Act::Put("a"),
        None,
        "a,b,c",
    ),
    (
        "a_set_is_filled_in_its_place",
        "b,c",
        Act::CopyFrom("a,d,e"),
        None,
        "a,d,e",
    ),
    (
        "a_set_is_filled_in_its_place",
        "a,d,e",
        Act::Clear,
        None,
        "_",
    ),
];

#[test]
fn sets_are_changed_in_their_place(rt: HostRuntime) {
    for (at, row) in ACTS.iter().enumerate() {
        assert!(rt; holds(row), "{}: row {at}", row.0);
    }
    assert!(rt; set(FULL).copy().contains(id("n64")) && !set(FULL).contains(id("n65")));
}

// Whether a configuration of b and c becomes one of these ids, where it was none.
fn becomes(list: &IdList, text: &str) -> bool {
    let mut config = VotingConfig::of(&set("b,c"));
    let is_other = !config.is_same_list(list);
    config.copy_from(list);
    is_other
        && is(config.members(), text)
        && config.is_same_list(list)
        && config.is_same(&VotingConfig::of_list(list))
}

fn is_filled(alloc: Global, text: &str) -> bool {
    match list(alloc, text) {
        Ok(list) => becomes(&list, text),
        Err(_) => false,
    }
}

#[test]
fn a_configuration_is_filled_in_its_place(rt: HostRuntime) {
    assert!(rt; is_filled(rt.alloc(), "a,d,e"));
}

// What is asked of two sets.
#[derive(Clone, Copy)]
enum Question {
    IsWithin(&'static str),
    IsWithout(&'static str),
    IsUnion(&'static str),
    Counts(usize),
    Meets,
    HasAll,
    HasRoom,
}

fn is_union(ids: &NodeSet, others: &NodeSet, union: &str) -> bool {
    if others.union_count(ids) > MAX_IDS {
        return false;
    }
    is(&ids.union(others), union)
}

fn has_room(ids: &NodeSet, others: &NodeSet) -> bool {
    match others.get(0) {
        Some(id) => ids.has_room(id),
        None => false,
    }
}

fn is_so(ids: &NodeSet, others: &NodeSet, question: Question) -> bool {
    match question {
        Question::IsWithin(text) => is(&ids.within(others), text),
        Question::IsWithout(text) => is(&ids.without(others), text),
        Question::IsUnion(text) => is_union(ids, others, text),
        Question::Counts(count) => ids.union_count(others) == count,
        Question::Meets => ids.meets(others),
        Question::HasAll => ids.has_all(others),
        Question::HasRoom => has_room(ids, others),
    }
}

const QUESTIONS: &[(&str, &str, Question, bool)] = &[
    ("a,b,c", "b,d", Question::IsWithin("b"), true),
    ("a,b,c", "b,d", Question::IsWithout("a,c"), true),
    ("a,b,c", "b,d", Question::IsUnion("a,b,c,d"), true),
    ("a,c", "c,d", Question::Counts(3), true),
    ("a,b,c", "b,d", Question::Counts(4), true),
    ("a,b,c", "b,d", Question::Meets, true),
    ("a,b,c", "d", Question::Meets, false),
    ("a,b,c", "a,c", Question::HasAll, true),
    ("a,b,c", "b,d", Question::HasAll, false),
    (FULL, "n64", Question::HasAll, true),
    (FULL, "n64", Question::HasRoom, true),
    (FULL, "n65", Question::HasRoom, false),
    ("n01..n32", "n33..n64", Question::IsUnion(FULL), true),
    ("n01..n32", "n33..n65", Question::Counts(65), true),
];

#[test]
fn sets_are_put_together_and_apart(rt: HostRuntime) {
    for (ids, others, question, wanted) in QUESTIONS {
        assert!(rt; is_so(&set(ids), &set(others), *question) == *wanted);
    }
}

#[test]
fn a_set_is_made_of_ids_in_any_order(rt: HostRuntime) {
    let ids = [id("c"), id("a"), id("c"), id("b")];
    let made = NodeSet::of(&ids);
    assert!(rt; is(&made, "a,b,c") && made.get(0) == Some(id("a")) && made.get(3) == None);
    assert!(rt; is(&NodeSet::of(&[]), "_") && is(&made.copy(), "a,b,c"));
}

// Whether a list of the set holds its ids, and so does a copy.
fn is_list(list: &IdList, text: &str) -> bool {
    match list.copy() {
        Ok(copy) => is(&list.to_set(), text) && copy.as_slice() == list.as_slice(),
        Err(_) => false,
    }
}

fn is_made(alloc: Global, text: &str) -> bool {
    match list(alloc, text) {
        Ok(list) => is_list(&list, text),
        Err(_) => false,
    }
}

// Whether the set is a list in room that was taken before.
fn is_in_room(alloc: Global, text: &str) -> bool {
    match IdRoom::of(alloc, MAX_IDS) {
        Ok(room) => is_list(&room.fill(&set(text)), text),
        Err(_) => false,
    }
}

const LISTED: &[&str] = &["_", "a", "a,b,node-1", FULL];

fn has_a_and_c(list: &IdList) -> bool {
    list.len() == 2 && list.contains(id("c")) && !list.contains(id("b")) && !list.is_empty()
}

fn are_a_and_c(alloc: Global) -> bool {
    match list(alloc, "a,c") {
        Ok(list) => has_a_and_c(&list),
        Err(_) => false,
    }
}

#[test]
fn a_set_is_kept_as_a_list(rt: HostRuntime) {
    for text in LISTED {
        assert!(rt;
            is_made(rt.alloc(), text) && is_in_room(rt.alloc(), text),
            "{text}"
        );
    }
    assert!(rt; are_a_and_c(rt.alloc()) && IdList::new(rt.alloc()).is_empty());
}

// What is asked of a set that is kept as a list, and of another.
#[derive(Clone, Copy)]
enum Asked {
    IsWithin(&'static str),
    IsWithout(&'static str),
    IsSame,
    IsQuorum,
    Meets,
}

fn is_answered(ids: &IdList, others: &IdList, asked: Asked) -> bool {
    match asked {
        Asked::IsWithin(text) => is(&ids.within(&others.to_set()), text),
        Asked::IsWithout(text) => is(&ids.without(&others.to_set()), text),
        Asked::IsSame => ids.is_same(others),
        Asked::IsQuorum => ids.is_quorum(&others.to_set()),
        Asked::Meets => ids.meets(others),
    }
}

fn are_asked(alloc: Global, ids: &str, others: &str, asked: Asked) -> Result<bool, AllocError> {
    let ids = list(alloc, ids)?;
    let others = list(alloc, others)?;
    Ok(is_answered(&ids, &others, asked))
}

const ASKED: &[(&str, &str, Asked, bool)] = &[
    ("a,b,c", "b,d", Asked::IsWithin("b"), true),
    ("a,b,c", "d", Asked::IsWithin("_"), true),
    (FULL, "n33..n65", Asked::IsWithin("n33..n64"), true),
    ("a,b,c", "b,d", Asked::IsWithout("a,c"), true),
    ("a,b,c", "_", Asked::IsWithout("a,b,c"), true),
    (FULL, "n00..n63", Asked::IsWithout("n64"), true),
    ("a,b,c", "a,b,c", Asked::IsSame, true),
    ("a,b,c", "a,b", Asked::IsSame, false),
    ("a,b,c", "a,b,d", Asked::IsSame, false),
    ("_", "_", Asked::IsSame, true),
    ("_", "a", Asked::IsQuorum, false),
    ("a,b,c", "a,b,x", Asked::IsQuorum, true),
    ("a,b,c,d", "a,b,x,y", Asked::IsQuorum, false),
    (FULL, "n01..n32", Asked::IsQuorum, false),
    (FULL, "n32..n64", Asked::IsQuorum, true),
    ("a,b,c", "c,d", Asked::Meets, true),
    ("a,b,c", "d", Asked::Meets, false),
    (FULL, "n64,n65", Asked::Meets, true),
    (FULL, "n65", Asked::Meets, false),
];

#[test]
fn a_kept_set_is_asked_as_it_lies(rt: HostRuntime) {
    for (at, (ids, others, asked, wanted)) in ASKED.iter().enumerate() {
        assert!(rt;
            are_asked(rt.alloc(), ids, others, *asked) == Ok(*wanted),
            "row {at}"
        );
    }
}

fn is_quorum(config: &str, votes: &str) -> bool {
    VotingConfig::of(&set(config)).is_quorum(&set(votes))
}

const QUORUMS: &[(&str, &str, bool)] = &[
    ("_", "a", false),
    ("a", "a", true),
    ("a,b,c", "a,b", true),
    ("a,b,c,d", "a,b", false),
    ("a,b,c,d", "a,b,c", true),
    ("a,b,c", "a,x,y,z", false),
    ("a,b,c", "a,b,x,y", true),
    (FULL, "n01..n32", false),
    (FULL, "n32..n64", true),
];

#[test]
fn a_quorum_is_more_than_half(rt: HostRuntime) {
    for (config, votes, wanted) in QUORUMS {
        assert!(rt; is_quorum(config, votes) == *wanted);
    }
    let config = VotingConfig::of(&set("a,b"));
    assert!(rt; config.is_same(&VotingConfig::of(config.members())) && !config.is_empty());
}

fn admit_each(roster: &mut Roster, ids: &NodeSet) {
    for id in ids.as_slice() {
        // A row that lists too many ids fails by what it wants of the roster.
        let _ = roster.admit(*id);
    }
}

// A roster of the ids of these sets, in the order of their first sight.
fn roster(sets: &[&str]) -> Roster {
    let mut roster = Roster::new();
    for ids in sets {
        admit_each(&mut roster, &set(ids));
    }
    roster
}

// Sets of ids as they are admitted, a set, its word over their roster, and the set that this word is.
const MASKS: &[(&[&str], &str, u64, &str)] = &[
    (&[], "a", 0, "_"),
    (&["b", "a"], "_", 0, "_"),
    (&["b", "a"], "b", 1, "b"),
    (&["b", "a"], "a", 2, "a"),
    (&["b", "a"], "a,b,c", 3, "a,b"),
    (&["b", "a", "b", "c"], "a,c", 6, "a,c"),
    (&[FULL], "n33", 1 << 32, "n33"),
    (&[FULL], "n64", 1 << 63, "n64"),
    (&[FULL], "n01,n64,n65", 1 << 63 | 1, "n01,n64"),
    (&["n64", "n01..n63"], "n63", 1 << 63, "n63"),
    (&[FULL], FULL, u64::MAX, FULL),
];

fn is_mask(sets: &[&str], text: &str, wanted: u64, back: &str) -> bool {
    let roster = roster(sets);
    let word = roster.mask(&set(text));
    word == wanted && is(&roster.marked(word), back)
}

#[test]
fn a_set_is_a_word_over_a_roster(rt: HostRuntime) {
    for (ids, text, wanted, back) in MASKS {
        assert!(rt; is_mask(ids, text, *wanted, back));
    }
}

// The places of ids on the roster b, a, and what it answers when they are admitted.
const PLACES: &[(&str, Option<u8>, u8)] = &[("b", Some(0), 0), ("a", Some(1), 1), ("c", None, 2)];

fn is_place(text: &str, known: Option<u8>, admitted: u8) -> bool {
    let mut roster = roster(&["b", "a"]);
    roster.place(id(text)) == known && roster.admit(id(text)) == Ok(admitted)
}

#[test]
fn an_id_keeps_its_place(rt: HostRuntime) {
    for (text, known, admitted) in PLACES {
        assert!(rt; is_place(text, *known, *admitted));
    }
}

#[test]
fn a_full_roster_has_room_for_its_own_ids_alone(rt: HostRuntime) {
    let mut roster = Roster::of(&set(FULL));
    assert!(rt; roster.admit(id("n65")) == Err(Full) && roster.len() == MAX_IDS);
    assert!(rt; roster.admit(id("n64")) == Ok(63) && !roster.has_mark(1, id("n65")));
    assert!(rt; roster.has_mark(1 << 63, id("n64")) && !roster.has_mark(1 << 62, id("n64")));
}

// Votes and a configuration as words, the configuration's size, and whether they are a quorum of it.
const QUORUMS_OF_WORDS: &[(u64, u64, usize, bool)] = &[
    (1, 3, 3, false),
    (3, 3, 3, true),
    (7, 3, 4, false),
    (0, 0, 0, false),
    // Of 64 voters the last 33, and the last 32.
    (u64::MAX << 31, u64::MAX, 64, true),
    (u64::MAX << 32, u64::MAX, 64, false),
];

#[test]
fn words_tell_a_quorum(rt: HostRuntime) {
    for (votes, config, size, wanted) in QUORUMS_OF_WORDS {
        assert!(rt; quorum_mask(*votes, *config, *size) == *wanted);
    }
    assert!(rt; with_bit(5, 1) == 7 && without_bit(7, 1) == 5);
    assert!(rt; with_bit(1, 63) == 1 << 63 | 1 && without_bit(u64::MAX, 63) == u64::MAX >> 1);
}

// What is done to a tally.
#[derive(Clone, Copy)]
enum Change {
    Add(&'static str),
    Remove(&'static str),
}

// Whether there was room for it.
fn apply(tally: &mut Tally, change: Change) -> bool {
    match change {
        Change::Add(text) => return add(tally, id(text)),
        Change::Remove(text) => tally.remove(id(text)),
    }
    true
}

fn add(tally: &mut Tally, id: NodeId) -> bool {
    if tally.contains(id) || tally.len() < MAX_IDS {
        tally.add(id);
        return true;
    }
    false
}

// A set that is counted, what is done then, the set after it, and its word over the roster. An id that is taken out keeps its place; where 64
// have places and one more is counted, those that are counted have new ones, as they ascend.
const TALLIES: &[(&str, &[Change], &str, u64)] = &[
    ("_", &[], "_", 0),
    ("a,b", &[], "a,b", 3),
    ("a", &[Change::Remove("b")], "a", 1),
    (
        "_",
        &[Change::Add("b"), Change::Add("a"), Change::Add("b")],
        "a,b",
        3,
    ),
    (
        "_",
        &[Change::Add("b"), Change::Remove("b"), Change::Add("a")],
        "a",
        2,
    ),
    ("a,b", &[Change::Remove("a"), Change::Add("a")], "a,b", 3),
    (
        "n01..n63",
        &[
            Change::Add("n64"),
            Change::Remove("n01"),
            Change::Add("n00"),
            Change::Remove("n64"),
            Change::Remove("n00"),
        ],
        "n02..n63",
        0x7fff_ffff_ffff_fffe,
    ),
];

fn is_tally(before: &str, changes: &[Change], after: &str, word: u64) -> bool {
    let mut tally = Tally::of(&set(before));
    let mut has_room = true;
    for change in changes {
        has_room = apply(&mut tally, *change) && has_room;
    }
    has_room && is(&tally.sources(), after) && tally.marks().1 == word
}

#[test]
fn a_tally_is_a_word_over_its_roster(rt: HostRuntime) {
    for (at, (before, changes, after, word)) in TALLIES.iter().enumerate() {
        assert!(rt; is_tally(before, changes, after, *word), "row {at}");
    }
    assert!(rt; Tally::new().len() == 0 && Tally::new().marks().0.len() == 0);
}
