//! States with their bytes and their JSON, and which settings and values a state may have. Bytes and JSON are those of
//! docs/formats.md.
ghost use Rattle.cluster_state.specs.States.{IsFit};

use crate::names::{config, list, set};
use cluster_state::StateFault::{Field, Trailing};
use cluster_state::{
    Ask, ClusterState, ClusterValue, DecodeError, FieldError, Kept, Settings, SharedConfig,
    SharedState, SharedValue, StateFault, StateId, StateView, Text, check_state, decode_state,
    encode_state, to_json,
};
use std::alloc::{AllocError, Global};

// The state 1/1 of the parent 0/0, with two equal configurations and one setting.
const STATE: &[u8] = &[
    0, 0, 0, 0, 0, 0, 0, 1, 0, 0, 0, 0, 0, 0, 0, 1, 1, 0, 0, 0, 0, 0, 0, 0, 0, 0, 0, 0, 0, 0, 0, 0,
    0, 3, 1, 97, 1, 98, 1, 99, 3, 1, 97, 1, 98, 1, 99, 0, 0, 0, 0, 1, 0, 1, 118, 0, 1, 120,
];

const JSON: &str =
    "{\"committed\":[\"a\",\"b\",\"c\"],\"config\":[\"a\",\"b\",\"c\"],\"parent\":{\"term\":0,\"version\":0},\"term\":1,\"value\":{\"exclusions\":[],\"master\":null,\"members\":[],\"settings\":{\"v\":\"x\"}},\"version\":1}";

const EMPTY_STATE: &[u8] = &[0; 24];

const EMPTY_JSON: &str =
    "{\"committed\":[],\"config\":[],\"parent\":null,\"term\":0,\"value\":{\"exclusions\":[],\"master\":null,\"members\":[],\"settings\":{}},\"version\":0}";

// Of term 2 and version 3, of a parent of an older term and a greater version, with two configurations, a master, a member and
// an exclusion.
const FULL_STATE: &[u8] = &[
    0, 0, 0, 0, 0, 0, 0, 2, 0, 0, 0, 0, 0, 0, 0, 3, 1, 0, 0, 0, 0, 0, 0, 0, 1, 0, 0, 0, 0, 0, 0, 0,
    4, 1, 1, 97, 1, 1, 98, 1, 1, 97, 1, 1, 99, 1, 1, 100, 0, 0,
];

const FULL_JSON: &str =
    "{\"committed\":[\"b\"],\"config\":[\"a\"],\"parent\":{\"term\":1,\"version\":4},\"term\":2,\"value\":{\"exclusions\":[\"d\"],\"master\":\"a\",\"members\":[\"c\"],\"settings\":{}},\"version\":3}";

// Whether the bytes of the state lie beside it, and are these.
fn has_bytes(state: &SharedState, bytes: &[u8]) -> bool {
    match state.view() {
        None => false,
        Some(view) => view.bytes() == bytes && state.is_fit(),
    }
}

// Whether a state of this id is made of what is seen, beside which the same bytes lie.
fn is_made(alloc: Global, view: &StateView, id: StateId) -> bool {
    match view.decode(alloc) {
        Ok(made) => made.id() == id && has_bytes(&made, view.bytes()),
        Err(_) => false,
    }
}

// Whether the bytes are found to be those of a state of this id, and one of this id is made of them, beside which they lie.
fn is_seen(alloc: Global, bytes: &[u8], id: StateId) -> bool {
    match StateView::of(bytes) {
        Ok(view) => {
            check_state(bytes) == Ok(id) && view.bytes() == bytes && is_made(alloc, &view, id)
        }
        Err(_) => false,
    }
}

fn has_json(state: &SharedState, json: &str) -> bool {
    match state.json() {
        None => false,
        Some(text) => text == json.as_bytes(),
    }
}

fn is_written(alloc: Global, state: &ClusterState, json: &str) -> bool {
    match to_json(alloc, state) {
        Ok(text) => text.as_slice() == json.as_bytes(),
        Err(_) => false,
    }
}

fn is_encoded(alloc: Global, state: &ClusterState, bytes: &[u8]) -> bool
    requires { IsFit state.now }
{
    match encode_state(alloc, state) {
        Ok(again) => again.as_slice() == bytes,
        Err(_) => false,
    }
}

fn is_spelled(alloc: Global, state: ClusterState, bytes: &[u8], json: &str) -> bool {
    match SharedState::spell(alloc, state) {
        Ok(spelled) => has_bytes(&spelled, bytes) && has_json(&spelled, json),
        Err(_) => false,
    }
}

fn is_copied(alloc: Global, state: &ClusterState, bytes: &[u8], json: &str) -> bool
    requires { IsFit state.now }
{
    match state.copy() {
        Ok(copy) => is_encoded(alloc, &copy, bytes) && is_spelled(alloc, copy, bytes, json),
        Err(_) => false,
    }
}

// Whether the bytes are those of a state, which has this JSON and whose copy has these bytes; both lie beside it where it is spelled.
fn is_state(alloc: Global, bytes: &[u8], json: &str) -> bool {
    match decode_state(alloc, bytes) {
        Ok(state) => {
            is_written(alloc, &state, json)
                && is_seen(alloc, bytes, state.id())
                && is_copied(alloc, &state, bytes, json)
        }
        Err(_) => false,
    }
}

const STATES: &[(&[u8], &str)] = &[
    (STATE, JSON),
    (EMPTY_STATE, EMPTY_JSON),
    (FULL_STATE, FULL_JSON),
];

#[test]
fn a_state_has_these_bytes_and_this_json(rt: HostRuntime) {
    for (bytes, json) in STATES {
        assert!(rt; is_state(rt.alloc(), bytes, json));
    }
}

// The fault that stands first, where a state is made of the bytes and where they are only looked at.
fn fault_of(alloc: Global, bytes: &[u8]) -> Option<StateFault> {
    match decode_state(alloc, bytes) {
        Err(DecodeError::Fault(fault)) if check_state(bytes) == Err(fault) => Some(fault),
        _ => None,
    }
}

// STATE with its first ids as b, a, c.
const UNORDERED: &[u8] = &[
    0, 0, 0, 0, 0, 0, 0, 1, 0, 0, 0, 0, 0, 0, 0, 1, 1, 0, 0, 0, 0, 0, 0, 0, 0, 0, 0, 0, 0, 0, 0, 0,
    0, 3, 1, 98, 1, 97, 1, 99, 3, 1, 97, 1, 98, 1, 99, 0, 0, 0, 0, 1, 0, 1, 118, 0, 1, 120,
];

// STATE and a byte after it.
const LONGER: &[u8] = &[
    0, 0, 0, 0, 0, 0, 0, 1, 0, 0, 0, 0, 0, 0, 0, 1, 1, 0, 0, 0, 0, 0, 0, 0, 0, 0, 0, 0, 0, 0, 0, 0,
    0, 3, 1, 97, 1, 98, 1, 99, 3, 1, 97, 1, 98, 1, 99, 0, 0, 0, 0, 1, 0, 1, 118, 0, 1, 120, 0,
];

const TERM_OF_2_TO_62: &[u8] = &[64, 0, 0, 0, 0, 0, 0, 0];

const TERM_OVER_2_TO_62: &[u8] = &[64, 0, 0, 0, 0, 0, 0, 1];

const VERSION_OVER_2_TO_62: &[u8] = &[0, 0, 0, 0, 0, 0, 0, 0, 64, 0, 0, 0, 0, 0, 0, 1];

const ELEVEN_EXCLUSIONS: &[u8] = &[
    0, 0, 0, 0, 0, 0, 0, 0, 0, 0, 0, 0, 0, 0, 0, 0, 0, 0, 0, 0, 0, 11,
];

// The empty state up to its configuration, and up to its settings: as many as there may be, of which none is there, and one more.
const IDS_64: &[u8] = &[0, 0, 0, 0, 0, 0, 0, 0, 0, 0, 0, 0, 0, 0, 0, 0, 0, 64];

const IDS_65: &[u8] = &[0, 0, 0, 0, 0, 0, 0, 0, 0, 0, 0, 0, 0, 0, 0, 0, 0, 65];

const SETTINGS_4096: &[u8] = &[
    0, 0, 0, 0, 0, 0, 0, 0, 0, 0, 0, 0, 0, 0, 0, 0, 0, 0, 0, 0, 0, 0, 16, 0,
];

const SETTINGS_4097: &[u8] = &[
    0, 0, 0, 0, 0, 0, 0, 0, 0, 0, 0, 0, 0, 0, 0, 0, 0, 0, 0, 0, 0, 0, 16, 1,
];

const FLAG_OF_TWO: &[u8] = &[0, 0, 0, 0, 0, 0, 0, 0, 0, 0, 0, 0, 0, 0, 0, 0, 2];

const PARENT_OF_A_TERM_OVER_2_TO_62: &[u8] = &[
    0, 0, 0, 0, 0, 0, 0, 0, 0, 0, 0, 0, 0, 0, 0, 0, 1, 64, 0, 0, 0, 0, 0, 0, 1,
];

// Of the term 1, so the parent is above the state too.
const PARENT_OF_A_VERSION_OVER_2_TO_62: &[u8] = &[
    0, 0, 0, 0, 0, 0, 0, 0, 0, 0, 0, 0, 0, 0, 0, 0, 1, 0, 0, 0, 0, 0, 0, 0, 1, 64, 0, 0, 0, 0, 0,
    0, 1,
];

// The empty state with itself as the parent.
const ITS_OWN_PARENT: &[u8] = &[
    0, 0, 0, 0, 0, 0, 0, 0, 0, 0, 0, 0, 0, 0, 0, 0, 1, 0, 0, 0, 0, 0, 0, 0, 0, 0, 0, 0, 0, 0, 0, 0,
    0, 0, 0, 0, 0, 0, 0, 0,
];

// The state 1/2 of the parent 2/1, with the ids b, a.
const FRESHER_PARENT: &[u8] = &[
    0, 0, 0, 0, 0, 0, 0, 1, 0, 0, 0, 0, 0, 0, 0, 2, 1, 0, 0, 0, 0, 0, 0, 0, 2, 0, 0, 0, 0, 0, 0, 0,
    1, 2, 1, 98, 1, 97,
];

// The empty state up to its configuration, which has one id, of the letter A.
const UPPER_CASE: &[u8] = &[0, 0, 0, 0, 0, 0, 0, 0, 0, 0, 0, 0, 0, 0, 0, 0, 0, 1, 1, 65];

// The empty state up to its settings, of which the first has a key of the byte 255.
const KEY_NOT_UTF_8: &[u8] = &[
    0, 0, 0, 0, 0, 0, 0, 0, 0, 0, 0, 0, 0, 0, 0, 0, 0, 0, 0, 0, 0, 0, 0, 1, 0, 1, 255,
];

const FAULTS: &[(&[u8], StateFault)] = &[
    (UPPER_CASE, Field(FieldError::BadId)),
    (KEY_NOT_UTF_8, Field(FieldError::BadText)),
    (&[0; 25], Trailing),
    (LONGER, Trailing),
    (UNORDERED, Field(FieldError::NotOrdered)),
    (TERM_OF_2_TO_62, Field(FieldError::Short)),
    (TERM_OVER_2_TO_62, Field(FieldError::TermTooLarge)),
    (VERSION_OVER_2_TO_62, Field(FieldError::VersionTooLarge)),
    (ELEVEN_EXCLUSIONS, Field(FieldError::TooMany)),
    (IDS_64, Field(FieldError::Short)),
    (IDS_65, Field(FieldError::TooMany)),
    (SETTINGS_4096, Field(FieldError::Short)),
    (SETTINGS_4097, Field(FieldError::TooMany)),
    (FLAG_OF_TWO, Field(FieldError::BadFlag)),
    (
        PARENT_OF_A_TERM_OVER_2_TO_62,
        Field(FieldError::TermTooLarge),
    ),
    (
        PARENT_OF_A_VERSION_OVER_2_TO_62,
        Field(FieldError::VersionTooLarge),
    ),
    (ITS_OWN_PARENT, Field(FieldError::BadParent)),
    (FRESHER_PARENT, Field(FieldError::BadParent)),
];

#[test]
fn the_first_fault_of_a_state_is_named(rt: HostRuntime) {
    for (bytes, fault) in FAULTS {
        assert!(rt; fault_of(rt.alloc(), bytes) == Some(*fault));
    }
    assert!(rt; FieldError::NotOrdered.name() == "NotOrdered");
    assert!(rt; FieldError::BadParent.name() == "BadParent");
}

// A state that ends before its flag, within its parent, and within its last setting.
const CUTS: &[usize] = &[16, 32, 57];

fn is_short(alloc: Global, length: usize) -> bool {
    match STATE.get(..length) {
        Some(bytes) => fault_of(alloc, bytes) == Some(Field(FieldError::Short)),
        None => false,
    }
}

#[test]
fn a_state_that_is_cut_is_short(rt: HostRuntime) {
    for length in CUTS {
        assert!(rt; is_short(rt.alloc(), *length));
    }
}

// Another id's term and version, whether the state 2/2 is fresher than it, and whether it is the same.
type Order = (u64, u64, bool, bool);

fn is_ordered(row: &Order) -> bool {
    let (term, version, is_fresher, is_same) = *row;
    let one = StateId {
        term: 2,
        version: 2,
    };
    let other = StateId { term, version };
    one.is_fresher(other) == is_fresher
        && one.is_reached_by(other) != is_fresher
        && one.is_same(other) == is_same
        && one.is_above_parent(Some(other)) == is_fresher
        && one.is_above_parent(None)
}

const ORDERED: &[Order] = &[
    (2, 2, false, true),
    (2, 1, true, false),
    (2, 3, false, false),
    (1, 3, true, false),
    (3, 1, false, false),
];

#[test]
fn ids_of_states_are_ordered_by_term_and_then_by_version(rt: HostRuntime) {
    for row in ORDERED {
        assert!(rt; is_ordered(row));
    }
}

// The settings a and b.
fn two_settings(alloc: Global) -> Result<Settings, AllocError> {
    let mut settings = Settings::new(alloc);
    settings.put("a", "x")?;
    settings.put("b", "y")?;
    Ok(settings)
}

// Whether these are the same settings once this key is removed; and how many there are then, b still among them.
fn is_left(settings: &mut Settings, key: &str, same: bool, count: usize) -> bool {
    let Ok(copy) = settings.copy() else {
        return false;
    };
    settings.remove(key);
    settings.is_same(&copy) == same && settings.len() == count && settings.contains_key("b")
}

fn are_left(alloc: Global, key: &str, same: bool, count: usize) -> bool {
    match two_settings(alloc) {
        Ok(mut settings) => is_left(&mut settings, key, same, count),
        Err(_) => false,
    }
}

// A key that is removed, whether nothing changes, and how many settings there are then.
const REMOVED: &[(&str, bool, usize)] = &[("c", true, 2), ("a", false, 1)];

#[test]
fn removing_an_absent_setting_changes_nothing(rt: HostRuntime) {
    for (key, same, count) in REMOVED {
        assert!(rt; are_left(rt.alloc(), key, *same, *count));
    }
}

// Whether this value is the same as the empty one until it has a setting.
fn differs_by_a_setting(empty: &ClusterValue, value: ClusterValue) -> bool {
    let mut value = value;
    let was_same = empty.is_same(&value);
    let is_put = value.settings.put("a", "x").is_ok();
    was_same && is_put && !empty.is_same(&value)
}

fn is_the_same_until_a_setting_differs(empty: &ClusterValue) -> bool {
    match empty.copy() {
        Ok(copy) => differs_by_a_setting(empty, copy),
        Err(_) => false,
    }
}

#[test]
fn values_are_the_same_until_a_setting_differs(rt: HostRuntime) {
    assert!(rt; is_the_same_until_a_setting_differs(&ClusterValue::empty(rt.alloc())));
}

// A text of so many bytes.
fn blanks(alloc: Global, length: usize) -> Result<Text, AllocError> {
    let mut text = String::new(alloc);
    for _ in 0..length {
        text.push_str(" ")?;
    }
    Ok(Text::of(text))
}

fn put(alloc: Global, key: usize, value: usize) -> Result<Ask, AllocError> {
    let key = blanks(alloc, key)?;
    let value = blanks(alloc, value)?;
    Ok(Ask::Put { key, value })
}

fn is_bad_put(alloc: Global, key: usize, value: usize, want: Option<usize>) -> bool {
    match put(alloc, key, value) {
        Ok(ask) => ask.bad_setting() == want,
        Err(_) => false,
    }
}

fn bad_remove(alloc: Global, key: usize) -> Result<Option<usize>, AllocError> {
    let ask = Ask::Remove {
        key: blanks(alloc, key)?,
    };
    Ok(ask.bad_setting())
}

const SIZES: &[(usize, usize, Option<usize>)] = &[
    (0, 0, Some(0)),
    (1, 0, None),
    (128, 1_024, None),
    (129, 0, Some(129)),
    (128, 1_025, Some(1_025)),
    (129, 1_025, Some(129)),
    (0, 1_025, Some(0)),
];

#[test]
fn keys_have_1_to_128_bytes_and_values_up_to_1024(rt: HostRuntime) {
    for (key, value, want) in SIZES {
        assert!(rt;
            is_bad_put(rt.alloc(), *key, *value, *want),
            "of {key} and {value}"
        );
    }
    assert!(rt; bad_remove(rt.alloc(), 129) == Ok(None));
}

// The state 0/0 with one configuration, and another as the committed one.
fn reconfigured(alloc: Global, now: &str, committed: &str) -> Result<ClusterState, AllocError> {
    Ok(ClusterState {
        term: 0,
        version: 0,
        parent: None,
        config: list(alloc, now)?,
        committed: list(alloc, committed)?,
        value: ClusterValue::empty(alloc),
    })
}

fn has(kept: &Kept, accepted: &str, committed: &str) -> bool {
    config(accepted).is_same_list(&kept.accepted.config)
        && kept.committed.is_same(&config(committed))
}

// Whether the state's configuration and value, held where the state is, are the state's.
fn is_shared(state: &SharedState) -> Result<bool, AllocError> {
    let config = SharedConfig::of(state.share()?);
    let value = SharedValue::of(state.share()?);
    Ok(config.is_same(&state.config) && value.is_same(&state.value))
}

// Whether a record that accepts this state has its configurations, and the later one once it is committed.
fn accepts_and_commits(kept: Kept, state: SharedState) -> bool {
    let mut kept = kept;
    kept.accept(state);
    let is_accepted = has(&kept, "b", "a");
    kept.commit();
    is_accepted && has(&kept, "b", "b") && config("a").is_same_list(&kept.accepted.committed)
}

fn is_accepted_and_committed(alloc: Global, state: SharedState) -> bool {
    match Kept::empty(alloc) {
        Ok(kept) => accepts_and_commits(kept, state),
        Err(_) => false,
    }
}

// Whether the state is shared, and then accepted and committed.
fn is_kept(alloc: Global, state: ClusterState) -> bool {
    match SharedState::new(alloc, state) {
        Ok(state) => is_shared(&state) == Ok(true) && is_accepted_and_committed(alloc, state),
        Err(_) => false,
    }
}

// Whether the initial state of this term has its bytes beside it once it is spelled and is within the limits, or neither.
fn is_spelled_and_fit(alloc: Global, term: u64, want: bool) -> bool {
    let Ok(mut state) = ClusterState::initial(alloc, &set("a")) else {
        return false;
    };
    state.term = term;
    match SharedState::spell(alloc, state) {
        Ok(spelled) => spelled.view().is_some() == want && spelled.is_fit() == want,
        Err(_) => false,
    }
}

#[test]
fn a_state_within_the_limits_is_spelled(rt: HostRuntime) {
    assert!(rt; is_spelled_and_fit(rt.alloc(), 1 << 62, true));
    assert!(rt; is_spelled_and_fit(rt.alloc(), (1 << 62) + 1, false));
}

fn is_reconfigured(alloc: Global) -> bool {
    match reconfigured(alloc, "b", "a") {
        Ok(state) => is_kept(alloc, state),
        Err(_) => false,
    }
}

#[test]
fn a_record_accepts_a_state_and_commits_its_configuration(rt: HostRuntime) {
    assert!(rt; is_reconfigured(rt.alloc()) && !config("a").is_same(&config("b")));
}
