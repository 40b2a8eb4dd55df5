//! Requests, faults and replies with their texts, in the forms of docs/formats.md.
use crate::names::{id, numbered, set};
use client_lines::*;
use cluster_state::{ClusterState, SharedState, StateId};
use std::alloc::{AllocError, Global};
use std::test::*;
use voting_config::IdList;

const TOO_LONG: &str = "the line has more than 8192 bytes";

const NOT_JSON: &str = "the line is no JSON value";

const BAD_SHAPE: &str = "the JSON value is no request";

// What a line is read as, in words.
fn written(alloc: Global, line: &[u8]) -> Result<String, AllocError> {
    match read_line(alloc, line) {
        Ok(request) => written_request(alloc, &request),
        Err(error) => format!(in alloc; "{error}"),
    }
}

fn written_request(alloc: Global, Request { id, ask }: &Request) -> Result<String, AllocError> {
    match ask {
        Ask::Put { key, value } => {
            format!(in alloc; "{id} put {} {}", key.as_str(), value.as_str())
        }
        Ask::Remove { key } => format!(in alloc; "{id} remove {}", key.as_str()),
        Ask::Exclude(ids) => written_exclude(alloc, *id, ids),
        Ask::Clear { wait_for_removal } => format!(in alloc; "{id} clear {wait_for_removal}"),
        Ask::State => format!(in alloc; "{id} state"),
    }
}

fn written_exclude(alloc: Global, id: u64, excluded: &IdList) -> Result<String, AllocError> {
    let mut text = format!(in alloc; "{id} exclude")?;
    for id in excluded.as_slice() {
        push_word(&mut text, id.as_str())?;
    }
    Ok(text)
}

fn push_word(text: &mut String, word: &str) -> Result<(), AllocError> {
    text.push_str(" ")?;
    text.push_str(word)
}

fn is_read_as(alloc: Global, line: &[u8], want: &str) -> bool {
    match written(alloc, line) {
        Ok(read) => read.as_str() == want,
        Err(_) => false,
    }
}

// Lines, with the requests that they are.
const REQUESTS: &[(&str, &str)] = &[
    (r#"{"id":1,"put":{"key":"k","value":"v"}}"#, "1 put k v"),
    (r#"{"put":{"value":"v","key":"k"},"id":1}"#, "1 put k v"),
    (r#"{"id":1,"put":{"key":"","value":""}}"#, "1 put  "),
    (r#"{"id":2,"remove":{"key":"\u006b\u00e9"}}"#, "2 remove ké"),
    (r#"{"\u0072emove":{"key":"k"},"id":2}"#, "2 remove k"),
    (
        r#"{"id":3,"exclude":["b","a","node-1"]}"#,
        "3 exclude a b node-1",
    ),
    (r#"{"exclude":["a"],"id":3}"#, "3 exclude a"),
    (r#"{"id":4,"clear":{}}"#, "4 clear true"),
    (
        r#"{"clear":{"wait_for_removal":true},"id":4}"#,
        "4 clear true",
    ),
    (
        r#"{"id":4,"clear":{"wait_for_removal":false}}"#,
        "4 clear false",
    ),
    (r#"{"id":0,"state":{}}"#, "0 state"),
    (
        r#"{"state":{},"id":4611686018427387904}"#,
        "4611686018427387904 state",
    ),
    ("\t \r{ \"id\" : 5 , \"state\" : { } }\r", "5 state"),
    (r#"{"id":1,"state":{},"id":6}"#, "6 state"),
    (
        r#"{"id":7,"put":1,"put":{"key":1,"value":"v","key":"k"}}"#,
        "7 put k v",
    ),
];

#[test]
fn each_request_is_read(rt: HostRuntime) {
    for (line, want) in REQUESTS {
        assert!(rt; is_read_as(rt.alloc(), line.as_bytes(), want), "of {line}");
    }
}

const NO_JSON: &[&str] = &[
    "",
    " ",
    "{",
    r#"{"id":1,"state":{}"#,
    r#"{"id":1,"state":{}} {}"#,
    r#"{"id":1,"state":{},}"#,
    r#"{"id":01,"state":{}}"#,
    r#"{"id":+1,"state":{}}"#,
    r#"{"id":1e999,"state":{}}"#,
    r#"{"id":1,"remove":{"key":"\ud800"}}"#,
    r#"{"id":1,"remove":{"key":"\udc00\ud800"}}"#,
    r#"{id:1,"state":{}}"#,
    "{'id':1,'state':{}}",
    "\u{feff}{\"id\":1,\"state\":{}}",
    "{\"id\":1,\"state\":{}}\u{a0}",
];

#[test]
fn a_line_that_is_no_json_is_refused(rt: HostRuntime) {
    for line in NO_JSON {
        assert!(rt;
            is_read_as(rt.alloc(), line.as_bytes(), NOT_JSON),
            "of {line}"
        );
    }
}

const NO_TEXT: &[u8] = b"{\"id\":1,\"remove\":{\"key\":\"\xff\"}}";

#[test]
fn so_is_one_that_is_no_text(rt: HostRuntime) {
    assert!(rt; is_read_as(rt.alloc(), NO_TEXT, NOT_JSON));
}

const NO_REQUESTS: &[&str] = &[
    "1",
    "null",
    "[]",
    "{}",
    r#""\ud83d\ude00""#,
    r#"{"id":1}"#,
    r#"{"state":{}}"#,
    r#"{"id":1,"other":{}}"#,
    r#"{"id":1,"State":{}}"#,
    r#"{"id":1,"state":{},"clear":{}}"#,
    r#"{"id":1,"state":{},"other":1}"#,
    r#"{"state":{},"clear":{}}"#,
    r#"{"id":1.0,"state":{}}"#,
    r#"{"id":1e0,"state":{}}"#,
    r#"{"id":-0,"state":{}}"#,
    r#"{"id":-1,"state":{}}"#,
    r#"{"id":4611686018427387905,"state":{}}"#,
    r#"{"id":18446744073709551615,"state":{}}"#,
    r#"{"id":18446744073709551616,"state":{}}"#,
    r#"{"id":"1","state":{}}"#,
    r#"{"id":null,"state":{}}"#,
    r#"{"id":1,"state":{"key":1}}"#,
    r#"{"id":1,"state":[]}"#,
    r#"{"id":1,"state":null}"#,
    r#"{"id":1,"put":{}}"#,
    r#"{"id":1,"put":{"key":"k"}}"#,
    r#"{"id":1,"put":{"key":"k","value":null}}"#,
    r#"{"id":1,"put":{"key":1,"value":"v"}}"#,
    r#"{"id":1,"put":{"key":"k","value":"v","other":1}}"#,
    r#"{"id":1,"put":{"key":"k","value":"v","value":1}}"#,
    r#"{"id":1,"put":["k","v"]}"#,
    r#"{"id":1,"remove":{}}"#,
    r#"{"id":1,"remove":{"key":null}}"#,
    r#"{"id":1,"remove":{"key":"k","value":"v"}}"#,
    r#"{"id":1,"remove":"k"}"#,
    r#"{"id":1,"exclude":[]}"#,
    r#"{"id":1,"exclude":{}}"#,
    r#"{"id":1,"exclude":"a"}"#,
    r#"{"id":1,"exclude":[1]}"#,
    r#"{"id":1,"exclude":[""]}"#,
    r#"{"id":1,"exclude":["A"]}"#,
    r#"{"id":1,"exclude":["a2345678901234567890123456789012x"]}"#,
    r#"{"id":1,"exclude":["a","b","a"]}"#,
    r#"{"id":1,"exclude":["a",null]}"#,
    r#"{"id":1,"clear":[]}"#,
    r#"{"id":1,"clear":true}"#,
    r#"{"id":1,"clear":{"wait":true}}"#,
    r#"{"id":1,"clear":{"wait_for_removal":null}}"#,
    r#"{"id":1,"clear":{"wait_for_removal":1}}"#,
    r#"{"id":1,"clear":{"wait_for_removal":true,"other":1}}"#,
];

#[test]
fn json_that_is_no_request_is_refused(rt: HostRuntime) {
    for line in NO_REQUESTS {
        assert!(rt;
            is_read_as(rt.alloc(), line.as_bytes(), BAD_SHAPE),
            "of {line}"
        );
    }
}

// A text, the ids from n01 up to the one of this number, each after another text, and a last text.
fn with_ids(
    alloc: Global,
    head: &str,
    before: &str,
    last: u8,
    tail: &str,
) -> Result<String, AllocError> {
    let mut text = String::from_str(alloc, head)?;
    for number in 1..=last {
        text.push_str(before)?;
        text.push_str(numbered(number).as_str())?;
    }
    text.push_str(tail)?;
    Ok(text)
}

// A line that excludes the node a and those from n01 up to the one of this number.
fn exclude(alloc: Global, last: u8) -> Result<String, AllocError> {
    with_ids(alloc, r#"{"id":1,"exclude":["a"#, r#"",""#, last, r#""]}"#)
}

fn is_exclude_read_as(alloc: Global, last: u8, want: &str) -> bool {
    match exclude(alloc, last) {
        Ok(line) => is_read_as(alloc, line.as_bytes(), want),
        Err(_) => false,
    }
}

fn is_exclude_taken(alloc: Global, last: u8) -> bool {
    match with_ids(alloc, "1 exclude a", " ", last, "") {
        Ok(want) => is_exclude_read_as(alloc, last, want.as_str()),
        Err(_) => false,
    }
}

#[test]
fn an_exclude_has_up_to_64_ids(rt: HostRuntime) {
    assert!(rt; is_exclude_taken(rt.alloc(), 63));
    assert!(rt; is_exclude_read_as(rt.alloc(), 64, BAD_SHAPE));
}

// So many arrays in one another.
fn nested(alloc: Global, depth: usize) -> Result<String, AllocError> {
    let mut line = String::new(alloc);
    for _ in 0..depth {
        line.push_str("[")?;
    }
    for _ in 0..depth {
        line.push_str("]")?;
    }
    Ok(line)
}

fn is_nested_so(alloc: Global, depth: usize, want: &str) -> bool {
    match nested(alloc, depth) {
        Ok(line) => is_read_as(alloc, line.as_bytes(), want),
        Err(_) => false,
    }
}

#[test]
fn json_nested_128_deep_is_refused(rt: HostRuntime) {
    assert!(rt; is_nested_so(rt.alloc(), 127, BAD_SHAPE));
    assert!(rt; is_nested_so(rt.alloc(), 128, NOT_JSON));
}

// A request for the state, with blanks up to a length.
fn padded(alloc: Global, length: usize) -> Result<Vec<u8>, AllocError> {
    let mut line = Vec::new(alloc);
    line.extend_from_slice(b"{\"id\":1,\"state\":{}}")?;
    for _ in 19..length {
        line.push(b' ')?;
    }
    Ok(line)
}

// The one line that a reader gives for these bytes and a line feed.
fn ended(alloc: Global, bytes: &[u8]) -> Option<Lines> {
    let mut reader = LineReader::new(alloc);
    if reader.feed(bytes).ok()?.as_slice().is_empty() {
        return reader.feed(b"\n").ok();
    }
    None
}

// What a reader gives for a padded line.
fn ended_lines(alloc: Global, length: usize) -> Option<Lines> {
    ended(alloc, &padded(alloc, length).ok()?)
}

fn is_first(alloc: Global, lines: &Lines, kept: usize, want: &str) -> bool {
    match lines.as_slice().first() {
        Some(line) => line.as_bytes().len() == kept && is_read_as(alloc, line.as_bytes(), want),
        None => false,
    }
}

// Whether a reader keeps so many bytes of a padded line, which are read so.
fn is_kept(alloc: Global, length: usize, kept: usize, want: &str) -> bool {
    match ended_lines(alloc, length) {
        Some(lines) => is_first(alloc, &lines, kept, want),
        None => false,
    }
}

// How long a line is, how much of it a reader keeps, and what it is read as.
const LENGTHS: &[(usize, usize, &str)] = &[
    (8_192, 8_192, "1 state"),
    (8_193, 8_193, TOO_LONG),
    (20_000, 8_193, TOO_LONG),
];

#[test]
fn of_a_longer_line_8193_bytes_are_kept(rt: HostRuntime) {
    for (length, kept, want) in LENGTHS {
        assert!(rt; is_kept(rt.alloc(), *length, *kept, want), "{length} bytes");
    }
}

fn is_padded_so(alloc: Global, length: usize, want: &str) -> bool {
    match padded(alloc, length) {
        Ok(line) => is_read_as(alloc, &line, want),
        Err(_) => false,
    }
}

#[test]
fn a_line_of_8193_bytes_is_too_long(rt: HostRuntime) {
    for (length, _, want) in LENGTHS {
        assert!(rt; is_padded_so(rt.alloc(), *length, want), "{length} bytes");
    }
}

// The lines that a reader gives, each with a semicolon after it.
fn given(alloc: Global, reader: &mut LineReader, bytes: &str) -> Result<Vec<u8>, AllocError> {
    let lines = reader.feed(bytes.as_bytes())?;
    joined(alloc, &lines)
}

fn gives(alloc: Global, reader: &mut LineReader, bytes: &str, want: &str) -> bool {
    match given(alloc, reader, bytes) {
        Ok(text) => text.as_slice() == want.as_bytes(),
        Err(_) => false,
    }
}

fn joined(alloc: Global, lines: &Lines) -> Result<Vec<u8>, AllocError> {
    let mut text = Vec::new(alloc);
    for line in lines.as_slice() {
        push_line(&mut text, line.as_bytes())?;
    }
    Ok(text)
}

fn push_line(text: &mut Vec<u8>, line: &[u8]) -> Result<(), AllocError> {
    text.extend_from_slice(line)?;
    text.push(b';')?;
    Ok(())
}

// Bytes that come one after the other, with the lines that they end.
const CUTS: &[(&str, &str)] = &[
    ("", ""),
    ("ab", ""),
    ("c\r\n\nd", "abc\r;;"),
    ("", ""),
    ("\n", "d;"),
    ("ef\ng\nh", "ef;g;"),
    ("\n\n", "h;;"),
];

#[test]
fn lines_are_the_same_however_the_bytes_are_cut(rt: HostRuntime) {
    let mut reader = LineReader::new(rt.alloc());
    for (bytes, want) in CUTS {
        assert!(rt; gives(rt.alloc(), &mut reader, bytes, want), "{want}");
    }
}

// A law is an empty function: its contract says it all, and the call shows that it can be called.
#[test]
fn the_laws_can_be_called() {
    law_cuts();
    law_kept();
}

fn has_its_bytes(alloc: Global, bytes: &[u8]) -> bool {
    match Vec::from_slice(alloc, bytes) {
        Ok(held) => Line::of(held).as_bytes() == bytes,
        Err(_) => false,
    }
}

#[test]
fn a_line_has_the_bytes_that_it_is_made_of(rt: HostRuntime) {
    assert!(rt; has_its_bytes(rt.alloc(), b"ab"));
}

fn copy_of(alloc: Global, line: &str) -> Option<Request> {
    let request = read_line(alloc, line.as_bytes()).ok()?;
    request.copy().ok()
}

fn written_copy(alloc: Global, line: &str) -> Option<String> {
    written_request(alloc, &copy_of(alloc, line)?).ok()
}

// Whether the copy of the request of a line is this one.
fn is_copied(alloc: Global, line: &str, want: &str) -> bool {
    match written_copy(alloc, line) {
        Some(text) => text.as_str() == want,
        None => false,
    }
}

const COPIED: &[(&str, &str)] = &[
    (r#"{"id":1,"put":{"key":"k","value":"v"}}"#, "1 put k v"),
    (r#"{"id":3,"exclude":["b","a"]}"#, "3 exclude a b"),
];

#[test]
fn a_copy_is_the_same_request(rt: HostRuntime) {
    for (line, want) in COPIED {
        assert!(rt; is_copied(rt.alloc(), line, want), "of {line}");
    }
}

fn is_written_as(alloc: Global, reply: Reply, want: &str) -> bool {
    match write_reply(alloc, &reply) {
        Ok(text) => text.as_slice() == want.as_bytes(),
        Err(_) => false,
    }
}

// The answers of the table, by their places.
fn answer(place: usize) -> Answer {
    match place {
        0 => Answer::Acked(StateId {
            term: 1,
            version: 2,
        }),
        1 => Answer::NotMaster(Some(id("a"))),
        2 => Answer::NotMaster(None),
        3 => Answer::BadSetting(129),
        4 => Answer::QueueFull(64),
        5 => Answer::TooManySettings(4_097),
        6 => Answer::TooManyExclusions(11),
        7 => Answer::StillMember(id("b")),
        8 => Answer::FailedToCommit(u64::MAX),
        _ => Answer::ExclusionTimeout(set("b,c")),
    }
}

const ANSWERS: &[&str] = &[
    r#"{"acked":{"term":1,"version":2},"id":65}"#,
    r#"{"id":65,"not_master":"a"}"#,
    r#"{"id":65,"not_master":null}"#,
    r#"{"bad_setting":129,"id":65}"#,
    r#"{"id":65,"queue_full":64}"#,
    r#"{"id":65,"too_many_settings":4097}"#,
    r#"{"id":65,"too_many_exclusions":11}"#,
    r#"{"id":65,"still_member":"b"}"#,
    r#"{"failed_to_commit":18446744073709551615,"id":65}"#,
    r#"{"exclusion_timeout":["b","c"],"id":65}"#,
];

fn is_answered_as(alloc: Global, answer: Answer, want: &str) -> bool {
    is_written_as(alloc, Reply::To { id: 65, answer }, want)
}

#[test]
fn each_answer_has_this_text(rt: HostRuntime) {
    for (place, want) in ANSWERS.iter().enumerate() {
        assert!(rt; is_answered_as(rt.alloc(), answer(place), want), "{want}");
    }
}

const STATE: &str =
    r#"{"id":0,"state":{"committed":["a","b"],"config":["a","b"],"parent":null,"term":0,"value":{"exclusions":[],"master":null,"members":[],"settings":{"k":"\n"}},"version":0}}"#;

fn state(alloc: Global) -> Result<SharedState, AllocError> {
    let mut state = ClusterState::initial(alloc, &set("a,b"))?;
    state.value.settings.put("k", "\n")?;
    SharedState::of(alloc, state)
}

#[test]
fn an_answered_state_has_this_text(rt: HostRuntime) -> Result<(), Fail> {
    let answer = Answer::State(state(rt.alloc())?);
    assert!(rt; is_written_as(rt.alloc(), Reply::To { id: 0, answer }, STATE));
    Ok(())
}

const FAULTS: &[(LineFault, &str)] = &[
    (LineFault::TooLong, r#"{"error":"too_long"}"#),
    (LineFault::NotJson, r#"{"error":"not_json"}"#),
    (LineFault::BadShape, r#"{"error":"bad_shape"}"#),
];

#[test]
fn each_fault_of_a_line_has_this_text(rt: HostRuntime) {
    for row in FAULTS {
        let (fault, want) = *row;
        assert!(rt;
            is_written_as(rt.alloc(), Reply::BadLine(fault), want),
            "{want}"
        );
    }
}
