//! Sources, sinks and a link in memory. What is expected is what was put in, in its order.
ghost use Rattle.std.specs.Prelude.{IfOk, IsTrue};
ghost use Rattle.std.specs.List.{list_all};
ghost use Rattle.zen_link.specs.Told.{has_low_conn};

use bytes::Bytes;
use std::alloc::{AllocError, Global};
use std::test::Fail;
use zen_link::{
    Input, InputError, Link, LinkError, MemLink, MemSink, MemSource, Source, Traffic, read_input,
    write_all,
};

// An input of three bytes, of which these reads fail.
fn abc(alloc: Global, fails: &[u64]) -> Result<MemSource, AllocError> {
    let bytes = Vec::from_slice(alloc, b"abc")?;
    Ok(MemSource::new(bytes, Vec::from_slice(alloc, fails)?))
}

// What two bytes of room are given, one read after the other, where it does not fail.
const GIVEN: &[Option<&[u8]>] = &[Some(b"ab"), None, Some(b"c"), Some(b"")];

fn gives(source: &mut MemSource, wanted: Option<&[u8]>) -> bool {
    let mut buffer = [0; 2];
    match source.read(&mut buffer) {
        Ok(count) => buffer.get(..count) == wanted,
        Err(_) => wanted.is_none(),
    }
}

// Whether each of them is given by a source whose second read fails.
fn are_given(alloc: Global) -> Result<bool, AllocError> {
    let mut source = abc(alloc, &[2])?;
    let mut are_given = true;
    for wanted in GIVEN {
        are_given = are_given && gives(&mut source, *wanted);
    }
    Ok(are_given)
}

#[test]
fn a_source_gives_its_bytes_and_fails_where_it_is_told(rt: HostRuntime) -> Result<(), Fail> {
    assert!(rt; are_given(rt.alloc())?);
    Ok(())
}

// The reads that fail, how many bytes may be read, and those that are, or None where the input is not read.
type Read = (&'static [u64], usize, Option<&'static [u8]>);

const READ: &[Read] = &[
    (&[], 4, Some(b"abc")),
    (&[], 2, Some(b"ab")),
    (&[], 0, Some(b"")),
    (&[2], 4, None),
];

fn is_read(alloc: Global, row: &Read) -> Result<bool, AllocError> {
    let (fails, most, wanted) = *row;
    let mut source = abc(alloc, fails)?;
    match read_input(alloc, &mut source, most) {
        Ok(bytes) => Ok(wanted == Some(bytes.as_slice())),
        Err(error) => Ok(wanted.is_none() && error == InputError::Read),
    }
}

#[test]
fn an_input_is_read_to_its_end_or_as_far_as_it_may_be(rt: HostRuntime) -> Result<(), Fail> {
    for row in READ {
        assert!(rt; is_read(rt.alloc(), row)?);
    }
    Ok(())
}

#[test]
fn a_sink_takes_all_bytes_piece_by_piece(rt: HostRuntime) -> Result<(), Fail> {
    let alloc = rt.alloc();
    let mut sink = MemSink::new(alloc, 2, vec![in alloc; 4u64]?);
    assert!(rt; write_all(&mut sink, b"abcde").is_ok());
    assert!(rt; write_all(&mut sink, b"f").is_err());
    assert!(rt; write_all(&mut sink, b"g").is_ok());
    assert!(rt; sink.as_bytes() == b"abcdeg".as_slice());
    Ok(())
}

// Bytes of a connection, and its end.
fn script(alloc: Global) -> Result<Vec<Input>, AllocError>
    ensures { IfOk result (λ inputs. IsTrue (list_all has_low_conn inputs.items)) }
{
    let bytes = Bytes::from_static(b"x\n");
    Ok(vec![in alloc; Input::Bytes { conn: 3, bytes }, Input::Closed { conn: 3 }]?)
}

// A letter for what a link gives.
fn input_letter(input: &Input) -> u8 {
    match input {
        Input::Bytes { .. } => b'b',
        Input::Closed { .. } => b'c',
        Input::Tick { .. } => b't',
        Input::Disconnected { .. } => b'd',
        Input::Stop => b's',
    }
}

// A letter for what went over a link.
fn letter(traffic: &Traffic<u8>) -> u8 {
    match traffic {
        Traffic::Took(input) => input_letter(input),
        Traffic::Gave(value) => *value,
        Traffic::Dropped(_) => b'd',
    }
}

fn are_letters(traffic: &[Traffic<u8>], wanted: &[u8]) -> bool {
    let mut left = wanted.iter();
    for traffic in traffic {
        if left.next() != Some(&letter(traffic)) {
            return false;
        }
    }
    left.next().is_none()
}

// What is done with a link.
#[derive(Clone, Copy)]
enum Act {
    // It is asked for an input, and gives that of this letter, or fails where that is `!`.
    Asks(u8),
    Sends(u8),
    DropsConn(u64),
}

fn gives_letter(link: &mut MemLink<u8>, wanted: u8) -> bool {
    match link.next() {
        Ok(input) => input_letter(&input) == wanted,
        Err(error) => error == LinkError::Failed && wanted == b'!',
    }
}

fn does(link: &mut MemLink<u8>, act: Act) -> bool {
    match act {
        Act::Asks(wanted) => return gives_letter(link, wanted),
        Act::Sends(value) => link.send(value),
        Act::DropsConn(number) => link.drop_conn(number),
    }
    true
}

// A test's name, what is done with a link whose second call fails, the letters of what went over it, and how often it was asked.
const LINKS: &[(&str, &[Act], &[u8], u64)] = &[
    (
        "a_link_in_memory_tells_what_went_over_it",
        &[
            Act::Asks(b'b'),
            Act::Asks(b'!'),
            Act::Sends(b'7'),
            Act::DropsConn(3),
            Act::Asks(b'c'),
            Act::Asks(b's'),
        ],
        b"b7dcs",
        4,
    ),
    (
        "a_link_in_memory_gives_its_script_and_fails_where_it_is_told",
        &[Act::Asks(b'b'), Act::Asks(b'!'), Act::Asks(b'c')],
        b"bc",
        3,
    ),
];

// Whether a link does these, tells this, and was asked so often.
fn is_used(alloc: Global, acts: &[Act], told: &[u8], asks: u64) -> Result<bool, AllocError> {
    let mut link = MemLink::new(alloc, script(alloc)?, vec![in alloc; 2u64]?);
    let mut are_so = true;
    for act in acts {
        are_so = are_so && does(&mut link, *act);
    }
    let is_told = are_letters(link.traffic().unwrap_or(&[]), told);
    Ok(are_so && is_told && link.fault_count() == 1 && link.ask_count() == asks)
}

#[test]
fn a_link_in_memory_is_used(rt: HostRuntime) -> Result<(), Fail> {
    for (name, acts, told, asks) in LINKS {
        assert!(rt; is_used(rt.alloc(), acts, told, *asks)?, "{name}");
    }
    Ok(())
}
