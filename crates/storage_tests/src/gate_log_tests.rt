//! Journals byte by byte, and each device call of an append and of a renewal struck in turn. The bytes are those of
//! docs/formats.md.
use crate::files::{disk_of, is_written, reads};
use crate::strikes::orders;
use gate_log::{AppendError, Fault, GateLog, LogError, Opened, Why};
use std::alloc::{AllocError, Global};
use std::test::Fail;
use zen_disk::{Fuse, MemDisks, Order, Side, Struck};

type Log = GateLog<Fuse<MemDisks>>;

const BODY: &[u8] = &[1, 0, 0, 0, 0, 0, 0, 0, 1];

const FRAME: &[u8] = &[0, 0, 0, 9, 1, 0, 0, 0, 0, 0, 0, 0, 1, 0];

// The body that begins the first generation, and the second.
const FIRST: &[u8] = &[4, 0, 0, 0, 0, 0, 0, 0, 1];

const SECOND: &[u8] = &[4, 0, 0, 0, 0, 0, 0, 0, 2];

#[derive(Clone, Copy)]
enum Act {
    Append,
    AppendSmall,
    AppendFramed,
    AppendAbc,
    AppendDe,
    Renew,
    FailNext,
}

// Begins the next generation with a body of nine bytes.
fn renew(log: &mut Log) -> Result<(), AppendError> {
    let epoch = log.epoch();
    if epoch >= 1 << 62 {
        return Err(AppendError::TooLong);
    }
    let next = (epoch + 1).to_be_bytes();
    let frame = [
        0, 0, 0, 9, 4, next[0], next[1], next[2], next[3], next[4], next[5], next[6], next[7], 0,
    ];
    log.renew(&frame)
}

fn answer(log: &mut Log, act: Act) -> Result<(), AppendError> {
    match act {
        Act::Append => log.append(BODY),
        Act::AppendSmall => log.append_small(BODY),
        Act::AppendFramed => log.append_framed(FRAME),
        Act::AppendAbc => log.append(b"abc"),
        Act::AppendDe => log.append(b"de"),
        Act::Renew => renew(log),
        Act::FailNext => {
            log.arm(Order::Fault(1));
            Ok(())
        }
    }
}

// An act on a journal, its answer, and then the side in use, its epoch and its tail, and what has struck the disk.
type Row = (
    Act,
    Result<(), AppendError>,
    (Side, u64, u64),
    Option<Struck>,
);

// Whether the act is answered so, and the journal is stopped where the answer is a fault, and only there.
fn is_answered(log: &mut Log, row: &Row) -> bool {
    let (act, want, place, struck) = *row;
    answer(log, act) == want
        && log.stopped() == want.is_err()
        && (log.side(), log.epoch(), log.tail()) == place
        && log.disk().struck() == struck
}

fn empty_log(alloc: Global) -> Option<Log> {
    let disk = disk_of(alloc, b"", b"").ok()?;
    let opened = GateLog::open(alloc, Fuse::new(disk)).ok()?;
    Some(opened.log)
}

fn are_answered(log: &mut Log, rows: &[Row]) -> bool {
    for row in rows {
        if !is_answered(log, row) {
            return false;
        }
    }
    true
}

// Whether these acts on an empty journal are answered so, and a side has these bytes after them.
fn is_written_so(alloc: Global, rows: &[Row], side: Side, bytes: &[u8]) -> bool {
    let Some(mut log) = empty_log(alloc) else {
        return false;
    };
    let are_answered = are_answered(&mut log, rows);
    let mut disk = log.into_disk().into_disk();
    are_answered && reads(&mut disk, side, bytes)
}

const ONE_BODY: &[u8] = b"ZENJRNL1\x01\0\0\0\x09\x01\0\0\0\0\0\0\0\x01\0";

const APPEND: &[Row] = &[(Act::Append, Ok(()), (Side::Zero, 0, 14), None)];

const APPEND_SMALL: &[Row] = &[(Act::AppendSmall, Ok(()), (Side::Zero, 0, 14), None)];

const APPEND_FRAMED: &[Row] = &[(Act::AppendFramed, Ok(()), (Side::Zero, 0, 14), None)];

const TWO_BODIES: &[u8] = b"ZENJRNL1\x01\0\0\0\x09\x04\0\0\0\0\0\0\0\x01\x01\0\0\0\x02de\0";

const RENEWAL: &[Row] = &[
    (Act::AppendAbc, Ok(()), (Side::Zero, 0, 8), None),
    (Act::Renew, Ok(()), (Side::One, 1, 0), None),
    (Act::AppendDe, Ok(()), (Side::One, 1, 7), None),
];

// Appends a body of so many zero bytes.
fn append_zeros(alloc: Global, log: &mut Log, len: usize) -> Result<(), AppendError> {
    let Ok(body) = vec![in alloc; 0; len] else {
        return Err(AppendError::Memory);
    };
    log.append(&body)
}

// The length of a body, the answer to it, and the tail after it.
const LONG_BODIES: &[(usize, Result<(), AppendError>, u64)] = &[
    (8_388_609, Err(AppendError::TooLong), 0),
    (8_388_608, Ok(()), 8_388_613),
];

// Whether an empty journal answers so, and is not stopped.
fn are_long_bodies(alloc: Global) -> bool {
    let Some(mut log) = empty_log(alloc) else {
        return false;
    };
    let mut are_so = true;
    for (len, want, tail) in LONG_BODIES {
        are_so = are_so && append_zeros(alloc, &mut log, *len) == *want && log.tail() == *tail;
        are_so = are_so && !log.stopped();
    }
    are_so
}

#[test]
fn a_body_has_at_most_8_388_608_bytes(rt: HostRuntime) {
    assert!(rt; are_long_bodies(rt.alloc()));
}

const AT_FIRST: (Side, u64, u64) = (Side::Zero, 0, 0);

const FAULT: Option<Struck> = Some(Struck::Fault);

const STOPPED: Result<(), AppendError> = Err(AppendError::Stopped);

const AFTER_A_FAULT: &[Row] = &[
    (Act::FailNext, Ok(()), AT_FIRST, None),
    (Act::AppendAbc, STRUCK, AT_FIRST, FAULT),
    (Act::AppendAbc, STOPPED, AT_FIRST, FAULT),
    (Act::Renew, STOPPED, AT_FIRST, FAULT),
];

// A test's name, acts on an empty journal, and the side that has these bytes after them.
const WRITTEN: &[(&str, &[Row], Side, &[u8])] = &[
    ("appends_these_bytes", APPEND, Side::Zero, ONE_BODY),
    ("appends_these_bytes", APPEND_SMALL, Side::Zero, ONE_BODY),
    ("appends_these_bytes", APPEND_FRAMED, Side::Zero, ONE_BODY),
    ("renews_these_bytes", RENEWAL, Side::One, TWO_BODIES),
    ("stays_stopped", AFTER_A_FAULT, Side::Zero, EMPTY),
];

#[test]
fn a_journal_appends_renews_and_stops(rt: HostRuntime) {
    for (name, rows, side, bytes) in WRITTEN {
        assert!(rt; is_written_so(rt.alloc(), rows, *side, bytes), "{name}");
    }
}

// The side in use and its epoch, and the bodies of each side.
#[derive(Clone, Copy)]
struct Left {
    side: Side,
    epoch: u64,
    zero: &'static [&'static [u8]],
    one: &'static [&'static [u8]],
}

const NOTHING: Left = Left {
    side: Side::Zero,
    epoch: 0,
    zero: &[],
    one: &[],
};

const APPENDED: Left = Left {
    zero: &[b"abc"],
    ..NOTHING
};

const RENEWED: Left = Left {
    side: Side::One,
    epoch: 1,
    zero: &[b"abc"],
    one: &[FIRST],
};

// The bodies of side zero are gone before the second renewal begins there.
const EMPTIED: Left = Left {
    zero: &[],
    ..RENEWED
};

const RENEWED_AGAIN: Left = Left {
    side: Side::Zero,
    epoch: 2,
    zero: &[SECOND],
    one: &[FIRST],
};

fn are(found: &[Vec<u8>], want: &[&[u8]]) -> bool {
    let mut are_same = found.len() == want.len();
    for (body, wanted) in found.iter().zip(want) {
        are_same = are_same && *body.as_slice() == **wanted;
    }
    are_same
}

fn is_left(found: &Opened<MemDisks>, left: &Left) -> bool {
    found.log.side() == left.side
        && found.log.epoch() == left.epoch
        && are(&found.zero, left.zero)
        && are(&found.one, left.one)
}

// What an opening of two files comes to.
#[derive(Clone, Copy)]
enum Found<'a> {
    Left(&'a Left),
    // The side in use, and its epoch.
    InUse(Side, u64),
    // They are no journal, for the reason that is written so.
    Refused(&'a str),
}

fn is_journal(found: &Opened<MemDisks>, want: &Found<'_>) -> bool {
    match want {
        Found::Left(left) => is_left(found, left),
        Found::InUse(side, epoch) => found.log.side() == *side && found.log.epoch() == *epoch,
        Found::Refused(_) => false,
    }
}

fn is_refused(alloc: Global, error: &LogError<MemDisks>, want: &Found<'_>) -> bool {
    match (error, want) {
        (LogError::NotAJournal(why, _), Found::Refused(text)) => is_written(alloc, why, text),
        _ => false,
    }
}

fn finds(alloc: Global, disk: MemDisks, want: &Found<'_>) -> bool {
    match GateLog::open(alloc, disk) {
        Ok(found) => is_journal(&found, want),
        Err(error) => is_refused(alloc, &error, want),
    }
}

// Whether this is found in two files.
fn is_found(alloc: Global, zero: &[u8], one: &[u8], want: &Found<'_>) -> Result<bool, AllocError> {
    let disk = disk_of(alloc, zero, one)?;
    Ok(finds(alloc, disk, want))
}

// What no row wants: an act before the last one was not taken.
const NOT_READY: Result<(), AppendError> = Err(AppendError::TooLong);

// The answer of the last act, under this order.
fn answer_last(log: &mut Log, acts: &[Act], order: Order) -> Result<(), AppendError> {
    let Some((last, before)) = acts.split_last() else {
        return NOT_READY;
    };
    for act in before {
        if answer(log, *act).is_err() {
            return NOT_READY;
        }
    }
    log.arm(order);
    answer(log, *last)
}

fn leaves(
    alloc: Global,
    acts: &[Act],
    order: Order,
    want: Result<(), AppendError>,
    left: &Left,
) -> bool {
    let Some(mut log) = empty_log(alloc) else {
        return false;
    };
    let answer = answer_last(&mut log, acts, order);
    let disk = log.into_disk().into_disk();
    answer == want && finds(alloc, disk, &Found::Left(left))
}

// What a letter of a row stands for.
fn left_by(letter: u8) -> &'static Left {
    match letter {
        b'a' => &APPENDED,
        b'r' => &RENEWED,
        b'e' => &EMPTIED,
        b's' => &RENEWED_AGAIN,
        _ => &NOTHING,
    }
}

// The answer to the last act while its call of this number is struck, and what is left in each way, a letter for each.
type Strike = (Result<(), AppendError>, &'static str);

fn are_left(alloc: Global, acts: &[Act], call: u64, strike: Strike) -> bool {
    let (want, letters) = strike;
    let orders = orders(call);
    for (order, letter) in orders.iter().zip(letters.as_bytes()) {
        if !leaves(alloc, acts, *order, want, left_by(*letter)) {
            return false;
        }
    }
    true
}

// A test's name, acts, and a row for each call of the last of them, and for the call after these, which it does not make.
type StrikeTest = (&'static str, &'static [Act], &'static [Strike]);

// Strikes each call of the last act, and the call after them.
fn strike_each(alloc: Global, test: &StrikeTest) -> Result<(), Fail> {
    let (name, acts, strikes) = *test;
    let mut call = 0u64;
    for strike in strikes {
        call = call.saturating_add(1);
        if !are_left(alloc, acts, call, *strike) {
            return Err(Fail::new(format_args!("{name}: call {call}")));
        }
    }
    Ok(())
}

const STRUCK: Result<(), AppendError> = Err(AppendError::Disk);

const STRUCK_APPEND: &[Strike] = &[
    (STRUCK, "----"),
    (STRUCK, "----"),
    (STRUCK, "-aa-"),
    (STRUCK, "-aaa"),
    (Ok(()), "aaaa"),
];

const STRUCK_RENEWAL: &[Strike] = &[
    (STRUCK, "aaaa"),
    (STRUCK, "aaaa"),
    (STRUCK, "arra"),
    (STRUCK, "arrr"),
    (Ok(()), "rrrr"),
];

const STRUCK_SECOND_RENEWAL: &[Strike] = &[
    (STRUCK, "rerr"),
    (STRUCK, "rere"),
    (STRUCK, "eeee"),
    (STRUCK, "eeee"),
    (STRUCK, "esse"),
    (STRUCK, "esss"),
    (Ok(()), "ssss"),
];

const STRIKES: &[StrikeTest] = &[
    (
        "strikes_each_call_of_an_append",
        &[Act::AppendAbc],
        STRUCK_APPEND,
    ),
    (
        "strikes_each_call_of_a_first_renewal",
        &[Act::AppendAbc, Act::Renew],
        STRUCK_RENEWAL,
    ),
    (
        "strikes_each_call_of_a_renewal_onto_a_side_with_bodies",
        &[Act::AppendAbc, Act::Renew, Act::Renew],
        STRUCK_SECOND_RENEWAL,
    ),
];

#[test]
fn strikes_each_call(rt: HostRuntime) -> Result<(), Fail> {
    for test in STRIKES {
        strike_each(rt.alloc(), test)?;
    }
    Ok(())
}

const EMPTY: &[u8] = b"ZENJRNL1\0";

const PLAIN: &[u8] = b"ZENJRNL1\x01\0\0\0\x01\x01\0";

const GENERATION_ONE: &[u8] = b"ZENJRNL1\x01\0\0\0\x09\x04\0\0\0\0\0\0\0\x01\0";

const GENERATION_TWO: &[u8] = b"ZENJRNL1\x01\0\0\0\x09\x04\0\0\0\0\0\0\0\x02\0";

// Begun by the greatest epoch, 2^62, and by epochs of none: 0 and 2^62 + 1.
const LAST_GENERATION: &[u8] = b"ZENJRNL1\x01\0\0\0\x09\x04\x40\0\0\0\0\0\0\0\0";

const EPOCH_ZERO: &[u8] = b"ZENJRNL1\x01\0\0\0\x09\x04\0\0\0\0\0\0\0\0\0";

const EPOCH_PAST_THE_LAST: &[u8] = b"ZENJRNL1\x01\0\0\0\x09\x04\x40\0\0\0\0\0\0\x01\0";

const EPOCH_CUT: &[u8] = b"ZENJRNL1\x01\0\0\0\x08\x04\0\0\0\0\0\0\x01\0";

const GENERATION_SECOND: &[u8] =
    b"ZENJRNL1\x01\0\0\0\x01\x01\x01\0\0\0\x09\x04\0\0\0\0\0\0\0\x01\0";

const TWO_GENERATIONS: &[u8] =
    b"ZENJRNL1\x01\0\0\0\x09\x04\0\0\0\0\0\0\0\x01\x01\0\0\0\x09\x04\0\0\0\0\0\0\0\x02\0";

// The same rules hold for a body that begins with 84.
const GUARDED_ONE: &[u8] = b"ZENJRNL1\x01\0\0\0\x09\x84\0\0\0\0\0\0\0\x01\0";

const GUARDED_TWO: &[u8] = b"ZENJRNL1\x01\0\0\0\x09\x84\0\0\0\0\0\0\0\x02\0";

const GUARDED_ZERO: &[u8] = b"ZENJRNL1\x01\0\0\0\x09\x84\0\0\0\0\0\0\0\0\0";

const GUARDED_CUT: &[u8] = b"ZENJRNL1\x01\0\0\0\x08\x84\0\0\0\0\0\0\x01\0";

const GUARDED_SECOND: &[u8] =
    b"ZENJRNL1\x01\0\0\0\x09\x04\0\0\0\0\0\0\0\x01\x01\0\0\0\x09\x84\0\0\0\0\0\0\0\x02\0";

// Its first body begins with 81, which begins no generation.
const GUARDED_TERM: &[u8] = b"ZENJRNL1\x01\0\0\0\x09\x81\0\0\0\0\0\0\0\x01\0";

const NO_HEADER: &[u8] = b"ABCDEFGHIJ";

const CUT: &[u8] = b"ZENJRNL1\x01\0\0\0\xff\0";

const CUT_LENGTH: &[u8] = b"ZENJRNL1\x01\0\0";

const LONG: &[u8] = b"ZENJRNL1\x01\xff\0\0\0\0";

// A length of three bytes, and one of more bytes than a body has at most, with nothing behind.
const CUT_IN_ITS_LENGTH: &[u8] = b"ZENJRNL1\x01\0\0\0";

const ONE_TOO_LONG: &[u8] = b"ZENJRNL1\x01\0\x80\0\x01";

// Two files, and the first fault of both.
const FAULTS: &[(&[u8], &[u8], &str)] = &[
    (NO_HEADER, b"", "Header"),
    (CUT, b"", "Cut(8)"),
    (CUT_LENGTH, b"", "Cut(8)"),
    (LONG, b"", "Long(8)"),
    (EPOCH_ZERO, b"", "Order(8)"),
    (EPOCH_PAST_THE_LAST, b"", "Order(8)"),
    (EPOCH_CUT, b"", "Order(8)"),
    (GENERATION_SECOND, b"", "Order(14)"),
    (TWO_GENERATIONS, b"", "Order(22)"),
    (GUARDED_ZERO, b"", "Order(8)"),
    (GUARDED_CUT, b"", "Order(8)"),
    (GUARDED_SECOND, b"", "Order(22)"),
    (b"", GUARDED_TERM, "1:Order(8)"),
    (b"", NO_HEADER, "1:Header"),
    (b"", CUT, "1:Cut(8)"),
    (PLAIN, LONG, "1:Long(8)"),
    (PLAIN, PLAIN, "1:Order(8)"),
    (PLAIN, TWO_GENERATIONS, "1:Order(22)"),
    (CUT, NO_HEADER, "Cut(8)"),
    (TWO_GENERATIONS, NO_HEADER, "Order(22)"),
    (GENERATION_ONE, CUT, "1:Cut(8)"),
    (GENERATION_ONE, GENERATION_ONE, "Twin"),
    (GENERATION_ONE, GUARDED_ONE, "Twin"),
    (CUT_IN_ITS_LENGTH, b"", "Cut(8)"),
    (ONE_TOO_LONG, b"", "Long(8)"),
];

#[test]
fn names_the_first_fault(rt: HostRuntime) -> Result<(), Fail> {
    for (zero, one, want) in FAULTS {
        assert!(rt;
            is_found(rt.alloc(), zero, one, &Found::Refused(want))?,
            "{want}"
        );
    }
    Ok(())
}

// Two files, the side in use and its epoch.
const SIDES: &[(&[u8], &[u8], Side, u64)] = &[
    (b"", b"", Side::Zero, 0),
    (b"ABCDEFGHI", EMPTY, Side::Zero, 0),
    (PLAIN, b"", Side::Zero, 0),
    (GENERATION_ONE, b"", Side::Zero, 1),
    (b"", GENERATION_ONE, Side::One, 1),
    (PLAIN, GENERATION_ONE, Side::One, 1),
    (GENERATION_TWO, GENERATION_ONE, Side::Zero, 2),
    (GENERATION_ONE, GENERATION_TWO, Side::One, 2),
    (GUARDED_TERM, b"", Side::Zero, 0),
    (GUARDED_TERM, GUARDED_ONE, Side::One, 1),
    (GUARDED_TWO, GENERATION_ONE, Side::Zero, 2),
    (GENERATION_ONE, GUARDED_TWO, Side::One, 2),
    (
        GENERATION_ONE,
        LAST_GENERATION,
        Side::One,
        4_611_686_018_427_387_904,
    ),
];

#[test]
fn takes_the_side_of_the_greater_epoch(rt: HostRuntime) -> Result<(), Fail> {
    for (zero, one, side, epoch) in SIDES {
        assert!(rt; is_found(rt.alloc(), zero, one, &Found::InUse(*side, *epoch))?);
    }
    Ok(())
}

#[test]
fn says_what_was_wrong(rt: HostRuntime) {
    let error = LogError::NotAJournal(Why::At(Side::One, Fault::Cut(8)), 0);
    assert!(rt; is_written(rt.alloc(), &error, "not a journal: 1:Cut(8)"));
}
