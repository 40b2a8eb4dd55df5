//! Real files and folders, as rows of what is done with them and of what they then have. What is expected follows from what was
//! done: the bytes that were written, at their places.
use self::Row::*;
use host_io::{FileDisks, Framing, Owner, Piece, SystemHost};
use std::alloc::{AllocError, Global};
use std::fs;
use std::os::unix::fs::symlink;
use std::test::Fail;
use voting_config::NodeId;
use zen_disk::Side::{One, Zero};
use zen_disk::{Disks, Side};
use zen_host::{Host, HostError};

/// The framing of a program that sends nothing.
#[derive(Clone, Copy)]
struct NoFrames;

impl Framing for NoFrames {
    type Out = ();

    fn count(&self, _out: &()) -> usize {
        0
    }

    fn piece(&self, _alloc: Global, _out: &(), _place: usize) -> Result<Option<Piece>, AllocError> {
        Ok(None)
    }

    fn sender(&self, _prefix: &[u8]) -> Option<NodeId> {
        None
    }
}

// What is done with the disk of a folder, or with the files of the system, or what they then have.
#[derive(Clone, Copy)]
enum Row {
    // The host opens the disk in this folder.
    Opens(&'static str),
    // It refuses to.
    RefusesToOpen(&'static str),
    // The disk is given back to the host.
    GoesBack,
    // From here on the host is another one.
    HostIsNew,
    // From here on it is another one, for a node with this id, which names its folders.
    HostIsOf(&'static str),
    // The same, but it names none.
    HostKnows(&'static str),
    Writes(Side, u64, &'static [u8]),
    RefusesToWrite(Side, u64, &'static [u8]),
    RefusesToRead(Side, usize),
    Syncs(Side),
    RefusesToSync(Side),
    // All the bytes of a side.
    Has(Side, &'static [u8]),
    // It has no bytes, and gives none.
    IsEmpty(Side),
    FolderIsMade(&'static str),
    FolderIsRemoved(&'static str),
    FileIsMade(&'static str, &'static [u8]),
    // All the bytes of a file.
    FileHas(&'static str, &'static [u8]),
    FileIsNotThere(&'static str),
    // The first is a link to the file whose name in the same folder is the second.
    LinkIsMade(&'static str, &'static str),
    // The second is another name of the first.
    NameIsAdded(&'static str, &'static str),
    // It has many bytes, of which no two pieces of a copy are alike.
    LongFileIsMade(&'static str),
    LongFileIs(&'static str),
}

// Whether a side has these bytes.
fn has(disk: &mut FileDisks, side: Side, wanted: &[u8]) -> bool {
    let mut buffer = [0; 5];
    match buffer.get_mut(..wanted.len()) {
        Some(into) => {
            disk.len(side) == Ok(wanted.len() as u64)
                && disk.read(side, 0, into) == Ok(())
                && *into == *wanted
        }
        None => false,
    }
}

fn refuses_to_read(disk: &mut FileDisks, side: Side, count: usize) -> bool {
    let mut buffer = [0; 5];
    match buffer.get_mut(..count) {
        Some(into) => disk.read(side, 0, into).is_err(),
        None => false,
    }
}

// The bytes of a long file: more than two pieces of a copy.
fn long_bytes(alloc: Global) -> Result<Vec<u8>, AllocError> {
    let mut bytes = Vec::new(alloc);
    for number in 0..50_000u32 {
        bytes.extend_from_slice(&number.to_be_bytes())?;
    }
    Ok(bytes)
}

fn long_file_is_made(rt: &HostRuntime, path: &str) -> bool {
    match long_bytes(rt.alloc()) {
        Ok(bytes) => fs::write(rt, path, bytes.as_slice()).is_ok(),
        Err(_) => false,
    }
}

fn long_file_is(rt: &HostRuntime, path: &str) -> bool {
    match long_bytes(rt.alloc()) {
        Ok(bytes) => file_has(rt, path, bytes.as_slice()),
        Err(_) => false,
    }
}

// Whether the file of the system has these bytes.
fn file_has(rt: &HostRuntime, path: &str, wanted: &[u8]) -> bool {
    match fs::read(rt, path) {
        Ok(bytes) => bytes.as_slice() == wanted,
        Err(_) => false,
    }
}

// What is done with a disk, or what it then has.
fn is_so(disk: &mut FileDisks, row: Row) -> bool {
    match row {
        Writes(side, at, bytes) => disk.write_at(side, at, bytes).is_ok(),
        RefusesToWrite(side, at, bytes) => disk.write_at(side, at, bytes).is_err(),
        RefusesToRead(side, count) => refuses_to_read(disk, side, count),
        Syncs(side) => disk.sync(side).is_ok(),
        RefusesToSync(side) => disk.sync(side).is_err(),
        Has(side, wanted) => has(disk, side, wanted),
        IsEmpty(side) => refuses_to_read(disk, side, 1) && has(disk, side, b""),
        _ => false,
    }
}

// What is done with the files of the system, or what they then have.
fn is_file_so(rt: &HostRuntime, row: Row) -> bool {
    match row {
        FolderIsMade(path) => fs::create_dir(rt, path).is_ok(),
        FolderIsRemoved(path) => fs::remove_dir_all(rt, path).is_ok(),
        FileIsMade(path, bytes) => fs::write(rt, path, bytes).is_ok(),
        FileHas(path, wanted) => file_has(rt, path, wanted),
        FileIsNotThere(path) => fs::read(rt, path).is_err(),
        LinkIsMade(path, target) => symlink(rt, target, path).is_ok(),
        NameIsAdded(path, name) => fs::hard_link(rt, path, name).is_ok(),
        LongFileIsMade(path) => long_file_is_made(rt, path),
        LongFileIs(path) => long_file_is(rt, path),
        _ => false,
    }
}

fn id(text: &str) -> NodeId {
    NodeId::from_bytes(text.as_bytes()).unwrap_or_default()
}

#[derive(Drop)]
struct World<'a> {
    rt: &'a HostRuntime,
    host: SystemHost<'a, NoFrames>,
    disk: Option<FileDisks>,
}

impl<'a> World<'a> {
    fn new(rt: &'a HostRuntime) -> World<'a> {
        World {
            rt,
            host: SystemHost::new(rt, NoFrames),
            disk: None,
        }
    }

    fn is_so(&mut self, row: Row) -> bool {
        match row {
            Opens(dir) => self.opens(dir),
            RefusesToOpen(dir) => matches!(self.host.open_disk(dir), Err(HostError::Failed)),
            GoesBack => self.goes_back(),
            HostIsNew => self.host_is_of(Owner::Any),
            HostIsOf(node) => self.host_is_of(Owner::Named(id(node))),
            HostKnows(node) => self.host_is_of(Owner::Known(id(node))),
            Writes(..)
            | RefusesToWrite(..)
            | RefusesToRead(..)
            | Syncs(_)
            | RefusesToSync(_)
            | Has(..)
            | IsEmpty(_) => match &mut self.disk {
                Some(disk) => is_so(disk, row),
                None => false,
            },
            _ => is_file_so(self.rt, row),
        }
    }

    fn host_is_of(&mut self, owner: Owner) -> bool {
        self.host = SystemHost::new(self.rt, NoFrames).owned_by(owner);
        true
    }

    // The last disk goes first: it holds its folder.
    fn opens(&mut self, dir: &str) -> bool {
        self.disk = None;
        self.disk = self.host.open_disk(dir).ok();
        self.disk.is_some()
    }

    fn goes_back(&mut self) -> bool {
        match self.disk.take() {
            Some(disk) => {
                self.host.close_disk(disk);
                true
            }
            None => false,
        }
    }
}

// The place of the first row that is not so.
fn first_untrue(rt: &HostRuntime, rows: &[Row]) -> Option<usize> {
    let mut world = World::new(rt);
    let mut untrue = None;
    for (place, row) in rows.iter().enumerate() {
        if !world.is_so(*row) {
            untrue = Some(place);
            break;
        }
    }
    untrue
}

// A test's name, the folder that it uses, and its rows.
type Test = (&'static str, &'static str, &'static [Row]);

// Says which row is not so, the first being row 0. What an earlier run has left in the folder is removed first.
fn run(rt: &HostRuntime, test: &Test) -> Result<(), Fail> {
    let (name, dir, rows) = *test;
    let _ = fs::remove_dir_all(rt, dir);
    if let Some(place) = first_untrue(rt, rows) {
        return Err(Fail::new(format_args!("{name}: row {place}")));
    }
    let _ = fs::remove_dir_all(rt, dir);
    Ok(())
}

const OPENED_AGAIN: &[Row] = &[
    Opens("host_io_kept/a/b"),
    Writes(Zero, 0, b"abcde"),
    Syncs(Zero),
    Writes(One, 0, b"xyz"),
    Syncs(One),
    GoesBack,
    HostIsNew,
    Opens("host_io_kept/a/b/"),
    Has(Zero, b"abcde"),
    Has(One, b"xyz"),
    FileHas("host_io_kept/a/b/journal.0", b"abcde"),
    FileHas("host_io_kept/a/b/journal.1", b"xyz"),
];

const FIRST_WRITE: &[Row] = &[
    FolderIsMade("host_io_old"),
    FileIsMade("host_io_old/journal.0", b"abc"),
    Opens("host_io_old"),
    Has(Zero, b"abc"),
    IsEmpty(One),
    Syncs(One),
    FileIsNotThere("host_io_old/journal.1"),
    Writes(One, 0, b"d"),
    Syncs(One),
    FileHas("host_io_old/journal.1", b"d"),
];

const HELD_FOLDER: &[Row] = &[
    Opens("host_io_held"),
    Writes(Zero, 0, b"ab"),
    RefusesToOpen("host_io_held"),
    RefusesToOpen("host_io_held/"),
    Has(Zero, b"ab"),
    // A disk that was given back holds its folder as long as the host has it.
    GoesBack,
    RefusesToOpen("host_io_held"),
    HostIsNew,
    Opens("host_io_held"),
    Has(Zero, b"ab"),
];

const NAMED_FOLDER: &[Row] = &[
    HostKnows("a"),
    Opens("host_io_named"),
    FileIsNotThere("host_io_named/node"),
    GoesBack,
    FileIsMade("host_io_named/node.new", b"what a crash has left"),
    HostIsOf("a"),
    Opens("host_io_named"),
    FileHas("host_io_named/node", b"id=a\n"),
    FileIsNotThere("host_io_named/node.new"),
    GoesBack,
    HostIsOf("a"),
    Opens("host_io_named"),
    GoesBack,
    HostKnows("a"),
    Opens("host_io_named"),
    GoesBack,
    HostIsOf("b"),
    RefusesToOpen("host_io_named"),
    HostKnows("b"),
    RefusesToOpen("host_io_named"),
    FileHas("host_io_named/node", b"id=a\n"),
    FileIsMade("host_io_named/node", b"id=a"),
    HostIsOf("a"),
    RefusesToOpen("host_io_named"),
    FileIsMade("host_io_named/node", b"id=a\n\n"),
    RefusesToOpen("host_io_named"),
    FileIsMade("host_io_named/node", b""),
    RefusesToOpen("host_io_named"),
    HostKnows("a"),
    RefusesToOpen("host_io_named"),
    HostIsNew,
    Opens("host_io_named"),
    FileHas("host_io_named/node", b""),
];

const WRITTEN_ANEW: &[Row] = &[
    FolderIsMade("host_io_anew"),
    FileIsMade("host_io_anew/journal.0", b"abc"),
    NameIsAdded("host_io_anew/journal.0", "host_io_anew/first"),
    FileIsMade("host_io_anew/journal.0.new", b"what a crash has left"),
    Opens("host_io_anew"),
    Writes(Zero, 3, b"d"),
    FileHas("host_io_anew/first", b"abcd"),
    Syncs(Zero),
    FileIsNotThere("host_io_anew/journal.0.new"),
    Has(Zero, b"abcd"),
    // It is another file from then on, and stays that.
    NameIsAdded("host_io_anew/journal.0", "host_io_anew/second"),
    Writes(Zero, 4, b"e"),
    Syncs(Zero),
    Has(Zero, b"abcde"),
    FileHas("host_io_anew/journal.0", b"abcde"),
    FileHas("host_io_anew/second", b"abcde"),
    FileHas("host_io_anew/first", b"abcd"),
    Syncs(One),
    FileIsNotThere("host_io_anew/journal.1"),
    FileIsNotThere("host_io_anew/journal.1.new"),
];

const LONG_ANEW: &[Row] = &[
    FolderIsMade("host_io_long"),
    LongFileIsMade("host_io_long/journal.1"),
    NameIsAdded("host_io_long/journal.1", "host_io_long/first"),
    Opens("host_io_long"),
    Syncs(One),
    LongFileIs("host_io_long/journal.1"),
    Writes(One, 0, b"d"),
    LongFileIs("host_io_long/first"),
];

const NO_ROOM_FOR_NEW: &[Row] = &[
    FolderIsMade("host_io_no_new"),
    FileIsMade("host_io_no_new/journal.0", b"abc"),
    FolderIsMade("host_io_no_new/journal.0.new"),
    Opens("host_io_no_new"),
    RefusesToSync(Zero),
    Has(Zero, b"abc"),
    Writes(Zero, 3, b"d"),
    RefusesToSync(Zero),
    FolderIsRemoved("host_io_no_new/journal.0.new"),
    Syncs(Zero),
    FileHas("host_io_no_new/journal.0", b"abcd"),
];

const LINKED_ELSEWHERE: &[Row] = &[
    FolderIsMade("host_io_link"),
    FileIsMade("host_io_link/there", b"abc"),
    LinkIsMade("host_io_link/journal.0", "there"),
    Opens("host_io_link"),
    Syncs(Zero),
    Writes(Zero, 3, b"d"),
    Syncs(Zero),
    FileHas("host_io_link/there", b"abcd"),
    FileIsNotThere("host_io_link/journal.0.new"),
];

const FOLDER_GONE: &[Row] = &[
    Opens("host_io_gone"),
    FolderIsRemoved("host_io_gone"),
    RefusesToWrite(Zero, 0, b"a"),
];

const OUT_OF_BOUNDS: &[Row] = &[
    Opens("host_io_short"),
    Writes(Zero, 0, b"ab"),
    RefusesToRead(Zero, 3),
    RefusesToWrite(Zero, 1 << 62, b"a"),
    Has(Zero, b"ab"),
];

const BARRED_FOLDER: &[Row] = &[
    FolderIsMade("host_io_barred"),
    FileIsMade("host_io_barred/file", b""),
    RefusesToOpen("host_io_barred/file"),
    RefusesToOpen("host_io_barred/file/a"),
];

const TESTS: &[Test] = &[
    (
        "what_was_synced_is_read_after_a_second_opening",
        "host_io_kept",
        OPENED_AGAIN,
    ),
    (
        "a_file_that_is_not_there_is_made_at_its_first_write",
        "host_io_old",
        FIRST_WRITE,
    ),
    (
        "a_folder_is_held_by_one_disk_at_a_time",
        "host_io_held",
        HELD_FOLDER,
    ),
    ("a_folder_is_of_one_node", "host_io_named", NAMED_FOLDER),
    (
        "a_file_is_written_anew_at_its_first_sync",
        "host_io_anew",
        WRITTEN_ANEW,
    ),
    ("a_long_file_is_written_anew", "host_io_long", LONG_ANEW),
    (
        "a_file_that_cannot_be_written_anew_is_a_fault",
        "host_io_no_new",
        NO_ROOM_FOR_NEW,
    ),
    (
        "a_link_is_not_written_anew",
        "host_io_link",
        LINKED_ELSEWHERE,
    ),
    (
        "a_file_that_cannot_be_made_is_a_fault_of_the_disk",
        "host_io_gone",
        FOLDER_GONE,
    ),
    (
        "a_short_read_and_a_write_past_the_limit_are_faults",
        "host_io_short",
        OUT_OF_BOUNDS,
    ),
    (
        "a_folder_that_cannot_be_made_is_a_fault",
        "host_io_barred",
        BARRED_FOLDER,
    ),
];

#[test]
fn a_folder_keeps_what_is_written_or_refuses(rt: HostRuntime) -> Result<(), Fail> {
    for test in TESTS {
        run(&rt, test)?;
    }
    Ok(())
}
