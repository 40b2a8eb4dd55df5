//! A text read as a schedule, or refused by its first bad line.
ghost use Rattle.std.specs.Prelude.{◌≡◌, ◌+◌, ◌<◌, ◌≤◌, ◌^◌, length, codes, OnOk, IfOk, Result, []};
ghost use Rattle.schedule_text.specs.Limits.{most_lines};
ghost use Rattle.voting_config.specs.Lists.{parts_of, line_feed};
ghost use Rattle.schedule_text.specs.Reading.{header_at, is_named as is_named_of, one_line_at, first_line_at, second_line_at, voting_only_line_at, profile_line_at, lines_at, with_lines_at, profile_at, voting_only_at, initial_at, schedule_at, fault_of, end_at, no_initial};
ghost use Rattle.schedule_text.specs.Answers.{Adds, Answers, Faulted};
ghost use Rattle.schedule_text.specs.Spelled.{Spells};
ghost use Rattle.schedule_text.specs.declared.schedule.Schedule.{Schedule};

use crate::fault::{BadSchedule, ReadError, WhyBad};
use crate::level::Level;
use crate::line_ends::cut_line;
use crate::lines::{one_word, read_line};
use crate::place::Place;
use crate::schedule::{Line, Lines, Schedule};
use std::alloc::Global;
use voting_config::{NodeSet, cut};

// The list of a header line, after its name.
fn header(name: &[u8], place: Place, line: &[u8]) -> Result<NodeSet, BadSchedule>
    requires { place.before + length line.now + 1 < 2 ^ 64 }
    ensures { result ≡ header_at name.now place line.now }
{
    if let Err(why) = place.check_size(line) {
        return Err(place.bad(why));
    }
    let (verb, rest) = cut(line, b' ');
    if verb != name {
        return Err(place.bad(WhyBad::Header));
    }
    let Ok(word) = one_word(rest) else {
        return Err(place.bad(WhyBad::Header));
    };
    let Some(ids) = NodeSet::from_bytes(word) else {
        return Err(place.bad(WhyBad::Header));
    };
    Ok(ids)
}

fn first_line(place: Place, line: &[u8]) -> Result<NodeSet, BadSchedule>
    requires { place.before + length line.now + 1 < 2 ^ 64 }
    ensures { result ≡ first_line_at place line.now }
{
    let nodes = header(b"nodes", place, line)?;
    if nodes.len() == 0 {
        return Err(place.bad(WhyBad::Header));
    }
    Ok(nodes)
}

fn second_line(nodes: &NodeSet, place: Place, line: &[u8]) -> Result<NodeSet, BadSchedule>
    requires { place.before + length line.now + 1 < 2 ^ 64 }
    ensures { result ≡ second_line_at nodes.now place line.now }
{
    let initial = header(b"initial", place, line)?;
    if initial.len() == 0 || !nodes.has_all(&initial) {
        return Err(place.bad(WhyBad::Header));
    }
    Ok(initial)
}

fn voting_only_line(nodes: &NodeSet, place: Place, line: &[u8]) -> Result<NodeSet, BadSchedule>
    requires { place.before + length line.now + 1 < 2 ^ 64 }
    ensures { result ≡ voting_only_line_at nodes.now place line.now }
{
    let voting_only = header(b"voting-only", place, line)?;
    if !nodes.has_all(&voting_only) {
        return Err(place.bad(WhyBad::Header));
    }
    Ok(voting_only)
}

// Whether the line names the second profile, which is all that it may say.
fn profile_line(place: Place, line: &[u8]) -> Result<bool, BadSchedule>
    requires { place.before + length line.now + 1 < 2 ^ 64 }
    ensures { result ≡ profile_line_at place line.now }
{
    if let Err(why) = place.check_size(line) {
        return Err(place.bad(why));
    }
    if line != b"profile 2".as_slice() {
        return Err(place.bad(WhyBad::Header));
    }
    Ok(true)
}

// Whether the line is to be a further one of the header, of this name.
fn is_named(level: Level, name: &[u8], line: &[u8]) -> bool
    ensures { result ≡ is_named_of level name.now line.now }
{
    match level {
        Level::Core => false,
        Level::Node => cut(line, b' ').0 == name,
    }
}

// Puts one line that has its line feed after those that were read.
fn add_line(
    alloc: Global,
    level: Level,
    ids: &NodeSet,
    place: Place,
    line: &[u8],
    lines: &mut Vec<Line>,
) -> Result<(), ReadError<BadSchedule>>
    requires { place.before + length line.now + 1 < 2 ^ 64 }
    ensures added { Adds lines.old.items lines.new.items result (one_line_at level ids.now place line.now) }
    ensures counted { OnOk result (place.number ≤ most_lines) }
{
    if let Err(why) = place.check_size(line) {
        return Err(ReadError::Bad(place.bad(why)));
    }
    match read_line(alloc, level, ids, line) {
        Ok(read) => match lines.push(read) {
            Ok(()) => Ok(()),
            Err(_) => Err(ReadError::Memory),
        },
        Err(ReadError::Memory) => Err(ReadError::Memory),
        Err(ReadError::Bad(why)) => Err(ReadError::Bad(place.bad(why))),
    }
}

// What stands after the last line feed must be nothing.
fn check_end(place: Place, line: &[u8]) -> Result<(), BadSchedule>
    requires { place.before + length line.now < 2 ^ 64 }
    ensures { result ≡ end_at place line.now tt }
{
    if line.is_empty() {
        return Ok(());
    }
    Err(place.bad(place.why_cut(line)))
}

fn read_lines(
    alloc: Global,
    level: Level,
    ids: &NodeSet,
    start: Place,
    bytes: &[u8],
) -> Result<Lines, ReadError<BadSchedule>>
    requires bytes { start.before + length bytes.now < 2 ^ 64 }
    ensures { Answers result (lines_at level ids.now start [] (parts_of line_feed bytes.now)) }
{
    let mut lines = Vec::new(alloc);
    let mut place = start;
    let (mut line, mut rest) = cut_line(bytes);
    while let Some(more) = rest {
        let next = cut_line(more);
        add_line(alloc, level, ids, place, line, &mut lines)?;
        place = place.after(line);
        line = next.0;
        rest = next.1;
    }
    if let Err(bad) = check_end(place, line) {
        return Err(ReadError::Bad(bad));
    }
    Ok(Lines::of(lines))
}

// The lines after the header.
fn read_with(
    alloc: Global,
    level: Level,
    nodes: NodeSet,
    initial: NodeSet,
    voting_only: NodeSet,
    second: bool,
    place: Place,
    bytes: &[u8],
) -> Result<Schedule, ReadError<BadSchedule>>
    requires bytes { place.before + length bytes.now < 2 ^ 64 }
    ensures { Answers result (with_lines_at level nodes initial voting_only second place (parts_of line_feed bytes.now)) }
{
    let lines = match read_lines(alloc, level, &nodes, place, bytes) {
        Ok(lines) => lines,
        Err(fault) => return Err(fault),
    };
    Ok(Schedule {
        nodes,
        initial,
        voting_only,
        second,
        lines,
    })
}

// The header line of the profile, where it is there, and the lines.
#[tactic(auto, using(crate::proofs::Splitting::lines_are))]
fn read_profile(
    alloc: Global,
    level: Level,
    nodes: NodeSet,
    initial: NodeSet,
    voting_only: NodeSet,
    place: Place,
    bytes: &[u8],
) -> Result<Schedule, ReadError<BadSchedule>>
    requires bytes { place.before + length bytes.now < 2 ^ 64 }
    requires number { place.number ≤ most_lines + 1 }
    ensures { Answers result (profile_at level nodes initial voting_only place (parts_of line_feed bytes.now)) }
{
    let (line, rest) = cut_line(bytes);
    let Some(rest) = rest else {
        return read_with(
            alloc,
            level,
            nodes,
            initial,
            voting_only,
            false,
            place,
            bytes,
        );
    };
    if !is_named(level, b"profile", line) {
        return read_with(
            alloc,
            level,
            nodes,
            initial,
            voting_only,
            false,
            place,
            bytes,
        );
    }
    let second = match profile_line(place, line) {
        Ok(second) => second,
        Err(bad) => return Err(ReadError::Bad(bad)),
    };
    read_with(
        alloc,
        level,
        nodes,
        initial,
        voting_only,
        second,
        place.after(line),
        rest,
    )
}

// The header line of the voting-only nodes, where it is there, and what follows it.
#[tactic(auto, using(crate::proofs::Splitting::lines_are))]
fn read_voting_only(
    alloc: Global,
    level: Level,
    nodes: NodeSet,
    initial: NodeSet,
    place: Place,
    bytes: &[u8],
) -> Result<Schedule, ReadError<BadSchedule>>
    requires bytes { place.before + length bytes.now < 2 ^ 64 }
    requires number { place.number ≤ most_lines }
    ensures { Answers result (voting_only_at level nodes initial place (parts_of line_feed bytes.now)) }
{
    let (line, rest) = cut_line(bytes);
    let Some(rest) = rest else {
        return read_profile(alloc, level, nodes, initial, NodeSet::new(), place, bytes);
    };
    if !is_named(level, b"voting-only", line) {
        return read_profile(alloc, level, nodes, initial, NodeSet::new(), place, bytes);
    }
    let voting_only = match voting_only_line(&nodes, place, line) {
        Ok(voting_only) => voting_only,
        Err(bad) => return Err(ReadError::Bad(bad)),
    };
    read_profile(
        alloc,
        level,
        nodes,
        initial,
        voting_only,
        place.after(line),
        rest,
    )
}

// The lines after the header's first one.
#[tactic(auto, using(crate::proofs::Splitting::lines_are))]
fn read_rest(
    alloc: Global,
    level: Level,
    nodes: NodeSet,
    place: Place,
    bytes: &[u8],
) -> Result<Schedule, ReadError<BadSchedule>>
    requires bytes { place.before + length bytes.now < 2 ^ 64 }
    requires number { place.number < most_lines }
    ensures { Answers result (initial_at level nodes place (parts_of line_feed bytes.now)) }
{
    let (line, rest) = cut_line(bytes);
    let Some(rest) = rest else {
        return Err(ReadError::Bad(no_second(place, line)));
    };
    let initial = match second_line(&nodes, place, line) {
        Ok(initial) => initial,
        Err(bad) => return Err(ReadError::Bad(bad)),
    };
    // The match changes nothing: the proof goes by its two cases.
    match read_voting_only(alloc, level, nodes, initial, place.after(line), rest) {
        Ok(schedule) => Ok(schedule),
        Err(fault) => Err(fault),
    }
}

fn no_second(place: Place, line: &[u8]) -> BadSchedule
    requires { place.before + length line.now < 2 ^ 64 }
    ensures { no_initial {A = Unit {0}} place line.now ≡ Err result }
{
    if line.is_empty() {
        return place.bad(WhyBad::Header);
    }
    place.bad(place.why_cut(line))
}

// Has the exact answer in its contract. `read_schedule` only calls it, and says from it what callers need.
#[tactic(auto, using(crate::proofs::Splitting::lines_are))]
fn read_exact(alloc: Global, level: Level, bytes: &[u8]) -> Result<Schedule, ReadError<BadSchedule>>
    ensures { Answers result (schedule_at level bytes.now) }
{
    let place = Place::first();
    let (line, rest) = cut_line(bytes);
    let Some(rest) = rest else {
        if let Err(bad) = check_end(place, line) {
            return Err(ReadError::Bad(bad));
        }
        return Ok(Schedule {
            nodes: NodeSet::new(),
            initial: NodeSet::new(),
            voting_only: NodeSet::new(),
            second: false,
            lines: Lines::of(Vec::new(alloc)),
        });
    };
    let nodes = match first_line(place, line) {
        Ok(nodes) => nodes,
        Err(bad) => return Err(ReadError::Bad(bad)),
    };
    // The match changes nothing: the proof goes by its two cases.
    match read_rest(alloc, level, nodes, place.after(line), rest) {
        Ok(schedule) => Ok(schedule),
        Err(fault) => Err(fault),
    }
}

/// The schedule of this level that the bytes spell, or the first bad line and why it is bad. `Memory` may come for any
/// bytes.
pub fn read_schedule(
    alloc: Global,
    bytes: &[u8],
    level: Level,
) -> Result<Schedule, ReadError<BadSchedule>>
    // What is read is spelled so.
    ensures found { IfOk result (λ s. Spells level bytes.now s) }
    // What is spelled so is read, unless memory runs out.
    ensures only { (s : Schedule) → Spells level bytes.now s → Answers result (Ok s) }
    // Which fault it is, where there is one. `law_first_bad_line` says which line it names.
    ensures fault { Faulted result (fault_of level bytes.now) }
{
    // The match changes nothing: the proof goes by its two cases.
    match read_exact(alloc, level, bytes) {
        Ok(read) => Ok(read),
        Err(fault) => Err(fault),
    }
}
