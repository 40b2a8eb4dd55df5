//! The words read as a command, or as none.
ghost use Rattle.std.specs.Prelude.{◌≡◌, ◌↔◌, IsTrue, codes, map, string_bytes};
ghost use Rattle.std.specs.List.{list_all};
ghost use Rattle.clap.specs.Words.{first_value, found_of, kind_of, subcommand_rows_of};
ghost use Rattle.command_line.specs.Answers.{Gives};
ghost use Rattle.command_line.specs.Commands.{level_of, replay_of, inspect_of, link_of, voting_only_of, profile_of, second_of, history_level_of, history_of, turns_of, node_of, steps_of, generate_of, port_of, trial_of, rescue_of, unsafe_bootstrap_of, detach_cluster_of, command_by, command_of, entered_command, Parses, is_fair as fair};

use crate::lists::{initial, peers, up};
use crate::shape::program;
use crate::values::{address, id_at, is_set, needed, number, number_at, number_within, text};
use crate::{
    HistoryLevel, LinkWords, MAX_PORT, MAX_STEPS, NodeWords, ProgramCommand, TrialWords, WordsError,
};
use clap::error::ErrorKind;
use clap::{ArgMatches, Error};
use schedule_text::Level;
use std::alloc::Global;
use voting_config::NodeSet;
use zen_link::LinkSettings;

fn level(text: &str) -> Option<Level>
    ensures { result ≡ level_of text.now }
{
    if text == "core" {
        Some(Level::Core)
    } else if text == "node" {
        Some(Level::Node)
    } else {
        None
    }
}

fn read_replay(matches: &ArgMatches<'_>) -> Result<ProgramCommand, WordsError>
    ensures { Gives result (replay_of (first_value (found_of matches.now))) }
{
    match level(needed(matches, "level")?) {
        Some(level) => Ok(ProgramCommand::Replay(level)),
        None => Err(WordsError::Usage),
    }
}

fn read_inspect(alloc: Global, matches: &ArgMatches<'_>) -> Result<ProgramCommand, WordsError>
    ensures { Gives result (inspect_of (first_value (found_of matches.now))) }
{
    let dir = text(alloc, matches, "dir")?;
    Ok(ProgramCommand::Inspect(dir))
}

fn read_link(alloc: Global, matches: &ArgMatches<'_>) -> Result<LinkWords, WordsError>
    ensures { Gives result (link_of (first_value (found_of matches.now))) }
{
    let me = id_at(matches, "id")?;
    let listen = needed(matches, "listen")?;
    let Some(listen) = address(listen) else {
        return Err(WordsError::Usage);
    };
    let peers = peers(alloc, needed(matches, "peers")?)?;
    let listen = String::from_str(alloc, listen)?;
    Ok(LinkWords::of(LinkSettings { me, listen, peers }))
}

// The voting-only nodes: none where the option is not given.
fn read_voting_only(alloc: Global, matches: &ArgMatches<'_>) -> Result<NodeSet, WordsError>
    ensures { Gives result (voting_only_of (first_value (found_of matches.now))) }
{
    if matches.get_str("voting-only").is_none() {
        return Ok(NodeSet::new());
    }
    initial(alloc, needed(matches, "voting-only")?)
}

// Whether the profile of this number is the second.
fn profile(text: &str) -> Option<bool>
    ensures { result ≡ profile_of text.now }
{
    if text == "1" {
        Some(false)
    } else if text == "2" {
        Some(true)
    } else {
        None
    }
}

// Whether the profile of the policy is the second: it is where the option is not given.
fn read_second(matches: &ArgMatches<'_>) -> Result<bool, WordsError>
    ensures { Gives result (second_of (first_value (found_of matches.now))) }
{
    if matches.get_str("profile").is_none() {
        return Ok(true);
    }
    match profile(needed(matches, "profile")?) {
        Some(second) => Ok(second),
        None => Err(WordsError::Usage),
    }
}

fn history_level(text: &str) -> Option<HistoryLevel>
    ensures { result ≡ history_level_of text.now }
{
    if text == "all" {
        Some(HistoryLevel::All)
    } else if text == "acts" {
        Some(HistoryLevel::Acts)
    } else if text == "none" {
        Some(HistoryLevel::Nothing)
    } else {
        None
    }
}

// How much of its life the node writes: all where the option is not given.
fn read_history(matches: &ArgMatches<'_>) -> Result<HistoryLevel, WordsError>
    ensures { Gives result (history_of (first_value (found_of matches.now))) }
{
    if matches.get_str("history").is_none() {
        return Ok(HistoryLevel::All);
    }
    match history_level(needed(matches, "history")?) {
        Some(level) => Ok(level),
        None => Err(WordsError::Usage),
    }
}

// After how many inputs the node ends: `all` stands for the greatest number.
fn turns(text: &str) -> Option<u64>
    ensures { result ≡ turns_of text.now }
{
    if text == "all" {
        return Some(u64::MAX);
    }
    number(text)
}

fn read_node(alloc: Global, matches: &ArgMatches<'_>) -> Result<ProgramCommand, WordsError>
    ensures { Gives result (node_of (first_value (found_of matches.now))) }
{
    let initial = initial(alloc, needed(matches, "initial")?)?;
    let voting_only = read_voting_only(alloc, matches)?;
    let second = read_second(matches)?;
    let Some(turns) = turns(needed(matches, "turns")?) else {
        return Err(WordsError::Usage);
    };
    let history = read_history(matches)?;
    let link = read_link(alloc, matches)?;
    let dir = text(alloc, matches, "dir")?;
    Ok(ProgramCommand::Node(NodeWords {
        link,
        dir,
        initial,
        voting_only,
        shrink: !is_set(matches, "no-shrink"),
        second,
        turns,
        history,
    }))
}

fn steps(text: &str) -> Option<u64>
    ensures { result ≡ steps_of text.now }
{
    number_within(text, 0, MAX_STEPS)
}

fn read_generate(matches: &ArgMatches<'_>) -> Result<ProgramCommand, WordsError>
    ensures { Gives result (generate_of (first_value (found_of matches.now))) }
{
    let number = number_at(matches, "number")?;
    match steps(needed(matches, "steps")?) {
        Some(steps) => Ok(ProgramCommand::Generate { number, steps }),
        None => Err(WordsError::Usage),
    }
}

fn port(text: &str) -> Option<u64>
    ensures { result ≡ port_of text.now }
{
    number_within(text, 1, MAX_PORT)
}

fn read_trial(alloc: Global, matches: &ArgMatches<'_>) -> Result<ProgramCommand, WordsError>
    ensures { Gives result (trial_of (first_value (found_of matches.now))) }
{
    let Some(port) = port(needed(matches, "port")?) else {
        return Err(WordsError::Usage);
    };
    let turns = number_at(matches, "turns")?;
    let program = text(alloc, matches, "program")?;
    let dir = text(alloc, matches, "dir")?;
    Ok(ProgramCommand::Trial(TrialWords {
        program,
        dir,
        port,
        turns,
    }))
}

fn read_rescue(alloc: Global, matches: &ArgMatches<'_>) -> Result<ProgramCommand, WordsError>
    ensures { Gives result (rescue_of (first_value (found_of matches.now))) }
{
    let up = up(alloc, needed(matches, "up")?)?;
    Ok(ProgramCommand::Rescue(up))
}

fn read_unsafe_bootstrap(
    alloc: Global,
    matches: &ArgMatches<'_>,
) -> Result<ProgramCommand, WordsError>
    ensures { Gives result (unsafe_bootstrap_of (first_value (found_of matches.now))) }
{
    let id = id_at(matches, "id")?;
    let dir = text(alloc, matches, "dir")?;
    Ok(ProgramCommand::UnsafeBootstrap { id, dir })
}

fn read_detach_cluster(
    alloc: Global,
    matches: &ArgMatches<'_>,
) -> Result<ProgramCommand, WordsError>
    ensures { Gives result (detach_cluster_of (first_value (found_of matches.now))) }
{
    let dir = text(alloc, matches, "dir")?;
    Ok(ProgramCommand::DetachCluster(dir))
}

fn by_name(
    alloc: Global,
    name: &str,
    matches: &ArgMatches<'_>,
) -> Result<ProgramCommand, WordsError>
    ensures { Gives result (command_by name.now (first_value (found_of matches.now))) }
{
    if name == "replay" {
        read_replay(matches)
    } else if name == "inspect" {
        read_inspect(alloc, matches)
    } else if name == "node" {
        read_node(alloc, matches)
    } else if name == "generate" {
        read_generate(matches)
    } else if name == "trial" {
        read_trial(alloc, matches)
    } else if name == "rescue" {
        read_rescue(alloc, matches)
    } else if name == "unsafe-bootstrap" {
        read_unsafe_bootstrap(alloc, matches)
    } else if name == "detach-cluster" {
        read_detach_cluster(alloc, matches)
    } else if name == "audit" {
        Ok(ProgramCommand::Audit)
    } else {
        Err(WordsError::Usage)
    }
}

// The command that clap found.
fn enter(alloc: Global, matches: &ArgMatches<'_>) -> Result<ProgramCommand, WordsError>
    ensures { Gives result (entered_command (subcommand_rows_of matches.now)) }
{
    match matches.subcommand() {
        Some((name, matches)) => by_name(alloc, name, matches),
        None => Err(WordsError::Usage),
    }
}

// Whether the word is neither one or two hyphens alone nor begins with one hyphen only: no other is given to clap.
fn is_fair(word: &str) -> bool
    ensures { result ≡ fair word.now }
{
    let word = word.as_bytes();
    if word.is_empty() || word[0] != b'-' {
        return true;
    }
    word.len() > 2 && word[1] == b'-'
}

fn are_fair(words: &[String]) -> bool
    ensures { result ≡ list_all (λ w. fair (string_bytes w)) words.now }
{
    for word in words {
        if !is_fair(word.as_str()) {
            return false;
        }
    }
    true
}

fn is_memory(e: &Error) -> bool
    ensures { IsTrue result ↔ (kind_of e.now ≡ ErrorKind.OutOfMemory) }
{
    matches!(e.kind(), ErrorKind::OutOfMemory)
}

fn parse<'a>(alloc: Global, words: &'a [String]) -> Result<ArgMatches<'a>, WordsError>
    ensures { Parses result (map string_bytes words.entry.now) }
{
    let Ok(command) = program(alloc) else {
        return Err(WordsError::Memory);
    };
    match command.try_get_matches_from(words) {
        Ok(matches) => Ok(matches),
        Err(e) if is_memory(&e) => Err(WordsError::Memory),
        Err(_) => Err(WordsError::Usage),
    }
}

/// The command that the words are. `Usage` exactly where they are none, `Memory` only where memory ran out.
pub fn read_words(alloc: Global, words: &[String]) -> Result<ProgramCommand, WordsError>
    ensures { Gives result (command_of (map string_bytes words.now)) }
{
    if !are_fair(words) {
        return Err(WordsError::Usage);
    }
    let matches = parse(alloc, words)?;
    enter(alloc, &matches)
}
