//! What the parts of `zen` cost, each apart: rounds of large values over five nodes, terms over the journal of a folder, frames
//! out of bytes, and coordinators in memory, whose frames are handed over at once. The first word says which.
#![tactic(auto)]

mod cluster;
mod counts;
mod fault;
mod figures;
mod frames;
mod journals;
mod member;
mod scenes;
mod states;
mod world;

use cluster::run_values;
use fault::Fault;
use figures::Figures;
use frames::run_frames;
use journals::run_terms;
use scenes::{Round, run_growths, run_rounds};
use std::env;
use std::process::ExitCode;

const USAGE: &str =
    "usage: values SETTINGS ROUNDS | terms FOLDER COUNT | frames lend|make|write join|publish ROUNDS | ticks ROUNDS | checks ROUNDS | puts SETTINGS ROUNDS | growths; SETTINGS, ROUNDS and COUNT are numbers";

fn number(word: Option<&String>) -> Option<u64> {
    word?.as_str().parse::<u64>().ok()
}

// Runs what the words ask for.
fn measured(rt: &HostRuntime, words: &[String]) -> Result<Figures, Fault> {
    let Some((what, rest)) = words.split_first() else {
        return Err(Fault::Unexpected(USAGE));
    };
    let alloc = rt.alloc();
    match (
        what.as_str(),
        rest,
        number(rest.first()),
        number(rest.last()),
    ) {
        ("values", [_, _], Some(settings), Some(rounds)) => run_values(alloc, settings, rounds),
        ("terms", [folder, _], _, Some(count)) => run_terms(rt, folder.as_str(), count),
        ("frames", [done, kind, _], _, Some(rounds)) => {
            run_frames(alloc, done.as_str(), kind.as_str(), rounds)
        }
        ("ticks", [_], _, Some(rounds)) => run_rounds(alloc, Round::FollowerTick, 3, 10, rounds),
        ("checks", [_], _, Some(rounds)) => run_rounds(alloc, Round::LeaderTick, 31, 10, rounds),
        ("puts", [_, _], Some(settings), Some(rounds)) => {
            run_rounds(alloc, Round::Put, 3, settings, rounds)
        }
        ("growths", [], _, _) => run_growths(alloc),
        _ => Err(Fault::Unexpected(USAGE)),
    }
}

// Runs what the words ask for, and prints its figures.
fn show(rt: &HostRuntime, words: &[String]) -> Result<(), Fault> {
    let figures = measured(rt, words)?;
    println!(rt; "{figures}")?;
    Ok(())
}

// Runs what the words after the program's name ask for.
fn run(rt: &HostRuntime) -> Result<(), Fault> {
    let mut words = Vec::new(rt.alloc());
    for word in env::args(rt)?.skip(1) {
        words.push(word)?;
    }
    show(rt, words.as_slice())
}

fn main(rt: HostRuntime) -> ExitCode {
    let (text, status) = match run(&rt) {
        Ok(()) => return ExitCode::from(0),
        Err(Fault::Memory) => ("no memory outside a step", 4),
        Err(Fault::Unexpected(text)) => (text, 1),
    };
    // The status says it too, and tells want of memory outside an event from all other faults.
    let _ = eprintln!(rt; "{text}");
    ExitCode::from(status)
}
