//! Schedules that are drawn at random.
use rand_core::utils::NextWord;
use rand_pcg::Pcg32;
use schedule_text::MAX_ORDINAL;
use std::alloc::AllocError;
use text::Text;

// In the order of a list.
const NODES: [&str; 5] = ["0", "a", "b-2", "node-of-thirty-two-bytes-0123456", "z9"];

const TEXTS: [&str; 3] = ["x", "a-value", "0123456789abcdefghijklmnopqrstuv"];

const DIGITS: [u8; 16] = *b"0123456789abcdef";

// Which of the nodes are in a list.
type Listed = [bool; 5];

fn node(draws: &mut Pcg32) -> &'static str {
    NODES[(draws.next_word() % 5) as usize]
}

// Small numbers are drawn most, since terms and versions that meet show most.
fn number(draws: &mut Pcg32) -> u64 {
    match draws.next_word() % 32 {
        0 => u64::MAX,
        1 => u64::from(draws.next_word()) << 32 | u64::from(draws.next_word()),
        _ => u64::from(1 + draws.next_word() % 4),
    }
}

// Of the messages that are likely to be sent before this line.
fn ordinal(draws: &mut Pcg32, place: u32) -> u64 {
    match draws.next_word() % 64 {
        0 => MAX_ORDINAL,
        _ => 1 + u64::from(draws.next_word() % (1 + place / 8)),
    }
}

// One node or more.
fn some_nodes(draws: &mut Pcg32) -> Listed {
    let mut some = [false; 5];
    some[(draws.next_word() % 5) as usize] = true;
    for place in 0..5 {
        if draws.next_word() % 2 == 0 {
            some[place] = true;
        }
    }
    some
}

fn write_words(text: &mut Text, words: &[&str]) -> Result<(), AllocError> {
    for word in words {
        text.word(word)?;
    }
    Ok(())
}

fn write_list(text: &mut Text, listed: Listed) -> Result<(), AllocError> {
    let mut before = "";
    for place in 0..5 {
        if listed[place] {
            write_words(text, &[before, NODES[place]])?;
            before = ",";
        }
    }
    Ok(())
}

fn write_torn(text: &mut Text, byte: u32) -> Result<(), AllocError> {
    text.word("torn:")?;
    text.byte(DIGITS[(byte / 16 % 16) as usize])?;
    text.byte(DIGITS[(byte % 16) as usize])
}

fn write_way(text: &mut Text, draws: &mut Pcg32) -> Result<(), AllocError> {
    match draws.next_word() % 4 {
        0 => text.word("none"),
        1 => text.word("all"),
        2 => write_torn(text, 1),
        _ => write_torn(text, draws.next_word()),
    }
}

fn write_value(
    text: &mut Text,
    draws: &mut Pcg32,
    leader: &str,
    initial: Listed,
) -> Result<(), AllocError> {
    let setting = TEXTS[(draws.next_word() % 3) as usize];
    let config = match draws.next_word() % 4 {
        0 => some_nodes(draws),
        _ => initial,
    };
    write_words(text, &["value ", leader, " "])?;
    text.number(number(draws))?;
    write_words(text, &[" ", setting, " "])?;
    write_list(text, config)
}

// The line at this place. In each forty lines one of the first two nodes is the likely candidate of a new term.
fn write_line(
    text: &mut Text,
    draws: &mut Pcg32,
    initial: Listed,
    place: u32,
) -> Result<(), AllocError> {
    let round = place / 40;
    let id = node(draws);
    let leader = NODES[(round % 2) as usize];
    match draws.next_word() % 64 {
        0 => write_words(text, &["boot ", id]),
        1 | 2 => {
            write_words(text, &["startjoin ", id, " ", node(draws), " "])?;
            text.number(number(draws))
        }
        3..=14 => {
            write_words(text, &["startjoin ", id, " ", leader, " "])?;
            text.number(u64::from(1 + round))
        }
        15 => {
            write_words(text, &["crash ", id, " "])?;
            write_way(text, draws)
        }
        16..=24 => write_words(text, &["restart ", id]),
        25 => {
            write_words(text, &["fuse ", id, " "])?;
            text.number_and(u64::from(1 + draws.next_word() % 12), b' ')?;
            write_way(text, draws)
        }
        26 => {
            write_words(text, &["fail ", id, " "])?;
            text.number(u64::from(1 + draws.next_word() % 12))
        }
        27..=32 => write_value(text, draws, leader, initial),
        _ => {
            let to = match draws.next_word() % 2 {
                0 => leader,
                _ => id,
            };
            write_words(text, &["deliver ", to, " "])?;
            text.number(ordinal(draws, place))
        }
    }
}

/// Writes a schedule of 200 lines over five nodes, drawn from this seed. In the first five each node boots.
pub fn write_schedule(text: &mut Text, seed: u64) -> Result<(), AllocError> {
    let mut draws = Pcg32::new(seed, 1);
    let initial = some_nodes(&mut draws);
    text.word("nodes ")?;
    write_list(text, [true; 5])?;
    text.word("\ninitial ")?;
    write_list(text, initial)?;
    for node in NODES {
        write_words(text, &["\nboot ", node])?;
    }
    for place in 5..200 {
        text.word("\n")?;
        write_line(text, &mut draws, initial, place)?;
    }
    text.word("\n")
}
