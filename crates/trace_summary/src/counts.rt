//! The lines of a trace counted by their kinds.
ghost use Rattle.std.specs.Prelude.{◌≡◌, ◌+◌, ◌&&◌, [], IfOk, codes, nat_eq, if◌then◌else◌};
ghost use Rattle.std.specs.List.{starts_with};
ghost use Rattle.std.specs.Str.{bytes_eq};
ghost use Rattle.trace_summary.specs.Counted.{after_lines, lines_of, no_counts, with_line, word_at};

use std::alloc::AllocError;
use voting_config::cut;

/// How many lines of each kind a trace has.
#[derive(Clone, Copy, Debug, PartialEq, Eq)]
pub struct Counts {
    /// Lines of the schedule.
    pub steps: u64,
    /// Acts.
    pub acts: u64,
    /// Acts that were refused.
    pub refused: u64,
    /// Elections that were won.
    pub won: u64,
    /// States that were committed.
    pub committed: u64,
    /// Crashes of a node, between two acts, in an act, or as it opened its journal.
    pub crashes: u64,
}

// The first word of a line.
fn first_word(line: &[u8]) -> &[u8]
    ensures { result.now ≡ word_at 0 line.now }
{
    cut(line, b' ').0
}

// The third word of a line, and nothing where it has fewer.
fn third_word(line: &[u8]) -> &[u8]
    ensures { result.now ≡ word_at 2 line.now }
{
    let (_, Some(rest)) = cut(line, b' ') else {
        return &[];
    };
    let (_, Some(rest)) = cut(rest, b' ') else {
        return &[];
    };
    cut(rest, b' ').0
}

// How the act of a line ended, and nothing where the line is no act: other lines are long, and not looked through.
fn ending(line: &[u8], is_act: bool) -> &[u8]
    ensures { result.now ≡ (if is_act then word_at 2 line.now else []) }
{
    if is_act { third_word(line) } else { &[] }
}

// Whether a line with this first word echoes a line of the schedule.
fn is_step(word: &[u8]) -> bool
    ensures { result ≡ bytes_eq word.now (codes ">") }
{
    word == b">".as_slice()
}

fn is_act(word: &[u8]) -> bool
    ensures { result ≡ bytes_eq word.now (codes "act") }
{
    word == b"act".as_slice()
}

fn is_won(word: &[u8]) -> bool
    ensures { result ≡ bytes_eq word.now (codes "won") }
{
    word == b"won".as_slice()
}

fn is_committed(word: &[u8]) -> bool
    ensures { result ≡ bytes_eq word.now (codes "committed") }
{
    word == b"committed".as_slice()
}

fn is_refused(is_act: bool, ending: &[u8]) -> bool
    ensures { result ≡ (is_act && starts_with nat_eq ending.now (codes "refused:")) }
{
    is_act && ending.starts_with(b"refused:")
}

fn is_crash(is_act: bool, word: &[u8], ending: &[u8]) -> bool
    ensures { result ≡ (if is_act then bytes_eq ending.now (codes "crashed") else bytes_eq word.now (codes "crashed")) }
{
    if is_act {
        return ending == b"crashed".as_slice();
    }
    word == b"crashed".as_slice()
}

// One more where there is one. A count of 2^64 finds no room.
fn count(number: u64, found: bool) -> Result<u64, AllocError>
    ensures { IfOk result (λ n. n ≡ number + (if found then 1 else 0)) }
{
    if !found {
        return Ok(number);
    }
    match number.checked_add(1) {
        Some(more) => Ok(more),
        None => Err(AllocError),
    }
}

impl Counts {
    /// The counts of nothing.
    pub fn new() -> Counts
        ensures { result ≡ no_counts }
    {
        Counts {
            steps: 0,
            acts: 0,
            refused: 0,
            won: 0,
            committed: 0,
            crashes: 0,
        }
    }

    // The counts with this line, whose words are looked up once.
    fn with(self, line: &[u8]) -> Result<Counts, AllocError>
        ensures { IfOk result (λ c. c ≡ with_line self line.now) }
    {
        let word = first_word(line);
        let is_act = is_act(word);
        let ending = ending(line, is_act);
        Ok(Counts {
            steps: count(self.steps, is_step(word))?,
            acts: count(self.acts, is_act)?,
            refused: count(self.refused, is_refused(is_act, ending))?,
            won: count(self.won, is_won(word))?,
            committed: count(self.committed, is_committed(word))?,
            crashes: count(self.crashes, is_crash(is_act, word, ending))?,
        })
    }

    /// The counts with the lines of a text.
    pub fn with_lines(self, text: &[u8]) -> Result<Counts, AllocError>
        ensures { IfOk result (λ c. c ≡ after_lines self (lines_of text.now)) }
    {
        let mut counts = self;
        let (mut line, mut rest) = cut(text, b'\n');
        while let Some(more) = rest {
            let next = cut(more, b'\n');
            counts = counts.with(line)?;
            line = next.0;
            rest = next.1;
        }
        counts.with(line)
    }
}
