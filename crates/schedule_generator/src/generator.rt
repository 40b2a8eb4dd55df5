//! `Generator`: the lines of a number's schedule, one after the other.
ghost use Rattle.std.specs.Prelude.{◌≡◌, ◌+◌, ◌<◌, ◌^◌, ℕ, [], IfOk};
ghost use Rattle.schedule_generator.specs.Draws.{after_draw, draw_of, seeded};
ghost use Rattle.schedule_generator.specs.Generated.{generated_from, line_at};
ghost use Rattle.schedule_generator.specs.Standing.{StandsBefore};

use crate::drawing::{Draw, drawn_line, node, nodes};
use rand_core::SeedableRng;
use rand_core::utils::NextWord;
use rand_pcg::Lcg64Xsh32;
use schedule_text::{Line, Lines, Schedule};
use std::alloc::{AllocError, Global};
use voting_config::NodeSet;

/// How many steps a generated schedule has at most.
pub const MAX_STEPS: u64 = 100000;

/// What gives the lines of a number's schedules, one after the other.
#[derive(Drop)]
pub struct Generator {
    words: Lcg64Xsh32,
    step: u64,
}

fn draw(words: &mut Lcg64Xsh32) -> Draw
    ensures drawn { result ≡ draw_of words.old }
    ensures rest { words.new ≡ after_draw words.old }
{
    let first = words.next_word();
    let second = words.next_word();
    let third = words.next_word();
    Draw {
        first,
        second,
        third,
    }
}

impl Generator {
    /// Before the first line of the number's schedules.
    pub fn new(number: u64) -> Generator
        ensures { StandsBefore result number 0 }
    {
        Generator {
            words: Lcg64Xsh32::seed_from_u64(number),
            step: 0,
        }
    }

    /// The next line, where so many messages were sent in the lines before it. Where it is an error, memory has run out, and
    /// that line is passed over.
    pub fn line(&mut self, alloc: Global, sent: u64) -> Result<Line, AllocError>
        requires room { self.old.step + 1 < 2 ^ 64 }
        ensures line { (number step : ℕ) → StandsBefore self.old number step → IfOk result (λ l. l ≡ line_at number step sent) }
        ensures rest { (number step : ℕ) → StandsBefore self.old number step → StandsBefore self.new number (step + 1) }
    {
        let step = self.step;
        self.step = step + 1;
        if step < 3 {
            return Ok(Line::Boot(node(step)));
        }
        let draw = draw(&mut self.words);
        drawn_line(alloc, step, sent, draw)
    }
}

/// The schedule of no lines: its four nodes, three of which are initial.
pub fn empty_schedule(alloc: Global) -> Schedule
    ensures { result ≡ generated_from [] }
{
    Schedule {
        nodes: nodes(b"a,b,c,d"),
        initial: nodes(b"a,b,c"),
        voting_only: NodeSet::new(),
        second: false,
        lines: Lines::of(Vec::new(alloc)),
    }
}
