//! A verdict as text, and the line that says why a text is no recorded trace.
ghost use Rattle.std.specs.Prelude.{◌≡◌, ◌++◌, OnOk, codes};
ghost use Rattle.std.specs.List.{flat_map};
ghost use Rattle.trace_audit.specs.Printed.{clause_text, why_text, named_text, won_line, counts_text, line_text, verdict_text, bad_line};

use crate::clause::Clause;
use crate::verdict::{Verdict, Winner};
use recorded_trace::{BadTrace, Why};
use std::alloc::AllocError;
use text::Text;
use trace_text::write_won;

impl Clause {
    /// Its name.
    pub fn name(self) -> &'static str
        ensures { result.now ≡ clause_text self }
    {
        match self {
            Clause::Opening => "Opening",
            Clause::Bootstrap => "Bootstrap",
            Clause::Unsent => "Unsent",
            Clause::Outcome => "Outcome",
        }
    }
}

fn why_name(why: Why) -> &'static str
    ensures { result.now ≡ why_text why }
{
    match why {
        Why::TooBig => "TooBig",
        Why::NoNewline => "NoNewline",
        Why::Header => "Header",
        Why::Word => "Word",
        Why::Shape => "Shape",
    }
}

fn write_named(text: &mut Text, name: &str, number: usize) -> Result<(), AllocError>
    ensures { OnOk result (text.new ≡ text.old ++ named_text name.now number) }
{
    text.word(name)?;
    text.word("=")?;
    text.number(number as u64)?;
    text.word("\n")
}

fn write_counts(
    text: &mut Text,
    entries: usize,
    winners: usize,
    committed: usize,
) -> Result<(), AllocError>
    ensures { OnOk result (text.new ≡ text.old ++ counts_text entries winners committed) }
{
    write_named(text, "legal", entries)?;
    write_named(text, "winners", winners)?;
    write_named(text, "committed", committed)
}

fn write_winners(text: &mut Text, winners: &[Winner]) -> Result<(), AllocError>
    ensures { OnOk result (text.new ≡ text.old ++ flat_map won_line winners.now) }
{
    for winner in winners {
        write_won(text, true, winner.node, winner.term)?;
    }
    Ok(())
}

fn write_line(text: &mut Text, line: usize, why: &str) -> Result<(), AllocError>
    ensures { OnOk result (text.new ≡ text.old ++ line_text line why.now) }
{
    text.number(line as u64)?;
    text.word(": ")?;
    text.word(why)?;
    text.word("\n")
}

fn write_broken(text: &mut Text, line: usize, clause: Clause) -> Result<(), AllocError>
    ensures { OnOk result (text.new ≡ text.old ++ (codes "zen: line " ++ line_text line (clause_text clause))) }
{
    text.word("zen: line ")?;
    write_line(text, line, clause.name())
}

/// Writes a verdict: of a legal trace its numbers and a line for each winner, else the line that is not legal and the clause that it
/// breaks.
pub fn write_verdict(text: &mut Text, verdict: &Verdict) -> Result<(), AllocError>
    ensures { OnOk result (text.new ≡ text.old ++ verdict_text verdict.now) }
{
    match verdict {
        Verdict::Legal {
            entries,
            winners,
            committed,
        } => {
            let winners = winners.as_slice();
            write_counts(text, *entries, winners.len(), *committed)?;
            write_winners(text, winners)
        }
        Verdict::NotLegal { line, clause } => write_broken(text, *line, *clause),
    }
}

fn write_bad_line(text: &mut Text, line: usize, why: Why) -> Result<(), AllocError>
    ensures { OnOk result (text.new ≡ text.old ++ (codes "zen: bad trace at line " ++ line_text line (why_text why))) }
{
    text.word("zen: bad trace at line ")?;
    write_line(text, line, why_name(why))
}

/// Writes which line of a recorded trace is bad and why, as `zen: bad trace at line 3: Word` with a line feed.
pub fn write_bad_trace(text: &mut Text, bad: &BadTrace) -> Result<(), AllocError>
    ensures { OnOk result (text.new ≡ text.old ++ bad_line bad.now) }
{
    write_bad_line(text, bad.line, bad.why)
}
