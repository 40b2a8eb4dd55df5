//! A summary written as eight lines.
ghost use Rattle.std.specs.Prelude.{◌≡◌, ℕ, ◌++◌, codes, decimal, OnOk};
ghost use Rattle.trace_summary.specs.Printed.{counts_text, digest_text, hex_text, named_text, summary_text};

use crate::counts::Counts;
use crate::summary::Summary;
use std::alloc::{AllocError, Global};
use text::Text;

// A name, `=` and a number, with a line feed.
fn write_named(text: &mut Text, name: &str, number: u64) -> Result<(), AllocError>
    ensures { OnOk result (text.new ≡ text.old ++ named_text name.now number) }
{
    text.word(name)?;
    text.word("=")?;
    text.number(number)?;
    text.word("\n")
}

fn write_counts(text: &mut Text, counts: &Counts) -> Result<(), AllocError>
    ensures { OnOk result (text.new ≡ text.old ++ counts_text counts.now) }
{
    write_named(text, "steps", counts.steps)?;
    write_named(text, "acts", counts.acts)?;
    write_named(text, "refused", counts.refused)?;
    write_named(text, "won", counts.won)?;
    write_named(text, "committed", counts.committed)?;
    write_named(text, "crashes", counts.crashes)
}

#[tactic(auto, unfolding(crate::specs::Printed::hex_text))]
fn write_hex(alloc: Global, text: &mut Text, digest: &[u8; 32]) -> Result<(), AllocError>
    ensures { OnOk result (text.new ≡ text.old ++ hex_text digest.now) }
{
    let shown = hex::encode(alloc, digest.as_slice())?;
    text.word(shown.as_str())
}

fn write_digest(alloc: Global, text: &mut Text, digest: &[u8; 32]) -> Result<(), AllocError>
    ensures { OnOk result (text.new ≡ text.old ++ digest_text digest.now) }
{
    text.word("trace_sha256=")?;
    write_hex(alloc, text, digest)?;
    text.word("\n")
}

/// Writes a summary as eight lines, as `steps=3` with a line feed.
pub fn write_summary(alloc: Global, text: &mut Text, summary: &Summary) -> Result<(), AllocError>
    ensures { OnOk result (text.new ≡ text.old ++ summary_text summary.now) }
{
    write_counts(text, &summary.counts)?;
    write_named(text, "trace_bytes", summary.trace_bytes)?;
    write_digest(alloc, text, &summary.digest)
}
