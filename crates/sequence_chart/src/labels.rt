//! The words at a lifeline.
ghost use Rattle.std.specs.Prelude.{◌≡◌, ◌++◌, OnOk, IfOk};
ghost use Rattle.sequence_chart.specs.Labels.{fields as fields_of, without_node as without_node_of, label_words, label_of};

use crate::words::{before, behind, short_words, write_capped};
use std::alloc::{AllocError, Global};
use text::Text;
use trace_reader::{Said, TraceLine};

/// How many bytes of a label are shown at most.
pub const MAX_LABEL: usize = 46;

/// What stands after the second word of a line.
pub fn fields(line: &[u8]) -> &[u8]
    ensures { result.now ≡ fields_of line.now }
{
    behind(behind(line, b' '), b' ')
}

fn without_node(text: &mut Text, line: &[u8]) -> Result<(), AllocError>
    ensures { OnOk result (text.new ≡ text.old ++ without_node_of line.now) }
{
    text.bytes(before(line, b' '))?;
    text.word(" ")?;
    text.bytes(fields(line))
}

fn write_words(text: &mut Text, line: &[u8], said: &Said) -> Result<(), AllocError>
    ensures { OnOk result (text.new ≡ text.old ++ label_words line.now said.now) }
{
    match said {
        Said::Delivery(_, _) => Ok(()),
        Said::Event(_) => Ok(()),
        Said::Sent(_, _) => Ok(()),
        Said::Act(_, _) => short_words(text, fields(line)),
        Said::Mode(_, _, _) => text.bytes(fields(line)),
        Said::Committed(_) => short_words(text, line),
        Said::Won(_, _) => without_node(text, line),
        Said::Opened(_) => without_node(text, line),
        Said::Dropped(_) => without_node(text, line),
        Said::Replied(_) => without_node(text, line),
        _ => text.bytes(before(line, b' ')),
    }
}

/// What the lifeline of its node shows of a line.
pub fn label(alloc: Global, line: &TraceLine) -> Result<Text, AllocError>
    ensures { IfOk result (λ t. t ≡ label_of line.now) }
{
    let mut words = Text::new(alloc);
    write_words(&mut words, line.text.as_slice(), &line.said)?;
    let mut label = Text::new(alloc);
    write_capped(&mut label, MAX_LABEL, words.as_bytes())?;
    Ok(label)
}
