//! How the three nodes ended, as lines, and whether one of them has won.
ghost use Rattle.std.specs.Prelude.{◌≡◌, ◌++◌, OnOk};
ghost use Rattle.zen_host.specs.HostCalls.{told_end};
ghost use Rattle.node_trial.specs.Ends.{told_ends, is_win, has_won as has_won_of, has_passed as has_passed_of, have_passed as have_passed_of, one_has_won, child_line, won_line, text_of};

use crate::TrialNode;
use std::alloc::AllocError;
use text::Text;
use voting_config::cut;
use zen_host::Ended;

/// How the three nodes ended.
#[derive(Drop)]
pub struct TrialEnds {
    pub a: Ended,
    pub b: Ended,
    pub c: Ended,
}

// Whether the first word of a line is `won`.
fn is_win_line(line: &[u8]) -> bool
    ensures { result ≡ is_win line.now }
{
    let (word, _) = cut(line, b' ');
    word == b"won".as_slice()
}

/// Whether a line of this output has `won` as its first word.
pub fn has_won(output: &[u8]) -> bool
    ensures { result ≡ has_won_of output.now }
{
    let mut rest = Some(output);
    while let Some(bytes) = rest {
        let (line, others) = cut(bytes, b'\n');
        if is_win_line(line) {
            return true;
        }
        rest = others;
    }
    false
}

fn has_passed(ended: &Ended) -> bool
    ensures { result ≡ has_passed_of (told_end ended.now) }
{
    ended.status == 0 || ended.status == 11
}

/// Whether each node ended by itself, at a stop or after its turns.
pub fn have_passed(ends: &TrialEnds) -> bool
    ensures { result ≡ have_passed_of (told_ends ends.now) }
{
    has_passed(&ends.a) && has_passed(&ends.b) && has_passed(&ends.c)
}

fn write_child(text: &mut Text, node: TrialNode, ended: &Ended) -> Result<(), AllocError>
    ensures { OnOk result (text.new ≡ text.old ++ child_line node (told_end ended.now)) }
{
    text.word("child ")?;
    text.word(node.name())?;
    text.word(" status=")?;
    text.number(ended.status as u64)?;
    text.word("\n")
}

fn write_won(text: &mut Text, ends: &TrialEnds) -> Result<(), AllocError>
    ensures { OnOk result (text.new ≡ text.old ++ won_line (one_has_won (told_ends ends.now))) }
{
    let won = has_won(ends.a.output.as_slice())
        || has_won(ends.b.output.as_slice())
        || has_won(ends.c.output.as_slice());
    if won {
        text.word("won=yes\n")
    } else {
        text.word("won=no\n")
    }
}

/// Writes how each node ended, and whether one of them has won.
pub fn write_ends(text: &mut Text, ends: &TrialEnds) -> Result<(), AllocError>
    ensures { OnOk result (text.new ≡ text.old ++ text_of (told_ends ends.now)) }
{
    write_child(text, TrialNode::A, &ends.a)?;
    write_child(text, TrialNode::B, &ends.b)?;
    write_child(text, TrialNode::C, &ends.c)?;
    write_won(text, ends)
}
