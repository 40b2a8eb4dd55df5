//! Why there is no rescue, and the lines of one, as text.
ghost use Rattle.std.specs.Prelude.{◌≡◌, ◌++◌, OnOk, map};
ghost use Rattle.schedule_text.specs.Lines.{line_text};
ghost use Rattle.schedule_text.specs.Spelled.{with_feeds};
ghost use Rattle.zen_app.specs.RescueText.{no_rescue_line, share_text, refused_text, why_text};

use crate::refusals::NoRescue;
use rescue_plan::RescueRefused;
use schedule_text::{Line, write_line};
use std::alloc::AllocError;
use text::Text;

fn write_share(text: &mut Text, share: (usize, usize)) -> Result<(), AllocError>
    ensures { OnOk result (text.new ≡ text.old ++ share_text share) }
{
    text.number_and(share.0 as u64, b'/')?;
    text.number(share.1 as u64)
}

fn write_refused(text: &mut Text, why: &RescueRefused) -> Result<(), AllocError>
    ensures { OnOk result (text.new ≡ text.old ++ refused_text why.now) }
{
    match why {
        RescueRefused::NoQuorum {
            committed,
            accepted,
        } => {
            text.word("NoQuorum(")?;
            write_share(text, *committed)?;
            text.word(",")?;
            write_share(text, *accepted)?;
            text.word(")")
        }
        RescueRefused::Exhausted { term, version } => {
            text.word("Exhausted(")?;
            text.number_and(*term, b',')?;
            text.number_and(*version, b')')
        }
    }
}

fn write_why(text: &mut Text, why: &NoRescue) -> Result<(), AllocError>
    ensures { OnOk result (text.new ≡ text.old ++ why_text why.now) }
{
    match why {
        NoRescue::NotUp(id) => {
            text.word("NotUp(")?;
            text.id_and(id, b')')
        }
        NoRescue::Armed(id) => {
            text.word("Armed(")?;
            text.id_and(id, b')')
        }
        NoRescue::NoPlan(why) => write_refused(text, why),
        NoRescue::Full => text.word("Full"),
    }
}

/// Writes why there is no rescue, as `zen: no rescue: NotUp(a)` with a line feed.
pub fn write_no_rescue(text: &mut Text, why: &NoRescue) -> Result<(), AllocError>
    ensures { OnOk result (text.new ≡ text.old ++ no_rescue_line why.now) }
{
    text.word("zen: no rescue: ")?;
    write_why(text, why)?;
    text.word("\n")
}

/// Writes lines of a schedule, each with its line feed.
pub fn write_lines(text: &mut Text, lines: &[Line]) -> Result<(), AllocError>
    ensures { OnOk result (text.new ≡ text.old ++ with_feeds (map (λ l. line_text l) lines.now)) }
{
    for line in lines {
        write_line(text, line)?;
        text.word("\n")?;
    }
    Ok(())
}
