//! A tool used on the journal of a disk.
ghost use Rattle.std.specs.Prelude.{◌≡◌, ◌≤◌, ◌++◌, false, OnOk};
ghost use Rattle.cluster_state.specs.States.{IsFit};
ghost use Rattle.state_journal.specs.Opening.{handed_back};
ghost use Rattle.node_tool.specs.Uses.{Uses, UsesOn, UsesOpened, WritesOn, LeavesOldOrNew, OnlyUses, Reports, Refuses, NamesError, NamesWhy, IsUnhurt, refusal_line};
ghost use Rattle.node_tool.specs.declared.error.ToolError.TheVariants as error;

use crate::{Tool, ToolError};
use cluster_state::Kept;
use journal_inspection::{write_not_a_journal, write_report};
use state_journal::{Keeper, OpenError, StateJournal, Why};
use std::alloc::{AllocError, Global};
use text::Text;
use zen_disk::Disks;

/// What a tool made of the journal on a disk.
#[derive(Drop)]
pub enum Tooled {
    /// The seven lines of the new record.
    Report(Text),
    /// The line that says why the record is refused.
    Refused(Text),
    /// The line that says why the files are no journal.
    NotAJournal(Text),
    /// The disk failed, and its count of faults rose.
    Disk,
    /// Memory ran out: for the tool, and nothing was written, or for the lines.
    Memory,
}

fn report_of(alloc: Global, kept: &Kept, records: u64) -> Tooled
    requires { IsFit kept.now.accepted }
    ensures { Reports kept.now records result }
{
    let mut text = Text::new(alloc);
    match write_report(alloc, &mut text, kept, records) {
        Ok(()) => Tooled::Report(text),
        Err(_) => Tooled::Memory,
    }
}

fn no_journal(alloc: Global, why: Why) -> Tooled
    ensures { NamesWhy why result }
{
    let mut text = Text::new(alloc);
    match write_not_a_journal(&mut text, why) {
        Ok(()) => Tooled::NotAJournal(text),
        Err(_) => Tooled::Memory,
    }
}

fn no_state(alloc: Global) -> Tooled
    ensures { Refuses error.NoState result }
{
    let mut text = Text::new(alloc);
    match text.word("zen: refused: NoState\n") {
        Ok(()) => Tooled::Refused(text),
        Err(_) => Tooled::Memory,
    }
}

// Writes that no version comes after this one, as `zen: refused: Exhausted(7)` with a line feed.
fn write_exhausted(text: &mut Text, version: u64) -> Result<(), AllocError>
    ensures { OnOk result (text.new ≡ text.old ++ refusal_line (error.Exhausted version)) }
{
    text.word("zen: refused: Exhausted(")?;
    text.number(version)?;
    text.word(")\n")
}

fn exhausted(alloc: Global, version: u64) -> Tooled
    ensures { Refuses (error.Exhausted version) result }
{
    let mut text = Text::new(alloc);
    match write_exhausted(&mut text, version) {
        Ok(()) => Tooled::Refused(text),
        Err(_) => Tooled::Memory,
    }
}

// Uses a tool on an opened journal.
fn use_on<D: Disks>(alloc: Global, tool: Tool, journal: &mut StateJournal<D>) -> Tooled
    requires { journal.old.log.stopped ≡ false }
    ensures uses { UsesOn D.Disks tool journal.old journal.new result }
    ensures writes { WritesOn D.Disks tool journal.old journal.new result }
    ensures later { D.faults journal.old.log.disk ≤ D.faults journal.new.log.disk }
    ensures any_moment { D.told → LeavesOldOrNew D.Disks tool journal.old journal.new }
{
    match tool.apply(alloc, journal) {
        Ok(()) => report_of(alloc, journal.kept(), journal.records()),
        Err(ToolError::NoState) => no_state(alloc),
        Err(ToolError::Exhausted(version)) => exhausted(alloc, version),
        Err(ToolError::Memory) => Tooled::Memory,
        // A journal that was just opened has not stopped.
        Err(ToolError::Stopped) => Tooled::Disk,
        Err(ToolError::Disk) => Tooled::Disk,
    }
}

// Uses a tool on an opened journal, and hands its disk out.
fn use_opened<D: Disks>(alloc: Global, tool: Tool, journal: StateJournal<D>) -> (D, Tooled)
    requires { journal.log.stopped ≡ false }
    ensures { UsesOpened D.Disks tool journal result.0 result.1 }
{
    let mut journal = journal;
    let tooled = use_on(alloc, tool, &mut journal);
    (journal.into_disk(), tooled)
}

// Hands a disk back whose journal was not opened, and says why where its files are none.
fn unopened<D: Disks>(alloc: Global, error: OpenError<D>) -> (D, Tooled)
    ensures back { result.0 ≡ handed_back error }
    ensures tells { NamesError error result.1 }
{
    match error {
        OpenError::NotAJournal(why, disk) => (disk, no_journal(alloc, why)),
        OpenError::Disk(disk) => (disk, Tooled::Disk),
        OpenError::Memory(disk) => (disk, Tooled::Memory),
    }
}

/// Opens the journal on a disk, which makes the header of each file that has at most nine bytes, and uses a tool on it. The disk
/// is handed back.
pub fn use_tool<D: Disks + Drop>(alloc: Global, tool: Tool, disk: D) -> (D, Tooled)
    ensures uses { Uses D.Disks tool disk result.0 result.1 }
    ensures later { D.faults disk ≤ D.faults result.0 }

    // After a crash at any moment an opening finds what it might have found before, or the new record.
    ensures any_moment { D.told → IsUnhurt D.Disks tool disk result.0 }
    ensures calls { D.told → OnlyUses D.Disks tool disk result.0 result.1 }
{
    match StateJournal::open(alloc, disk) {
        Ok(journal) => use_opened(alloc, tool, journal),
        Err(error) => unopened(alloc, error),
    }
}
