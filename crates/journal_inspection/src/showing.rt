//! The journal on a disk opened and shown.
ghost use Rattle.std.specs.Prelude.{◌≤◌};
ghost use Rattle.cluster_state.specs.States.{IsFit};
ghost use Rattle.journal_inspection.specs.Shows.{Shows, OnlyOpens, IsUnhurt, Reports, Refuses};

use crate::report::{write_not_a_journal, write_report};
use cluster_state::Kept;
use state_journal::{Keeper, OpenError, StateJournal, Why};
use std::alloc::Global;
use text::Text;
use zen_disk::Disks;

/// What is shown of the journal on a disk.
#[derive(Drop)]
pub enum Shown {
    /// The seven lines of what it keeps.
    Report(Text),
    /// The line that says why the files are no journal.
    NotAJournal(Text),
    /// The disk failed, and its count of faults rose.
    Disk,
    /// Memory ran out.
    Memory,
}

fn report_of(alloc: Global, kept: &Kept, records: u64) -> Shown
    requires { IsFit kept.now.accepted }
    ensures { Reports kept.now records result }
{
    let mut text = Text::new(alloc);
    match write_report(alloc, &mut text, kept, records) {
        Ok(()) => Shown::Report(text),
        Err(_) => Shown::Memory,
    }
}

fn refusal(alloc: Global, why: Why) -> Shown
    ensures { Refuses why result }
{
    let mut text = Text::new(alloc);
    match write_not_a_journal(&mut text, why) {
        Ok(()) => Shown::NotAJournal(text),
        Err(_) => Shown::Memory,
    }
}

/// Opens the journal on a disk, which makes the header of each file that has at most nine bytes, and shows what it keeps, or
/// why the files are no journal. The disk is handed back.
pub fn show<D: Disks + Drop>(alloc: Global, disk: D) -> (D, Shown)
    ensures shows { Shows D.Disks disk result.0 result.1 }
    ensures later { D.faults disk ≤ D.faults result.0 }

    // After a crash at any moment an opening finds what it might have found before, whatever is shown.
    ensures any_moment { D.told → IsUnhurt D.Disks disk result.0 }
    ensures calls { D.told → OnlyOpens D.Disks disk result.0 result.1 }
{
    match StateJournal::open(alloc, disk) {
        Ok(journal) => {
            let shown = report_of(alloc, journal.kept(), journal.records());
            (journal.into_disk(), shown)
        }
        Err(OpenError::NotAJournal(why, disk)) => (disk, refusal(alloc, why)),
        Err(OpenError::Disk(disk)) => (disk, Shown::Disk),
        Err(OpenError::Memory(disk)) => (disk, Shown::Memory),
    }
}
