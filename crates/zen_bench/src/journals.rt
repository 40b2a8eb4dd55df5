//! Journals: empty ones in memory, and that of a folder, over which terms are set one by one.
ghost use Rattle.std.specs.Prelude.{◌≡◌, false, IfOk};

use crate::fault::{Fault, expected};
use crate::figures::Figures;
use host_io::FileDisks;
use state_journal::{Keeper, StateJournal};
use std::alloc::Global;
use zen_disk::{Disks, MemDisks};

/// A journal on a disk in memory.
pub type MemJournal = StateJournal<MemDisks>;

// The greatest term.
const LAST: u64 = 1 << 62;

/// An empty journal on a disk in memory.
pub fn empty_journal(alloc: Global) -> Result<MemJournal, Fault>
    ensures { IfOk result (λ journal. ⟦<MemJournal as Keeper>⟧.has_stopped journal ≡ false) }
{
    let disk = MemDisks::new(alloc, Vec::new(alloc), Vec::new(alloc), Vec::new(alloc));
    expected(StateJournal::open(alloc, disk), "no journal")
}

// Sets so many terms after the one that the journal keeps, and says what it keeps then.
fn set_terms<D: Disks + Drop>(journal: &mut StateJournal<D>, count: u64) -> Result<Figures, Fault> {
    for _ in 0..count {
        let term = journal.kept().term;
        if term >= LAST {
            return Err(Fault::Unexpected("no term is left"));
        }
        expected(journal.set_term(term + 1), "the disk failed")?;
    }
    Ok(Figures::Kept {
        term: journal.kept().term,
        records: journal.records(),
    })
}

/// Opens the journal of a folder, sets so many terms after the one that it keeps, and says what it keeps then.
pub fn run_terms(rt: &HostRuntime, folder: &str, count: u64) -> Result<Figures, Fault> {
    let disk = expected(FileDisks::open(rt, folder), "no folder")?;
    match StateJournal::open(rt.alloc(), disk) {
        Ok(journal) => {
            let mut journal = journal;
            set_terms(&mut journal, count)
        }
        Err(_) => Err(Fault::Unexpected("no journal")),
    }
}
