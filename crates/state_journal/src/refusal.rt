//! The error of two files that are no journal of changes.
ghost use Rattle.std.specs.Prelude.{◌≡◌};
ghost use Rattle.state_journal.specs.Journal.{fault_by, why_by};
ghost use Rattle.state_journal.specs.Opening.{error_by, handed_back};
ghost use Rattle.state_journal.specs.Reads.{refusal_of};

use crate::fold::FoundError;
use crate::{Fault, OpenError, Why};
use gate_log::LogError;

// The fault of a side.
fn fault_of(fault: gate_log::Fault) -> Fault
    ensures { result ≡ fault_by fault }
{
    match fault {
        gate_log::Fault::Header => Fault::Header,
        gate_log::Fault::Cut(at) => Fault::Cut(at),
        gate_log::Fault::Long(at) => Fault::Long(at),
        gate_log::Fault::Order(at) => Fault::Order(at),
    }
}

// The fault of two files that have no bodies.
fn why_of(why: gate_log::Why) -> Why
    ensures { result ≡ why_by why }
{
    match why {
        gate_log::Why::At(side, fault) => Why::At(side, fault_of(fault)),
        gate_log::Why::Twin => Why::Twin,
    }
}

// The answer where the journal is not opened.
pub(crate) fn refused<D>(error: LogError<D>) -> OpenError<D>
    ensures { result ≡ error_by error }
{
    match error {
        LogError::NotAJournal(why, disk) => OpenError::NotAJournal(why_of(why), disk),
        LogError::Disk(disk) => OpenError::Disk(disk),
        LogError::Memory(disk) => OpenError::Memory(disk),
    }
}

// The answer where the bodies make no record.
pub(crate) fn not_found<D>(error: FoundError, disk: D) -> OpenError<D>
    ensures is { result ≡ refusal_of error disk }
    ensures back { handed_back result ≡ disk }
{
    match error {
        FoundError::Memory => OpenError::Memory(disk),
        FoundError::Fault(why) => OpenError::NotAJournal(why, disk),
    }
}
