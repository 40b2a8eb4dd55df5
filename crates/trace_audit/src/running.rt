//! The audit of an input.
ghost use Rattle.std.specs.Prelude.{◌≡◌};
ghost use Rattle.trace_audit.specs.Reports.{end_of as end_of_finding};
ghost use Rattle.trace_audit.specs.Runs.{Audited};

use crate::reporting::{Finding, audit_report};
use recorded_trace::MAX_BYTES;
use std::alloc::Global;
use zen_link::{InputError, Sink, Source, read_input, write_all};

/// How the audit of an input ends.
#[derive(Clone, Copy, Debug, PartialEq, Eq)]
pub enum AuditEnd {
    /// The entries are a legal history.
    Legal,
    /// An entry is not legal.
    NotLegal,
    /// The input is no recorded trace.
    BadTrace,
    /// Memory ran out.
    NoMemory,
    /// The input failed: its count of faults rose.
    ReadFault,
    /// The output failed: its count of faults rose.
    WriteFault,
}

fn end_of(finding: Finding) -> AuditEnd
    ensures { result ≡ end_of_finding finding }
{
    match finding {
        Finding::Legal => AuditEnd::Legal,
        Finding::NotLegal => AuditEnd::NotLegal,
        Finding::BadTrace => AuditEnd::BadTrace,
    }
}

/// Reads a recorded trace, at most one byte more than it may have, and writes the verdict or the first bad line.
pub fn run_audit<I: Source, S: Sink>(alloc: Global, input: &mut I, out: &mut S) -> AuditEnd
    ensures { Audited (I.left input.old) (I.left input.new) (I.faults input.old) (I.faults input.new) (S.written out.old)
        (S.written out.new) (S.faults out.old) (S.faults out.new) result }
{
    let bytes = match read_input(alloc, input, MAX_BYTES + 1) {
        Ok(bytes) => bytes,
        Err(InputError::Read) => return AuditEnd::ReadFault,
        Err(InputError::Memory) => return AuditEnd::NoMemory,
    };
    let Ok(report) = audit_report(alloc, bytes.as_slice()) else {
        return AuditEnd::NoMemory;
    };
    let Ok(()) = write_all(out, report.text.as_bytes()) else {
        return AuditEnd::WriteFault;
    };
    end_of(report.finding)
}
