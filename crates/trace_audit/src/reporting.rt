//! The report on a recorded trace: what was found, and the text that says so.
ghost use Rattle.std.specs.Prelude.{◌≡◌, IfOk};
ghost use Rattle.recorded_trace.specs.Reading.{recording_of};
ghost use Rattle.trace_audit.specs.Reports.{finding_of as finding_of_verdict, report_of, bad_report, IsReport};

use crate::auditing::audit;
use crate::printing::{write_bad_trace, write_verdict};
use crate::verdict::Verdict;
use recorded_trace::BadTrace;
use schedule_text::ReadError;
use std::alloc::{AllocError, Global};
use text::Text;

/// What an audit finds.
#[derive(Clone, Copy, Debug, PartialEq, Eq)]
pub enum Finding {
    /// The entries are a legal history.
    Legal,
    /// An entry is not legal.
    NotLegal,
    /// The text is no recorded trace.
    BadTrace,
}

/// What was found, and the text that says so.
#[derive(Drop)]
pub struct Report {
    pub finding: Finding,
    pub text: Text,
}

fn finding_of(verdict: &Verdict) -> Finding
    ensures { result ≡ finding_of_verdict verdict.now }
{
    match verdict {
        Verdict::Legal { .. } => Finding::Legal,
        Verdict::NotLegal { .. } => Finding::NotLegal,
    }
}

fn verdict_report(alloc: Global, verdict: &Verdict) -> Result<Report, AllocError>
    ensures { IfOk result (λ r. r ≡ report_of verdict.now) }
{
    let mut text = Text::new(alloc);
    write_verdict(&mut text, verdict)?;
    Ok(Report {
        finding: finding_of(verdict),
        text,
    })
}

fn bad_trace_report(alloc: Global, bad: &BadTrace) -> Result<Report, AllocError>
    ensures { IfOk result (λ r. r ≡ bad_report bad.now) }
{
    let mut text = Text::new(alloc);
    write_bad_trace(&mut text, bad)?;
    Ok(Report {
        finding: Finding::BadTrace,
        text,
    })
}

/// The report on the trace that bytes record. An error is that memory ran out, which it may for any bytes.
pub fn audit_report(alloc: Global, bytes: &[u8]) -> Result<Report, AllocError>
    ensures { IfOk result (λ r. IsReport r (recording_of bytes.now)) }
{
    match audit(alloc, bytes) {
        Ok(verdict) => verdict_report(alloc, &verdict),
        Err(ReadError::Bad(bad)) => bad_trace_report(alloc, &bad),
        Err(ReadError::Memory) => Err(AllocError),
    }
}
