//! The audit of recorded traces: whether what nodes did is a legal history, and else which line is the first that is not.
#![tactic(auto)]

mod auditing;
mod auditor;
mod clause;
mod contents;
mod notes;
mod printing;
mod reporting;
mod requests;
mod running;
mod sent;
mod sent_by;
mod verdict;

pub use auditing::audit;
pub use clause::Clause;
pub use printing::{write_bad_trace, write_verdict};
pub use recorded_trace::{BadTrace, MAX_BYTES, Why};
pub use reporting::{Finding, Report, audit_report};
pub use running::{AuditEnd, run_audit};
pub use verdict::{Verdict, Winner, Winners};
