//! The checks of one node by another: when the next is due, and what an answer or a failure makes of them.
ghost use Rattle.std.specs.Prelude.{◌≡◌};
ghost use Rattle.fault_checks.specs.Checks.{unchecked as unchecked_of, failed_at as failed_at_of, answered_at as answered_at_of, is_overdue as is_overdue_of, timed_out_at as timed_out_at_of, has_failed as has_failed_of, is_due as is_due_of, fails as fails_of, asks as asks_of, ticked_at as ticked_at_of};

use crate::spans::{CHECK_INTERVAL_MS, CHECK_RETRY_COUNT, CHECK_TIMEOUT_MS};
use election_clock::has_passed;

/// The checks of one node, one after the other.
#[derive(Clone, Copy, Default)]
pub struct Check {
    /// The moment of the last answer or failure, or of the start, in ms.
    pub since: u64,
    /// The moment of the check that is outstanding, in ms.
    pub asked: Option<u64>,
    /// The failures in a row, counted to [`CHECK_RETRY_COUNT`].
    pub failures: u64,
}

pub(crate) fn unchecked(now: u64) -> Check
    ensures { result ≡ unchecked_of now }
{
    Check {
        since: now,
        asked: None,
        failures: 0,
    }
}

fn failed_at(check: Check, now: u64) -> Check
    ensures { result ≡ failed_at_of check now }
{
    Check {
        since: now,
        asked: None,
        failures: check.failures.saturating_add(1).min(CHECK_RETRY_COUNT),
    }
}

pub(crate) fn answered_at(check: Check, good: bool, now: u64) -> Check
    ensures { result ≡ answered_at_of check good now }
{
    if check.asked.is_none() {
        check
    } else if good {
        unchecked(now)
    } else {
        failed_at(check, now)
    }
}

fn is_overdue(asked: Option<u64>, now: u64) -> bool
    ensures { result ≡ is_overdue_of asked now }
{
    match asked {
        None => false,
        Some(asked) => has_passed(asked, CHECK_TIMEOUT_MS, now),
    }
}

fn timed_out_at(check: Check, now: u64) -> Check
    ensures { result ≡ timed_out_at_of check now }
{
    if is_overdue(check.asked, now) {
        failed_at(check, now)
    } else {
        check
    }
}

fn has_failed(check: Check) -> bool
    ensures { result ≡ has_failed_of check }
{
    CHECK_RETRY_COUNT <= check.failures
}

fn is_due(check: Check, now: u64) -> bool
    ensures { result ≡ is_due_of check now }
{
    check.asked.is_none() && has_passed(check.since, CHECK_INTERVAL_MS, now)
}

pub(crate) fn fails(check: Check, now: u64) -> bool
    ensures { result ≡ fails_of check now }
{
    has_failed(timed_out_at(check, now))
}

pub(crate) fn asks(check: Check, now: u64) -> bool
    ensures { result ≡ asks_of check now }
{
    !fails(check, now) && is_due(timed_out_at(check, now), now)
}

pub(crate) fn ticked_at(check: Check, now: u64) -> Check
    ensures { result ≡ ticked_at_of check now }
{
    let timed_out = timed_out_at(check, now);
    if asks(check, now) {
        Check {
            since: timed_out.since,
            asked: Some(now),
            failures: timed_out.failures,
        }
    } else {
        timed_out
    }
}
