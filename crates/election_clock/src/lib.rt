//! When a node that has no master tries an election, and when a span has gone by. All spans and moments are
//! milliseconds.
#![tactic(auto)]

ghost use Rattle.std.specs.Prelude.{◌≡◌, ◌+◌, ◌≤◌};
ghost use Rattle.election_clock.specs.Delays.{delay_of, has_passed as has_passed_of, is_due, longest_of, max_timeout};

/// The longest wait before the first attempt: `cluster.election.initial_timeout` of the Elasticsearch reference 7.x,
/// Discovery and cluster formation settings, 100 ms.
pub const INITIAL_TIMEOUT_MS: u64 = 100;

/// By how much the longest wait grows with each attempt that failed: `cluster.election.back_off_time` of the
/// Elasticsearch reference 7.x, Discovery and cluster formation settings, 100 ms.
pub const BACK_OFF_TIME_MS: u64 = 100;

/// The longest wait of all: `cluster.election.max_timeout` of the Elasticsearch reference 7.x, Discovery and cluster
/// formation settings, 10 s.
pub const MAX_TIMEOUT_MS: u64 = 10_000;

/// How long an attempt may take before the next one is made: `cluster.election.duration` of the Elasticsearch
/// reference 7.x, Discovery and cluster formation settings, 500 ms.
pub const DURATION_MS: u64 = 500;

/// How many milliseconds to wait before an attempt, the first one being attempt 0: from 1 to the longest wait of the
/// attempt, picked by a random word. Waiting at random keeps nodes apart that would else take each other's votes.
pub fn delay(attempt: u64, word: u64) -> u64
    ensures value { result ≡ delay_of attempt word }
    ensures at_least_one { 1 ≤ result }
    ensures at_most { result ≤ max_timeout }
{
    1 + word % longest_wait(attempt)
}

// The longest wait of an attempt.
fn longest_wait(attempt: u64) -> u64
    ensures { result ≡ longest_of attempt }
{
    let grown = attempt.saturating_mul(BACK_OFF_TIME_MS);
    MAX_TIMEOUT_MS.min(INITIAL_TIMEOUT_MS.saturating_add(grown))
}

/// Whether the moment `at` is reached: true exactly from `at` on.
pub fn due(at: u64, now: u64) -> bool
    ensures { result ≡ is_due at now }
{
    now >= at
}

/// Whether a span has gone by since a moment: true exactly from `since + span` on.
pub fn has_passed(since: u64, span: u64, now: u64) -> bool
    ensures { result ≡ has_passed_of since span now }
{
    since <= now && span <= now - since
}
