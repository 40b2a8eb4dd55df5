//! The spans of the checks, in milliseconds, under the names of Elasticsearch's settings.

/// `cluster.fault_detection.follower_check.interval` and `leader_check.interval`, in ms: how long after an answer or a
/// failure the next check comes. 1 s by default (Elasticsearch reference 7.x, Discovery and cluster formation
/// settings).
pub const CHECK_INTERVAL_MS: u64 = 1_000;

/// `cluster.fault_detection.follower_check.timeout` and `leader_check.timeout`, in ms: how long an answer may take.
/// 10 s by default (Elasticsearch reference 7.x, Discovery and cluster formation settings).
pub const CHECK_TIMEOUT_MS: u64 = 10_000;

/// `cluster.fault_detection.follower_check.retry_count` and `leader_check.retry_count`: how many failures in a row are
/// too many. 3 by default (Elasticsearch reference 7.x, Discovery and cluster formation settings).
pub const CHECK_RETRY_COUNT: u64 = 3;

/// `cluster.follower_lag.timeout`, in ms: how long a follower may be behind a finished state. 90 s by default
/// (Elasticsearch reference 7.x, Discovery and cluster formation settings).
pub const FOLLOWER_LAG_TIMEOUT_MS: u64 = 90_000;
