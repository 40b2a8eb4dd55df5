//! The waits of the first attempts at an election, by number. The bounds were worked out from the numbers of docs/policy.md: 100
//! ms more with each attempt, 10 s at most.
use election_clock::*;
use std::test::*;

// Attempts, random words and the delays that they make.
const DELAYS: &[(u64, u64, u64)] = &[
    (0, 12345, 46),
    (3, 12345, 346),
    (99, 12345, 2346),
    (200, 12345, 2346),
    (u64::MAX, 9999, 10000),
];

// Moments, later ones or earlier, and whether the first is reached.
const DUE: &[(u64, u64, bool)] = &[(8, 7, false), (8, 8, true), (8, 9, true)];

// Moments, spans, what the time is, and whether the span has gone by.
const PASSED: &[(u64, u64, u64, bool)] = &[
    (5, 3, 4, false),
    (5, 3, 7, false),
    (5, 3, 8, true),
    (u64::MAX, 1, 9, false),
];

#[test]
fn delays_grow_with_the_attempts_up_to_ten_seconds(rt: HostRuntime) {
    for (attempt, word, want) in DELAYS {
        assert!(rt; delay(*attempt, *word) == *want);
    }
    for (at, now, want) in DUE {
        assert!(rt; due(*at, *now) == *want);
    }
    for (since, span, now, want) in PASSED {
        assert!(rt; has_passed(*since, *span, *now) == *want);
    }
}
