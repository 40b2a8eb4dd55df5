//! The laws can be called: nothing else of them runs.
use client_guarantees::*;

// A law is an empty function: its contract says it all, and the call shows that it can be called.
#[test]
fn the_laws_can_be_called() {
    law_last_replies_are_true();
    law_replies_are_true();
    law_restarted_replies_are_true();
    law_processed_came();
    law_next_meets_each();
    law_last_setting_stands();
    law_excluded_stay_out();
    law_answers_are_published_after_they_came();
    law_answers_follow_time();
    law_restarted_answers_are_published_after_they_came();
    law_restarted_answers_follow_time();
}
