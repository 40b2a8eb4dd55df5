//! The laws can be called: nothing else of them runs.
use system_laws::*;

// A law is an empty function: its contract says it all, and the call shows that it can be called.
#[test]
fn the_laws_can_be_called() {
    law_sends_its_messages();
    law_takes_what_came();
    law_bootstraps_first_voters();
    law_any_interleaving();
    law_lives_assemble();
    law_system_is_safe();
    law_any_order();
    law_last_run_is_kept();
    law_fault_is_settled();
    law_kill_leaves();
    law_restarted_lives_assemble();
    law_restarted_system_is_safe();
    law_restarted_lost();
    law_older_system_is_safe();
}
