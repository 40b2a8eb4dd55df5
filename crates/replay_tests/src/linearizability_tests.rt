//! The laws can be called: nothing else of them runs.
use linearizability::*;

// A law is an empty function: its contract says it all, and the call shows that it can be called.
#[test]
fn the_laws_can_be_called() {
    law_system_is_linearizable();
    law_restarted_system_is_linearizable();
}
