//! The laws can be called, and listed peers keep their order.
use master_tasks::Policy;
use policy_model::*;
use std::test::*;
use voting_config::{NodeId, NodeSet};

fn id(text: &str) -> NodeId {
    NodeId::parse(text).unwrap_or_default()
}

const LISTED: &[&str] = &["b", "a", "b"];

#[test]
fn listed_peers_keep_their_order(rt: HostRuntime) {
    let mut ids = Vec::new(rt.alloc());
    for text in LISTED {
        assert!(rt; ids.push(id(text)).is_ok());
    }
    let settings = Settings {
        me: id("c"),
        peers: NodeIds::of(ids),
        initial: NodeSet::new(),
        voting_only: NodeSet::new(),
        policy: Policy {
            shrink: true,
            second: false,
        },
    };
    assert!(rt; settings.peers.as_slice() == [id("b"), id("a"), id("b")].as_slice());
}

// A law is an empty function: its contract says it all, and the call shows that it can be called.
#[test]
fn the_laws_can_be_called() {
    law_life_is_local();
    law_event_moves();
    law_opening_moves();
    law_first_profile();
    law_no_voting_only();
    law_parts_look_back();
    law_queue();
    law_determined();
    law_opened_is_fit();
    law_stays_fit();
    law_event_holds_settings(&Event::Start);
    law_event_is_short();
    law_struck_is_short();
    law_answers_few();
    law_sends_few();
    law_opened_is_small();
    law_event_holds_set(&Event::Start);
}
