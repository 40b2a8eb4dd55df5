//! The members of the next state, as far as there is room.
ghost use Rattle.std.specs.Prelude.{◌≡◌};
ghost use Rattle.master_tasks.specs.Members.{joined};

use voting_config::{NodeId, NodeSet};

/// Puts the ids in as far as there is room, the node itself first.
pub fn join(me: NodeId, additions: &NodeSet, members: &mut NodeSet)
    ensures { members.new ≡ joined me additions.now members.old }
{
    if additions.contains(me) {
        members.put_if_room(me);
    }
    let ids = additions.as_slice();
    for id in ids {
        members.put_if_room(*id);
    }
}
