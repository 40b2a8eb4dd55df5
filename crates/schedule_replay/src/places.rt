//! Where a listed node stands.
ghost use Rattle.std.specs.Prelude.{◌≡◌, true, slice_get, Some};
ghost use Rattle.voting_config.specs.Ids.{has};

use voting_config::NodeId;

/// Where a listed id stands among the ids.
#[inline(always)]
pub fn place_of(ids: &[NodeId], n: NodeId) -> usize
    requires { has n ids.now ≡ true }
    ensures { slice_get ids.now result ≡ Some n }
{
    for (i, id) in ids.iter().enumerate() {
        if *id == n {
            return i;
        }
    }
    unreachable!()
}
