//! Which nodes are to be the voters, as nodes come and go.
#![tactic(auto)]

ghost use Rattle.std.specs.Prelude.{◌≡◌, ◌||◌, ◌+◌, ◌-◌, ◌<◌, ◌≤◌, [], ◌∷◌, length, take, IsTrue, if◌then◌else◌};
ghost use Rattle.voting_config.specs.Ids.{among, are_among, has, most_ids, set_of, union};
ghost use Rattle.reconfigurator.specs.Targets.{candidates_of, chosen_of, least_size as least_size_of, odd_of, size_of, target_of};

use voting_config::{IdList, JoinVotes, NodeId, NodeSet, VotingConfig};

/// The voting configuration that a master aims at, from the `live` nodes, those that are `excluded` from voting, the
/// `master` itself and the configuration of today.
///
/// Candidates are the nodes that are live or voters of today and are not excluded. The master comes first, then live
/// voters, then other live nodes, then voters that are not live, each by id. The first ones are taken: as many as there
/// are live nodes that are not excluded, less one where that number is even, since an even number of voters tolerates
/// no more failures than one less. At least 3 are taken if there are that many candidates, or 1 where the configuration
/// has fewer than 3 members; where `shrink` is false, at least as many as there are voters of today that are not
/// excluded. Where the live nodes are no quorum of those taken, the configuration stays as it is. (Elasticsearch
/// reference 7.x, Voting configurations; `shrink` is `cluster.auto_shrink_voting_configuration`.)
pub fn target(
    live: &NodeSet,
    excluded: &IdList,
    master: NodeId,
    config: &IdList,
    shrink: bool,
) -> VotingConfig
    ensures { result ≡ target_of live.now excluded.now master config.now shrink }
{
    let chosen = VotingConfig::of(&chosen(live, excluded, master, config, shrink));
    if chosen.is_quorum(live) {
        chosen
    } else {
        VotingConfig::of_list(config)
    }
}

/// Whether it is plain that the configuration stays as it is, as most often: the members are the voters of today, all of them voted for the
/// master, which is one of them, none is excluded, and as many are taken. No set is made. Where it is false, [`target`] tells, of the
/// members that voted as the live nodes.
pub fn stays(
    members: &IdList,
    votes: &JoinVotes,
    excluded: &IdList,
    master: NodeId,
    config: &IdList,
    shrink: bool,
) -> bool
    ensures { IsTrue result → target_of (among members.now votes.now) excluded.now master config.now shrink ≡ config.now }
{
    if !members.is_same(config) {
        return false;
    }
    if !have_voted(config, votes) {
        return false;
    }
    if !config.contains(master) {
        return false;
    }
    if config.meets(excluded) {
        return false;
    }
    // For the proof alone: the ids ascend.
    let _ = config.as_slice();
    let count = config.len();
    count <= size(count, count, count, shrink)
}

// Whether each of the ids is among the votes.
fn have_voted(ids: &IdList, votes: &JoinVotes) -> bool
    ensures { result ≡ are_among votes.now ids.now }
{
    ids.as_slice().iter().all(|id| votes.contains(*id))
}

// The best candidates.
fn chosen(
    live: &NodeSet,
    excluded: &IdList,
    master: NodeId,
    config: &IdList,
    shrink: bool,
) -> NodeSet
    ensures { result ≡ chosen_of live.now excluded.now master config.now shrink }
{
    let members = config.len();
    let excluded = excluded.to_set();
    let allowed = live.without(&excluded);
    let voters = config.without(&excluded);
    let size = size(allowed.len(), members, voters.len(), shrink);
    first_candidates(&allowed, &voters, master, size)
}

// How many candidates are taken, if there are as many.
fn size(live: usize, members: usize, voters: usize, shrink: bool) -> usize
    requires live { live ≤ most_ids }
    requires voters { voters ≤ most_ids }
    ensures value { result ≡ size_of live members voters shrink }
    ensures fits { result ≤ most_ids }
{
    odd(live).max(least_size(members, voters, shrink))
}

// The number, made odd by one less.
fn odd(count: usize) -> usize
    ensures value { result ≡ odd_of count }
    ensures no_more { result ≤ count }
{
    if count % 2 == 0 {
        count.saturating_sub(1)
    } else {
        count
    }
}

// How many voters there are at least.
fn least_size(members: usize, voters: usize, shrink: bool) -> usize
    requires { voters ≤ most_ids }
    ensures value { result ≡ least_size_of members voters shrink }
    ensures fits { result ≤ most_ids }
{
    if !shrink {
        voters
    } else if members < 3 {
        1
    } else {
        3
    }
}

// The best of those that may vote, so many at most.
fn first_candidates(live: &NodeSet, voters: &NodeSet, master: NodeId, count: usize) -> NodeSet
    requires { count ≤ most_ids }
    ensures { result ≡ set_of (take count (candidates_of live.now voters.now master)) }
{
    let leader = only(master);
    let others = live.without(&leader);
    let other_voters = voters.without(&leader);
    let mut taken = NodeSet::new();
    let first = master_first(live, voters, master);
    let room = take_first(&mut taken, count, &first);
    let room = take_first(&mut taken, room, &others.within(&other_voters));
    let room = take_first(&mut taken, room, &others.without(&other_voters));
    take_first(&mut taken, room, &other_voters.without(&others));
    taken
}

// Puts in the first of the ids, so many at most. Answers how many more may come.
fn take_first(taken: &mut NodeSet, room: usize, ids: &NodeSet) -> usize
    requires { length taken.old + room ≤ most_ids }
    ensures taken { taken.new ≡ union taken.old (take room ids.now) }
    ensures left { result ≡ room - length ids.now }
    ensures fits { length taken.new + result ≤ most_ids }
{
    for id in prefix(ids.as_slice(), room) {
        taken.put(*id);
    }
    room.saturating_sub(ids.len())
}

// The master, where it may vote.
fn master_first(live: &NodeSet, voters: &NodeSet, master: NodeId) -> NodeSet
    ensures { result ≡ (if has master live.now || has master voters.now then master ∷ [] else []) }
{
    if live.contains(master) || voters.contains(master) {
        only(master)
    } else {
        NodeSet::new()
    }
}

// The set of one id.
fn only(id: NodeId) -> NodeSet
    ensures { result ≡ id ∷ [] }
{
    let mut ids = NodeSet::new();
    ids.push(id);
    ids
}

// The first of the ids, as many as there are.
fn prefix(ids: &[NodeId], count: usize) -> &[NodeId]
    ensures value { result.now ≡ take count ids.now }
    ensures fits { length result.now ≤ count }
{
    if count < ids.len() {
        &ids[..count]
    } else {
        ids
    }
}
