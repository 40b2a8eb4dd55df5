//! The checks of the leader by a follower of it.
ghost use Rattle.std.specs.Prelude.{◌≡◌};

use crate::checking::{self, Check};
use std::marker::Model;
use voting_config::NodeId;

/// What a follower does about its leader at a tick.
#[derive(Clone, Copy, Debug, PartialEq, Eq)]
pub enum LeaderTick {
    /// Nothing.
    Quiet,
    /// A check is due: send it.
    Ask,
    /// Too many checks in a row have failed.
    Lost,
}

/// The checks of the leader by a follower of it, seen as what the calls so far make of them.
#[derive(Drop)]
pub struct LeaderCheck {
    leader: NodeId,
    check: Check,
}

impl Model for LeaderCheck {
    ghost use Rattle.fault_checks.specs.Leaders.{LeaderCheck as LeaderCheckOf};

    ghost Value = { LeaderCheckOf };

    ghost view = { λ c. record { leader = c.leader; check = c.check } };
}

impl LeaderCheck {
    ghost use Rattle.fault_checks.specs.Leaders.{
      LeaderCalls,
      LeaderStarted,
      LeaderThen,
      LeaderAnswered,
      LeaderTicked,
      StandsForLeader,
      after_leader,
      leader_tick,
    };

    /// The checks of this leader begin now, in ms: the first is due [`crate::CHECK_INTERVAL_MS`] from now.
    pub fn start(leader: NodeId, now: u64) -> LeaderCheck
        ensures { StandsForLeader result (LeaderStarted leader now) }
    {
        LeaderCheck {
            leader,
            check: checking::unchecked(now),
        }
    }

    /// The leader answers now, in ms, yes where `good` and else no. With no check outstanding it does nothing.
    pub fn answer(&mut self, good: bool, now: u64)
        ensures now { self.new ≡ after_leader self.old (LeaderAnswered good now) }
        ensures calls { (calls : LeaderCalls) → StandsForLeader self.old calls
            → StandsForLeader self.new (LeaderThen calls (LeaderAnswered good now)) }
    {
        self.check = checking::answered_at(self.check, good, now);
    }

    /// What to do about the leader now, in ms: `Lost` exactly where the last [`crate::CHECK_RETRY_COUNT`] checks have
    /// failed, and from then on. Else `Ask` exactly where no check is outstanding and [`crate::CHECK_INTERVAL_MS`] have
    /// gone by since the last answer, failure or the start. A check that has had no answer for
    /// [`crate::CHECK_TIMEOUT_MS`] fails at this tick.
    pub fn tick(&mut self, now: u64) -> LeaderTick
        ensures tick { result ≡ leader_tick self.old now }
        ensures now { self.new ≡ after_leader self.old (LeaderTicked now) }
        ensures calls { (calls : LeaderCalls) → StandsForLeader self.old calls
            → StandsForLeader self.new (LeaderThen calls (LeaderTicked now)) }
    {
        let check = self.check;
        self.check = checking::ticked_at(check, now);
        if checking::fails(check, now) {
            LeaderTick::Lost
        } else if checking::asks(check, now) {
            LeaderTick::Ask
        } else {
            LeaderTick::Quiet
        }
    }

    /// The leader that is checked.
    pub fn leader(&self) -> NodeId
        ensures { result ≡ self.now.leader }
    {
        self.leader
    }
}
