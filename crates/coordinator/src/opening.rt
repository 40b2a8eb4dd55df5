//! A node that was just opened.
ghost use Rattle.std.specs.Prelude.{◌≡◌, ℕ, false};
ghost use Rattle.zen_disk.specs.Moments.{Same};
ghost use Rattle.world_model.specs.declared.acts.Act.TheVariants.{Open};
ghost use Rattle.world_model.specs.Histories.{ContinuesUnlessFirst};
ghost use Rattle.policy_model.specs.Entries.{Life, Opened, log_of};
ghost use Rattle.policy_model.specs.Bounds.{IsSmallView};
ghost use Rattle.policy_model.specs.Events.{acts_of};
ghost use Rattle.policy_model.specs.Fitting.{IsFitView};
ghost use Rattle.policy_model.specs.Moves.{opened};
ghost use Rattle.coordinator.specs.Lives.{StandsForLife};
ghost use Rattle.coordinator.specs.Views.{view_in, IsReady};

use crate::coordinator::Coordinator;
use cluster_state::StateId;
use coord_state::CoordState;
use fault_checks::FollowerChecks;
use master_tasks::MasterTasks;
use peer_finder::PeerFinder;
use policy_model::{Mode, Settings};
use state_journal::{ArmKeeper, Keeper};
use std::alloc::Global;
use zen_disk::Order;

impl<K: Keeper> Coordinator<K> {
    /// A node over what keeps its record and has not met a fault. Its first event is the start, which comes once.
    pub fn open(alloc: Global, settings: Settings, keeper: K) -> Coordinator<K>
        requires { K.has_stopped keeper ≡ false }
        ensures settings { result.settings ≡ settings }
        ensures keeper { result.core.keeper ≡ keeper }
        ensures view { view_in K.Keeper result ≡ opened settings (K.record_of keeper) }
        ensures ready { IsReady result }

        // A keeper holds nothing but what is within the limits, so the node is within them, whatever its life.
        ensures fit { IsFitView (view_in K.Keeper result) }

        // Its sets are as small as sets in memory are.
        ensures small { IsSmallView (view_in K.Keeper result) }

        // Whatever its life before, it stands for that life with this opening, where the record is what was kept.
        ensures stands { (life : Life) → ContinuesUnlessFirst (acts_of (log_of life)) (Open (K.record_of keeper))
            → StandsForLife K.Keeper result (Opened life (K.record_of keeper)) }
    {
        let value = &keeper.kept().accepted.value;
        // For the proof alone: settings ascend by key, and a set has at most `MAX_IDS` ids.
        let _ = value.settings.texts();
        let _ = value.members.len();
        let me = settings.me;
        Coordinator {
            core: CoordState::new(me, keeper),
            settings,
            mode: Mode::Candidate,
            leader_term: 0,
            moment: 0,
            led_from: 0,
            finder: PeerFinder::new(me),
            deadline: None,
            lost_leader: false,
            attempt: 0,
            round: None,
            publication: None,
            applied: StateId {
                term: 0,
                version: 0,
            },
            followers: FollowerChecks::new(),
            leader_check: None,
            tasks: MasterTasks::new(alloc),
            handover_due: 0,
        }
    }

    /// What keeps the node's record.
    pub fn keeper(&self) -> &K
        ensures { result.now ≡ self.now.core.keeper }
    {
        self.core.keeper()
    }

    /// What kept the node's record, given up by the node.
    pub fn into_keeper(self) -> K
        ensures { result ≡ self.core.keeper }
    {
        let Coordinator { core, .. } = self;
        core.into_keeper()
    }
}

impl<K: ArmKeeper> Coordinator<K> {
    /// Takes an order for the disk that the record is kept on, in place of an earlier one of its kind.
    pub fn arm(&mut self, order: Order)
        ensures rest { self.new ≡ record self.old { core = self.new.core } }
        ensures view { view_in K.Keeper self.new ≡ view_in K.Keeper self.old }
        ensures me { self.new.core.me ≡ self.old.core.me }
        ensures moment { K.Keeper.moment self.new.core.keeper ≡ K.Keeper.moment self.old.core.keeper }
        ensures left_since { (t : ℕ) → Same (K.Keeper.left_since self.old.core.keeper t) (K.Keeper.left_since self.new.core.keeper t) }
        ensures arms { K.arms self.old.core.keeper order self.new.core.keeper }
    {
        self.core.arm(order);
    }
}
