//! A keeper in memory, which never fails.
ghost use Rattle.std.specs.Prelude.{◌≡◌, ◌≤◌, ⊤, false, true, refl, Some, IfOk};
ghost use Rattle.cluster_state.specs.Field.{last_number};
ghost use Rattle.cluster_state.specs.Initial.{empty_record};
ghost use Rattle.cluster_state.specs.States.{IsFit};
ghost use Rattle.state_journal.specs.Fit.{IsFit-prop};
ghost use Rattle.state_journal.specs.Changes.{changed};

use crate::{KeepError, Keeper, Ready};
use cluster_state::Kept;
use std::alloc::{AllocError, Global};

/// A keeper in memory, which never fails.
#[derive(Drop)]
pub struct PlainKeeper {
    kept: Kept,
    ghost bounded: { kept.term ≤ last_number },
    ghost fit: { IsFit kept.accepted } by { IsFit-prop kept.accepted },
    ghost older: { kept.accepted.term ≤ kept.term },
}

impl PlainKeeper {
    /// A keeper of the empty record.
    pub fn new(alloc: Global) -> Result<PlainKeeper, AllocError>
        ensures { IfOk result (λ keeper. keeper.kept ≡ empty_record) }
    {
        Ok(PlainKeeper {
            kept: Kept::empty(alloc)?,
        })
    }
}

impl Keeper for PlainKeeper {
    ghost told = { ⊤ };

    ghost record_of = { λ k. k.kept };

    ghost has_stopped = { λ _. false };

    ghost faults = { λ _. 0 };

    ghost moment = { λ _. 0 };

    ghost left_since = { λ k _ found. found ≡ Some k.kept };

    ghost writes = { λ j change k ok. (k.kept ≡ changed j.kept change) × (ok ≡ true) };

    ghost only_kept = { λ k found told running left. left };

    ghost may_stay = { λ k t told so_far running. refl };

    fn kept(&self) -> &Kept {
        &self.kept
    }

    fn stopped(&self) -> bool {
        false
    }

    fn set_term(&mut self, term: u64) -> Result<(), KeepError> {
        self.kept.term = term;
        Ok(())
    }

    fn set_accepted(&mut self, ready: Ready) -> Result<(), KeepError> {
        let Ready { state, .. } = ready;
        self.kept.accept(state);
        Ok(())
    }

    fn mark_committed(&mut self) -> Result<(), KeepError> {
        self.kept.commit();
        Ok(())
    }
}
