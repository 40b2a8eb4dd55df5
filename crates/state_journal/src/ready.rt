//! A state that was made ready: keeping it takes no memory.
ghost use Rattle.std.specs.Prelude.{◌≡◌, IfOk, IfErr};
ghost use Rattle.cluster_state.specs.Initial.{initial_state};
ghost use Rattle.cluster_state.specs.States.{IsFit};
ghost use Rattle.state_journal.specs.Drafts.{IsDraft};
ghost use Rattle.state_journal.specs.Fit.{IsFit-prop, IsDraft-prop};

use crate::draft::Draft;
use cluster_state::{ClusterState, SharedState};
use std::alloc::{AllocError, Global};
use std::marker::Model;
use voting_config::NodeSet;

/// A state that is ready to be kept: keeping it takes no memory. Contracts see the state.
#[derive(Drop)]
pub struct Ready {
    pub(crate) state: SharedState,
    // its bytes, with room for what is written around them
    pub(crate) draft: Draft,
    ghost fit: { IsFit state } by { IsFit-prop state },
    ghost drafted: { IsDraft state draft } by { IsDraft-prop state draft },
}

impl Model for Ready {
    ghost use Rattle.state_journal.specs.Drafts.{ToKeep};

    ghost Value = { ToKeep };

    ghost view = { λ r. record { state = r.state } };
}

/// There was no memory to make a state ready. It is handed back.
#[derive(Drop)]
pub struct NotReady {
    pub state: ClusterState,
}

impl Ready {
    /// This state, which is within the limits, ready to be kept.
    pub fn new(alloc: Global, state: ClusterState) -> Result<Ready, NotReady>
        requires { IsFit state }
        ensures ready { IfOk result (λ r. r.state ≡ state) }
        ensures back { IfErr result (λ e. e.state ≡ state) }
    {
        let Ok(draft) = Draft::new(alloc, &state) else {
            return Err(NotReady { state });
        };
        match SharedState::new(alloc, state) {
            Ok(state) => Ok(Ready { state, draft }),
            Err(failed) => Err(NotReady {
                state: failed.value,
            }),
        }
    }

    /// This state, which is within the limits and may be held by others too, ready to be kept. Its bytes are copied where they are known.
    pub fn of(alloc: Global, state: &SharedState) -> Result<Ready, AllocError>
        requires { IsFit state.now }
        ensures { IfOk result (λ r. r.state ≡ state.now) }
    {
        let draft = Draft::of(alloc, state)?;
        let state = state.share()?;
        Ok(Ready { state, draft })
    }

    /// The same state, ready to be kept by another: the state is shared, and only its bytes for the journal are copied.
    pub fn copy(&self) -> Result<Ready, AllocError>
        ensures { IfOk result (λ r. r ≡ self.now) }
    {
        Ok(Ready {
            state: self.state.share()?,
            draft: self.draft.copy()?,
        })
    }

    /// What a bootstrap with this configuration makes the accepted state, ready to be kept.
    pub fn initial(alloc: Global, config: &NodeSet) -> Result<Ready, AllocError>
        ensures { IfOk result (λ r. r.state ≡ initial_state config.now) }
    {
        let state = SharedState::of(alloc, ClusterState::initial(alloc, config)?)?;
        Ready::of(alloc, &state)
    }

    /// The state.
    pub fn state(&self) -> &SharedState
        ensures state { result.now ≡ self.now.state }
        ensures fit { IsFit self.now.state }
    {
        &self.state
    }
}
