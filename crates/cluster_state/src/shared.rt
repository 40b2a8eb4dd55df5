//! `SharedState`: a cluster state that all who have it hold in one place, as do those who have its configuration or its value alone.
ghost use Rattle.std.specs.Prelude.{◌≡◌, ◌↔◌, Ok, IfOk, IfErr, IfSome, IsTrue, length};
ghost use Rattle.serde_json.specs.Written.{compact_text};
ghost use Rattle.cluster_state.specs.Digests.{accepted_digest as accepted_digest_of};
ghost use Rattle.cluster_state.specs.Json.{state_json};
ghost use Rattle.cluster_state.specs.Shared.{first_of};
ghost use Rattle.cluster_state.specs.States.{state as state_field, whole, IsFit};

use crate::spelled::SpelledState;
use crate::state::{ClusterState, ClusterValue};
use crate::view::StateView;
use std::alloc::{AllocError, AllocFailed, Global};
use std::marker::Model;
use std::ops::Deref;
use std::rc::Rc;
use voting_config::IdList;

/// A cluster state that all who have it hold in one place, so that handing it on copies none of it. Beside it lie its bytes, where it came
/// as bytes or was spelled to be published, and in the second case its JSON and the digest that journals write with it, so that whoever
/// writes them copies them. Contracts see the state.
#[derive(Drop)]
pub struct SharedState {
    // A list of one: a state is large, and moves into the room of a list as it is, where a call that may hand it back moves it through
    // places that are cleared first.
    states: Rc<Vec<SpelledState>>,
    ghost one: { length states.value.items ≡ 1 },
}

impl Model for SharedState {
    ghost use Rattle.cluster_state.specs.Shared.{first_of};
    ghost use Rattle.cluster_state.specs.declared.state.ClusterState.{ClusterState};

    ghost Value = { ClusterState };

    ghost view = { λ s. first_of s.states.value.items };
}

impl Deref for SharedState {
    type Target = ClusterState;

    ghost deref_gives = { λ s state. state ≡ s };

    fn deref(&self) -> &ClusterState {
        self.spelled().state()
    }
}

impl SharedState {
    /// This state, in a place that can be shared. Where there is no memory for it, the state is handed back.
    pub fn new(alloc: Global, state: ClusterState) -> Result<SharedState, AllocFailed<ClusterState>>
        ensures shared { IfOk result (λ s. s ≡ state) }
        ensures back { IfErr result (λ failed. failed.value ≡ state) }
    {
        let Ok(mut states) = Vec::with_capacity(alloc, 1) else {
            return Err(AllocFailed { value: state });
        };
        states.push_reserved(SpelledState::unknown(state));
        match Rc::new(alloc, states) {
            Ok(states) => Ok(SharedState { states }),
            Err(failed) => Err(handed_back(failed.value)),
        }
    }

    /// This state, in a place that can be shared. Where there is no memory for it, the state is dropped.
    pub fn of(alloc: Global, state: ClusterState) -> Result<SharedState, AllocError>
        ensures { IfOk result (λ s. s ≡ state) }
    {
        SharedState::place(alloc, SpelledState::unknown(state))
    }

    /// [`of`](SharedState::of) for a state that is to be written and shown more than once: where it is within the limits it is spelled
    /// here, and its bytes, their digest and its JSON are kept beside it.
    pub fn spell(alloc: Global, state: ClusterState) -> Result<SharedState, AllocError>
        ensures { IfOk result (λ s. s ≡ state) }
    {
        let spelled = SpelledState::spell(alloc, state)?;
        SharedState::place(alloc, spelled)
    }

    // The same for a state that was made of these bytes, of which a copy is kept beside it.
    pub(crate) fn of_bytes(
        alloc: Global,
        state: ClusterState,
        bytes: &[u8],
    ) -> Result<SharedState, AllocError>
        requires { whole (state_field.at bytes.now) ≡ Ok state }
        ensures { IfOk result (λ s. s ≡ state) }
    {
        let spelled = SpelledState::of_bytes(alloc, state, bytes)?;
        SharedState::place(alloc, spelled)
    }

    fn place(alloc: Global, spelled: SpelledState) -> Result<SharedState, AllocError>
        ensures { IfOk result (λ s. s ≡ spelled) }
    {
        let mut states = Vec::with_capacity(alloc, 1)?;
        states.push_reserved(spelled);
        let states = Rc::new(alloc, states)?;
        Ok(SharedState { states })
    }

    fn spelled(&self) -> &SpelledState
        ensures { result.now ≡ self.now }
    {
        let states: &Vec<SpelledState> = &self.states;
        &states[0]
    }

    /// The state as it lies in its bytes, where they are known.
    pub fn view(&self) -> Option<StateView<'_>>
        ensures { IfSome result (λ view. view ≡ self.now) }
    {
        self.spelled().view()
    }

    /// The digest of a journal's body that accepts the state, where it is known: the SHA-256 of the body's tag and the state's bytes.
    pub fn accepted_digest(&self) -> Option<[u8; 32]>
        ensures { IfSome result (λ digest. digest ≡ accepted_digest_of self.now) }
    {
        self.spelled().accepted_digest()
    }

    /// The state as compact JSON, as [`to_json`](crate::json::to_json) makes it, where it is known.
    pub fn json(&self) -> Option<&[u8]>
        ensures { IfSome result (λ json. json.now ≡ compact_text (state_json self.now)) }
    {
        self.spelled().json()
    }

    /// Whether it is within the limits, so that it has a spelling, as [`ClusterState::is_fit`] has it. What has bytes is.
    pub fn is_fit(&self) -> bool
        ensures { IsTrue result ↔ IsFit self.now }
    {
        match self.view() {
            None => self.spelled().state().is_fit(),
            Some(view) => {
                // For the proof alone: what has bytes is within the limits.
                view.bytes();
                true
            }
        }
    }

    /// The same state, held once more. An error where no more holders of it can be counted.
    pub fn share(&self) -> Result<SharedState, AllocError>
        ensures { IfOk result (λ s. s ≡ self.now) }
    {
        Ok(SharedState {
            states: self.states.clone()?,
        })
    }
}

/// The configuration of a state that is shared, held where the state is. Contracts see the configuration.
#[derive(Drop)]
pub struct SharedConfig {
    state: SharedState,
}

impl Model for SharedConfig {
    ghost use Rattle.std.specs.Prelude.{List};
    ghost use Rattle.voting_config.specs.Ids.{Id};

    ghost Value = { List Id };

    ghost view = { λ c. c.state.config };
}

impl Deref for SharedConfig {
    type Target = IdList;

    ghost deref_gives = { λ c config. config ≡ c };

    fn deref(&self) -> &IdList {
        let state: &ClusterState = &self.state;
        &state.config
    }
}

impl SharedConfig {
    /// The configuration of this state.
    pub fn of(state: SharedState) -> SharedConfig
        ensures { result ≡ state.config }
    {
        SharedConfig { state }
    }
}

/// The value of a state that is shared, held where the state is. Contracts see the value.
#[derive(Drop)]
pub struct SharedValue {
    state: SharedState,
}

impl Model for SharedValue {
    ghost use Rattle.cluster_state.specs.declared.state.ClusterValue.{ClusterValue};

    ghost Value = { ClusterValue };

    ghost view = { λ v. v.state.value };
}

impl Deref for SharedValue {
    type Target = ClusterValue;

    ghost deref_gives = { λ v value. value ≡ v };

    fn deref(&self) -> &ClusterValue {
        let state: &ClusterState = &self.state;
        &state.value
    }
}

impl SharedValue {
    /// The value of this state.
    pub fn of(state: SharedState) -> SharedValue
        ensures { result ≡ state.value }
    {
        SharedValue { state }
    }
}

// The state of a list of one.
fn handed_back(states: Vec<SpelledState>) -> AllocFailed<ClusterState>
    requires { length states.items ≡ 1 }
    ensures { result.value ≡ first_of states.items }
{
    let mut states = states;
    match states.pop() {
        Some(spelled) => AllocFailed {
            value: spelled.into_state(),
        },
        None => unreachable!(),
    }
}
