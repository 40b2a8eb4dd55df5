//! A state beside its bytes, their digest and its JSON, where they are known.
ghost use Rattle.std.specs.Prelude.{◌≡◌, ◌∷◌, Ok, IfOk, IfSome};
ghost use Rattle.serde_json.specs.Written.{compact_text};
ghost use Rattle.sha2.specs.Sha256.{sha256};
ghost use Rattle.cluster_state.specs.Digests.{accepted_digest as accepted_digest_of, accepted_tag};
ghost use Rattle.cluster_state.specs.Json.{state_json};
ghost use Rattle.cluster_state.specs.States.{state as state_field, whole};

use crate::encoding::encode_state;
use crate::json::to_json;
use crate::state::ClusterState;
use crate::view::StateView;
use sha2::{Digest, Sha256};
use std::alloc::{AllocError, Global};
use std::marker::Model;

// The first byte of a journal's body that accepts a state.
const ACCEPTED_TAG: u8 = 130;

/// A state beside its bytes, their digest and its JSON, where they are known, so that it is spelled no more than once. Contracts see the
/// state.
#[derive(Drop)]
pub(crate) struct SpelledState {
    state: ClusterState,
    bytes: Option<Vec<u8>>,
    digest: Option<[u8; 32]>,
    json: Option<Vec<u8>>,
}

impl Model for SpelledState {
    ghost use Rattle.std.specs.Prelude.{◌≡◌, Ok, IfSome};
    ghost use Rattle.cluster_state.specs.Digests.{accepted_digest};
    ghost use Rattle.serde_json.specs.Written.{compact_text};
    ghost use Rattle.cluster_state.specs.Json.{state_json};
    ghost use Rattle.cluster_state.specs.States.{state as state_field, whole};
    ghost use Rattle.cluster_state.specs.declared.state.ClusterState.{ClusterState};

    ghost Value = { ClusterState };

    ghost view = { λ s. s.state };

    ghost invariant = { λ s. IfSome s.bytes (λ b. whole (state_field.at b.items) ≡ Ok s.state)
        × IfSome s.digest (λ d. d ≡ accepted_digest s.state) × IfSome s.json (λ j. j.items ≡ compact_text (state_json s.state)) };
}

// The SHA-256 of these bytes behind the tag of a body that accepts them.
fn digest_of(bytes: &[u8]) -> [u8; 32]
    ensures { result ≡ sha256 (accepted_tag ∷ bytes.now) }
{
    let mut hasher = Sha256::new();
    hasher.update(&[ACCEPTED_TAG]);
    hasher.update(bytes);
    hasher.finalize()
}

impl SpelledState {
    // This state, whose bytes and JSON are not known.
    pub(crate) fn unknown(state: ClusterState) -> SpelledState
        ensures { result ≡ state }
    {
        SpelledState {
            state,
            bytes: None,
            digest: None,
            json: None,
        }
    }

    // This state beside its bytes and its JSON, where it is within the limits.
    pub(crate) fn spell(alloc: Global, state: ClusterState) -> Result<SpelledState, AllocError>
        ensures { IfOk result (λ s. s ≡ state) }
    {
        if !state.is_fit() {
            return Ok(SpelledState::unknown(state));
        }
        let bytes = encode_state(alloc, &state)?;
        let json = to_json(alloc, &state)?;
        let digest = digest_of(&bytes);
        Ok(SpelledState {
            state,
            bytes: Some(bytes),
            digest: Some(digest),
            json: Some(json),
        })
    }

    // This state beside a copy of the bytes that spell it.
    pub(crate) fn of_bytes(
        alloc: Global,
        state: ClusterState,
        bytes: &[u8],
    ) -> Result<SpelledState, AllocError>
        requires { whole (state_field.at bytes.now) ≡ Ok state }
        ensures { IfOk result (λ s. s ≡ state) }
    {
        let mut copied = Vec::with_capacity(alloc, bytes.len())?;
        copied.extend_from_slice(bytes)?;
        Ok(SpelledState {
            state,
            bytes: Some(copied),
            digest: None,
            json: None,
        })
    }

    pub(crate) fn state(&self) -> &ClusterState
        ensures { result.now ≡ self.now }
    {
        &self.state
    }

    pub(crate) fn into_state(self) -> ClusterState
        ensures { result ≡ self }
    {
        self.state
    }

    // The state as it lies in its bytes, where they are known.
    pub(crate) fn view(&self) -> Option<StateView<'_>>
        ensures { IfSome result (λ view. view ≡ self.now) }
    {
        match &self.bytes {
            None => None,
            Some(bytes) => Some(StateView::of_checked(bytes)),
        }
    }

    // The digest of a body that accepts it, where it is known.
    pub(crate) fn accepted_digest(&self) -> Option<[u8; 32]>
        ensures { IfSome result (λ digest. digest ≡ accepted_digest_of self.now) }
    {
        self.digest
    }

    // The state's JSON, where it is known.
    pub(crate) fn json(&self) -> Option<&[u8]>
        ensures { IfSome result (λ json. json.now ≡ compact_text (state_json self.now)) }
    {
        match &self.json {
            None => None,
            Some(json) => Some(json.as_slice()),
        }
    }
}
