//! A state that lies in its bytes, lent out of where they lie.
ghost use Rattle.std.specs.Prelude.{◌≡◌, IsOk, IfOk, Ok};
ghost use Rattle.cluster_state.specs.States.{state, whole, Spells, IsFit};
ghost use Rattle.cluster_state.specs.declared.state.ClusterState.{ClusterState};

use crate::checking::check_state;
use crate::decoding::decode_state;
use crate::fault::{DecodeError, StateFault};
use crate::shared::SharedState;
use std::alloc::{AllocError, Global};
use std::marker::Model;

/// The bytes of a state, checked to be one, and no state made of them yet. Contracts see the state.
#[derive(Drop)]
pub struct StateView<'a> {
    bytes: &'a [u8],
}

impl<'a> Model for StateView<'a> {
    ghost use Rattle.std.specs.Prelude.{IsOk};
    ghost use Rattle.cluster_state.specs.declared.state.ClusterState.{ClusterState};
    ghost use Rattle.cluster_state.specs.States.{state, whole};
    ghost use Rattle.cluster_state.specs.Viewed.{state_in};

    ghost Value = { ClusterState };

    ghost view = { λ v. state_in (whole (state.at v.bytes.now)) };

    ghost invariant = { λ v. IsOk (whole (state.at v.bytes.now)) };
}

impl<'a> StateView<'a> {
    /// The state that the bytes spell, all of the bytes; else the first fault, as [`check_state`] has it. Takes no memory.
    pub fn of(bytes: &'a [u8]) -> Result<StateView<'a>, StateFault>
        ensures { result ≡ whole (state.at bytes.now) }
    {
        match check_state(bytes) {
            Ok(_) => Ok(StateView { bytes }),
            Err(fault) => Err(fault),
        }
    }

    /// The state of bytes that were checked before.
    pub fn of_checked(bytes: &'a [u8]) -> StateView<'a>
        requires { IsOk (whole (state.at bytes.now)) }
        ensures { whole (state.at bytes.now) ≡ Ok result }
    {
        StateView { bytes }
    }

    /// Its bytes.
    pub fn bytes(&self) -> &'a [u8]
        ensures found { whole (state.at result.now) ≡ Ok self.now }
        ensures spelled { Spells state self.now result.now }
        ensures fit { IsFit self.now }
    {
        spelled(self.bytes)
    }

    /// The state, made of its bytes, which are copied beside it.
    pub fn decode(&self, alloc: Global) -> Result<SharedState, AllocError>
        ensures { IfOk result (λ s. s ≡ self.now) }
    {
        match decode_state(alloc, self.bytes) {
            Ok(state) => SharedState::of_bytes(alloc, state, self.bytes),
            Err(DecodeError::Memory) => Err(AllocError),
            Err(DecodeError::Fault(_)) => unreachable!(),
        }
    }
}

// The same bytes: a state that they hold is spelled by them, and within the limits.
fn spelled(bytes: &[u8]) -> &[u8]
    ensures same { result.now ≡ bytes.now }
    ensures is { (s : ClusterState) → whole (state.at bytes.now) ≡ Ok s → Spells state s bytes.now }
    ensures fits { (s : ClusterState) → whole (state.at bytes.now) ≡ Ok s → IsFit s }
{
    bytes
}
