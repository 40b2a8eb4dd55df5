//! The publish requests that one node sent.
ghost use Rattle.std.specs.Prelude.{◌≡◌, IfOk, OnOk, false};
ghost use Rattle.cluster_state.specs.declared.messages.PublishRequest.{PublishRequest as TheRequest};
ghost use Rattle.trace_audit.specs.Places.{request_key, key_kept, is_requested, WithRequest};

use crate::contents::contents;
use cluster_state::PublishRequest;
use std::alloc::{AllocError, Global};
use std::collections::BTreeSet;

/// All that a request says but its source: the term and the version of its state, and what else this holds, as bytes.
pub type RequestKey = (u64, u64, Vec<u8>);

/// The publish requests that a node sent, each once: one takes 40 bytes and its share of a tree, and the bytes of what its state holds. The
/// state itself takes some 5,000 where it holds next to nothing, since its sets are held in place.
#[derive(Drop)]
pub struct Requests {
    alloc: Global,
    keys: BTreeSet<RequestKey>,
}

impl Requests {
    /// None.
    pub fn new(alloc: Global) -> Requests
        ensures { (r : TheRequest) → is_requested result r ≡ false }
    {
        Requests {
            alloc,
            keys: BTreeSet::new(alloc),
        }
    }

    fn key(&self, request: &PublishRequest) -> Result<RequestKey, AllocError>
        ensures { IfOk result (λ key. key_kept key ≡ request_key request.now) }
    {
        let state = &request.state;
        Ok((state.term, state.version, contents(self.alloc, state)?))
    }

    /// Whether the request was sent.
    pub fn contains(&self, request: &PublishRequest) -> Result<bool, AllocError>
        ensures { IfOk result (λ sent. sent ≡ is_requested self.now request.now) }
    {
        let key = self.key(request)?;
        Ok(self.keys.contains(&key))
    }

    /// Takes a request as sent.
    pub fn add(&mut self, request: &PublishRequest) -> Result<(), AllocError>
        ensures { OnOk result (WithRequest self.old request.now self.new) }
    {
        let key = self.key(request)?;
        self.keys.insert(key)?;
        Ok(())
    }
}
