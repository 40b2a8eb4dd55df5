//! The bytes of a state, laid out so that it can be framed in no memory.
ghost use Rattle.std.specs.Int.{w32, to_be_bytes};
ghost use Rattle.std.specs.Prelude.{◌≡◌, ◌≤◌, ◌+◌, ◌-◌, ◌++◌, ◌∷◌, [], length, List, ℕ, IfOk, IfSome};
ghost use Rattle.arrayvec.specs.ArrayVec.{array_vec_len};
ghost use Rattle.cluster_state.specs.Fields.{id, ids};
ghost use Rattle.cluster_state.specs.States.{IsFit};
ghost use Rattle.gate_log.specs.Journal.{framed};
ghost use Rattle.sha2.specs.Sha256.{sha256};
ghost use Rattle.state_journal.specs.Bodies.{guarded};
ghost use Rattle.state_journal.specs.Drafts.{IsDraft, generation_prefix, room_before, room_behind, most_state_bytes};
ghost use Rattle.voting_config.specs.Ids.{most_ids, IsIdSet};
ghost use Rattle.zen_disk.specs.Disk.{part, written};

use crate::body::DIGEST;
use arrayvec::ArrayVec;
use cluster_state::{ClusterState, SharedState, StateView, write_state};
use sha2::{Digest, Sha256};
use std::alloc::{AllocError, Global};
use std::marker::Model;
use voting_config::NodeId;

// Where the state begins: after the length, the tag, the epoch and the term of a generation.
const STATE_AT: usize = 21;

// A committed configuration takes 2,113 bytes at most.
const SET: usize = 2113;

// The digest and the closed gate.
const CLOSE: usize = 33;

// After a state stand a committed configuration, and these.
const ROOM: usize = SET + CLOSE;

// Enough for most states, so that the bytes are not moved as they are written.
const FIRST_CAPACITY: usize = 4096;

// A state's bytes with room before and after them, and the frame that was last laid around them.
#[derive(Drop)]
pub(crate) struct Draft {
    bytes: Vec<u8>,
    // how many bytes the state has
    size: usize,
    // the frame: where it begins, and how long it is
    start: usize,
    len: usize,
}

impl Model for Draft {
    ghost use Rattle.std.specs.Prelude.{◌≡◌, ◌≤◌, ◌+◌, vec_len};
    ghost use Rattle.zen_disk.specs.Disk.{part};
    ghost use Rattle.state_journal.specs.Drafts.{Drafted, room_before, room_behind};

    ghost Value = { Drafted };

    ghost view = { λ d. record { state = part room_before d.size d.bytes.items; frame = part d.start d.len d.bytes.items } };

    ghost invariant = { λ d. (vec_len d.bytes ≡ room_before + d.size + room_behind) × (d.start + d.len ≤ vec_len d.bytes) };
}

// An id after those that stand there.
fn put_id(out: &mut ArrayVec<u8, SET>, node: NodeId)
    requires { array_vec_len out.old + 33 ≤ 2113 }
    ensures items { out.new.items ≡ out.old.items ++ id.spelling node }
    ensures room { array_vec_len out.new ≤ array_vec_len out.old + 33 }
{
    let bytes = node.as_bytes();
    out.push(bytes.len() as u8);
    match out.try_extend_from_slice(bytes) {
        Ok(()) => {}
        Err(_) => unreachable!(),
    }
}

// The bytes of a set of ids.
fn set_bytes(set: &[NodeId]) -> ArrayVec<u8, SET>
    requires { IsIdSet set.now }
    ensures items { result.items ≡ (ids most_ids).spelling set.now }
    ensures fits { (ids most_ids).Fits set.now }
{
    let mut out: ArrayVec<u8, SET> = ArrayVec::new();
    out.push(set.len() as u8);
    for node in set {
        put_id(&mut out, *node);
    }
    out
}

// What stands before a state: the length of a body, and the bytes that the body begins with.
fn head_of(size: u32, before: &[u8]) -> ArrayVec<u8, STATE_AT>
    requires { length before.now ≤ 17 }
    ensures { result.items ≡ to_be_bytes w32 size ++ before.now }
{
    let mut head: ArrayVec<u8, STATE_AT> = ArrayVec::new();
    match head.try_extend_from_slice(&size.to_be_bytes()) {
        Ok(()) => {}
        Err(_) => unreachable!(),
    }
    match head.try_extend_from_slice(before) {
        Ok(()) => {}
        Err(_) => unreachable!(),
    }
    head
}

// What stands after it where the body has no other fields: its digest, and a closed gate.
fn close_of(digest: &[u8; 32]) -> ArrayVec<u8, CLOSE>
    ensures { result.items ≡ digest.now ++ 0 ∷ [] }
{
    let mut close: ArrayVec<u8, CLOSE> = ArrayVec::new();
    match close.try_extend_from_slice(digest) {
        Ok(()) => {}
        Err(_) => unreachable!(),
    }
    close.push(0);
    close
}

// What stands after it: the other fields of the body, its digest, and a closed gate.
fn tail_of(after: &[u8], digest: &[u8; 32]) -> ArrayVec<u8, ROOM>
    requires { length after.now ≤ 2113 }
    ensures { result.items ≡ after.now ++ (digest.now ++ 0 ∷ []) }
{
    let mut tail: ArrayVec<u8, ROOM> = ArrayVec::new();
    match tail.try_extend_from_slice(after) {
        Ok(()) => {}
        Err(_) => unreachable!(),
    }
    match tail.try_extend_from_slice(digest) {
        Ok(()) => {}
        Err(_) => unreachable!(),
    }
    tail.push(0);
    tail
}

// Puts bytes in place of others.
fn put(bytes: &mut [u8], at: usize, with: &[u8])
    requires { at + length with.now ≤ length bytes.old }
    ensures { bytes.new ≡ written bytes.old at with.now }
{
    bytes[at..at + with.len()].copy_from_slice(with);
}

// Puts bytes before those from 21 to `end`, and others after them.
fn surround(bytes: &mut [u8], head: &[u8], end: usize, tail: &[u8])
    requires head { length head.now ≤ room_before }
    requires end { room_before ≤ end }
    requires tail { end + length tail.now ≤ length bytes.old }
    ensures frame { part (room_before - length head.now) (length head.now + (end - room_before) + length tail.now) bytes.new
        ≡ head.now ++ (part room_before (end - room_before) bytes.old ++ tail.now) }
    ensures same { part room_before (end - room_before) bytes.new ≡ part room_before (end - room_before) bytes.old }
    ensures length { length bytes.new ≡ length bytes.old }
{
    put(bytes, STATE_AT - head.len(), head);
    put(bytes, end, tail);
}

impl Draft {
    // The bytes of a state, which is within the limits.
    #[tactic(auto, unfolding(crate::specs::Drafts::HasSpelling))]
    pub(crate) fn new(alloc: Global, state: &ClusterState) -> Result<Draft, AllocError>
        requires { IsFit state.now }
        ensures { IfOk result (λ d. IsDraft state.now d) }
    {
        let mut bytes = Vec::with_capacity(alloc, FIRST_CAPACITY)?;
        bytes.extend_from_slice(&[0; STATE_AT])?;
        write_state(&mut bytes, state)?;
        let size = bytes.len() - STATE_AT;
        bytes.extend_from_slice(&[0; ROOM])?;
        Ok(Draft {
            bytes,
            size,
            start: STATE_AT,
            len: 0,
        })
    }

    // The bytes of a state that is shared, which are copied where they are known.
    pub(crate) fn of(alloc: Global, state: &SharedState) -> Result<Draft, AllocError>
        requires { IsFit state.now }
        ensures { IfOk result (λ d. IsDraft state.now d) }
    {
        match state.view() {
            None => Draft::new(alloc, state),
            Some(view) => Draft::of_view(alloc, &view),
        }
    }

    // A copy of the bytes that a state lies in.
    #[tactic(auto, unfolding(crate::specs::Drafts::HasSpelling))]
    fn of_view(alloc: Global, view: &StateView) -> Result<Draft, AllocError>
        ensures { IfOk result (λ d. IsDraft view.now d) }
    {
        let state = view.bytes();
        let mut bytes = Vec::with_capacity(alloc, STATE_AT + state.len() + ROOM)?;
        bytes.extend_from_slice(&[0; STATE_AT])?;
        bytes.extend_from_slice(state)?;
        bytes.extend_from_slice(&[0; ROOM])?;
        Ok(Draft {
            bytes,
            size: state.len(),
            start: STATE_AT,
            len: 0,
        })
    }

    // The same bytes of the same state once more.
    pub(crate) fn copy(&self) -> Result<Draft, AllocError>
        ensures { IfOk result (λ d. d ≡ self.now) }
    {
        Ok(Draft {
            bytes: self.bytes.clone()?,
            size: self.size,
            start: self.start,
            len: self.len,
        })
    }

    // How many bytes the state has.
    pub(crate) fn len(&self) -> usize
        ensures { result ≡ length self.now.state }
    {
        self.size
    }

    // The frame that was last laid.
    pub(crate) fn frame(&self) -> &[u8]
        ensures { result.now ≡ self.now.frame }
    {
        &self.bytes[self.start..self.start + self.len]
    }

    // The SHA-256 of the state between these bytes.
    fn digest(&self, before: &[u8], after: &[u8]) -> [u8; 32]
        ensures { result ≡ sha256 (before.now ++ (self.now.state ++ after.now)) }
    {
        let mut hasher = Sha256::new();
        hasher.update(before);
        hasher.update(&self.bytes[STATE_AT..STATE_AT + self.size]);
        hasher.update(after);
        hasher.finalize()
    }

    // The digest of the body that accepts the state, which may be known already.
    fn accepted_digest(&self, known: Option<[u8; 32]>) -> [u8; 32]
        requires { IfSome known (λ digest. digest ≡ sha256 (130 ∷ self.now.state)) }
        ensures { result ≡ sha256 (130 ∷ (self.now.state ++ [])) }
    {
        match known {
            Some(digest) => digest,
            None => self.digest(&[130], &[]),
        }
    }

    // Lays a frame: the state between these bytes.
    fn put_around(&mut self, head: &[u8], tail: &[u8])
        requires head { length head.now ≤ room_before }
        requires tail { length tail.now ≤ room_behind }
        ensures frame { self.new.frame ≡ head.now ++ (self.old.state ++ tail.now) }
        ensures same { self.new.state ≡ self.old.state }
    {
        surround(&mut self.bytes, head, STATE_AT + self.size, tail);
        self.start = STATE_AT - head.len();
        self.len = head.len() + self.size + tail.len();
    }

    // Lays a body of version 2 that is the state between these bytes, with its length and what stands after the state: those bytes, the
    // digest and a closed gate.
    fn lay(&mut self, before: &[u8], after: &[u8], tail: &[u8])
        requires tail { tail.now ≡ after.now ++ (sha256 (before.now ++ (self.old.state ++ after.now)) ++ 0 ∷ []) }
        requires room { length tail.now ≤ room_behind }
        requires before { length before.now ≤ 17 }
        requires after { length after.now ≤ 2113 }
        requires state { length self.old.state ≤ most_state_bytes }
        ensures frame { self.new.frame ≡ framed (guarded (before.now ++ (self.old.state ++ after.now))) }
        ensures same { self.new.state ≡ self.old.state }
    {
        let size = before.len() + self.len() + after.len() + DIGEST;
        let head = head_of(size as u32, before);
        self.put_around(&head, tail);
    }

    // Lays the body that accepts the state, with its length and a closed gate. Its digest may be known already.
    #[tactic(auto, using(crate::proofs::Frames::accepted_prefix))]
    pub(crate) fn lay_accepted(&mut self, known: Option<[u8; 32]>)
        requires size { length self.old.state ≤ most_state_bytes }
        requires known { IfSome known (λ digest. digest ≡ sha256 (130 ∷ self.old.state)) }
        ensures frame { self.new.frame ≡ framed (guarded (130 ∷ self.old.state)) }
        ensures same { self.new.state ≡ self.old.state }
    {
        let digest = self.accepted_digest(known);
        let tail = close_of(&digest);
        self.lay(&[130], &[], &tail);
    }

    // Lays the body that begins a generation with this epoch and term, the state and this committed configuration, with its length and
    // a closed gate.
    #[tactic(auto, unfolding(cluster_state::specs::Field::eight_bytes))]
    pub(crate) fn lay_generation(&mut self, epoch: u64, term: u64, committed: &[NodeId])
        requires state { length self.old.state ≤ most_state_bytes }
        requires set { IsIdSet committed.now }
        ensures frame { self.new.frame ≡ framed (guarded (generation_prefix epoch term self.old.state committed.now)) }
        ensures fits { (ids most_ids).Fits committed.now }
        ensures same { self.new.state ≡ self.old.state }
    {
        let members = set_bytes(committed);
        let after = members.as_slice();
        let e = epoch.to_be_bytes();
        let t = term.to_be_bytes();
        let before = [
            132, e[0], e[1], e[2], e[3], e[4], e[5], e[6], e[7], t[0], t[1], t[2], t[3], t[4],
            t[5], t[6], t[7],
        ];
        let digest = self.digest(&before, after);
        let tail = tail_of(after, &digest);
        self.lay(&before, after, &tail);
    }
}
