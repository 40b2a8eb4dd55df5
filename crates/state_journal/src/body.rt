//! Changes as bodies of a journal.
ghost use Rattle.std.specs.Prelude.{◌≡◌, ◌≤◌, ◌==◌, length, Ok, Err, IfOk, if◌then◌else◌};
ghost use Rattle.cluster_state.specs.Faults.{ReadsInMemory};
ghost use Rattle.cluster_state.specs.Fields.{term as term_field};
ghost use Rattle.cluster_state.specs.States.{whole, state as state_field};
ghost use Rattle.state_journal.specs.Bodies.{body_of, guarded, guard_fault as spec_guard_fault, is_guarded as spec_is_guarded, nothing_more, change_in, change_at, change_by, change_tagged, generation_of, old_state as old_state_field};
ghost use Rattle.state_journal.specs.Reads.{error_by, error_from, state_of as spec_state_of, ReadsChange, IsFitChange};
ghost use Rattle.state_journal.specs.declared.change.Change.TheVariants as change;
ghost use Rattle.state_journal.specs.declared.why.BodyFault.TheVariants as fault;
ghost use Rattle.state_journal.specs.declared.body.BodyError.TheVariants as body_error;

use crate::{BodyFault, Change, Fault, Generation};
use arrayvec::ArrayVec;
use cluster_state::{
    ClusterState, DecodeError, FieldError, ReadError, Reader, SharedState, StateFault, decode_state,
};
use sha2::{Digest, Sha256};
use std::alloc::{AllocError, Global};
use voting_config::MAX_IDS;

// How many bytes a digest has.
pub(crate) const DIGEST: usize = 32;

// Why a change was not read.
#[derive(Clone, Copy)]
pub(crate) enum BodyError {
    Memory,
    Fault(BodyFault),
}

impl From<FieldError> for BodyError {
    ghost from_gives = { λ f e. e ≡ body_error.Fault (fault.Field f) };

    fn from(fault: FieldError) -> BodyError {
        BodyError::Fault(BodyFault::Field(fault))
    }
}

impl From<AllocError> for BodyError {
    ghost from_gives = { λ _ e. e ≡ body_error.Memory };

    fn from(_e: AllocError) -> BodyError {
        BodyError::Memory
    }
}

impl From<ReadError> for BodyError {
    ghost from_gives = { λ f e. e ≡ error_from f };

    fn from(error: ReadError) -> BodyError {
        match error {
            ReadError::Memory => BodyError::Memory,
            ReadError::Field(fault) => BodyError::Fault(BodyFault::Field(fault)),
        }
    }
}

impl From<StateFault> for BodyFault {
    ghost use Rattle.state_journal.specs.Reads.{fault_by};

    ghost from_gives = { λ f e. e ≡ fault_by f };

    fn from(fault: StateFault) -> BodyFault {
        match fault {
            StateFault::Field(field) => BodyFault::Field(field),
            StateFault::Trailing => BodyFault::Trailing,
        }
    }
}

impl From<DecodeError> for BodyError {
    ghost from_gives = { λ d e. e ≡ error_by d };

    fn from(error: DecodeError) -> BodyError {
        match error {
            DecodeError::Memory => BodyError::Memory,
            DecodeError::Fault(fault) => BodyError::Fault(BodyFault::from(fault)),
        }
    }
}

// A body of version 2: a tag and fields, and the SHA-256 of both.
#[tactic(auto, unfolding(crate::specs::Bodies::guarded))]
fn guard(prefix: &[u8]) -> ArrayVec<u8, 64>
    requires { length prefix.now ≤ 32 }
    ensures { result.items ≡ guarded prefix.now }
{
    let digest = Sha256::digest(prefix);
    let mut out: ArrayVec<u8, 64> = ArrayVec::new();
    match out.try_extend_from_slice(prefix) {
        Ok(()) => {}
        Err(_) => unreachable!(),
    }
    match out.try_extend_from_slice(&digest) {
        Ok(()) => {}
        Err(_) => unreachable!(),
    }
    out
}

// The body that sets a term.
#[tactic(auto, unfolding(crate::specs::Bodies::body_of, cluster_state::specs::Field::eight_bytes))]
pub(crate) fn term_body(term: u64) -> ArrayVec<u8, 64>
    ensures { result.items ≡ body_of (change.Term term) }
{
    let t = term.to_be_bytes();
    guard(&[129, t[0], t[1], t[2], t[3], t[4], t[5], t[6], t[7]])
}

// The body that marks the accepted configuration as committed.
#[tactic(auto, unfolding(crate::specs::Bodies::body_of))]
pub(crate) fn committed_body() -> ArrayVec<u8, 64>
    ensures { result.items ≡ body_of change.Committed }
{
    guard(&[131])
}

// Whether a body is of version 2.
pub(crate) fn is_guarded(body: &[u8]) -> bool
    ensures { result ≡ spec_is_guarded body.now }
{
    !body.is_empty() && 129 <= body[0] && body[0] <= 132
}

// The digest that these bytes are.
fn digest_of(bytes: &[u8]) -> [u8; 32]
    requires { length bytes.now ≡ 32 }
    ensures { result ≡ bytes.now }
{
    let mut digest = [0; 32];
    digest.copy_from_slice(bytes);
    digest
}

// The fault of the digest of a body whose gate stands at this offset.
#[tactic(auto, unfolding(crate::specs::Bodies::guard_fault))]
pub(crate) fn guard_fault(at: u64, body: &[u8]) -> Option<Fault>
    ensures { result ≡ spec_guard_fault at body.now }
{
    if !is_guarded(body) {
        return None;
    }
    if body.len() <= DIGEST {
        let short = BodyFault::Field(FieldError::Short);
        return Some(Fault::Body(at, short));
    }
    let end = body.len() - DIGEST;
    let stored = &body[end..];
    let found = Sha256::digest(&body[..end]);
    if found.as_slice() == stored {
        return None;
    }
    Some(Fault::Damaged {
        at,
        stored: digest_of(stored),
        found,
    })
}

// A state of version 1, which has no parent.
fn old_state<'a>(alloc: Global, reader: &mut Reader<'a>) -> Result<ClusterState, ReadError>
    ensures { ReadsInMemory result reader.new (old_state_field.at reader.old) }
{
    let term = reader.term()?;
    let version = reader.version()?;
    let config = reader.id_list(alloc, MAX_IDS as u8)?;
    let committed = reader.id_list(alloc, MAX_IDS as u8)?;
    let value = reader.value(alloc)?;
    Ok(ClusterState {
        term,
        version,
        parent: None,
        config,
        committed,
        value,
    })
}

// A state, of version 1 where it is old.
fn state_of<'a>(
    alloc: Global,
    reader: &mut Reader<'a>,
    old: bool,
) -> Result<ClusterState, ReadError>
    ensures { ReadsInMemory result reader.new ((spec_state_of old).at reader.old) }
{
    if old {
        return old_state(alloc, reader);
    }
    reader.state(alloc)
}

// A term and nothing else.
fn read_term(bytes: &[u8]) -> Result<Change, BodyError>
    ensures reads { ReadsChange result (change_by change.Term (whole (term_field.at bytes.now))) }
    ensures fit { IfOk result IsFitChange }
{
    let mut reader = Reader::new(bytes);
    let term = reader.term()?;
    if !reader.is_at_end() {
        return Err(BodyError::Fault(BodyFault::Trailing));
    }
    Ok(Change::Term(term))
}

// A state and nothing else.
fn read_state(alloc: Global, bytes: &[u8]) -> Result<Change, BodyError>
    ensures reads { ReadsChange result (change_by change.Accepted (whole (state_field.at bytes.now))) }
    ensures fit { IfOk result IsFitChange }
{
    let state = SharedState::of(alloc, decode_state(alloc, bytes)?)?;
    Ok(Change::Accepted(state))
}

// A state of version 1 and nothing else, as its fields are spelled. `read_old_state` only calls it, and adds that what is read fits.
fn whole_old_state(alloc: Global, bytes: &[u8]) -> Result<Change, BodyError>
    ensures { ReadsChange result (change_by change.Accepted (whole (old_state_field.at bytes.now))) }
{
    let mut reader = Reader::new(bytes);
    let state = SharedState::of(alloc, old_state(alloc, &mut reader)?)?;
    if !reader.is_at_end() {
        return Err(BodyError::Fault(BodyFault::Trailing));
    }
    Ok(Change::Accepted(state))
}

// A state of version 1 and nothing else.
fn read_old_state(alloc: Global, bytes: &[u8]) -> Result<Change, BodyError>
    ensures reads { ReadsChange result (change_by change.Accepted (whole (old_state_field.at bytes.now))) }
    ensures fit { IfOk result IsFitChange }
{
    whole_old_state(alloc, bytes)
}

// Nothing more than the first byte.
fn read_committed(bytes: &[u8]) -> Result<Change, BodyError>
    ensures reads { ReadsChange result (nothing_more bytes.now) }
    ensures fit { IfOk result IsFitChange }
{
    if !bytes.is_empty() {
        return Err(BodyError::Fault(BodyFault::Trailing));
    }
    Ok(Change::Committed)
}

// A generation, of version 1 where it is old, and nothing else, as its fields are spelled. `read_generation` only calls it, and adds that
// what is read fits.
fn whole_generation(alloc: Global, bytes: &[u8], old: bool) -> Result<Change, BodyError>
    ensures { ReadsChange result (change_by change.Renewed (whole ((generation_of (spec_state_of old)).at bytes.now))) }
{
    let mut reader = Reader::new(bytes);
    let epoch = reader.version()?;
    let term = reader.term()?;
    let accepted = SharedState::of(alloc, state_of(alloc, &mut reader, old)?)?;
    let committed = reader.id_list(alloc, MAX_IDS as u8)?;
    if !reader.is_at_end() {
        return Err(BodyError::Fault(BodyFault::Trailing));
    }
    Ok(Change::Renewed(Generation {
        epoch,
        term,
        accepted,
        committed,
    }))
}

// A generation, of version 1 where it is old, and nothing else.
fn read_generation(alloc: Global, bytes: &[u8], old: bool) -> Result<Change, BodyError>
    ensures reads { ReadsChange result (change_by change.Renewed (whole ((generation_of (spec_state_of old)).at bytes.now))) }
    ensures fit { IfOk result IsFitChange }
{
    whole_generation(alloc, bytes, old)
}

// The change that fields behind this first byte spell.
#[tactic(auto, unfolding(crate::specs::Bodies::change_tagged))]
fn read_tagged(alloc: Global, tag: u8, fields: &[u8]) -> Result<Change, BodyError>
    ensures reads { ReadsChange result (change_tagged tag fields.now) }
    ensures fit { IfOk result IsFitChange }
{
    if tag == 129 {
        return read_term(fields);
    }
    if tag == 130 {
        return read_state(alloc, fields);
    }
    if tag == 131 {
        return read_committed(fields);
    }
    if tag == 132 {
        return read_generation(alloc, fields, false);
    }
    if tag == 1 {
        return read_term(fields);
    }
    if tag == 2 {
        return read_old_state(alloc, fields);
    }
    if tag == 3 {
        return read_committed(fields);
    }
    if tag == 4 {
        return read_generation(alloc, fields, true);
    }
    Err(BodyError::Fault(BodyFault::Tag))
}

// The change that a tag and fields spell, all of them.
fn read_prefix(alloc: Global, prefix: &[u8]) -> Result<Change, BodyError>
    ensures reads { ReadsChange result (change_in prefix.now) }
    ensures fit { IfOk result IsFitChange }
{
    match prefix {
        [] => Err(BodyError::Fault(BodyFault::Tag)),
        [tag, fields @ ..] => read_tagged(alloc, *tag, fields),
    }
}

// The change that a body spells, all of it before a digest.
pub(crate) fn read_body(alloc: Global, body: &[u8]) -> Result<Change, BodyError>
    ensures reads { ReadsChange result (change_at body.now) }
    ensures fit { IfOk result IsFitChange }
{
    if is_guarded(body) {
        return read_prefix(alloc, &body[..body.len().saturating_sub(DIGEST)]);
    }
    read_prefix(alloc, body)
}
