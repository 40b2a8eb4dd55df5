//! The record that the bodies of a journal make.
ghost use Rattle.std.specs.Prelude.{◌≡◌, Ok, Err, IfOk, IfErr, OnOk, ◌&&◌, not, false};
ghost use Rattle.cluster_state.specs.Initial.{empty_record};
ghost use Rattle.gate_log.specs.Folded.{found_by};
ghost use Rattle.gate_log.specs.Opened.{lists, generations_in};
ghost use Rattle.state_journal.specs.Bodies.{is_guarded as spec_is_guarded, change_at};
ghost use Rattle.state_journal.specs.Changes.{changed};
ghost use Rattle.state_journal.specs.Journal.{in_order, with_change, with_body, folded_from, record_of_bodies, on_its_side};
ghost use Rattle.state_journal.specs.Reads.{error_at, error_on, IsFitChange, IsFitRecord, IsFoldError, ReadsRecord, FindsRecord};
ghost use Rattle.state_journal.specs.declared.fold.FoldError.TheVariants as fold_error;

use crate::body::{BodyError, guard_fault, is_guarded, read_body};
use crate::{Change, Fault, Generation, Why};
use cluster_state::Kept;
use std::alloc::{AllocError, Global};
use zen_disk::Side;

// Why the bodies of one side make no record.
#[derive(Clone, Copy)]
enum FoldError {
    Memory,
    Fault(Fault),
}

impl From<AllocError> for FoldError {
    ghost from_gives = { λ _ e. e ≡ fold_error.Memory };

    fn from(_e: AllocError) -> FoldError {
        FoldError::Memory
    }
}

impl From<Fault> for FoldError {
    ghost from_gives = { λ f e. e ≡ fold_error.Fault f };

    fn from(fault: Fault) -> FoldError {
        FoldError::Fault(fault)
    }
}

// Why the bodies of both sides make no record.
#[derive(Clone, Copy)]
pub(crate) enum FoundError {
    Memory,
    Fault(Why),
}

// The error of one side.
fn found_error(side: Side, error: FoldError) -> FoundError
    ensures { result ≡ error_on side error }
{
    match error {
        FoldError::Memory => FoundError::Memory,
        FoldError::Fault(fault) => FoundError::Fault(Why::At(side, fault)),
    }
}

// The error of a body whose gate stands at this offset.
fn error_of(error: BodyError, at: u64) -> FoldError
    ensures { result ≡ error_at at error }
{
    match error {
        BodyError::Memory => FoldError::Memory,
        BodyError::Fault(fault) => FoldError::Fault(Fault::Body(at, fault)),
    }
}

// Makes it the record of a generation.
fn begin(kept: &mut Kept, generation: Generation)
    ensures { kept.new ≡ generation.kept }
{
    kept.term = generation.term;
    kept.accepted = generation.accepted;
    kept.committed.copy_from(&generation.committed);
}

// Whether a change may follow on the record.
fn is_in_order(kept: &Kept, change: &Change) -> bool
    ensures { result ≡ in_order kept.now change.now }
{
    match change {
        Change::Term(term) => kept.term < *term,
        Change::Accepted(state) => state.term <= kept.term,
        Change::Committed => true,
        Change::Renewed(generation) => generation.accepted.term <= generation.term,
    }
}

// Makes a change of the record.
fn make(kept: &mut Kept, change: Change)
    ensures { kept.new ≡ changed kept.old change }
{
    match change {
        Change::Term(term) => kept.term = term,
        Change::Accepted(state) => kept.accept(state),
        Change::Committed => kept.commit(),
        Change::Renewed(generation) => begin(kept, generation),
    }
}

// Makes a change, whose gate stands at this offset, and whose body may come too late, where it may follow on the record.
#[tactic(auto, using(crate::proofs::Folds::changed_fits), unfolding(crate::specs::Journal::with_change))]
fn apply(kept: &mut Kept, change: Change, at: u64, late: bool) -> Result<(), Fault>
    requires kept { IsFitRecord kept.old }
    requires change { IsFitChange change }
    ensures next { OnOk result (with_change at late kept.old (Ok change) ≡ Ok kept.new) }
    ensures fault { IfErr result (λ f. with_change at late kept.old (Ok change) ≡ Err f) }
    ensures fit { OnOk result (IsFitRecord kept.new) }
{
    if late || !is_in_order(kept, &change) {
        return Err(Fault::Order(at));
    }
    make(kept, change);
    Ok(())
}

// Makes the change that a body spells, whose gate stands at this offset.
#[tactic(auto, using(crate::proofs::Folds::error_with))]
fn add_change(
    alloc: Global,
    kept: &mut Kept,
    body: &[u8],
    at: u64,
    late: bool,
) -> Result<(), FoldError>
    requires { IsFitRecord kept.old }
    ensures next { OnOk result (with_change at late kept.old (change_at body.now) ≡ Ok kept.new) }
    ensures fault { IfErr result (λ e. IsFoldError e (with_change at late kept.old (change_at body.now))) }
    ensures fit { OnOk result (IsFitRecord kept.new) }
{
    match read_body(alloc, body) {
        Ok(change) => Ok(apply(kept, change, at, late)?),
        Err(error) => Err(error_of(error, at)),
    }
}

// Makes the change that a body spells, which may come after one of version 2.
fn add_body(
    alloc: Global,
    kept: &mut Kept,
    body: &[u8],
    at: u64,
    after: bool,
) -> Result<(), FoldError>
    requires { IsFitRecord kept.old }
    ensures next { OnOk result (with_body at after kept.old body.now ≡ Ok kept.new) }
    ensures fault { IfErr result (λ e. IsFoldError e (with_body at after kept.old body.now)) }
    ensures fit { OnOk result (IsFitRecord kept.new) }
{
    if let Some(fault) = guard_fault(at, body) {
        return Err(FoldError::Fault(fault));
    }
    let late = after && !is_guarded(body);
    add_change(alloc, kept, body, at, late)
}

// The record that these bodies of one side make, all of them.
fn fold_bodies(alloc: Global, bodies: &[Vec<u8>]) -> Result<Kept, FoldError>
    ensures reads { ReadsRecord result (folded_from 8 false empty_record (lists bodies.now)) }
    ensures fit { IfOk result IsFitRecord }
{
    let mut kept = Kept::empty(alloc)?;
    let mut at: u64 = 8;
    let mut after = false;
    for body in bodies {
        match add_body(alloc, &mut kept, body, at, after) {
            Ok(()) => {}
            Err(error) => return Err(error),
        }
        after = is_guarded(body);
        // No memory holds bodies that are too many for an offset.
        let Some(next) = at.checked_add(5 + body.len() as u64) else {
            return Err(FoldError::Memory);
        };
        at = next;
    }
    Ok(kept)
}

// The record of the side in use, by the bodies of both.
pub(crate) fn fold_sides(
    alloc: Global,
    side: Side,
    zero: &[Vec<u8>],
    one: &[Vec<u8>],
) -> Result<Kept, FoundError>
    ensures reads { FindsRecord result (on_its_side (found_by record_of_bodies (generations_in side zero.now one.now))) }
    ensures fit { IfOk result IsFitRecord }
{
    let zero = match fold_bodies(alloc, zero) {
        Ok(kept) => kept,
        Err(error) => return Err(found_error(Side::Zero, error)),
    };
    let one = match fold_bodies(alloc, one) {
        Ok(kept) => kept,
        Err(error) => return Err(found_error(Side::One, error)),
    };
    match side {
        Side::Zero => Ok(zero),
        Side::One => Ok(one),
    }
}
