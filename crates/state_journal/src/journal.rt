//! `StateJournal`: the keeper over a journal of changes in two files.
ghost use Rattle.std.specs.Prelude.{◌≡◌, ◌≤◌, true, false, length, Ok, IfOk, IfErr};
ghost use Rattle.gate_log.specs.Folded.{found_by};
ghost use Rattle.cluster_state.specs.Field.{last_number};
ghost use Rattle.cluster_state.specs.States.{IsFit};
ghost use Rattle.gate_log.specs.Calls.{both_opening_calls};
ghost use Rattle.gate_log.specs.Generations.{in_use, standing_in};
ghost use Rattle.gate_log.specs.Opened.{generations_in, lists};
ghost use Rattle.gate_log.specs.Place.{place};
ghost use Rattle.zen_disk.specs.Moments.{LeavesOnly};
ghost use Rattle.zen_disk.specs.Runs.{CallsMade};
ghost use Rattle.state_journal.specs.Bodies.{body_of, holds_old as spec_holds_old};
ghost use Rattle.state_journal.specs.Drafts.{IsDraft};
ghost use Rattle.state_journal.specs.Fit.{IsFit-prop, IsDraft-prop};
ghost use Rattle.state_journal.specs.Keeping.{keeping_calls};
ghost use Rattle.state_journal.specs.Journal.{found_of, records_of, record_of_bodies, on_its_side, only_record, record_stays, FoundAsSome, StoodFor};
ghost use Rattle.state_journal.specs.Reads.{IsFitRecord, IsFoundError};
ghost use Rattle.state_journal.specs.declared.change.Change.TheVariants as change;

use crate::body::{committed_body, is_guarded, term_body};
use crate::draft::Draft;
use crate::fold::{FoundError, fold_sides};
use crate::keep::{keep_small, keep_state, usage_after};
use crate::refusal::{not_found, refused};
use crate::{ArmKeeper, KeepError, Keeper, OpenError, Ready};
use arrayvec::ArrayVec;
use cluster_state::Kept;
use gate_log::GateLog;
use std::alloc::Global;
use zen_disk::{Armable, Disks, Order, Side};

/// A keeper over a journal in two generations, in which each change is a body.
///
/// Where a change would make the bodies after the record that a generation began with take more than 65,536 bytes, the record with
/// the change begins the next generation, in the other file. The same holds of the first change after a body of version 1.
#[derive(Drop)]
pub struct StateJournal<D: Disks> {
    log: GateLog<D>,
    kept: Kept,
    // how many bodies are in use
    records: u64,
    // whether one of them is of version 1: then a generation is due
    due: bool,
    // the accepted state, ready to begin a generation
    draft: Draft,
    // the body that marks the accepted configuration as committed, which is the same each time
    mark: ArrayVec<u8, 64>,
    ghost stands: { D.told → log.stopped ≡ false → found_of (D.seen log.disk) ≡ Ok kept },
    ghost counted: { D.told → log.stopped ≡ false → records ≡ records_of (D.seen log.disk) },
    ghost aged: { D.told → log.stopped ≡ false → due ≡ spec_holds_old (in_use (standing_in (D.seen log.disk))) },
    ghost bounded: { kept.term ≤ last_number },
    ghost fit: { IsFit kept.accepted } by { IsFit-prop kept.accepted },
    ghost older: { kept.accepted.term ≤ kept.term },
    ghost drafted: { IsDraft kept.accepted draft } by { IsDraft-prop kept.accepted draft },
    ghost marks: { mark.items ≡ body_of change.Committed },
}

// How many bodies the side in use has.
fn count_in_use(side: Side, zero: &[Vec<u8>], one: &[Vec<u8>]) -> u64
    ensures { result ≡ length (in_use (generations_in side zero.now one.now)) }
{
    match side {
        Side::Zero => zero.len() as u64,
        Side::One => one.len() as u64,
    }
}

// Whether one of these bodies is of version 1.
fn holds_old(bodies: &[Vec<u8>]) -> bool
    ensures { result ≡ spec_holds_old (lists bodies.now) }
{
    for body in bodies {
        if !is_guarded(body) {
            return true;
        }
    }
    false
}

// Whether one of the bodies of the side in use is of version 1.
fn old_in_use(side: Side, zero: &[Vec<u8>], one: &[Vec<u8>]) -> bool
    ensures { result ≡ spec_holds_old (in_use (generations_in side zero.now one.now)) }
{
    match side {
        Side::Zero => holds_old(zero),
        Side::One => holds_old(one),
    }
}

// What the bodies of both sides make.
#[derive(Drop)]
struct Found {
    kept: Kept,
    records: u64,
    due: bool,
    draft: Draft,
}

// What these bodies make, of which those of this side are in use.
fn find(alloc: Global, side: Side, zero: &[Vec<u8>], one: &[Vec<u8>]) -> Result<Found, FoundError>
    ensures kept { IfOk result (λ f. on_its_side (found_by record_of_bodies (generations_in side zero.now one.now)) ≡ Ok f.kept) }
    ensures why { IfErr result (λ e. IsFoundError e (on_its_side (found_by record_of_bodies (generations_in side zero.now one.now)))) }
    ensures fit { IfOk result (λ f. IsFitRecord f.kept) }
    ensures drafted { IfOk result (λ f. IsDraft f.kept.accepted f.draft) }
    ensures counted { IfOk result (λ f. f.records ≡ length (in_use (generations_in side zero.now one.now))) }
    ensures aged { IfOk result (λ f. f.due ≡ spec_holds_old (in_use (generations_in side zero.now one.now))) }
{
    let kept = match fold_sides(alloc, side, zero, one) {
        Ok(kept) => kept,
        Err(error) => return Err(error),
    };
    let Ok(draft) = Draft::new(alloc, &kept.accepted) else {
        return Err(FoundError::Memory);
    };
    Ok(Found {
        kept,
        records: count_in_use(side, zero, one),
        due: old_in_use(side, zero, one),
        draft,
    })
}

impl<D: Disks> StateJournal<D> {
    ghost use Rattle.state_journal.specs.Opening.{handed_back, IsWhyOf, RanUntil, RoseIfDisk};

    /// Opens a journal that a crash may have left. A file of at most nine bytes has no bodies.
    ///
    /// `NotAJournal` has the first fault of the two files, `Disk` comes only where the count of faults rose, and `Memory` where
    /// there is none for the files, their bodies, a state or what a renewal needs. Each hands the disk back.
    ///
    /// For each file it makes four device calls where that has at most nine bytes, else three.
    pub fn open(alloc: Global, disk: D) -> Result<StateJournal<D>, OpenError<D>>
        ensures found { D.told → IfOk result (λ j. found_of (D.seen disk) ≡ Ok j.kept) }
        ensures keeps { D.told → IfOk result (λ j. found_of (D.seen j.log.disk) ≡ Ok j.kept) }
        ensures runs { IfOk result (λ j. j.log.stopped ≡ false) }
        ensures records { D.told → IfOk result (λ j. j.records ≡ records_of (D.seen disk)) }
        ensures why { D.told → IfErr result (IsWhyOf (D.seen disk)) }
        ensures cause { IfErr result (RoseIfDisk D.faults (D.faults disk)) }
        ensures later { IfOk result (λ j. D.faults disk ≤ D.faults j.log.disk) }
        ensures later_err { IfErr result (λ e. D.faults disk ≤ D.faults (handed_back e)) }

        // After a crash at any moment an opening finds what it might have found before.
        ensures any_moment { D.told → IfOk result (λ j. LeavesOnly D.moment D.left_since disk j.log.disk (FoundAsSome (D.may_leave disk))) }
        ensures any_moment_err { D.told
            → IfErr result (λ e. LeavesOnly D.moment D.left_since disk (handed_back e) (FoundAsSome (D.may_leave disk))) }

        // These device calls and no others.
        ensures ran { D.told → IfOk result (λ j. CallsMade D.moves (both_opening_calls (D.seen disk)) disk j.log.disk true) }
        ensures ran_err { D.told → IfErr result (RanUntil D.moves (D.seen disk) disk) }
    {
        let opened = match GateLog::open(alloc, disk) {
            Ok(opened) => opened,
            Err(error) => return Err(refused(error)),
        };
        match find(alloc, opened.log.side(), &opened.zero, &opened.one) {
            Ok(found) => Ok(StateJournal {
                log: opened.log,
                kept: found.kept,
                records: found.records,
                due: found.due,
                draft: found.draft,
                mark: committed_body(),
            }),
            Err(error) => Err(not_found(error, opened.log.into_disk())),
        }
    }

    /// How many bodies are in use.
    pub fn records(&self) -> u64
        ensures { result ≡ self.now.records }
    {
        self.records
    }

    /// Lends the disk.
    pub fn disk(&self) -> &D
        ensures { result.now ≡ self.now.log.disk }
    {
        self.log.disk()
    }

    /// Hands the disk out.
    pub fn into_disk(self) -> D
        ensures { result ≡ self.log.disk }
    {
        self.log.into_disk()
    }
}

impl<D: Disks> Keeper for StateJournal<D> {
    ghost told = { D.told };

    ghost record_of = { λ j. j.kept };

    ghost has_stopped = { λ j. j.log.stopped };

    ghost faults = { λ j. D.faults j.log.disk };

    ghost moment = { λ j. D.moment j.log.disk };

    ghost left_since = { λ j. StoodFor (D.left_since j.log.disk) };

    ghost writes = { λ j change k ok. CallsMade D.moves (keeping_calls j.due (place j.log) j.kept change) j.log.disk k.log.disk ok };

    ghost only_kept = { λ j found told running left.
        only_record (D.seen j.log.disk) (D.left_since j.log.disk (D.moment j.log.disk)) (D.may_leave j.log.disk) j.kept found
        (D.only_now j.log.disk) (j.log.settled told running).durable (j.stands told running) left };

    ghost may_stay = { λ j t told so_far running.
        record_stays (D.seen j.log.disk) (D.left_since j.log.disk) t j.kept
        (D.counts_now j.log.disk t (D.seen j.log.disk) so_far (D.seen_may_stay j.log.disk told)) (j.stands told running) };

    fn kept(&self) -> &Kept {
        &self.kept
    }

    fn stopped(&self) -> bool {
        self.log.stopped()
    }

    fn set_term(&mut self, term: u64) -> Result<(), KeepError> {
        if self.log.stopped() {
            return Err(KeepError::Stopped);
        }
        let body = term_body(term);
        let usage = usage_after(&self.log, self.due, self.records, body.len());
        let Ok(()) = keep_small(
            &mut self.log,
            &mut self.draft,
            self.due,
            &body,
            term,
            self.kept.committed.members().as_slice(),
        ) else {
            return Err(KeepError::Disk);
        };
        self.kept.term = term;
        self.records = usage.records;
        self.due = usage.due;
        Ok(())
    }

    fn set_accepted(&mut self, ready: Ready) -> Result<(), KeepError> {
        if self.log.stopped() {
            return Err(KeepError::Stopped);
        }
        let Ready { state, mut draft } = ready;
        let usage = usage_after(&self.log, self.due, self.records, draft.len() + 33);
        let Ok(()) = keep_state(
            &mut self.log,
            &mut draft,
            self.due,
            self.kept.term,
            state.committed.as_slice(),
            state.accepted_digest(),
        ) else {
            return Err(KeepError::Disk);
        };
        self.kept.accept(state);
        self.draft = draft;
        self.records = usage.records;
        self.due = usage.due;
        Ok(())
    }

    fn mark_committed(&mut self) -> Result<(), KeepError> {
        if self.log.stopped() {
            return Err(KeepError::Stopped);
        }
        let usage = usage_after(&self.log, self.due, self.records, self.mark.len());
        let Ok(()) = keep_small(
            &mut self.log,
            &mut self.draft,
            self.due,
            &self.mark,
            self.kept.term,
            self.kept.accepted.config.as_slice(),
        ) else {
            return Err(KeepError::Disk);
        };
        self.kept.commit();
        self.records = usage.records;
        self.due = usage.due;
        Ok(())
    }
}

impl<D: Armable> ArmKeeper for StateJournal<D> {
    ghost arms = { λ j order k. D.arms j.log.disk order k.log.disk × (place k.log ≡ place j.log)
        × (k.log.stopped ≡ j.log.stopped) × (k.kept ≡ j.kept) × (k.records ≡ j.records) × (k.due ≡ j.due) };

    fn arm(&mut self, order: Order) {
        self.log.arm(order);
    }
}
