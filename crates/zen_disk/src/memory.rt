//! A disk in memory, which says all that it holds.
ghost use Rattle.std.specs.Prelude.{◌≡◌, ◌+◌, ◌^◌, ◌≤◌, [], ◌∷◌, ◌++◌, length, reverse, OnOk, OnErr, ⊤, vec_len};
ghost use Rattle.zen_disk.specs.Disk.{written, part};
ghost use Rattle.zen_disk.specs.Faults.{Rose};
ghost use Rattle.zen_disk.specs.FileState.{state_of, left_by, both_left_by, settled};
ghost use Rattle.zen_disk.specs.Moments.{Only, Same};
ghost use Rattle.zen_disk.specs.Numbered.{next_number, is_listed};
ghost use Rattle.zen_disk.specs.UndoLog.{past_in, overwrite_at, IsProper, IsProper-prop, IsImage};
ghost use Rattle.zen_disk.specs.UndoOrder.{AreImages, WereImages, images-read, were-are, only-last};
ghost use Rattle.zen_disk.specs.UndoRecord.{Overwrote, Synced};

use crate::undo_log::{UndoLog, append, crash_file};
use crate::{Crash, Disks, Failed, Side, Way};
use std::alloc::{AllocError, Global};

const END: usize = 1 << 62;

/// One file in memory.
#[derive(Drop)]
pub struct MemFile {
    pub(crate) bytes: Vec<u8>,
    pub(crate) log: UndoLog,
    ghost proper: { IsProper (past_in log) bytes.items } by { IsProper-prop (past_in log) bytes.items },
}

/// Two files in memory that tell what they hold.
///
/// Each logs its writes and syncs, each write with the bytes that it replaced, and the order of all of them is kept too. So it
/// tells what a crash at an earlier moment might have left. A call fails where its number is in the list that the disk
/// was made with, a write also where it would end past byte 2^62, and a write or a sync also where a log or a file finds
/// no memory. A log has none for a write with an offset, a length, a number of bytes replaced before it or of syncs since the write
/// before it that is 2^32 or more. A sync also fails where 2^64 - 1 syncs of its side have come since the last write there.
#[derive(Drop)]
pub struct MemDisks {
    alloc: Global,
    pub(crate) zero: MemFile,
    pub(crate) one: MemFile,
    pub(crate) order: Vec<Side>,
    made: u64,
    failing: Vec<u64>,
    faults: u64,
}

// Counts a call, and says whether it is one of those that fail.
#[inline(always)]
fn count_call(made: &mut u64, failing: &[u64]) -> bool
    ensures made { made.new ≡ next_number made.old }
    ensures listed { result ≡ is_listed failing.now made.new }
{
    *made = made.saturating_add(1);
    failing.contains(made)
}

fn count_fault(faults: &mut u64) -> Failed
    ensures later { faults.old ≤ faults.new }
    ensures rose { Rose faults.old faults.new }
{
    *faults = faults.saturating_add(1);
    Failed
}

impl MemFile {
    // Writes the bytes over what is there, and notes the write.
    fn place(
        &mut self,
        order: &mut Vec<Side>,
        side: Side,
        at: usize,
        bytes: &[u8],
    ) -> Result<(), AllocError>
        requires { at ≤ length self.old.bytes.items }
        ensures ok { OnOk result (self.new.bytes.items ≡ written self.old.bytes.items at bytes.now) }
        ensures noted { OnOk result
            (past_in self.new.log ≡ Overwrote (overwrite_at at bytes.now self.old.bytes.items) ∷ past_in self.old.log) }
        ensures order { OnOk result (order.new.items ≡ order.old.items ++ side ∷ []) }
        ensures err { OnErr result (self.new.bytes.items ≡ self.old.bytes.items) }
        ensures err_log { OnErr result (past_in self.new.log ≡ past_in self.old.log) }
        ensures err_order { OnErr result (order.new.items ≡ order.old.items) }
    {
        let before = order.len();
        order.push(side)?;
        let Ok(()) = write_over(&mut self.bytes, &mut self.log, at, bytes) else {
            order.truncate(before);
            return Err(AllocError);
        };
        Ok(())
    }

    // Notes a sync.
    #[inline(always)]
    fn settle(&mut self, order: &mut Vec<Side>, side: Side) -> Result<(), AllocError>
        ensures bytes { self.new.bytes ≡ self.old.bytes }
        ensures noted { OnOk result (past_in self.new.log ≡ Synced ∷ past_in self.old.log) }
        ensures order { OnOk result (order.new.items ≡ order.old.items ++ side ∷ []) }
        ensures err_log { OnErr result (past_in self.new.log ≡ past_in self.old.log) }
        ensures err_order { OnErr result (order.new.items ≡ order.old.items) }
    {
        let before = order.len();
        order.push(side)?;
        let Ok(()) = self.log.note_sync() else {
            order.truncate(before);
            return Err(AllocError);
        };
        Ok(())
    }
}

// Writes the bytes over others. Often there are none or one, as in `append`.
#[inline(always)]
fn overwrite(file: &mut Vec<u8>, at: usize, bytes: &[u8])
    requires { at + length bytes.now ≤ vec_len file.old }
    ensures { file.new.items ≡ written file.old.items at bytes.now }
{
    match bytes.len() {
        0 => {}
        1 => file[at] = bytes[0],
        _ => file[at..at + bytes.len()].copy_from_slice(bytes),
    }
}

// Writes the bytes over what is there, and logs the write.
#[inline(always)]
fn write_over(
    file: &mut Vec<u8>,
    log: &mut UndoLog,
    at: usize,
    bytes: &[u8],
) -> Result<(), AllocError>
    requires { at ≤ vec_len file.old }
    ensures ok { OnOk result (file.new.items ≡ written file.old.items at bytes.now) }
    ensures noted { OnOk result (past_in log.new ≡ Overwrote (overwrite_at at bytes.now file.old.items) ∷ past_in log.old) }
    ensures err { OnErr result (file.new.items ≡ file.old.items) }
    ensures err_log { OnErr result (past_in log.new ≡ past_in log.old) }
{
    let end = file.len();
    let kept = bytes.len().min(end - at);
    append(file, &bytes[kept..])?;
    let Ok(()) = log.note_write(at, bytes.len(), &file[at..at + kept]) else {
        file.truncate(end);
        return Err(AllocError);
    };
    overwrite(file, at, &bytes[..kept]);
    Ok(())
}

impl Disks for MemDisks {
    ghost use Rattle.zen_disk.specs.MemDisks.{MemMoves, past_of, read_of};

    ghost told = { ⊤ };

    ghost seen = { read_of };

    ghost may_leave = { λ m. AreImages (past_of m) (read_of m) };

    ghost moment = { λ m. length (reverse m.order.items) };

    ghost left_since = { λ m. WereImages (reverse m.order.items) (past_of m) (read_of m) };

    ghost faults = { λ m. m.faults };

    ghost moves = { MemMoves };

    ghost seen_may_stay = { λ m told. images-read (past_of m) (read_of m) };

    ghost counts_now = { λ m t c le are. were-are (reverse m.order.items) (past_of m) (read_of m) t c are };

    ghost only_now = { λ m c were. only-last (reverse m.order.items) (past_of m) (read_of m) c were };

    fn len(&mut self, side: Side) -> Result<u64, Failed> {
        if count_call(&mut self.made, &self.failing) {
            return Err(count_fault(&mut self.faults));
        }
        match side {
            Side::Zero => Ok(self.zero.bytes.len() as u64),
            Side::One => Ok(self.one.bytes.len() as u64),
        }
    }

    fn read(&mut self, side: Side, at: u64, into: &mut [u8]) -> Result<(), Failed> {
        if count_call(&mut self.made, &self.failing) {
            return Err(count_fault(&mut self.faults));
        }
        let at = at as usize;
        match side {
            Side::Zero => {
                into.copy_from_slice(&self.zero.bytes[at..at + into.len()]);
                Ok(())
            }
            Side::One => {
                into.copy_from_slice(&self.one.bytes[at..at + into.len()]);
                Ok(())
            }
        }
    }

    fn write_at(&mut self, side: Side, at: u64, bytes: &[u8]) -> Result<(), Failed> {
        if count_call(&mut self.made, &self.failing) {
            return Err(count_fault(&mut self.faults));
        }
        let at = at as usize;
        if at > END || bytes.len() > END - at {
            return Err(count_fault(&mut self.faults));
        }
        match side {
            Side::Zero => {
                let Ok(()) = self.zero.place(&mut self.order, side, at, bytes) else {
                    return Err(count_fault(&mut self.faults));
                };
                Ok(())
            }
            Side::One => {
                let Ok(()) = self.one.place(&mut self.order, side, at, bytes) else {
                    return Err(count_fault(&mut self.faults));
                };
                Ok(())
            }
        }
    }

    fn sync(&mut self, side: Side) -> Result<(), Failed> {
        if count_call(&mut self.made, &self.failing) {
            return Err(count_fault(&mut self.faults));
        }
        match side {
            Side::Zero => {
                let Ok(()) = self.zero.settle(&mut self.order, side) else {
                    return Err(count_fault(&mut self.faults));
                };
                Ok(())
            }
            Side::One => {
                let Ok(()) = self.one.settle(&mut self.order, side) else {
                    return Err(count_fault(&mut self.faults));
                };
                Ok(())
            }
        }
    }
}

impl Crash for MemDisks {
    ghost use Rattle.zen_disk.specs.MemDisks.{files_of};

    ghost crashes = { λ m way n. files_of n ≡ both_left_by way (files_of m) };

    fn crash(self, way: Way) -> Self {
        let zero = crashed(self.zero, way);
        let one = crashed(self.one, way);
        MemDisks {
            alloc: self.alloc,
            zero,
            one,
            order: Vec::new(self.alloc),
            made: self.made,
            failing: self.failing,
            faults: self.faults,
        }
    }
}

// What a crash makes of one file.
fn crashed(file: MemFile, way: Way) -> MemFile
    ensures state { state_of (past_in result.log) result.bytes.items ≡ left_by way (state_of (past_in file.log) file.bytes.items) }
    ensures image { IsImage (past_in file.log) file.bytes.items result.bytes.items }
    ensures stable { (way ≡ Way.Kept → ⊥) → Only result.bytes.items (IsImage (past_in result.log) result.bytes.items) }
    ensures kept { way ≡ Way.Kept
        → Same (IsImage (past_in file.log) file.bytes.items) (IsImage (past_in result.log) result.bytes.items) }
{
    let mut bytes = file.bytes;
    let mut log = file.log;
    crash_file(&mut bytes, &mut log, way);
    MemFile { bytes, log }
}

impl MemDisks {
    ghost use Rattle.zen_disk.specs.MemDisks.{files_of, past_of, read_of};

    /// Two files with these bytes, all of them stable. The calls of these numbers fail, the first call being 1.
    pub fn new(alloc: Global, zero: Vec<u8>, one: Vec<u8>, failing: Vec<u64>) -> Self
        ensures files { files_of result ≡ record { zero = settled zero.items; one = settled one.items } }
        ensures seen { read_of result ≡ record { zero = zero.items; one = one.items } }
        ensures durable { Only (read_of result) (AreImages (past_of result) (read_of result)) }
        ensures made { result.made ≡ 0 }
        ensures failing { result.failing ≡ failing }
        ensures faults { result.faults ≡ 0 }
    {
        MemDisks {
            alloc,
            zero: MemFile {
                bytes: zero,
                log: UndoLog::new(alloc),
            },
            one: MemFile {
                bytes: one,
                log: UndoLog::new(alloc),
            },
            order: Vec::new(alloc),
            made: 0,
            failing,
            faults: 0,
        }
    }
}
