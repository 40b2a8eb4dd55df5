//! `GateLog`: the journal of bodies in two files, open on a disk.
ghost use Rattle.std.specs.Prelude.{is_ok, Ok, Some, ◌≡◌, ◌+◌, ◌^◌, ◌≤◌, ◌<◌, ◌↔◌, true, false, [], ◌∷◌, ◌++◌, List, ℕ, length, OnOk, IfOk, IfErr, IsErrOf, IsErr};
ghost use Rattle.gate_log.specs.Generations.{generations_of, standing_in, in_use, is_generation, renewed, tail_of, IsSettled, IsRenewed, IsEitherList, Begins};
ghost use Rattle.gate_log.specs.Journal.{framed, IsFrame, most_body};
ghost use Rattle.zen_disk.specs.Moments.{LeavesOnly, Same};
ghost use Rattle.zen_disk.specs.Runs.{CallsMade};
ghost use Rattle.zen_disk.specs.Sides.{on, other};

use crate::add::add_record;
use crate::frame::{make_frame, small_frame};
use crate::open::open_side;
use crate::order::{chosen, epoch_of, start_of};
use crate::refusal::refused;
use crate::renew::write_generation;
use crate::{AppendError, LogError};
use std::alloc::Global;
use zen_disk::{Armable, Disks, Order, Side};

pub(crate) const MAX_BODY: usize = 8_388_608;

// A length before it and a closed gate after it.
const MAX_FRAME: usize = MAX_BODY + 5;

/// A journal that is open.
#[derive(Drop)]
pub struct GateLog<D: Disks> {
    alloc: Global,
    disk: D,
    // the side in use
    side: Side,
    // the offset of its closed gate
    gate: u64,
    // that of the closed gate on the other side
    other_gate: u64,
    // the epoch of the side in use
    epoch: u64,
    // the offset from which its tail counts
    start: u64,
    stopped: bool,
    ghost limit: { gate < 2 ^ 63 },
    ghost settled: { D.told → stopped ≡ false → IsSettled (D.seen disk) (D.may_leave disk) side gate other_gate epoch },
    ghost counted: { D.told → stopped ≡ false → start + tail_of (in_use (standing_in (D.seen disk))) ≡ gate },
}

/// A journal with the bodies that each side had when it was opened.
#[derive(Drop)]
pub struct Opened<D: Disks> {
    pub log: GateLog<D>,
    pub zero: Vec<Vec<u8>>,
    pub one: Vec<Vec<u8>>,
}

impl<D: Disks> GateLog<D> {
    ghost use Rattle.gate_log.specs.Appends.{Answers, Appends};
    ghost use Rattle.gate_log.specs.Calls.{both_opening_calls, renewal_calls};
    ghost use Rattle.gate_log.specs.Errors.{CalledDisk};
    ghost use Rattle.gate_log.specs.Generations.{StandsAsSome};
    ghost use Rattle.gate_log.specs.Opened.{generations_in};
    ghost use Rattle.gate_log.specs.Place.{epoch_in_use, place};
    ghost use Rattle.gate_log.specs.Opening.{handed_back, IsWhyOf, RanUntil, RoseIfDisk};

    /// Opens two files that a crash may have left. One of at most nine bytes has no bodies.
    ///
    /// It makes four device calls for such a file, which gets a header, else three: its bytes are read once. Those on side
    /// zero come first. `NotAJournal` names the first fault of the files, `Disk` comes where a call fails, and `Memory` where
    /// there is none for a file and its bodies. Each hands the disk back.
    pub fn open(alloc: Global, disk: D) -> Result<Opened<D>, LogError<D>>
        ensures bodies { D.told
            → IfOk result (λ o. generations_of (D.seen disk) ≡ Ok (generations_in o.log.side o.zero.items o.one.items)) }
        ensures keeps { D.told
            → IfOk result (λ o. generations_of (D.seen o.log.disk) ≡ Ok (generations_in o.log.side o.zero.items o.one.items)) }
        ensures runs { IfOk result (λ o. o.log.stopped ≡ false) }
        ensures why { D.told → IfErr result (IsWhyOf (D.seen disk)) }
        ensures cause { IfErr result (RoseIfDisk D.faults (D.faults disk)) }
        ensures later { IfOk result (λ o. D.faults disk ≤ D.faults o.log.disk) }
        ensures later_err { IfErr result (λ e. D.faults disk ≤ D.faults (handed_back e)) }

        // A crash at any moment leaves what stands for what it might have stood for before.
        ensures any_moment { D.told
            → IfOk result (λ o. LeavesOnly D.moment D.left_since disk o.log.disk (StandsAsSome (D.may_leave disk))) }
        ensures any_moment_err { D.told
            → IfErr result (λ e. LeavesOnly D.moment D.left_since disk (handed_back e) (StandsAsSome (D.may_leave disk))) }

        // These device calls and no others.
        ensures ran { D.told → IfOk result (λ o. CallsMade D.moves (both_opening_calls (D.seen disk)) disk o.log.disk true) }
        ensures ran_err { D.told → IfErr result (RanUntil D.moves (D.seen disk) disk) }
    {
        let mut disk = disk;
        let zero = match open_side(alloc, &mut disk, Side::Zero) {
            Ok(scanned) => scanned,
            Err(error) => return Err(refused(Side::Zero, error, disk)),
        };
        let one = match open_side(alloc, &mut disk, Side::One) {
            Ok(scanned) => scanned,
            Err(error) => return Err(refused(Side::One, error, disk)),
        };
        let zero_epoch = epoch_of(Side::Zero, &zero.bodies);
        let one_epoch = epoch_of(Side::One, &one.bodies);
        let side = match chosen(zero_epoch, one_epoch) {
            Ok(side) => side,
            Err(why) => return Err(LogError::NotAJournal(why, disk)),
        };
        match side {
            Side::Zero => {
                Ok(Opened {
                    log: GateLog {
                        alloc,
                        disk,
                        side: Side::Zero,
                        gate: zero.gate as u64,
                        other_gate: one.gate as u64,
                        epoch: zero_epoch.unwrap_or(0),
                        start: start_of(&zero.bodies),
                        stopped: false,
                    },
                    zero: zero.bodies,
                    one: one.bodies,
                })
            }
            Side::One => {
                Ok(Opened {
                    log: GateLog {
                        alloc,
                        disk,
                        side: Side::One,
                        gate: one.gate as u64,
                        other_gate: zero.gate as u64,
                        epoch: one_epoch.unwrap_or(0),
                        start: start_of(&one.bodies),
                        stopped: false,
                    },
                    zero: zero.bodies,
                    one: one.bodies,
                })
            }
        }
    }

    /// Adds a body, which begins no generation, to the side in use. At `Ok` it is kept: from then on each crash leaves files
    /// that have it.
    ///
    /// It reads nothing and makes four device calls.
    pub fn append(&mut self, body: &[u8]) -> Result<(), AppendError>
        requires { is_generation body.now ≡ false }
        ensures appends { Appends D.Disks body.now self.old self.new result }
        ensures too_long { IsErrOf result AppendError.TooLong ↔ ((self.old.stopped ≡ false) × (most_body < length body.now)) }
    {
        if self.stopped {
            return Err(AppendError::Stopped);
        }
        if body.len() > MAX_BODY {
            return Err(AppendError::TooLong);
        }
        let Ok(frame) = make_frame(self.alloc, body) else {
            return Err(AppendError::Memory);
        };
        self.keep(&frame)
    }

    /// The same for a body of at most 64 bytes. It takes no memory.
    pub fn append_small(&mut self, body: &[u8]) -> Result<(), AppendError>
        requires small { length body.now ≤ 64 }
        requires plain { is_generation body.now ≡ false }
        ensures appends { Appends D.Disks body.now self.old self.new result }
        ensures only { (IsErrOf result AppendError.Memory → ⊥) × (IsErrOf result AppendError.TooLong → ⊥) }
    {
        if self.stopped {
            return Err(AppendError::Stopped);
        }
        let frame = small_frame(body);
        self.keep(&frame)
    }

    /// The same for a body given as its length in 4 bytes, the body and a closed gate. It takes no memory.
    pub fn append_framed(&mut self, frame: &[u8]) -> Result<(), AppendError>
        requires { (body : List ℕ) × (frame.now ≡ framed body) × (is_generation body ≡ false) }
        ensures appends { (body : List ℕ) → frame.now ≡ framed body → is_generation body ≡ false
            → Appends D.Disks body self.old self.new result }
        ensures too_long { IsErrOf result AppendError.TooLong ↔ ((self.old.stopped ≡ false) × (most_body + 5 < length frame.now)) }
        ensures only { IsErrOf result AppendError.Memory → ⊥ }
    {
        if self.stopped {
            return Err(AppendError::Stopped);
        }
        if frame.len() > MAX_FRAME {
            return Err(AppendError::TooLong);
        }
        self.keep(frame)
    }

    // Adds a body that is framed and not too long.
    fn keep(&mut self, frame: &[u8]) -> Result<(), AppendError>
        requires runs { self.old.stopped ≡ false }
        requires frame { (body : List ℕ) × IsFrame body frame.now × (is_generation body ≡ false) }
        ensures appends { (body : List ℕ) → IsFrame body frame.now → is_generation body ≡ false
            → Appends D.Disks body self.old self.new result }
        ensures only { IsErr result → IsErrOf result AppendError.Disk }
    {
        let Ok(()) = add_record(&mut self.disk, self.side, self.gate, frame) else {
            self.stopped = true;
            return Err(AppendError::Disk);
        };
        self.gate += frame.len() as u64;
        Ok(())
    }

    /// Begins a new generation: its one body, given as its length in 4 bytes, the body and a closed gate, is written to the
    /// other side, which is then in use. The body begins with a 4 or a 132 and the next epoch in 8 bytes.
    ///
    /// It takes no memory and reads nothing. It makes four device calls, or six where the other side has bodies: these are
    /// put away first.
    pub fn renew(&mut self, frame: &[u8]) -> Result<(), AppendError>
        requires { (body : List ℕ) × (frame.now ≡ framed body) × Begins self.old.epoch body }
        ensures ok { D.told → (body : List ℕ) → frame.now ≡ framed body → Begins self.old.epoch body
            → OnOk result (standing_in (D.seen self.new.disk) ≡ renewed (standing_in (D.seen self.old.disk)) body) }
        ensures answers { Answers D.Disks self.old self.new result }
        ensures too_long { IsErrOf result AppendError.TooLong ↔ ((self.old.stopped ≡ false) × (most_body + 5 < length frame.now)) }
        ensures only { IsErrOf result AppendError.Memory → ⊥ }
        ensures epoch { OnOk result (self.new.epoch ≡ self.old.epoch + 1) }
        ensures side { OnOk result (self.new.side ≡ other self.old.side) }

        // A crash at any moment leaves the bodies from before it, or its one body.
        ensures any_moment { D.told → (body : List ℕ) → frame.now ≡ framed body → Begins self.old.epoch body → self.old.stopped ≡ false
            → LeavesOnly D.moment D.left_since self.old.disk self.new.disk (IsRenewed (standing_in (D.seen self.old.disk)) body) }

        ensures list { D.told → (body : List ℕ) → frame.now ≡ framed body → Begins self.old.epoch body → self.old.stopped ≡ false
            → LeavesOnly D.moment D.left_since self.old.disk self.new.disk
            (IsEitherList (in_use (standing_in (D.seen self.old.disk))) (body ∷ [])) }

        // These device calls and no others.
        ensures ran { CalledDisk result
            → CallsMade D.moves (renewal_calls (other self.old.side) self.old.other_gate frame.now) self.old.disk self.new.disk
            (is_ok result) }
    {
        if self.stopped {
            return Err(AppendError::Stopped);
        }
        if frame.len() > MAX_FRAME {
            return Err(AppendError::TooLong);
        }
        let side = self.side.other();
        let Ok(()) = write_generation(&mut self.disk, side, self.other_gate, frame) else {
            self.stopped = true;
            return Err(AppendError::Disk);
        };
        self.other_gate = self.gate;
        self.side = side;
        self.gate = 8 + frame.len() as u64;
        self.start = self.gate;
        self.epoch += 1;
        Ok(())
    }

    /// The side in use.
    pub fn side(&self) -> Side
        ensures value { result ≡ self.now.side }
        ensures stands { D.told → self.now.stopped ≡ false → (standing_in (D.seen self.now.disk)).side ≡ result }
    {
        self.side
    }

    /// The epoch of the side in use, at most 2^62.
    pub fn epoch(&self) -> u64
        ensures value { result ≡ self.now.epoch }
        ensures stands { D.told → self.now.stopped ≡ false → epoch_in_use (standing_in (D.seen self.now.disk)) ≡ result }
    {
        self.epoch
    }

    /// How many bytes the bodies in use take with their lengths and gates, without a first one that begins a generation.
    pub fn tail(&self) -> u64
        ensures value { result ≡ (place self.now).tail }
        ensures stands { D.told → self.now.stopped ≡ false → tail_of (in_use (standing_in (D.seen self.now.disk))) ≡ result }
    {
        self.gate.saturating_sub(self.start)
    }

    /// Whether a call answered `Disk`. Every append and renewal is refused from then on.
    pub fn stopped(&self) -> bool
        ensures { result ≡ self.now.stopped }
    {
        self.stopped
    }

    /// Lends the disk.
    pub fn disk(&self) -> &D
        ensures { result.now ≡ self.now.disk }
    {
        &self.disk
    }

    /// Hands the disk out.
    pub fn into_disk(self) -> D
        ensures { result ≡ self.disk }
    {
        self.disk
    }
}

impl<D: Armable> GateLog<D> {
    ghost use Rattle.gate_log.specs.Place.{place};

    /// Orders a stop or a fault of its disk. This is no device call.
    pub fn arm(&mut self, order: Order)
        ensures arms { D.arms self.old.disk order self.new.disk }
        ensures place { place self.new ≡ place self.old }
        ensures stopped { self.new.stopped ≡ self.old.stopped }
        ensures seen { D.Disks.seen self.new.disk ≡ D.Disks.seen self.old.disk }
        ensures may_leave { Same (D.Disks.may_leave self.old.disk) (D.Disks.may_leave self.new.disk) }
        ensures left_since { (t : ℕ) → Same (D.Disks.left_since self.old.disk t) (D.Disks.left_since self.new.disk t) }
        ensures moment { D.Disks.moment self.new.disk ≡ D.Disks.moment self.old.disk }
        ensures faults { D.Disks.faults self.new.disk ≡ D.Disks.faults self.old.disk }
    {
        self.disk.arm(order);
    }
}
