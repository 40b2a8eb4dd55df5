//! `SocketLink`: a node's link over sockets.
ghost use Rattle.std.specs.Prelude.{◌≡◌, ℕ, ◌≤◌, IfOk, IfSome, IsTrue, IsErrOf, None, ⊤};
ghost use Rattle.zen_disk.specs.Faults.{Rose};
ghost use Rattle.zen_link.specs.Told.{has_low_conn};

use crate::framing::Framing;
use crate::sockets::Sockets;
use std::alloc::Global;
use std::io;
use std::net::Net;
use std::random::RandomSource;
use std::rt::Clock;
use std::time::Instant;
use zen_host::HostError;
use zen_link::{Input, Link, LinkError, LinkSettings};

// The longest wait for something to come, in milliseconds.
const WAIT_MS: u64 = 50;

// The longest time without a tick while inputs come, in milliseconds; where an event takes longer, each second input is one.
const LATE_MS: u64 = 100;

// The same two, in milliseconds, while an election may be on, whose waits are short.
const BRISK_WAIT_MS: u64 = 10;

const BRISK_LATE_MS: u64 = 20;

// For how long that is so after a connection has ended that brought frames, in milliseconds.
const BRISK_MS: u64 = 1000;

/// A link over sockets. It tells nothing but its counts.
#[derive(Drop)]
pub struct SocketLink<R: Net + Clock + RandomSource + Drop, F: Framing + Drop> {
    rt: R,
    framing: F,
    sockets: Sockets,
    opened: Instant,
    // The moment of the last tick.
    ticked: u64,
    // Whether a tick was given last.
    ticked_last: bool,
    // Before this moment ticks come more often.
    brisk_until: u64,
    // how often `next` was called
    asked: u64,
    faults: u64,
}

impl<R: Net + Clock + RandomSource + Drop, F: Framing + Drop> SocketLink<R, F> {
    /// Listens, and keeps where the peers do. `Failed` where an address is no number and port or the system refuses to listen.
    pub fn open(
        rt: R,
        alloc: Global,
        framing: F,
        settings: &LinkSettings,
    ) -> Result<SocketLink<R, F>, HostError>
        ensures fresh { IfOk result (λ link. ⟦<SocketLink<R, F> as Link>⟧.faults link ≡ 0) }
    {
        let Ok(opened) = Instant::now(&rt) else {
            return Err(HostError::Failed);
        };
        let sockets = Sockets::open(&rt, alloc, settings)?;
        Ok(SocketLink {
            rt,
            framing,
            sockets,
            opened,
            ticked: 0,
            ticked_last: false,
            brisk_until: 0,
            asked: 0,
            faults: 0,
        })
    }

    /// How often the system has failed.
    pub fn fault_count(&self) -> u64
        ensures { result ≡ ⟦<SocketLink<R, F> as Link>⟧.faults self.now }
    {
        self.faults
    }

    // What comes before the next tick is due.
    fn found(&mut self) -> Result<Option<Input>, LinkError>
        ensures conn { IfOk result (λ found. IfSome found (λ input. IsTrue (has_low_conn input))) }
        ensures same { self.new.faults ≡ self.old.faults }
        ensures asked { self.new.asked ≡ self.old.asked }
    {
        let Ok(now) = passed(&self.rt, &self.opened) else {
            return Err(LinkError::Failed);
        };
        if self.sockets.take_end() {
            self.brisk_until = now.saturating_add(BRISK_MS);
        }
        let (wait, late) = if now < self.brisk_until {
            (BRISK_WAIT_MS, BRISK_LATE_MS)
        } else {
            (WAIT_MS, LATE_MS)
        };
        let late = self.ticked.saturating_add(late);
        if now >= late && !self.ticked_last {
            self.sockets.serve(&self.framing, now);
            return Ok(None);
        }
        // where a tick is due again at once, what has come by now goes first
        let until = now.saturating_add(wait).min(late);
        self.sockets
            .find(&self.rt, &self.framing, &self.opened, until)
    }

    fn tick(&mut self) -> Result<Input, LinkError>
        ensures conn { IfOk result (λ input. IsTrue (has_low_conn input)) }
        ensures later { self.old.faults ≤ self.new.faults }
        ensures asked { self.new.asked ≡ self.old.asked }
        ensures failed { IsErrOf result LinkError.Failed → Rose self.old.faults self.new.faults }
    {
        match moment(&self.rt, &self.opened) {
            Ok((now, word)) => {
                self.ticked = now;
                self.ticked_last = true;
                Ok(Input::Tick { now, word })
            }
            Err(_) => {
                self.faults = self.faults.saturating_add(1);
                Err(LinkError::Failed)
            }
        }
    }
}

// The milliseconds since a moment.
pub(crate) fn passed<R: Clock>(rt: &R, opened: &Instant) -> io::Result<u64> {
    Ok(opened.elapsed(rt)?.as_millis().min(u64::MAX as u128) as u64)
}

// The milliseconds since a moment, and a random word.
fn moment<R: Clock + RandomSource>(rt: &R, opened: &Instant) -> io::Result<(u64, u64)> {
    let now = passed(rt, opened)?;
    let mut word = [0u8; 8];
    rt.fill_bytes(&mut word)?;
    Ok((now, u64::from_be_bytes(word)))
}

impl<R: Net + Clock + RandomSource + Drop, F: Framing + Drop> Link for SocketLink<R, F> {
    type Out = F::Out;

    ghost told = { λ _. None };

    ghost asked = { λ link. link.asked };

    ghost faults = { λ link. link.faults };

    ghost moves = { λ _ _ _. ⊤ };

    fn next(&mut self) -> Result<Input, LinkError> {
        self.asked = self.asked.saturating_add(1);
        let found = self.found();
        self.faults = self.faults.saturating_add(self.sockets.take_errors());
        match found {
            Ok(Some(input)) => {
                self.ticked_last = false;
                Ok(input)
            }
            Ok(None) => self.tick(),
            Err(LinkError::Memory) => Err(LinkError::Memory),
            Err(LinkError::Failed) => {
                self.faults = self.faults.saturating_add(1);
                Err(LinkError::Failed)
            }
        }
    }

    fn send(&mut self, out: F::Out) {
        match passed(&self.rt, &self.opened) {
            Ok(now) => self.sockets.send(&self.rt, now, &self.framing, &out),
            Err(_) => self.sockets.note_error(),
        }
        self.faults = self.faults.saturating_add(self.sockets.take_errors());
    }

    fn drop_conn(&mut self, conn: u64) {
        self.sockets.drop_known(conn);
    }
}
