//! A link in memory, which gives the inputs of a script and says what went over it.
ghost use Rattle.std.specs.Prelude.{◌≡◌, ◌≤◌, [], Some, IfOk, IsTrue};
ghost use Rattle.std.specs.List.{list_all};
ghost use Rattle.std.specs.Option.{option_copied};
ghost use Rattle.zen_link.specs.Told.{Adds, has_low_conn, scripted_at};

use crate::{Input, Link, LinkError, Traffic};
use std::alloc::{AllocError, Global};

/// A link in memory. It gives the inputs of a script, and `Stop` after the last, and tells what went over it. A `next` fails
/// exactly where its number is in the list that the link was made with. Where there is no memory to tell of a `send` or a
/// `drop_conn`, a fault is counted and the link tells nothing from then on.
#[derive(Drop)]
pub struct MemLink<O: Drop> {
    script: Vec<Input>,
    at: usize,
    fails: Vec<u64>,
    calls: u64,
    traffic: Vec<Traffic<O>>,
    tells: bool,
    faults: u64,
    ghost low: { IsTrue (list_all has_low_conn script.items) },
}

impl<O: Drop> MemLink<O> {
    ghost use Rattle.zen_link.specs.MemLink.{told_of};

    /// A link that gives these inputs. The calls of `next` fail whose numbers are listed, the first being 1.
    pub fn new(alloc: Global, script: Vec<Input>, fails: Vec<u64>) -> MemLink<O>
        requires { IsTrue (list_all has_low_conn script.items) }
        ensures told { ⟦<MemLink<O> as Link>⟧.told result ≡ Some [] }
        ensures faults { ⟦<MemLink<O> as Link>⟧.faults result ≡ 0 }
        ensures script { result.script ≡ script }
        ensures at { result.at ≡ 0 }
        ensures asked { ⟦<MemLink<O> as Link>⟧.asked result ≡ 0 }
        ensures fails { result.fails ≡ fails }
    {
        MemLink {
            script,
            at: 0,
            fails,
            calls: 0,
            traffic: Vec::new(alloc),
            tells: true,
            faults: 0,
        }
    }

    /// What was taken, given and dropped, in order, and None where the link no longer tells.
    pub fn traffic(&self) -> Option<&[Traffic<O>]>
        ensures { option_copied result ≡ ⟦<MemLink<O> as Link>⟧.told self.now }
    {
        if self.tells {
            Some(self.traffic.as_slice())
        } else {
            None
        }
    }

    /// How many faults there were.
    pub fn fault_count(&self) -> u64
        ensures { result ≡ ⟦<MemLink<O> as Link>⟧.faults self.now }
    {
        self.faults
    }

    /// How often `next` was called.
    pub fn ask_count(&self) -> u64
        ensures { result ≡ ⟦<MemLink<O> as Link>⟧.asked self.now }
    {
        self.calls
    }

    // The input whose turn it is.
    fn scripted(&self) -> Result<Input, AllocError>
        ensures input { IfOk result (λ input. input ≡ scripted_at self.now.script.items self.now.at) }
        ensures low { IfOk result (λ input. IsTrue (has_low_conn input)) }
    {
        match self.script.get(self.at) {
            Some(input) => input.clone(),
            None => Ok(Input::Stop),
        }
    }

    // Tells what went over it, or nothing from now on.
    fn note(&mut self, traffic: Traffic<O>)
        ensures told { Adds (told_of self.old) (told_of self.new) traffic self.old.faults self.new.faults }
        ensures same { self.new.calls ≡ self.old.calls }
        ensures later { self.old.faults ≤ self.new.faults }
    {
        if self.tells && self.traffic.push(traffic).is_err() {
            self.tells = false;
            self.faults = self.faults.saturating_add(1);
        }
    }
}

impl<O: Drop> Link for MemLink<O> {
    ghost use Rattle.zen_link.specs.MemLink.{told_of, MemNexts};

    type Out = O;

    ghost told = { told_of };

    ghost asked = { λ link. link.calls };

    ghost faults = { λ link. link.faults };

    ghost moves = { MemNexts };

    fn next(&mut self) -> Result<Input, LinkError> {
        self.calls = self.calls.saturating_add(1);
        if self.fails.contains(&self.calls) {
            self.faults = self.faults.saturating_add(1);
            return Err(LinkError::Failed);
        }
        let (Ok(input), Ok(told)) = (self.scripted(), self.scripted()) else {
            return Err(LinkError::Memory);
        };
        if self.tells && self.traffic.push(Traffic::Took(told)).is_err() {
            return Err(LinkError::Memory);
        }
        self.at = self.at.saturating_add(1);
        Ok(input)
    }

    fn send(&mut self, out: O) {
        self.note(Traffic::Gave(out));
    }

    fn drop_conn(&mut self, conn: u64) {
        self.note(Traffic::Dropped(conn));
    }
}
