//! What a node over its link asks of the node that it runs: to do an event and to give its lines.
ghost use Rattle.std.specs.Prelude.{Option, ◌≡◌, ℕ, ◌≤◌, List, IfOk};
ghost use Rattle.zen_disk.specs.Faults.{Rose};
ghost use Rattle.cluster_state.specs.declared.state.Kept.{Kept};
ghost use Rattle.policy_model.specs.declared.events.Event.{Event as Came};
ghost use Rattle.policy_model.specs.declared.settings.Settings.{Settings};
ghost use Rattle.policy_model.specs.Entries.{Life, Lived, Entry, Bad, Gone, NoMemory, Unread};
ghost use Rattle.policy_model.specs.Fitting.{IsFitEvent};
ghost use Rattle.policy_model.specs.Follows.{is_start, starts_next};
ghost use Rattle.node_loop.specs.Reports.{Output, IsIdle};
ghost use Rattle.node_loop.specs.WritesAndSends.{IsOpened};
ghost use Rattle.node_loop.specs.Crashes.{Holds};
ghost use Rattle.node_loop.specs.EventNodes.{ComesTo, IsDisk};

use policy_model::Event;
use std::alloc::{AllocError, Global};
use text::Text;
use wire_frames::FrameError;

/// An event that was done: what may leave the node, and its lines, or none where memory was lacking for them.
#[derive(Drop)]
pub struct Done<X: Drop> {
    pub sealed: X,
    pub lines: Option<Text>,
}

/// Why an event was not done, or not to its end.
#[derive(Drop)]
pub enum NotDone {
    /// An earlier event answered Disk.
    Stopped,
    /// Memory was lacking, and nothing was done.
    Memory,
    /// The disk failed. These are the lines of what was done, up to the act at which it failed, or none where memory was
    /// lacking for them.
    Disk(Option<Text>),
}

/// A node that does events one after the other, and has lines for them.
pub trait EventNode {
    /// What may leave the node: an event that was done, with its frames and replies.
    type Sealed: Drop;

    /// The lives that it stands for.
    ghost stands_for: { Self → Settings → Life → Type 0 };

    /// How many faults its disk had.
    ghost faults: { Self → ℕ };

    /// Whether it tells what a crash leaves.
    ghost told: { Type 0 };

    /// The moment, as a number that doesn't fall.
    ghost moment: { Self → ℕ };

    /// What a crash at some moment from that one on might have left.
    ghost left_since: { Self → ℕ → Option Kept → Type 0 };

    /// The frames and replies that are sent.
    ghost output: { Self.Sealed → Output };

    /// The lines of an entry.
    ghost text: { Settings → Life → Entry → List ℕ };

    /// The line of an opening.
    ghost opening: { Settings → Life → List ℕ };

    /// Does an event as the policy says. `Memory` leaves it standing for the same life.
    fn step(&mut self, alloc: Global, event: Event) -> Result<Done<Self::Sealed>, NotDone>
        requires fit { IsFitEvent event }
        ensures does { (s : Settings) (life : Life) → stands_for self.old s life → is_start event ≡ starts_next life
            → ComesTo (λ now s2 new. Holds stands_for told moment left_since faults self.old now s2 life new) (text s) s life event self.new
            output result }
        ensures later { faults self.old ≤ faults self.new }
        ensures disk { IsDisk result → Rose (faults self.old) (faults self.new) };

    /// The line of an opening, with the record that was found.
    fn opening_line(&self, alloc: Global) -> Result<Text, AllocError>
        ensures { IfOk result (λ line. (s : Settings) (life : Life) → stands_for self.now s life → IsOpened life → line ≡ opening s life) };

    /// The line of a connection whose bytes are faulty.
    fn bad_line(&self, alloc: Global, conn: u64, fault: FrameError) -> Result<Text, AllocError>
        ensures { IfOk result (λ line. (s : Settings) (life : Life) → line ≡ text s life (Bad conn fault)) };

    /// The line of a connection that ended.
    fn gone_line(&self, alloc: Global, conn: u64) -> Result<Text, AllocError>
        ensures { IfOk result (λ line. (s : Settings) (life : Life) → line ≡ text s life (Gone conn)) };

    /// The line where no memory was found. It takes none.
    fn no_memory_line(&self) -> &[u8]
        ensures none { (s : Settings) (life : Life) → result.now ≡ text s life NoMemory }
        ensures unread { (s : Settings) (life : Life) (conn : ℕ) → result.now ≡ text s life (Unread conn) };

    /// An entry of no event changes nothing that it stands for.
    ghost idle: { (node : Self) (s : Settings) (life : Life) (entry : Entry) → IsIdle entry → stands_for node s life
        → stands_for node s (Lived life entry) };
}
