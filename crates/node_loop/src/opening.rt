//! A node over the journal on a disk, from its opening to the end of its run.
ghost use Rattle.std.specs.Prelude.{◌≡◌, ◌≤◌, IfOk, IfErr, Ok, Some};
ghost use Rattle.zen_disk.specs.Moments.{LeavesOnly};
ghost use Rattle.state_journal.specs.Journal.{found_of, FoundAsSome};
ghost use Rattle.state_journal.specs.Opening.{handed_back, IsWhyOf, RanUntil, RoseIfDisk};
ghost use Rattle.world_model.specs.declared.acts.Act.TheVariants.{Open};
ghost use Rattle.world_model.specs.Histories.{ContinuesUnlessFirst};
ghost use Rattle.policy_model.specs.declared.settings.Settings.{Settings as SettingsOf};
ghost use Rattle.policy_model.specs.Entries.{Life, Opened, log_of};
ghost use Rattle.policy_model.specs.Events.{acts_of};
ghost use Rattle.node_loop.specs.Intakes.{NoIntakes};
ghost use Rattle.node_loop.specs.Reporting.{Reports, sent_of};
ghost use Rattle.node_loop.specs.Running.{HoldsOn};
ghost use Rattle.node_loop.specs.WritesAndSends.{HasCauses, IsOpened};
ghost use Rattle.node_loop.specs.Texts.{opening_text};
ghost use Rattle.node_loop.specs.Turns.{Reads, Serves};

use crate::history::History;
use crate::node::{End, Node};
use crate::reporter::Reporter;
use coordinator::Sealed;
use policy_model::Settings;
use state_journal::{Keeper, OpenError, StateJournal};
use std::alloc::Global;
use zen_disk::Disks;
use zen_link::{Link, Sink};

/// A node over the journal on a disk.
pub type JournalNode<D, H> = Node<Reporter<StateJournal<D>, H>>;

impl<D: Disks, H: History> Node<Reporter<StateJournal<D>, H>> {
    /// Opens a node over the journal on a disk. Its life goes on with the opening of the record that the journal gave.
    ///
    /// # Errors
    ///
    /// Those of [`StateJournal::open`]; and `Memory` where there is none for the connections. Each hands the disk back.
    pub fn open(
        alloc: Global,
        settings: Settings,
        disk: D,
    ) -> Result<JournalNode<D, H>, OpenError<D>>
        ensures stands { IfOk result
            (λ node. (life : Life) → ContinuesUnlessFirst (acts_of (log_of life)) (Open node.inner.node.core.keeper.kept)
            → Reports ⟦<StateJournal<D> as Keeper>⟧ node.inner.node node.inner.last_sent settings
            (Opened life node.inner.node.core.keeper.kept)) }
        ensures found { D.told → IfOk result (λ node. found_of (D.seen disk) ≡ Ok node.inner.node.core.keeper.kept) }
        ensures reads { IfOk result (λ node. Reads node.connections.items NoIntakes) }
        ensures why { D.told → IfErr result (IsWhyOf (D.seen disk)) }
        ensures cause { IfErr result (RoseIfDisk D.faults (D.faults disk)) }
        ensures later { IfOk result (λ node. D.faults disk ≤ D.faults node.inner.node.core.keeper.log.disk) }
        ensures later_err { IfErr result (λ e. D.faults disk ≤ D.faults (handed_back e)) }

        // After a crash at any moment an opening finds what it might have found before.
        ensures any_moment { D.told
            → IfOk result (λ node. LeavesOnly D.moment D.left_since disk node.inner.node.core.keeper.log.disk
            (FoundAsSome (D.may_leave disk))) }
        ensures any_moment_err { D.told
            → IfErr result (λ e. LeavesOnly D.moment D.left_since disk (handed_back e) (FoundAsSome (D.may_leave disk))) }

        // Where it is refused, the device calls of an opening and no others.
        ensures ran_err { D.told → IfErr result (RanUntil D.moves (D.seen disk) disk) }
    {
        let journal = StateJournal::open(alloc, disk)?;
        match Node::new(alloc, Reporter::open(alloc, settings, journal)) {
            Ok(node) => Ok(node),
            Err(reporter) => Err(OpenError::Memory(reporter.into_keeper().into_disk())),
        }
    }

    /// The disk of its journal.
    pub fn disk(&self) -> &D
        ensures { result.now ≡ self.now.inner.node.core.keeper.log.disk }
    {
        self.inner().keeper().disk()
    }

    /// The disk of its journal, given up by the node.
    pub fn into_disk(self) -> D
        ensures { result ≡ self.inner.node.core.keeper.log.disk }
    {
        self.into_inner().into_keeper().into_disk()
    }

    /// Serves a link, as [`Node::serve`] says, and hands the disk of its journal out.
    pub fn run<L: Link<Out = Sealed>, O: Sink>(
        self,
        link: &mut L,
        out: &mut O,
        turns: u64,
    ) -> (D, End)
        ensures serves { (s : SettingsOf) (life : Life) → Reports ⟦<StateJournal<D> as Keeper>⟧ self.inner.node self.inner.last_sent s life
            → IsOpened life → Reads self.connections.items NoIntakes
            → Serves sent_of (H.lines s) s life result.1 (O.written out.old) (O.written out.new) (L.told link.old) (L.told link.new)
            (HoldsOn D.Disks self.inner.node.core.keeper.log.disk result.0 s life) (L.asked link.old) (L.asked link.new) turns
            (opening_text s life) }
        ensures causes { HasCauses (Some result.1) (D.faults self.inner.node.core.keeper.log.disk) (D.faults result.0) (O.faults out.old)
            (O.faults out.new) (L.faults link.old) (L.faults link.new) }
    {
        let mut node = self;
        let end = node.serve(link, out, turns);
        (node.into_disk(), end)
    }
}
