//! What an event of a coordinator gives up: what it sealed, and its entries where the disk fails. What whole worlds of coordinators
//! show is replayed in `replay_tests`, and in node_loop_tests.rt what comes of frames that no sound node sends.
ghost use Rattle.std.specs.Prelude.{IfOk};
ghost use Rattle.coordinator.specs.Views.{IsReady};

use crate::settings::{ALONE, settings_of};
use coordinator::{Coordinator, Entries, Sealed, StepError};
use event_text::write_deeds;
use policy_model::Event;
use state_journal::StateJournal;
use std::alloc::{AllocError, Global};
use std::test::*;
use text::Text;
use voting_config::NodeId;
use zen_disk::{Fuse, MemDisks, Order, Way};

type OverJournal = Coordinator<StateJournal<Fuse<MemDisks>>>;

// A node alone over a journal on a new disk.
fn over_journal(alloc: Global) -> Result<OverJournal, Fail>
    ensures { IfOk result IsReady }
{
    let settings = settings_of(alloc, &ALONE)?;
    let disk = MemDisks::new(alloc, Vec::new(alloc), Vec::new(alloc), Vec::new(alloc));
    match StateJournal::open(alloc, Fuse::new(disk)) {
        Ok(journal) => Ok(Coordinator::open(alloc, settings, journal)),
        Err(_) => Err(Fail::new("no journal")),
    }
}

// Whether the steps of these entries of a show this line and no other.
fn shows_only(alloc: Global, entries: &Entries, line: &[u8]) -> Result<bool, AllocError> {
    let mut text = Text::new(alloc);
    let a = NodeId::parse("a").unwrap_or_default();
    write_deeds(&mut text, alloc, a, &mut None, entries.deeds.as_slice())?;
    Ok(text.as_bytes() == line)
}

// What its start and its first tick bring about.
fn first_tick(alloc: Global, node: &mut OverJournal) -> Result<Sealed, StepError>
    requires { IsReady node.old }
    ensures { IsReady node.new }
{
    let _ = node.step(alloc, Event::Start);
    node.step(alloc, Event::Tick { now: 0, word: 7 })
}

// Whether the entries of the first tick, which the disk strikes, end with its act, and the node does nothing more.
fn is_struck(alloc: Global, node: &mut OverJournal) -> Result<bool, AllocError>
    requires { IsReady node.old }
{
    let Err(StepError::Disk(entries)) = first_tick(alloc, node) else {
        return Ok(false);
    };
    let again = node.step(alloc, Event::Tick { now: 8, word: 7 });
    Ok(
        matches!(again, Err(StepError::Stopped))
            && shows_only(alloc, &entries, b"act a disk boot a\n")?,
    )
}

const STRIKES: &[Order] = &[Order::Fault(1), Order::Stop(1, Way::Lost)];

#[test]
fn a_disk_that_fails_or_stops_ends_the_entries_with_its_act_and_stops_the_node(
    rt: HostRuntime,
) -> Result<(), Fail> {
    for order in STRIKES {
        let mut node = over_journal(rt.alloc())?;
        node.arm(*order);
        assert!(rt; is_struck(rt.alloc(), &mut node)?);
    }
    Ok(())
}

// What the first tick of a node alone seals.
fn sealed(alloc: Global) -> Result<Sealed, Fail> {
    let mut node = over_journal(alloc)?;
    match first_tick(alloc, &mut node) {
        Ok(sealed) => Ok(sealed),
        Err(_) => Err(Fail::new("the tick failed")),
    }
}

#[test]
fn what_is_sealed_is_given_up_as_it_is(rt: HostRuntime) -> Result<(), Fail> {
    let (entries, sends, replies) = sealed(rt.alloc())?.into_parts();
    assert!(rt; sends.into_items().is_empty());
    assert!(rt; replies.as_slice().is_empty());
    assert!(rt; shows_only(rt.alloc(), &entries, b"act a ok boot a\n")?);
    Ok(())
}
