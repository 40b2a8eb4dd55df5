//! `Node`: a node over its link. Each input becomes events, and each event is done, written and then sent.
ghost use Rattle.node_loop.specs.Intakes.{Intakes, NoIntakes};
ghost use Rattle.node_loop.specs.Limits.{LawHoldsLittle};
ghost use Rattle.node_loop.specs.Turns.{Reads, TakesIn, Turns, Says, ServesOn, Serves, is_stop, is_stop_input};
ghost use Rattle.zen_link.specs.Told.{has_low_conn, most_connections};
ghost use Rattle.zen_link.specs.declared.link.Input.TheVariants.{Bytes as BytesCame, Closed as ConnectionClosed};
ghost use Rattle.std.specs.Prelude.{IfOk, IfErr, length, slice_set, ◌<◌, ◌≡◌, ℕ, ◌≤◌, IsTrue, false, Option, Some, None, List, [], ◌∷◌, ◌++◌};
ghost use Rattle.zen_disk.specs.Faults.{Rose};
ghost use Rattle.zen_link.specs.declared.link.Traffic.{Traffic};
ghost use Rattle.policy_model.specs.declared.settings.Settings.{Settings};
ghost use Rattle.policy_model.specs.declared.events.Event.TheVariants.{Start, Frame as FrameCame};
ghost use Rattle.policy_model.specs.Entries.{Life};
ghost use Rattle.policy_model.specs.Follows.{is_start};
ghost use Rattle.policy_model.specs.Fitting.{IsFitEvent};
ghost use Rattle.wire_frames.specs.Streams.{fault_in};
ghost use Rattle.wire_frames.specs.Views.{shown};
ghost use Rattle.node_loop.specs.Connections.{of_frames, of_lines, of_fault, makes};
ghost use Rattle.node_loop.specs.Feeds.{happenings_of, kept_frames, kept_at};
ghost use Rattle.node_loop.specs.Happenings.{Comes, Faulty, Ends, Unread, Refused, Makes};
ghost use Rattle.policy_model.specs.Entries.{Entry, Did, NoMemory, Unread as UnreadEntry};
ghost use Rattle.node_loop.specs.Nodes.{EndsRightly, Handles, HoldsBy};
ghost use Rattle.node_loop.specs.EventNodes.{Does, IsHalted, FailsTo, IsDiskError};
ghost use Rattle.node_loop.specs.WritesAndSends.{WritesAndSends, HasCauses, IsUp, IsOpened, does_all, goes_on};

use crate::connection::{Came, Connection, close_at, feed_at, keep_at};
use crate::event_node::{Done, EventNode, NotDone};
use client_lines::Line;
use policy_model::Event;
use std::alloc::{AllocError, Global};
use text::Text;
use wire_frames::{FrameError, FrameReader, FrameView};
use zen_link::{CONNECTIONS, Input, Link, LinkError, Sink, write_all};

/// Why a run of a node ended.
#[derive(Clone, Copy, Debug, PartialEq, Eq)]
pub enum End {
    /// The link gave Stop.
    Stop,
    /// All turns were taken.
    Turns,
    /// The sink failed.
    Write,
    /// The disk failed.
    Disk,
    /// The link failed.
    Link,
    /// A line found no memory.
    Memory,
}

// Writes the lines of an event that was done, and then sends what it has to.
fn report_done<S: EventNode, L: Link<Out = S::Sealed>, O: Sink>(
    inner: &S,
    link: &mut L,
    out: &mut O,
    done: Done<S::Sealed>,
) -> Option<End>
    ensures says { (old : S) (s : Settings) (life : Life) (event : _)
        → Does (λ now s2 new. HoldsBy S.EventNode old now s2 life new) (S.text s) s life event inner.now S.output done
        → WritesAndSends S.output (S.text s) s life (Makes (Comes event) ∷ []) result (O.written out.old) (O.written out.new)
        (L.told link.old)
        (L.told link.new) (HoldsBy S.EventNode old inner.now s life) }
    ensures ends { EndsRightly S.EventNode L.Link O.Sink inner.now inner.now link.old link.new out.old out.new result }
{
    let Done { sealed, lines } = done;
    let Some(lines) = lines else {
        return Some(End::Memory);
    };
    let Ok(()) = write_all(out, lines.as_bytes()) else {
        return Some(End::Write);
    };
    link.send(sealed);
    None
}

// Writes the lines of an event in which the disk failed.
fn report_struck<S: EventNode, O: Sink>(inner: &S, out: &mut O, lines: Option<Text>) -> Option<End>
    ensures says { (old : S) (s : Settings) (life : Life) (event : _) (told : Option (List (Traffic S.Sealed)))
        → IsHalted (λ now s2 new. HoldsBy S.EventNode old now s2 life new) (S.text s) s life event inner.now lines
        → WritesAndSends S.output (S.text s) s life (Makes (Comes event) ∷ []) result (O.written out.old) (O.written out.new) told told
        (HoldsBy S.EventNode old inner.now s life) }
    ensures within { does_all result ≡ goes_on result }
    ensures stop { is_stop result ≡ false }
    ensures write { result ≡ Some End.Write → Rose (O.faults out.old) (O.faults out.new) }
    ensures link { ¬ (result ≡ Some End.Link) }
    ensures later { O.faults out.old ≤ O.faults out.new }
{
    let Some(lines) = lines else {
        return Some(End::Memory);
    };
    let Ok(()) = write_all(out, lines.as_bytes()) else {
        return Some(End::Write);
    };
    Some(End::Disk)
}

// Writes that no memory was found.
fn report_no_memory<S: EventNode, O: Sink>(inner: &S, out: &mut O) -> Option<End>
    ensures says { (s : Settings) (life : Life) (event : _) (told : Option (List (Traffic S.Sealed))) → IsUp life
        → S.stands_for inner.now s life
        → WritesAndSends S.output (S.text s) s life (Makes (Comes event) ∷ []) result (O.written out.old) (O.written out.new) told told
        (HoldsBy S.EventNode inner.now inner.now s life) }
    ensures refused { (s : Settings) (life : Life) (told : Option (List (Traffic S.Sealed))) → IsUp life → S.stands_for inner.now s life
        → WritesAndSends S.output (S.text s) s life (Makes Refused ∷ []) result (O.written out.old) (O.written out.new) told told
        (HoldsBy S.EventNode inner.now inner.now s life) }
    ensures within { does_all result ≡ goes_on result }
    ensures stop { is_stop result ≡ false }
    ensures write { result ≡ Some End.Write → Rose (O.faults out.old) (O.faults out.new) }
    ensures others { (¬ (result ≡ Some End.Link)) × (¬ (result ≡ Some End.Disk)) }
    ensures later { O.faults out.old ≤ O.faults out.new }
{
    let Ok(()) = write_all(out, inner.no_memory_line()) else {
        return Some(End::Write);
    };
    None
}

// Does an event, and reports it.
fn do_event<S: EventNode, L: Link<Out = S::Sealed>, O: Sink>(
    inner: &mut S,
    alloc: Global,
    link: &mut L,
    out: &mut O,
    event: Event,
) -> Option<End>
    requires fit { IsFitEvent event }
    ensures says { is_start event ≡ false → Handles S.EventNode L.Link O.Sink inner.old inner.new link.old link.new out.old out.new
        ((Makes (Comes event) ∷ [])) result }
    ensures ends { EndsRightly S.EventNode L.Link O.Sink inner.old inner.new link.old link.new out.old out.new result }
{
    match inner.step(alloc, event) {
        Ok(done) => report_done(inner, link, out, done),
        Err(error) => report_error(inner, out, error),
    }
}

// Writes what there is to say of an event that was not done to its end.
fn report_error<S: EventNode, O: Sink>(inner: &S, out: &mut O, error: NotDone) -> Option<End>
    ensures says { (old : S) (s : Settings) (life : Life) (event : _) (told : Option (List (Traffic S.Sealed))) → IsUp life
        → FailsTo (λ now s2 new. HoldsBy S.EventNode old now s2 life new) (S.text s) s life event inner.now error
        → WritesAndSends S.output (S.text s) s life (Makes (Comes event) ∷ []) result (O.written out.old) (O.written out.new) told told
        (HoldsBy S.EventNode old inner.now s life) }
    ensures within { does_all result ≡ goes_on result }
    ensures stop { is_stop result ≡ false }
    ensures write { result ≡ Some End.Write → Rose (O.faults out.old) (O.faults out.new) }
    ensures link { ¬ (result ≡ Some End.Link) }
    ensures disk { result ≡ Some End.Disk → IsDiskError error }
    ensures later { O.faults out.old ≤ O.faults out.new }
{
    match error {
        NotDone::Disk(lines) => report_struck(inner, out, lines),
        NotDone::Memory => report_no_memory(inner, out),
        // A node that met a fault of its disk takes no more turns.
        NotDone::Stopped => Some(End::Memory),
    }
}

// Writes that a connection ended.
fn report_gone<S: EventNode, L: Link<Out = S::Sealed>, O: Sink>(
    inner: &S,
    alloc: Global,
    link: &mut L,
    out: &mut O,
    conn: u64,
) -> Option<End>
    ensures says { Handles S.EventNode L.Link O.Sink inner.now inner.now link.old link.new out.old out.new
        ((Makes (Ends conn) ∷ [])) result }
    ensures ends { EndsRightly S.EventNode L.Link O.Sink inner.now inner.now link.old link.new out.old out.new result }
{
    let Ok(line) = inner.gone_line(alloc, conn) else {
        return Some(End::Memory);
    };
    let Ok(()) = write_all(out, line.as_bytes()) else {
        return Some(End::Write);
    };
    None
}

// Writes that the bytes of a connection are faulty, and drops it.
fn report_bad<S: EventNode, L: Link<Out = S::Sealed>, O: Sink>(
    inner: &S,
    alloc: Global,
    link: &mut L,
    out: &mut O,
    conn: u64,
    fault: FrameError,
) -> Option<End>
    ensures says { Handles S.EventNode L.Link O.Sink inner.now inner.now link.old link.new out.old out.new
        ((Makes (Faulty conn fault) ∷ [])) result }
    ensures ends { EndsRightly S.EventNode L.Link O.Sink inner.now inner.now link.old link.new out.old out.new result }
{
    let Ok(line) = inner.bad_line(alloc, conn, fault) else {
        return Some(End::Memory);
    };
    let Ok(()) = write_all(out, line.as_bytes()) else {
        return Some(End::Write);
    };
    link.drop_conn(conn);
    None
}

// Writes that no memory was found for the bytes of a connection, and drops it.
fn report_unread<S: EventNode, L: Link<Out = S::Sealed>, O: Sink>(
    inner: &S,
    link: &mut L,
    out: &mut O,
    conn: u64,
) -> Option<End>
    ensures says { Handles S.EventNode L.Link O.Sink inner.now inner.now link.old link.new out.old out.new
        ((Makes (Unread conn) ∷ [])) result }
    ensures ends { EndsRightly S.EventNode L.Link O.Sink inner.now inner.now link.old link.new out.old out.new result }
{
    let Ok(()) = write_all(out, inner.no_memory_line()) else {
        return Some(End::Write);
    };
    link.drop_conn(conn);
    None
}

// Does a frame that came.
fn do_frame<S: EventNode, L: Link<Out = S::Sealed>, O: Sink>(
    inner: &mut S,
    alloc: Global,
    link: &mut L,
    out: &mut O,
    frame: FrameView<'_>,
) -> Option<End>
    ensures says { Handles S.EventNode L.Link O.Sink inner.old inner.new link.old link.new out.old out.new
        ((Makes (Comes (FrameCame (shown frame.entry))) ∷ [])) result }
    ensures ends { EndsRightly S.EventNode L.Link O.Sink inner.old inner.new link.old link.new out.old out.new result }
{
    match frame.boxed(alloc) {
        Ok(frame) => do_event(inner, alloc, link, out, Event::Frame(frame)),
        Err(_) => report_no_memory(inner, out),
    }
}

// Does the frames that came, in order.
fn do_frames<S: EventNode, L: Link<Out = S::Sealed>, O: Sink>(
    inner: &mut S,
    alloc: Global,
    link: &mut L,
    out: &mut O,
    reader: &mut FrameReader,
) -> Option<End>
    ensures says { Handles S.EventNode L.Link O.Sink inner.old inner.new link.old link.new out.old out.new
        (makes (of_frames reader.old.frames)) result }
    ensures left { reader.new.ending ≡ reader.old.ending }
    ensures ends { EndsRightly S.EventNode L.Link O.Sink inner.old inner.new link.old link.new out.old out.new result }
{
    'frames: loop {
        match reader.next() {
            None => return None,
            Some(Err(_)) => return None,
            Some(Ok(frame)) => {
                if let Some(end) = do_frame(inner, alloc, link, out, frame) {
                    return Some(end);
                }
            }
        }
    }
}

// Does the lines that came, in order.
fn do_lines<S: EventNode, L: Link<Out = S::Sealed>, O: Sink>(
    inner: &mut S,
    alloc: Global,
    link: &mut L,
    out: &mut O,
    conn: u64,
    lines: Vec<Line>,
) -> Option<End>
    ensures says { Handles S.EventNode L.Link O.Sink inner.old inner.new link.old link.new out.old out.new
        (makes (of_lines conn lines.items)) result }
    ensures ends { EndsRightly S.EventNode L.Link O.Sink inner.old inner.new link.old link.new out.old out.new result }
{
    for line in lines {
        if let Some(end) = do_event(inner, alloc, link, out, Event::Client { conn, line }) {
            return Some(end);
        }
    }
    None
}

// Does the frames that came, puts their reader back, and then reports the fault that stands next.
fn take_frames<S: EventNode, L: Link<Out = S::Sealed>, O: Sink>(
    inner: &mut S,
    connections: &mut [Connection],
    alloc: Global,
    link: &mut L,
    out: &mut O,
    conn: u64,
    reader: FrameReader,
) -> Option<End>
    requires { conn < length connections.old }
    ensures says { Handles S.EventNode L.Link O.Sink inner.old inner.new link.old link.new out.old out.new
        (makes (of_frames reader.frames ++ of_fault conn (fault_in reader.ending))) result }
    ensures kept { connections.new ≡ slice_set connections.old conn (kept_frames reader.ending) }
    ensures ends { EndsRightly S.EventNode L.Link O.Sink inner.old inner.new link.old link.new out.old out.new result }
{
    let mut reader = reader;
    let end = do_frames(inner, alloc, link, out, &mut reader);
    let fault = keep_at(connections, conn, reader);
    if let Some(end) = end {
        return Some(end);
    }
    report_fault(inner, alloc, link, out, conn, fault)
}

// Reports the fault, if there is one.
fn report_fault<S: EventNode, L: Link<Out = S::Sealed>, O: Sink>(
    inner: &S,
    alloc: Global,
    link: &mut L,
    out: &mut O,
    conn: u64,
    fault: Option<FrameError>,
) -> Option<End>
    ensures says { Handles S.EventNode L.Link O.Sink inner.now inner.now link.old link.new out.old out.new
        (makes (of_fault conn fault)) result }
    ensures ends { EndsRightly S.EventNode L.Link O.Sink inner.now inner.now link.old link.new out.old out.new result }
{
    match fault {
        Some(fault) => report_bad(inner, alloc, link, out, conn, fault),
        None => None,
    }
}

// Does what bytes of a connection brought.
fn take_came<S: EventNode, L: Link<Out = S::Sealed>, O: Sink>(
    inner: &mut S,
    connections: &mut [Connection],
    alloc: Global,
    link: &mut L,
    out: &mut O,
    conn: u64,
    came: Came,
) -> Option<End>
    requires { conn < length connections.old }
    ensures says { Handles S.EventNode L.Link O.Sink inner.old inner.new link.old link.new out.old out.new
        (makes (happenings_of conn came)) result }
    ensures kept { connections.new ≡ kept_at connections.old conn came }
    ensures ends { EndsRightly S.EventNode L.Link O.Sink inner.old inner.new link.old link.new out.old out.new result }
{
    match came {
        Came::Nothing => None,
        Came::Frames(reader) => take_frames(inner, connections, alloc, link, out, conn, reader),
        Came::Lines(lines) => do_lines(inner, alloc, link, out, conn, lines.into_lines()),
    }
}

// Does what more bytes of a connection bring.
fn take_bytes<S: EventNode, L: Link<Out = S::Sealed>, O: Sink>(
    inner: &mut S,
    connections: &mut [Connection],
    alloc: Global,
    link: &mut L,
    out: &mut O,
    conn: u64,
    bytes: &[u8],
) -> Option<End>
    requires all { length connections.old ≡ most_connections }
    requires low { conn < most_connections }
    ensures takes { (s : Settings) (life : Life) (intakes : Intakes) → S.stands_for inner.old s life → IsUp life
        → Reads connections.old intakes
        → TakesIn S.output (S.text s) s life intakes result (O.written out.old) (O.written out.new) (L.told link.old) (L.told link.new)
        (HoldsBy S.EventNode inner.old inner.new s life) connections.new (BytesCame conn bytes.now) }
    ensures ends { EndsRightly S.EventNode L.Link O.Sink inner.old inner.new link.old link.new out.old out.new result }
{
    match feed_at(connections, alloc, conn, bytes) {
        Ok(came) => take_came(inner, connections, alloc, link, out, conn, came),
        Err(_) => report_unread(inner, link, out, conn),
    }
}

// Reports that a connection ended, of which no byte is kept.
fn take_closed<S: EventNode, L: Link<Out = S::Sealed>, O: Sink>(
    inner: &mut S,
    connections: &mut [Connection],
    alloc: Global,
    link: &mut L,
    out: &mut O,
    conn: u64,
) -> Option<End>
    requires all { length connections.old ≡ most_connections }
    requires low { conn < most_connections }
    ensures takes { (s : Settings) (life : Life) (intakes : Intakes) → S.stands_for inner.old s life → IsUp life
        → Reads connections.old intakes
        → TakesIn S.output (S.text s) s life intakes result (O.written out.old) (O.written out.new) (L.told link.old) (L.told link.new)
        (HoldsBy S.EventNode inner.old inner.new s life) connections.new (ConnectionClosed conn) }
    ensures ends { EndsRightly S.EventNode L.Link O.Sink inner.old inner.new link.old link.new out.old out.new result }
{
    close_at(connections, conn);
    report_gone(inner, alloc, link, out, conn)
}

// Does what an input brings.
fn take_input<S: EventNode, L: Link<Out = S::Sealed>, O: Sink>(
    inner: &mut S,
    connections: &mut [Connection],
    alloc: Global,
    link: &mut L,
    out: &mut O,
    input: Input,
) -> Option<End>
    requires all { length connections.old ≡ most_connections }
    requires low { IsTrue (has_low_conn input) }
    ensures takes { (s : Settings) (life : Life) (intakes : Intakes) → S.stands_for inner.old s life → IsUp life
        → Reads connections.old intakes
        → TakesIn S.output (S.text s) s life intakes result (O.written out.old) (O.written out.new) (L.told link.old) (L.told link.new)
        (HoldsBy S.EventNode inner.old inner.new s life) connections.new (input) }
    ensures stop { is_stop result ≡ is_stop_input input }
    ensures never { ¬ (result ≡ Some End.Turns) }
    ensures unlinked { ¬ (result ≡ Some End.Link) }
    ensures causes { HasCauses result (S.faults inner.old) (S.faults inner.new) (O.faults out.old) (O.faults out.new) (L.faults link.old)
        (L.faults link.new) }
    ensures asked { L.asked link.new ≡ L.asked link.old }
{
    match input {
        Input::Bytes { conn, bytes } => take_bytes(
            inner,
            connections,
            alloc,
            link,
            out,
            conn,
            &bytes,
        ),
        Input::Closed { conn } => take_closed(inner, connections, alloc, link, out, conn),
        Input::Disconnected { peer } => {
            do_event(inner, alloc, link, out, Event::Disconnected { peer })
        }
        Input::Tick { now, word } => do_event(inner, alloc, link, out, Event::Tick { now, word }),
        Input::Stop => Some(End::Stop),
    }
}

// Takes an input and does what it brings.
fn take_turn<S: EventNode, L: Link<Out = S::Sealed>, O: Sink>(
    inner: &mut S,
    connections: &mut [Connection],
    alloc: Global,
    link: &mut L,
    out: &mut O,
) -> Option<End>
    requires all { length connections.old ≡ most_connections }
    ensures turns { (s : Settings) (life : Life) (intakes : Intakes) → S.stands_for inner.old s life → IsUp life
        → Reads connections.old intakes
        → Turns S.output (S.text s) s life intakes result (O.written out.old) (O.written out.new) (L.told link.old) (L.told link.new)
        (HoldsBy S.EventNode inner.old inner.new s life) connections.new (L.asked link.old) (L.asked link.new) 1 }
    ensures never { ¬ (result ≡ Some End.Turns) }
    ensures causes { HasCauses result (S.faults inner.old) (S.faults inner.new) (O.faults out.old) (O.faults out.new) (L.faults link.old)
        (L.faults link.new) }
{
    match link.next() {
        Ok(input) => take_input(inner, connections, alloc, link, out, input),
        Err(LinkError::Failed) => Some(End::Link),
        Err(LinkError::Memory) => report_no_memory(inner, out),
    }
}

// Takes so many turns, unless one of them ends the run.
fn take_turns<S: EventNode, L: Link<Out = S::Sealed>, O: Sink>(
    inner: &mut S,
    connections: &mut [Connection],
    alloc: Global,
    link: &mut L,
    out: &mut O,
    turns: u64,
) -> Option<End>
    requires all { length connections.old ≡ most_connections }
    ensures turns { (s : Settings) (life : Life) (intakes : Intakes) → S.stands_for inner.old s life → IsUp life
        → Reads connections.old intakes
        → Turns S.output (S.text s) s life intakes result (O.written out.old) (O.written out.new) (L.told link.old) (L.told link.new)
        (HoldsBy S.EventNode inner.old inner.new s life) connections.new (L.asked link.old) (L.asked link.new) turns }
    ensures never { ¬ (result ≡ Some End.Turns) }
    ensures causes { HasCauses result (S.faults inner.old) (S.faults inner.new) (O.faults out.old) (O.faults out.new) (L.faults link.old)
        (L.faults link.new) }
{
    for turn in 0..turns {
        if let Some(end) = take_turn(inner, connections, alloc, link, out) {
            return Some(end);
        }
    }
    None
}

// Does Start, as the first event.
fn start<S: EventNode, L: Link<Out = S::Sealed>, O: Sink>(
    inner: &mut S,
    alloc: Global,
    link: &mut L,
    out: &mut O,
) -> Option<End>
    ensures says { (s : Settings) (life : Life) → S.stands_for inner.old s life → IsOpened life
        → WritesAndSends S.output (S.text s) s life (Makes (Comes Start) ∷ []) result (O.written out.old) (O.written out.new)
        (L.told link.old)
        (L.told link.new) (HoldsBy S.EventNode inner.old inner.new s life) }
    ensures ends { EndsRightly S.EventNode L.Link O.Sink inner.old inner.new link.old link.new out.old out.new result }
{
    match inner.step(alloc, Event::Start) {
        Ok(done) => report_done(inner, link, out, done),
        Err(error) => report_unstarted(inner, out, error),
    }
}

// Writes what there is to say of a start that was not done to its end.
fn report_unstarted<S: EventNode, O: Sink>(inner: &S, out: &mut O, error: NotDone) -> Option<End>
    ensures says { (old : S) (s : Settings) (life : Life) (told : Option (List (Traffic S.Sealed))) → IsOpened life
        → FailsTo (λ now s2 new. HoldsBy S.EventNode old now s2 life new) (S.text s) s life Start inner.now error
        → WritesAndSends S.output (S.text s) s life (Makes (Comes Start) ∷ []) result (O.written out.old) (O.written out.new) told told
        (HoldsBy S.EventNode old inner.now s life) }
    ensures within { does_all result ≡ goes_on result }
    ensures stop { is_stop result ≡ false }
    ensures write { result ≡ Some End.Write → Rose (O.faults out.old) (O.faults out.new) }
    ensures link { ¬ (result ≡ Some End.Link) }
    ensures disk { result ≡ Some End.Disk → IsDiskError error }
    ensures later { O.faults out.old ≤ O.faults out.new }
{
    match error {
        NotDone::Memory => Some(End::Memory),
        NotDone::Stopped => Some(End::Memory),
        NotDone::Disk(lines) => report_struck(inner, out, lines),
    }
}

// Writes the line of the opening.
fn report_opening<S: EventNode, O: Sink>(inner: &S, alloc: Global, out: &mut O) -> Option<End>
    ensures says { (s : Settings) (life : Life) → S.stands_for inner.now s life → IsOpened life
        → Says result (O.written out.old) (O.written out.new) (S.opening s life) }
    ensures write { result ≡ Some End.Write → Rose (O.faults out.old) (O.faults out.new) }
    ensures others { (¬ (result ≡ Some End.Link)) × (¬ (result ≡ Some End.Disk)) }
    ensures later { O.faults out.old ≤ O.faults out.new }
{
    let Ok(line) = inner.opening_line(alloc) else {
        return Some(End::Memory);
    };
    let Ok(()) = write_all(out, line.as_bytes()) else {
        return Some(End::Write);
    };
    None
}

// Does Start and takes the turns.
fn serve_on<S: EventNode, L: Link<Out = S::Sealed>, O: Sink>(
    inner: &mut S,
    connections: &mut [Connection],
    alloc: Global,
    link: &mut L,
    out: &mut O,
    turns: u64,
) -> End
    requires all { length connections.old ≡ most_connections }
    ensures serves { (s : Settings) (life : Life) → S.stands_for inner.old s life → IsOpened life → Reads connections.old NoIntakes
        → ServesOn S.output (S.text s) s life result (O.written out.old) (O.written out.new) (L.told link.old) (L.told link.new)
        (HoldsBy S.EventNode inner.old inner.new s life) (L.asked link.old) (L.asked link.new) turns }
    ensures causes { HasCauses (Some result) (S.faults inner.old) (S.faults inner.new) (O.faults out.old) (O.faults out.new)
        (L.faults link.old) (L.faults link.new) }
{
    if let Some(end) = start(inner, alloc, link, out) {
        return end;
    }
    match take_turns(inner, connections, alloc, link, out, turns) {
        Some(end) => end,
        None => End::Turns,
    }
}

fn fresh_connections(alloc: Global) -> Result<Vec<Connection>, AllocError>
    ensures all { IfOk result (λ connections. length connections.items ≡ most_connections) }
    ensures reads { IfOk result (λ connections. Reads connections.items NoIntakes) }
{
    let mut connections = Vec::new(alloc);
    for count in 0..CONNECTIONS {
        connections.push(Connection::Fresh)?;
    }
    Ok(connections)
}

/// A node over a link.
///
/// Of each of its 192 connections it holds what has come of one frame or of one line that is not whole: less than the length
/// and the body that a frame may have, or one byte more than a line may have (`law_holds_little`). It takes the next input
/// only when it has done all frames and lines of the last one.
#[derive(Drop)]
pub struct Node<S: EventNode> {
    inner: S,
    connections: Vec<Connection>,
    alloc: Global,
    ghost all: { length connections.items ≡ most_connections },
}

impl<S: EventNode> Node<S> {
    /// A node whose journal was just opened, and to which nothing has come.
    pub fn new(alloc: Global, inner: S) -> Result<Node<S>, S>
        ensures ok { IfOk result (λ node. (node.inner ≡ inner) × Reads node.connections.items NoIntakes) }
        ensures err { IfErr result (λ back. back ≡ inner) }
    {
        match fresh_connections(alloc) {
            Ok(connections) => Ok(Node {
                inner,
                connections,
                alloc,
            }),
            Err(_) => Err(inner),
        }
    }

    /// What does its events.
    pub fn inner(&self) -> &S
        ensures { result.now ≡ self.now.inner }
    {
        &self.inner
    }

    /// What does its events, given up by the node.
    pub fn into_inner(self) -> S
        ensures { result ≡ self.inner }
    {
        let Node {
            inner,
            connections: _,
            alloc: _,
        } = self;
        inner
    }

    /// Takes an input and does what it brings. None where the node goes on.
    pub fn turn<L: Link<Out = S::Sealed>, O: Sink>(
        &mut self,
        link: &mut L,
        out: &mut O,
    ) -> Option<End>
        ensures turns { (s : Settings) (life : Life) (intakes : Intakes) → S.stands_for self.old.inner s life → IsUp life
            → Reads self.old.connections.items intakes
            → Turns S.output (S.text s) s life intakes result (O.written out.old) (O.written out.new) (L.told link.old) (L.told link.new)
            (HoldsBy S.EventNode self.old.inner self.new.inner s life) self.new.connections.items (L.asked link.old) (L.asked link.new) 1 }
        ensures never { ¬ (result ≡ Some End.Turns) }
        ensures causes { HasCauses result (S.faults self.old.inner) (S.faults self.new.inner) (O.faults out.old) (O.faults out.new)
            (L.faults link.old) (L.faults link.new) }
    {
        take_turn(
            &mut self.inner,
            &mut self.connections,
            self.alloc,
            link,
            out,
        )
    }

    /// Writes the line of its opening, does Start and then takes so many turns, unless one of them ends the run.
    pub fn serve<L: Link<Out = S::Sealed>, O: Sink>(
        &mut self,
        link: &mut L,
        out: &mut O,
        turns: u64,
    ) -> End
        ensures serves { (s : Settings) (life : Life) → S.stands_for self.old.inner s life → IsOpened life
            → Reads self.old.connections.items NoIntakes
            → Serves S.output (S.text s) s life result (O.written out.old) (O.written out.new) (L.told link.old) (L.told link.new)
            (HoldsBy S.EventNode self.old.inner self.new.inner s life) (L.asked link.old) (L.asked link.new) turns (S.opening s life) }
        ensures causes { HasCauses (Some result) (S.faults self.old.inner) (S.faults self.new.inner) (O.faults out.old) (O.faults out.new)
            (L.faults link.old) (L.faults link.new) }
    {
        match report_opening(&self.inner, self.alloc, out) {
            Some(end) => end,
            None => serve_on(
                &mut self.inner,
                &mut self.connections,
                self.alloc,
                link,
                out,
                turns,
            ),
        }
    }
}

/// Of whatever came over a connection, its reader holds little.
pub fn law_holds_little()
    ensures { LawHoldsLittle }
{}
