//! All sockets of a link: the listed peers that are dialled, the connections that have a number, and those that wait for one.
ghost use Rattle.std.specs.Prelude.{◌<◌, IsTrue, IfOk, IfSome};
ghost use Rattle.zen_link.specs.Told.{has_low_conn, most_connections};

use crate::connection::{Connection, Heard, Prefix, UNNUMBERED, is_later};
use crate::framing::{Framing, Piece, Target};
use crate::link::passed;
use crate::queue::FrameQueue;
use bytes::Bytes;
use indexmap::IndexMap;
use mio::net::{TcpListener, TcpStream};
use mio::{Events, Interest, Poll, Token};
use std::alloc::{AllocError, Global};
use std::collections::VecDeque;
use std::io;
use std::io::ErrorKind;
use std::net::{Net, SocketAddr};
use std::rt::Clock;
use std::time::{Duration, Instant};
use voting_config::NodeId;
use zen_host::HostError;
use zen_link::{CONNECTIONS, Input, LinkError, LinkSettings};

// The shortest time between two dials of a peer, in milliseconds.
const DIAL_MS: u64 = 500;

// The number under which a node's frames to itself come.
const OWN: u64 = 0;

// Under which the listener is registered: no connection has its number.
const LISTENER: Token = Token(OWN as usize);

// How many looks in a row find something before the system is asked what else has come.
const LOOKS: u32 = 16;

// How many lines of clients are handed on before the other connections are looked at, at most.
const LINES: u32 = 64;

// For how many lost nodes there is room from the start: each is told before another connection is looked at.
const LOST: usize = CONNECTIONS as usize;

// How many connections wait for a number at most.
const LOBBY: usize = 8;

// The longest wait for a number, in milliseconds: as long as a peer that has just connected may take to show its first frame.
const ADMISSION_MS: u64 = 1000;

// A listed peer.
#[derive(Clone, Copy)]
pub(crate) struct Listed {
    address: SocketAddr,
    // Before this moment it is not dialled.
    dial_from: u64,
}

// A connection that found no number. Nothing of it was read.
#[derive(Drop)]
struct Guest {
    connection: Connection,
    // At this moment it has waited long enough.
    until: u64,
}

// What is known of the connections that wait to be accepted.
#[derive(Clone, Copy)]
enum Backlog {
    // There is none, until the listener is reported.
    Empty,
    // There may be one.
    Waits,
    // One was refused for want of something: it is tried again at the next look.
    Refused,
}

// What becomes of a connection that waits for a number.
#[derive(Clone, Copy)]
enum Verdict {
    Enters(u64),
    Waits,
    Leaves,
}

// How a connection leads to a node.
#[derive(Clone, Copy)]
enum Way {
    // The node's frames came on it.
    Heard,
    // It was opened to the node.
    Dialled,
}

// In which order connections lose their numbers.
#[derive(Clone, Copy)]
enum Rank {
    // Those that are idle and whose numbers owe no reply, the oldest first.
    Idle,
    // All, the one that was silent longest first.
    Silent,
}

// The sockets of a link.
#[derive(Drop)]
pub(crate) struct Sockets {
    alloc: Global,
    poll: Poll,
    events: Events,
    listener: TcpListener,
    me: NodeId,
    peers: IndexMap<NodeId, Listed>,
    // The connection with a number lies at its place.
    connections: Vec<Option<Connection>>,
    // How many replies each number owes: lines that were given under it, less replies to it. One whose client is gone goes to
    // no other client before it owes none, so that a late reply reaches nobody else.
    owed: Vec<u64>,
    // No connection has a number above this one: the others need not be looked at.
    highest: u64,
    // Those that found no number, the oldest first.
    lobby: VecDeque<Guest>,
    // The nodes that are lost, which is still to be told, the first first.
    lost: VecDeque<NodeId>,
    // Whether a connection has ended that brought frames, since this was asked last.
    has_ended: bool,
    // The node's frames to itself.
    own: FrameQueue,
    // The number of a client that was looked at last.
    last_client: u64,
    // The number of another that was looked at last, or `OWN` where all were looked at since a client was.
    last_other: u64,
    // How many lines of clients were handed on since all others were looked at.
    lines: u32,
    // Counts connections that came and looks that found something, so that what was first has the lower count.
    order: u64,
    backlog: Backlog,
    // How many looks have found something since the system was asked last.
    looks: u32,
    // How often the system has failed and no answer has told it.
    errors: u64,
}

impl Sockets {
    pub(crate) fn open(
        rt: &impl Net,
        alloc: Global,
        settings: &LinkSettings,
    ) -> Result<Sockets, HostError> {
        let mut peers = IndexMap::new(alloc);
        for peer in &settings.peers {
            let Ok(address) = peer.address.as_str().parse::<SocketAddr>() else {
                return Err(HostError::Failed);
            };
            let listed = Listed {
                address,
                dial_from: 0,
            };
            if peers.insert(peer.id, listed).is_err() {
                return Err(HostError::Memory);
            }
        }
        let mut connections = Vec::new(alloc);
        let mut owed = Vec::new(alloc);
        for _ in 0..CONNECTIONS {
            if connections.push(None).is_err() || owed.push(0).is_err() {
                return Err(HostError::Memory);
            }
        }
        let mut lost = VecDeque::new(alloc);
        if lost.reserve(LOST).is_err() {
            return Err(HostError::Memory);
        }
        let Ok(events) = Events::with_capacity(alloc, 64) else {
            return Err(HostError::Memory);
        };
        let Ok((poll, listener)) = listen(rt, settings.listen.as_str()) else {
            return Err(HostError::Failed);
        };
        Ok(Sockets {
            alloc,
            poll,
            events,
            listener,
            me: settings.me,
            peers,
            connections,
            owed,
            highest: OWN,
            lobby: VecDeque::new(alloc),
            lost,
            has_ended: false,
            own: FrameQueue::new(alloc),
            last_client: OWN,
            last_other: OWN,
            lines: 0,
            order: 0,
            backlog: Backlog::Waits,
            looks: 0,
            errors: 0,
        })
    }

    // How often the system has failed since this was asked last.
    pub(crate) fn take_errors(&mut self) -> u64 {
        let errors = self.errors;
        self.errors = 0;
        errors
    }

    // Whether a connection has ended that brought frames, since this was asked last.
    pub(crate) fn take_end(&mut self) -> bool {
        let has_ended = self.has_ended;
        self.has_ended = false;
        has_ended
    }

    pub(crate) fn note_error(&mut self) {
        self.errors = self.errors.saturating_add(1);
    }

    // What comes before a moment, if anything does.
    pub(crate) fn find<R: Clock, F: Framing>(
        &mut self,
        rt: &R,
        framing: &F,
        opened: &Instant,
        until: u64,
    ) -> Result<Option<Input>, LinkError>
        ensures { IfOk result (λ found. IfSome found (λ input. IsTrue (has_low_conn input))) }
    {
        for _ in 0..u32::MAX {
            let Ok(now) = passed(rt, opened) else {
                return Err(LinkError::Failed);
            };
            if self.looks >= LOOKS && self.wait(0).is_err() {
                return Err(LinkError::Failed);
            }
            match self.look(framing, now) {
                Ok(Some(input)) => {
                    self.looks = self.looks.saturating_add(1);
                    return Ok(Some(input));
                }
                Ok(None) => {}
                Err(_) => return Err(LinkError::Memory),
            }
            if now >= until {
                break;
            }
            if self.wait(until - now).is_err() {
                return Err(LinkError::Failed);
            }
        }
        Ok(None)
    }

    // Waits until something may have come, so many milliseconds at most.
    fn wait(&mut self, time: u64) -> io::Result<()> {
        let time = match self.backlog {
            Backlog::Waits => 0,
            Backlog::Empty | Backlog::Refused => time,
        };
        self.looks = 0;
        match self
            .poll
            .poll(&mut self.events, Some(Duration::from_millis(time)))
        {
            Err(error) if !is_later(&error) => Err(error),
            _ => {
                self.note_events();
                Ok(())
            }
        }
    }

    // Notes what the system has reported.
    fn note_events(&mut self) {
        for event in self.events.iter() {
            let token = event.token();
            if token == LISTENER {
                self.backlog = Backlog::Waits;
            } else if let Some(Some(connection)) = self.connections.get_mut(token.0) {
                connection.note_ready();
            }
        }
    }

    // What has come by now, if anything has.
    fn look<F: Framing>(&mut self, framing: &F, now: u64) -> Result<Option<Input>, AllocError>
        ensures { IfOk result (λ found. IfSome found (λ input. IsTrue (has_low_conn input))) }
    {
        if let Some(bytes) = self.own.take()? {
            return Ok(Some(Input::Bytes { conn: OWN, bytes }));
        }
        if let Some(peer) = self.lost.pop_front() {
            return Ok(Some(Input::Disconnected { peer }));
        }
        self.serve(framing, now);
        if self.asks_to_stop(framing) {
            return Ok(Some(Input::Stop));
        }
        for _ in 0..2 {
            let input = self.look_at_connections(framing, now)?;
            if input.is_some() {
                return Ok(input);
            }
            // The clients may have been left out.
            self.lines = 0;
        }
        Ok(None)
    }

    // What has come over connections: of clients first, so that a publication carries all that they asked for while the one before it
    // was going on, which ends by a frame. After so many lines each other connection has its turn.
    fn look_at_connections<F: Framing>(
        &mut self,
        framing: &F,
        now: u64,
    ) -> Result<Option<Input>, AllocError>
        ensures { IfOk result (λ found. IfSome found (λ input. IsTrue (has_low_conn input))) }
    {
        if self.lines < LINES {
            let input = self.look_at_clients(framing, now)?;
            if input.is_some() {
                self.lines = self.lines.saturating_add(1);
                return Ok(input);
            }
            self.lines = LINES;
        }
        self.look_at_others(framing, now)
    }

    // What the next client has sent that has sent anything.
    fn look_at_clients<F: Framing>(
        &mut self,
        framing: &F,
        now: u64,
    ) -> Result<Option<Input>, AllocError>
        ensures { IfOk result (λ found. IfSome found (λ input. IsTrue (has_low_conn input))) }
    {
        let highest = self.highest.min(CONNECTIONS - 1);
        for _ in 0..highest {
            let number = self.last_client % highest + 1;
            self.last_client = number;
            if self.brings_lines(number) {
                let input = self.hear(framing, number, now)?;
                if input.is_some() {
                    return Ok(input);
                }
            }
        }
        Ok(None)
    }

    // What the next of the other connections brings that brings anything, up to the last of them.
    fn look_at_others<F: Framing>(
        &mut self,
        framing: &F,
        now: u64,
    ) -> Result<Option<Input>, AllocError>
        ensures { IfOk result (λ found. IfSome found (λ input. IsTrue (has_low_conn input))) }
    {
        let highest = self.highest.min(CONNECTIONS - 1);
        for number in self.last_other.saturating_add(1)..=highest {
            self.last_other = number;
            if !self.brings_lines(number) {
                let input = self.hear(framing, number, now)?;
                if input.is_some() {
                    return Ok(input);
                }
            }
        }
        self.last_other = OWN;
        Ok(None)
    }

    // Whether the connection with this number was given as lines.
    fn brings_lines(&self, number: u64) -> bool {
        matches!(self.connections.get(number as usize), Some(Some(connection)) if connection.brings_lines())
    }

    // Takes the connections that wait, and writes what waits.
    pub(crate) fn serve<F: Framing>(&mut self, framing: &F, now: u64) {
        self.accept(now);
        self.admit(framing, now);
        self.flush_all();
    }

    // Takes the connections that wait, up to the first that takes the place of another: so each is looked at before it can
    // lose its own.
    fn accept(&mut self, now: u64) {
        if matches!(self.backlog, Backlog::Empty) {
            return;
        }
        self.backlog = Backlog::Waits;
        for _ in 1..CONNECTIONS {
            match self.listener.accept() {
                Ok((stream, _)) => {
                    if self.take_in(stream, now) {
                        return;
                    }
                }
                Err(error) => {
                    self.note_refused(&error);
                    return;
                }
            }
        }
    }

    // No connection could be accepted.
    fn note_refused(&mut self, error: &io::Error) {
        if error.kind() == ErrorKind::WouldBlock {
            self.backlog = Backlog::Empty;
            return;
        }
        self.backlog = Backlog::Refused;
        if !is_later(error) {
            self.note_error();
        }
    }

    // Keeps a connection that came from outside. Says whether it took the place of another.
    fn take_in(&mut self, stream: TcpStream, now: u64) -> bool {
        let Some(connection) = self.registered(stream, None) else {
            return false;
        };
        let is_full = self.free_number().is_none();
        match self.place() {
            Some(number) => self.put(number, connection),
            None => {
                let until = now.saturating_add(ADMISSION_MS);
                return self.put_in_lobby(Guest { connection, until });
            }
        }
        is_full
    }

    // Has a connection wait for a number. Says whether it took the place of another.
    fn put_in_lobby(&mut self, guest: Guest) -> bool {
        let is_full = self.lobby.len() >= LOBBY;
        if is_full {
            drop(self.lobby.pop_front());
        }
        if self.lobby.push_back(guest).is_err() {
            self.note_error();
        }
        is_full
    }

    // Gives a number to those that wait for one and may have it, and closes those that may not.
    fn admit<F: Framing>(&mut self, framing: &F, now: u64) {
        for _ in 0..self.lobby.len() {
            let Some(guest) = self.lobby.pop_front() else {
                return;
            };
            match self.verdict(framing, &guest, now) {
                Verdict::Enters(number) => self.put(number, guest.connection),
                Verdict::Waits => drop(self.put_in_lobby(guest)),
                Verdict::Leaves => drop(guest),
            }
        }
    }

    // A number is given where there is a free one again, and to the frames of a listed peer. One whose first bytes show
    // something else leaves at once.
    fn verdict<F: Framing>(&self, framing: &F, guest: &Guest, now: u64) -> Verdict {
        if let Some(number) = self.free_number() {
            return Verdict::Enters(number);
        }
        match guest.connection.prefix(framing) {
            Prefix::Frame(id) => self.verdict_on_frame(id),
            Prefix::Unclear if now < guest.until => Verdict::Waits,
            Prefix::Stop => Verdict::Waits,
            _ => Verdict::Leaves,
        }
    }

    fn verdict_on_frame(&self, id: NodeId) -> Verdict {
        if !self.peers.contains_key(&id) {
            return Verdict::Leaves;
        }
        match self.place_for_peer() {
            Some(number) => Verdict::Enters(number),
            None => Verdict::Leaves,
        }
    }

    // Whether one that waits for a number says that the node is to end.
    fn asks_to_stop<F: Framing>(&self, framing: &F) -> bool {
        for guest in &self.lobby {
            if matches!(guest.connection.prefix(framing), Prefix::Stop) {
                return true;
            }
        }
        false
    }

    // A number that is free, or else that of the oldest idle connection. It owes no reply.
    fn place(&self) -> Option<u64> {
        let free = self.free_number();
        if free.is_some() {
            return free;
        }
        self.least_of(Rank::Idle)
    }

    // The same, or else one without a connection that owes replies, since a peer gets none; or else the number of the
    // client that was silent longest: clients must not lock peers out.
    fn place_for_peer(&self) -> Option<u64> {
        let place = self.place();
        if place.is_some() {
            return place;
        }
        let owing = self.unused_number(u64::MAX);
        if owing.is_some() {
            return owing;
        }
        self.least_of(Rank::Silent)
    }

    // Of the connections that lead to no listed peer and have a place in this order, the number of the first.
    fn least_of(&self, rank: Rank) -> Option<u64> {
        let mut found = None;
        let mut least = u64::MAX;
        for number in 1..=self.highest {
            if let Some(Some(connection)) = self.connections.get(number as usize) {
                let own = self.rank_of(number, connection, rank);
                if own < least && !self.leads_to_peer(number, connection) {
                    least = own;
                    found = Some(number);
                }
            }
        }
        found
    }

    // A connection's place in an order, or the greatest number where it has none.
    fn rank_of(&self, number: u64, connection: &Connection, rank: Rank) -> u64 {
        match rank {
            Rank::Silent => connection.heard(),
            Rank::Idle if connection.is_idle() && self.owed_by(number) == 0 => connection.age(),
            Rank::Idle => u64::MAX,
        }
    }

    // Whether it was opened to a listed peer, or is the newest one that brings a listed peer's frames.
    fn leads_to_peer(&self, number: u64, connection: &Connection) -> bool {
        if connection.is_over() {
            return false;
        }
        if connection.peer().is_some() {
            return true;
        }
        let Some(id) = connection.sender() else {
            return false;
        };
        self.peers.contains_key(&id) && self.newest_by(Way::Heard, id) == Some(number)
    }

    fn owed_by(&self, number: u64) -> u64 {
        self.owed.get(number as usize).copied().unwrap_or(0)
    }

    // Whether a client has the number, and the node knows it.
    fn is_client(&self, number: u64) -> bool {
        match self.connections.get(number as usize) {
            Some(Some(connection)) => connection.brings_lines() && !connection.owes_end(),
            _ => false,
        }
    }

    // A new connection, which is reported when something comes.
    fn registered(&mut self, mut stream: TcpStream, peer: Option<NodeId>) -> Option<Connection> {
        // Where the system refuses it, frames come later, and no less.
        let _ = stream.set_nodelay(true);
        let registry = self.poll.registry();
        if registry
            .register(&mut stream, UNNUMBERED, Interest::READABLE)
            .is_err()
        {
            self.note_error();
            return None;
        }
        let age = self.next_order();
        Some(Connection::new(self.alloc, stream, peer, age))
    }

    fn next_order(&mut self) -> u64 {
        self.order = self.order.saturating_add(1);
        self.order
    }

    // Puts a connection under a number, in place of the one that has it.
    fn put(&mut self, number: u64, mut connection: Connection) {
        let node = self.note_end(number);
        if let Some(slot) = self.connections.get_mut(number as usize) {
            connection.set_number(self.poll.registry(), number);
            connection.set_owes_end(matches!(slot, Some(old) if old.was_heard()));
            *slot = Some(connection);
            self.highest = self.highest.max(number);
        }
        self.note_lost(node);
    }

    // Notes that the connection with this number ends, if there is one. Gives the node whose frames it brought, or else the
    // one to which it was opened.
    fn note_end(&mut self, number: u64) -> Option<NodeId> {
        let Some(Some(connection)) = self.connections.get(number as usize) else {
            return None;
        };
        let sender = connection.sender();
        self.has_ended = self.has_ended || sender.is_some();
        sender.or(connection.peer())
    }

    // A connection of this node has ended. Where no other brings its frames, it is lost.
    fn note_lost(&mut self, node: Option<NodeId>) {
        let Some(id) = node else {
            return;
        };
        if self.newest_by(Way::Heard, id).is_some() || self.lost.contains(&id) {
            return;
        }
        if self.lost.push_back(id).is_err() {
            self.note_error();
        }
    }

    // What has come over the connection with this number.
    fn hear<F: Framing>(
        &mut self,
        framing: &F,
        number: u64,
        now: u64,
    ) -> Result<Option<Input>, AllocError>
        requires { number < most_connections }
        ensures { IfOk result (λ found. IfSome found (λ input. IsTrue (has_low_conn input))) }
    {
        let order = self.next_order();
        let Some(Some(connection)) = self.connections.get_mut(number as usize) else {
            return Ok(None);
        };
        if !connection.may_bring() {
            return Ok(None);
        }
        if connection.owes_end() {
            connection.set_owes_end(false);
            return Ok(Some(Input::Closed { conn: number }));
        }
        let was_heard = connection.was_heard();
        match connection.hear(framing, order)? {
            Heard::Nothing => return Ok(None),
            Heard::Bytes(bytes) => {
                if connection.brings_lines() && bytes.as_slice().ends_with(b"\n") {
                    self.note_line(number);
                }
                return Ok(Some(Input::Bytes {
                    conn: number,
                    bytes,
                }));
            }
            Heard::Stop => return Ok(Some(Input::Stop)),
            Heard::Shut if self.is_kept(number, now) => return Ok(None),
            Heard::Shut => {}
            Heard::End => {}
        }
        self.close(number);
        if was_heard {
            Ok(Some(Input::Closed { conn: number }))
        } else {
            Ok(None)
        }
    }

    // Whether the connection with this number, whose other side has ended its writing, is kept for its replies.
    fn is_kept(&mut self, number: u64, now: u64) -> bool {
        let owed = self.owed_by(number);
        match self.connections.get_mut(number as usize) {
            Some(Some(connection)) => connection.is_kept(owed, now),
            _ => false,
        }
    }

    // A line was given under this number.
    fn note_line(&mut self, number: u64) {
        if let Some(owed) = self.owed.get_mut(number as usize) {
            *owed = owed.saturating_add(1);
        }
    }

    // A reply to this number was sent.
    fn note_reply(&mut self, number: u64) {
        if let Some(owed) = self.owed.get_mut(number as usize) {
            *owed = owed.saturating_sub(1);
        }
    }

    // Forgets the connection with this number, if there is one.
    fn close(&mut self, number: u64) {
        let node = self.note_end(number);
        if let Some(slot) = self.connections.get_mut(number as usize) {
            *slot = None;
        }
        self.note_lost(node);
    }

    // Ends the connection that is known by this number, if there is one.
    pub(crate) fn drop_known(&mut self, number: u64) {
        let Some(Some(connection)) = self.connections.get_mut(number as usize) else {
            return;
        };
        if connection.owes_end() {
            connection.set_owes_end(false);
        } else {
            self.close(number);
        }
    }

    // Writes what waits of each connection, and notes which number is the highest.
    fn flush_all(&mut self) {
        let mut highest = OWN;
        for number in 1..=self.highest {
            if let Some(Some(connection)) = self.connections.get_mut(number as usize) {
                connection.flush(self.poll.registry());
                highest = number;
            }
        }
        self.highest = highest;
    }

    // Sends each piece, or loses it. What goes over one connection is written together.
    pub(crate) fn send<F: Framing>(&mut self, rt: &impl Net, now: u64, framing: &F, out: &F::Out) {
        for place in 0..framing.count(out) {
            match framing.piece(self.alloc, out, place) {
                Ok(Some(piece)) => self.send_piece(rt, now, piece),
                Ok(None) => {}
                Err(_) => self.note_error(),
            }
        }
        self.flush_all();
    }

    // Sends a piece, or loses it.
    fn send_piece(&mut self, rt: &impl Net, now: u64, piece: Piece) {
        let Piece { to, bytes } = piece;
        match to {
            Target::Connection(number) => self.answer(number, bytes),
            Target::Node(id) => self.send_to(rt, now, id, bytes),
        }
    }

    // Sends bytes to a node, or loses them.
    fn send_to(&mut self, rt: &impl Net, now: u64, id: NodeId, bytes: Bytes) {
        if id == self.me {
            self.send_own(bytes);
        } else if let Some(number) = self.number_of(rt, now, id) {
            self.send_over(number, bytes);
        }
    }

    // Sends a reply to the client that is known by this number, or loses it. A peer that has the number now gets none.
    fn answer(&mut self, number: u64, bytes: Bytes) {
        self.note_reply(number);
        if self.is_client(number) {
            self.send_over(number, bytes);
        }
    }

    // Has bytes wait at the connection with this number, or loses them.
    fn send_over(&mut self, number: u64, bytes: Bytes) {
        let Some(Some(connection)) = self.connections.get_mut(number as usize) else {
            return;
        };
        if connection.put(self.poll.registry(), bytes).is_err() {
            self.note_error();
        }
    }

    // Passes bytes to the node itself, or loses them.
    fn send_own(&mut self, bytes: Bytes) {
        if self.own.put(bytes).is_err() {
            self.note_error();
        }
    }

    // The connection that leads to a node: the newest one that its frames came on, or that was opened to it. A listed one is
    // dialled where there is none. The newest, since a peer that came back after a crash may leave an old one that tells
    // nothing of its end.
    fn number_of(&mut self, rt: &impl Net, now: u64, id: NodeId) -> Option<u64> {
        let heard = self.newest_by(Way::Heard, id);
        if heard.is_some() {
            return heard;
        }
        let dialled = self.newest_by(Way::Dialled, id);
        if dialled.is_some() {
            return dialled;
        }
        self.dial(rt, now, id)
    }

    // Opens a connection to a listed peer, if it is time. One that is refused is no fault.
    fn dial(&mut self, rt: &impl Net, now: u64, id: NodeId) -> Option<u64> {
        let address = self.address_to_dial(now, id)?;
        let number = self.place_for_peer()?;
        let stream = TcpStream::connect(rt, address).ok()?;
        let connection = self.registered(stream, Some(id))?;
        self.put(number, connection);
        Some(number)
    }

    // Where a listed peer listens, if it is time to dial it. It is not given again too soon.
    fn address_to_dial(&mut self, now: u64, id: NodeId) -> Option<SocketAddr> {
        let listed = self.peers.get_mut(&id)?;
        if now < listed.dial_from {
            return None;
        }
        listed.dial_from = now.saturating_add(DIAL_MS);
        Some(listed.address)
    }

    // The number of the newest connection that leads to a node in this way.
    fn newest_by(&self, way: Way, id: NodeId) -> Option<u64> {
        let mut found = None;
        let mut newest = 0;
        for number in 1..=self.highest {
            if let Some(Some(connection)) = self.connections.get(number as usize) {
                let is_newer = !connection.is_over() && connection.age() >= newest;
                if is_newer && leads_to(connection, way) == Some(id) {
                    newest = connection.age();
                    found = Some(number);
                }
            }
        }
        found
    }

    // A number without a connection that owes no reply.
    fn free_number(&self) -> Option<u64> {
        self.unused_number(0)
    }

    // A number without a connection that owes so many replies at most.
    fn unused_number(&self, most_owed: u64) -> Option<u64> {
        for number in 1..CONNECTIONS {
            let is_unused = matches!(self.connections.get(number as usize), Some(None));
            if is_unused && self.owed_by(number) <= most_owed {
                return Some(number);
            }
        }
        None
    }
}

// The node that a connection leads to in this way.
fn leads_to(connection: &Connection, way: Way) -> Option<NodeId> {
    match way {
        Way::Heard => connection.sender(),
        Way::Dialled => connection.peer(),
    }
}

// A listener at this address, and what waits for it.
fn listen(rt: &impl Net, address: &str) -> io::Result<(Poll, TcpListener)> {
    let Ok(address) = address.parse::<SocketAddr>() else {
        return Err(io::Error::from(io::ErrorKind::InvalidInput));
    };
    let poll = Poll::new(rt)?;
    let mut listener = TcpListener::bind(rt, address)?;
    poll.registry()
        .register(&mut listener, LISTENER, Interest::READABLE)?;
    Ok((poll, listener))
}
