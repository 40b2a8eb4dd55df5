//! Links over real sockets on this machine, with peers, with clients, and with clients that mean harm: rows of what the other
//! sides do and of what the link gives, which a world runs. What is expected follows from the bounds of docs/limits.md and from
//! what the other side did.
use self::AtLink::*;
use self::ByClient::*;
use self::ByCrowd::*;
use self::Row::*;
use bytes::Bytes;
use host_io::{Framing, Piece, SocketLink, SystemHost, Target};
use std::alloc::{AllocError, Global};
use std::io::{Read, Write};
use std::net::{Shutdown, TcpListener, TcpStream};
use std::test::Fail;
use std::time::Duration;
use std::{io, thread};
use voting_config::NodeId;
use zen_host::{Host, HostError};
use zen_link::{CONNECTIONS, Input, Link, LinkSettings, Peer};

/// Pieces whose frames have four bytes of length, a kind, and the sender's id after its length.
#[derive(Clone, Copy)]
struct Pieces;

impl Framing for Pieces {
    type Out = Vec<Piece>;

    fn count(&self, out: &Vec<Piece>) -> usize {
        out.len()
    }

    fn piece(
        &self,
        _alloc: Global,
        out: &Vec<Piece>,
        place: usize,
    ) -> Result<Option<Piece>, AllocError> {
        let Some(piece) = out.get(place) else {
            return Ok(None);
        };
        let bytes = piece.bytes.clone()?;
        Ok(Some(Piece {
            to: piece.to,
            bytes,
        }))
    }

    fn sender(&self, prefix: &[u8]) -> Option<NodeId> {
        let len = *prefix.get(5)? as usize;
        NodeId::from_bytes(prefix.get(6..6 + len)?)
    }
}

type RealLink = SocketLink<HostRuntime, Pieces>;

// Frames of one kind, from a to b and back.
const ASKED: &[u8; 9] = b"\0\0\0\x05\x07\x01a\x01b";

const ANSWERED: &[u8; 9] = b"\0\0\0\x05\x07\x01b\x01a";

// More than the system holds of a connection.
const LONG: usize = 4_194_304;

// The longest frame for which there is room.
const LONGEST: usize = 8_388_612;

// The most bytes that a client reads at once.
const ROOM: usize = 16;

// The clients that rows name, in the order in which they connect.
const FIRST: usize = 0;

const SECOND: usize = 1;

const THIRD: usize = 2;

// What a client does, or what it then sees.
#[derive(Clone, Copy)]
enum ByClient {
    Connects,
    Says(&'static [u8]),
    EndsWriting,
    Leaves,
    Reads(&'static [u8]),
    // It reads these bytes, and then the end.
    ReadsToEnd(&'static [u8]),
    // It reads by 4 KB at a time, while the link goes on: so many bytes of this value, and then these.
    ReadsSlowly(u8, usize, &'static [u8]),
    // It reads as slowly, where six long frames of the values 1 to 6 were sent: the first two, and then whole ones alone,
    // but not all.
    ReadsWholeFrames,
    // Whether its connection is ended within so many looks.
    IsEnded(u64, bool),
}

// What is done with the link of node a, or what it then gives. Connections go by their numbers.
#[derive(Clone, Copy)]
enum AtLink {
    // The next input but for ticks: these bytes.
    Gives(u64, &'static [u8]),
    // The same with no tick before it.
    GivesAtOnce(u64, &'static [u8]),
    // The next inputs but for ticks: these bytes so many times.
    GivesTimes(u64, &'static [u8], u64),
    // The next input but for ticks: the end of the connection.
    Closes(u64),
    // The next input but for ticks: that the node with this id is lost.
    Loses(u8),
    // The next inputs: so many ticks.
    Ticks(u64),
    // The next input is a tick, and one comes again though it sends itself something each time.
    TicksAmongInputs,
    // The next input but for ticks: that the node is to end.
    Stops,
    // The next input is whatever it is.
    GoesOn,
    HasNoFault,
    Sends(u64, &'static [u8]),
    // It sends so many bytes of this value.
    SendsMany(u64, u8, usize),
    Drops(u64),
    // It sends these bytes to the node with this id.
    SendsTo(u8, &'static [u8]),
    // It sends so many frames to its peer.
    Asks(u64),
    // Nothing is asked of it for 150 ms.
    Rests,
}

// What many clients do.
#[derive(Clone, Copy)]
enum ByCrowd {
    // So many come that say nothing.
    Idle(u64),
    // As many come as there are numbers, and each says a line and is answered.
    Fills,
    // Each of them still is heard.
    IsHeard,
}

#[derive(Clone, Copy)]
enum Row {
    // By the client that is named.
    Client(usize, ByClient),
    // At the link of node a.
    Here(AtLink),
    // At the link of the peer, node b, which is at the address that the link of node a has for it.
    There(AtLink),
    PeerOpens,
    PeerEnds,
    Crowd(ByCrowd),
}

fn id(letter: u8) -> NodeId {
    NodeId::from_bytes(&[letter]).unwrap_or_default()
}

// A free port of this machine, as an address.
fn free_address(rt: &HostRuntime) -> Result<String, Fail> {
    let listener = TcpListener::bind(rt, "127.0.0.1:0")?;
    let address = listener.local_addr()?;
    Ok(format!(in rt.alloc(); "{address}")?)
}

fn peers_of(alloc: Global, peer: Option<(u8, &str)>) -> Result<Vec<Peer>, AllocError> {
    let mut peers = Vec::new(alloc);
    if let Some((letter, address)) = peer {
        let id = id(letter);
        let address = String::from_str(alloc, address)?;
        peers.push(Peer { id, address })?;
    }
    Ok(peers)
}

fn settings(
    alloc: Global,
    me: u8,
    address: &str,
    peer: Option<(u8, &str)>,
) -> Result<LinkSettings, AllocError> {
    let peers = peers_of(alloc, peer)?;
    Ok(LinkSettings {
        me: id(me),
        listen: String::from_str(alloc, address)?,
        peers,
    })
}

// A link of the node with this id, which listens here and has this peer, if any.
fn open(
    rt: &HostRuntime,
    me: u8,
    address: &str,
    peer: Option<(u8, &str)>,
) -> Result<RealLink, HostError> {
    match settings(rt.alloc(), me, address, peer) {
        Ok(settings) => SystemHost::new(rt, Pieces).open_link(&settings),
        Err(_) => Err(HostError::Memory),
    }
}

// What a link is given to send: these bytes, or so many of this value.
#[derive(Clone, Copy)]
enum Sent {
    Are(&'static [u8]),
    AreMany(u8, usize),
}

fn out_of(alloc: Global, to: Target, sent: Sent) -> Result<Vec<Piece>, AllocError> {
    let bytes = match sent {
        Sent::Are(bytes) => Bytes::from_static(bytes),
        Sent::AreMany(value, count) => Bytes::from_vec(vec![in alloc; value; count]?)?,
    };
    Ok(vec![in alloc; Piece { to, bytes }]?)
}

fn send(alloc: Global, link: &mut RealLink, to: Target, sent: Sent) -> bool {
    match out_of(alloc, to, sent) {
        Ok(out) => {
            link.send(out);
            true
        }
        Err(_) => false,
    }
}

fn ask(alloc: Global, link: &mut RealLink, count: u64) -> bool {
    for _ in 0..count {
        if !send(alloc, link, Target::Node(id(b'b')), Sent::Are(ASKED)) {
            return false;
        }
    }
    true
}

// An input that is no tick.
#[derive(Clone, Copy)]
enum Given {
    Bytes(u64, &'static [u8]),
    Closed(u64),
    Lost(u8),
    Stop,
}

fn is(input: &Input, wanted: Given) -> bool {
    match (input, wanted) {
        (Input::Bytes { conn, bytes }, Given::Bytes(number, wanted)) => {
            *conn == number && bytes.as_slice() == wanted
        }
        (Input::Closed { conn }, Given::Closed(number)) => *conn == number,
        (Input::Disconnected { peer }, Given::Lost(letter)) => *peer == id(letter),
        (Input::Stop, Given::Stop) => true,
        _ => false,
    }
}

// Whether this is the next input, after so many ticks at most.
fn gives_after(link: &mut RealLink, most: u64, wanted: Given) -> bool {
    for _ in 0..=most {
        match link.next() {
            Ok(Input::Tick { .. }) => {}
            Ok(input) => return is(&input, wanted),
            Err(_) => return false,
        }
    }
    false
}

// Whether this is the next input but for ticks, so many times.
fn gives(link: &mut RealLink, wanted: Given, times: u64) -> bool {
    for _ in 0..times {
        if !gives_after(link, 99, wanted) {
            return false;
        }
    }
    true
}

// The moment of the next input, where it is a tick.
fn next_tick(link: &mut RealLink) -> Option<u64> {
    match link.next() {
        Ok(Input::Tick { now, .. }) => Some(now),
        _ => None,
    }
}

fn ticks(link: &mut RealLink, count: u64) -> bool {
    for _ in 0..count {
        if next_tick(link).is_none() {
            return false;
        }
    }
    true
}

// Whether a tick comes while there always is an input, 100 ms after the one before it or later.
fn ticks_among_inputs(alloc: Global, link: &mut RealLink) -> bool {
    let Some(first) = next_tick(link) else {
        return false;
    };
    for _ in 0..10_000_000 {
        if !send(alloc, link, Target::Node(id(b'a')), Sent::Are(ASKED)) {
            return false;
        }
        if let Some(now) = next_tick(link) {
            return first.saturating_add(100) <= now;
        }
    }
    false
}

// What is done with a link, or what it then gives.
fn is_so(rt: &HostRuntime, link: &mut RealLink, row: AtLink) -> bool {
    let alloc = rt.alloc();
    match row {
        Gives(number, bytes) => gives(link, Given::Bytes(number, bytes), 1),
        GivesAtOnce(number, bytes) => gives_after(link, 0, Given::Bytes(number, bytes)),
        GivesTimes(number, bytes, times) => gives(link, Given::Bytes(number, bytes), times),
        Closes(number) => gives(link, Given::Closed(number), 1),
        Loses(letter) => gives(link, Given::Lost(letter), 1),
        Ticks(count) => ticks(link, count),
        TicksAmongInputs => ticks_among_inputs(alloc, link),
        Stops => gives(link, Given::Stop, 1),
        GoesOn => link.next().is_ok(),
        HasNoFault => link.fault_count() == 0,
        Sends(number, bytes) => { send(alloc, link, Target::Connection(number), Sent::Are(bytes)) }
        SendsMany(number, value, count) => {
            let sent = Sent::AreMany(value, count);
            send(alloc, link, Target::Connection(number), sent)
        }
        SendsTo(node, bytes) => send(alloc, link, Target::Node(id(node)), Sent::Are(bytes)),
        Asks(count) => ask(alloc, link, count),
        Drops(number) => {
            link.drop_conn(number);
            true
        }
        Rests => {
            thread::sleep(rt, Duration::from_millis(150));
            true
        }
    }
}

fn say(mut client: &TcpStream, text: &[u8]) -> bool {
    client.write_all(text).is_ok()
}

// Reads until there is no more room, or the other side ends its writing. Gives how many bytes came.
fn read_all(mut client: &TcpStream, into: &mut [u8]) -> io::Result<usize> {
    let mut count: usize = 0;
    for _ in 0..into.len() {
        let Some(rest) = into.get_mut(count..) else {
            break;
        };
        // A read into no room waits for bytes all the same.
        if rest.is_empty() {
            break;
        }
        match client.read(rest)? {
            0 => break,
            read => count = count.saturating_add(read),
        }
    }
    Ok(count)
}

// Whether these bytes come where there is room for so many: for as many as these, or for more, which shows that then comes the end.
fn reads(client: &TcpStream, wanted: &[u8], room: usize) -> bool {
    let mut buffer = [0u8; ROOM];
    match buffer.get_mut(..room) {
        Some(into) => match read_all(client, into) {
            Ok(count) => count == wanted.len() && into.starts_with(wanted),
            Err(_) => false,
        },
        None => false,
    }
}

// How far a slow client reads: until so many bytes have come, or until the last one that came is this.
#[derive(Clone, Copy)]
enum Until {
    Count(usize),
    Last(u8),
}

fn is_reached(bytes: &[u8], until: Until) -> bool {
    match until {
        Until::Count(count) => bytes.len() >= count,
        Until::Last(value) => bytes.last() == Some(&value),
    }
}

// Reads by 4 KB at a time, while the link goes on.
fn read_slowly(
    alloc: Global,
    link: &mut RealLink,
    mut client: &TcpStream,
    until: Until,
) -> io::Result<Vec<u8>> {
    client.set_nonblocking(true)?;
    let mut all = Vec::new(alloc);
    for _ in 0..100_000 {
        let mut buffer = [0u8; 4096];
        match client.read(&mut buffer) {
            Ok(read) => all.extend_from_slice(&buffer[..read])?,
            Err(_) => drop(link.next()),
        }
        if is_reached(&all, until) {
            break;
        }
    }
    Ok(all)
}

// What comes after so many bytes of this value.
fn after_many(bytes: &[u8], value: u8, count: usize) -> Option<&[u8]> {
    let prefix = bytes.get(..count)?;
    if prefix.iter().all(|byte| *byte == value) {
        bytes.get(count..)
    } else {
        None
    }
}

fn reads_slowly(
    alloc: Global,
    link: &mut RealLink,
    client: &TcpStream,
    (value, count): (u8, usize),
    rest: &[u8],
) -> bool {
    let until = Until::Count(rest.len().saturating_add(count));
    match read_slowly(alloc, link, client, until) {
        Ok(all) => after_many(&all, value, count) == Some(rest),
        Err(_) => false,
    }
}

// How many bytes come after the first two long frames.
fn after_two(bytes: &[u8]) -> Option<usize> {
    let rest = after_many(after_many(bytes, 1, LONG)?, 2, LONG)?;
    Some(rest.len())
}

// How many bytes come, by what comes after the first two long frames.
fn count_after_two(
    alloc: Global,
    link: &mut RealLink,
    client: &TcpStream,
) -> io::Result<Option<usize>> {
    let all = read_slowly(alloc, link, client, Until::Count(2 * LONG))?;
    Ok(after_two(&all))
}

// A last byte of another value shows how much came before it.
fn reads_whole_frames(alloc: Global, link: &mut RealLink, client: &TcpStream) -> io::Result<bool> {
    let Some(more) = count_after_two(alloc, link, client)? else {
        return Ok(false);
    };
    let is_sent = send(alloc, link, Target::Connection(1), Sent::Are(b"\x09"));
    let rest = read_slowly(alloc, link, client, Until::Last(9))?.len();
    // Behind the last frame comes that byte.
    let count = more.saturating_add(rest);
    Ok(is_sent && count % LONG == 1 && count < 4 * LONG)
}

// Whether the other side, to which nothing is sent, ends the connection within so many looks.
fn is_ended(link: &mut RealLink, mut client: &TcpStream, looks: u64) -> io::Result<bool> {
    client.set_nonblocking(true)?;
    for _ in 0..looks {
        let _ = link.next();
        let mut rest = [0u8; 1];
        match client.read(&mut rest) {
            Err(error) if error.kind() == io::ErrorKind::WouldBlock => {}
            _ => return Ok(true),
        }
    }
    Ok(false)
}

// Whether so many clients come, with the numbers from 1 on where each says a line and is answered.
fn come(
    rt: &HostRuntime,
    link: &mut RealLink,
    address: &str,
    clients: &mut Vec<TcpStream>,
    count: u64,
    are_served: bool,
) -> io::Result<bool> {
    for number in 1..=count {
        let client = TcpStream::connect(rt, address)?;
        let is_so = !are_served || is_served(rt.alloc(), link, &client, number);
        clients.push(client)?;
        if !is_so {
            return Ok(false);
        }
    }
    Ok(true)
}

fn is_heard(link: &mut RealLink, client: &TcpStream, number: u64, line: &'static [u8]) -> bool {
    say(client, line) && gives(link, Given::Bytes(number, line), 1)
}

fn is_served(alloc: Global, link: &mut RealLink, client: &TcpStream, number: u64) -> bool {
    let to = Target::Connection(number);
    is_heard(link, client, number, b"x\n") && send(alloc, link, to, Sent::Are(b"z\n"))
}

// Whether each of these clients is heard, with the numbers from 1 on.
fn are_heard(link: &mut RealLink, clients: &[TcpStream]) -> bool {
    let mut number = 0u64;
    for client in clients {
        number = number.saturating_add(1);
        if !is_heard(link, client, number, b"y\n") {
            return false;
        }
    }
    true
}

// The link of node a, its peer, and the clients that connect to it.
#[derive(Drop)]
struct World<'a> {
    rt: &'a HostRuntime,
    link: RealLink,
    address: String,
    peer: Option<RealLink>,
    peer_address: String,
    clients: [Option<TcpStream>; 3],
    crowd: Vec<TcpStream>,
}

impl World<'_> {
    // A link, and its peer, if it has one, which is not open yet.
    fn new(rt: &HostRuntime, has_peer: bool) -> Result<World<'_>, Fail> {
        let address = free_address(rt)?;
        let peer_address = free_address(rt)?;
        let peer = has_peer.then_some((b'b', peer_address.as_str()));
        let link = open(rt, b'a', address.as_str(), peer)?;
        Ok(World {
            rt,
            link,
            address,
            peer: None,
            peer_address,
            clients: [None, None, None],
            crowd: Vec::new(rt.alloc()),
        })
    }

    // The place of the first row that is not so.
    fn first_untrue(&mut self, rows: &[Row]) -> Option<usize> {
        for (place, row) in rows.iter().enumerate() {
            if !self.is_so(*row) {
                return Some(place);
            }
        }
        None
    }

    fn is_so(&mut self, row: Row) -> bool {
        match row {
            Client(client, Connects) => self.set_client(client, true),
            Client(client, Leaves) => self.set_client(client, false),
            Client(client, row) => self.is_seen(client, row),
            Here(row) => is_so(self.rt, &mut self.link, row),
            There(row) => match &mut self.peer {
                Some(peer) => is_so(self.rt, peer, row),
                None => false,
            },
            PeerOpens => self.set_peer(true),
            PeerEnds => self.set_peer(false),
            Crowd(row) => self.is_crowd_so(row),
        }
    }

    fn set_client(&mut self, client: usize, connects: bool) -> bool {
        let Some(slot) = self.clients.get_mut(client) else {
            return false;
        };
        *slot = if connects {
            TcpStream::connect(self.rt, self.address.as_str()).ok()
        } else {
            None
        };
        slot.is_some() == connects
    }

    // What a client that is connected does, or what it then sees.
    fn is_seen(&mut self, client: usize, row: ByClient) -> bool {
        let alloc = self.rt.alloc();
        let link = &mut self.link;
        let Some(Some(client)) = self.clients.get(client) else {
            return false;
        };
        match row {
            Connects | Leaves => false,
            Says(text) => say(client, text),
            EndsWriting => client.shutdown(Shutdown::Write).is_ok(),
            Reads(text) => reads(client, text, text.len()),
            ReadsToEnd(text) => reads(client, text, ROOM),
            ReadsSlowly(value, count, rest) => {
                reads_slowly(alloc, link, client, (value, count), rest)
            }
            ReadsWholeFrames => reads_whole_frames(alloc, link, client).unwrap_or(false),
            IsEnded(looks, wanted) => match is_ended(link, client, looks) {
                Ok(ended) => ended == wanted,
                Err(_) => false,
            },
        }
    }

    fn set_peer(&mut self, opens: bool) -> bool {
        self.peer = if opens {
            open(self.rt, b'b', self.peer_address.as_str(), None).ok()
        } else {
            None
        };
        self.peer.is_some() == opens
    }

    fn is_crowd_so(&mut self, row: ByCrowd) -> bool {
        match row {
            Idle(count) => self.come(count, false),
            Fills => self.come(CONNECTIONS - 1, true),
            IsHeard => are_heard(&mut self.link, &self.crowd),
        }
    }

    fn come(&mut self, count: u64, are_served: bool) -> bool {
        let address = self.address.as_str();
        come(
            self.rt,
            &mut self.link,
            address,
            &mut self.crowd,
            count,
            are_served,
        )
        .unwrap_or(false)
    }
}

// A test's name, whether the link has a peer, and its rows.
type Test = (&'static str, bool, &'static [Row]);

// Says which row is not so, the first being row 0.
fn run(rt: &HostRuntime, test: &Test) -> Result<(), Fail> {
    let (name, has_peer, rows) = *test;
    let mut world = World::new(rt, has_peer)?;
    match world.first_untrue(rows) {
        Some(place) => Err(Fail::new(format_args!("{name}: row {place}"))),
        None => Ok(()),
    }
}

const SERVED_AND_STOPPED: &[Row] = &[
    Client(FIRST, Connects),
    Client(FIRST, Says(b"{\"id\":1}\n")),
    Here(Gives(1, b"{\"id\":1}\n")),
    Here(Sends(1, b"not_master\n")),
    Client(FIRST, Reads(b"not_master\n")),
    Client(FIRST, Leaves),
    Here(Closes(1)),
    Client(SECOND, Connects),
    Client(SECOND, Says(b"st")),
    Here(Ticks(1)),
    Client(SECOND, Says(b"op\n")),
    Here(Stops),
];

const TICKS_AMONG_INPUTS: &[Row] = &[Here(TicksAmongInputs)];

const FRAMES_TO_ITSELF: &[Row] = &[
    Here(SendsTo(b'a', b"1")),
    Here(SendsTo(b'a', b"2")),
    Here(Gives(0, b"12")),
    Here(SendsTo(b'a', b"3")),
    Here(Gives(0, b"3")),
    Here(Ticks(1)),
];

// Whether a link opens that listens here, with a peer there where one is named.
fn opens(rt: &HostRuntime, address: &str, peer: Option<(u8, &str)>) -> bool {
    open(rt, b'a', address, peer).is_ok()
}

#[test]
fn a_hosts_name_is_no_address(rt: HostRuntime) -> Result<(), Fail> {
    let numbers = free_address(&rt)?;
    let numbers = numbers.as_str();
    assert!(rt; !opens(&rt, "localhost:0", None));
    assert!(rt; !opens(&rt, numbers, Some((b'a', "localhost:0"))));
    assert!(rt; opens(&rt, numbers, None));
    Ok(())
}

const TWO_LINKS: &[Row] = &[
    Here(Asks(100)),
    Here(Loses(b'b')),
    Here(Ticks(1)),
    Here(HasNoFault),
    PeerOpens,
    Here(Ticks(12)),
    Here(Asks(1)),
    There(Gives(1, ASKED)),
    There(SendsTo(b'a', ANSWERED)),
    PeerEnds,
    Here(Gives(1, ANSWERED)),
    Here(Closes(1)),
    Here(Loses(b'b')),
];

const SLOW_READER: &[Row] = &[
    Client(FIRST, Connects),
    Client(FIRST, Says(b"x\n")),
    Here(Gives(1, b"x\n")),
    Here(SendsMany(1, 7, LONG)),
    Here(SendsMany(1, 8, 9)),
    Client(FIRST, ReadsSlowly(7, LONG, &[8; 9])),
    Here(SendsMany(1, 9, LONGEST)),
    Client(FIRST, ReadsSlowly(9, LONGEST, b"")),
];

const NO_ROOM: &[Row] = &[
    Client(FIRST, Connects),
    Client(FIRST, Says(b"x\n")),
    Here(Gives(1, b"x\n")),
    Here(SendsMany(1, 1, LONG)),
    Here(SendsMany(1, 2, LONG)),
    Here(SendsMany(1, 3, LONG)),
    Here(SendsMany(1, 4, LONG)),
    Here(SendsMany(1, 5, LONG)),
    Here(SendsMany(1, 6, LONG)),
    Client(FIRST, ReadsWholeFrames),
];

const READER_GONE: &[Row] = &[
    Client(FIRST, Connects),
    Client(FIRST, Says(b"x\n")),
    Here(Gives(1, b"x\n")),
    Here(SendsMany(1, 7, LONG)),
    Client(FIRST, Leaves),
    Here(Closes(1)),
    Here(SendsMany(1, 7, LONG)),
    Here(Ticks(1)),
    Here(HasNoFault),
];

const IDLE: &[Row] = &[
    Client(FIRST, Connects),
    Client(FIRST, Says(b"half")),
    Here(Gives(1, b"half")),
    // They get the numbers 2 to 191, and then the eighteen that were idle longest.
    Crowd(Idle(208)),
    Here(Closes(1)),
    Client(SECOND, Connects),
    Client(SECOND, Says(b"x\n")),
    Here(Gives(19, b"x\n")),
    Here(Drops(19)),
    Here(Ticks(1)),
    Client(SECOND, ReadsToEnd(b"")),
];

const ALL_NUMBERS_TAKEN: &[Row] = &[
    PeerOpens,
    Crowd(Fills),
    // A connection that brings the peer's frames gets the number of the client that was silent longest.
    Client(FIRST, Connects),
    Client(FIRST, Says(ANSWERED)),
    Here(Closes(1)),
    Here(Gives(1, ANSWERED)),
    Client(FIRST, Leaves),
    Here(Closes(1)),
    Here(Loses(b'b')),
    Client(SECOND, Connects),
    Client(SECOND, Says(b"x\n")),
    Here(Gives(1, b"x\n")),
    // So does one that is dialled.
    Here(Asks(1)),
    There(Gives(1, ASKED)),
    Here(Closes(2)),
];

const WRITING_ENDED: &[Row] = &[
    Client(FIRST, Connects),
    Client(FIRST, Says(b"1\n2\n3")),
    Client(FIRST, EndsWriting),
    Here(Gives(1, b"1\n")),
    Here(Gives(1, b"2\n")),
    Here(Gives(1, b"3")),
    Here(Ticks(1)),
    Here(Sends(1, b"one\n")),
    Here(Ticks(1)),
    Here(Sends(1, b"two\n")),
    Here(Closes(1)),
    Client(FIRST, ReadsToEnd(b"one\ntwo\n")),
];

const SLOW_AFTER_ITS_END: &[Row] = &[
    Client(FIRST, Connects),
    Client(FIRST, Says(b"x\n")),
    Here(Gives(1, b"x\n")),
    Client(FIRST, EndsWriting),
    Here(SendsMany(1, 7, LONG)),
    // The end is seen before the client reads. A system whose buffers take all of it at once has the link close the
    // connection, else it is kept for what waits.
    Here(GoesOn),
    Client(FIRST, ReadsSlowly(7, LONG, b"")),
];

const LATE_REPLY: &[Row] = &[
    Client(FIRST, Connects),
    Client(FIRST, Says(b"x\n")),
    Here(Gives(1, b"x\n")),
    Client(FIRST, Says(b"y\n")),
    Here(Gives(1, b"y\n")),
    // One that goes with a reply unread resets its connection.
    Here(Sends(1, b"z\n")),
    Client(FIRST, Leaves),
    Here(Closes(1)),
    // The number still owes a reply.
    Client(SECOND, Connects),
    Client(SECOND, Says(b"x\n")),
    Here(Gives(2, b"x\n")),
    Here(Sends(1, b"late\n")),
    Here(Sends(2, b"y\n")),
    Client(SECOND, Reads(b"y\n")),
    // Now it owes none.
    Client(THIRD, Connects),
    Client(THIRD, Says(b"x\n")),
    Here(Gives(1, b"x\n")),
];

const LINES_AMONG_FRAMES: &[Row] = &[
    Client(FIRST, Connects),
    Client(FIRST, Says(b"1\n2\n3\n")),
    Here(Gives(1, b"1\n")),
    Here(Rests),
    Here(Ticks(1)),
    Here(Rests),
    Here(GivesAtOnce(1, b"2\n")),
    Here(Rests),
    Here(Ticks(1)),
    Here(Gives(1, b"3\n")),
];

const LINES_BEFORE_A_FRAME: &[Row] = &[
    PeerOpens,
    Here(Asks(1)),
    There(Gives(1, ASKED)),
    There(SendsTo(b'a', ANSWERED)),
    Here(Gives(1, ANSWERED)),
    Client(FIRST, Connects),
    Client(FIRST, Says(b"x\n")),
    Here(Gives(2, b"x\n")),
    // A frame comes, and then more lines than may go before it.
    There(SendsTo(b'a', ANSWERED)),
    Client(FIRST, Says(&[b'\n'; 66])),
    Here(Rests),
    Here(GivesTimes(2, b"\n", 64)),
    Here(Gives(1, ANSWERED)),
    Here(GivesTimes(2, b"\n", 2)),
];

const NUMBERS_KEPT: &[Row] = &[
    Crowd(Fills),
    Client(FIRST, Connects),
    Client(FIRST, Says(b"x\n")),
    Client(FIRST, IsEnded(4, true)),
    Client(SECOND, Connects),
    Client(SECOND, IsEnded(4, false)),
    Client(SECOND, IsEnded(30, true)),
    Crowd(IsHeard),
    Client(THIRD, Connects),
    Client(THIRD, Says(b"stop\n")),
    Here(Stops),
];

const TESTS: &[Test] = &[
    (
        "a_client_is_served_until_it_says_stop",
        false,
        SERVED_AND_STOPPED,
    ),
    ("ticks_come_while_inputs_come", false, TICKS_AMONG_INPUTS),
    (
        "a_nodes_frames_to_itself_come_in_order",
        false,
        FRAMES_TO_ITSELF,
    ),
    (
        "two_links_exchange_frames_once_both_listen",
        true,
        TWO_LINKS,
    ),
    ("a_reader_that_goes_is_forgotten", false, READER_GONE),
    ("idle_connections_give_way", false, IDLE),
    ("clients_lock_no_peer_out", true, ALL_NUMBERS_TAKEN),
    (
        "a_client_that_ends_its_writing_gets_its_replies",
        false,
        WRITING_ENDED,
    ),
    (
        "one_that_ends_its_writing_reads_slowly",
        false,
        SLOW_AFTER_ITS_END,
    ),
    ("a_late_reply_reaches_no_other_client", false, LATE_REPLY),
    (
        "lines_come_one_by_one_and_each_second_input_is_one",
        false,
        LINES_AMONG_FRAMES,
    ),
    (
        "lines_that_have_come_go_before_a_frame_up_to_64_of_them",
        true,
        LINES_BEFORE_A_FRAME,
    ),
    (
        "clients_keep_their_numbers_from_clients",
        false,
        NUMBERS_KEPT,
    ),
];

#[test]
fn links_carry_what_is_sent_over_them(rt: HostRuntime) -> Result<(), Fail> {
    for test in TESTS {
        run(&rt, test)?;
    }
    Ok(())
}

// Those with many bytes stand by themselves, for the time that they take.
#[test]
fn a_long_frame_comes_whole_to_a_slow_reader(rt: HostRuntime) -> Result<(), Fail> {
    run(&rt, &("slow reader", false, SLOW_READER))
}

#[test]
fn frames_for_which_there_is_no_room_are_lost_whole(rt: HostRuntime) -> Result<(), Fail> {
    run(&rt, &("no room", false, NO_ROOM))
}
