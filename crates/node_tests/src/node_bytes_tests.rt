//! Over real sockets on this machine. The bytes that are expected are those of docs/formats.md.
use crate::settings::{OF_TWO, settings_of};
use cluster_state::{ClusterState, SharedState};
use host_io::{Framing, SocketLink, SystemHost};
use node_bytes::{SealedFrames, is_fit};
use node_loop::{All, JournalNode, Node};
use state_journal::OpenError;
use std::alloc::{AllocError, Global};
use std::io::{Read, Write};
use std::net::{TcpListener, TcpStream};
use std::test::Fail;
use voting_config::{NodeId, NodeSet};
use wire_frames::{Frame, WireMessage};
use zen_disk::MemDisks;
use zen_host::Host;
use zen_link::{Input, Link, LinkSettings, MemSink, Peer};

type RealLink = SocketLink<HostRuntime, SealedFrames>;

// A free port of this machine, as an address.
fn free_address(rt: &HostRuntime) -> Result<String, Fail> {
    let listener = TcpListener::bind(rt, "127.0.0.1:0")?;
    let address = listener.local_addr()?;
    Ok(format!(in rt.alloc(); "{address}")?)
}

// The link of a node that has these peers, and its address.
fn open_link(rt: &HostRuntime, me: &str, peers: Vec<Peer>) -> Result<(RealLink, String), Fail> {
    let address = free_address(rt)?;
    let settings = LinkSettings {
        me: NodeId::parse(me)?,
        listen: address.clone()?,
        peers,
    };
    let link = SystemHost::new(rt, SealedFrames).open_link(&settings)?;
    Ok((link, address))
}

// How many inputs a node takes. A tick is one, and comes every 50 to 100 ms.
const TURNS: u64 = 20;

// The node a, whose fellow voter b it has not found, runs over this link.
fn serve(alloc: Global, link: &mut RealLink) -> Result<(), Fail> {
    let disk = MemDisks::new(alloc, Vec::new(alloc), Vec::new(alloc), Vec::new(alloc));
    let mut out = MemSink::new(alloc, 1 << 20, Vec::new(alloc));
    let opened: Result<JournalNode<MemDisks, All>, OpenError<MemDisks>> = Node::open(
        alloc,
        settings_of(alloc, &OF_TWO)?,
        disk,
    );
    match opened {
        Ok(node) => {
            let _ = node.run(link, &mut out, TURNS);
            Ok(())
        }
        Err(_) => Err(Fail::new("the journal was not opened")),
    }
}

const REPLY: &[u8; 27] = b"{\"id\":1,\"not_master\":null}\n";

// Whether a client that asks for the state at this address, which is the link's, gets the reply.
fn gets_reply(rt: &HostRuntime, link: &mut RealLink, address: &String) -> Result<bool, Fail> {
    let mut reply = [0u8; 27];
    let client = TcpStream::connect(rt, address.as_str())?;
    (&client).write_all(b"{\"id\":1,\"state\":{}}\n")?;
    serve(rt.alloc(), link)?;
    (&client).read_exact(&mut reply)?;
    Ok(reply == *REPLY)
}

#[test]
fn a_reply_comes_as_a_line(rt: HostRuntime) -> Result<(), Fail> {
    let (mut link, address) = open_link(&rt, "a", Vec::new(rt.alloc()))?;
    assert!(rt; gets_reply(&rt, &mut link, &address)?);
    Ok(())
}

// The frame by which a asks b for its peers: eight bytes of body, the kind, the sender, the receiver, and a list of one.
const ASKED: &[u8; 12] = b"\0\0\0\x08\x07\x01a\x01b\x01\x01b";

fn is_asked(bytes: &[u8]) -> bool {
    bytes.starts_with(ASKED) && SealedFrames.sender(bytes) == NodeId::parse("a").ok()
}

// Whether the bytes that come first are that frame.
fn came(link: &mut RealLink) -> bool {
    for _ in 0..100 {
        if let Ok(Input::Bytes { bytes, .. }) = link.next() {
            return is_asked(bytes.as_slice());
        }
    }
    false
}

// Whether the frame by which a asks b comes to b's link, whose address this is.
fn asks(rt: &HostRuntime, asked: &mut RealLink, address: String) -> Result<bool, Fail> {
    let id = NodeId::parse("b")?;
    let peers = vec![in rt.alloc(); Peer { id, address }]?;
    let (mut asking, _) = open_link(rt, "a", peers)?;
    serve(rt.alloc(), &mut asking)?;
    Ok(came(asked))
}

#[test]
fn a_frame_comes_whole_to_its_receiver(rt: HostRuntime) -> Result<(), Fail> {
    let (mut asked, address) = open_link(&rt, "b", Vec::new(rt.alloc()))?;
    assert!(rt; asks(&rt, &mut asked, address)?);
    Ok(())
}

fn blanks(alloc: Global, length: usize) -> Result<String, AllocError> {
    let mut text = String::new(alloc);
    for _ in 0..length {
        text.push_str(" ")?;
    }
    Ok(text)
}

fn put(alloc: Global, state: &mut ClusterState, key: usize, text: usize) -> Result<(), AllocError> {
    let key = blanks(alloc, key)?;
    let text = blanks(alloc, text)?;
    state.value.settings.put(key.as_str(), text.as_str())
}

// The first state, with one setting, whose key and text have so many bytes.
fn state(alloc: Global, key: usize, text: usize) -> Result<SharedState, AllocError> {
    let mut state = ClusterState::initial(alloc, &NodeSet::new())?;
    put(alloc, &mut state, key, text)?;
    SharedState::of(alloc, state)
}

// How many bytes a setting's key and text have, and whether the frame is fit.
const LENGTHS: &[(usize, usize, bool)] = &[
    (1, 0, true),
    (128, 1_024, true),
    (0, 1, false),
    (129, 1, false),
    (1, 1_025, false),
];

// Whether a frame that publishes this state is fit.
fn is_fit_so(alloc: Global, key: usize, text: usize) -> Result<bool, AllocError> {
    let frame = Frame {
        from: NodeId::default(),
        to: NodeId::default(),
        message: WireMessage::Publish(state(alloc, key, text)?),
    };
    Ok(is_fit(&frame))
}

#[test]
fn a_frame_is_fit_up_to_keys_of_128_bytes_and_texts_of_1024(rt: HostRuntime) -> Result<(), Fail> {
    for row in LENGTHS {
        let (key, text, wanted) = *row;
        assert!(rt; is_fit_so(rt.alloc(), key, text)? == wanted, "{key}");
    }
    Ok(())
}
