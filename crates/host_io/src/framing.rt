//! What a link asks of the crate above it: how what a node sends becomes bytes, and who sends the frames of a connection.
use bytes::Bytes;
use std::alloc::{AllocError, Global};
use voting_config::NodeId;

/// Where a piece of what a node sends goes.
#[derive(Clone, Copy)]
pub enum Target {
    /// To the node with this id.
    Node(NodeId),
    /// Over the connection with this number.
    Connection(u64),
}

/// A piece of what a node sends: a frame, or a reply to a client.
#[derive(Drop)]
pub struct Piece {
    pub to: Target,
    pub bytes: Bytes,
}

/// How what a node sends becomes bytes, and whose frames a connection carries.
pub trait Framing {
    /// What a node sends at once.
    type Out: Drop;

    /// How many pieces it has.
    fn count(&self, out: &Self::Out) -> usize;

    /// The piece at a place, and None where there is none. The `Err` means that memory ran out.
    fn piece(
        &self,
        alloc: Global,
        out: &Self::Out,
        place: usize,
    ) -> Result<Option<Piece>, AllocError>;

    /// Who sends the frames of a connection whose first bytes, 38 at most, are these. None where they are no frame's, and
    /// where there are too few to tell.
    fn sender(&self, prefix: &[u8]) -> Option<NodeId>;
}
