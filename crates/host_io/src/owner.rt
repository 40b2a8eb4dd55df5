//! Whose folder it is: the file `node` beside the journal.
use crate::folder::{empty_file, put_in_place};
use std::os::unix::fs::FileExt;
use std::{fs, io};
use voting_config::NodeId;

/// For whom folders are opened.
#[derive(Clone, Copy)]
pub enum Owner {
    /// For whoever asks: the file `node` is neither read nor made.
    Any,
    /// For this node. Where a folder has no file `node`, it stays so.
    Known(NodeId),
    /// For this node. Where a folder has no file `node`, one is made.
    Named(NodeId),
}

// The id in the bytes of the file: they are one line `id=ID`.
fn id_in(bytes: &[u8]) -> Option<NodeId> {
    let line = bytes.strip_prefix(b"id=")?;
    let id = line.strip_suffix(b"\n")?;
    NodeId::from_bytes(id)
}

// The bytes of the file, if it is there.
fn bytes_at(rt: &HostRuntime, path: &str) -> io::Result<Option<Vec<u8>>> {
    match fs::read(rt, path) {
        Ok(bytes) => Ok(Some(bytes)),
        Err(error) if error.kind() == io::ErrorKind::NotFound => Ok(None),
        Err(error) => Err(error),
    }
}

// Makes the file: after a crash it is there whole, or not at all.
fn name_folder(rt: &HostRuntime, dir: &str, path: &str, id: NodeId) -> io::Result<()> {
    let alloc = rt.alloc();
    let new = format!(in alloc; "{path}.new")?;
    let line = format!(in alloc; "id={id}\n")?;
    let file = empty_file(rt, new.as_str())?;
    file.write_all_at(line.as_str().as_bytes(), 0)?;
    put_in_place(rt, dir, &file, new.as_str(), path)
}

// Whether the folder is this node's, or may be.
fn check_node(rt: &HostRuntime, dir: &str, id: NodeId, names: bool) -> io::Result<()> {
    let path = format!(in rt.alloc(); "{dir}/node")?;
    let path = path.as_str();
    match bytes_at(rt, path)? {
        Some(bytes) if id_in(bytes.as_slice()) == Some(id) => Ok(()),
        Some(_) => Err(io::Error::from(io::ErrorKind::PermissionDenied)),
        None if names => name_folder(rt, dir, path, id),
        None => Ok(()),
    }
}

/// Lets an owner into a folder that is held, and names the folder where that is due. `PermissionDenied` where the folder is
/// another node's, or its file `node` is no line `id=ID`.
pub(crate) fn check_owner(rt: &HostRuntime, dir: &str, owner: Owner) -> io::Result<()> {
    match owner {
        Owner::Any => Ok(()),
        Owner::Known(id) => check_node(rt, dir, id, false),
        Owner::Named(id) => check_node(rt, dir, id, true),
    }
}
