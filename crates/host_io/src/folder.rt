//! Folders and files made so that a crash of the machine loses no name.
use std::fs::{File, OpenOptions, create_dir, rename};
use std::io;
use std::os::fd::AsRawFd;
use std::path::Path;

fn open_folder(rt: &HostRuntime, path: &str) -> io::Result<File> {
    let path = if path.is_empty() { "." } else { path };
    File::open(rt, path)
}

/// After it a crash of the machine loses no name in the folder.
pub fn sync_folder(rt: &HostRuntime, path: &str) -> io::Result<()> {
    open_folder(rt, path)?.sync_all()
}

/// Holds a folder as long as the file that it gives lives: nobody else who asks for it gets it, neither another process nor
/// another call of this one. `WouldBlock` where somebody holds it, or another error where the system gives no such lock.
pub fn hold_folder(rt: &HostRuntime, path: &str) -> io::Result<File> {
    let folder = off_the_streams(open_folder(rt, path)?)?;
    folder.try_lock()?;
    Ok(folder)
}

fn sync_parent(rt: &HostRuntime, path: &str) -> io::Result<()> {
    match Path::new(path).parent() {
        Some(parent) => sync_folder(rt, parent.as_str()),
        None => Ok(()),
    }
}

// Makes a folder where there is none, and syncs the one that it is in. An earlier run may have been ended before that
// sync, so a folder that stands is synced in its own too, where the system lets it.
fn make_folder(rt: &HostRuntime, path: &str) -> io::Result<()> {
    match create_dir(rt, path) {
        Ok(()) => sync_parent(rt, path),
        Err(error) if error.kind() == io::ErrorKind::AlreadyExists => {
            // A sync that the system refuses here is no fault: the folder was there before.
            let _ = sync_parent(rt, path);
            Ok(())
        }
        Err(error) => Err(error),
    }
}

/// Makes a folder and its parents, the highest first, where they are not there.
pub fn make_folders(rt: &HostRuntime, dir: &str) -> io::Result<()> {
    for (end, _) in dir.match_indices('/') {
        if end > 0 {
            make_folder(rt, &dir[..end])?;
        }
    }
    make_folder(rt, dir)
}

// Where a standard stream was closed, a file takes its number, and what is meant for the stream must not land in it.
fn off_the_streams(file: File) -> io::Result<File> {
    if file.as_raw_fd() <= 2 {
        return file.try_clone();
    }
    Ok(file)
}

/// Opens a file, if it is there.
pub fn open_file(rt: &HostRuntime, path: &str) -> io::Result<Option<File>> {
    match OpenOptions::new().read(true).write(true).open(rt, path) {
        Ok(file) => Ok(Some(off_the_streams(file)?)),
        Err(error) if error.kind() == io::ErrorKind::NotFound => Ok(None),
        Err(error) => Err(error),
    }
}

/// Makes the file at `path` in the folder `dir`, or opens it where it is there, and syncs the folder.
pub fn make_file(rt: &HostRuntime, dir: &str, path: &str) -> io::Result<File> {
    let file = OpenOptions::new()
        .read(true)
        .write(true)
        .create(true)
        .open(rt, path)?;
    let file = off_the_streams(file)?;
    sync_folder(rt, dir)?;
    Ok(file)
}

/// Makes a file without bytes, or takes all bytes from the one that is there.
pub fn empty_file(rt: &HostRuntime, path: &str) -> io::Result<File> {
    let file = OpenOptions::new()
        .read(true)
        .write(true)
        .create(true)
        .truncate(true)
        .open(rt, path)?;
    off_the_streams(file)
}

/// Has this file, which is at `new`, take the place of the one at `path` in the folder `dir`. After a crash the one or the other
/// is there, whole.
pub fn put_in_place(
    rt: &HostRuntime,
    dir: &str,
    file: &File,
    new: &str,
    path: &str,
) -> io::Result<()> {
    file.sync_all()?;
    rename(rt, new, path)?;
    sync_folder(rt, dir)
}
