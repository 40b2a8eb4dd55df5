//! The files `journal.0` and `journal.1` of a folder as the two sides of a disk.
ghost use Rattle.std.specs.Prelude.{◌≡◌, [], ⊤, IfOk};
ghost use Rattle.zen_disk.specs.Faults.{HasCause};

use crate::errors::error_of;
use crate::folder::{
    empty_file, hold_folder, make_file, make_folders, open_file, put_in_place, sync_folder,
};
use crate::owner::{Owner, check_owner};
use std::fs::{File, Metadata, symlink_metadata};
use std::io;
use std::os::unix::fs::{FileExt, MetadataExt, fchown};
use zen_disk::{Disks, Failed, Side};
use zen_host::HostError;

// The byte after which no write ends.
const END: u64 = 1 << 62;

// How many bytes are copied at once.
const PIECE: usize = 65_536;

// One of the two files. A file that is not there has no bytes.
#[derive(Drop)]
struct SideFile {
    path: String,
    // Where it is written anew.
    new_path: String,
    file: Option<File>,
    // Whether it was there at the opening, and has not been synced since.
    is_old: bool,
}

impl SideFile {
    fn open(rt: &HostRuntime, dir: &str, name: &str) -> io::Result<SideFile> {
        let path = format!(in rt.alloc(); "{dir}/{name}")?;
        let new_path = format!(in rt.alloc(); "{dir}/{name}.new")?;
        let file = open_file(rt, path.as_str())?;
        let is_old = file.is_some();
        Ok(SideFile {
            path,
            new_path,
            file,
            is_old,
        })
    }

    fn byte_count(&self) -> io::Result<u64> {
        match &self.file {
            Some(file) => Ok(file.metadata()?.len()),
            None => Ok(0),
        }
    }

    fn read(&self, at: u64, into: &mut [u8]) -> io::Result<()> {
        match &self.file {
            Some(file) => file.read_exact_at(into, at),
            None if into.is_empty() => Ok(()),
            None => Err(io::Error::from(io::ErrorKind::UnexpectedEof)),
        }
    }

    // Makes the file where it is not there.
    fn write(&mut self, rt: &HostRuntime, dir: &str, at: u64, bytes: &[u8]) -> io::Result<()> {
        match &self.file {
            Some(file) => file.write_all_at(bytes, at),
            None => {
                let file = make_file(rt, dir, self.path.as_str())?;
                let written = file.write_all_at(bytes, at);
                self.file = Some(file);
                written
            }
        }
    }

    // Linux takes the pages of an fsync that fails for written (since 4.13): they are read back, and the next fsync says that
    // all is well. So what an earlier opening has left is written anew at the first sync, and no sync of its old pages is believed.
    fn sync(&mut self, rt: &HostRuntime, dir: &str) -> io::Result<()> {
        match self.renewed(rt, dir)? {
            Some(file) => self.file = Some(file),
            None => self.sync_file()?,
        }
        self.is_old = false;
        Ok(())
    }

    fn sync_file(&self) -> io::Result<()> {
        match &self.file {
            Some(file) => file.sync_data(),
            None => Ok(()),
        }
    }

    // Where it is old, a new file with its bytes and its rights, which has taken its place. A link or a device stays.
    fn renewed(&self, rt: &HostRuntime, dir: &str) -> io::Result<Option<File>> {
        let Some(old) = &self.file else {
            return Ok(None);
        };
        let path = self.path.as_str();
        if !self.is_old || !is_regular(rt, path)? {
            return Ok(None);
        }
        let new_path = self.new_path.as_str();
        let metadata = old.metadata()?;
        let file = empty_file(rt, new_path)?;
        copy(old, &file, metadata.len())?;
        give_rights(&file, &metadata)?;
        put_in_place(rt, dir, &file, new_path, path)?;
        Ok(Some(file))
    }
}

// Whether a regular file is at this path, and no link to one.
fn is_regular(rt: &HostRuntime, path: &str) -> io::Result<bool> {
    Ok(symlink_metadata(rt, path)?.is_file())
}

// Copies so many bytes.
fn copy(from: &File, to: &File, count: u64) -> io::Result<()> {
    let mut piece = [0; PIECE];
    for at in (0..count).step_by(PIECE) {
        let length = (count - at).min(PIECE as u64) as usize;
        let part = &mut piece[..length];
        from.read_exact_at(part, at)?;
        to.write_all_at(part, at)?;
    }
    Ok(())
}

// Gives a file the owner, the group and the mode of another.
fn give_rights(file: &File, old: &Metadata) -> io::Result<()> {
    // Where the system refuses it, as it may to all but its administrator, the file is left with who has made it.
    let _ = fchown(file, Some(old.uid()), Some(old.gid()));
    if file.metadata()?.permissions() == old.permissions() {
        return Ok(());
    }
    file.set_permissions(old.permissions())
}

/// The files `journal.0` and `journal.1` in a folder, which are its two sides. A file that is not there has length 0; it is
/// made at its first write, and the folder is synced before that write. One that was there is written anew at its first sync.
/// The folder is held as long as this lives.
#[derive(Drop)]
pub struct FileDisks {
    rt: HostRuntime,
    // The folder, which is held by it.
    folder: File,
    dir: String,
    zero: SideFile,
    one: SideFile,
    faults: u64,
}

impl FileDisks {
    /// The files of this folder, with no fault yet. It makes the folder with its parents where it is not there. `Failed`
    /// where the folder can't be made, somebody else holds it, or a file that is there can't be opened.
    pub fn open(rt: &HostRuntime, dir: &str) -> Result<FileDisks, HostError>
        ensures fresh { IfOk result (λ disk. disk.faults ≡ 0) }
    {
        FileDisks::open_for(rt, dir, Owner::Any)
    }

    /// The same for an owner. `Failed` too where the folder is another node's, or can't be named.
    pub(crate) fn open_for(
        rt: &HostRuntime,
        dir: &str,
        owner: Owner,
    ) -> Result<FileDisks, HostError>
        ensures fresh { IfOk result (λ disk. disk.faults ≡ 0) }
    {
        match opened(rt, dir, owner) {
            Ok(disk) => Ok(disk),
            Err(error) => Err(error_of(error)),
        }
    }

    fn file(&self, side: Side) -> &SideFile {
        match side {
            Side::Zero => &self.zero,
            Side::One => &self.one,
        }
    }
}

// Makes the folder, holds it before anything in it is looked at, and opens what is there. An earlier run may have been ended
// after it had made a file and before it had synced the folder, so the folder is synced again.
fn opened(rt: &HostRuntime, dir: &str, owner: Owner) -> io::Result<FileDisks>
    ensures fresh { IfOk result (λ disk. disk.faults ≡ 0) }
{
    make_folders(rt, dir)?;
    let folder = hold_folder(rt, dir)?;
    check_owner(rt, dir, owner)?;
    let zero = SideFile::open(rt, dir, "journal.0")?;
    let one = SideFile::open(rt, dir, "journal.1")?;
    sync_folder(rt, dir)?;
    let dir = String::from_str(rt.alloc(), dir)?;
    Ok(FileDisks {
        rt: *rt,
        folder,
        dir,
        zero,
        one,
        faults: 0,
    })
}

// Counts a fault where the system gave an error.
fn counted<T: Drop>(faults: &mut u64, answer: io::Result<T>) -> Result<T, Failed>
    ensures { HasCause faults.old faults.new result }
{
    match answer {
        Ok(value) => Ok(value),
        Err(_) => {
            *faults = faults.saturating_add(1);
            Err(Failed)
        }
    }
}

impl Disks for FileDisks {
    ghost told = { ⊥ };

    ghost seen = { λ _. record { zero = []; one = [] } };

    ghost may_leave = { λ _ _. ⊥ };

    ghost moment = { λ _. 0 };

    ghost left_since = { λ _ _ _. ⊥ };

    ghost faults = { λ disk. disk.faults };

    ghost moves = { λ _ _ _ _. ⊤ };

    ghost seen_may_stay = { λ disk told. told };

    ghost counts_now = { λ disk t image later left. left };

    ghost only_now = { λ disk image left. left };

    fn len(&mut self, side: Side) -> Result<u64, Failed> {
        let answer = self.file(side).byte_count();
        counted(&mut self.faults, answer)
    }

    fn read(&mut self, side: Side, at: u64, into: &mut [u8]) -> Result<(), Failed> {
        let answer = self.file(side).read(at, into);
        counted(&mut self.faults, answer)
    }

    fn write_at(&mut self, side: Side, at: u64, bytes: &[u8]) -> Result<(), Failed> {
        if at > END || bytes.len() as u64 > END - at {
            self.faults = self.faults.saturating_add(1);
            return Err(Failed);
        }
        let dir = self.dir.as_str();
        let answer = match side {
            Side::Zero => self.zero.write(&self.rt, dir, at, bytes),
            Side::One => self.one.write(&self.rt, dir, at, bytes),
        };
        counted(&mut self.faults, answer)
    }

    fn sync(&mut self, side: Side) -> Result<(), Failed> {
        let dir = self.dir.as_str();
        let answer = match side {
            Side::Zero => self.zero.sync(&self.rt, dir),
            Side::One => self.one.sync(&self.rt, dir),
        };
        counted(&mut self.faults, answer)
    }
}
