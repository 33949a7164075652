//! The temporary file that is written next to the target.
//!
//! It has a numbered name, and its writer holds a lock on it. So a file of such a name without a lock was left by a run
//! that was killed, and is removed. Only the owner of its lock renames or removes it. Its name is checked again once
//! the lock is held: another run may have taken the name by then. An existing file is never written to.

use std::alloc::Global;
use std::fs::{File, Metadata, OpenOptions, TryLockError};
use std::io::ErrorKind;
use std::os::unix::fs::{MetadataExt, OpenOptionsExt};
use std::random::RandomSource;
use std::{fs, io};

/// How many numbered names there are. If all are taken, a random number is used, which nobody can have foreseen.
const NAMES: u64 = 16;

/// How many bytes of the target's name the temporary file's name repeats, at most.
const MOST_OF_NAME: usize = 100;

/// A new temporary file next to its target.
#[derive(Drop)]
pub(crate) struct Beside {
    file: File,
    name: String,
}

impl Beside {
    /// A new file next to a path. A secret one can be read by its owner alone, until it is given another mode.
    pub(crate) fn new(
        rt: &HostRuntime,
        alloc: Global,
        path: &str,
        is_secret: bool,
    ) -> io::Result<Beside> {
        let mut options = OpenOptions::new();
        options.write(true).create_new(true);
        if is_secret {
            options.mode(0o600);
        }
        for turn in 0..=NAMES {
            let number = if turn < NAMES { turn } else { random(rt)? };
            let name = name_beside(alloc, path, number)?;
            if let Some(file) = make(rt, &options, name.as_str())? {
                return Ok(Beside { file, name });
            }
        }
        Err(io::Error::from(ErrorKind::AlreadyExists))
    }

    pub(crate) fn file(&mut self) -> &mut File {
        &mut self.file
    }

    pub(crate) fn name(&self) -> &str {
        self.name.as_str()
    }

    /// Removes the temporary files of a path that killed runs have left. A file stays if its owner is neither ours nor
    /// that of the file at the path.
    pub(crate) fn remove_stale(
        &self,
        rt: &HostRuntime,
        alloc: Global,
        path: &str,
        old: Option<&Metadata>,
    ) -> io::Result<()> {
        let ours = self.file.metadata()?.uid();
        let theirs = old.map_or(ours, |old| old.uid());
        for number in 0..NAMES {
            let name = name_beside(alloc, path, number)?;
            if name.as_str() == self.name.as_str() {
                continue;
            }
            let Ok(found) = fs::symlink_metadata(rt, name.as_str()) else {
                continue;
            };
            if found.is_file() && (found.uid() == ours || found.uid() == theirs) {
                remove_if_free(rt, name.as_str());
            }
        }
        Ok(())
    }
}

/// A new file of a name, locked. None where the name is taken, or where another run took the file for one that
/// nobody holds.
fn make(rt: &HostRuntime, options: &OpenOptions, name: &str) -> io::Result<Option<File>> {
    let file = match options.open(rt, name) {
        Ok(file) => file,
        Err(error) if error.kind() == ErrorKind::AlreadyExists => return Ok(None),
        Err(error) => return Err(error),
    };
    match file.try_lock() {
        Ok(()) => {
            if !has_name(rt, &file, name) {
                return Ok(None);
            }
        }
        Err(TryLockError::WouldBlock) => return Ok(None),
        // (where there are no locks, nobody can take the file for a free one)
        Err(TryLockError::Error(_)) => {}
    }
    Ok(Some(file))
}

/// Removes a file, unless another run holds it.
fn remove_if_free(rt: &HostRuntime, name: &str) {
    let Ok(file) = OpenOptions::new().write(true).open(rt, name) else {
        return;
    };
    if file.try_lock().is_ok() && has_name(rt, &file, name) {
        let _removed = fs::remove_file(rt, name);
    }
}

/// Whether a name is that of this very file.
fn has_name(rt: &HostRuntime, file: &File, name: &str) -> bool {
    match (file.metadata(), fs::symlink_metadata(rt, name)) {
        (Ok(held), Ok(named)) => held.dev() == named.dev() && held.ino() == named.ino(),
        _ => false,
    }
}

/// The name of a path's temporary file with this number: in the path's folder, the start of its name and a mark.
fn name_beside(alloc: Global, path: &str, number: u64) -> io::Result<String> {
    let (folder, slash, own) = match path.rsplit_once('/') {
        Some((folder, own)) => (folder, "/", own),
        None => ("", "", path),
    };
    let front = front_of(own);
    Ok(format!(in alloc; "{folder}{slash}.{front}.msgfmt-{number}")?)
}

/// The first characters of a name.
fn front_of(name: &str) -> &str {
    name.get(..name.floor_char_boundary(MOST_OF_NAME))
        .unwrap_or(name)
}

/// A number that nobody can foresee.
fn random(rt: &HostRuntime) -> io::Result<u64> {
    let mut bytes = [0u8; 8];
    rt.fill_bytes(&mut bytes)?;
    Ok(u64::from_le_bytes(bytes))
}
