//! How a file gets its bytes.
//!
//! A regular file is written under a temporary name in its folder and then renamed, so that a reader always has the
//! whole old file or the whole new one, and a failure leaves the old one as it was. Other files are written directly.

use crate::adapters::Writing;
use crate::beside::Beside;
use crate::device::Sink;
use crate::late_errors::raise_late_errors;
use crate::stream::{Stream, is_descriptor, stream_named};
use std::alloc::Global;
use std::fs::{File, Metadata, OpenFile, OpenOptions};
use std::io::{ErrorKind, Write};
use std::os::unix::fs::{MetadataExt, fchown};
use std::{fs, io};

/// Writes these bytes to the file at a path. A regular file is replaced and keeps its owner, group and mode; a missing
/// one is created; a symbolic link is followed; a device, a pipe or an open descriptor is written directly.
pub(crate) fn write_file(
    rt: &HostRuntime,
    alloc: Global,
    path: &str,
    bytes: &[u8],
) -> io::Result<()> {
    match stream_named(path) {
        Some(Stream::Output) => return write_straight(rt.stdout(), bytes),
        Some(Stream::Errors) => return write_straight(rt.stderr(), bytes),
        None => {}
    }
    // (a file that may not be written is not replaced either, so it is opened first)
    let mut there = match OpenOptions::new().write(true).open(rt, path) {
        Ok(there) => there,
        Err(error) if error.kind() == ErrorKind::NotFound => {
            return write_new(rt, alloc, path, bytes);
        }
        Err(error) => return Err(error),
    };
    let old = there.metadata()?;
    if !old.is_file() {
        return write_straight(there, bytes);
    }
    if is_descriptor(path) {
        there.set_len(0)?;
        return write_by_name(rt, alloc, there, bytes);
    }
    match replace_target(rt, alloc, path, bytes, &old) {
        Ok(()) => Ok(()),
        Err(error) => {
            if !is_refused(&error) {
                return Err(error);
            }
            there.set_len(0)?;
            write_by_name(rt, alloc, there, bytes)
        }
    }
}

/// Replaces a file, or the one that a symbolic link names.
fn replace_target(
    rt: &HostRuntime,
    alloc: Global,
    path: &str,
    bytes: &[u8],
    old: &Metadata,
) -> io::Result<()> {
    if fs::symlink_metadata(rt, path)?.is_symlink() {
        let target = fs::canonicalize(rt, path)?;
        replace(rt, alloc, target.as_str(), bytes, Some(old))
    } else {
        replace(rt, alloc, path, bytes, Some(old))
    }
}

/// Writes to a path without a file. A symbolic link to nothing is written through.
fn write_new(rt: &HostRuntime, alloc: Global, path: &str, bytes: &[u8]) -> io::Result<()> {
    if fs::symlink_metadata(rt, path).is_ok() {
        return write_by_name(rt, alloc, File::create(rt, path)?, bytes);
    }
    match replace(rt, alloc, path, bytes, None) {
        Err(error) if is_refused(&error) => write_by_name(
            rt,
            alloc,
            File::create(rt, path)?,
            bytes,
        ),
        replaced => replaced,
    }
}

/// Writes to a device, a pipe or a stream.
fn write_straight<W: Write + Drop>(writer: W, bytes: &[u8]) -> io::Result<()> {
    let _writer = write_whole(writer, bytes)?;
    Ok(())
}

/// Writes to a file that is read by its own name.
fn write_by_name(rt: &HostRuntime, alloc: Global, file: File, bytes: &[u8]) -> io::Result<()> {
    let file = write_whole(file, bytes)?;
    match raise_late_errors(rt, alloc, &file) {
        Ok(()) => Ok(()),
        Err(_) => Err(incomplete()),
    }
}

/// The error of a write that was begun. It is never `OutOfMemory`, which means that nothing was written.
fn incomplete() -> io::Error {
    io::Error::from(ErrorKind::Other)
}

/// Writes all the bytes, flushes them, and gives the writer back.
fn write_whole<W: Write + Drop>(writer: W, bytes: &[u8]) -> io::Result<W> {
    let mut writing = Writing::new(writer);
    match writing.write_all(bytes) {
        Ok(()) => Ok(writing.inner),
        Err(_) => Err(incomplete()),
    }
}

/// Whether the folder refuses the temporary file or its renaming, or the system refuses the old file's owner. Then the
/// file is written directly.
fn is_refused(error: &io::Error) -> bool {
    match error.kind() {
        ErrorKind::PermissionDenied
        | ErrorKind::ReadOnlyFilesystem
        | ErrorKind::ResourceBusy
        | ErrorKind::CrossesDevices
        | ErrorKind::InvalidFilename => true,
        _ => false,
    }
}

/// Writes a temporary file next to a path and renames it to the path. A failure leaves no temporary file.
fn replace(
    rt: &HostRuntime,
    alloc: Global,
    path: &str,
    bytes: &[u8],
    old: Option<&Metadata>,
) -> io::Result<()> {
    let mut beside = Beside::new(rt, alloc, path, old.is_some())?;
    let moved = match fill(rt, alloc, path, &mut beside, bytes, old) {
        Ok(()) => fs::rename(rt, beside.name(), path),
        Err(error) => Err(error),
    };
    if moved.is_err() {
        let _removed = fs::remove_file(rt, beside.name());
    }
    moved
}

/// Gives the temporary file the owner and group of the old file, the new bytes, and then the old mode.
fn fill(
    rt: &HostRuntime,
    alloc: Global,
    path: &str,
    beside: &mut Beside,
    bytes: &[u8],
    old: Option<&Metadata>,
) -> io::Result<()> {
    beside.remove_stale(rt, alloc, path, old)?;
    let file = beside.file();
    if let Some(old) = old {
        keep_owner(file, old)?;
    }
    file.write_all(bytes)?;
    if let Some(old) = old {
        file.set_permissions(old.permissions())?;
    }
    raise_late_errors(rt, alloc, file)
}

/// Gives a file the owner and the group of the old one. Any error means that the system refuses.
fn keep_owner(file: &File, old: &Metadata) -> io::Result<()> {
    if is_owned_as(&file.metadata()?, old) {
        return Ok(());
    }
    let given = fchown(file, Some(old.uid()), Some(old.gid()));
    if given.is_ok() && is_owned_as(&file.metadata()?, old) {
        return Ok(());
    }
    Err(io::Error::from(ErrorKind::PermissionDenied))
}

fn is_owned_as(found: &Metadata, old: &Metadata) -> bool {
    found.uid() == old.uid() && found.gid() == old.gid()
}
