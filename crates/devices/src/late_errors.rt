//! Errors that a file system may keep until a file is closed.
//!
//! A network file system reports some write errors, such as a full quota, only when the file is closed, and `File`
//! can't return what close reports. `sync_all` reports them in time. It costs milliseconds on a disk, where the writes
//! report all errors themselves, so only files that aren't on a local disk are synced.

use std::alloc::Global;
use std::fs::File;
use std::io::ErrorKind;
use std::os::unix::fs::MetadataExt;
use std::{fs, io};

/// The mounts of this process, one line each: the third field is the device's number, and the field after `-` is the
/// type of the file system (proc(5)).
const MOUNTS: &str = "/proc/self/mountinfo";

/// Types of file systems that have no device of their own, but whose writes report all errors.
const PROMPT: [&str; 5] = ["btrfs", "overlay", "ramfs", "tmpfs", "zfs"];

/// Reports an error of the writes to a file that otherwise only its close would report.
pub(crate) fn raise_late_errors(rt: &HostRuntime, alloc: Global, file: &File) -> io::Result<()> {
    let device = file.metadata()?.dev();
    if major(device) != 0 || is_prompt(rt, alloc, device)? {
        return Ok(());
    }
    match file.sync_all() {
        // (a file that can't be synced has held nothing back)
        Err(error) if error.kind() == ErrorKind::InvalidInput => Ok(()),
        synced => synced,
    }
}

/// Whether a device's file system is of a type that reports all errors at the write.
fn is_prompt(rt: &HostRuntime, alloc: Global, device: u64) -> io::Result<bool> {
    let Ok(mounts) = fs::read_to_string(rt, MOUNTS) else {
        return Ok(false);
    };
    let (major, minor) = (major(device), minor(device));
    let number = format!(in alloc; "{major}:{minor}")?;
    Ok(mounts.lines().any(|line| is_mounted(line, number.as_str())))
}

/// Whether a line of the mounts has a device, and a type that reports all errors at the write.
fn is_mounted(line: &str, number: &str) -> bool {
    let mut words = line.split(' ');
    if words.nth(2) != Some(number) {
        return false;
    }
    match words.skip_while(|word| *word != "-").nth(1) {
        Some(kind) => PROMPT.contains(&kind),
        None => false,
    }
}

/// The major number of a device; it is 0 for file systems without a local device.
fn major(device: u64) -> u64 {
    device >> 8 & 0xfff | device >> 32 & 0xffff_f000
}

/// The minor number of a device.
fn minor(device: u64) -> u64 {
    device & 0xff | device >> 12 & 0xffff_ff00
}
