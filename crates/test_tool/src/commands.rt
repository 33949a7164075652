//! Runs over devices that fail in mid-stream: at each read, at each write, on the error output.
use crate::fakes::{OneFile, SlowReader, SmallWriter};
use devices::{Reading, Writing};
use msgfmt_tool::{Cause, Status, run};
use std::alloc::{AllocError, Global};

/// How many calls of each stream succeed, and whether files can be read and written.
#[derive(Clone, Copy)]
struct Good {
    reads: u64,
    writes: usize,
    error_writes: usize,
    file_reads: bool,
    file_writes: bool,
}

/// Devices that don't fail.
const ALL_GOOD: Good = Good {
    reads: u64::MAX,
    writes: usize::MAX,
    error_writes: usize::MAX,
    file_reads: true,
    file_writes: true,
};

/// Devices of which no file can be read.
const UNREAD: Good = Good {
    file_reads: false,
    ..ALL_GOOD
};

/// Devices on which neither a file nor standard output can be written.
const UNWRITTEN: Good = Good {
    writes: 0,
    file_writes: false,
    ..ALL_GOOD
};

/// Devices whose error output can't be written.
const UNSAID: Good = Good {
    error_writes: 0,
    ..ALL_GOOD
};

/// What a run did: its status, how many bytes of `SALUT` it wrote on standard output, how many files it wrote, and what
/// it said on the error output, where there is only a front of that if not all was said.
#[derive(Clone, Copy)]
struct Ran {
    status: Status,
    written: usize,
    files: usize,
    said: &'static str,
    is_all_said: bool,
}

const HI: &str = "msgid \"hi\"\nmsgstr \"salut\"\n";

/// The MO file of `hi` and `salut`.
const SALUT: &[u8] = b"\xde\x12\x04\x95\0\0\0\0\x01\0\0\0\x1c\0\0\0\x24\0\0\0\0\0\0\0\x2c\0\0\0\
    \x02\0\0\0\x2c\0\0\0\x05\0\0\0\x2f\0\0\0hi\0salut\0";

/// The arguments of the runs.
fn words(alloc: Global, line: &[&str]) -> Result<Vec<String>, AllocError> {
    let mut words = Vec::new(alloc);
    for word in line {
        words.push(word.to_string(alloc)?)?;
    }
    Ok(words)
}

/// Whether a run did this, with what is in its log and its outputs then.
fn is_done(status: Status, files: &OneFile, output: &[u8], errors: &[u8], ran: &Ran) -> bool {
    status == ran.status
        && files.log.len() == ran.files
        && SALUT.starts_with(output)
        && output.len() == ran.written
        && ran.said.as_bytes().starts_with(errors)
        && (errors.len() == ran.said.len()) == ran.is_all_said
}

/// Whether a run of these words did this, where standard input and the file `in.po` have this text.
fn has_run(alloc: Global, words: Vec<String>, text: &[u8], good: &Good, ran: &Ran) -> bool {
    let mut files = OneFile::new(alloc, text, good.file_reads, good.file_writes);
    let mut slow = SlowReader::new(text, 1, 1);
    slow.failing = (good.reads, u64::MAX);
    let mut reader = Reading::new(slow);
    let mut writer = Writing::new(SmallWriter::new(alloc, 16, good.writes));
    let mut errors = Writing::new(SmallWriter::new(alloc, 16, good.error_writes));
    let status = run(
        alloc,
        words,
        &mut files,
        &mut reader,
        &mut writer,
        &mut errors,
    );
    is_done(status, &files, &writer.inner.held, &errors.inner.held, ran)
}

/// Whether a run of a line's words did this.
fn ends(alloc: Global, line: &[&str], text: &str, good: &Good, ran: &Ran) -> bool {
    match words(alloc, line) {
        Ok(words) => has_run(alloc, words, text.as_bytes(), good, ran),
        Err(_) => false,
    }
}

/// A run that failed, and said just this.
fn failed(cause: Cause, written: usize, said: &'static str) -> Ran {
    Ran {
        status: Status::Failed(cause),
        written,
        files: 0,
        said,
        is_all_said: true,
    }
}

/// A run that wrote all of standard output, and said just this.
fn done(said: &'static str) -> Ran {
    Ran {
        status: Status::Done,
        written: 53,
        files: 0,
        said,
        is_all_said: true,
    }
}

/// The first number of good reads after which a run doesn't do what it should. 26 bytes are read one by one, and the
/// end.
fn wrong_reads(alloc: Global) -> Option<u64> {
    for reads in 0..28u64 {
        let good = Good { reads, ..ALL_GOOD };
        let ran = if reads < 27 {
            failed(Cause::CannotRead, 0, "msgfmt: cannot read -\n")
        } else {
            done("")
        };
        if !ends(alloc, &["msgfmt", "-o", "-", "-"], HI, &good, &ran) {
            return Some(reads);
        }
    }
    None
}

/// The first number of good writes after which a run doesn't do what it should. 53 bytes are written in four pieces.
fn wrong_writes(alloc: Global) -> Option<usize> {
    for writes in 0..5usize {
        let good = Good { writes, ..ALL_GOOD };
        let ran = if writes < 4 {
            failed(Cause::CannotWrite, 16 * writes, "msgfmt: cannot write -\n")
        } else {
            done("1 translated message.\n")
        };
        let line = &["msgfmt", "--statistics", "-o", "-", "-"];
        if !ends(alloc, line, HI, &good, &ran) {
            return Some(writes);
        }
    }
    None
}

#[test]
fn each_read_and_write_fails_in_turn(rt: HostRuntime) {
    let (reads, writes) = (wrong_reads(rt.alloc()), wrong_writes(rt.alloc()));
    assert!(rt;
        reads.is_none() && writes.is_none(),
        "{reads:?} reads, {writes:?} writes"
    );
}

/// Arguments, the devices, and why the run fails and what it says then.
const FIRST_CALLS: &[(&[&str], Good, Cause, &str)] = &[
    (
        &["msgfmt", "-h"],
        UNWRITTEN,
        Cause::CannotWrite,
        "msgfmt: cannot write -\n",
    ),
    (
        &["msgfmt", "-o", "out.mo", "in.po"],
        UNREAD,
        Cause::CannotRead,
        "msgfmt: cannot read in.po\n",
    ),
    (
        &["msgfmt", "-o", "out.mo", "in.po"],
        UNWRITTEN,
        Cause::CannotWrite,
        "msgfmt: cannot write out.mo\n",
    ),
    (
        &["msgfmt", "--statistics", "in.po"],
        UNWRITTEN,
        Cause::CannotWrite,
        "msgfmt: cannot write messages.mo\n",
    ),
    (&["msgfmt", "-o", "-"], UNSAID, Cause::NoInput, ""),
];

/// What the first run says that doesn't fail so.
fn wrong_first_call(alloc: Global) -> Option<&'static str> {
    for (line, good, cause, said) in FIRST_CALLS {
        if !ends(alloc, line, HI, good, &failed(*cause, 0, said)) {
            return Some(*said);
        }
    }
    None
}

#[test]
fn a_device_fails_at_its_first_call(rt: HostRuntime) {
    let wrong = wrong_first_call(rt.alloc());
    assert!(rt; wrong.is_none(), "{wrong:?}");
}

/// Its header has none of the fields that are looked for.
const HEADED: &str = "msgid \"\"\nmsgstr \"X: y\\n\"\nmsgid \"hi\"\nmsgstr \"salut\"\n";

const WARNED: &str = "in.po:1: warning: header field 'Project-Id-Version' missing
in.po:1: warning: header field 'PO-Revision-Date' missing
in.po:1: warning: header field 'Last-Translator' missing
in.po:1: warning: header field 'Language-Team' missing
in.po:1: warning: header field 'MIME-Version' missing
in.po:1: warning: header field 'Content-Type' missing
in.po:1: warning: header field 'Content-Transfer-Encoding' missing
in.po:1: warning: header field 'Language' missing
1 translated message.
";

/// What a run does after this number of good writes to the error output. The warnings are written in 4, 4, 4, 4, 4, 4,
/// 5 and 4 pieces, then FILE, then the statistics in 2.
fn warned(error_writes: usize) -> Ran {
    Ran {
        status: if error_writes < 35 {
            Status::Failed(Cause::ErrorOutput)
        } else {
            Status::Done
        },
        written: 0,
        files: if error_writes < 33 { 0 } else { 1 },
        said: WARNED,
        is_all_said: error_writes == 35,
    }
}

/// The first number of them after which a run doesn't do that.
fn wrong_error_writes(alloc: Global) -> Option<usize> {
    for error_writes in 0..36usize {
        let good = Good {
            error_writes,
            ..ALL_GOOD
        };
        let line = &["msgfmt", "-c", "--statistics", "in.po"];
        if !ends(alloc, line, HEADED, &good, &warned(error_writes)) {
            return Some(error_writes);
        }
    }
    None
}

#[test]
fn each_write_to_the_error_output_fails_in_turn(rt: HostRuntime) {
    let wrong = wrong_error_writes(rt.alloc());
    assert!(rt; wrong.is_none(), "{wrong:?}");
}
