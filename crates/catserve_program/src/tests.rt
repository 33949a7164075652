//! Runs of a script over devices that fail in mid-stream. What is wanted was written by hand, and not taken from
//! a run. More scripts are run by the program itself (`tests/scripts/scripts.sh`).
use crate::tell;
use catserve::{ScriptFault, ScriptKind, run_script};
use devices::{Reading, Writing};
use std::alloc::{AllocError, Global};
use std::io;
use std::io::{Read, Write};
use std::sync::Wait;
use std::test::Fail;
use std::thread::Threads;

/// Two rounds, which are the program's stored run: the second one replaces a catalogue, and has a text that is refused.
const ROUNDS: &str = "\
    load\tapp\tfr\t-\t2\n\
    msgid \"hi\"\n\
    msgstr \"salut\"\n\
    load\tapp\tde\tc\t2\n\
    msgid \"hi\"\n\
    msgstr \"hallo\"\n\
    ask\t0\tapp\tfr\tgettext\thi\n\
    ask\t1\tapp\tde\tgettext\thi\n\
    ask\t0\tapp\tsv\tngettext\tfile\tfiles\t2\n\
    go\n\
    load\tapp\tfr\t-\t2\n\
    msgid \"hi\"\n\
    msgstr \"bonjour\"\n\
    load\tapp\tfr\t-\t5\n\
    msgid \"a\"\n\
    msgstr \"x\"\n\
    #, fuzzy\n\
    msgid \"a\"\n\
    msgstr \"y\"\n\
    ask\t1\tapp\tfr\tgettext\thi\n\
    ask\t0\tapp\tfr\tpgettext\tmenu\thi\n\
";

/// What the rounds write.
const ANSWERS: &str = "\
    accepted\t1\t0\t0\n\
    accepted\t1\t0\t0\n\
    version\t2\n\
    0\t2\tsalut\n\
    0\t2\tfiles\n\
    1\t2\thallo\n\
    accepted\t1\t0\t0\n\
    refused\t9\t4\n\
    version\t3\n\
    0\t3\thi\n\
    1\t3\tbonjour\n\
";

/// Two more lines of the second round: an MO file, and a question to it.
const FILE: &str = "\
    loadmo\tapp\tfr_CA\tde1204950000000001000000\
    1c00000024000000000000002c000000\
    020000002c000000050000002f000000\
    68690073616c757400\n\
    ask\t0\tapp\tfr_CA\tgettext\thi\n\
";

/// What the rounds write with these lines.
const FILE_ANSWERS: &str = "\
    accepted\t1\t0\t0\n\
    accepted\t1\t0\t0\n\
    version\t2\n\
    0\t2\tsalut\n\
    0\t2\tfiles\n\
    1\t2\thallo\n\
    accepted\t1\t0\t0\n\
    refused\t9\t4\n\
    accepted-mo\t1\n\
    version\t4\n\
    0\t4\thi\n\
    0\t4\tsalut\n\
    1\t4\tbonjour\n\
";

/// A reader that gives 16 bytes at a time, and fails after `good` reads.
#[derive(Drop)]
struct FailingReader<'a> {
    left: &'a [u8],
    good: usize,
}

impl Read for FailingReader<'_> {
    fn read(&mut self, buf: &mut [u8]) -> io::Result<usize> {
        if self.good == 0 {
            return Err(io::Error::from(io::ErrorKind::Other));
        }
        self.good -= 1;
        let most = buf.len().min(self.left.len()).min(16);
        buf[..most].copy_from_slice(&self.left[..most]);
        self.left = &self.left[most..];
        Ok(most)
    }
}

/// A writer that takes 16 bytes at a time and keeps them, and fails after `good` writes.
#[derive(Drop)]
struct FailingWriter {
    held: Vec<u8>,
    good: usize,
}

impl Write for FailingWriter {
    fn write(&mut self, buf: &[u8]) -> io::Result<usize> {
        if self.good == 0 {
            return Err(io::Error::from(io::ErrorKind::Other));
        }
        self.good -= 1;
        let most = buf.len().min(16);
        self.held.extend_from_slice(&buf[..most])?;
        Ok(most)
    }

    fn flush(&mut self) -> io::Result<()> {
        Ok(())
    }
}

/// What a run returns and writes if `reads` reads and `writes` writes succeed.
fn run_over<T: Threads + Wait + Sync>(
    rt: &T,
    alloc: Global,
    script: &[u8],
    reads: usize,
    writes: usize,
) -> (Result<(), ScriptFault>, Vec<u8>) {
    let mut reader = Reading::new(FailingReader {
        left: script,
        good: reads,
    });
    let mut writer = Writing::new(FailingWriter {
        held: Vec::new(alloc),
        good: writes,
    });
    let done = run_script(rt, alloc, &mut reader, &mut writer);
    (done, writer.inner.held)
}

/// The rounds and the two lines more.
fn with_file(alloc: Global) -> Result<String, AllocError> {
    format!(in alloc; "{ROUNDS}{FILE}")
}

/// Whether a script writes these answers over devices that don't fail.
fn is_run<T: Threads + Wait + Sync>(rt: &T, alloc: Global, script: &str, answers: &str) -> bool {
    let (done, written) = run_over(rt, alloc, script.as_bytes(), usize::MAX, usize::MAX);
    done == Ok(()) && written.as_slice() == answers.as_bytes()
}

#[test]
fn scripts_are_run(rt: HostRuntime) -> Result<(), Fail> {
    let script = with_file(rt.alloc())?;
    assert!(rt; is_run(&rt, rt.alloc(), ROUNDS, ANSWERS));
    assert!(rt; is_run(&rt, rt.alloc(), script.as_str(), FILE_ANSWERS));
    Ok(())
}

/// The first number of reads after which a failing one doesn't end the run before anything is written.
fn find_wrong_read<T: Threads + Wait + Sync>(rt: &T, alloc: Global, script: &str) -> Option<usize> {
    // (the last of these reads finds the end)
    for good in 0..script.len().div_ceil(16).saturating_add(1) {
        let (done, written) = run_over(rt, alloc, script.as_bytes(), good, usize::MAX);
        let fault = ScriptFault {
            kind: ScriptKind::ReadFault,
            line: 0,
        };
        if done != Err(fault) || !written.is_empty() {
            return Some(good);
        }
    }
    None
}

#[test]
fn each_read_fails(rt: HostRuntime) -> Result<(), Fail> {
    let script = with_file(rt.alloc())?;
    assert_eq!(rt; find_wrong_read(&rt, rt.alloc(), ROUNDS), None);
    assert_eq!(rt; find_wrong_read(&rt, rt.alloc(), script.as_str()), None);
    Ok(())
}

/// The first number of writes after which a failing one doesn't end the run, with the first of the answers written.
fn find_wrong_write<T: Threads + Wait + Sync>(
    rt: &T,
    alloc: Global,
    script: &str,
    answers: &str,
) -> Option<usize> {
    for good in 0..answers.len().div_ceil(16) {
        let (done, written) = run_over(rt, alloc, script.as_bytes(), usize::MAX, good);
        let fault = ScriptFault {
            kind: ScriptKind::WriteFault,
            line: 0,
        };
        if done != Err(fault) || !answers.as_bytes().starts_with(written.as_slice()) {
            return Some(good);
        }
    }
    None
}

#[test]
fn each_write_fails(rt: HostRuntime) -> Result<(), Fail> {
    let script = with_file(rt.alloc())?;
    assert_eq!(rt; find_wrong_write(&rt, rt.alloc(), ROUNDS, ANSWERS), None);
    assert_eq!(rt;
        find_wrong_write(&rt, rt.alloc(), script.as_str(), FILE_ANSWERS),
        None
    );
    Ok(())
}

/// Each kind has its number. No run ends with some of these kinds, so this test lists the numbers.
#[test]
fn each_kind_is_told(rt: HostRuntime) {
    for (kind, line, said) in [
        (ScriptKind::TooLarge, 0, "catserve: 1 0\n"),
        (ScriptKind::NotUtf8, 0, "catserve: 2 0\n"),
        (
            ScriptKind::BadLine,
            4_294_967_295,
            "catserve: 3 4294967295\n",
        ),
        (ScriptKind::ReadFault, 0, "catserve: 4 0\n"),
        (ScriptKind::WriteFault, 0, "catserve: 5 0\n"),
        (ScriptKind::NoPlace, 0, "catserve: 6 0\n"),
        (ScriptKind::Closed, 0, "catserve: 7 0\n"),
        (ScriptKind::Join, 0, "catserve: 8 0\n"),
        (ScriptKind::Memory, 0, "catserve: 9 0\n"),
    ] {
        let mut errors = Writing::new(FailingWriter {
            held: Vec::new(rt.alloc()),
            good: usize::MAX,
        });
        tell(rt.alloc(), ScriptFault { kind, line }, &mut errors);
        assert!(rt; errors.inner.held.as_slice() == said.as_bytes(), "{said}");
    }
}
