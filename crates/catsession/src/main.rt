//! The program `catsession`: it parses its arguments, and passes standard input and standard output as one device to
//! `catserve::run_session`. It exits with the status 0 or 1.
#![tactic(auto)]

mod words;

use crate::words::{Asked, WordsFault, read_words};
use catserve::{ScriptKind, SessionFault, run_session};
use devices::{Pair, Reading, Sink, Writing};
use std::alloc::Global;
use std::io;
use std::process::ExitCode;

/// What `--help` prints.
const HELP: &str = "\
Usage: catsession [--workers N] < INPUT

Answers a script of loads and questions round by round, while it arrives. The
output of a round is written before the next line is waited for.

      --workers N  use N worker threads, 1 to 16 (default 2); the input must then
                   have no line `workers`
  -h, --help       print this help
  -V, --version    print the version

The lines of a script are described in catserve(1) and in scripts.md.
";

/// What `--version` prints. `tests/project/release.sh` compares it with the file VERSION.
const VERSION: &str = "catsession (Kobdzila) 0.2.0\n";

fn main(rt: HostRuntime) -> ExitCode {
    let alloc = rt.alloc();
    let mut writer = Writing::new(rt.stdout());
    let mut errors = Writing::new(rt.stderr());
    let words = match std::env::args(&rt) {
        Ok(args) => args,
        Err(error) => return refuse(&error, &mut errors),
    };
    let words: Vec<String> = match words.collect(alloc) {
        Ok(words) => words,
        Err(_) => return fail("catsession: out of memory\n", &mut errors),
    };
    let workers = match read_words(words.as_slice()) {
        Ok(Asked::Session(workers)) => workers,
        Ok(Asked::Help) => return print(HELP, &mut writer, &mut errors),
        Ok(Asked::Version) => return print(VERSION, &mut writer, &mut errors),
        Err(fault) => return refuse_words(alloc, fault, &mut errors),
    };
    let mut device = Pair {
        reader: Reading::new(rt.stdin()),
        writer,
    };
    match run_session(&rt, alloc, workers, &mut device) {
        Ok(()) => ExitCode::SUCCESS,
        Err(fault) => {
            tell(alloc, fault, &mut errors);
            ExitCode::FAILURE
        }
    }
}

fn fail<E: Sink>(line: &str, errors: &mut E) -> ExitCode {
    let _written = errors.write_all(line.as_bytes());
    ExitCode::FAILURE
}

/// Reports that the arguments can't be read: one of them isn't UTF-8, or memory ran out.
fn refuse<E: Sink>(error: &io::Error, errors: &mut E) -> ExitCode {
    match error.kind() {
        io::ErrorKind::OutOfMemory => fail("catsession: out of memory\n", errors),
        _ => fail("catsession: a word is not UTF-8\n", errors),
    }
}

/// Prints the help or the version.
fn print<W: Sink, E: Sink>(text: &str, writer: &mut W, errors: &mut E) -> ExitCode {
    match writer.write_all(text.as_bytes()) {
        Ok(()) => ExitCode::SUCCESS,
        Err(_) => fail("catsession: cannot write output\n", errors),
    }
}

/// Reports a faulty argument.
fn refuse_words<E: Sink>(alloc: Global, fault: WordsFault<'_>, errors: &mut E) -> ExitCode {
    let line = match fault {
        WordsFault::NoCount => {
            return fail(
                "catsession: --workers takes a number from 1 to 16\n",
                errors,
            );
        }
        WordsFault::Unknown(word) => format!(in alloc; "catsession: unknown word {word}\n"),
    };
    match line {
        Ok(line) => fail(line.as_str(), errors),
        Err(_) => fail("catsession: out of memory\n", errors),
    }
}

/// The message for a kind of error.
fn text_of(kind: ScriptKind) -> &'static str {
    match kind {
        ScriptKind::TooLarge => "round too large",
        ScriptKind::NotUtf8 => "not UTF-8",
        ScriptKind::BadLine => "bad line",
        ScriptKind::ReadFault => "cannot read input",
        ScriptKind::WriteFault => "cannot write output",
        ScriptKind::NoPlace => "no place for a reader",
        ScriptKind::Closed => "store closed",
        ScriptKind::Join => "no thread",
        ScriptKind::Memory => "out of memory",
    }
}

/// Reports an error in one line, with the line of the session if it has one. If there is no memory for that, it reports
/// that memory ran out.
fn tell<E: Sink>(alloc: Global, fault: SessionFault, errors: &mut E) {
    let (text, line) = (text_of(fault.kind), fault.line);
    let said = if line == 0 {
        format!(in alloc; "catsession: {text}\n")
    } else {
        format!(in alloc; "catsession:{line}: {text}\n")
    };
    let _written = match said {
        Ok(said) => errors.write_all(said.as_bytes()),
        Err(_) => errors.write_all(b"catsession: out of memory\n"),
    };
}
