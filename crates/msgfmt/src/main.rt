//! The program `msgfmt`: it hands its arguments, the files of the system, standard input, standard output and the
//! error output to `msgfmt_tool`, and ends with the exit status 0 or 1.
#![tactic(auto)]

use devices::{Disk, Reading, Sink, Writing};
use msgfmt_tool::{Status, run};
use std::io;
use std::process::ExitCode;

fn main(rt: HostRuntime) -> ExitCode {
    let alloc = rt.alloc();
    let mut files = Disk::new(&rt);
    let mut reader = Reading::new(rt.stdin());
    let mut writer = Writing::new(rt.stdout());
    let mut errors = Writing::new(rt.stderr());
    let words = match std::env::args(&rt) {
        Ok(args) => args,
        Err(error) => return refuse(&error, &mut errors),
    };
    let Ok(words) = words.collect(alloc) else {
        return fail("msgfmt: out of memory\n", &mut errors);
    };
    match run(
        alloc,
        words,
        &mut files,
        &mut reader,
        &mut writer,
        &mut errors,
    ) {
        Status::Done => ExitCode::SUCCESS,
        Status::Failed(_) => ExitCode::FAILURE,
    }
}

/// Arguments that can't be read: one of them isn't UTF-8, or memory for them ran out.
fn refuse<E: Sink>(error: &io::Error, errors: &mut E) -> ExitCode {
    match error.kind() {
        io::ErrorKind::OutOfMemory => fail("msgfmt: out of memory\n", errors),
        _ => fail("msgfmt: bad command line\n", errors),
    }
}

fn fail<E: Sink>(line: &str, errors: &mut E) -> ExitCode {
    let _written = errors.write_all(line.as_bytes());
    ExitCode::FAILURE
}
