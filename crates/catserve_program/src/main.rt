//! The program `catserve`: it passes standard input and standard output to `catserve::run_script`, and exits with the
//! status 0 or 1. It ignores its arguments.
#![tactic(auto)]

use catserve::{ScriptFault, ScriptKind, run_script};
use devices::{Reading, Sink, Writing};
use std::alloc::Global;
use std::process::ExitCode;

#[cfg(test)]
mod tests;

fn main(rt: HostRuntime) -> ExitCode {
    let alloc = rt.alloc();
    let mut reader = Reading::new(rt.stdin());
    let mut writer = Writing::new(rt.stdout());
    match run_script(&rt, alloc, &mut reader, &mut writer) {
        Ok(()) => ExitCode::SUCCESS,
        Err(fault) => {
            tell(alloc, fault, &mut Writing::new(rt.stderr()));
            ExitCode::FAILURE
        }
    }
}

/// The number of a kind of error, as catserve(1) lists them.
fn number_of(kind: ScriptKind) -> u32 {
    match kind {
        ScriptKind::TooLarge => 1,
        ScriptKind::NotUtf8 => 2,
        ScriptKind::BadLine => 3,
        ScriptKind::ReadFault => 4,
        ScriptKind::WriteFault => 5,
        ScriptKind::NoPlace => 6,
        ScriptKind::Closed => 7,
        ScriptKind::Join => 8,
        ScriptKind::Memory => 9,
    }
}

/// Reports an error in one line: its number, and the line of the script. If there is no memory for that, it reports
/// that memory ran out.
fn tell<E: Sink>(alloc: Global, fault: ScriptFault, errors: &mut E) {
    let (number, at) = (number_of(fault.kind), fault.line);
    let _written = match format!(in alloc; "catserve: {number} {at}\n") {
        Ok(line) => errors.write_all(line.as_bytes()),
        Err(_) => errors.write_all(b"catserve: 9 0\n"),
    };
}
