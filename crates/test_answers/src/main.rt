//! Reads a file of cases, prints each case whose answer isn't the one on its line, and then prints how many cases of
//! each kind are as written. `data/cases` describes the format.
#![tactic(auto)]

mod answer;
mod case;
mod entries;

use answer::answer;
use case::{Case, CaseFault, spelled};
use std::alloc::Global;
use std::collections::BTreeMap;
use std::{env, fs, io};

/// The number of cases of a kind, and how many of them are as written.
#[derive(Clone, Copy)]
struct Tally {
    cases: u32,
    as_written: u32,
}

/// The answer to a case, if it isn't as written.
fn failure(alloc: Global, case: Case) -> Result<Option<String>, CaseFault> {
    let wanted = spelled(alloc, case.wanted)?;
    let answer = answer(alloc, case.kind, case.question)?;
    if answer.as_str() == wanted.as_str() {
        Ok(None)
    } else {
        Ok(Some(answer))
    }
}

/// Whether the answer to a case is as written; prints the answer if it isn't.
fn is_as_written<R: Print + AllocGlobal>(rt: &R, line: usize, case: Case) -> io::Result<bool> {
    let Case { kind, question, .. } = case;
    match failure(rt.alloc(), case) {
        Ok(None) => return Ok(true),
        Ok(Some(answer)) => println!(rt; "line {line}, {kind} {question}: {answer}")?,
        Err(fault) => println!(rt; "line {line}, {kind} {question}: {fault}")?,
    }
    Ok(false)
}

/// Answers all cases of a file, and prints the tallies.
fn ask_all<R: Print + AllocGlobal>(rt: &R, text: &str) -> io::Result<()> {
    let mut tallies: BTreeMap<&str, Tally> = BTreeMap::new(rt.alloc());
    for (index, line) in text.lines().enumerate() {
        let Some(case) = Case::on_line(line) else {
            continue
        };
        let as_written = is_as_written(rt, index.saturating_add(1), case)?;
        let tally = tallies.entry(case.kind)?.or_insert(Tally {
            cases: 0,
            as_written: 0,
        });
        tally.cases = tally.cases.saturating_add(1);
        tally.as_written = tally.as_written.saturating_add(u32::from(as_written));
    }
    for (kind, Tally { cases, as_written }) in tallies.iter() {
        println!(rt; "{kind}: {as_written} of {cases} as written")?;
    }
    Ok(())
}

fn main(rt: HostRuntime) -> io::Result<()> {
    let Some(path) = env::args(&rt)?.nth(1) else {
        return eprintln!(&rt; "usage: test_answers FILE")
    };
    let text = fs::read_to_string(&rt, path.as_str())?;
    ask_all(&rt, text.as_str())
}
