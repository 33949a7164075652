//! The desks of the workers: they are given questions, and their answers are written.
ghost use Rattle.std.specs.Prelude.{◌≡◌, ◌+◌, ◌≤◌, ◌<◌, ◌^◌, ◌++◌, [], List, OnOk, IfOk, length, map};
ghost use Rattle.std.specs.List.{AllZip, list_any};
ghost use Rattle.catserve.specs.Asking.{readers_of, AreAsked, GivesOne, answer_lines, desk_lines, is_asked, IsFreed};

use crate::output::write_answer;
use desks::{Answer, Desk};
use live_set::Query;
use live_versions::Lookups;
use std::alloc::{AllocError, Global};
use std::mem;

/// A desk for each reader, without queries.
pub(crate) fn open_desks(alloc: Global, readers: Vec<Lookups>) -> Result<Vec<Desk>, AllocError>
    ensures { IfOk result (λ desks. (readers_of desks.items ≡ readers.items) × AreAsked 0 [] desks.items) }
{
    let mut desks = Vec::new(alloc);
    'readers: for reader in readers {
        desks.push(Desk {
            reader,
            queries: Vec::new(alloc),
            answers: Vec::new(alloc),
            fault: None,
        })?;
    }
    Ok(desks)
}

/// Appends a query to the queries of a worker's desk. A worker that doesn't exist isn't asked.
pub(crate) fn give(desks: &mut [Desk], worker: u32, query: Query) -> Result<(), AllocError>
    ensures { OnOk result (GivesOne desks.old worker query desks.new) }
{
    let index = worker as usize;
    if index < desks.len() {
        desks[index].queries.push(query)?;
    }
    Ok(())
}

/// Whether a desk has a question.
pub(crate) fn any_asked(desks: &[Desk]) -> bool
    ensures { result ≡ list_any is_asked desks.now }
{
    desks.iter().any(|desk| !desk.queries.is_empty())
}

/// Writes a worker's answers. Each is freed once it is written, since together they are as long as the output.
fn write_answers(
    alloc: Global,
    worker: u32,
    answers: Vec<Answer>,
    output: &mut Vec<u8>,
) -> Result<(), AllocError>
    ensures { OnOk result (output.new.items ≡ output.old.items ++ answer_lines worker answers.items) }
{
    'answers: for answer in answers {
        write_answer(alloc, output, worker, answer.version, answer.text.as_str())?;
    }
    Ok(())
}

/// Writes the answers of all workers from this one on, and frees their questions and answers.
pub(crate) fn write_all(
    alloc: Global,
    worker: u32,
    desks: &mut [Desk],
    output: &mut Vec<u8>,
) -> Result<(), AllocError>
    requires { worker + length desks.old < 2 ^ 32 }
    ensures written { OnOk result (output.new.items ≡ output.old.items ++ desk_lines worker desks.old) }
    ensures freed { OnOk result (AllZip IsFreed desks.old desks.new) }
{
    let Some((desk, rest)) = desks.split_first_mut() else {
        return Ok(());
    };
    let answers = mem::replace(&mut desk.answers, Vec::new(alloc));
    write_answers(alloc, worker, answers, output)?;
    desk.queries.clear();
    write_all(alloc, worker + 1, rest, output)
}
