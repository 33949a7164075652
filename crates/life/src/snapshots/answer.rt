//! The reading threads: each client's requests.
ghost use Rattle.std.specs.Prelude.{◌≡◌, [], ◌∷◌, None, IfOk, OnOk, IsSome};
ghost use Rattle.live_set.specs.Asks.{IsAnswer};
ghost use Rattle.live_versions.specs.Batches.{joined_loads, version_of, StartsWith};
ghost use Rattle.life.specs.Acts.{LeadsAll};
ghost use Rattle.life.specs.Boards.{numbers_of};
ghost use Rattle.life.specs.Replies.{AreTextsOf, AreReplies, IsTold, IsAnswered, queries_in, acts_for};

use crate::board::{Board, OfStore};
use crate::client::{Reply, Request};
use crate::snapshots::client::Client;
use desks::{Gate, Place};
use live_set::Query;
use snapshot_store::{Notice, Reader};
use std::alloc::{AllocError, Global};
use std::{mem, slice};
use thread_tree::Work;

/// The answer to a query in the version that the reader entered last.
#[tactic(auto, using(crate::proofs::Looking::asked))]
fn look<'a>(reader: &'a Reader, query: &'a Query) -> &'a str
    ensures { IsAnswer (joined_loads reader.now.batches) query.now result.now }
{
    reader.set().look(query)
}

/// A copy of each query's text in that version.
#[tactic(auto, using(crate::proofs::Entries::texts_more))]
fn look_all(alloc: Global, reader: &Reader, queries: &[Query]) -> Result<Vec<String>, AllocError>
    ensures { IfOk result (λ texts. AreTextsOf (joined_loads reader.now.batches) queries.now texts.items) }
{
    let mut texts = Vec::new(alloc);
    for index in 0..queries.len() {
        let text = String::from_str(alloc, look(reader, &queries[index]))?;
        texts.push(text)?;
    }
    Ok(texts)
}

/// Answers queries by one entry, which is not older than the notice.
fn answer_after(
    alloc: Global,
    reader: &mut Reader,
    notice: &Notice,
    queries: &[Query],
) -> Result<Reply, AllocError>
    requires { notice.now.book ≡ reader.old.book }
    ensures entered { OnOk result (StartsWith reader.new.batches notice.now.batches) }
    ensures book { reader.new.book ≡ reader.old.book }
    ensures later { StartsWith reader.new.batches reader.old.batches }
    ensures learnt { IfOk result (λ reply. reply.learnt ≡ None) }
    ensures version { IfOk result (λ reply. reply.version ≡ version_of reader.new.batches) }
    ensures texts { IfOk result (λ reply. AreTextsOf (joined_loads reader.new.batches) queries.now reply.texts.items) }
{
    if !reader.enter_after(notice) {
        return Err(AllocError);
    }
    let texts = look_all(alloc, reader, queries)?;
    Ok(Reply {
        learnt: None,
        version: reader.version(),
        texts,
    })
}

/// Answers queries by one entry after the newest notice.
#[tactic(auto, using(crate::proofs::Boards::same_book, crate::proofs::Entries::entered_answers))]
fn answer_learnt(
    alloc: Global,
    reader: &mut Reader,
    board: &Board<Notice, OfStore>,
    queries: &[Query],
) -> Result<Reply, AllocError>
    requires { board.now ≡ numbers_of reader.old.book }
    ensures book { reader.new.book ≡ reader.old.book }
    ensures later { StartsWith reader.new.batches reader.old.batches }
    ensures learnt { IfOk result (λ reply. IsSome reply.learnt) }
    ensures answers { IfOk result (IsAnswered queries.now reader.old.batches reader.new.batches) }
{
    let notice = board.newest();
    let mut reply = answer_after(alloc, reader, notice, queries)?;
    reply.learnt = Some(notice.version());
    Ok(reply)
}

/// Answers a request by one entry.
#[tactic(auto, using(crate::proofs::Boards::same_book, crate::proofs::Entries::plain_answers))]
fn answer(
    alloc: Global,
    reader: &mut Reader,
    board: &Board<Notice, OfStore>,
    request: &Request,
) -> Result<Reply, AllocError>
    requires { board.now ≡ numbers_of reader.old.book }
    ensures book { reader.new.book ≡ reader.old.book }
    ensures later { StartsWith reader.new.batches reader.old.batches }
    ensures told { IfOk result (λ reply. IsTold request.now reply.learnt) }
    ensures answers { IfOk result (IsAnswered (queries_in request.now) reader.old.batches reader.new.batches) }
{
    let opening = board.first();
    match request {
        Request::Ask(query) => answer_after(alloc, reader, opening, slice::from_ref(query)),
        Request::AskInto(query) => answer_after(alloc, reader, opening, slice::from_ref(query)),
        Request::Group(queries) => answer_after(alloc, reader, opening, queries.as_slice()),
        Request::LearnFirst(queries) => answer_learnt(alloc, reader, board, queries.as_slice()),
    }
}

/// Answers each request, one after another.
fn answer_all<G: Gate>(
    gate: &G,
    alloc: Global,
    worker: u32,
    reader: &mut Reader,
    board: &Board<Notice, OfStore>,
    requests: &[Request],
    replies: &mut Vec<Reply>,
) -> Result<(), AllocError>
    requires { board.now ≡ numbers_of reader.old.book }
    ensures book { reader.new.book ≡ reader.old.book }
    ensures later { StartsWith reader.new.batches reader.old.batches }
    ensures each { OnOk result (AreReplies requests.now replies.new.items) }
    ensures leads { OnOk result
        (LeadsAll reader.old.batches (acts_for requests.now replies.new.items) reader.new.batches) }
{
    replies.clear();
    for index in 0..requests.len() {
        gate.pass(Place::Worker(worker), index as u64);
        let reply = answer(alloc, reader, board, &requests[index])?;
        replies.push(reply)?;
    }
    Ok(())
}

/// What the reading threads share. Each client with requests takes a thread of its own, but one of them takes that of
/// the caller.
#[derive(Drop)]
pub(crate) struct Answering<'a, G> {
    pub(crate) gate: &'a G,
    pub(crate) alloc: Global,
    pub(crate) board: &'a Board<Notice, OfStore>,
}

impl<'a, G: Gate> Work<Client, AllocError> for Answering<'a, G> {
    ghost use Rattle.std.specs.Prelude.{◌≡◌};
    ghost use Rattle.life.specs.Boards.{numbers_of};
    ghost use Rattle.life.specs.Clients.{KeepsClient, HasAnswered};

    ghost fits = { λ w client. w.board.now ≡ numbers_of client.reader.book };

    ghost keeps = { KeepsClient };

    ghost does = { HasAnswered };

    /// Answers one client's requests.
    fn work(&self, worker: u32, client: &mut Client) -> Result<(), AllocError> {
        let mut replies = mem::replace(&mut client.replies, Vec::new(self.alloc));
        let answered = answer_all(
            self.gate,
            self.alloc,
            worker,
            &mut client.reader,
            self.board,
            client.requests.as_slice(),
            &mut replies,
        );
        client.replies = replies;
        answered
    }

    fn is_idle(&self, client: &Client) -> bool {
        client.requests.is_empty()
    }
}
