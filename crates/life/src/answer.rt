//! The reading threads: each client's requests.
ghost use Rattle.std.specs.Prelude.{◌≡◌, [], ◌∷◌, None, IfOk, OnOk, IsSome};
ghost use Rattle.live_versions.specs.Batches.{joined_loads, version_of, StartsWith};
ghost use Rattle.live_versions.specs.Entering.{visit_of};
ghost use Rattle.life.specs.Acts.{LeadsAll};
ghost use Rattle.life.specs.Boards.{numbers_of};
ghost use Rattle.life.specs.Replies.{AreTextsOf, AreReplies, IsTold, IsAnswered, queries_in, acts_for};

use crate::board::{Board, OfStore};
use crate::client::{Client, Reply, Request};
use desks::{Gate, Place, ServeFault};
use live_set::Query;
use live_versions::{Lookups, Notice, Pinned, Version};
use std::alloc::{AllocError, Global};
use std::mem;
use thread_tree::Work;

#[tactic(auto, using(crate::proofs::Entries::texts_more))]
/// A copy of each query's text in one entry.
fn look_all(
    alloc: Global,
    pinned: &Pinned<'_>,
    queries: &[Query],
) -> Result<Vec<String>, AllocError>
    ensures { IfOk result (λ texts. AreTextsOf (joined_loads (visit_of pinned.now).batches) queries.now texts.items) }
{
    let mut texts = Vec::new(alloc);
    for index in 0..queries.len() {
        let text = String::from_str(alloc, (&*pinned).look(&queries[index]))?;
        texts.push(text)?;
    }
    Ok(texts)
}

/// Answers a group of queries in one entry.
fn answer_group(alloc: Global, reader: &mut Lookups, queries: &[Query]) -> Result<Reply, ServeFault>
    ensures book { reader.new.book ≡ reader.old.book }
    ensures later { StartsWith reader.new.batches reader.old.batches }
    ensures learnt { IfOk result (λ reply. reply.learnt ≡ None) }
    ensures version { IfOk result (λ reply. reply.version ≡ version_of reader.new.batches) }
    ensures texts { IfOk result (λ reply. AreTextsOf (joined_loads reader.new.batches) queries.now reply.texts.items) }
{
    let Ok(pinned) = reader.enter() else {
        return Err(ServeFault::Closed);
    };
    let version = pinned.version();
    let looked = look_all(alloc, &pinned, queries);
    pinned.leave();
    match looked {
        Ok(texts) => Ok(Reply {
            learnt: None,
            version,
            texts,
        }),
        Err(_) => Err(ServeFault::Memory),
    }
}

/// The reply with one text.
fn reply_of(alloc: Global, version: Version, text: String) -> Result<Reply, ServeFault>
    ensures { IfOk result (λ reply.
        (reply.learnt ≡ None) × (reply.version ≡ version) × (reply.texts.items ≡ text ∷ [])) }
{
    let mut texts = Vec::new(alloc);
    match texts.push(text) {
        Ok(()) => Ok(Reply {
            learnt: None,
            version,
            texts,
        }),
        Err(_) => Err(ServeFault::Memory),
    }
}

/// Answers a query by `Lookups::ask`.
fn answer_ask(alloc: Global, reader: &mut Lookups, query: &Query) -> Result<Reply, ServeFault>
    ensures book { reader.new.book ≡ reader.old.book }
    ensures later { StartsWith reader.new.batches reader.old.batches }
    ensures learnt { IfOk result (λ reply. reply.learnt ≡ None) }
    ensures version { IfOk result (λ reply. reply.version ≡ version_of reader.new.batches) }
    ensures texts { IfOk result (λ reply. AreTextsOf (joined_loads reader.new.batches) (query.now ∷ [])
        reply.texts.items) }
{
    match reader.ask(alloc, query) {
        Ok((version, text)) => reply_of(alloc, version, text),
        Err(fault) => Err(ServeFault::from(fault)),
    }
}

/// Answers a query by `Lookups::ask_into`, by way of the text `kept`.
fn answer_into(
    alloc: Global,
    reader: &mut Lookups,
    kept: &mut String,
    query: &Query,
) -> Result<Reply, ServeFault>
    ensures book { reader.new.book ≡ reader.old.book }
    ensures later { StartsWith reader.new.batches reader.old.batches }
    ensures learnt { IfOk result (λ reply. reply.learnt ≡ None) }
    ensures version { IfOk result (λ reply. reply.version ≡ version_of reader.new.batches) }
    ensures texts { IfOk result (λ reply. AreTextsOf (joined_loads reader.new.batches) (query.now ∷ [])
        reply.texts.items) }
{
    match reader.ask_into(query, kept) {
        Ok(version) => match String::from_str(alloc, kept.as_str()) {
            Ok(text) => reply_of(alloc, version, text),
            Err(_) => Err(ServeFault::Memory),
        },
        Err(fault) => Err(ServeFault::from(fault)),
    }
}

/// Has the reader learn the newest notice, and answers a group of queries in one entry.
#[tactic(auto, using(crate::proofs::Boards::same_book, crate::proofs::Entries::learnt_answers))]
fn answer_learnt(
    alloc: Global,
    reader: &mut Lookups,
    board: &Board<Notice, OfStore>,
    queries: &[Query],
) -> Result<Reply, ServeFault>
    requires { board.now ≡ numbers_of reader.old.book }
    ensures book { reader.new.book ≡ reader.old.book }
    ensures later { StartsWith reader.new.batches reader.old.batches }
    ensures learnt { IfOk result (λ reply. IsSome reply.learnt) }
    ensures answers { IfOk result (IsAnswered queries.now reader.old.batches reader.new.batches) }
{
    let notice = board.newest();
    reader.learn(notice);
    let mut reply = answer_group(alloc, reader, queries)?;
    reply.learnt = Some(notice.version());
    Ok(reply)
}

/// Answers a request by one entry.
#[tactic(auto, using(crate::proofs::Entries::plain_answers))]
fn answer(
    alloc: Global,
    reader: &mut Lookups,
    kept: &mut String,
    board: &Board<Notice, OfStore>,
    request: &Request,
) -> Result<Reply, ServeFault>
    requires { board.now ≡ numbers_of reader.old.book }
    ensures book { reader.new.book ≡ reader.old.book }
    ensures later { StartsWith reader.new.batches reader.old.batches }
    ensures told { IfOk result (λ reply. IsTold request.now reply.learnt) }
    ensures answers { IfOk result (IsAnswered (queries_in request.now) reader.old.batches reader.new.batches) }
{
    match request {
        Request::Ask(query) => answer_ask(alloc, reader, query),
        Request::AskInto(query) => answer_into(alloc, reader, kept, query),
        Request::Group(queries) => answer_group(alloc, reader, queries.as_slice()),
        Request::LearnFirst(queries) => answer_learnt(alloc, reader, board, queries.as_slice()),
    }
}

/// Answers each request, one after another.
fn answer_all<G: Gate>(
    gate: &G,
    alloc: Global,
    worker: u32,
    reader: &mut Lookups,
    board: &Board<Notice, OfStore>,
    requests: &[Request],
    replies: &mut Vec<Reply>,
) -> Result<(), ServeFault>
    requires { board.now ≡ numbers_of reader.old.book }
    ensures book { reader.new.book ≡ reader.old.book }
    ensures later { StartsWith reader.new.batches reader.old.batches }
    ensures each { OnOk result (AreReplies requests.now replies.new.items) }
    ensures leads { OnOk result
        (LeadsAll reader.old.batches (acts_for requests.now replies.new.items) reader.new.batches) }
{
    replies.clear();
    let mut kept = String::new(alloc);
    for index in 0..requests.len() {
        gate.pass(Place::Worker(worker), index as u64);
        let reply = answer(alloc, reader, &mut kept, board, &requests[index])?;
        if replies.push(reply).is_err() {
            return Err(ServeFault::Memory);
        }
    }
    Ok(())
}

/// What the reading threads share. Each client with requests takes a thread of its own, but one of them takes that of
/// the caller.
#[derive(Drop)]
pub(crate) struct Answering<'a, G> {
    pub(crate) gate: &'a G,
    pub(crate) alloc: Global,
    pub(crate) board: &'a Board<Notice, OfStore>,
}

impl<'a, G: Gate> Work<Client, ServeFault> for Answering<'a, G> {
    ghost use Rattle.std.specs.Prelude.{◌≡◌};
    ghost use Rattle.life.specs.Boards.{numbers_of};
    ghost use Rattle.life.specs.Clients.{KeepsClient, HasAnswered};

    ghost fits = { λ w client. w.board.now ≡ numbers_of client.reader.book };

    ghost keeps = { KeepsClient };

    ghost does = { HasAnswered };

    /// Answers one client's requests. The replies are collected on the thread's own stack, since the clients are
    /// neighbours in memory.
    fn work(&self, worker: u32, client: &mut Client) -> Result<(), ServeFault> {
        let mut replies = mem::replace(&mut client.replies, Vec::new(self.alloc));
        let answered = answer_all(
            self.gate,
            self.alloc,
            worker,
            &mut client.reader,
            self.board,
            client.requests.as_slice(),
            &mut replies,
        );
        client.replies = replies;
        answered
    }

    fn is_idle(&self, client: &Client) -> bool {
        client.requests.is_empty()
    }
}
