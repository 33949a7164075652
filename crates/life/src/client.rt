//! A reader with its work.
use live_set::Query;
use live_versions::{Lookups, Version};

/// What a client asks its reader. Each request is one entry of the store. The publisher leaves a notice after each of
/// its commands, and a request may have the reader learn the newest of them first.
#[derive(Drop)]
pub enum Request {
    /// A query, by `Lookups::ask`.
    Ask(Query),
    /// A query, by `Lookups::ask_into`: the client keeps one text for all of these.
    AskInto(Query),
    /// A group of queries, all looked up between one `Lookups::enter` and its `Pinned::leave`.
    Group(Vec<Query>),
    /// The reader learns the newest notice, and then a group of queries is looked up in one entry.
    LearnFirst(Vec<Query>),
}

/// What a request was answered: the version of its entry, and one text for each query, in order.
#[derive(Debug, Drop)]
pub struct Reply {
    /// The version of the notice that was learnt before the entry; only `LearnFirst` has one.
    pub learnt: Option<Version>,
    pub version: Version,
    pub texts: Vec<String>,
}

/// A reader, its requests, and one reply for each of them after a run that was answered `Ok`.
#[derive(Drop)]
pub struct Client {
    pub reader: Lookups,
    pub requests: Vec<Request>,
    pub replies: Vec<Reply>,
}
