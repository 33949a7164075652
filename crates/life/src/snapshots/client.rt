//! A reader with its work.
use crate::client::{Reply, Request};
use snapshot_store::Reader;
use std::marker::Model;

/// A reader, its requests, and one reply for each of them after a run that was answered `Ok`. Contracts see it as they
/// see a `life::Client`: both kinds of readers are seen as what they have seen.
#[derive(Drop)]
pub struct Client {
    pub reader: Reader,
    pub requests: Vec<Request>,
    pub replies: Vec<Reply>,
}

impl Model for Client {
    ghost use Rattle.life.specs.declared.client.Client.{Client as AClient};

    ghost Value = { AClient };

    ghost view = { λ c. record { reader = c.reader; requests = c.requests; replies = c.replies } };
}
