//! Jobs for the publishing thread.
use catalogue::{Options, Stats};
use std::marker::Model;

/// What a job loads.
#[derive(Drop)]
pub enum Source {
    /// A PO text, and the options to compile it with.
    Po { bytes: Vec<u8>, options: Options },
    /// An MO file.
    Mo { bytes: Vec<u8> },
}

/// A PO text or an MO file to be loaded for a domain and a locale. Contracts see the bytes of its names and source.
#[derive(Drop)]
pub struct Job {
    pub domain: String,
    pub locale: String,
    pub source: Source,
}

impl Model for Job {
    ghost use Rattle.desks.specs.Jobs.{JobValue};

    ghost Value = { JobValue };

    ghost use Rattle.std.specs.Prelude.{string_bytes};
    ghost use Rattle.desks.specs.Jobs.{source_value};

    ghost view = { λ job.
        record {
          domain = string_bytes job.domain;
          locale = string_bytes job.locale;
          source = source_value job.source;
        } };
}

/// What an accepted load returns.
#[derive(Clone, Copy, Debug, PartialEq, Eq)]
pub enum Accepted {
    /// The counts of a PO text's entries.
    Po(Stats),
    /// The number of an MO file's entries.
    Mo(u64),
}
