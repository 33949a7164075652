//! Queries, one by one and many at once. The expected values were written by hand, from the rules.
use crate::texts::{POLISH, Row, SALUT, put, set_of};
use live_set::{Ask, CatalogueSet, Query};
use std::alloc::{AllocError, Global};

/// A call: its context, its msgid and its number. The context and the number may be missing.
pub(crate) type Call<'a> = (Option<&'a str>, &'a str, Option<u64>);

/// Six calls, and whether they are for a number. Some have no translation.
const CALLS: [(Option<&str>, &str, bool); 6] = [
    (None, "hi", false),
    (None, "no such message", false),
    (Some("menu"), "open", false),
    (None, "file", true),
    (Some("disk"), "file", true),
    (None, "file", false),
];

/// Languages for which there is a catalogue, for which there are two, and for which there is none.
const LANGUAGES: [&str; 4] = ["pl", "fr", "fr:pl", "sv"];

const POLISH_AND_FRENCH: [Row<'static>; 2] = [("app", "pl", POLISH), ("app", "fr", SALUT)];

/// The call as a query asks for it, with the plural `files`.
fn ask_of(alloc: Global, (context, id, n): Call<'_>) -> Result<Ask, AllocError> {
    let id = String::from_str(alloc, id)?;
    Ok(match (context, n) {
        (None, None) => Ask::Plain { id },
        (Some(context), None) => Ask::Context {
            context: String::from_str(alloc, context)?,
            id,
        },
        (None, Some(n)) => Ask::Number {
            id,
            plural: String::from_str(alloc, "files")?,
            n,
        },
        (Some(context), Some(n)) => Ask::ContextNumber {
            context: String::from_str(alloc, context)?,
            id,
            plural: String::from_str(alloc, "files")?,
            n,
        },
    })
}

/// The query for a call.
fn query_of(
    alloc: Global,
    domain: &str,
    languages: &str,
    call: Call<'_>,
) -> Result<Query, AllocError> {
    Ok(Query {
        domain: String::from_str(alloc, domain)?,
        languages: String::from_str(alloc, languages)?,
        ask: ask_of(alloc, call)?,
    })
}

/// Whether the query for a call has this answer.
pub(crate) fn looks_up(
    alloc: Global,
    set: &CatalogueSet,
    domain: &str,
    languages: &str,
    call: Call<'_>,
    wanted: &str,
) -> bool {
    match query_of(alloc, domain, languages, call) {
        Ok(query) => set.look(&query) == wanted,
        Err(_) => false,
    }
}

/// Makes `count` queries, of `CALLS` in `LANGUAGES`.
fn any_queries(alloc: Global, count: usize) -> Result<Vec<Query>, AllocError> {
    let mut queries = Vec::new(alloc);
    for number in 0..count {
        let (context, id, counted) = CALLS[number % 6];
        let n = if counted { Some(number as u64) } else { None };
        let languages = LANGUAGES[number % 4];
        queries.push(query_of(alloc, "app", languages, (context, id, n))?)?;
    }
    Ok(queries)
}

/// Whether these are the answers to queries that are asked one by one.
fn are_answers(set: &CatalogueSet, queries: &[Query], answers: &[&str]) -> bool {
    for (query, answer) in queries.iter().zip(answers.iter()) {
        if set.look(query) != *answer {
            return false;
        }
    }
    answers.len() == queries.len()
}

/// Whether `count` queries have the same answers at once as one by one.
fn looks_all_up(alloc: Global, set: &CatalogueSet, count: usize) -> bool {
    let Ok(queries) = any_queries(alloc, count) else {
        return false;
    };
    match set.look_all(alloc, &queries) {
        Ok(answers) => queries.len() == count && are_answers(set, &queries, &answers),
        Err(_) => false,
    }
}

/// Whether that is so in a set of three loads, of which the last has an index.
fn looks_all_up_indexed(alloc: Global, count: usize) -> bool {
    match set_of(alloc, &POLISH_AND_FRENCH) {
        Some(mut set) => {
            put(alloc, &mut set, ("app", "pl", POLISH), true) && looks_all_up(alloc, &set, count)
        }
        None => false,
    }
}

#[test]
fn answers_many_at_once(rt: HostRuntime) {
    for count in [0, 1, 16, 17, 40usize] {
        assert!(rt; looks_all_up_indexed(rt.alloc(), count), "{count}");
    }
}
