//! `serve` on 1 to 16 desks, with and without jobs.
ghost use Rattle.std.specs.Prelude.{◌≡◌, ◌≤◌, All, IfOk, vec_len};

use crate::languages::publish_languages;
use crate::messages::{Asked, LANGUAGES, PLAIN, locale_of, po_text, queries};
use crate::readers::is_answer;
use crate::times::{now, since};
use desks::{Answer, Desk, Job, OpenGate, Source, serve};
use live_set::Query;
use live_versions::{Lookups, Publisher};
use std::alloc::{AllocError, Global};
use std::io;
use std::rt::Clock;
use std::sync::Wait;
use std::thread::Threads;
use std::time::Duration;

/// The number of messages in a job's text.
const JOB_MESSAGES: u32 = 10;

/// What is served: the number of desks and of jobs, and of messages in each language.
#[derive(Clone, Copy)]
pub struct Serving {
    pub messages: u32,
    pub desks: u32,
    pub jobs: u32,
}

/// A job that loads a text for a language.
pub fn job_of(alloc: Global, language: u32, text: String) -> Result<Job, AllocError> {
    Ok(Job {
        domain: String::from_str(alloc, "app")?,
        locale: locale_of(alloc, language)?,
        source: Source::Po {
            bytes: text.into_bytes(),
            options: PLAIN,
        },
    })
}

/// `count` jobs, each a text for one of 20 locales that no query asks for.
fn jobs_of(alloc: Global, count: u32) -> Result<Vec<Job>, AllocError> {
    let mut jobs = Vec::new(alloc);
    'jobs: for job in 0..count {
        let language = LANGUAGES + job % LANGUAGES;
        let text = po_text(alloc, language, JOB_MESSAGES)?;
        jobs.push(job_of(alloc, language, text)?)?;
    }
    Ok(jobs)
}

/// A desk with these queries.
fn desk_of(alloc: Global, reader: Lookups, asked: Asked) -> Result<Desk, AllocError>
    ensures { IfOk result (λ d. d.reader ≡ reader) }
{
    Ok(Desk {
        reader,
        queries: queries(alloc, asked, "")?,
        answers: Vec::new(alloc),
        fault: None,
    })
}

/// A desk for each reader, each with these queries.
pub fn desks_of(
    alloc: Global,
    publisher: &Publisher,
    mut readers: Vec<Lookups>,
    asked: Asked,
) -> Result<Vec<Desk>, AllocError>
    requires { All (λ l. l.book ≡ publisher.now.seen.book) readers.items }
    ensures { IfOk result (λ v.
        (vec_len v ≡ vec_len readers) × All (λ d. d.reader.book ≡ publisher.now.seen.book) v.items) }
{
    let mut desks = Vec::new(alloc);
    'readers: for _ in 0..readers.len() {
        let Some(reader) = readers.pop() else {
            break;
        };
        let desk = desk_of(alloc, reader, asked)?;
        desks.push(desk)?;
    }
    Ok(desks)
}

/// The number of queries without a right answer.
fn wrong_answers(alloc: Global, queries: &[Query], answers: &[Answer]) -> u64 {
    let pairs = queries.iter().zip(answers);
    let wrong = pairs.filter(|(query, answer)| !is_answer(alloc, query, &answer.text));
    let missing = queries.len().abs_diff(answers.len());
    missing.saturating_add(wrong.count()) as u64
}

/// The number of queries of all desks without a right answer.
fn all_wrong_answers(alloc: Global, desks: &[Desk]) -> u64 {
    let wrong = desks
        .iter()
        .map(|desk| wrong_answers(alloc, &desk.queries, &desk.answers));
    wrong.fold(0, u64::saturating_add)
}

/// Prints how many answers went wrong, and how long each query took.
fn print_serve<R: Print + Eprint + AllocGlobal>(
    rt: &R,
    desks: &[Desk],
    jobs: u32,
    taken: Option<Duration>,
    queries: u64,
) -> io::Result<()> {
    let Some(taken) = taken else {
        return println!(rt; "serve: no clock");
    };
    let count = desks.len();
    let wrong = all_wrong_answers(rt.alloc(), desks);
    println!(rt; "serve, {count} desks, {jobs} jobs: {wrong} wrong")?;
    let each = taken.as_nanos() / u128::from(queries.max(1));
    eprintln!(rt; "serve, {count} desks beside {jobs} jobs: {each} ns each, {queries} times")
}

/// Times one call of `serve` on these desks.
fn run_desks<R: Print + Eprint + Clock + Threads + Wait + AllocGlobal + Sync>(
    rt: &R,
    publisher: &mut Publisher,
    desks: &mut Vec<Desk>,
    jobs: u32,
    queries: u64,
) -> io::Result<()>
    requires book { All (λ d. d.reader.book ≡ publisher.old.seen.book) desks.old.items }
    requires count { (1 ≤ vec_len desks.old) × (vec_len desks.old ≤ 16) }
{
    let Ok(texts) = jobs_of(rt.alloc(), jobs) else {
        return println!(rt; "out of memory");
    };
    let start = now(rt);
    let served = serve(rt, rt.alloc(), publisher, desks, texts, &OpenGate);
    let taken = since(rt, start);
    match served {
        Ok(_) => print_serve(rt, desks, jobs, taken, queries),
        Err(fault) => println!(rt; "serve: {fault}"),
    }
}

/// Times `serve` on the desks of a store. The queries of a desk are a tenth of the number of messages.
pub fn time_serve<R: Print + Eprint + Clock + Threads + Wait + AllocGlobal + Sync>(
    rt: &R,
    publisher: &mut Publisher,
    readers: Vec<Lookups>,
    serving: Serving,
) -> io::Result<()>
    requires book { All (λ l. l.book ≡ publisher.old.seen.book) readers.items }
    requires count { (1 ≤ vec_len readers) × (vec_len readers ≤ 16) }
{
    let asked = Asked {
        languages: LANGUAGES,
        messages: serving.messages,
        count: serving.messages.saturating_mul(LANGUAGES) / 10,
    };
    let published = publish_languages(rt, publisher, serving.messages);
    match desks_of(rt.alloc(), publisher, readers, asked) {
        Ok(mut desks) if published == Ok(true) => {
            let all = u64::from(asked.count).saturating_mul(u64::from(serving.desks));
            run_desks(rt, publisher, &mut desks, serving.jobs, all)
        }
        _ => println!(rt; "out of memory"),
    }
}
