//! The arguments of the command line.
use catserve::MOST_WORKERS;

/// What the arguments ask for.
#[derive(Clone, Copy)]
pub(crate) enum Asked {
    /// The help.
    Help,
    /// The version.
    Version,
    /// A session, and its number of workers if it is given.
    Session(Option<u32>),
}

/// Which argument is faulty.
#[derive(Clone, Copy)]
pub(crate) enum WordsFault<'a> {
    /// An argument that isn't known, or not in this place.
    Unknown(&'a str),
    /// What follows `--workers` is no number from 1 to 16.
    NoCount,
}

/// A number of workers, in decimal digits.
fn count_of(word: &str) -> Option<u32> {
    if !word.bytes().all(|byte| byte.is_ascii_digit()) {
        return None;
    }
    let count = word.parse::<u32>().ok()?;
    (count >= 1 && count as u64 <= MOST_WORKERS).then_some(count)
}

/// Parses the arguments; the first one is the program's name. The first request for the help or the version, or the
/// first faulty argument, decides.
pub(crate) fn read_words(words: &[String]) -> Result<Asked, WordsFault<'_>> {
    let mut workers = None;
    let mut wants_count = false;
    for word in words.iter().skip(1) {
        let word = word.as_str();
        if wants_count {
            let Some(count) = count_of(word) else {
                return Err(WordsFault::NoCount);
            };
            workers = Some(count);
            wants_count = false;
        } else if word == "-h" || word == "--help" {
            return Ok(Asked::Help);
        } else if word == "-V" || word == "--version" {
            return Ok(Asked::Version);
        } else if word == "--workers" && workers.is_none() {
            wants_count = true;
        } else {
            return Err(WordsFault::Unknown(word));
        }
    }
    if wants_count {
        return Err(WordsFault::NoCount);
    }
    Ok(Asked::Session(workers))
}
