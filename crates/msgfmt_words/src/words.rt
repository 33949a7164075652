//! What the arguments of the command line ask for.
ghost use Rattle.std.specs.Prelude.{◌≡◌, IfOk, IfErr, codes, false, map, string_bytes, unwrap_or};
ghost use Rattle.clap.specs.Words.{app_of, first_value, found_of, kind_of, new_app, rows_of, rule_of};
ghost use Rattle.msgfmt_words.specs.Words.{AreTaken, request_in, asked_by, is_true, msgfmt, msgfmt_flags};
ghost use Rattle.msgfmt_words.specs.Words.{flag_rule, input_rule, letter_flag_rule, output_rule};
ghost use Rattle.msgfmt_words.specs.Requests.{AnswersKind, Explains, asked_in};

use clap::error::ErrorKind;
use clap::{Arg, ArgAction, ArgMatches, Command};
use po_checks::Options;
use std::alloc::{AllocError, Global};

/// What the arguments ask for.
#[derive(Drop)]
pub struct Request<'a> {
    pub options: Options,
    /// The statistics are to be printed.
    pub statistics: bool,
    pub input: Option<&'a str>,
    pub output: &'a str,
}

/// Why the arguments give no request.
#[derive(Drop)]
pub enum WordsFault {
    /// They ask for this help text.
    Help(String),
    /// They aren't those of a command line.
    Faulty,
    /// Memory ran out.
    Memory,
}

/// The last lines of the help text, after the options.
const EXAMPLES: &str = "Examples:
  msgfmt -c --statistics -o fr.mo fr.po
  msgfmt -o - - < fr.po > fr.mo";

/// A flag by its long name, which is its id.
fn flag<'a>(alloc: Global, id: &'static str, help: &'static str) -> Arg<'a>
    ensures rule { rule_of result ≡ flag_rule id.now }
    ensures local { result.global ≡ false }
{
    Arg::new(alloc, id)
        .long(id)
        .help(help)
        .action(ArgAction::SetTrue)
}

/// A flag by its long name, which is its id, and a letter.
fn letter_flag<'a>(alloc: Global, id: &'static str, letter: char, help: &'static str) -> Arg<'a>
    ensures rule { rule_of result ≡ letter_flag_rule id.now letter }
    ensures local { result.global ≡ false }
{
    Arg::new(alloc, id)
        .short(letter)
        .long(id)
        .help(help)
        .action(ArgAction::SetTrue)
}

fn output<'a>(alloc: Global) -> Arg<'a>
    ensures rule { rule_of result ≡ output_rule }
    ensures local { result.global ≡ false }
{
    Arg::new(alloc, "output-file")
        .short('o')
        .long("output-file")
        .value_name("FILE")
        .help("MO file, or - for standard output [messages.mo]")
        .action(ArgAction::Set)
}

fn input<'a>(alloc: Global) -> Arg<'a>
    ensures rule { rule_of result ≡ input_rule }
    ensures local { result.global ≡ false }
{
    Arg::new(alloc, "INPUT")
        .help("PO file to read, or - for standard input")
        .action(ArgAction::Set)
}

/// The command without its arguments.
fn described<'a>(alloc: Global) -> Command<'a>
    ensures { app_of result ≡ new_app (codes "msgfmt") }
{
    Command::new(alloc, "msgfmt")
        .about("Compiles a PO file to an MO file.")
        .after_help(EXAMPLES)
}

fn flags<'a>(alloc: Global) -> Result<Command<'a>, AllocError>
    ensures { IfOk result (λ c. app_of c ≡ msgfmt_flags) }
{
    described(alloc)
        .arg(letter_flag(
            alloc,
            "check",
            'c',
            "Check header, plural forms, C formats and newlines",
        ))?
        .arg(letter_flag(alloc, "use-fuzzy", 'f', "Keep fuzzy entries"))?
        .arg(flag(
            alloc,
            "statistics",
            "Print how many messages are translated",
        ))
}

fn command<'a>(alloc: Global) -> Result<Command<'a>, AllocError>
    ensures { IfOk result (λ c. app_of c ≡ msgfmt) }
{
    flags(alloc)?
        .arg(letter_flag(alloc, "verbose", 'v', "Accepted, and changes nothing"))?
        .arg(flag(alloc, "no-hash", "Accepted, and changes nothing"))?
        .arg(output(alloc))?
        .arg(input(alloc))
}

fn is_on(matches: &ArgMatches<'_>, id: &str) -> bool
    ensures { result ≡ is_true (first_value (found_of matches.now) id.now) }
{
    match matches.get_str(id) {
        Some(text) => text == "true",
        None => false,
    }
}

fn options_of(matches: &ArgMatches<'_>) -> Options
    ensures checked { result.checked ≡ is_true (first_value (found_of matches.now) (codes "check")) }
    ensures use_fuzzy { result.use_fuzzy ≡ is_true (first_value (found_of matches.now) (codes "use-fuzzy")) }
{
    Options {
        checked: is_on(matches, "check"),
        use_fuzzy: is_on(matches, "use-fuzzy"),
    }
}

/// The name of FILE.
#[tactic(auto, using(crate::proofs::WordLemmas::named_or))]
fn output_of<'a>(matches: &ArgMatches<'a>) -> &'a str
    ensures { result.now
        ≡ unwrap_or (first_value (found_of matches.now) (codes "output-file")) (codes "messages.mo") }
{
    matches.get_str("output-file").unwrap_or("messages.mo")
}

fn request_of<'a>(matches: &ArgMatches<'a>) -> Request<'a>
    ensures { asked_in result ≡ asked_by (rows_of (found_of matches.now)) }
{
    Request {
        options: options_of(matches),
        statistics: is_on(matches, "statistics"),
        input: matches.get_str("INPUT"),
        output: output_of(matches),
    }
}

/// What an error of `clap` says about the arguments.
fn fault_of(alloc: Global, error: &clap::Error) -> WordsFault
    ensures { AnswersKind (kind_of error.now) result }
{
    match error.kind() {
        ErrorKind::OutOfMemory => WordsFault::Memory,
        ErrorKind::DisplayHelp => match format!(in alloc; "{error}") {
            Ok(text) => WordsFault::Help(text),
            Err(_) => WordsFault::Memory,
        },
        _ => WordsFault::Faulty,
    }
}

/// What the arguments ask for. The first one is the program's name.
pub fn parse<'a>(alloc: Global, words: &'a [String]) -> Result<Request<'a>, WordsFault>
    ensures taken { IfOk result (λ r. AreTaken (map string_bytes words.entry.now)) }
    ensures asked { IfOk result (λ r. asked_in r ≡ request_in (map string_bytes words.entry.now)) }
    ensures refused { IfErr result (Explains (map string_bytes words.entry.now)) }
{
    let Ok(command) = command(alloc) else {
        return Err(WordsFault::Memory);
    };
    match command.try_get_matches_from(words) {
        Ok(matches) => Ok(request_of(&matches)),
        Err(error) => Err(fault_of(alloc, &error)),
    }
}
