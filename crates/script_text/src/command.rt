//! What a line of a script says.
ghost use Rattle.std.specs.Prelude.{◌≡◌, IfErr};
ghost use Rattle.script_text.specs.Commands.{call_of, load_line, load_mo_line, ask_line, command_line};
ghost use Rattle.script_text.specs.Commands.{is_blank, line_of, workers_line};
ghost use Rattle.script_text.specs.LineFields.{fields};
ghost use Rattle.script_text.specs.LineValues.{Reads, line_value};
ghost use Rattle.script_text.specs.CommandValues.{text_lines};
ghost use Rattle.live_set.specs.Asks.{ask_value};

use crate::fault::LineFault;
use crate::field::{
    read_hex, read_number, read_options, read_text, read_worker, read_worker_count,
};
use crate::fields::Fields;
use catalogue::Options;
use live_set::{Ask, Query};
use std::alloc::Global;
use std::marker::Model;

/// What a line says.
#[derive(Drop)]
pub enum Line {
    /// Nothing.
    Blank,
    /// The next `count` lines are a PO text.
    Loads {
        domain: String,
        locale: String,
        options: Options,
        count: u64,
    },
    /// An MO file.
    LoadsMo {
        domain: String,
        locale: String,
        bytes: Vec<u8>,
    },
    /// A worker is asked.
    Asks {
        worker: u32,
        query: Query,
    },
    /// The round ends.
    Goes,
}

impl Line {
    /// How many of the lines that follow are the text of this line's load.
    pub fn text_lines(&self) -> u64
        ensures { result ≡ text_lines (line_value self.now) }
    {
        match self {
            Line::Loads { count, .. } => *count,
            Line::Blank | Line::LoadsMo { .. } | Line::Asks { .. } | Line::Goes => 0,
        }
    }
}

/// A line with the text of its load. Contracts see the command that it is, if it says something.
#[derive(Drop)]
pub struct Said<'a> {
    pub line: Line,
    pub text: &'a [u8],
}

impl<'a> Model for Said<'a> {
    ghost use Rattle.std.specs.Prelude.{Option};
    ghost use Rattle.script_text.specs.LineValues.{line_value};
    ghost use Rattle.script_text.specs.Script.{Command};
    ghost use Rattle.script_text.specs.CommandValues.{command_with};

    ghost Value = { Option Command };

    ghost view = { λ s. command_with (line_value s.line) s.text.now };
}

/// A call by its name and its texts.
fn read_call(alloc: Global, name: &str, mut texts: Fields<'_>) -> Result<Ask, LineFault>
    ensures { Reads ask_value result (call_of name.now texts.entry) }
{
    match name {
        "gettext" => {
            let id = read_text(alloc, texts.next()?)?;
            texts.end()?;
            Ok(Ask::Plain { id })
        }
        "pgettext" => {
            let context = read_text(alloc, texts.next()?)?;
            let id = read_text(alloc, texts.next()?)?;
            texts.end()?;
            Ok(Ask::Context { context, id })
        }
        "ngettext" => {
            let id = read_text(alloc, texts.next()?)?;
            let plural = read_text(alloc, texts.next()?)?;
            let n = read_number(texts.next()?)?;
            texts.end()?;
            Ok(Ask::Number { id, plural, n })
        }
        "npgettext" => {
            let context = read_text(alloc, texts.next()?)?;
            let id = read_text(alloc, texts.next()?)?;
            let plural = read_text(alloc, texts.next()?)?;
            let n = read_number(texts.next()?)?;
            texts.end()?;
            Ok(Ask::ContextNumber {
                context,
                id,
                plural,
                n,
            })
        }
        _ => Err(LineFault::Bad),
    }
}

/// The fields after `load`.
fn read_load(alloc: Global, mut fields: Fields<'_>) -> Result<Line, LineFault>
    ensures { Reads line_value result (load_line fields.entry) }
{
    let domain = fields.next()?;
    let locale = fields.next()?;
    let options = read_options(fields.next()?)?;
    let count = read_number(fields.next()?)?;
    fields.end()?;
    Ok(Line::Loads {
        domain: String::from_str(alloc, domain)?,
        locale: String::from_str(alloc, locale)?,
        options,
        count,
    })
}

/// The fields after `loadmo`.
fn read_load_mo(alloc: Global, mut fields: Fields<'_>) -> Result<Line, LineFault>
    ensures { Reads line_value result (load_mo_line fields.entry) }
{
    let domain = fields.next()?;
    let locale = fields.next()?;
    let digits = fields.next()?;
    fields.end()?;
    let bytes = read_hex(alloc, digits)?;
    Ok(Line::LoadsMo {
        domain: String::from_str(alloc, domain)?,
        locale: String::from_str(alloc, locale)?,
        bytes,
    })
}

/// The fields after `ask`, in a script with this number of workers.
fn read_ask(alloc: Global, workers: u32, mut fields: Fields<'_>) -> Result<Line, LineFault>
    ensures { Reads line_value result (ask_line workers fields.entry) }
{
    let worker = read_worker(workers, fields.next()?)?;
    let domain = fields.next()?;
    let languages = fields.next()?;
    let name = fields.next()?;
    let ask = read_call(alloc, name, fields)?;
    let query = Query {
        domain: String::from_str(alloc, domain)?,
        languages: String::from_str(alloc, languages)?,
        ask,
    };
    Ok(Line::Asks { worker, query })
}

/// What a line says, by its first field.
fn read_command(alloc: Global, workers: u32, mut fields: Fields<'_>) -> Result<Line, LineFault>
    ensures { Reads line_value result (command_line workers fields.entry) }
{
    match fields.next()? {
        "load" => read_load(alloc, fields),
        "loadmo" => read_load_mo(alloc, fields),
        "ask" => read_ask(alloc, workers, fields),
        "go" => {
            fields.end()?;
            Ok(Line::Goes)
        }
        _ => Err(LineFault::Bad),
    }
}

/// Whether a line, without its LF, says nothing: it is empty, or a comment.
pub fn says_nothing(text: &str) -> bool
    ensures { result ≡ is_blank text.now }
{
    text.is_empty() || text.starts_with('#')
}

/// The number of workers in a line `workers`. `Bad` for any other line.
pub fn read_workers(text: &str) -> Result<u32, LineFault>
    ensures reads { Reads (λ n. n) result (workers_line (fields text.now)) }
    ensures bad { IfErr result (λ fault. fault ≡ LineFault.Bad) }
{
    let mut fields = Fields::new(text);
    let word = fields.next()?;
    let count = fields.next()?;
    fields.end()?;
    match word {
        "workers" => read_worker_count(count),
        _ => Err(LineFault::Bad),
    }
}

/// What a line, without its LF, says in a script with this number of workers. `Bad` if such a script can't have it.
pub fn read_line(alloc: Global, workers: u32, text: &str) -> Result<Line, LineFault>
    ensures { Reads line_value result (line_of workers text.now) }
{
    if says_nothing(text) {
        return Ok(Line::Blank);
    }
    read_command(alloc, workers, Fields::new(text))
}
