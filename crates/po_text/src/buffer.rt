//! `EntryBuffer`: an entry in buffers that are reused.
ghost use Rattle.std.specs.Prelude.{◌≡◌, ℕ, ◌+◌, ◌-◌, ◌<◌, ◌≤◌, [], drop, length};
ghost use Rattle.std.specs.Prelude.{take, OnOk, IfOk, Some, map, slice_get, slice_index, string_bytes};
ghost use Rattle.std.specs.Option.{option_map};
ghost use Rattle.std.specs.Str.{IsUtf8};
ghost use Rattle.po_text.specs.Building.{begin, draft_of, first_or, lines_with_form, put, put_text, some_if};
ghost use Rattle.po_text.specs.Entries.{no_entry};
ghost use Rattle.po_text.specs.Lawful.{IsLawfulTexts};
ghost use Rattle.po_text.specs.Lexing.{token_view};
ghost use Rattle.po_text.specs.Stages.{stage_view};
ghost use Rattle.po_text.specs.Spelling.{IsLawful};
ghost use Rattle.po_text.specs.Views.{content, entry_view};

use crate::entry::PoEntry;
use crate::flags::Flags;
use crate::lexer::Token;
use crate::stages::Stage;
use std::alloc::{AllocError, Global};
use std::marker::Model;

/// The lines of an entry's first keyword and of its first `msgstr`.
#[derive(Clone, Copy)]
struct Lines {
    entry: u32,
    form: u32,
}

/// An entry in reusable buffers: reading allocates only when an entry is larger than those before it. Its plural forms
/// are stored back to back.
///
/// Contracts see the entry that it holds. The strings that the methods return are borrowed from the buffers; they are
/// always UTF-8 without NUL, and the context and the msgid have no byte 4.
#[derive(Drop)]
pub struct EntryBuffer {
    lines: Lines,
    flags: Flags,
    has_context: bool,
    context: Vec<u8>,
    id: Vec<u8>,
    has_plural: bool,
    plural: Vec<u8>,
    forms: Vec<u8>,
    starts: Vec<usize>,
}

impl Model for EntryBuffer {
    ghost use Rattle.po_text.specs.Entries.{Entry};

    ghost Value = { Entry };

    ghost use Rattle.po_text.specs.Buffers.{IsWellBuilt, entry_in};

    ghost view = { entry_in };

    ghost invariant = { IsWellBuilt };
}

/// These bytes as a string slice.
fn text_of(bytes: &[u8]) -> &str
    requires { IsUtf8 bytes.now }
    ensures { result.now ≡ bytes.now }
{
    unsafe { str::from_utf8_unchecked(bytes) }
}

/// The bytes from `start` to `end` as a string slice.
fn text_between(bytes: &[u8], start: usize, end: usize) -> &str
    requires rises { start ≤ end }
    requires within { end ≤ length bytes.now }
    requires utf8 { IsUtf8 (take (end - start) (drop start bytes.now)) }
    ensures { result.now ≡ take (end - start) (drop start bytes.now) }
{
    text_of(&bytes[start..end])
}

/// Where a form ends: where the next one starts, or at `end` for the last form.
fn form_end(later: &[usize], end: usize) -> usize
    ensures { result ≡ first_or later.now end }
{
    match later {
        [] => end,
        [next, ..] => *next,
    }
}

/// Where the form with index `k` starts and ends.
fn form_bounds(starts: &[usize], end: usize, k: usize) -> (usize, usize)
    requires { k < length starts.now }
    ensures start { result.0 ≡ slice_index starts.now k }
    ensures end { result.1 ≡ first_or (drop (k + 1) starts.now) end }
{
    (starts[k], form_end(&starts[k + 1..], end))
}

/// The lines of an entry after a `msgstr` on this line.
fn lines_after(stage: Stage, line: u32, lines: Lines) -> Lines
    ensures { (k : ℕ) → result ≡ lines_with_form (stage_view stage k) line lines }
{
    match stage {
        Stage::IndexedText => lines,
        _ => Lines {
            form: line,
            ..lines
        },
    }
}

/// An owned copy of a text, if there is one.
fn copy_of(alloc: Global, text: Option<&str>) -> Result<Option<String>, AllocError>
    ensures { IfOk result (λ copy.
        option_map (λ s. string_bytes s) copy ≡ option_map (λ s. s.now) text.entry) }
{
    match text {
        Some(text) => {
            let copy = String::from_str(alloc, text)?;
            Ok(Some(copy))
        }
        None => Ok(None),
    }
}

impl EntryBuffer {
    ghost use Rattle.po_text.specs.Buffers.{CanAdd, CanAddText};

    /// An empty buffer; allocates nothing.
    pub fn new(alloc: Global) -> EntryBuffer
        ensures { result ≡ no_entry }
    {
        EntryBuffer {
            lines: Lines { entry: 0, form: 0 },
            flags: Flags::NONE,
            has_context: false,
            context: Vec::new(alloc),
            id: Vec::new(alloc),
            has_plural: false,
            plural: Vec::new(alloc),
            forms: Vec::new(alloc),
            starts: Vec::new(alloc),
        }
    }

    /// The line of the entry's first keyword, counted from 1.
    pub fn line(&self) -> u32
        ensures { result ≡ self.now.line }
    {
        self.lines.entry
    }

    /// The line of the entry's first `msgstr`, counted from 1.
    pub fn form_line(&self) -> u32
        ensures { result ≡ self.now.form_line }
    {
        self.lines.form
    }

    /// Whether the entry is flagged `fuzzy`.
    pub fn is_fuzzy(&self) -> bool
        ensures { result ≡ self.now.fuzzy }
    {
        self.flags.fuzzy
    }

    /// Whether the entry is flagged `c-format`.
    pub fn is_c_format(&self) -> bool
        ensures { result ≡ self.now.c_format }
    {
        self.flags.c_format
    }

    /// The other languages whose formats the entry is flagged with.
    pub fn formats(&self) -> format_flags::Flags
        ensures { result ≡ self.now.formats }
    {
        self.flags.formats
    }

    /// The entry's `msgctxt`, if it has one.
    pub fn context(&self) -> Option<&str>
        ensures { option_map (λ text. text.now) result ≡ self.now.context }
    {
        if self.has_context {
            Some(text_of(&self.context))
        } else {
            None
        }
    }

    /// The entry's `msgid`.
    pub fn id(&self) -> &str
        ensures { result.now ≡ self.now.id }
    {
        text_of(&self.id)
    }

    /// The entry's `msgid_plural`, if it has one.
    pub fn plural(&self) -> Option<&str>
        ensures { option_map (λ text. text.now) result ≡ self.now.plural }
    {
        if self.has_plural {
            Some(text_of(&self.plural))
        } else {
            None
        }
    }

    /// How many forms the entry has.
    pub fn form_count(&self) -> usize
        ensures count { result ≡ length self.now.forms }

        // The texts are UTF-8 without NUL, and a context and a msgid have no byte 4.
        ensures lawful { IsLawfulTexts self.now }
    {
        self.starts.len()
    }

    /// The form with index `k`, counted from 0.
    pub fn form(&self, k: usize) -> &str
        requires { k < length self.now.forms }
        ensures { slice_get self.now.forms k ≡ Some result.now }
    {
        let (start, end) = form_bounds(&self.starts, self.forms.len(), k);
        text_between(&self.forms, start, end)
    }

    /// Copies the entry into strings of its own; fails only if memory runs out.
    pub fn to_entry(&self, alloc: Global) -> Result<PoEntry, AllocError>
        ensures { IfOk result (λ entry. entry_view entry ≡ content self.now) }
    {
        let context = copy_of(alloc, self.context())?;
        let id = String::from_str(alloc, self.id())?;
        let plural = copy_of(alloc, self.plural())?;
        let forms = self.copy_forms(alloc)?;
        Ok(PoEntry {
            line: self.line(),
            fuzzy: self.is_fuzzy(),
            c_format: self.is_c_format(),
            context,
            id,
            plural,
            forms,
        })
    }

    /// An owned copy of each form.
    fn copy_forms(&self, alloc: Global) -> Result<Vec<String>, AllocError>
        ensures { IfOk result (λ forms.
            map (λ form. string_bytes form) forms.items ≡ self.now.forms) }
    {
        let count = self.form_count();
        let mut forms = Vec::with_capacity(alloc, count)?;
        'forms: for k in 0..count {
            let form = String::from_str(alloc, self.form(k))?;
            forms.push(form)?;
        }
        Ok(forms)
    }

    /// Begins an entry whose opening keyword is on this line.
    pub(crate) fn begin(&mut self, line: u32, flags: Flags, has_context: bool)
        ensures { draft_of self.new ≡ begin line flags (some_if has_context []) }
    {
        self.lines = Lines {
            entry: line,
            form: 0,
        };
        self.flags = flags;
        self.has_context = has_context;
        self.context.clear();
        self.id.clear();
        self.has_plural = false;
        self.plural.clear();
        self.forms.clear();
        self.starts.clear();
    }

    /// Appends a string to the part of the entry that `stage` is in.
    fn put_text(&mut self, stage: Stage, bytes: &[u8]) -> Result<(), AllocError>
        requires lawful { IsLawful bytes.now }
        requires stands { (k : ℕ) → CanAddText (stage_view stage k) bytes.now (draft_of self.old) }
        ensures { (k : ℕ) → OnOk result
            (draft_of self.new ≡ put_text (stage_view stage k) bytes.now (draft_of self.old)) }
    {
        match stage {
            Stage::ContextWord | Stage::ContextText => self.context.extend_from_slice(bytes),
            Stage::IdWord | Stage::IdText => self.id.extend_from_slice(bytes),
            Stage::PluralWord | Stage::PluralText => self.plural.extend_from_slice(bytes),
            _ => self.forms.extend_from_slice(bytes),
        }
    }

    /// Adds a token on this line that doesn't open an entry.
    pub(crate) fn put(
        &mut self,
        stage: Stage,
        token: Token,
        line: u32,
        bytes: &[u8],
    ) -> Result<(), AllocError>
        requires { (k : ℕ) →
            CanAdd (token_view token bytes.now) (stage_view stage k) (draft_of self.old) }
        ensures { (k : ℕ) → OnOk result (draft_of self.new
            ≡ put (token_view token bytes.now) line (stage_view stage k) (draft_of self.old)) }
    {
        match token {
            Token::Text => self.put_text(stage, bytes),
            Token::Plural => {
                self.has_plural = true;
                self.plural.clear();
                Ok(())
            }
            Token::Str => {
                self.lines = lines_after(stage, line, self.lines);
                self.starts.push(self.forms.len())?;
                Ok(())
            }
            _ => Ok(()),
        }
    }
}
