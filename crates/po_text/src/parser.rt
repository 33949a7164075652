//! The parser: takes one token after another, and completes an entry when the next one begins or the text ends.
ghost use Rattle.std.specs.Prelude.{◌≡◌, ℕ, ◌+◌, ◌<◌, ◌≤◌, ◌^◌, ◌⊎◌, [], List, length, IfOk, IfErr, Some, false, true};
ghost use Rattle.std.specs.Bool.{OnTrue};
ghost use Rattle.po_text.specs.declared.fault.PoKind.TheVariants.{BadOrder};
ghost use Rattle.po_text.specs.Lexing.{token_view, string_of, IsLawfulToken};
ghost use Rattle.po_text.specs.Stages.{stage_view, next_count, step, IsBoundary};
ghost use Rattle.po_text.specs.Ends.{EndsText};
ghost use Rattle.po_text.specs.Faults.{out_of_memory};
ghost use Rattle.po_text.specs.Entries.{Entry};
ghost use Rattle.po_text.specs.Building.{Draft, draft_of, keyword_line};
ghost use Rattle.po_text.specs.Buffers.{HasForm};
ghost use Rattle.po_text.specs.Outcome.{IsFaulty};
ghost use Rattle.po_text.specs.Parsing.{is_context_word, StartTest, refusal};

use crate::buffer::EntryBuffer;
use crate::fault::{PoFault, PoKind};
use crate::flags::Flags;
use crate::lexer::{Lexer, Token};
use crate::stages::{Stage, forms_after, next_stage, opens_entry};
use crate::strings::StringBytes;
use std::alloc::{AllocError, Global};

/// Parses a text into entries, one at a time. Between two entries, the opening keyword of the next one has already been
/// read.
#[derive(Drop)]
pub(crate) struct Parser<'a> {
    lexer: Lexer<'a>,
    /// The bytes of the last string read.
    bytes: StringBytes<'a>,
    /// The stage in the grammar, after the last token.
    stage: Stage,
    /// The number of the entry's plural forms that are complete.
    count: u32,
    /// The line of the entry's opening keyword.
    line: u32,
    /// The entry's flags.
    entry_flags: Flags,
    /// The line of the last `msgctxt` or `msgid`.
    keyword_line: u32,
    /// Whether the text has ended.
    finished: bool,
}

fn is_context(stage: Stage) -> bool
    ensures { result ≡ is_context_word stage }
{
    matches!(stage, Stage::ContextWord)
}

fn is_start(stage: Stage) -> bool
    ensures { (k : ℕ) → StartTest result (stage_view stage k) }
{
    matches!(stage, Stage::Start)
}

/// The line of the last `msgctxt` or `msgid` once `token` is taken, if it was `old` before.
fn keyword_after(token: Token, line: u32, old: u32) -> u32
    ensures { (bytes : List ℕ) → result ≡ keyword_line (token_view token bytes) line old }
{
    match token {
        Token::Id => line,
        _ => old,
    }
}

/// The fault of a token that isn't allowed at this stage.
fn refusal_of(stage: Stage, token: Token, line: u32, keyword_line: u32) -> PoFault
    ensures { (bytes : List ℕ) (k : ℕ) →
        result ≡ refusal (token_view token bytes) (stage_view stage k) line keyword_line }
{
    match (token, stage) {
        (Token::Text, Stage::ContextWord | Stage::ContextText | Stage::IdWord | Stage::IdText) =>
            PoFault::new(PoKind::BadText, keyword_line),
        (Token::Number(_), Stage::IndexNumber) => PoFault::new(PoKind::BadIndex, line),
        _ => PoFault::new(PoKind::BadOrder, line),
    }
}

impl<'a> Parser<'a> {
    ghost use Rattle.po_text.specs.Parsing.{HasParsed, IsReady, TakesToken, KeepsForm};
    ghost use Rattle.po_text.specs.Parsing.{EndsRight, ParsesOn, Refused, left_in};

    /// A parser at the start of a text.
    pub(crate) fn new(alloc: Global, text: &'a [u8]) -> Parser<'a>
        requires ends { EndsText text.now }
        requires short { length text.now + 1 < 2 ^ 32 }
        ensures read { HasParsed text.now [] result }
        ensures ready { IsReady result }
    {
        Parser {
            lexer: Lexer::new(text),
            bytes: StringBytes::new(alloc),
            stage: Stage::Start,
            count: 0,
            line: 0,
            entry_flags: Flags::NONE,
            keyword_line: 0,
            finished: false,
        }
    }

    /// Takes a token that leads to `stage`; returns true if the token ends the entry by opening the next one.
    fn take(
        &mut self,
        token: Token,
        stage: Stage,
        into: &mut EntryBuffer,
    ) -> Result<bool, AllocError>
        requires room { self.old.count + 1 < 2 ^ 32 }
        requires lawful { IsLawfulToken (token_view token (string_of self.old.bytes)) }
        requires form { HasForm (stage_view self.old.stage self.old.count) (draft_of into.old) }
        requires stands { step (stage_view self.old.stage self.old.count) (token_view token (string_of self.old.bytes))
            ≡ Some (stage_view stage (next_count self.old.stage token self.old.count)) }
        ensures rest { self.new.lexer.rest.now ≡ self.old.lexer.rest.now }
        ensures line { self.new.lexer.line ≡ self.old.lexer.line }
        ensures count { self.new.count ≤ self.old.count + 1 }
        ensures finished { self.new.finished ≡ self.old.finished }
        ensures form { IfOk result (λ opened. KeepsForm opened self.new into.new) }
        ensures taken { IfOk result (λ opened. (done : List Draft) →
            TakesToken opened done (token_view token (string_of self.old.bytes)) self.old.lexer.line
            self.old into.old self.new into.new) }
    {
        let before = self.stage;
        self.stage = stage;
        if !opens_entry(before, token) {
            self.count = forms_after(before, token, self.count);
            self.keyword_line = keyword_after(token, self.lexer.line, self.keyword_line);
            into.put(before, token, self.lexer.line, self.bytes.as_slice())?;
            return Ok(false);
        }
        self.line = self.lexer.line;
        self.entry_flags = self.lexer.flags;
        self.keyword_line = self.lexer.line;
        self.lexer.flags = Flags::NONE;
        if is_start(before) {
            into.begin(self.line, self.entry_flags, is_context(stage));
            return Ok(false);
        }
        Ok(true)
    }

    /// Handles the end of the text: true if it ends an entry, false if the text has no entries, and `BadOrder` on line
    /// `last` if it ends in the middle of an entry.
    fn end(&mut self, last: u32) -> Result<bool, PoFault>
        ensures right { IfOk result (λ ended. EndsRight ended self.old) }
        ensures finished { IfOk result (λ _. self.new.finished ≡ true) }
        ensures fault { IfErr result (λ fault.
            (¬ IsBoundary (stage_view self.old.stage self.old.count))
            × (fault.kind ≡ BadOrder) × (fault.line ≡ last)) }
        ensures rest { self.new.lexer.rest.now ≡ self.old.lexer.rest.now }
        ensures line { self.new.lexer.line ≡ self.old.lexer.line }
        ensures count { self.new.count ≡ self.old.count }
    {
        match self.stage {
            Stage::Start => {
                self.finished = true;
                Ok(false)
            }
            Stage::FormText | Stage::IndexedText => {
                self.finished = true;
                Ok(true)
            }
            _ => Err(PoFault::new(PoKind::BadOrder, last)),
        }
    }

    /// The fault of a text whose last token isn't allowed here; a lexical fault in the rest of the text takes
    /// precedence.
    fn refuse(&mut self, token: Token) -> PoFault
        requires { self.old.lexer.line + length self.old.lexer.rest.now < 2 ^ 32 }
        ensures { (result ≡ out_of_memory) ⊎ ((text : List ℕ) →
            Refused text self.old.lexer.line self.old.lexer.rest.now
            (stage_view self.old.stage self.old.count) self.old.keyword_line
            (token_view token (string_of self.old.bytes))
            → IsFaulty text result.kind result.line) }
    {
        let fault = refusal_of(self.stage, token, self.lexer.line, self.keyword_line);
        match self.lexer.skip_tokens(&mut self.bytes) {
            Ok(()) => fault,
            Err(lexical) => lexical,
        }
    }

    /// Reads the next entry into `into`; returns false if there are no more.
    pub(crate) fn next_entry(&mut self, into: &mut EntryBuffer) -> Result<bool, PoFault>
        requires { IsReady self.old }
        ensures read { IfOk result (λ more. (text : List ℕ) (entries : List Entry) →
            HasParsed text entries self.old → ParsesOn more text entries into.new self.new) }
        ensures falls { IfOk result (λ more. OnTrue more (left_in self.new < left_in self.old)) }
        ensures ready { IfOk result (λ _. IsReady self.new) }
        ensures fault { IfErr result (λ fault. (fault ≡ out_of_memory)
            ⊎ ((text : List ℕ) (entries : List Entry) →
            HasParsed text entries self.old → IsFaulty text fault.kind fault.line)) }
    {
        if self.finished {
            return Ok(false);
        }
        into.begin(self.line, self.entry_flags, is_context(self.stage));
        'tokens: loop {
            let last = self.lexer.line;
            let Some(token) = self.lexer.next_token(&mut self.bytes)? else {
                return self.end(last)
            };
            let Some(stage) = next_stage(self.stage, token, self.count, &self.bytes) else {
                return Err(self.refuse(token))
            };
            if self.take(token, stage, into)? {
                return Ok(true);
            }
        }
    }
}
