//! The grammar of entries: the stages in it, and where each token leads.
ghost use Rattle.std.specs.Prelude.{List, ◌≡◌, ℕ, ◌+◌, ◌<◌, ◌≤◌, ◌^◌};
ghost use Rattle.po_text.specs.Lexing.{string_of, token_view};
ghost use Rattle.po_text.specs.Stages.{step, stage_view, opened_stage, next_count};
ghost use Rattle.po_text.specs.Building.{opens};
ghost use Rattle.po_text.specs.Parsing.{context_opened};
ghost use Rattle.std.specs.Option.{option_map};

use crate::lexer::Token;
use crate::strings::StringBytes;

/// A stage in the grammar: what was read last of the current entry.
#[derive(Clone, Copy)]
pub(crate) enum Stage {
    Start,
    ContextWord,
    ContextText,
    IdWord,
    IdText,
    FormWord,
    FormText,
    PluralWord,
    PluralText,
    IndexOpen,
    IndexNumber,
    IndexClose,
    IndexedWord,
    IndexedText,
}

/// The number of complete forms after `token`, if there were `forms` before it.
pub(crate) fn forms_after(stage: Stage, token: Token, forms: u32) -> u32
    requires { forms + 1 < 2 ^ 32 }
    ensures is { result ≡ next_count stage token forms }
    ensures few { result ≤ forms + 1 }
{
    match (stage, token) {
        (Stage::PluralText, _) => 0,
        (Stage::IndexedText, Token::Str) => forms + 1,
        _ => forms,
    }
}

/// Whether the token, which is allowed at this stage, opens an entry.
pub(crate) fn opens_entry(stage: Stage, token: Token) -> bool
    ensures { (bytes : List ℕ) (k : ℕ) →
        opens (token_view token bytes) (stage_view stage k) ≡ context_opened result token }
{
    match (stage, token) {
        (_, Token::Context) => true,
        (Stage::ContextText, Token::Id) => false,
        (_, Token::Id) => true,
        _ => false,
    }
}

/// The stage after `token`, whose string is `bytes`, if `forms` forms are complete; None if the token isn't allowed
/// here.
#[tactic(auto, unfolding(crate::specs::Stages::step))]
pub(crate) fn next_stage(
    stage: Stage,
    token: Token,
    forms: u32,
    bytes: &StringBytes,
) -> Option<Stage>
    ensures { step (stage_view stage forms) (token_view token (string_of bytes.now))
        ≡ option_map (λ p. stage_view p (next_count stage token forms)) result }
{
    match (stage, token) {
        (Stage::Start | Stage::FormText | Stage::IndexedText, Token::Context) => Some(
            Stage::ContextWord,
        ),
        (Stage::ContextWord | Stage::ContextText, Token::Text) if !bytes.has_four() => Some(
            Stage::ContextText,
        ),
        (Stage::Start | Stage::ContextText | Stage::FormText | Stage::IndexedText, Token::Id) =>
            Some(Stage::IdWord),
        (Stage::IdWord | Stage::IdText, Token::Text) if !bytes.has_four() => Some(Stage::IdText),
        (Stage::IdText, Token::Str) => Some(Stage::FormWord),
        (Stage::FormWord | Stage::FormText, Token::Text) => Some(Stage::FormText),
        (Stage::IdText, Token::Plural) => Some(Stage::PluralWord),
        (Stage::PluralWord | Stage::PluralText, Token::Text) => Some(Stage::PluralText),
        (Stage::PluralText | Stage::IndexedText, Token::Str) => Some(Stage::IndexOpen),
        (Stage::IndexOpen, Token::Open) => Some(Stage::IndexNumber),
        (Stage::IndexNumber, Token::Number(n)) if n == forms => Some(Stage::IndexClose),
        (Stage::IndexClose, Token::Close) => Some(Stage::IndexedWord),
        (Stage::IndexedWord | Stage::IndexedText, Token::Text) => Some(Stage::IndexedText),
        _ => None,
    }
}
