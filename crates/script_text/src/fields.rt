//! The fields of a line, one after another.
ghost use Rattle.std.specs.Prelude.{◌≡◌, ◌≢◌, [], ◌∷◌, MatchResult};
ghost use Rattle.std.specs.Option.{option_copied};
ghost use Rattle.script_text.specs.LineFields.{fields};
ghost use Rattle.script_text.specs.Scanning.{fields_left};

use crate::fault::LineFault;
use byte_text::split_at_byte;
use std::marker::Model;

/// The fields of a line that aren't read yet. Contracts see them as a list of texts.
#[derive(Drop)]
pub(crate) struct Fields<'a> {
    rest: Option<&'a str>,
}

impl<'a> Model for Fields<'a> {
    ghost use Rattle.std.specs.Prelude.{ℕ, List};
    ghost use Rattle.std.specs.Option.{option_copied};
    ghost use Rattle.script_text.specs.Scanning.{fields_left};

    ghost Value = { List (List ℕ) };

    ghost view = { λ f. fields_left (option_copied f.rest) };
}

/// The first field of a line, and what follows its tab, if it has one.
fn split_field(text: &str) -> (&str, Option<&str>)
    ensures { fields text.now ≡ result.0.now ∷ fields_left (option_copied result.1) }
{
    match split_at_byte(text, b'\t') {
        Some((field, rest)) => (field, Some(rest)),
        None => (text, None),
    }
}

impl<'a> Fields<'a> {
    /// The fields of a line.
    pub(crate) fn new(line: &'a str) -> Fields<'a>
        ensures { result ≡ fields line.now }
    {
        Fields { rest: Some(line) }
    }

    /// The next field. `Bad` if no field is left.
    pub(crate) fn next(&mut self) -> Result<&'a str, LineFault>
        ensures { MatchResult result (λ field. self.old ≡ field.now ∷ self.new)
            (λ fault. (fault ≡ LineFault.Bad) × (self.old ≡ [])) }
    {
        let Some(text) = self.rest else {
            return Err(LineFault::Bad);
        };
        let (field, rest) = split_field(text);
        self.rest = rest;
        Ok(field)
    }

    /// `Bad` if a field is left.
    #[tactic(auto, using(crate::proofs::Cutting::some_field))]
    pub(crate) fn end(&self) -> Result<(), LineFault>
        ensures { MatchResult result (λ _. self.now ≡ []) (λ fault. (fault ≡ LineFault.Bad) × (self.now ≢ [])) }
    {
        match self.rest {
            Some(_) => Err(LineFault::Bad),
            None => Ok(()),
        }
    }
}
