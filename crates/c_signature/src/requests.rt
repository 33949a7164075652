//! The arguments that directives ask for, and their list.
ghost use Rattle.std.specs.Prelude.{◌≡◌, ◌↔◌, IsTrue, slice_get, [], ◌∷◌, List, map, OnOk, IfOk, IfErr};
ghost use Rattle.c_signature.specs.Signature.{amount_requests, AsksFor, ByNumber, HasNoList, Request, request};
ghost use Rattle.c_signature.specs.declared.ArgKind.{ArgKind as Kind};
ghost use Rattle.c_signature.specs.FormatScanning.{asked_by};
ghost use Rattle.c_signature.specs.Readers.{amount_view};
ghost use Rattle.c_signature.specs.Asked.{AddsAsked, KeepsAsked, IsInvalidOnly, IsRising, request_of};

use crate::conversions::Argument;
use crate::directives::Directive;
use crate::parts::Amount;
use crate::{ArgKind, FormatFault, Size};
use std::alloc::{AllocError, Global};

/// A numbered argument.
#[derive(Clone, Copy)]
pub(crate) struct Row {
    pub(crate) number: u32,
    pub(crate) kind: ArgKind,
}

/// The arguments asked for so far, with the numbered ones kept separately.
#[derive(Drop)]
pub(crate) struct Requests {
    pub(crate) unnumbered: Vec<ArgKind>,
    pub(crate) numbered: Vec<Row>,
}

/// Whether the kind at this index is this one.
fn is_at(kinds: &[ArgKind], index: usize, kind: ArgKind) -> bool
    ensures { IsTrue result ↔ (slice_get kinds.now index ≡ Some kind) }
{
    match kinds.get(index) {
        Some(found) => *found == kind,
        None => false,
    }
}

/// The kinds in the order of their numbers; `rows` must be sorted by number.
fn list_rows(rows: &[Row], mut kinds: Vec<ArgKind>) -> Result<Vec<ArgKind>, FormatFault>
    requires empty { kinds.items ≡ [] }
    requires rising { IsRising rows.now }
    ensures ok { IfOk result (λ kinds. ByNumber (map request_of rows.now) kinds.items) }
    ensures err { IfErr result (λ fault. IsInvalidOnly fault
        ((kinds : List Kind) → ¬ ByNumber (map request_of rows.now) kinds)) }
{
    'rows: for row in rows {
        let Some(index) = (row.number as usize).checked_sub(1) else {
            return Err(FormatFault::Invalid)
        };
        if index == kinds.len() {
            kinds.push(row.kind)?;
        } else if !is_at(&kinds, index, row.kind) {
            return Err(FormatFault::Invalid);
        }
    }
    Ok(kinds)
}

impl Requests {
    pub(crate) fn new(alloc: Global) -> Self
        ensures { KeepsAsked [] result }
    {
        Requests {
            unnumbered: Vec::new(alloc),
            numbered: Vec::new(alloc),
        }
    }

    /// Adds an argument: the next one, or the one with this number.
    fn ask(&mut self, number: Option<u32>, kind: ArgKind) -> Result<(), AllocError>
        ensures { OnOk result (AddsAsked self.old self.new (request number kind ∷ [])) }
    {
        match number {
            None => self.unnumbered.push(kind)?,
            Some(number) => self.numbered.push(Row { number, kind })?,
        }
        Ok(())
    }

    fn ask_amount(&mut self, amount: Amount) -> Result<(), AllocError>
        ensures { OnOk result (AddsAsked self.old self.new (amount_requests (amount_view amount))) }
    {
        match amount {
            Amount::Fixed => Ok(()),
            Amount::Asked(number) => self.ask(number, ArgKind::Signed(Size::Plain)),
        }
    }

    /// Adds the arguments of a directive.
    pub(crate) fn add(&mut self, directive: Directive) -> Result<(), AllocError>
        ensures { OnOk result (AddsAsked self.old self.new (asked_by directive)) }
    {
        self.ask_amount(directive.width)?;
        self.ask_amount(directive.precision)?;
        match directive.argument {
            Argument::One(kind) => self.ask(directive.number, kind),
            _ => Ok(()),
        }
    }

    /// The list of the arguments asked for; `Invalid` if they form none.
    pub(crate) fn list(self) -> Result<Vec<ArgKind>, FormatFault>
        ensures ok { IfOk result (λ kinds.
            (asked : List Request) → KeepsAsked asked self → AsksFor asked kinds.items) }
        ensures err { IfErr result (λ fault. IsInvalidOnly fault
            ((asked : List Request) → KeepsAsked asked self → HasNoList asked)) }
    {
        let Requests {
            unnumbered,
            mut numbered,
        } = self;
        if numbered.is_empty() {
            return Ok(unnumbered);
        }
        if !unnumbered.is_empty() {
            return Err(FormatFault::Invalid);
        }
        numbered.sort_unstable_by_key(|row| row.number);
        list_rows(&numbered, unnumbered)
    }
}
