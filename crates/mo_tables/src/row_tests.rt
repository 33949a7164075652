//! The tests of the entries that rows name. Rows are tested in their own order or, if their strings overlap, sorted by
//! where the strings begin, so that each byte is looked at once.
ghost use Rattle.std.specs.Prelude.{◌↔◌, IsTrue, IfOk, All};
ghost use Rattle.std.specs.List.Sorted.{IsPermutation};
ghost use Rattle.mo_tables.specs.FileParts.{IsStretch};
ghost use Rattle.mo_tables.specs.Rows.{RowLies, HasTexts, HasForms};

use crate::rows::{Row, Span};
use crate::stretch::Stretch;
use crate::strings::{
    have_one_form, keys_have_few_separators, originals_utf8, translations_utf8, without_plural,
};
use std::alloc::{AllocError, Global};

/// Sorts the rows by where their originals begin, if `sorts` is set.
fn by_originals(mut rows: Vec<Row>, sorts: bool) -> Vec<Row>
    ensures { IsPermutation rows.items result.items }
{
    if sorts {
        rows.sort_unstable_by_key(|row| row.original.start);
    }
    rows
}

/// Sorts the rows by where their translations begin, if `sorts` is set.
fn by_translations(mut rows: Vec<Row>, sorts: bool) -> Vec<Row>
    ensures { IsPermutation rows.items result.items }
{
    if sorts {
        rows.sort_unstable_by_key(|row| row.translation.start);
    }
    rows
}

/// Sorts the strings by where they begin, if `sorts` is set.
fn by_offsets(mut spans: Vec<Span>, sorts: bool) -> Vec<Span>
    ensures { IsPermutation spans.items result.items }
{
    if sorts {
        spans.sort_unstable_by_key(|span| span.start);
    }
    spans
}

/// Returns the stretch to begin with: the file from its first original on, if that is UTF-8.
fn first_stretch<'a>(bytes: &'a [u8], rows: &[Row]) -> Stretch<'a>
    requires { All (RowLies bytes.now) rows.now }
    ensures { IsStretch bytes.now result }
{
    match rows.first() {
        Some(row) => Stretch::to_end(bytes, row.original.start()),
        None => Stretch::to_end(bytes, bytes.len()),
    }
}

/// Whether all originals and translations are lawful texts.
pub(crate) fn have_texts(bytes: &[u8], rows: Vec<Row>, sorts: bool) -> bool
    requires { All (RowLies bytes.now) rows.items }
    ensures { IsTrue result ↔ All (HasTexts bytes.now) rows.items }
{
    let rows = by_originals(rows, sorts);
    let stretch = first_stretch(bytes, &rows);
    let Some(stretch) = originals_utf8(bytes, stretch, &rows) else {
        return false;
    };
    if !keys_have_few_separators(bytes, &rows) {
        return false;
    }
    let rows = by_translations(rows, sorts);
    match translations_utf8(bytes, stretch, &rows) {
        Some(_) => true,
        None => false,
    }
}

/// Whether all originals and translations have lawful forms.
pub(crate) fn have_forms(
    alloc: Global,
    bytes: &[u8],
    rows: Vec<Row>,
    sorts: bool,
) -> Result<bool, AllocError>
    requires { All (RowLies bytes.now) rows.items }
    ensures { IfOk result (λ yes. IsTrue yes ↔ All (HasForms bytes.now) rows.items) }
{
    let rows = by_originals(rows, sorts);
    let Some(spans) = without_plural(alloc, bytes, &rows)? else {
        return Ok(false);
    };
    let spans = by_offsets(spans, sorts);
    Ok(have_one_form(bytes, &spans))
}
