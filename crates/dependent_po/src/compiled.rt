//! What a PO text compiles to where its formats may name macros.

use catalogue::Stats;
use mo_dependent::Dependent;
use mo_segments::Strings;

/// What a PO text compiles to.
#[derive(Drop)]
pub struct DependentCompiled {
    /// The messages without a split, in rising order of their keys' bytes.
    pub statics: Vec<Strings>,
    /// The messages with a split, in the order of the PO text.
    pub dependents: Vec<Dependent>,
    pub stats: Stats,
    /// Which of the eight fields (`po_header::FIELD_NAMES`) the kept header lacks; all `false` unless `checked` was set
    /// and there is a kept header.
    pub missing: [bool; 8],
    /// The line of the kept header, or 0 if there is none.
    pub header_line: u32,
}
