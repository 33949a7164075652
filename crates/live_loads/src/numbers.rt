//! The numbers by which programs outside Rattle know faults: C, and scripts.
ghost use Rattle.std.specs.Prelude.{◌≡◌, ◌≤◌};
ghost use Rattle.catalogue.specs.Meaning.{rank as po_rank};
ghost use Rattle.mo_file.specs.MoReading.{rank as mo_rank};

use catalogue::LoadKind;
use mo_file::MoFault;

/// The number of a PO text's fault: its rank in the order in which faults are reported, from 1 on.
pub fn po_number(kind: LoadKind) -> u32
    ensures number { result ≡ po_rank kind }
    ensures most { result ≤ 18 }
{
    match kind {
        LoadKind::TooLarge => 1,
        LoadKind::NotUtf8 => 2,
        LoadKind::BadEscape => 3,
        LoadKind::OpenString => 4,
        LoadKind::BadWord => 5,
        LoadKind::BadText => 6,
        LoadKind::BadOrder => 7,
        LoadKind::BadIndex => 8,
        LoadKind::Duplicate => 9,
        LoadKind::Charset => 10,
        LoadKind::SystemDependent => 11,
        LoadKind::NoRule => 12,
        LoadKind::BadRule => 13,
        LoadKind::FormCount => 14,
        LoadKind::PluralRange(_) => 15,
        LoadKind::FormatMismatch => 16,
        LoadKind::NewlineMismatch => 17,
        LoadKind::Memory => 18,
    }
}

/// The number of an MO file's fault, which is also its rank.
pub fn mo_number(fault: MoFault) -> u32
    ensures { result ≡ mo_rank fault }
{
    match fault {
        MoFault::TooLarge => 1,
        MoFault::Short => 2,
        MoFault::Magic => 3,
        MoFault::Revision => 4,
        MoFault::Bounds => 5,
        MoFault::NoNul => 6,
        MoFault::BadText => 7,
        MoFault::Forms => 8,
        MoFault::Order => 9,
        MoFault::Charset => 10,
        MoFault::Swollen => 11,
        MoFault::Memory => 12,
    }
}
