//! A file of revision 0.1, as GNU msgfmt writes it. The expected results are glibc's answers and the layout's.
use catalogue::Catalogue;
use mo_file::{MoFault, read_mo};
use mo_revisions::{AnyMoFault, read_any_mo, read_revised};
use mo_segments::DependentFault;
use std::alloc::Global;

/// `s` to `S`, and `n %<PRIu64>` to `%<PRIu64> N`, flagged c-format.
const DEPENDENT: &[u8; 159] = &[
    0xde, 0x12, 0x04, 0x95, 0x01, 0x00, 0x00, 0x00, 0x01, 0x00, 0x00, 0x00, 0x30, 0x00, 0x00, 0x00,
    0x38, 0x00, 0x00, 0x00, 0x05, 0x00, 0x00, 0x00, 0x40, 0x00, 0x00, 0x00, 0x01, 0x00, 0x00, 0x00,
    0x54, 0x00, 0x00, 0x00, 0x01, 0x00, 0x00, 0x00, 0x5c, 0x00, 0x00, 0x00, 0x60, 0x00, 0x00, 0x00,
    0x01, 0x00, 0x00, 0x00, 0x8c, 0x00, 0x00, 0x00, 0x01, 0x00, 0x00, 0x00, 0x8e, 0x00, 0x00, 0x00,
    0x01, 0x00, 0x00, 0x00, 0x00, 0x00, 0x00, 0x00, 0x00, 0x00, 0x00, 0x00, 0x00, 0x00, 0x00, 0x00,
    0x00, 0x00, 0x00, 0x00, 0x07, 0x00, 0x00, 0x00, 0x90, 0x00, 0x00, 0x00, 0x64, 0x00, 0x00, 0x00,
    0x78, 0x00, 0x00, 0x00, 0x97, 0x00, 0x00, 0x00, 0x03, 0x00, 0x00, 0x00, 0x00, 0x00, 0x00, 0x00,
    0x01, 0x00, 0x00, 0x00, 0xff, 0xff, 0xff, 0xff, 0x9b, 0x00, 0x00, 0x00, 0x01, 0x00, 0x00, 0x00,
    0x00, 0x00, 0x00, 0x00, 0x03, 0x00, 0x00, 0x00, 0xff, 0xff, 0xff, 0xff, 0x73, 0x00, 0x53, 0x00,
    0x50, 0x52, 0x49, 0x75, 0x36, 0x34, 0x00, 0x6e, 0x20, 0x25, 0x00, 0x25, 0x20, 0x4e, 0x00,
];

/// The place of the minor revision.
const MINOR_AT: usize = 4;

/// The place of the number of segments.
const SEGMENT_COUNT_AT: usize = 28;

/// The place of the segment's length.
const SEGMENT_LEN_AT: usize = 84;

/// Whether a catalogue has both messages, with the value of `PRIu64`.
fn has_both(catalogue: &Catalogue) -> bool {
    catalogue.len() == 2 && catalogue.gettext("s") == "S" && catalogue.gettext("n %lu") == "%lu N"
}

/// Why the file is refused once the byte at `at` is `byte`; `None` if it isn't.
fn refusal(alloc: Global, at: usize, byte: u8) -> Option<AnyMoFault> {
    let mut file = *DEPENDENT;
    if at < file.len() {
        file[at] = byte;
    }
    match read_any_mo(alloc, &file) {
        Ok(_) => None,
        Err(fault) => Some(fault),
    }
}

/// Whether the file is read as its two messages, and the strict reader refuses it.
fn reads_both(alloc: Global) -> bool {
    let is_refused = match read_mo(alloc, DEPENDENT) {
        Ok(_) => false,
        Err(fault) => fault == MoFault::Revision,
    };
    match read_any_mo(alloc, DEPENDENT) {
        Ok(catalogue) => is_refused && has_both(&catalogue),
        Err(_) => false,
    }
}

/// Whether the file is read as its two messages after the strict reader has refused it.
fn reads_revised(alloc: Global) -> bool {
    match read_mo(alloc, DEPENDENT) {
        Err(MoFault::Revision) => match read_revised(alloc, DEPENDENT) {
            Ok(catalogue) => has_both(&catalogue),
            Err(_) => false,
        },
        _ => false,
    }
}

#[test]
fn strings_that_depend_on_the_machine(rt: HostRuntime) {
    assert!(rt; reads_both(rt.alloc()));
    assert!(rt; reads_revised(rt.alloc()));
}

#[test]
fn faults_of_the_dependent_part(rt: HostRuntime) {
    let alloc = rt.alloc();
    assert!(rt; refusal(alloc, MINOR_AT, 2) == Some(AnyMoFault::Mo(MoFault::Revision)));
    assert!(rt; refusal(alloc, SEGMENT_COUNT_AT, 255) == Some(AnyMoFault::Tables));
    assert!(rt;
        refusal(alloc, SEGMENT_LEN_AT, 0) == Some(AnyMoFault::Dependent(DependentFault::Segment))
    );
}
