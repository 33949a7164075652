//! The words of the header that revisions other than 0.0 have.
ghost use Rattle.std.specs.Prelude.{◌≡◌, ◌↔◌, ◌≤◌, length, IsTrue};
ghost use Rattle.mo_image.specs.MoFile.{header_len};
ghost use Rattle.mo_file.specs.MoReading.{file_by};
ghost use Rattle.mo_revisions.specs.Revisions.{IsKnownRevision, minor};

use byteorder::ByteOrder;
use mo_image::REVISION_AT;
use mo_tables::word;

/// Where the header has the number of segments.
pub(crate) const SEGMENT_COUNT_AT: usize = 28;

/// Where the header has the offset of the segments' table.
pub(crate) const SEGMENTS_AT: usize = 32;

/// The length of a header with a system-dependent part.
pub(crate) const LONG_HEADER_LEN: usize = 48;

/// What the major revision is multiplied by.
const MAJOR: usize = 65_536;

/// The minor revision.
pub(crate) fn minor<T: ByteOrder>(bytes: &[u8]) -> usize
    requires { header_len ≤ length bytes.now }
    ensures { result ≡ minor (file_by T.number_of bytes.now) }
{
    word::<T>(bytes, REVISION_AT) % MAJOR
}

/// Whether the revision is one that is read: 0 or 1, and 0 or 1.
pub(crate) fn is_known_revision<T: ByteOrder>(bytes: &[u8]) -> bool
    requires { header_len ≤ length bytes.now }
    ensures { IsTrue result ↔ IsKnownRevision (file_by T.number_of bytes.now) }
{
    word::<T>(bytes, REVISION_AT) / MAJOR <= 1 && minor::<T>(bytes) <= 1
}
