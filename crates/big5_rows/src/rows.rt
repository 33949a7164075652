//! The characters of two bytes. Written by tools/make_charsets.
pub(crate) mod big5_a1;
pub(crate) mod big5_c8;
pub(crate) mod big5_ee;
