//! The characters of two bytes. Written by tools/make_charsets.
pub(crate) mod gbk_low_81;
pub(crate) mod gbk_low_a8;
