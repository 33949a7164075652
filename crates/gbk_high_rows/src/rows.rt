//! The characters of two bytes. Written by tools/make_charsets.
pub(crate) mod gbk_high_d1;
pub(crate) mod gbk_high_f7;
