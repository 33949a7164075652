//! The characters of two bytes. Written by tools/make_charsets.
pub(crate) mod gb2312_a1;
pub(crate) mod gb2312_ec;
