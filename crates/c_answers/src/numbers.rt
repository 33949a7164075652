//! The numbers that C and this library share. C has them in `kobdzila.h` (`enum kob_fault`) and in its files.

// Why an operation failed. The faults of an MO file have the numbers of `live_loads`, and so has memory.
pub const NO_FAULT: u32 = 0;

pub const MEMORY: u32 = 12;

// Those of the system-dependent part of an MO file.
pub const DEPENDENT_TABLES: u32 = 13;

pub const DEPENDENT_SEGMENT: u32 = 14;

pub const DEPENDENT_DESCRIPTOR: u32 = 15;

pub const DEPENDENT_SEGMENT_NUMBER: u32 = 16;

pub const DEPENDENT_TEXT: u32 = 17;

pub const DEPENDENT_OPEN_TEXT: u32 = 18;

pub const DEPENDENT_SWOLLEN: u32 = 19;

// A byte of an MO file has no character in the charset that the header names.
pub const MO_NO_CHARACTER: u32 = 20;

// Those of a PO text have theirs from 100 on, but for memory, which is 18 there.
pub const PO_FAULTS: u32 = 100;

pub const PO_MEMORY: u32 = 18;

// A byte of a PO text has no character in the charset that the header names.
pub const NO_CHARACTER: u32 = 119;

// The MO file that was written of a PO text doesn't read as its messages.
pub const NOT_READ_BACK: u32 = 120;

// Faults of sets and stores. `BUSY` isn't in `kobdzila.h`: C's functions return 0 or NULL instead.
pub const BAD_NAME: u32 = 202;

pub const BUSY: u32 = 203;

pub const VERSIONS_SPENT: u32 = 204;

// A PO text whose memory is gone may be opened as something else than UTF-8. It isn't in `kobdzila.h`: C's functions
// read the text once more.
pub const WANTED_AGAIN: u32 = 205;

// Which number of a value is wanted: of a catalogue,
pub const FAULT: u32 = 0;

pub const LINE: u32 = 1;

pub const COUNT: u32 = 2;

pub const FORMS: u32 = 3;

pub const HAS_CONTEXT: u32 = 4;

pub const HAS_PLURAL: u32 = 5;

// and of the PO text that it was compiled from,
pub const TRANSLATED: u32 = 6;

pub const FUZZY: u32 = 7;

pub const UNTRANSLATED: u32 = 8;

// and of a fault of a format,
pub const FAULT_LINE: u32 = 3;

pub const FAULT_LANGUAGE: u32 = 4;

pub const FAULT_FORM: u32 = 5;

pub const FAULT_DIFFERENCE: u32 = 6;

// and of a set, a store or a reader, which also have `FAULT`.
pub const VERSION: u32 = 1;

pub const PENDING: u32 = 2;

pub const RETAINED: u32 = 3;

// Which string of a catalogue is wanted.
pub const FILE_BYTES: u32 = 0;

pub const CONTEXT: u32 = 1;

pub const MSGID: u32 = 2;

pub const PLURAL: u32 = 3;

pub const FORM: u32 = 4;

// The calls.
pub const GETTEXT: u32 = 0;

pub const PGETTEXT: u32 = 1;

pub const NGETTEXT: u32 = 2;

pub const NPGETTEXT: u32 = 3;
