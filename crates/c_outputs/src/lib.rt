//! What is made of a catalogue that C holds, or of a PO text: a PO text, or the faults of its formats.
#![tactic(auto)]

mod outputs;

pub use outputs::{
    HeldOutput, Output, check_formats, close_output, output_number, output_size, output_text,
    recode, write_text,
};
