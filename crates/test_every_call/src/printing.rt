//! Printing results, without allocating.
use catalogue::Catalogue;
use po_header::RuleRead;
use std::io;

/// Prints that a call isn't made, because memory ran out before it.
pub fn print_uncalled<R: Print>(rt: &R) -> io::Result<()> {
    println!(rt; "isn't called: out of memory")
}

/// The name of what was read of a plural rule.
pub fn word_of(rule: &RuleRead) -> &'static str {
    match rule {
        RuleRead::Given { .. } => "Given",
        RuleRead::Absent => "Absent",
        RuleRead::Broken => "Broken",
    }
}

/// Prints bytes in hexadecimal.
pub fn print_hex<R: Print>(rt: &R, bytes: &[u8]) -> io::Result<()> {
    for byte in bytes {
        print!(rt; "{byte:02x}")?;
    }
    Ok(())
}

/// Prints each entry of a catalogue: its context, msgid, plural and forms, and for a plural message the forms for some
/// numbers.
pub fn print_entries<R: Print>(rt: &R, catalogue: &Catalogue) -> io::Result<()> {
    for i in 0..catalogue.len() {
        let entry = catalogue.entry(i);
        let id = entry.id();
        print!(rt; "; {:?} {id:?} {:?} =", entry.context(), entry.plural())?;
        for form in entry.forms() {
            print!(rt; " {form:?}")?;
        }
        if let Some(plural) = entry.plural() {
            for n in [0, 1, 5, 22, 112] {
                print!(rt; " {n}:{}", catalogue.ngettext(id, plural, n))?;
            }
        }
    }
    Ok(())
}
