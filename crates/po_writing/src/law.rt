//! Laws of the definition of written texts, as functions whose contracts state them.
ghost use Rattle.std.specs.Prelude.{◌≡◌, ◌≤◌, ℕ, Bool, false, List, length};
ghost use Rattle.message.specs.Message.{Entry};
ghost use Rattle.mo_image.specs.Map.{IsLawful};
ghost use Rattle.po_text.specs.Outcome.{max_text};
ghost use Rattle.catalogue.specs.Meaning.{Means, Refuses};
ghost use Rattle.po_checks.specs.declared.fault.LoadKind.{LoadKind};
ghost use Rattle.catalogue.specs.declared.Compiled.{Compiled};
ghost use Rattle.po_checks.specs.declared.options.Options.{Options};
ghost use Rattle.po_writing.specs.Laws.{Tells, translated_entries};
ghost use Rattle.po_writing.specs.Written.{po_of};

/// The text that is written of a lawful map is read as the entries of that map, in their order and without flags.
pub fn written_is_read()
    ensures { (escape : Bool) (m : List Entry) → IsLawful m → length (po_of escape m) ≤ max_text
        → Tells (po_of escape m) m }
{}

/// Whatever that text compiles to has the entries of the map whose first form isn't empty, and no others.
pub fn written_is_compiled()
    ensures { (escape : Bool) (m : List Entry) (options : Options) (compiled : Compiled) → IsLawful m
        → length (po_of escape m) ≤ max_text → Means (po_of escape m) options compiled
        → compiled.catalogue ≡ translated_entries m }
{}

/// That text isn't refused, unless formats, newlines and plural rules are checked as well.
pub fn written_is_accepted()
    ensures { (escape : Bool) (m : List Entry) (options : Options) (kind : LoadKind) (line : ℕ) → IsLawful m
        → length (po_of escape m) ≤ max_text → options.checked ≡ false
        → ¬ Refuses (po_of escape m) options kind line }
{}
