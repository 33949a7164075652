//! Laws of the definition of MO files, as functions whose contracts state them.
ghost use Rattle.std.specs.Prelude.{◌≡◌, ℕ, ◌<◌, List};
ghost use Rattle.catalogue.specs.Entry.{Entry};
ghost use Rattle.catalogue.specs.Map.{IsLawful};
ghost use Rattle.catalogue.specs.MoFile.{spelling};
ghost use Rattle.mo_file.specs.MoReading.{file_of, rank, IsMoFile, Mo, Passes, Refused};
ghost use Rattle.mo_file.specs.declared.fault.MoFault.{MoFault};

/// Bytes are an MO file of exactly one map, or a refusal holds: never both, and never neither.
pub fn one_map()
    ensures unique { (bytes : List ℕ) (m n : List Entry) → Mo bytes m → Mo bytes n → m ≡ n }
    ensures refused { (bytes : List ℕ) (m : List Entry) (fault : MoFault) → rank fault < 12 → Refused bytes fault
        → ¬ Mo bytes m }

    // This goes for every refusal, not only the first one: if any holds there is no map, and if none holds there is
    // one.
    ensures any { (bytes : List ℕ) (m : List Entry) (fault : MoFault) → ¬ Passes (file_of bytes) fault → ¬ Mo bytes m }
    ensures passed { (bytes : List ℕ) → ((fault : MoFault) → Passes (file_of bytes) fault) → IsMoFile bytes }
    ensures some { (bytes : List ℕ) → ((m : List Entry) → ¬ Mo bytes m)
        → ¬ ¬ ((fault : MoFault) × (rank fault < 12) × Refused bytes fault) }
{}

/// The file that is written of a lawful map is an MO file of that map.
pub fn written_is_read()
    ensures { (m : List Entry) → IsLawful m → Mo (spelling m) m }
{}
