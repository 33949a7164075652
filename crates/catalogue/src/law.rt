//! The law of what PO texts mean.
ghost use Rattle.catalogue.specs.Laws.{HasOneMeaning, HasOneRefusal, MeansOrIsRefused, HasSomeMeaning};

/// A PO text has exactly one meaning at given options: it compiles to one catalogue with its counts, or it is refused
/// with one kind at one line, and never both nor neither. So the text and the options alone determine the result of
/// `compile`, except for `Memory`. The function does nothing; its contract is the law.
pub fn one_meaning()
    ensures meaning { HasOneMeaning }
    ensures refusal { HasOneRefusal }
    ensures apart { MeansOrIsRefused }
    ensures some { HasSomeMeaning }
{}
