//! A law of lists of loads, as a function whose contract states it.
ghost use Rattle.live_set.specs.Laws.{LatestSuffice};

/// For each domain and locale, a list of loads gives the catalogue that its latest loads give: those that no later load
/// for the same domain and locale replaces. So a store that joins late needs only these. Calling this function does
/// nothing; its contract is the law.
pub fn latest_suffice()
    ensures { LatestSuffice }
{}
