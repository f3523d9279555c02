//! Laws of searches. Each function does nothing: its contract is the law, a statement over the definitions alone.

ghost use Rattle.sm_successors.specs.Laws.{SearchBegins, SearchGoesOn};

/// Where nothing was looked for yet, a search is at any matching.
pub fn search_begins()
    ensures { SearchBegins }
{}

/// Once an exposed rotation is eliminated, a search goes on from where it was.
pub fn search_goes_on()
    ensures { SearchGoesOn }
{}
