//! The laws of an order of steps.
ghost use Rattle.verdict_words.specs.Laws.{CountsAll, FindsTheLast};

/// Why what is told is fresh: in an order of steps each step finds what the last step on its word left there, and a load of
/// the count finds the number of all entries that were published before it. The call does nothing.
pub fn what_is_found_is_fresh()
    ensures last { FindsTheLast }
    ensures count { CountsAll }
{}
