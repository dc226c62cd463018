//! The main laws of samples, of every project: each is what a function with nothing to do ensures.
//!
//! By the first two a range can be cut into parts that are handed out to any number of machines: what
//! they answer is put together without another look at the samples.
ghost use Rattle.key_sampling.specs.Laws.{ValuesAreThoseOfTheParts, BestIsTheBetterOfTheParts, BestIsUnique, BestIsComputed, ListByKeysIsFeasible};

/// The values of a range are those of its parts, joined.
pub fn values_are_those_of_the_parts()
    ensures { ValuesAreThoseOfTheParts }
{}

/// The best sample of a range is the better of the best ones of its parts.
pub fn best_is_the_better_of_the_parts()
    ensures { BestIsTheBetterOfTheParts }
{}

/// A range has one best sample.
pub fn best_is_unique()
    ensures { BestIsUnique }
{}

/// The best sample of a range is the computed one.
pub fn best_is_computed()
    ensures { BestIsComputed }
{}

/// Where there is a feasible list, each list by keys is feasible, whatever the keys.
pub fn list_by_keys_is_feasible()
    ensures { ListByKeysIsFeasible }
{}
