use crate::guards::Guards;
use crate::tally::Tally;

/// A host by tallies: one for each guard 0 to 31, or none until one is set.
pub type Tallies = Guards<Tally>;
