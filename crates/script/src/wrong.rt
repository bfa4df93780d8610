use crate::name::Name;

/// What is wrong with a line of a script.
#[derive(Clone, Copy, Debug, PartialEq, Eq)]
pub enum Wrong {
    /// Its first word names no call.
    NoSuchCall,
    /// It says not which of the two hosts is meant.
    NoSuchHost,
    /// It has fewer numbers than its call takes.
    TooFew(Name),
    /// It has more numbers than its call takes.
    TooMany(Name),
    /// A word of it is no number up to 65,535.
    NoNumber,
    /// It chooses a host after another call.
    LateHost,
    /// It sets a limit of a host by tallies.
    NoLimits,
    /// It sets a tally of a host by limits.
    NoTallies,
}
