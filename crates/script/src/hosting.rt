use host::limits::Limits;
use host::tallies::Tallies;

/// The guard host of a script: by limits or by tallies.
#[derive(Drop)]
pub enum Host {
    Limits(Limits),
    Tallies(Tallies),
}
