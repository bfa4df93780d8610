/// A tally: yes while fewer events of a label were told than the bound.
#[derive(Clone, Copy, Debug, PartialEq, Eq)]
pub struct Tally {
    pub label: u16,
    pub bound: u16,
    /// How many were told since it was set; it stops at 65,535.
    pub told: u16,
}
