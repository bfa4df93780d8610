/// There are more rows than a list has places: those that were in it, and the successors that were to be added.
#[derive(Clone, Copy, Debug, PartialEq, Eq)]
pub struct Overflow;
