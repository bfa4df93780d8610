use host::variables::Variables;

/// The variables in scope, each with the position of its value among those of its type. Positions are counted from 1, as in a row's cells;
/// that of a variable out of scope is 0.
#[derive(Clone, Copy, Debug, PartialEq, Eq)]
pub struct Scope {
    pub outer: usize,
    pub inner: usize,
    pub variables: Variables,
}
