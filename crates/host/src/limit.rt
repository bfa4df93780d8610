/// What a limit looks at.
#[derive(Clone, Copy, Debug, PartialEq, Eq)]
pub enum Operand {
    /// The outer variable.
    Outer,
    /// The inner variable.
    Inner,
    /// The event's first argument.
    First,
    /// The event's second argument.
    Second,
}

/// How a limit compares what it looks at with its constant.
#[derive(Clone, Copy, Debug, PartialEq, Eq)]
pub enum Comparison {
    Below,
    Equal,
    Above,
}

/// A limit: yes if the operand is there and compares so with the constant.
#[derive(Clone, Copy, Debug, PartialEq, Eq)]
pub struct Limit {
    pub operand: Operand,
    pub comparison: Comparison,
    pub constant: u16,
}

/// A number that names no operand, or no comparison. The records have a type like it: one for both crates would have to stand in a third.
#[derive(Clone, Copy, Debug, PartialEq, Eq)]
pub struct UnknownNumber(pub u16);
