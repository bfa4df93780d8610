/// An argument that an arrow asks of an event. A rule of the project makes the four kinds of a file one enum, absent among them.
#[derive(Clone, Copy, Debug, PartialEq, Eq)]
pub enum Argument {
    Absent,
    Constant(u16),
    /// The value of the outermost binder in scope.
    Outer,
    /// The value of the next binder in scope.
    Inner,
}

/// An arrow between two states of an automaton.
#[derive(Clone, Copy, Debug, PartialEq, Eq)]
pub struct Arrow {
    pub node: u16,
    pub from: u16,
    pub to: u16,
    pub label: u16,
    pub waits: bool,
    pub guard: Option<u16>,
    pub first: Argument,
    pub second: Argument,
}
