use crate::table::Table;

/// Whether a state of an automaton is final: a grade of three, which an `Option` of two grades would say no plainer.
#[derive(Clone, Copy, Debug, PartialEq, Eq)]
pub enum Mark {
    Unmarked,
    /// Final, whatever its child does.
    Shallow,
    /// Final when its child is finished.
    Deep,
}

/// A state of an automaton. One without a child is elementary.
#[derive(Clone, Copy, Debug, PartialEq, Eq)]
pub struct State {
    pub mark: Mark,
    pub child: Option<u16>,
}

/// The states of an automaton by their numbers, and the one that it starts in. Places not in use are blank.
#[derive(Clone, Copy)]
pub struct States {
    pub start: u16,
    pub table: Table<State, 32>,
}

/// A set of labels. A reading lets only rising ones in, with 0 in the places not in use.
pub type Labels = Table<u16, 16>;

/// A node of a diagram. Children are given by their numbers, as in a file: there is no heap for boxes.
#[derive(Clone, Copy)]
pub enum Node {
    Closure {
        body: u16,
    },
    Automaton {
        states: States,
    },
    Sequence {
        first: u16,
        second: u16,
    },
    Guard {
        guard: u16,
        body: u16,
    },
    Choice {
        left: u16,
        right: u16,
    },
    Synchronisation {
        left: u16,
        right: u16,
        labels: Labels,
    },
    QuantifiedChoice {
        over: u16,
        body: u16,
    },
    QuantifiedSynchronisation {
        over: u16,
        body: u16,
        labels: Labels,
    },
}
