use crate::host_kind::HostKind;
use event::event::Event;

/// What a line of a script calls.
#[derive(Clone, Copy, Debug, PartialEq, Eq)]
pub enum Line {
    /// The guard host of the whole script.
    Host {
        kind: HostKind,
    },
    /// The values of a type.
    Range {
        ty: u16,
        first: u16,
        count: u16,
    },
    /// The limit of a guard.
    Limit {
        guard: u16,
        operand: u16,
        comparison: u16,
        constant: u16,
    },
    /// The tally of a guard.
    Tally {
        guard: u16,
        label: u16,
        bound: u16,
    },
    /// An opening with a ceiling of held states.
    Open {
        ceiling: u16,
    },
    /// An offer of an event, in form or not.
    Offer {
        event: Event,
    },
    /// A menu into so many places.
    Menu {
        places: u16,
    },
    /// The states that are held.
    Rows,
}
