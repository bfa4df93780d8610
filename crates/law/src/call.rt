use event::event::Event;

/// A call on a run: an offer of an event, or a menu into so many places.
#[derive(Clone, Copy, Debug, PartialEq, Eq)]
pub enum Call {
    Offer { event: Event },
    Menu { places: usize },
}
