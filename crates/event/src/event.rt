/// An event as a caller gives it, ordered by its fields. It may be out of form, and `in_form` tells at which field,
/// so its count stands beside its values.
#[derive(Clone, Copy, Debug, PartialEq, Eq, PartialOrd, Ord)]
pub struct Event {
    pub label: u16,
    /// How many arguments it has.
    pub count: u16,
    pub first: u16,
    pub second: u16,
}
