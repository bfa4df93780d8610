/// A run of values: `first`, the next one, and so on, `count` of them.
// Anybody may build one with any numbers, so that it fits is no ghost field here: a table of ranges has it.
#[derive(Clone, Copy, Debug, PartialEq, Eq)]
pub struct Range {
    pub first: u16,
    pub count: u16,
}
