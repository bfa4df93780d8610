use notation::table::Table;

/// That by which arrows are looked up: their node, or their label. Either is below 256.
#[derive(Clone, Copy)]
pub enum Key {
    Node,
    Label,
}

/// The numbers of a plan's arrows key by key. Those of a key are the ones from its place in `starts` up to the next key's.
#[derive(Clone, Copy)]
pub struct KeyedArrows {
    pub(crate) numbers: Table<u8, 256>,
    pub(crate) starts: [u16; 257],
}
