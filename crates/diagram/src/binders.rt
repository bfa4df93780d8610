/// The types over which the binders above a node choose: that of the outermost one, and that of the next one.
#[derive(Clone, Copy, Debug, PartialEq, Eq)]
pub struct Binders {
    pub outer: Option<u16>,
    pub inner: Option<u16>,
}
