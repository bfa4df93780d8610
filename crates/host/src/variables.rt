/// The variables in scope; one that is not is absent.
#[derive(Clone, Copy, Debug, PartialEq, Eq)]
pub struct Variables {
    pub outer: Option<u16>,
    pub inner: Option<u16>,
}
