use opened::opened::Opened;

/// A run, which may not have been opened yet.
#[derive(Clone, Copy)]
pub struct Run {
    pub(crate) opened: Option<Opened>,
}
