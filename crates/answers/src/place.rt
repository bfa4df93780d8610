use diagram::binders::Binders;
use notation::arrow::Arrow;

/// Where a guard is asked: under the binders above a node, and at which arrow, if it is an arrow's.
#[derive(Clone, Copy)]
pub(crate) struct Place {
    pub(crate) guard: u16,
    pub(crate) binders: Binders,
    pub(crate) arrow: Option<Arrow>,
}
