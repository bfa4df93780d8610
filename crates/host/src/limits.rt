use crate::guards::Guards;
use crate::limit::Limit;

/// A host by limits: one for each guard 0 to 31, or none until one is set.
pub type Limits = Guards<Limit>;
