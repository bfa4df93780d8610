use crate::type_values::TypeValues;
use procedure::procedure::Procedure;

/// A procedure whose types have their values, so that each of its nodes stands for a tree.
#[derive(Clone, Copy)]
pub struct Plan {
    pub procedure: Procedure,
    pub values: TypeValues,
}
