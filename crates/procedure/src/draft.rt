use notation::arrow::Arrow;
use notation::node::Node;
use notation::table::Table;
use std::marker::Model;

/// The nodes and arrows read so far, and of which node each node is a child. In contracts it is what is drawn.
#[derive(Drop)]
pub(crate) struct Draft {
    pub(crate) nodes: Table<Node, 64>,
    pub(crate) arrows: Table<Arrow, 256>,
    /// By the child's number: fixed memory in place of a map.
    pub(crate) parents: [Option<u16>; 64],
}

impl Model for Draft {
    ghost use Rattle.procedure.specs.Drawings.{Drawing};

    ghost Value = { Drawing };

    ghost use Rattle.procedure.specs.Drafts.{drawn, Faithful};

    ghost view = { drawn };

    ghost invariant = { Faithful };
}
