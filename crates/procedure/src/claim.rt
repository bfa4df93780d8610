ghost use Rattle.std.specs.Prelude.{◌≤◌, [], ◌∷◌, length};
ghost use Rattle.notation.specs.Parts.{children_of};

use fault::fault::{Fault, Question};
use notation::node::Node;

/// The claims of a node that is to have the number `node`, made in a copy of the draft's table, which says what is drawn and so cannot run ahead of it.
#[derive(Clone, Copy)]
pub(crate) struct Claims {
    pub(crate) parents: [Option<u16>; 64],
    pub(crate) node: u16,
    /// The number of the node's record.
    pub(crate) place: usize,
    ghost fits: { node ≤ length parents },
}

impl Claims {
    ghost use Rattle.procedure.specs.Claims.{Claimed};

    /// Claims one child.
    fn claim(&mut self, child: u16) -> Result<(), Fault>
        ensures { Claimed self.old (child ∷ []) result self.new }
    {
        if child >= self.node || self.parents[usize::from(child)].is_some() {
            return Err(Question::ChildrenFree.at(self.place));
        }
        self.parents[usize::from(child)] = Some(self.node);
        Ok(())
    }

    /// Question 6: claims each child of the node.
    pub(crate) fn claim_children(&mut self, node: &Node) -> Result<(), Fault>
        ensures { Claimed self.old (children_of node.now) result self.new }
    {
        let children = node.children();
        for child in children.as_slice() {
            self.claim(*child)?;
        }
        Ok(())
    }
}
