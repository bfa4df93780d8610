ghost use Rattle.std.specs.Prelude.{◌≡◌, ◌<◌, length, Some};
ghost use Rattle.std.specs.List.{slice_get};
ghost use Rattle.diagram.specs.Plans.{nodes_of};
ghost use Rattle.diagram.specs.Opening.{Opens};

use crate::plan::Plan;
use notation::node::Node;

impl Plan {
    /// The node of a number, which opens its tree.
    pub fn node(&self, i: usize) -> Node
        requires is_node { i < length (nodes_of self.now) }
        ensures is_the_node { slice_get (nodes_of self.now) i ≡ Some result }
        ensures opens_its_tree { Opens self.now i result }
    {
        self.procedure.nodes()[i]
    }
}
