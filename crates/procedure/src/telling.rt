ghost use Rattle.std.specs.Prelude.{◌≡◌, length};
ghost use Rattle.std.specs.List.{slice_get};
ghost use Rattle.procedure.specs.Procedures.{drawing};

use crate::procedure::Procedure;
use notation::arrow::Arrow;
use notation::node::Node;

// nodes and arrows are two lists of two types, and each call names one: a generic call would have to be told which
impl Procedure {
    /// How many nodes it has.
    pub fn node_count(&self) -> usize
        ensures counts_nodes { result ≡ length (drawing self.now).nodes }
    {
        self.nodes.len()
    }

    /// How many arrows it has.
    pub fn arrow_count(&self) -> usize
        ensures counts_arrows { result ≡ length (drawing self.now).arrows }
    {
        self.arrows.len()
    }

    /// Its nodes by their numbers.
    pub fn nodes(&self) -> &[Node]
        ensures tells_the_nodes { result.now ≡ (drawing self.now).nodes }
    {
        self.nodes.as_slice()
    }

    /// Its arrows by their numbers.
    pub fn arrows(&self) -> &[Arrow]
        ensures tells_the_arrows { result.now ≡ (drawing self.now).arrows }
    {
        self.arrows.as_slice()
    }

    /// The node of a number, absent past the last.
    pub fn node(&self, number: usize) -> Option<Node>
        ensures tells_the_node { result ≡ slice_get (drawing self.now).nodes number }
    {
        self.nodes().get(number).copied()
    }

    /// The arrow of a number, absent past the last.
    pub fn arrow(&self, number: usize) -> Option<Arrow>
        ensures tells_the_arrow { result ≡ slice_get (drawing self.now).arrows number }
    {
        self.arrows().get(number).copied()
    }
}
