ghost use Rattle.std.specs.Prelude.{◌≡◌, ◌<◌, ◌≤◌, length, Some};
ghost use Rattle.std.specs.List.{slice_get};
ghost use Rattle.rules.specs.Cells.{width};
ghost use Rattle.diagram.specs.Valued.{values_of};
ghost use Rattle.diagram.specs.Plans.{nodes_of, arrows_in, tree_at};
ghost use Rattle.diagram.specs.Opening.{Opens, Above};
ghost use Rattle.diagram.specs.Owning.{own_arrows, labelled_arrows};
ghost use Rattle.diagram.specs.Scopes.{binders_at, variable_at, variables_at, positions_of};

use crate::binders::Binders;
use crate::diagram::Diagram;
use crate::plan::Plan;
use host::variables::Variables;
use notation::node::Node;
use procedure::procedure::Procedure;

impl Diagram {
    /// Its procedure.
    pub fn procedure(&self) -> &Procedure
        ensures is_the_plans { result.now ≡ self.now.plan.procedure }
    {
        &self.plan.procedure
    }

    /// The node of a number, which opens its tree.
    pub fn node(&self, i: usize) -> Node
        requires is_node { i < length (nodes_of self.now.plan) }
        ensures is_the_node { slice_get (nodes_of self.now.plan) i ≡ Some result }
        ensures opens_its_tree { Opens self.now.plan i result }
        ensures tells_what_is_above_its_children { Above self.now.binders (binders_at self.now.binders i) result }
    {
        self.plan.node(i)
    }

    /// How many cells a node takes.
    pub fn width(&self, i: usize) -> usize
        requires is_node { i < length (nodes_of self.now.plan) }
        ensures is_the_width { result ≡ width (tree_at self.now.plan i) }
        ensures is_within_a_row { result ≤ 48 }
    {
        self.widths[i]
    }

    /// The values of a type in roster order.
    pub fn values(&self, ty: u16) -> &[u16]
        ensures tells_the_values { result.now ≡ values_of self.now.plan.values ty }
        ensures fits { length result.now ≤ 16 }
    {
        self.plan.values.of(ty)
    }

    /// The binders above a node.
    pub fn binders(&self, i: usize) -> Binders
        ensures tells_what_is_above { result ≡ binders_at self.now.binders i }
    {
        self.binders.get(i).copied().unwrap_or(Binders::NONE)
    }

    /// The numbers of a node's arrows in the file, in order.
    pub fn own_arrows(&self, node: usize) -> &[u8]
        requires is_node { node < length (nodes_of self.now.plan) }
        ensures tells_its_arrows { result.now ≡ own_arrows (arrows_in self.now.plan) node }
    {
        self.own.of(node)
    }

    /// The numbers of the arrows with a label, in order.
    pub fn labelled_arrows(&self, label: usize) -> &[u8]
        requires is_label { label < 256 }
        ensures tells_the_arrows { result.now ≡ labelled_arrows (arrows_in self.now.plan) label }
    {
        self.labelled.of(label)
    }

    /// What a variable is at a position of its type's values.
    fn variable(&self, ty: Option<u16>, position: usize) -> Option<Option<u16>>
        ensures { result ≡ variable_at (values_of self.now.plan.values) ty position }
    {
        match ty {
            None => (position == 0).then_some(None),
            Some(ty) => {
                let index = position.checked_sub(1)?;
                Some(Some(*self.values(ty).get(index)?))
            }
        }
    }

    /// How many positions there are for a variable, that of absence included: those of its type's values are counted from 1, and without a type it is at 0.
    pub fn positions(&self, ty: Option<u16>) -> usize
        ensures tells_how_many { result ≡ positions_of (values_of self.now.plan.values) ty }
        ensures is_17_at_most { result ≤ 17 }
    {
        match ty {
            None => 1,
            Some(ty) => self.values(ty).len() + 1,
        }
    }

    /// The variables under some binders at two positions, if they are positions of values.
    pub fn variables(&self, binders: Binders, outer: usize, inner: usize) -> Option<Variables>
        ensures tells_the_variables { result ≡ variables_at (values_of self.now.plan.values) binders outer inner }
    {
        Some(Variables {
            outer: self.variable(binders.outer, outer)?,
            inner: self.variable(binders.inner, inner)?,
        })
    }
}
