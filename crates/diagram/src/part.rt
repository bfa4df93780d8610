ghost use Rattle.std.specs.Prelude.{◌≡◌, ℕ, suc, Some};
ghost use Rattle.std.specs.List.{slice_get};
ghost use Rattle.rules.specs.Trees.{bound};
ghost use Rattle.rules.specs.Growing.{Values};
ghost use Rattle.diagram.specs.Parts.{root_part, InPlace};
ghost use Rattle.diagram.specs.Scopes.{typed_under, Suits, scope_under};
ghost use Rattle.diagram.specs.declared.part.Part.{Part};
ghost use Rattle.diagram.specs.declared.binders.Binders.{Binders};

use crate::diagram::Diagram;
use crate::scope::Scope;

/// A part of a row: the cells of a node, which begin at `at`, under the variables in scope.
#[derive(Clone, Copy)]
pub struct Part {
    pub node: u16,
    pub at: usize,
    pub scope: Scope,
}

impl Part {
    /// The part of the root, which is the last node: the whole row, above every binder. There is none without a node.
    pub fn root(diagram: &Diagram) -> Option<Part>
        ensures is_the_last_node { result ≡ root_part diagram.now }
        ensures is_in_place { (part : Part) → result ≡ Some part → InPlace diagram.now part }
    {
        let last = diagram.procedure().node_count().checked_sub(1)?;
        Some(Part {
            // below 64, so nothing is cut off
            node: last as u16,
            at: 0,
            scope: Scope::empty(),
        })
    }

    /// The same cells, or those that begin at another place, as another node's.
    pub fn of(self, node: u16, at: usize) -> Part
        ensures is_the_nodes { result ≡ record { node = node; at = at; scope = self.scope } }
    {
        Part {
            node,
            at,
            scope: self.scope,
        }
    }

    /// The same cells under a binder that gives the value x, which is at a position of its type's values, counted from 1.
    pub fn bound(self, position: usize, x: u16) -> Part
        ensures keeps_the_cells { (result.node ≡ self.node) × (result.at ≡ self.at) }
        ensures is_under_the_binder { result.scope ≡ scope_under self.scope.variables.outer self.scope position x }
        ensures binds { result.scope.variables ≡ bound x self.scope.variables }
        ensures suits_what_is_below { (values : Values) (b : Binders) (ty k : ℕ) → Suits values b self.scope → position ≡ suc k → slice_get (values ty) k ≡ Some x → Suits values (typed_under b.outer ty) result.scope }
    {
        Part {
            node: self.node,
            at: self.at,
            scope: self.scope.bound(position, x),
        }
    }
}
