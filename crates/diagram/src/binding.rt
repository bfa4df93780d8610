ghost use Rattle.std.specs.Prelude.{◌≡◌, ℕ, suc, Some};
ghost use Rattle.std.specs.List.{slice_get};
ghost use Rattle.host.specs.declared.variables.Variables.{Variables};
ghost use Rattle.rules.specs.Trees.{bound, no_variables};
ghost use Rattle.rules.specs.Growing.{Values};
ghost use Rattle.diagram.specs.Scopes.{no_binders, typed_under, binders_under, Suits, scope_under};
ghost use Rattle.diagram.specs.declared.binders.Binders.{Binders};

use crate::binders::Binders;
use crate::scope::Scope;
use host::variables::Variables;
use notation::node::Node;

impl Binders {
    /// Above the root there is none.
    pub const NONE: Binders = Binders {
        outer: None,
        inner: None,
    };

    /// One binder more, over a type.
    pub fn with(self, over: u16) -> Binders
        ensures is_typed_under { result ≡ typed_under self.outer over }
    {
        match self.outer {
            None => Binders {
                outer: Some(over),
                inner: None,
            },
            Some(_) => Binders {
                outer: self.outer,
                inner: Some(over),
            },
        }
    }

    /// What is above the children of a node that has these above it.
    pub fn under(self, node: &Node) -> Binders
        ensures is_what_is_above_a_child { result ≡ binders_under node.now self }
    {
        match node {
            Node::QuantifiedChoice { over, .. } | Node::QuantifiedSynchronisation { over, .. } => {
                self.with(*over)
            }
            _ => self,
        }
    }
}

impl Scope {
    /// Above every binder.
    pub fn empty() -> Scope
        ensures has_no_variables { result ≡ record { outer = 0; inner = 0; variables = no_variables } }
        ensures suits_the_root { (values : Values) → Suits values no_binders result }
    {
        Scope {
            outer: 0,
            inner: 0,
            variables: Variables {
                outer: None,
                inner: None,
            },
        }
    }

    /// Under a binder that gives the value x, which is at a position of its type's values.
    pub fn bound(self, position: usize, x: u16) -> Scope
        ensures is_under_the_binder { result ≡ scope_under self.variables.outer self position x }
        ensures binds { result.variables ≡ bound x self.variables }
        ensures suits_what_is_below { (values : Values) (b : Binders) (ty k : ℕ) → Suits values b self → position ≡ suc k → slice_get (values ty) k ≡ Some x → Suits values (typed_under b.outer ty) result }
    {
        match self.variables.outer {
            None => Scope {
                outer: position,
                inner: 0,
                variables: Variables {
                    outer: Some(x),
                    inner: None,
                },
            },
            Some(_) => Scope {
                outer: self.outer,
                inner: position,
                variables: Variables {
                    outer: self.variables.outer,
                    inner: Some(x),
                },
            },
        }
    }
}
