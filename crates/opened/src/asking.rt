ghost use Rattle.std.specs.Prelude.{◌≡◌, ℕ, ◌<◌, length, slice_index_or};
ghost use Rattle.fault.specs.Asking.{Answers};
ghost use Rattle.notation.specs.Parts.{blank_node, over_of};
ghost use Rattle.procedure.specs.Procedures.{drawing};
ghost use Rattle.opened.specs.Opening.{has_few, type_known, type_asks};

use fault::fault::{Fault, Question};
use procedure::procedure::Procedure;
use roster::roster::Roster;

/// Whether a type has 1 to 16 values.
fn has_few<R: Roster>(roster: &R, ty: u16) -> bool
    ensures { result ≡ has_few (R.values roster.now ty) }
{
    roster
        .count(ty)
        .is_some_and(|count| count >= 1 && count <= 16)
}

/// Question 12: each type that a binder names has 1 to 16 values. At the lowest binder whose type has not.
pub(crate) fn types_known<R: Roster>(procedure: &Procedure, roster: &R) -> Result<(), Fault>
    ensures { Answers (type_asks (drawing procedure.now) (R.values roster.now)) result }
{
    for (i, node) in procedure.nodes().iter().enumerate() {
        if let Some(over) = node.over() {
            if !has_few(roster, over) {
                return Err(Question::TypesKnown.at(i));
            }
        }
    }
    Ok(())
}
