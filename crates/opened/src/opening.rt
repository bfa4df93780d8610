ghost use Rattle.std.specs.Prelude.{◌≡◌, ℕ, ◌∷◌, [], ◌≤◌, None, Some, MatchResult};
ghost use Rattle.fault.specs.Asking.{refusal};
ghost use Rattle.procedure.specs.Procedures.{drawing};
ghost use Rattle.rules.specs.Cells.{initial};
ghost use Rattle.opened.specs.Opening.{told_values, root_tree, open_asks};
ghost use Rattle.opened.specs.Opens.{OpensWith};
ghost use Rattle.opened.specs.States.{states_in};

use crate::asking::types_known;
use crate::held::Held;
use crate::opened::Opened;
use diagram::diagram::Diagram;
use diagram::part::Part;
use diagram::plan::Plan;
use diagram::type_values::TypeValues;
use fault::fault::{Fault, Question};
use procedure::procedure::Procedure;
use roster::roster::Roster;
use row::row::Row;

impl Opened {
    /// A procedure is opened under the values that a roster tells and a ceiling: it holds the root's initial state.
    pub fn of<R: Roster>(procedure: &Procedure, roster: &R, ceiling: usize) -> Result<Opened, Fault>
        ensures opens_or_tells_the_first_no { MatchResult result
            (λ o. (refusal (open_asks (drawing procedure.now) (R.values roster.now) ceiling) ≡ None) × OpensWith (drawing procedure.now) (R.values roster.now) ceiling o)
            (λ f. refusal (open_asks (drawing procedure.now) (R.values roster.now) ceiling) ≡ Some f) }
    {
        if procedure.node_count() == 0 {
            return Err(Question::ProcedureDrawn.at(0));
        }
        types_known(procedure, roster)?;
        let plan = Plan {
            procedure: *procedure,
            values: TypeValues::told_by(roster),
        };
        let diagram = Diagram::of(plan).map_err(|node| Question::WidthsWithinRow.at(node))?;
        if ceiling < 1 || ceiling > 128 {
            return Err(Question::CeilingInRange.at(ceiling));
        }
        // asked already
        let root = Part::root(&diagram).ok_or(Question::ProcedureDrawn.at(0))?;
        let node = usize::from(root.node);
        let first = diagram.begun(node);
        let held = Held {
            rows: [first; 128],
            used: 1,
            width: diagram.width(node),
        };
        Ok(Opened {
            diagram,
            root,
            ceiling,
            held,
        })
    }
}
