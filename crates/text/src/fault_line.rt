ghost use Rattle.std.specs.Prelude.{◌≡◌, Some};
ghost use Rattle.text.specs.Texts.{refused_line, text_of_question, answer_text, reason_line};

use fault::fault::{Fault, NO_NODE, Question};
use std::fmt;

/// The first line of a refusal: `refused: number 5, layer 1, place 3`.
#[derive(Clone, Copy)]
pub struct RefusedLine(pub Fault);

impl fmt::Display for RefusedLine {
    ghost output = { λ x. Some (refused_line x.0) };

    fn fmt<W: fmt::Write>(&self, f: &mut fmt::Formatter<W>) -> fmt::Result {
        let (number, layer, place) = self.0.numbers();
        write!(f, "refused: number {number}, layer {layer}, place {place}")
    }
}

/// The second line of a refusal: what was asked, and where the answer was no.
#[derive(Clone, Copy)]
pub struct ReasonLine(pub Fault);

impl fmt::Display for ReasonLine {
    ghost output = { λ x. Some (reason_line x.0) };

    fn fmt<W: fmt::Write>(&self, f: &mut fmt::Formatter<W>) -> fmt::Result {
        let asked = question_text(self.0.question);
        write!(f, "{asked} {}", Answer(self.0))
    }
}

// a word for each case: a newtype with a `Display` would be this match and more, and `Question` itself has no text of the program's
fn question_text(question: Question) -> &'static str
    ensures { result.now ≡ text_of_question question }
{
    match question {
        Question::FileWithinLimit => "Is the file within 16,384 bytes?",
        Question::RecordWhole => "Is the record whole, with a length of at least 2?",
        Question::KindKnown => "Is the kind one of 1 to 9?",
        Question::LengthExact => "Has the record exactly the length of its kind and count?",
        Question::FieldsInRange =>
            "Are all fields in range, with at most 64 nodes and 256 arrows so far?",
        Question::ChildrenFree => "Is each child below its node and nobody's child yet?",
        Question::ArrowPlaced => "Does the arrow name an earlier automaton and two states of it?",
        Question::OneRoot => "Is there a node, and is every node but the root a child?",
        Question::BindersFew => "Is every binder under at most one other?",
        Question::VariablesInScope => "Is every arrow's variable in scope?",
        Question::ProcedureDrawn => "Has the procedure a node?",
        Question::TypesKnown => "Has each named type 1 to 16 values?",
        Question::WidthsWithinRow => "Is every width within 48?",
        Question::CeilingInRange => "Is the ceiling 1 to 128?",
        Question::EventInForm => "Is the event in form?",
        Question::SuccessorExists => "Is there a successor?",
        Question::SuccessorsWithinCeiling => "Are the different successors within the ceiling?",
        Question::MenuWithinList => "Has the caller's list a place for each event of the menu?",
        Question::SettingInRange => "Is each field of the setting in range?",
    }
}

#[derive(Clone, Copy)]
struct Answer(Fault);

impl fmt::Display for Answer {
    ghost output = { λ x. Some (answer_text x.0.question x.0.place) };

    fn fmt<W: fmt::Write>(&self, f: &mut fmt::Formatter<W>) -> fmt::Result {
        let place = self.0.place;
        match self.0.question {
            Question::FileWithinLimit => f.write_str("No."),
            Question::RecordWhole | Question::LengthExact => {
                write!(f, "No, not record {place} (counted from 0).")
            }
            Question::KindKnown
            | Question::FieldsInRange
            | Question::ChildrenFree
            | Question::ArrowPlaced => write!(f, "No, not in record {place} (counted from 0)."),
            Question::OneRoot if place == NO_NODE => f.write_str("No, there is no node."),
            Question::OneRoot => write!(f, "No, node {place} is nobody's child."),
            Question::BindersFew => write!(f, "No, not node {place}."),
            Question::VariablesInScope => write!(f, "No, not in arrow {place}."),
            _ => write!(f, "No, at {place}."),
        }
    }
}
