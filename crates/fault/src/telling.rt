ghost use Rattle.std.specs.Prelude.{◌≡◌};
ghost use Rattle.fault.specs.Faults.{number_of, layer_of, layer_number_of};

use crate::fault::{Fault, Layer, Question};

impl Question {
    pub(crate) fn number(self) -> u8
        ensures is_the_listed_number { result ≡ number_of self }
    {
        self as u8
    }

    pub(crate) fn layer(self) -> Layer
        ensures is_the_listed_layer { result ≡ layer_of self }
    {
        match self {
            Question::FileWithinLimit
            | Question::RecordWhole
            | Question::KindKnown
            | Question::LengthExact
            | Question::FieldsInRange
            | Question::ChildrenFree
            | Question::ArrowPlaced
            | Question::OneRoot
            | Question::BindersFew
            | Question::VariablesInScope => Layer::Reading,
            Question::ProcedureDrawn
            | Question::TypesKnown
            | Question::WidthsWithinRow
            | Question::CeilingInRange => Layer::Opening,
            Question::EventInForm
            | Question::SuccessorExists
            | Question::SuccessorsWithinCeiling
            | Question::MenuWithinList => Layer::Running,
            Question::SettingInRange => Layer::Settings,
        }
    }
}

impl Question {
    /// A no to this question, at a place.
    pub fn at(self, place: usize) -> Fault
        ensures is_this_question_at_the_place { result ≡ record { question = self; place = place } }
    {
        Fault {
            question: self,
            place,
        }
    }
}

impl Layer {
    pub fn number(self) -> u8
        ensures is_the_listed_number { result ≡ layer_number_of self }
    {
        self as u8
    }
}

impl Fault {
    pub fn number(&self) -> u8
        ensures is_the_questions_number { result ≡ number_of self.now.question }
    {
        self.question.number()
    }

    pub fn layer(&self) -> Layer
        ensures is_the_questions_layer { result ≡ layer_of self.now.question }
    {
        self.question.layer()
    }

    pub fn place(&self) -> usize
        ensures is_the_place { result ≡ self.now.place }
    {
        self.place
    }

    /// All that a caller is told, in numbers: the question's, the layer's and the place.
    pub fn numbers(&self) -> (u8, u8, usize)
        ensures are_number_layer_and_place { result ≡ (number_of self.now.question, layer_number_of (layer_of self.now.question), self.now.place) }
    {
        (self.number(), self.layer().number(), self.place)
    }
}
