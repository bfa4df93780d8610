use answers::answers::Answers;
use diagram::diagram::Diagram;

/// The search for the successors of a diagram's parts by one event, whose guards were asked beforehand.
#[derive(Clone, Copy)]
pub struct Search<'a> {
    pub diagram: &'a Diagram,
    pub answers: &'a Answers<'a>,
}
