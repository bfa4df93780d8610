ghost use Rattle.std.specs.Prelude.{Some};
ghost use Rattle.text.specs.Texts.{accepted_text};

use std::fmt;

/// The first line of a sound file.
#[derive(Clone, Copy)]
pub struct AcceptedLine {
    pub nodes: usize,
    pub arrows: usize,
}

impl fmt::Display for AcceptedLine {
    ghost output = { λ x. Some (accepted_text x.nodes x.arrows) };

    fn fmt<W: fmt::Write>(&self, f: &mut fmt::Formatter<W>) -> fmt::Result {
        let AcceptedLine { nodes, arrows } = *self;
        write!(f, "accepted: {nodes} nodes, {arrows} arrows")
    }
}
