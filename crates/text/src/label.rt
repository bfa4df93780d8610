ghost use Rattle.std.specs.Prelude.{Some};
ghost use Rattle.text.specs.Texts.{argument_text, label_text};

use notation::arrow::Argument;
use std::fmt;

/// A label with its arguments, if it has any: `2`, `2(outer)`, `3(7,inner)`.
#[derive(Clone, Copy)]
pub struct Label {
    pub number: u16,
    pub first: Argument,
    pub second: Argument,
}

impl fmt::Display for Label {
    ghost output = { λ x. Some (label_text x.number x.first x.second) };

    fn fmt<W: fmt::Write>(&self, f: &mut fmt::Formatter<W>) -> fmt::Result {
        let Label {
            number,
            first,
            second,
        } = *self;
        match (first, second) {
            (Argument::Absent, _) => write!(f, "{number}"),
            (_, Argument::Absent) => write!(f, "{number}({})", ArgumentText(first)),
            _ => write!(
                f,
                "{number}({},{})",
                ArgumentText(first),
                ArgumentText(second)
            ),
        }
    }
}

#[derive(Clone, Copy)]
struct ArgumentText(Argument);

impl fmt::Display for ArgumentText {
    ghost output = { λ x. Some (argument_text x.0) };

    fn fmt<W: fmt::Write>(&self, f: &mut fmt::Formatter<W>) -> fmt::Result {
        match self.0 {
            Argument::Absent => Ok(()),
            Argument::Constant(value) => write!(f, "{value}"),
            Argument::Outer => f.write_str("outer"),
            Argument::Inner => f.write_str("inner"),
        }
    }
}
