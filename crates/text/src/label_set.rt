ghost use Rattle.std.specs.Prelude.{Some};
ghost use Rattle.text.specs.Texts.{further_label, label_set_text};

use crate::each::{Each, Numbered};
use notation::node::Labels;
use std::fmt;

/// A set of labels: `labels 2, 5` or `no labels`. Its words and its first element are its own; what follows is `Each`, as for states.
#[derive(Clone, Copy)]
pub struct LabelSet<'a>(pub &'a Labels);

impl fmt::Display for LabelSet<'_> {
    ghost output = { λ x. Some (label_set_text x.0.now) };

    fn fmt<W: fmt::Write>(&self, f: &mut fmt::Formatter<W>) -> fmt::Result {
        match self.0.as_slice() {
            [] => f.write_str("no labels"),
            [label, rest @ ..] => {
                let rest = Each {
                    first: 1,
                    elements: rest,
                };
                write!(f, "labels {label}{rest}")
            }
        }
    }
}

/// A label behind another.
impl Numbered for u16 {
    ghost text = { further_label };

    fn fmt_numbered<W: fmt::Write>(
        &self,
        _number: usize,
        f: &mut fmt::Formatter<W>,
    ) -> fmt::Result {
        write!(f, ", {self}")
    }
}
