ghost use Rattle.std.specs.Prelude.{◌≡◌, Some};
ghost use Rattle.text.specs.Texts.{text_of_wait, guard_text, road_text, arrow_text};

use crate::label::Label;
use notation::arrow::Arrow;
use std::fmt;

/// The line of an arrow: `arrow 0: automaton 4, from 0 to 1 on 2(outer), wait, guard 3`.
#[derive(Clone, Copy)]
pub struct ArrowLine<'a> {
    pub number: usize,
    pub arrow: &'a Arrow,
}

impl fmt::Display for ArrowLine<'_> {
    ghost output = { λ x. Some (arrow_text x.number x.arrow.now) };

    fn fmt<W: fmt::Write>(&self, f: &mut fmt::Formatter<W>) -> fmt::Result {
        let number = self.number;
        let Arrow {
            label,
            first,
            second,
            waits,
            guard,
            ..
        } = *self.arrow;
        let road = Road(self.arrow);
        let label = Label {
            number: label,
            first,
            second,
        };
        let wait = wait_text(waits);
        let guard = GuardText(guard);
        write!(f, "arrow {number}: {road} on {label}, {wait}, {guard}")
    }
}

/// Where an arrow leads: `automaton 4, from 0 to 1`.
#[derive(Clone, Copy)]
struct Road<'a>(&'a Arrow);

impl fmt::Display for Road<'_> {
    ghost output = { λ x. Some (road_text x.0.now) };

    fn fmt<W: fmt::Write>(&self, f: &mut fmt::Formatter<W>) -> fmt::Result {
        let Arrow { node, from, to, .. } = *self.0;
        write!(f, "automaton {node}, from {from} to {to}")
    }
}

// a word for each case: a newtype with a `Display` would be this and more
fn wait_text(waits: bool) -> &'static str
    ensures { result.now ≡ text_of_wait waits }
{
    if waits { "wait" } else { "no wait" }
}

#[derive(Clone, Copy)]
struct GuardText(Option<u16>);

impl fmt::Display for GuardText {
    ghost output = { λ x. Some (guard_text x.0) };

    fn fmt<W: fmt::Write>(&self, f: &mut fmt::Formatter<W>) -> fmt::Result {
        match self.0 {
            None => f.write_str("no guard"),
            Some(guard) => write!(f, "guard {guard}"),
        }
    }
}
