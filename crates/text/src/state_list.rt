ghost use Rattle.std.specs.Prelude.{◌≡◌, Some};
ghost use Rattle.text.specs.Texts.{text_of_mark, state_text, further_state, states_text};

use crate::each::{Each, Numbered};
use notation::node::{Mark, State, States};
use std::fmt;

/// The states of an automaton, each with its number: `states 0, 1 shallow, 2 deep child 3`. Its words and its first element are its
/// own; what follows is `Each`, as for labels.
#[derive(Clone, Copy)]
pub struct StateList<'a>(pub &'a States);

impl fmt::Display for StateList<'_> {
    ghost output = { λ x. Some (states_text x.0.now) };

    fn fmt<W: fmt::Write>(&self, f: &mut fmt::Formatter<W>) -> fmt::Result {
        match self.0.table.as_slice() {
            [] => f.write_str("no states"),
            [state, rest @ ..] => {
                let first = NumberedState {
                    number: 0,
                    state: *state,
                };
                let rest = Each {
                    first: 1,
                    elements: rest,
                };
                write!(f, "states {first}{rest}")
            }
        }
    }
}

/// A state behind another.
impl Numbered for State {
    ghost text = { further_state };

    fn fmt_numbered<W: fmt::Write>(&self, number: usize, f: &mut fmt::Formatter<W>) -> fmt::Result {
        let state = NumberedState {
            number,
            state: *self,
        };
        write!(f, ", {state}")
    }
}

#[derive(Clone, Copy)]
struct NumberedState {
    number: usize,
    state: State,
}

impl fmt::Display for NumberedState {
    ghost output = { λ x. Some (state_text x.number x.state) };

    fn fmt<W: fmt::Write>(&self, f: &mut fmt::Formatter<W>) -> fmt::Result {
        let number = self.number;
        let mark = mark_text(self.state.mark);
        match self.state.child {
            None => write!(f, "{number}{mark}"),
            Some(child) => write!(f, "{number}{mark} child {child}"),
        }
    }
}

// a word for each case: a newtype with a `Display` would be this match and more, and `Mark` itself has no text of the program's
fn mark_text(mark: Mark) -> &'static str
    ensures { result.now ≡ text_of_mark mark }
{
    match mark {
        Mark::Unmarked => "",
        Mark::Shallow => " shallow",
        Mark::Deep => " deep",
    }
}
