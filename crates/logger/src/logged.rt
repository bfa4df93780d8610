ghost use Rattle.std.specs.Prelude.{Some};
ghost use Rattle.logger.specs.Logs.{logged, outcome_line};

use event::event::Event;
use fault::fault::Fault;
use script::line::Line;
use script::outcome_line::{HeldLine, MenuLine};
use std::fmt;

/// What a call came to.
#[derive(Clone, Copy)]
pub(crate) enum Logged<'a> {
    Offered {
        event: Event,
        answer: Result<usize, Fault>,
    },
    Listed {
        places: usize,
        answer: Result<usize, Fault>,
        events: &'a [Event],
    },
}

/// Its line, with the end of the line.
impl fmt::Display for Logged<'_> {
    ghost output = { λ x. Some (outcome_line (logged x)) };

    fn fmt<W: fmt::Write>(&self, f: &mut fmt::Formatter<W>) -> fmt::Result {
        match *self {
            Logged::Offered { event, answer } => {
                let call = Line::Offer { event };
                writeln!(f, "{}", HeldLine { call, answer })
            }
            Logged::Listed {
                places,
                answer,
                events,
            } => {
                let line = MenuLine {
                    places,
                    answer,
                    listed: events,
                };
                writeln!(f, "{line}")
            }
        }
    }
}
