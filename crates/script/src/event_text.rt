ghost use Rattle.std.specs.Prelude.{◌≡◌, Some};
ghost use Rattle.script.specs.Events.{argument_of, event_text};

use event::event::Event;
use notation::arrow::Argument;
use std::fmt;
use text::label::Label;

/// An event: `2`, `2(1)` or `2(1,7)`, and out of form `[300 0 0 0]`.
#[derive(Clone, Copy)]
pub struct EventText(pub Event);

fn argument_of(value: Option<u16>) -> Argument
    ensures { result ≡ argument_of value }
{
    value.map_or(Argument::Absent, Argument::Constant)
}

impl fmt::Display for EventText {
    ghost output = { λ x. Some (event_text x.0) };

    fn fmt<W: fmt::Write>(&self, f: &mut fmt::Formatter<W>) -> fmt::Result {
        let event = self.0;
        if event.in_form().is_err() {
            let Event {
                label,
                count,
                first,
                second,
            } = event;
            return write!(f, "[{label} {count} {first} {second}]");
        }
        let label = Label {
            number: event.label,
            first: argument_of(event.first_argument()),
            second: argument_of(event.second_argument()),
        };
        write!(f, "{label}")
    }
}
