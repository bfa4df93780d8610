ghost use Rattle.std.specs.Prelude.{◌≡◌, Some};
ghost use Rattle.script.specs.Names.{text_of_kind};
ghost use Rattle.script.specs.Texts.{call_text};

use crate::event_text::EventText;
use crate::host_kind::HostKind;
use crate::line::Line;
use std::fmt;

/// A call, as the line of its outcome begins: `range 0 1 3`, `offer 2(2)`.
#[derive(Clone, Copy)]
pub(crate) struct CallText(pub(crate) Line);

impl HostKind {
    /// The word that chooses it.
    fn text(self) -> &'static str
        ensures { result.now ≡ text_of_kind self }
    {
        match self {
            HostKind::Limits => "limits",
            HostKind::Tallies => "tallies",
        }
    }
}

impl fmt::Display for CallText {
    ghost output = { λ x. Some (call_text x.0) };

    fn fmt<W: fmt::Write>(&self, f: &mut fmt::Formatter<W>) -> fmt::Result {
        match self.0 {
            Line::Host { kind } => {
                let kind = kind.text();
                write!(f, "host {kind}")
            }
            Line::Range { ty, first, count } => write!(f, "range {ty} {first} {count}"),
            Line::Limit {
                guard,
                operand,
                comparison,
                constant,
            } => write!(f, "limit {guard} {operand} {comparison} {constant}"),
            Line::Tally {
                guard,
                label,
                bound,
            } => write!(f, "tally {guard} {label} {bound}"),
            Line::Open { ceiling } => write!(f, "open {ceiling}"),
            Line::Offer { event } => write!(f, "offer {}", EventText(event)),
            Line::Menu { places } => write!(f, "menu {places}"),
            Line::Rows => f.write_str("rows"),
        }
    }
}
