ghost use Rattle.std.specs.Prelude.{Some, codes};
ghost use Rattle.script.specs.Texts.{rows_text, events_text, answer_text, setting_line, held_line, menu_line};

use crate::call_text::CallText;
use crate::line::Line;
use crate::spaced::Spaced;
use event::event::Event;
use fault::fault::Fault;
use std::fmt;
use text::fault_line::RefusedLine;

/// A setting and its answer: `range 0 1 3: set`.
#[derive(Clone, Copy)]
pub struct SettingLine {
    pub call: Line,
    pub answer: Result<(), Fault>,
}

impl fmt::Display for SettingLine {
    ghost output = { λ x. Some (setting_line x.call x.answer) };

    fn fmt<W: fmt::Write>(&self, f: &mut fmt::Formatter<W>) -> fmt::Result {
        let call = CallText(self.call);
        match self.answer {
            Ok(()) => write!(f, "{call}: set"),
            Err(fault) => write!(f, "{call}: {}", RefusedLine(fault)),
        }
    }
}

/// An opening or an offer, and how many states are held: `offer 2(2): 1 row`.
#[derive(Clone, Copy)]
pub struct HeldLine {
    pub call: Line,
    pub answer: Result<usize, Fault>,
}

impl fmt::Display for HeldLine {
    ghost output = { λ x. Some (held_line x.call x.answer) };

    fn fmt<W: fmt::Write>(&self, f: &mut fmt::Formatter<W>) -> fmt::Result {
        let call = CallText(self.call);
        match self.answer {
            Ok(count) => write!(f, "{call}: {}", RowsText(count)),
            Err(fault) => write!(f, "{call}: {}", RefusedLine(fault)),
        }
    }
}

/// A menu, and the events that were listed: `menu 64: 2 events: 3(2) 4`.
#[derive(Clone, Copy)]
pub struct MenuLine<'a> {
    pub places: usize,
    pub answer: Result<usize, Fault>,
    pub listed: &'a [Event],
}

impl fmt::Display for MenuLine<'_> {
    ghost output = { λ x. Some (menu_line x.places x.answer x.listed.now) };

    fn fmt<W: fmt::Write>(&self, f: &mut fmt::Formatter<W>) -> fmt::Result {
        let places = self.places;
        let listed = Spaced(self.listed);
        match self.answer {
            Ok(count) => write!(f, "menu {places}: {}:{listed}", EventsText(count)),
            Err(fault) => write!(f, "menu {places}: {}:{listed}", RefusedLine(fault)),
        }
    }
}

/// So many states.
#[derive(Clone, Copy)]
pub(crate) struct RowsText(pub(crate) usize);

impl fmt::Display for RowsText {
    ghost output = { λ x. Some (rows_text x.0) };

    fn fmt<W: fmt::Write>(&self, f: &mut fmt::Formatter<W>) -> fmt::Result {
        match self.0 {
            1 => f.write_str("1 row"),
            count => write!(f, "{count} rows"),
        }
    }
}

/// So many events.
#[derive(Clone, Copy)]
struct EventsText(usize);

impl fmt::Display for EventsText {
    ghost output = { λ x. Some (events_text x.0) };

    fn fmt<W: fmt::Write>(&self, f: &mut fmt::Formatter<W>) -> fmt::Result {
        match self.0 {
            1 => f.write_str("1 event"),
            count => write!(f, "{count} events"),
        }
    }
}
