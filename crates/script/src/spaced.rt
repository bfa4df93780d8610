ghost use Rattle.std.specs.Prelude.{ℕ, List, Some, decimal};
ghost use Rattle.std.specs.Fmt.{DisplaysOnOk};
ghost use Rattle.script.specs.Events.{event_text};
ghost use Rattle.script.specs.Texts.{spaced};

use crate::event_text::EventText;
use event::event::Event;
use std::fmt;

/// What a list is made of.
pub(crate) trait Item {
    ghost text: { Self → List ℕ };

    fn fmt_item<W: fmt::Write>(&self, f: &mut fmt::Formatter<W>) -> fmt::Result
        ensures writes { DisplaysOnOk W.write_str_gives f.old result (Some (text self.now)) f.new };
}

/// Items one after the other, each behind a blank.
#[derive(Clone, Copy)]
pub(crate) struct Spaced<'a, T>(pub(crate) &'a [T]);

impl<T: Item> fmt::Display for Spaced<'_, T> {
    ghost output = { λ x. Some (spaced T.text x.0.now) };

    fn fmt<W: fmt::Write>(&self, f: &mut fmt::Formatter<W>) -> fmt::Result {
        for item in self.0 {
            f.write_str(" ")?;
            item.fmt_item(f)?;
        }
        Ok(())
    }
}

impl Item for Event {
    ghost text = { event_text };

    fn fmt_item<W: fmt::Write>(&self, f: &mut fmt::Formatter<W>) -> fmt::Result {
        write!(f, "{}", EventText(*self))
    }
}

impl Item for u16 {
    ghost text = { decimal };

    fn fmt_item<W: fmt::Write>(&self, f: &mut fmt::Formatter<W>) -> fmt::Result {
        write!(f, "{self}")
    }
}
