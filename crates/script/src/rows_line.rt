ghost use Rattle.std.specs.Prelude.{◌≡◌, Some};
ghost use Rattle.script.specs.Texts.{yes_or_no, rows_line, row_line};

use crate::outcome_line::RowsText;
use crate::spaced::Spaced;
use std::fmt;

/// How many states are held, and whether one is finished: `rows: 1 row, finished: no`.
#[derive(Clone, Copy)]
pub struct RowsLine {
    pub count: usize,
    pub finished: bool,
}

impl fmt::Display for RowsLine {
    ghost output = { λ x. Some (rows_line x.count x.finished) };

    fn fmt<W: fmt::Write>(&self, f: &mut fmt::Formatter<W>) -> fmt::Result {
        let rows = RowsText(self.count);
        let finished = yes_or_no(self.finished);
        write!(f, "rows: {rows}, finished: {finished}")
    }
}

fn yes_or_no(yes: bool) -> &'static str
    ensures { result.now ≡ yes_or_no yes }
{
    if yes { "yes" } else { "no" }
}

/// The cells of a state: `  1 2 1`.
#[derive(Clone, Copy)]
pub struct RowLine<'a>(pub &'a [u16]);

impl fmt::Display for RowLine<'_> {
    ghost output = { λ x. Some (row_line x.0.now) };

    fn fmt<W: fmt::Write>(&self, f: &mut fmt::Formatter<W>) -> fmt::Result {
        write!(f, " {}", Spaced(self.0))
    }
}
