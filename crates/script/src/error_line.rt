ghost use Rattle.std.specs.Prelude.{◌≡◌, Some};
ghost use Rattle.script.specs.Names.{text_of_name};
ghost use Rattle.script.specs.Wrongs.{text_of_takes, wrong_text, error_line};

use crate::name::Name;
use crate::wrong::Wrong;
use std::fmt;

/// What is wrong with a line of a script, with its number: `error: line 3: no such call`.
#[derive(Clone, Copy)]
pub struct ErrorLine {
    pub number: usize,
    pub wrong: Wrong,
}

impl fmt::Display for ErrorLine {
    ghost output = { λ x. Some (error_line x.number x.wrong) };

    fn fmt<W: fmt::Write>(&self, f: &mut fmt::Formatter<W>) -> fmt::Result {
        let ErrorLine { number, wrong } = *self;
        write!(f, "error: line {number}: {}", WrongText(wrong))
    }
}

impl Name {
    /// The word that calls it.
    fn text(self) -> &'static str
        ensures { result.now ≡ text_of_name self }
    {
        match self {
            Name::Range => "range",
            Name::Limit => "limit",
            Name::Tally => "tally",
            Name::Open => "open",
            Name::Offer => "offer",
            Name::Raw => "raw",
            Name::Menu => "menu",
            Name::Rows => "rows",
        }
    }

    /// How many numbers it takes.
    fn takes(self) -> &'static str
        ensures { result.now ≡ text_of_takes self }
    {
        match self {
            Name::Range | Name::Tally => "3",
            Name::Limit | Name::Raw => "4",
            Name::Open => "1",
            Name::Offer => "1 to 3",
            Name::Menu => "at most 1",
            Name::Rows => "none",
        }
    }
}

#[derive(Clone, Copy)]
struct WrongText(Wrong);

impl fmt::Display for WrongText {
    ghost output = { λ x. Some (wrong_text x.0) };

    fn fmt<W: fmt::Write>(&self, f: &mut fmt::Formatter<W>) -> fmt::Result {
        match self.0 {
            Wrong::NoSuchCall => f.write_str("no such call"),
            Wrong::NoSuchHost => f.write_str("host takes limits or tallies"),
            Wrong::TooFew(name) => {
                let call = name.text();
                let takes = name.takes();
                write!(f, "too few numbers: {call} takes {takes}")
            }
            Wrong::TooMany(name) => {
                let call = name.text();
                let takes = name.takes();
                write!(f, "too many numbers: {call} takes {takes}")
            }
            Wrong::NoNumber => f.write_str("a word is no number up to 65,535"),
            Wrong::LateHost => f.write_str("host stands before every other call"),
            Wrong::NoLimits => f.write_str("the host is tallies, which has no limits"),
            Wrong::NoTallies => f.write_str("the host is limits, which has no tallies"),
        }
    }
}
