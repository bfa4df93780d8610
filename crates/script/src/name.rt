ghost use Rattle.std.specs.Prelude.{◌≡◌};
ghost use Rattle.script.specs.Names.{name_of, fewest_of, most_of};

/// The first word of a line whose other words are numbers.
#[derive(Clone, Copy, Debug, PartialEq, Eq)]
pub enum Name {
    Range,
    Limit,
    Tally,
    Open,
    Offer,
    Raw,
    Menu,
    Rows,
}

impl Name {
    /// The name that a word is.
    pub(crate) fn of(word: &[u8]) -> Option<Name>
        ensures { result ≡ name_of word.now }
    {
        match word {
            b"range" => Some(Name::Range),
            b"limit" => Some(Name::Limit),
            b"tally" => Some(Name::Tally),
            b"open" => Some(Name::Open),
            b"offer" => Some(Name::Offer),
            b"raw" => Some(Name::Raw),
            b"menu" => Some(Name::Menu),
            b"rows" => Some(Name::Rows),
            _ => None,
        }
    }

    /// The fewest numbers that it takes.
    pub(crate) fn fewest(self) -> usize
        ensures { result ≡ fewest_of self }
    {
        match self {
            Name::Menu | Name::Rows => 0,
            Name::Open | Name::Offer => 1,
            Name::Range | Name::Tally => 3,
            Name::Limit | Name::Raw => 4,
        }
    }

    /// The most numbers that it takes.
    pub(crate) fn most(self) -> usize
        ensures { result ≡ most_of self }
    {
        match self {
            Name::Rows => 0,
            Name::Open | Name::Menu => 1,
            Name::Range | Name::Tally | Name::Offer => 3,
            Name::Limit | Name::Raw => 4,
        }
    }
}
