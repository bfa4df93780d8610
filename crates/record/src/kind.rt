ghost use Rattle.std.specs.Prelude.{◌≡◌};
ghost use Rattle.std.specs.Option.{ok_or};
ghost use Rattle.record.specs.Kinds.{kind_of, length_of};

/// The kind of a record: the eight kinds of node, and the arrow.
#[derive(Clone, Copy, Debug, PartialEq, Eq)]
pub enum Kind {
    Automaton,
    Sequence,
    Closure,
    Guard,
    Choice,
    Synchronisation,
    QuantifiedChoice,
    QuantifiedSynchronisation,
    Arrow,
}

/// A number that no kind has. The guard hosts have a type like it: one for both crates would have to stand in a third.
#[derive(Clone, Copy, Debug, PartialEq, Eq)]
pub struct UnknownKind(pub u16);

impl TryFrom<u16> for Kind {
    type Error = UnknownKind;

    ghost try_from_gives = { λ number r. r ≡ ok_or (kind_of number) (record { 0 = number }) };

    fn try_from(number: u16) -> Result<Kind, UnknownKind> {
        match number {
            1 => Ok(Kind::Automaton),
            2 => Ok(Kind::Sequence),
            3 => Ok(Kind::Closure),
            4 => Ok(Kind::Guard),
            5 => Ok(Kind::Choice),
            6 => Ok(Kind::Synchronisation),
            7 => Ok(Kind::QuantifiedChoice),
            8 => Ok(Kind::QuantifiedSynchronisation),
            9 => Ok(Kind::Arrow),
            _ => Err(UnknownKind(number)),
        }
    }
}

impl Kind {
    /// The length of a record of this kind with a count, in wide numbers: no count wraps.
    pub(crate) fn length(self, count: u16) -> usize
        ensures { result ≡ length_of self count }
    {
        let count = usize::from(count);
        match self {
            Kind::Automaton => 6 + 4 * count,
            Kind::Closure => 4,
            Kind::Sequence | Kind::Guard | Kind::Choice | Kind::QuantifiedChoice => 6,
            Kind::Synchronisation | Kind::QuantifiedSynchronisation => 8 + 2 * count,
            Kind::Arrow => 22,
        }
    }
}
