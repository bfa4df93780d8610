ghost use Rattle.std.specs.Prelude.{◌≡◌, slice_index};
ghost use Rattle.boundary.specs.Settings.{field};
ghost use Rattle.boundary.specs.Playing.{asked_in};

use event::event::Event;

/// A call that another program asks for.
#[derive(Clone, Copy)]
pub(crate) enum Asked {
    Offer { event: Event },
    Menu { places: usize },
    Open { ceiling: usize },
    Tell,
}

/// The number at a place, 0 past the last one.
fn at(numbers: &[u64], place: usize) -> u64
    ensures { result ≡ slice_index numbers.now place }
{
    numbers.get(place).copied().unwrap_or(0)
}

/// A number as a field holds it; one above 65,535 is taken for that.
pub(crate) fn field(number: u64) -> u16
    ensures { result ≡ field number }
{
    u16::try_from(number).unwrap_or(u16::MAX)
}

impl Asked {
    /// The call of five numbers.
    pub(crate) fn of(numbers: &[u64]) -> Asked
        ensures { result ≡ asked_in numbers.now }
    {
        match at(numbers, 0) {
            0 => Asked::Offer {
                event: Event {
                    label: field(at(numbers, 1)),
                    count: field(at(numbers, 2)),
                    first: field(at(numbers, 3)),
                    second: field(at(numbers, 4)),
                },
            },
            1 => Asked::Menu {
                places: at(numbers, 1) as usize,
            },
            2 => Asked::Open {
                ceiling: at(numbers, 1) as usize,
            },
            _ => Asked::Tell,
        }
    }
}
