ghost use Rattle.std.specs.Prelude.{◌≡◌, slice_index};
ghost use Rattle.script.specs.Lines.{event_offered, call_by, numbered_call, host_call, call_of};
ghost use Rattle.script.specs.Words.{words_between};

use crate::host_kind::HostKind;
use crate::line::Line;
use crate::name::Name;
use crate::number::numbers;
use crate::words::Words;
use crate::wrong::Wrong;
use event::event::Event;
use notation::table::Table;

/// The number at a place, 0 past the last one.
fn at(numbers: &[u16], place: usize) -> u16
    ensures { result ≡ slice_index numbers.now place }
{
    numbers.get(place).copied().unwrap_or(0)
}

/// The event of a label and the arguments behind it.
fn event_offered(numbers: &Table<u16, 4>) -> Event
    ensures { result ≡ event_offered numbers.now.items }
{
    let ns = numbers.as_slice();
    Event {
        label: at(ns, 0),
        count: numbers.len().saturating_sub(1) as u16,
        first: at(ns, 1),
        second: at(ns, 2),
    }
}

/// The call of a name and its numbers.
fn call_by(name: Name, numbers: &Table<u16, 4>) -> Line
    ensures { result ≡ call_by name numbers.now.items }
{
    let ns = numbers.as_slice();
    match name {
        Name::Range => Line::Range {
            ty: at(ns, 0),
            first: at(ns, 1),
            count: at(ns, 2),
        },
        Name::Limit => Line::Limit {
            guard: at(ns, 0),
            operand: at(ns, 1),
            comparison: at(ns, 2),
            constant: at(ns, 3),
        },
        Name::Tally => Line::Tally {
            guard: at(ns, 0),
            label: at(ns, 1),
            bound: at(ns, 2),
        },
        Name::Open => Line::Open { ceiling: at(ns, 0) },
        Name::Offer => Line::Offer {
            event: event_offered(numbers),
        },
        Name::Raw => Line::Offer {
            event: Event {
                label: at(ns, 0),
                count: at(ns, 1),
                first: at(ns, 2),
                second: at(ns, 3),
            },
        },
        Name::Menu => Line::Menu {
            places: if ns.is_empty() { 64 } else { at(ns, 0) },
        },
        Name::Rows => Line::Rows,
    }
}

/// The call of a name and the words behind it.
fn numbered_call(name: Name, words: Words<'_>) -> Result<Line, Wrong>
    ensures { result ≡ numbered_call name (words_between words.entry.text.now) }
{
    let count = words.count();
    if count < name.fewest() {
        return Err(Wrong::TooFew(name));
    }
    if count > name.most() {
        return Err(Wrong::TooMany(name));
    }
    let numbers = numbers(words)?;
    Ok(call_by(name, &numbers))
}

/// The choice of a host by the words behind `host`.
fn host_call(mut words: Words<'_>) -> Result<Line, Wrong>
    ensures { result ≡ host_call (words_between words.entry.text.now) }
{
    let (Some(word), None) = (words.next(), words.next()) else {
        return Err(Wrong::NoSuchHost);
    };
    let kind = HostKind::of(word).ok_or(Wrong::NoSuchHost)?;
    Ok(Line::Host { kind })
}

/// The call of a line by its first word and the others.
pub(crate) fn call_of(first: &[u8], others: Words<'_>) -> Result<Line, Wrong>
    ensures { result ≡ call_of first.now (words_between others.entry.text.now) }
{
    match first {
        b"host" => host_call(others),
        _ => numbered_call(Name::of(first).ok_or(Wrong::NoSuchCall)?, others),
    }
}
