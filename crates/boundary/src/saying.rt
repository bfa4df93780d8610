ghost use Rattle.std.specs.Prelude.{◌≡◌, [], ◌∷◌};
ghost use Rattle.boundary.specs.Texts.{answer_numbers, event_numbers, events_numbers, page, said};

use event::event::Event;
use fault::fault::Fault;

/// Writes a number at a place, if there is one, and answers the place behind it.
pub(crate) fn say(out: &mut [u64], at: usize, number: u64) -> usize
    ensures { page out.new result ≡ said (number ∷ []) (page out.old at) }
{
    if at >= out.len() {
        return at;
    }
    out[at] = number;
    at + 1
}

/// Says an answer: a count behind 0, or the three numbers of a refusal.
pub(crate) fn say_answer(out: &mut [u64], at: usize, answer: Result<usize, Fault>) -> usize
    ensures { page out.new result ≡ said (answer_numbers answer) (page out.old at) }
{
    match answer {
        Ok(count) => {
            let at = say(out, at, 0);
            say(out, at, count as u64)
        }
        Err(fault) => {
            let (number, layer, place) = fault.numbers();
            let at = say(out, at, u64::from(number));
            let at = say(out, at, u64::from(layer));
            say(out, at, place as u64)
        }
    }
}

/// Says the four numbers of an event.
fn say_event(out: &mut [u64], at: usize, event: Event) -> usize
    ensures { page out.new result ≡ said (event_numbers event) (page out.old at) }
{
    let at = say(out, at, u64::from(event.label));
    let at = say(out, at, u64::from(event.count));
    let at = say(out, at, u64::from(event.first));
    say(out, at, u64::from(event.second))
}

/// Says some events, one after the other.
pub(crate) fn say_events(out: &mut [u64], at: usize, events: &[Event]) -> usize
    ensures { page out.new result ≡ said (events_numbers events.now) (page out.old at) }
{
    let mut at = at;
    for event in events {
        at = say_event(out, at, *event);
    }
    at
}
