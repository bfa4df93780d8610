ghost use Rattle.std.specs.Prelude.{◌≡◌, Some, take, drop};
ghost use Rattle.std.specs.Iterator.{YieldsFirstBy, item_count};
ghost use Rattle.run.specs.Replays.{outcomes_in};
ghost use Rattle.run.specs.Runs.{listed_by};
ghost use Rattle.logger.specs.Logs.{logged, outcome_line, log_text};

use crate::logged::Logged;
use event::event::Event;
use fault::fault::Fault;
use law::call::Call;
use std::fmt;

/// What calls came to, in order: their answers, and the events that menus listed, where the places of each menu come one after the other.
#[derive(Clone, Copy)]
pub(crate) struct Log<'a> {
    pub(crate) calls: &'a [Call],
    pub(crate) answers: &'a [Result<usize, Fault>],
    pub(crate) events: &'a [Event],
}

/// The events that a menu listed: as many as it answers, or as many as it had places.
fn listed(places: usize, answer: Result<usize, Fault>, events: &[Event]) -> &[Event]
    ensures { result.now ≡ take (listed_by places answer) events.now }
{
    let count = answer.unwrap_or(places);
    &events[..count.min(events.len())]
}

/// The first of some places, as many as a call brings.
fn first(places: usize, events: &[Event]) -> &[Event]
    ensures { result.now ≡ take places events.now }
{
    &events[..places.min(events.len())]
}

/// What is behind them.
fn behind(places: usize, events: &[Event]) -> &[Event]
    ensures { result.now ≡ drop places events.now }
{
    &events[places.min(events.len())..]
}

impl<'a> Iterator for Log<'a> {
    type Item = Logged<'a>;

    ghost next_gives = { YieldsFirstBy logged (λ left. outcomes_in left.calls.now left.answers.now left.events.now) };

    ghost remaining = { item_count (λ left. outcomes_in left.calls.now left.answers.now left.events.now) };

    fn next(&mut self) -> Option<Logged<'a>> {
        let (call, calls) = self.calls.split_first()?;
        let (answer, answers) = self.answers.split_first()?;
        let answer = *answer;
        let events = self.events;
        self.calls = calls;
        self.answers = answers;
        match *call {
            Call::Offer { event } => Some(Logged::Offered { event, answer }),
            Call::Menu { places } => {
                self.events = behind(places, events);
                let events = listed(places, answer, first(places, events));
                Some(Logged::Listed {
                    places,
                    answer,
                    events,
                })
            }
        }
    }
}

impl fmt::Display for Log<'_> {
    ghost output = { λ x. Some (log_text (outcomes_in x.calls.now x.answers.now x.events.now)) };

    fn fmt<W: fmt::Write>(&self, f: &mut fmt::Formatter<W>) -> fmt::Result {
        for outcome in *self {
            write!(f, "{outcome}")?;
        }
        Ok(())
    }
}
