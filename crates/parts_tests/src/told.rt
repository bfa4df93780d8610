use event::event::Event;
use fault::fault::Fault;

/// What a call tells that answers nothing: the question, the layer and the place of the refusal, in numbers: a `Question`
/// would say less, since the numbers are what a caller is told.
pub(crate) type Told = Result<(), (u8, u8, usize)>;

pub(crate) fn told(answer: Result<(), Fault>) -> Told {
    answer.map_err(|fault| fault.numbers())
}

/// An event without arguments.
pub(crate) fn plain(label: u16) -> Event {
    Event {
        label,
        count: 0,
        first: 0,
        second: 0,
    }
}
