ghost use Rattle.std.specs.Prelude.{◌≡◌, ◌<◌, [], length, slice_index_or};
ghost use Rattle.procedure.specs.Procedures.{drawing};
ghost use Rattle.roster.specs.Runs.{ranges_values};
ghost use Rattle.run.specs.Runs.{tree_in, states};
ghost use Rattle.boundary.specs.Texts.{page, said};
ghost use Rattle.boundary.specs.Playing.{standing, unopened, states_numbers, call_numbers, after_call, calls_numbers, listed_numbers};

use crate::asked::Asked;
use crate::saying::{say, say_answer, say_events};
use event::event::Event;
use fault::fault::Fault;
use host::host::GuardHost;
use procedure::procedure::Procedure;
use roster::ranges::Ranges;
use run::run::Run;

const BLANK: Event = Event {
    label: 0,
    count: 0,
    first: 0,
    second: 0,
};

/// Says the cells of a held state, as many as the root takes.
fn say_cells(run: &Run, state: usize, out: &mut [u64], at: usize) -> usize
    requires held { state < length (states run.now) }
    ensures { page out.new result ≡ said (slice_index_or (states run.now) state []) (page out.old at) }
{
    let mut at = at;
    for cell in 0..run.width() {
        at = say(out, at, u64::from(run.cell(state, cell).unwrap_or(0)));
    }
    at
}

/// Says what a run tells: how many states it holds, how many cells the root takes, whether some state is finished, and all cells.
fn say_states(run: &Run, out: &mut [u64], at: usize) -> usize
    ensures { page out.new result ≡ said (states_numbers (tree_in run.now) (states run.now)) (page out.old at) }
{
    let at = say(out, at, run.len() as u64);
    let at = say(out, at, run.width() as u64);
    let mut at = say(out, at, u64::from(run.is_finished()));
    for state in 0..run.len() {
        at = say_cells(run, state, out, at);
    }
    at
}

/// Says a menu into so many places: its answer, and what it listed.
fn say_menu(answer: Result<usize, Fault>, places: &[Event], out: &mut [u64], at: usize) -> usize
    ensures { page out.new result ≡ said (listed_numbers answer places.now) (page out.old at) }
{
    let at = say_answer(out, at, answer);
    let count = answer.unwrap_or(places.len());
    say_events(out, at, &places[..count.min(places.len())])
}

/// Makes a call on a run, and says what it comes to.
fn make<H: GuardHost>(
    run: &mut Run,
    procedure: &Procedure,
    ranges: &Ranges,
    host: &mut H,
    asked: Asked,
    list: &mut [Event],
    out: &mut [u64],
    at: usize,
) -> usize
    requires has_all_places { length list.old ≡ 65536 }
    ensures says_what_it_comes_to { page out.new result ≡ said (call_numbers (drawing procedure.now) (ranges_values ranges.now.entries) (standing run.old (H.meaning host.old)) asked) (page out.old at) }
    ensures stands_as_after_it { standing run.new (H.meaning host.new) ≡ after_call (drawing procedure.now) (ranges_values ranges.now.entries) (standing run.old (H.meaning host.old)) asked }
{
    match asked {
        Asked::Offer { event } => say_answer(out, at, run.offer(host, event)),
        Asked::Menu { places } => {
            let places = places.min(list.len());
            let answer = run.menu(host, &mut list[..places]);
            say_menu(answer, &list[..places], out, at)
        }
        Asked::Open { ceiling } => say_answer(out, at, run.open(procedure, ranges, ceiling)),
        Asked::Tell => say_states(run, out, at),
    }
}

/// Makes calls, by five numbers each, on a run that was never opened, and says what each comes to.
pub(crate) fn play<H: GuardHost>(
    procedure: &Procedure,
    ranges: &Ranges,
    host: &mut H,
    numbers: &[u64],
    out: &mut [u64],
    at: usize,
) -> usize
    ensures { page out.new result ≡ said (calls_numbers (drawing procedure.now) (ranges_values ranges.now.entries) (unopened (H.meaning host.old)) numbers.now) (page out.old at) }
{
    let mut run = Run::new();
    let mut list = [BLANK; 65536];
    let mut at = at;
    for numbers in numbers.chunks_exact(5) {
        at = make(
            &mut run,
            procedure,
            ranges,
            host,
            Asked::of(numbers),
            &mut list,
            out,
            at,
        );
    }
    at
}
