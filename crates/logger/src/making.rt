ghost use Rattle.std.specs.Prelude.{◌≡◌, ◌∷◌, ◌++◌, true, ℕ, List, Option, codes, map, is_ok, OnOk, string_bytes};
ghost use Rattle.procedure.specs.Reading.{reading, left_by};
ghost use Rattle.roster.specs.Runs.{ranges_values};
ghost use Rattle.text.specs.Texts.{◌⌢◌};
ghost use Rattle.script.specs.Texts.{held_line};
ghost use Rattle.script.specs.declared.line.Line.TheVariants as line;
ghost use Rattle.logger.specs.Playing.{after_lines};
ghost use Rattle.logger.specs.Stretches.{standing, after_calls, line_of_call, waiting};

use crate::log::Log;
use crate::stretch::Stretch;
use event::event::Event;
use fault::fault::Fault;
use host::host::GuardHost;
use roster::ranges::Ranges;
use run::run::Run;
use script::line::Line;
use script::outcome_line::HeldLine;
use std::alloc::{AllocError, Global};

/// What stands in a place for an event before a menu is listed there.
const NO_EVENT: Event = Event {
    label: 0,
    count: 0,
    first: 0,
    second: 0,
};

/// Makes the calls of a stretch on a run, without its opening, and says what they came to.
fn replayed<H: GuardHost>(
    heap: Global,
    run: &mut Run,
    host: &mut H,
    stretch: &Stretch,
    said: &mut String,
) -> Result<(), AllocError>
    ensures { (told : ℕ → Option (List ℕ)) → OnOk result (standing run.new (H.meaning host.new) told (string_bytes said.new) ≡ after_calls (standing run.old (H.meaning host.old) told (string_bytes said.old)) stretch.now.calls.items) }
{
    let calls = stretch.calls.as_slice();
    let mut answers = vec![in heap; Ok(0); calls.len()]?;
    let mut events = vec![in heap; NO_EVENT; stretch.places]?;
    run.replay(host, calls, &mut answers, &mut events);
    write!(
        said,
        "{}",
        Log {
            calls,
            answers: &answers,
            events: &events
        }
    )
}

/// Says what an opening is answered.
fn say_opening(
    ceiling: u16,
    answer: Result<usize, Fault>,
    said: &mut String,
) -> Result<(), AllocError>
    ensures { OnOk result (string_bytes said.new ≡ string_bytes said.old ++ (held_line (line.Open ceiling) answer ⌢ codes "\n")) }
{
    let call = Line::Open { ceiling };
    writeln!(said, "{}", HeldLine { call, answer })
}

/// Opens what a file draws, makes the calls of a stretch, and says what all came to. Where the opening is refused, they are made on the run as it was.
fn rehearsed<H: GuardHost>(
    heap: Global,
    file: &[u8],
    ranges: &Ranges,
    ceiling: u16,
    run: &mut Run,
    host: &mut H,
    stretch: &Stretch,
    said: &mut String,
) -> Result<(), AllocError>
    requires sound { is_ok (reading file.now) ≡ true }
    ensures { OnOk result (standing run.new (H.meaning host.new) (ranges_values ranges.now.entries) (string_bytes said.new) ≡ after_lines (left_by (reading file.now)) (standing run.old (H.meaning host.old) (ranges_values ranges.now.entries) (string_bytes said.old)) (line.Open ceiling ∷ map line_of_call stretch.now.calls.items)) }
{
    let calls = stretch.calls.as_slice();
    let mut answers = vec![in heap; Ok(0); calls.len()]?;
    let mut events = vec![in heap; NO_EVENT; stretch.places]?;
    match run.rehearse(
        file,
        ranges,
        usize::from(ceiling),
        host,
        calls,
        &mut answers,
        &mut events,
    ) {
        Err(fault) => {
            say_opening(ceiling, Err(fault), said)?;
            replayed(heap, run, host, stretch, said)
        }
        Ok((rows, _made)) => {
            say_opening(ceiling, Ok(rows), said)?;
            write!(
                said,
                "{}",
                Log {
                    calls,
                    answers: &answers,
                    events: &events
                }
            )
        }
    }
}

/// Makes the calls of a stretch on a run, its opening first, and says what they came to.
pub(crate) fn make<H: GuardHost>(
    heap: Global,
    file: &[u8],
    ranges: &Ranges,
    run: &mut Run,
    host: &mut H,
    stretch: &Stretch,
    said: &mut String,
) -> Result<(), AllocError>
    requires sound { is_ok (reading file.now) ≡ true }
    ensures { OnOk result (standing run.new (H.meaning host.new) (ranges_values ranges.now.entries) (string_bytes said.new) ≡ after_lines (left_by (reading file.now)) (standing run.old (H.meaning host.old) (ranges_values ranges.now.entries) (string_bytes said.old)) (waiting stretch.now)) }
{
    match stretch.opening {
        None => replayed(heap, run, host, stretch, said),
        Some(ceiling) => rehearsed(heap, file, ranges, ceiling, run, host, stretch, said),
    }
}
