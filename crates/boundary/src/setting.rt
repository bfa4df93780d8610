ghost use Rattle.std.specs.Prelude.{◌≡◌, List};
ghost use Rattle.fault.specs.Asking.{Asked, refusal, answer_or};
ghost use Rattle.roster.specs.Runs.{ranges_values};
ghost use Rattle.boundary.specs.Texts.{page, said};
ghost use Rattle.boundary.specs.Settings.{setting_answer, entries_of, ranges_numbers, ranges_told, limits_numbers, limits_set, tallies_numbers, tallies_set};

use crate::asked::field;
use crate::saying::say_answer;
use fault::fault::Fault;
use host::limits::Limits;
use host::tallies::Tallies;
use roster::ranges::Ranges;

/// The answer of a setting, with the count 0.
fn counted(answer: Result<(), Fault>) -> Result<usize, Fault>
    ensures { (asks : List Asked) → answer ≡ answer_or (refusal asks) tt → result ≡ setting_answer asks }
{
    answer.map(|()| 0)
}

/// Sets ranges, by three numbers each, and says what each setting is answered.
pub(crate) fn set_ranges(ranges: &mut Ranges, numbers: &[u64], out: &mut [u64], at: usize) -> usize
    ensures says_each_answer { page out.new result ≡ said (ranges_numbers numbers.now) (page out.old at) }
    ensures tells_the_values { ranges_values ranges.new.entries ≡ ranges_told (ranges_values ranges.old.entries) numbers.now }
{
    let mut at = at;
    for fields in numbers.chunks_exact(3) {
        let answer = ranges.set(field(fields[0]), field(fields[1]), field(fields[2]));
        at = say_answer(out, at, counted(answer));
    }
    at
}

/// Sets limits, by four numbers each, and says what each setting is answered.
pub(crate) fn set_limits(limits: &mut Limits, numbers: &[u64], out: &mut [u64], at: usize) -> usize
    ensures says_each_answer { page out.new result ≡ said (limits_numbers numbers.now) (page out.old at) }
    ensures keeps_the_limits { entries_of limits.new.entries ≡ limits_set (entries_of limits.old.entries) numbers.now }
{
    let mut at = at;
    for fields in numbers.chunks_exact(4) {
        let answer = limits.set(
            field(fields[0]),
            field(fields[1]),
            field(fields[2]),
            field(fields[3]),
        );
        at = say_answer(out, at, counted(answer));
    }
    at
}

/// Sets tallies, by four numbers each of which the last is not looked at, and says what each setting is answered.
pub(crate) fn set_tallies(
    tallies: &mut Tallies,
    numbers: &[u64],
    out: &mut [u64],
    at: usize,
) -> usize
    ensures says_each_answer { page out.new result ≡ said (tallies_numbers numbers.now) (page out.old at) }
    ensures keeps_the_tallies { entries_of tallies.new.entries ≡ tallies_set (entries_of tallies.old.entries) numbers.now }
{
    let mut at = at;
    for fields in numbers.chunks_exact(4) {
        let answer = tallies.set(field(fields[0]), field(fields[1]), field(fields[2]));
        at = say_answer(out, at, counted(answer));
    }
    at
}
