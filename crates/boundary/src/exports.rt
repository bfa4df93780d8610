ghost use Rattle.std.specs.Prelude.{◌≡◌, length, min};
ghost use Rattle.boundary.specs.Texts.{text_over};
ghost use Rattle.boundary.specs.Playing.{read_text, play_text};

use crate::playing::play;
use crate::saying::say_answer;
use crate::setting::{set_limits, set_ranges, set_tallies};
use host::limits::Limits;
use host::tallies::Tallies;
use procedure::procedure::Procedure;
use roster::ranges::Ranges;

/// Reads a file, and says the answer.
#[unsafe(no_mangle)]
pub extern "C" fn cutholyar_read(file: &[u8], out: &mut [u64]) -> usize
    ensures writes_the_text { out.new ≡ text_over (read_text file.now) out.old }
    ensures answers_how_much_it_wrote { result ≡ min (length (read_text file.now)) (length out.old) }
{
    let mut procedure = Procedure::new();
    say_answer(out, 0, procedure.read(file))
}

/// Reads a file, sets ranges and a host, makes calls, and says what each comes to.
#[unsafe(no_mangle)]
pub extern "C" fn cutholyar_play(
    host: u64,
    file: &[u8],
    ranges: &[u64],
    settings: &[u64],
    calls: &[u64],
    out: &mut [u64],
) -> usize
    ensures writes_the_text { out.new ≡ text_over (play_text host file.now ranges.now settings.now calls.now) out.old }
    ensures answers_how_much_it_wrote { result ≡ min (length (play_text host file.now ranges.now settings.now calls.now)) (length out.old) }
{
    let mut procedure = Procedure::new();
    let at = say_answer(out, 0, procedure.read(file));
    let mut roster = Ranges::new();
    let at = set_ranges(&mut roster, ranges, out, at);
    if host == 0 {
        let mut limits = Limits::new();
        let at = set_limits(&mut limits, settings, out, at);
        play(&procedure, &roster, &mut limits, calls, out, at)
    } else {
        let mut tallies = Tallies::new();
        let at = set_tallies(&mut tallies, settings, out, at);
        play(&procedure, &roster, &mut tallies, calls, out, at)
    }
}
