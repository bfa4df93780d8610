ghost use Rattle.std.specs.Prelude.{◌≡◌};
ghost use Rattle.script.specs.Lines.{line_of};

use crate::calling::call_of;
use crate::line::Line;
use crate::words::Words;
use crate::wrong::Wrong;

/// What a line of a script calls, if it calls anything. An end of a line is no blank here: whoever reads a script splits it there.
pub fn parse(line: &[u8]) -> Result<Option<Line>, Wrong>
    ensures reads_the_line_as_defined { result ≡ line_of line.now }
{
    let mut words = Words::of(line);
    match words.next() {
        None => Ok(None),
        Some(first) => call_of(first, words).map(Some),
    }
}
