ghost use Rattle.std.specs.Prelude.{◌≡◌, is_ok, IfOk, string_bytes};
ghost use Rattle.procedure.specs.Reading.{reading};
ghost use Rattle.text.specs.Reports.{report_text};
ghost use Rattle.logger.specs.Said.{said};

use fault::fault::Fault;
use procedure::procedure::Procedure;
use std::alloc::{AllocError, Global};
use text::fault_line::{ReasonLine, RefusedLine};
use text::listing::Listing;

/// What the program says: of a sound file what it holds, and of any other why it is refused.
pub type Report = Result<String, String>;

/// Reads a file and reports on it. The outer `Err` stands for want of memory; the contract cannot say when that is.
pub fn reported(heap: Global, file: &[u8]) -> Result<Report, AllocError>
    ensures says_what_the_reading_gives { IfOk result (λ x. said x ≡ report_text (reading file.now)) }
    ensures says_whether_it_is_sound { IfOk result (λ x. is_ok x ≡ is_ok (reading file.now)) }
{
    let mut procedure = Procedure::new();
    match procedure.read(file) {
        Ok(_) => Ok(Ok(format!(in heap; "{}", Listing(&procedure))?)),
        Err(fault) => Ok(Err(refusal(heap, fault)?)),
    }
}

/// Why a file is refused.
pub(crate) fn refusal(heap: Global, fault: Fault) -> Result<String, AllocError>
    ensures { IfOk result (λ text. string_bytes text ≡ report_text (Err fault)) }
{
    format!(in heap; "{}\n{}\n", RefusedLine(fault), ReasonLine(fault))
}
