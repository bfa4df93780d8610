ghost use Rattle.std.specs.Prelude.{◌≡◌, IfOk, string_bytes};
ghost use Rattle.logger.specs.Playing.{script_told};
ghost use Rattle.logger.specs.Tellings.{told_of};

use crate::account::Account;
use crate::report::refusal;
use crate::session::Session;
use procedure::procedure::Procedure;
use std::alloc::{AllocError, Global};
use text::accepted_line::AcceptedLine;

/// Plays a script on a procedure file; a file that is refused says why. The outer `Err` stands for want of memory; the contract cannot say when that is.
pub(crate) fn played(
    heap: Global,
    file: &[u8],
    script: &[u8],
) -> Result<Result<Account, String>, AllocError>
    ensures tells_what_each_line_comes_to { IfOk result (λ x. told_of x ≡ script_told file.now script.now) }
{
    let mut procedure = Procedure::new();
    match procedure.read(file) {
        Err(fault) => Ok(Err(refusal(heap, fault)?)),
        Ok(nodes) => {
            let arrows = procedure.arrow_count();
            let said = format!(in heap; "{}\n", AcceptedLine { nodes, arrows })?;
            let mut session = Session::new(heap, file, said);
            let wrong = session.play(script)?;
            let said = session.said;
            Ok(Ok(Account { said, wrong }))
        }
    }
}
