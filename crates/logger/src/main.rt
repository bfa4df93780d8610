//! Reads a procedure file, and tells what it holds or why it is refused; or plays a script on it, and tells what each call comes to.
#![tactic(auto)]

ghost use Rattle.std.specs.Prelude.{◌≡◌, IfOk};
ghost use Rattle.std.specs.Process.{exit_status};
ghost use Rattle.procedure.specs.Reading.{reading};
ghost use Rattle.logger.specs.Playing.{script_told};
ghost use Rattle.logger.specs.Tellings.{report_status, lines_status, script_status};

mod account;
mod calling;
mod lines;
mod log;
mod logged;
mod making;
mod playing;
mod report;
mod rows;
mod session;
mod stretch;
mod stretching;
#[cfg(test)]
mod tests;

use crate::account::Account;
use crate::playing::played;
use crate::report::reported;
use std::fs::File;
use std::io::Read;
use std::process::ExitCode;
use std::{env, io};

/// One byte more than a procedure file may have: enough to see that it is too long.
const ENOUGH: u64 = 16_385;

/// The file's bytes, or as many as show that there are too many.
fn bytes_of(rt: &HostRuntime, path: &str, enough: u64) -> io::Result<Vec<u8>> {
    let mut bytes = Vec::new(rt.alloc());
    File::open(rt, path)?.take(enough).read_to_end(&mut bytes)?;
    Ok(bytes)
}

/// The same, or none where the file cannot be read, which is said.
fn readable(rt: &HostRuntime, path: &str, enough: u64) -> anyhow::Result<Option<Vec<u8>>> {
    match bytes_of(rt, path, enough) {
        Ok(bytes) => Ok(Some(bytes)),
        Err(error) => {
            eprintln!(rt; "logger: cannot read {path}: {error}")?;
            Ok(None)
        }
    }
}

/// Prints the report of a file; a failure where the file is refused.
fn tell(rt: &HostRuntime, file: &[u8]) -> anyhow::Result<ExitCode>
    ensures { IfOk result (λ code. exit_status code ≡ report_status (reading file.now)) }
{
    match reported(rt.alloc(), file)? {
        Ok(text) => {
            print!(rt; "{text}")?;
            Ok(ExitCode::SUCCESS)
        }
        Err(text) => {
            print!(rt; "{text}")?;
            Ok(ExitCode::FAILURE)
        }
    }
}

/// Plays a script on a file, and prints what is said; a failure where the file is refused, and where a line is wrong.
fn play(rt: &HostRuntime, file: &[u8], script: &[u8]) -> anyhow::Result<ExitCode>
    ensures { IfOk result (λ code. exit_status code ≡ script_status (script_told file.now script.now)) }
{
    match played(rt.alloc(), file, script)? {
        Ok(account) => conclude(rt, &account),
        Err(text) => {
            print!(rt; "{text}")?;
            Ok(ExitCode::FAILURE)
        }
    }
}

/// Prints what was said, and the line that is wrong.
fn conclude(rt: &HostRuntime, account: &Account) -> anyhow::Result<ExitCode>
    ensures { IfOk result (λ code. exit_status code ≡ lines_status account.now.wrong) }
{
    print!(rt; "{}", account.said.as_str())?;
    match account.wrong {
        None => Ok(ExitCode::SUCCESS),
        Some(line) => {
            eprintln!(rt; "{line}")?;
            Ok(ExitCode::FAILURE)
        }
    }
}

/// What the program is asked for: the report of a file, or a script played on it; a failure also where one cannot be read.
fn answer(rt: &HostRuntime, path: &str, script: Option<String>) -> anyhow::Result<ExitCode> {
    let Some(file) = readable(rt, path, ENOUGH)? else {
        return Ok(ExitCode::FAILURE);
    };
    let Some(script) = script else {
        return tell(rt, &file);
    };
    let Some(script) = readable(rt, script.as_str(), u64::MAX)? else {
        return Ok(ExitCode::FAILURE);
    };
    play(rt, &file, &script)
}

fn main(rt: HostRuntime) -> anyhow::Result<ExitCode> {
    let mut args = env::args(&rt)?;
    let _program = args.next();
    let Some(path) = args.next() else {
        eprintln!(rt; "logger: no file is named: write logger FILE [SCRIPT]")?;
        return Ok(ExitCode::FAILURE);
    };
    answer(&rt, path.as_str(), args.next())
}
