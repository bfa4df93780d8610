ghost use Rattle.std.specs.Prelude.{◌≡◌, true, is_ok, OnOk, IfOk, string_bytes};
ghost use Rattle.procedure.specs.Reading.{reading};
ghost use Rattle.logger.specs.Scripts.{first_choice, lines_in, wrong_line, calls_of, calls_in, wrong_in};
ghost use Rattle.logger.specs.Playing.{unopened, after_lines};
ghost use Rattle.logger.specs.Sessions.{drawn_in, so_far, choice_of, Came};

use crate::session::Session;
use crate::stretch::Stretch;
use roster::ranges::Ranges;
use run::run::Run;
use script::error_line::ErrorLine;
use script::host_kind::HostKind;
use script::hosting::Host;
use script::parsing::parse;
use script::wrong::Wrong;
use std::alloc::{AllocError, Global};

impl<'a> Session<'a> {
    /// With limits that are not set, on a run that was never opened, and with something said already.
    pub(crate) fn new(heap: Global, file: &'a [u8], said: String) -> Session<'a>
        requires sound { is_ok (reading file.now) ≡ true }
        ensures stands_unopened { so_far result ≡ unopened (string_bytes said) }
        ensures knows_of_no_line { choice_of result ≡ first_choice }
        ensures has_the_file { result.file.now ≡ file.now }
    {
        Session {
            heap,
            file,
            run: Run::new(),
            ranges: Ranges::new(),
            host: Host::of(HostKind::Limits),
            begun: false,
            stretch: Stretch::new(heap),
            said,
        }
    }

    /// Plays a script to its end, or up to a line that is wrong.
    pub(crate) fn play(&mut self, script: &[u8]) -> Result<Option<ErrorLine>, AllocError>
        ensures says_what_its_calls_come_to { OnOk result (string_bytes self.new.said ≡ (after_lines (drawn_in self.old) (so_far self.old) (calls_in (choice_of self.old) (lines_in script.now))).said) }
        ensures finds_the_first_wrong_line { IfOk result (λ wrong. wrong ≡ wrong_in (choice_of self.old) 1 (lines_in script.now)) }
    {
        let wrong = self.read(script)?;
        self.finish()?;
        Ok(wrong)
    }

    /// The same, where the last calls may still wait.
    fn read(&mut self, script: &[u8]) -> Result<Option<ErrorLine>, AllocError>
        ensures stands_as_its_calls_say { OnOk result (so_far self.new ≡ after_lines (drawn_in self.old) (so_far self.old) (calls_in (choice_of self.old) (lines_in script.now))) }
        ensures finds_the_first_wrong_line { IfOk result (λ wrong. wrong ≡ wrong_in (choice_of self.old) 1 (lines_in script.now)) }
    {
        for (i, line) in script.split(|byte| *byte == b'\n').enumerate() {
            if let Some(wrong) = self.line(line)? {
                let number = i + 1;
                return Ok(Some(ErrorLine { number, wrong }));
            }
        }
        Ok(None)
    }

    /// One line; what is wrong with it, if anything is. One that is wrong says nothing.
    fn line(&mut self, line: &[u8]) -> Result<Option<Wrong>, AllocError>
        ensures finds_what_is_wrong { IfOk result (λ wrong. wrong ≡ wrong_line (choice_of self.old) line.now) }
        ensures is_made_unless_wrong { IfOk result (λ wrong. Came self.old wrong (calls_of line.now) self.new) }
    {
        match parse(line) {
            Err(wrong) => Ok(Some(wrong)),
            Ok(None) => Ok(None),
            Ok(Some(call)) => self.call(call),
        }
    }
}
