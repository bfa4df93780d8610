ghost use Rattle.std.specs.Prelude.{◌≡◌, true, is_ok};
ghost use Rattle.procedure.specs.Reading.{reading};

use crate::stretch::Stretch;
use roster::ranges::Ranges;
use run::run::Run;
use script::hosting::Host;
use std::alloc::Global;

/// A script that is being played on a procedure file.
#[derive(Drop)]
pub(crate) struct Session<'a> {
    pub(crate) heap: Global,
    pub(crate) file: &'a [u8],
    pub(crate) run: Run,
    pub(crate) ranges: Ranges,
    pub(crate) host: Host,
    /// Whether a call other than the choice of a host was read.
    pub(crate) begun: bool,
    /// The calls that were read and not made yet.
    pub(crate) stretch: Stretch,
    /// What was said so far.
    pub(crate) said: String,
    ghost sound: { is_ok (reading file.now) ≡ true },
}
