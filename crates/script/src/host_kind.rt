ghost use Rattle.std.specs.Prelude.{◌≡◌};
ghost use Rattle.script.specs.Names.{host_kind_of};

/// The guard hosts that a script may choose.
#[derive(Clone, Copy, Debug, PartialEq, Eq)]
pub enum HostKind {
    Limits,
    Tallies,
}

impl HostKind {
    /// The host that a word is.
    pub(crate) fn of(word: &[u8]) -> Option<HostKind>
        ensures { result ≡ host_kind_of word.now }
    {
        match word {
            b"limits" => Some(HostKind::Limits),
            b"tallies" => Some(HostKind::Tallies),
            _ => None,
        }
    }
}
