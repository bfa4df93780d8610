ghost use Rattle.std.specs.Prelude.{◌≡◌, ◌+◌, ◌*◌, ◌≤◌, true, length, Some, None, MatchResult};
ghost use Rattle.fault.specs.Asking.{refusal};
ghost use Rattle.record.specs.Bytes.{field_at};
ghost use Rattle.record.specs.Kinds.{kind_of, count_at, shortest_of};
ghost use Rattle.record.specs.Frames.{whole, exact, frame_asks};

use crate::kind::Kind;
use crate::record::Record;
use fault::fault::{Fault, Question};

/// A record's kind, and where the next record begins.
#[derive(Clone, Copy)]
pub struct Frame {
    pub kind: Kind,
    pub end: usize,
}

impl Record<'_> {
    /// The count of a record of this kind, 0 where it has none.
    // a `Result`, as a rule of the project has what reads a field answer; here none is a refusal
    fn count(&self, kind: Kind) -> Result<u16, Fault>
        requires { self.now.at + 2 + shortest_of kind ≤ length self.now.bytes.now }
        ensures { MatchResult result (λ n. n ≡ count_at kind self.now.bytes.now self.now.at) (λ _. ⊥) }
    {
        match kind {
            Kind::Automaton => self.field(4),
            Kind::Synchronisation | Kind::QuantifiedSynchronisation => self.field(8),
            _ => Ok(0),
        }
    }

    /// Questions 2 to 4.
    pub fn frame(&self) -> Result<Frame, Fault>
        ensures frames_the_record_or_says_the_first_no { MatchResult result
            (λ f. (whole self.now.bytes.now self.now.at ≡ true) × (kind_of (field_at self.now.bytes.now (self.now.at + 2)) ≡ Some f.kind) × (exact self.now.bytes.now self.now.at ≡ true) × (f.end ≡ self.now.at + 2 + field_at self.now.bytes.now self.now.at))
            (λ e. refusal (frame_asks self.now.bytes.now self.now.at self.now.place) ≡ Some e) }
    {
        let len = usize::from(self.field(0)?);
        let number = self.field(2)?;
        if len < 2 || self.bytes.len() - self.at - 2 < len {
            return Err(self.fault(Question::RecordWhole));
        }
        // `map_err` and `?` were tried: the check leaves a goal that it finds here
        let Ok(kind) = Kind::try_from(number) else {
            return Err(self.fault(Question::KindKnown));
        };
        if len < kind.length(0) || len != kind.length(self.count(kind)?) {
            return Err(self.fault(Question::LengthExact));
        }
        Ok(Frame {
            kind,
            end: self.at + 2 + len,
        })
    }
}
