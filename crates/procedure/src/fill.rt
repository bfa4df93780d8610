ghost use Rattle.std.specs.Prelude.{◌≡◌, ◌+◌, ◌≤◌, length, Some, None, MatchResult};
ghost use Rattle.fault.specs.Asking.{refusal};
ghost use Rattle.record.specs.Bytes.{field_at};
ghost use Rattle.procedure.specs.Drawings.{nothing_drawn, grown};
ghost use Rattle.procedure.specs.Reading.{records, drawn_by, file_asks, entry_here, record_asks};

use crate::draft::Draft;
use fault::fault::{Fault, Question};
use record::record::Record;

const MOST_BYTES: usize = 16_384;

impl Draft {
    /// Questions 2 to 7 of a record, whose entry joins the draft; tells where the next record begins.
    fn read(&mut self, here: &Record) -> Result<usize, Fault>
        ensures { MatchResult result
            (λ next. (self.new ≡ grown self.old (entry_here here.now.bytes.now here.now.at)) × (refusal (record_asks here.now.bytes.now here.now.at here.now.place self.old) ≡ None) × (next ≡ here.now.at + 2 + field_at here.now.bytes.now here.now.at) × (next ≤ length here.now.bytes.now))
            (λ f. refusal (record_asks here.now.bytes.now here.now.at here.now.place self.old) ≡ Some f) }
    {
        let frame = here.frame()?;
        let entry = here.decode(frame.kind)?;
        self.admit(entry, here.place)?;
        Ok(frame.end)
    }

    /// Questions 1 to 7: what one record after the other draws, into an empty draft. It is filled where it lies: a draft that is handed
    /// on in a `Result` is written twice more, 20 KB each.
    pub(crate) fn fill(&mut self, bytes: &[u8]) -> Result<(), Fault>
        requires { self.old ≡ nothing_drawn }
        ensures { MatchResult result
            (λ _. (self.new ≡ drawn_by bytes.now (records bytes.now)) × (refusal (file_asks bytes.now) ≡ None))
            (λ f. refusal (file_asks bytes.now) ≡ Some f) }
    {
        if bytes.len() > MOST_BYTES {
            return Err(Question::FileWithinLimit.at(0));
        }
        let mut at = 0;
        // a record takes a byte or more, so there are no more records than bytes; an iterator of records would have to say in
        // ghost members all that a reading knows so far
        for place in 0..bytes.len() {
            if at >= bytes.len() {
                break;
            }
            at = self.read(&Record { bytes, at, place })?;
        }
        Ok(())
    }
}
