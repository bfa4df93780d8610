ghost use Rattle.std.specs.Prelude.{◌≡◌, ◌+◌, ◌<◌, ◌≤◌, length, MatchResult};
ghost use Rattle.record.specs.Bytes.{field_at};
ghost use Rattle.record.specs.Ranged.{out_of_range};
ghost use Rattle.fault.specs.declared.fault.Question.TheVariants.{RecordWhole};

use fault::fault::{Fault, Question};

/// The record that begins at `at` of a file. Its number is the place of its refusals.
#[derive(Clone, Copy)]
pub struct Record<'a> {
    pub bytes: &'a [u8],
    pub at: usize,
    pub place: usize,
}

impl Record<'_> {
    /// A no to a question on this record.
    pub(crate) fn fault(&self, question: Question) -> Fault
        ensures { result ≡ record { question = question; place = self.now.place } }
    {
        question.at(self.place)
    }

    /// The field whose low byte stands `offset` behind the record's begin.
    pub(crate) fn field(&self, offset: usize) -> Result<u16, Fault>
        ensures { MatchResult result
            (λ v. (self.now.at + offset + 2 ≤ length self.now.bytes.now) × (v ≡ field_at self.now.bytes.now (self.now.at + offset)))
            (λ e. (length self.now.bytes.now < self.now.at + offset + 2) × (e ≡ record { question = RecordWhole; place = self.now.place })) }
    {
        let from_here = self
            .bytes
            .get(self.at..)
            .and_then(|from| from.get(offset..));
        match from_here {
            Some([low, high, ..]) => Ok(u16::from_le_bytes([*low, *high])),
            _ => Err(self.fault(Question::RecordWhole)),
        }
    }

    /// The same field, which must not be above `top`.
    pub(crate) fn at_most(&self, offset: usize, top: u16) -> Result<u16, Fault>
        requires { self.now.at + offset + 2 ≤ length self.now.bytes.now }
        ensures { MatchResult result
            (λ v. (v ≡ field_at self.now.bytes.now (self.now.at + offset)) × (v ≤ top))
            (λ e. (top < field_at self.now.bytes.now (self.now.at + offset)) × (e ≡ out_of_range self.now.place)) }
    {
        let value = self.field(offset)?;
        if value > top {
            return Err(self.fault(Question::FieldsInRange));
        }
        Ok(value)
    }
}
