ghost use Rattle.std.specs.Prelude.{◌≡◌, ◌+◌, ◌*◌, ◌≤◌, true, false, length};
ghost use Rattle.record.specs.Bytes.{field_at};
ghost use Rattle.record.specs.Decoding.{state_at, states_at, labels_at, argument_of, arguments_at, unless_none, arrow_at, entry_at};
ghost use Rattle.record.specs.Ranges.{state_fits, states_fit, label_fits, labels_fit, argument_fits, arguments_fit, guard_fits, arrow_fits, fields_fit};
ghost use Rattle.record.specs.Ranged.{Ranged};
ghost use Rattle.record.specs.Kinds.{length_of, count_at};

use crate::entry::Entry;
use crate::kind::Kind;
use crate::record::Record;
use crate::tabling::table_of;
use fault::fault::{Fault, Question};
use notation::arrow::{Argument, Arrow};
use notation::node::{Labels, Mark, Node, State, States};

// Each function says how far the bytes must reach: how long a record is depends on its kind, which only `decode` knows.

/// Stands for no child and no guard in a file, which fixes the number; everywhere else that is an `Option`.
const NONE: u16 = 65_535;

impl Record<'_> {
    /// The state whose mark and child stand at `offset`.
    fn state(&self, offset: usize) -> Result<State, Fault>
        requires { self.now.at + offset + 4 ≤ length self.now.bytes.now }
        ensures { Ranged (state_fits self.now.bytes.now (self.now.at + offset)) (state_at self.now.bytes.now (self.now.at + offset)) self.now.place result }
    {
        let mark = self.field(offset)?;
        let child = self.field(offset + 2)?;
        let child = (child != NONE).then_some(child);
        // two fields decide a mark, and no `TryFrom` of a pair could stand in this crate, which has neither type
        let mark = match (mark, child) {
            (0, _) => Mark::Unmarked,
            (1, _) => Mark::Shallow,
            (2, Some(_)) => Mark::Deep,
            _ => return Err(self.fault(Question::FieldsInRange)),
        };
        Ok(State { mark, child })
    }

    /// The argument whose kind and value stand at `offset`.
    fn argument(&self, offset: usize) -> Result<Argument, Fault>
        requires { self.now.at + offset + 4 ≤ length self.now.bytes.now }
        ensures { Ranged
            (argument_fits (field_at self.now.bytes.now (self.now.at + offset)) (field_at self.now.bytes.now (self.now.at + offset + 2)))
            (argument_of (field_at self.now.bytes.now (self.now.at + offset)) (field_at self.now.bytes.now (self.now.at + offset + 2)))
            self.now.place result }
    {
        let kind = self.field(offset)?;
        let value = self.field(offset + 2)?;
        // two fields decide an argument, and no `TryFrom` of a pair could stand in this crate, which has neither type
        match (kind, value) {
            (0, 0) => Ok(Argument::Absent),
            (1, _) => Ok(Argument::Constant(value)),
            (2, 0) => Ok(Argument::Outer),
            (3, 0) => Ok(Argument::Inner),
            _ => Err(self.fault(Question::FieldsInRange)),
        }
    }

    /// The states of an automaton.
    fn states(&self) -> Result<States, Fault>
        requires { self.now.at + 8 + 4 * field_at self.now.bytes.now (self.now.at + 4) ≤ length self.now.bytes.now }
        ensures { Ranged (states_fit self.now.bytes.now self.now.at) (states_at self.now.bytes.now self.now.at) self.now.place result }
    {
        let count = self.at_most(4, 32)?;
        let start = self.field(6)?;
        if start >= count {
            return Err(self.fault(Question::FieldsInRange));
        }
        let blank = State {
            mark: Mark::Unmarked,
            child: None,
        };
        let table = table_of(count, blank, |i| self.state(8 + 4 * i))?;
        Ok(States { start, table })
    }

    /// The label at place `i` of a set.
    fn label(&self, i: usize) -> Result<u16, Fault>
        requires { self.now.at + 12 + 2 * i ≤ length self.now.bytes.now }
        ensures { Ranged (label_fits self.now.bytes.now self.now.at i) (field_at self.now.bytes.now (self.now.at + 10 + 2 * i)) self.now.place result }
    {
        let here = self.at_most(10 + 2 * i, 255)?;
        if i > 0 && self.field(8 + 2 * i)? >= here {
            return Err(self.fault(Question::FieldsInRange));
        }
        Ok(here)
    }

    /// The set of labels whose count stands at 8.
    fn labels(&self) -> Result<Labels, Fault>
        requires { self.now.at + 10 + 2 * field_at self.now.bytes.now (self.now.at + 8) ≤ length self.now.bytes.now }
        ensures { Ranged (labels_fit self.now.bytes.now self.now.at) (labels_at self.now.bytes.now self.now.at) self.now.place result }
    {
        let count = self.at_most(8, 16)?;
        table_of(count, 0, |i| self.label(i))
    }

    /// An arrow's guard at `offset`, 65,535 for none.
    fn guard(&self, offset: usize) -> Result<Option<u16>, Fault>
        requires { self.now.at + offset + 2 ≤ length self.now.bytes.now }
        ensures { Ranged (guard_fits (field_at self.now.bytes.now (self.now.at + offset))) (unless_none (field_at self.now.bytes.now (self.now.at + offset))) self.now.place result }
    {
        match self.field(offset)? {
            guard @ 0..=31 => Ok(Some(guard)),
            NONE => Ok(None),
            _ => Err(self.fault(Question::FieldsInRange)),
        }
    }

    /// The two arguments whose kinds and values stand at `offset`; a second one needs a first.
    fn arguments(&self, offset: usize) -> Result<(Argument, Argument), Fault>
        requires { self.now.at + offset + 8 ≤ length self.now.bytes.now }
        ensures { Ranged (arguments_fit self.now.bytes.now (self.now.at + offset)) (arguments_at self.now.bytes.now (self.now.at + offset)) self.now.place result }
    {
        let first = self.argument(offset)?;
        let second = self.argument(offset + 4)?;
        if first.is_absent() && !second.is_absent() {
            return Err(self.fault(Question::FieldsInRange));
        }
        Ok((first, second))
    }

    /// The arrow.
    fn arrow(&self) -> Result<Arrow, Fault>
        requires { self.now.at + 24 ≤ length self.now.bytes.now }
        ensures { Ranged (arrow_fits self.now.bytes.now self.now.at) (arrow_at self.now.bytes.now self.now.at) self.now.place result }
    {
        let node = self.field(4)?;
        let from = self.field(6)?;
        let to = self.field(8)?;
        let label = self.at_most(10, 255)?;
        let waits = self.at_most(12, 1)? == 1;
        let guard = self.guard(14)?;
        let (first, second) = self.arguments(16)?;
        Ok(Arrow {
            node,
            from,
            to,
            label,
            waits,
            guard,
            first,
            second,
        })
    }

    /// The node or the arrow that a framed record of this kind tells: question 5, but for how many came before.
    pub fn decode(&self, kind: Kind) -> Result<Entry, Fault>
        requires { self.now.at + 2 + length_of kind (count_at kind self.now.bytes.now self.now.at) ≤ length self.now.bytes.now }
        ensures tells_the_entry_or_that_a_field_is_out_of_range { Ranged (fields_fit kind self.now.bytes.now self.now.at) (entry_at kind self.now.bytes.now self.now.at) self.now.place result }
    {
        let node = match kind {
            Kind::Automaton => Node::Automaton {
                states: self.states()?,
            },
            Kind::Sequence => Node::Sequence {
                first: self.field(4)?,
                second: self.field(6)?,
            },
            Kind::Closure => Node::Closure {
                body: self.field(4)?,
            },
            Kind::Guard => Node::Guard {
                guard: self.at_most(4, 31)?,
                body: self.field(6)?,
            },
            Kind::Choice => Node::Choice {
                left: self.field(4)?,
                right: self.field(6)?,
            },
            Kind::Synchronisation => Node::Synchronisation {
                left: self.field(4)?,
                right: self.field(6)?,
                labels: self.labels()?,
            },
            Kind::QuantifiedChoice => Node::QuantifiedChoice {
                over: self.at_most(4, 7)?,
                body: self.field(6)?,
            },
            Kind::QuantifiedSynchronisation => Node::QuantifiedSynchronisation {
                over: self.at_most(4, 7)?,
                body: self.field(6)?,
                labels: self.labels()?,
            },
            Kind::Arrow => return Ok(Entry::Arrow(self.arrow()?)),
        };
        Ok(Entry::Node(node))
    }
}
