use crate::drawing::File;
use event::event::Event;
use fault::fault::Fault;
use host::host::GuardHost;
use procedure::procedure::Procedure;
use roster::ranges::Ranges;
use run::run::Run;
use std::process::Abort;

/// The event of a label and its arguments.
pub(crate) fn event(fields: &[u16]) -> Event {
    let field = |i: usize| fields.get(i).copied().unwrap_or(0);
    let count = match fields {
        [] | [_] => 0,
        [_, _] => 1,
        _ => 2,
    };
    Event {
        label: field(0),
        count,
        first: field(1),
        second: field(2),
    }
}

/// A fault's number and place.
pub(crate) fn told(answer: Result<usize, Fault>) -> Result<usize, (u8, usize)> {
    answer.map_err(|fault| (fault.number(), fault.place()))
}

/// A diagram, where type 0 has `count` values from `first` on.
#[derive(Clone, Copy)]
pub(crate) struct Drawing<'a> {
    pub(crate) records: &'a [&'a [u16]],
    pub(crate) first: u16,
    pub(crate) count: u16,
}

impl Drawing<'_> {
    /// Opens it under a ceiling.
    pub(crate) fn open(
        &self,
        rt: &impl Abort,
        run: &mut Run,
        ceiling: usize,
    ) -> Result<usize, (u8, usize)> {
        let file = File::of(self.records);
        let mut procedure = Procedure::new();
        let read = procedure.read(file.bytes());
        assert!(rt; read.is_ok(), "the file is sound");
        let mut ranges = Ranges::new();
        let set = ranges.set(0, self.first, self.count);
        assert!(rt; set.is_ok(), "the range is sound");
        told(run.open(&procedure, &ranges, ceiling))
    }

    /// A run of it that holds at most 128 states.
    pub(crate) fn run(&self, rt: &impl Abort) -> Run {
        let mut run = Run::new();
        assert_eq!(rt; self.open(rt, &mut run, 128), Ok(1));
        run
    }
}

/// Whether a run's state has these cells first, and 0 in the others.
fn has(run: &Run, state: usize, cells: &[u16]) -> bool {
    for k in 0..48 {
        if run.cell(state, k) != Some(cells.get(k).copied().unwrap_or(0)) {
            return false;
        }
    }
    run.cell(state, 48).is_none()
}

/// Whether a run holds exactly these states, each by its first cells.
pub(crate) fn holds(run: &Run, states: &[&[u16]]) -> bool {
    for (i, cells) in states.iter().enumerate() {
        if !has(run, i, cells) {
            return false;
        }
    }
    run.len() == states.len() && run.cell(states.len(), 0).is_none()
}

/// Whether the menu lists exactly these events, each as its label and its arguments, and leaves later places.
pub(crate) fn shows<H: GuardHost>(run: &Run, host: &H, expected: &[&[u16]]) -> bool {
    let untouched = event(&[7, 7, 7]);
    let mut list = [untouched; 8];
    if run.menu(host, &mut list) != Ok(expected.len()) {
        return false;
    }
    for (i, found) in list.iter().enumerate() {
        let wanted = match expected.get(i) {
            Some(fields) => event(fields),
            None => untouched,
        };
        if *found != wanted {
            return false;
        }
    }
    true
}
