use crate::drawing::File;
use answers::answers::Entries;
use diagram::diagram::Diagram;
use diagram::part::Part;
use event::event::Event;
use host::host::GuardHost;
use host::limits::Limits;
use host::tallies::Tallies;
use ordered::list::Ordered;
use row::row::Row;
use search::overflow::Overflow;
use search::search::Search;
use std::process::Abort;

/// The event of a label and its arguments.
pub(crate) fn event(fields: &[u16]) -> Event {
    let field = |i: usize| fields.get(i).copied().unwrap_or(0);
    let count = match fields {
        [] | [_] => 0,
        [_, _] => 1,
        _ => 2,
    };
    Event {
        label: field(0),
        count,
        first: field(1),
        second: field(2),
    }
}

pub(crate) const BLANK: Row = Row { cells: [0; 48] };

/// Guard 0 says yes while no event of label 8 was told.
pub(crate) fn no_8() -> Tallies {
    let mut host = Tallies::new();
    let _ = host.set(0, 8, 1);
    host
}

/// Guard 0 compares the outer variable with a constant; guard 1 asks for the inner value 7.
pub(crate) fn limits(comparison: u16, constant: u16) -> Limits {
    let mut host = Limits::new();
    let _ = host.set(0, 1, comparison, constant);
    let _ = host.set(1, 2, 1, 7);
    host
}

/// The row in which a diagram begins.
pub(crate) fn begun(diagram: &Diagram) -> Row {
    match Part::root(diagram) {
        None => BLANK,
        Some(root) => diagram.begun(usize::from(root.node)),
    }
}

/// Whether the root is finished in a row.
pub(crate) fn finished(diagram: &Diagram, row: &Row) -> bool {
    match Part::root(diagram) {
        None => false,
        Some(root) => diagram.finished(usize::from(root.node), row, root.at),
    }
}

/// Whether an event moves the root of a row.
pub(crate) fn moves<H: GuardHost>(diagram: &Diagram, host: &H, event: Event, row: &Row) -> bool {
    let mut entries = Entries::<64, 256>::none();
    let answers = &entries.ask(diagram, host, event);
    match Part::root(diagram) {
        None => false,
        Some(root) => Search { diagram, answers }.can_move(root, row),
    }
}

/// The rows to which an event moves some rows.
pub(crate) fn each<H: GuardHost>(
    diagram: &Diagram,
    host: &H,
    event: Event,
    rows: &[Row],
    out: &mut Ordered<Row>,
) -> Result<(), Overflow> {
    let mut entries = Entries::<64, 256>::none();
    let answers = &entries.ask(diagram, host, event);
    match Part::root(diagram) {
        None => Ok(()),
        Some(root) => Search { diagram, answers }.each(root, rows, out),
    }
}

/// A row by its first cells, the others of which are 0, and whether the root is finished there.
pub(crate) type State<'a> = (&'a [u16], bool);

/// Whether a row has these cells first, and 0 in the others.
fn has(row: &Row, cells: &[u16]) -> bool {
    let Some(others) = row.cells.get(cells.len()..) else {
        return false;
    };
    row.cells.starts_with(cells) && others.iter().all(|cell| *cell == 0)
}

/// Whether these are the rows of a list, and so finished.
fn alike(diagram: &Diagram, rows: &[Row], expected: &[State]) -> bool {
    if rows.len() != expected.len() {
        return false;
    }
    for (row, (cells, done)) in rows.iter().zip(expected) {
        if !has(row, cells) || finished(diagram, row) != *done {
            return false;
        }
    }
    true
}

/// Events, each as its label and its arguments, and all states after each.
pub(crate) type Chain<'a> = &'a [(&'a [u16], &'a [State<'a>])];

/// A diagram, where type 0 has some values, the state in which it begins, and some chains, each with a name.
#[derive(Clone, Copy)]
pub(crate) struct Drawing<'a> {
    pub(crate) records: &'a [&'a [u16]],
    /// The first of the values, and how many there are.
    pub(crate) values: (u16, u16),
    pub(crate) begins: State<'a>,
    pub(crate) chains: &'a [(&'a str, Chain<'a>)],
}

impl Drawing<'_> {
    /// Goes through the events of a chain, and compares the rows after each.
    fn follow<H: GuardHost>(&self, rt: &impl Abort, host: &mut H, name: &str, chain: Chain) {
        let (first, count) = self.values;
        let diagram = File::of(self.records)
            .diagram(first, count)
            .expect(rt, name);
        let mut places = [begun(&diagram); 128];
        let mut used = 1;
        assert!(rt;
            alike(&diagram, &places[..1], &[self.begins]),
            "{name} begins"
        );
        for (fields, expected) in chain {
            let event = event(fields);
            let mut further = [BLANK; 128];
            let mut out = Ordered::over(&mut further);
            let answer = each(&diagram, host, event, &places[..used.min(128)], &mut out);
            assert_eq!(rt; answer, Ok(()), "{name}: {:?}", event);
            assert!(rt;
                alike(&diagram, out.as_slice(), expected),
                "{name}: {:?}",
                event
            );
            used = out.len();
            places = further;
            host.tell(event);
        }
    }

    /// Follows each chain, where guard 0 says yes until label 8 is told.
    pub(crate) fn with_tallies(&self, rt: &impl Abort) {
        for (name, chain) in self.chains {
            let mut host = no_8();
            self.follow(rt, &mut host, name, chain);
        }
    }

    /// The same where guard 0 compares the outer variable with a constant, and guard 1 asks for the inner value 7.
    pub(crate) fn with_limits(&self, rt: &impl Abort, comparison: u16, constant: u16) {
        let mut host = limits(comparison, constant);
        for (name, chain) in self.chains {
            self.follow(rt, &mut host, name, chain);
        }
    }
}
