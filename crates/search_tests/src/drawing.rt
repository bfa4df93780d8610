use diagram::diagram::Diagram;
use diagram::plan::Plan;
use diagram::type_values::TypeValues;
use notation::table::Table;
use procedure::procedure::Procedure;
use roster::ranges::Ranges;

// the numbers that a file has
pub(crate) const AUTOMATON: u16 = 1;

pub(crate) const SEQUENCE: u16 = 2;

pub(crate) const CLOSURE: u16 = 3;

pub(crate) const GUARD: u16 = 4;

pub(crate) const CHOICE: u16 = 5;

pub(crate) const SYNCHRONISATION: u16 = 6;
/// A quantified choice.
pub(crate) const ANY: u16 = 7;
/// A quantified synchronisation.
pub(crate) const ALL: u16 = 8;

pub(crate) const ARROW: u16 = 9;

pub(crate) const NONE: u16 = 65535;

/// Automata that start in state 0, and whose states have no child: of two and of three states, with none or the last one final.
pub(crate) const TWO: &[u16] = &[AUTOMATON, 2, 0, 0, NONE, 0, NONE];

pub(crate) const LAST_OF_TWO: &[u16] = &[AUTOMATON, 2, 0, 0, NONE, 1, NONE];

pub(crate) const THREE: &[u16] = &[AUTOMATON, 3, 0, 0, NONE, 0, NONE, 0, NONE];

pub(crate) const LAST_OF_THREE: &[u16] = &[AUTOMATON, 3, 0, 0, NONE, 0, NONE, 1, NONE];

/// States 0, 1, 2 with 2 final: an axle is selected on 2, measured on 3, stored on 4; then the next.
pub(crate) const AXLE: &[&[u16]] = &[
    LAST_OF_THREE,
    &[ARROW, 0, 0, 1, 2, 0, NONE, 2],
    &[ARROW, 0, 1, 1, 3, 0, NONE, 2],
    &[ARROW, 0, 1, 2, 4],
    &[ANY, 0, 0],
    &[CLOSURE, 1],
];

/// An arrow whose last fields are left out does not wait, and has no guard and no arguments.
const PLAIN_ARROW: [u16; 11] = [ARROW, 0, 0, 0, 0, 0, NONE, 0, 0, 0, 0];

/// The fields of an arrow, of which the last may be left out.
fn arrow(fields: &[u16]) -> [u16; 11] {
    let mut arrow = PLAIN_ARROW;
    for (i, field) in fields.iter().enumerate() {
        if i < 11 {
            arrow[i] = *field;
        }
    }
    arrow
}

/// A procedure file.
#[derive(Clone, Copy)]
pub(crate) struct File(Table<u8, 4096>);

impl File {
    pub(crate) fn new() -> File {
        File(Table::new(0))
    }

    /// A file of these records; of an arrow the last fields may be left out.
    pub(crate) fn of(records: &[&[u16]]) -> File {
        let mut file = File::new();
        for fields in records {
            file.draw(fields);
        }
        file
    }

    /// Appends a record; of an arrow the last fields may be left out.
    pub(crate) fn draw(&mut self, fields: &[u16]) {
        if fields.first() == Some(&ARROW) {
            self.record(&arrow(fields));
        } else {
            self.record(fields);
        }
    }

    /// Appends a field, low byte first, if there is room.
    fn field(&mut self, value: u16) {
        for byte in value.to_le_bytes() {
            if !self.0.is_full() {
                self.0.push(byte);
            }
        }
    }

    /// Appends a record: its length, and then these fields.
    fn record(&mut self, fields: &[u16]) {
        // cut to 16 bits, as a length of more bytes would be
        self.field((fields.len() * 2 % 65536) as u16);
        for value in fields {
            self.field(*value);
        }
    }

    /// The diagram that it draws, where type 0 has `count` values from `first` on; absent if it is refused.
    pub(crate) fn diagram(&self, first: u16, count: u16) -> Option<Diagram> {
        let mut procedure = Procedure::new();
        procedure.read(self.0.as_slice()).ok()?;
        let mut ranges = Ranges::new();
        ranges.set(0, first, count).ok()?;
        let values = TypeValues::told_by(&ranges);
        Diagram::of(Plan { procedure, values }).ok()
    }
}
