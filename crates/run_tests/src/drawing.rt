use notation::table::Table;

// the numbers that a file has
pub(crate) const AUTOMATON: u16 = 1;

pub(crate) const SEQUENCE: u16 = 2;

pub(crate) const CLOSURE: u16 = 3;

pub(crate) const GUARD: u16 = 4;

pub(crate) const CHOICE: u16 = 5;

pub(crate) const SYNCHRONISATION: u16 = 6;
/// A quantified choice.
pub(crate) const ANY: u16 = 7;
/// A quantified synchronisation.
pub(crate) const ALL: u16 = 8;

pub(crate) const ARROW: u16 = 9;

pub(crate) const NONE: u16 = 65535;

/// An automaton of two states without children, of which the first is the start.
pub(crate) const TWO: &[u16] = &[AUTOMATON, 2, 0, 0, NONE, 0, NONE];

/// An arrow whose last fields are left out does not wait, and has no guard and no arguments.
const PLAIN_ARROW: [u16; 11] = [ARROW, 0, 0, 0, 0, 0, NONE, 0, 0, 0, 0];

/// The fields of an arrow, of which the last may be left out.
fn arrow(fields: &[u16]) -> [u16; 11] {
    let mut arrow = PLAIN_ARROW;
    for (i, field) in fields.iter().enumerate() {
        if i < 11 {
            arrow[i] = *field;
        }
    }
    arrow
}

/// A procedure file.
#[derive(Clone, Copy)]
pub(crate) struct File(Table<u8, 8192>);

impl File {
    pub(crate) fn new() -> File {
        File(Table::new(0))
    }

    /// A file of these records; of an arrow the last fields may be left out.
    pub(crate) fn of(records: &[&[u16]]) -> File {
        let mut file = File::new();
        for fields in records {
            file.draw(fields);
        }
        file
    }

    /// Appends a record; of an arrow the last fields may be left out.
    pub(crate) fn draw(&mut self, fields: &[u16]) {
        if fields.first() == Some(&ARROW) {
            self.record(&arrow(fields));
        } else {
            self.record(fields);
        }
    }

    /// Appends a field, low byte first, if there is room.
    fn field(&mut self, value: u16) {
        for byte in value.to_le_bytes() {
            if !self.0.is_full() {
                self.0.push(byte);
            }
        }
    }

    /// Appends a record: its length, and then these fields.
    fn record(&mut self, fields: &[u16]) {
        // cut to 16 bits, as a length of more bytes would be
        self.field((fields.len() * 2 % 65536) as u16);
        for value in fields {
            self.field(*value);
        }
    }

    pub(crate) fn bytes(&self) -> &[u8] {
        self.0.as_slice()
    }
}
