use notation::table::Table;
use procedure::procedure::Procedure;

/// What a reading tells: the number of nodes, or the question, the layer and the place of the refusal, in numbers: a `Question`
/// would say less, since the numbers are what a caller is told.
pub(crate) type Told = Result<usize, (u8, u8, usize)>;

/// What a reading tells of these bytes.
pub(crate) fn told_bytes(bytes: &[u8]) -> Told {
    Procedure::new()
        .read(bytes)
        .map_err(|fault| fault.numbers())
}

/// A file under test.
#[derive(Clone, Copy)]
pub(crate) struct File(Table<u8, 8192>);

impl File {
    pub(crate) fn new() -> File {
        File(Table::new(0))
    }

    /// Appends a field, low byte first, if there is room.
    pub(crate) fn field(&mut self, value: u16) {
        for byte in value.to_le_bytes() {
            if !self.0.is_full() {
                self.0.push(byte);
            }
        }
    }

    /// Appends a record: its length, and then these fields.
    pub(crate) fn record(&mut self, fields: &[u16]) {
        // cut to 16 bits, as a length of more bytes would be
        self.field((fields.len() * 2 % 65536) as u16);
        for value in fields {
            self.field(*value);
        }
    }

    pub(crate) fn bytes(&self) -> &[u8] {
        self.0.as_slice()
    }

    /// What a reading tells of the file.
    pub(crate) fn told(&self) -> Told {
        told_bytes(self.bytes())
    }
}
