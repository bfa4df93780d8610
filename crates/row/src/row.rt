ghost use Rattle.std.specs.Prelude.{◌≡◌, length};

/// A state of a diagram: 48 cells, always whole, so no count stands beside them. Rows are ordered by the first cell that differs.
#[derive(Clone, Copy, Debug, PartialEq, Eq, PartialOrd, Ord)]
pub struct Row {
    pub cells: [u16; 48],
    ghost full: { length cells ≡ 48 },
}
