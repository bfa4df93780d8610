ghost use Rattle.std.specs.Prelude.{◌≡◌, ◌≤◌, length, take};
ghost use Rattle.std.specs.List.{All};
ghost use Rattle.rules.specs.Cells.{fit};

use row::row::Row;

/// The states that a run holds, in the first rows of a table, since there is no heap. The cells of each are `width` many, and then 0.
#[derive(Clone, Copy)]
pub struct Held {
    pub(crate) rows: [Row; 128],
    pub(crate) used: usize,
    pub(crate) width: usize,
    ghost fits: { used ≤ 128 },
    ghost filled: { All (λ row. row.cells ≡ fit 48 (fit width row.cells)) (take used rows) },
}
