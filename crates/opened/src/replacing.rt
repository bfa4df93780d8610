ghost use Rattle.std.specs.Prelude.{◌≡◌, ◌≤◌, length, map};
ghost use Rattle.std.specs.List.{All};
ghost use Rattle.rules.specs.Cells.{fit};
ghost use Rattle.opened.specs.States.{states_in};

use crate::held::Held;
use row::row::Row;

impl Held {
    /// Holds other states in place of these. Their rows are copied; those behind stay as they were.
    pub(crate) fn put(&mut self, next: &[Row])
        requires are_few { length next.now ≤ 128 }
        requires are_filled { All (λ row. row.cells ≡ fit 48 (fit self.old.width row.cells)) next.now }
        ensures holds_them { states_in self.new ≡ map (λ row. fit self.old.width row.cells) next.now }
        ensures keeps_the_width { self.new.width ≡ self.old.width }
    {
        // none is in use until all are copied
        self.used = 0;
        for (i, row) in next.iter().enumerate() {
            self.rows[i] = *row;
        }
        self.used = next.len();
    }
}
