ghost use Rattle.std.specs.Prelude.{◌≡◌, ℕ, ◌≤◌, length, map, take};
ghost use Rattle.std.specs.List.{slice_get};
ghost use Rattle.rules.specs.Cells.{Cells, fit};
ghost use Rattle.opened.specs.States.{states_in, cell_in};

use crate::held::Held;
use row::row::Row;

impl Held {
    /// The rows in order.
    pub(crate) fn rows(&self) -> &[Row]
        ensures are_those_in_use { result.now ≡ take self.now.used self.now.rows }
    {
        &self.rows[..self.used]
    }

    /// How many states it holds.
    pub fn len(&self) -> usize
        ensures counts_the_states { result ≡ length (states_in self.now) }
    {
        self.used
    }

    /// A cell of a state, both from 0.
    pub fn cell(&self, state: usize, cell: usize) -> Option<u16>
        ensures tells_the_cell { result ≡ cell_in (states_in self.now) state cell }
    {
        self.rows().get(state)?.cells.get(cell).copied()
    }
}
