ghost use Rattle.std.specs.Prelude.{◌≡◌, length};
ghost use Rattle.rules.specs.Cells.{width};
ghost use Rattle.rules.specs.Ends.{some_finished};
ghost use Rattle.run.specs.Runs.{tree_in, states};
ghost use Rattle.opened.specs.States.{cell_in};

use crate::run::Run;

impl Run {
    /// How many states it holds.
    pub fn len(&self) -> usize
        ensures counts_the_held_states { result ≡ length (states self.now) }
    {
        match &self.opened {
            None => 0,
            Some(opened) => opened.held().len(),
        }
    }

    /// How many cells the root takes; 0 if it was never opened.
    pub fn width(&self) -> usize
        ensures is_the_roots_width { result ≡ width (tree_in self.now) }
    {
        match &self.opened {
            None => 0,
            Some(opened) => opened.width(),
        }
    }

    /// A cell of a held state, both from 0, absent past the last state and past the 48th cell.
    pub fn cell(&self, state: usize, cell: usize) -> Option<u16>
        ensures tells_the_cell { result ≡ cell_in (states self.now) state cell }
    {
        match &self.opened {
            None => None,
            Some(opened) => opened.held().cell(state, cell),
        }
    }

    /// Whether some held state is finished; one that was never opened has none.
    pub fn is_finished(&self) -> bool
        ensures says_whether_one_is_finished { result ≡ some_finished (tree_in self.now) (states self.now) }
    {
        self.opened
            .as_ref()
            .is_some_and(|opened| opened.is_finished())
    }
}
