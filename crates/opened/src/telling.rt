ghost use Rattle.std.specs.Prelude.{◌≡◌, true};
ghost use Rattle.rules.specs.Cells.{width};
ghost use Rattle.rules.specs.Ends.{some_finished};
ghost use Rattle.answers.specs.Answering.{Enough};
ghost use Rattle.opened.specs.Opens.{tree_of_opened};
ghost use Rattle.opened.specs.States.{states_in};

use crate::held::Held;
use crate::opened::Opened;

impl Opened {
    /// Whether 8 entries for nodes and 24 for arrows are enough for the diagram.
    pub(crate) fn is_small(&self) -> bool
        ensures says_enough { result ≡ true → Enough 8 24 self.now.diagram }
    {
        let procedure = self.diagram.procedure();
        procedure.node_count() <= 8 && procedure.arrow_count() <= 24
    }

    /// The states that it holds.
    pub fn held(&self) -> &Held
        ensures is_what_it_holds { result.now ≡ self.now.held }
    {
        &self.held
    }

    /// How many cells the root takes.
    pub fn width(&self) -> usize
        ensures is_the_roots_width { result ≡ width (tree_of_opened self.now) }
    {
        self.held.width
    }

    /// Whether some held state is finished.
    pub fn is_finished(&self) -> bool
        ensures says_whether_one_is_finished { result ≡ some_finished (tree_of_opened self.now) (states_in self.now.held) }
    {
        self.held.rows().iter().any(|row| {
            self.diagram
                .finished(usize::from(self.root.node), row, self.root.at)
        })
    }
}
