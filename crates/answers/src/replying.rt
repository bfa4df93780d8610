ghost use Rattle.std.specs.Prelude.{◌≡◌, ℕ, ◌<◌, true};
ghost use Rattle.answers.specs.Answering.{no_replies, reply_in, node_answer, arrow_answer};

use crate::answers::{Answers, Replies};
use diagram::scope::Scope;
use event::event::Event;

impl Replies {
    /// No everywhere.
    pub(crate) fn none() -> Replies
        ensures { result ≡ no_replies }
    {
        Replies { rows: [0; 17] }
    }

    /// Yes at every position.
    pub(crate) fn all() -> Replies
        ensures { (outer inner : ℕ) → outer < 17 → inner < 17 → reply_in result.rows outer inner ≡ true }
    {
        Replies {
            rows: [u32::MAX; 17],
        }
    }

    /// The answer at the positions of a scope.
    fn get(&self, scope: Scope) -> bool
        ensures { result ≡ reply_in self.now.rows scope.outer scope.inner }
    {
        let row = self.rows.get(scope.outer).copied().unwrap_or(0);
        scope.inner < 32 && (row >> scope.inner) & 1 == 1
    }
}

impl Answers<'_> {
    /// The event that they answer to.
    pub fn event(&self) -> Event
        ensures is_the_event { result ≡ self.now.event }
    {
        self.event
    }

    /// What the guard of a node answered under the variables of a scope.
    pub fn of_node(&self, i: usize, scope: Scope) -> bool
        ensures tells_the_answer { result ≡ node_answer self.now i scope.outer scope.inner }
    {
        self.nodes.get(i).is_some_and(|replies| replies.get(scope))
    }

    /// The same of an arrow.
    pub fn of_arrow(&self, k: usize, scope: Scope) -> bool
        ensures tells_the_answer { result ≡ arrow_answer self.now k scope.outer scope.inner }
    {
        self.arrows.get(k).is_some_and(|replies| replies.get(scope))
    }
}
