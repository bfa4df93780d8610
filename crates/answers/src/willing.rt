ghost use Rattle.std.specs.Prelude.{◌≡◌, true, replicate};
ghost use Rattle.diagram.specs.declared.diagram.Diagram.{Diagram};
ghost use Rattle.answers.specs.Answering.{Agrees, AllYes, Enough, no_replies};

use crate::answers::{Answers, Entries, Replies};
use event::event::Event;

impl<const N: usize, const A: usize> Entries<N, A> {
    /// Entries that have no answer yet: they say no.
    pub fn none() -> Entries<N, A>
        ensures is_no_everywhere { result ≡ record { nodes = replicate N no_replies; arrows = replicate A no_replies } }
    {
        Entries {
            nodes: [Replies::none(); N],
            arrows: [Replies::none(); A],
        }
    }

    /// What a host that says yes to everything would answer, to any event; no host is asked.
    pub fn all() -> Entries<N, A>
        ensures says_yes_for_nodes { AllYes N result.nodes }
        ensures says_yes_for_arrows { AllYes A result.arrows }
    {
        let yes = Replies::all();
        Entries {
            nodes: [yes; N],
            arrows: [yes; A],
        }
    }

    /// The entries as answers to an event.
    pub fn to(&self, event: Event) -> Answers<'_>
        ensures answers_to_the_event { result.event ≡ event }
        ensures are_the_entries { (result.nodes.now ≡ self.now.nodes) × (result.arrows.now ≡ self.now.arrows) }
        ensures agrees_with_a_host_that_says_yes { (d : Diagram) → Enough N A d → AllYes N self.now.nodes → AllYes A self.now.arrows → Agrees d result (λ guard v. true) }
    {
        Answers {
            event,
            nodes: &self.nodes,
            arrows: &self.arrows,
        }
    }
}
