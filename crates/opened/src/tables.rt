ghost use Rattle.answers.specs.Answering.{AllYes};

use answers::answers::Entries;

/// What a menu is made with: entries that are all yes, and room for the answers of a host. They are made once, and used for each event.
#[derive(Drop)]
pub(crate) struct Tables<const N: usize, const A: usize> {
    pub(crate) willing: Entries<N, A>,
    pub(crate) asked: Entries<N, A>,
    ghost says_yes_for_nodes: { AllYes N willing.nodes },
    ghost says_yes_for_arrows: { AllYes A willing.arrows },
}
