ghost use Rattle.std.specs.Prelude.{◌≡◌, length};
ghost use Rattle.diagram.specs.Plans.{arrows_in, Measured};
ghost use Rattle.diagram.specs.Scopes.{Placed, Rooted};
ghost use Rattle.diagram.specs.Owning.{Sorted, Sorted-prop};
ghost use Rattle.diagram.specs.declared.keyed_arrows.Key.TheVariants.{Node, Label};

use crate::binders::Binders;
use crate::keyed_arrows::KeyedArrows;
use crate::plan::Plan;

/// A plan none of whose nodes is wider than a row, with the width of each, the binders above it and its arrows, and with the arrows of each label.
#[derive(Clone, Copy)]
pub struct Diagram {
    pub(crate) plan: Plan,
    pub(crate) widths: [usize; 64],
    pub(crate) binders: [Binders; 64],
    pub(crate) own: KeyedArrows,
    pub(crate) labelled: KeyedArrows,
    ghost measured: { Measured plan widths },
    ghost placed: { Placed plan binders },
    ghost rooted: { Rooted plan binders },
    ghost own_sorted: { Sorted Node (arrows_in plan) own } by { Sorted-prop Node (arrows_in plan) own },
    ghost labelled_sorted: { Sorted Label (arrows_in plan) labelled } by { Sorted-prop Label (arrows_in plan) labelled },
}
