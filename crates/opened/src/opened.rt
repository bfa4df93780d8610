ghost use Rattle.std.specs.Prelude.{◌≡◌, ◌≤◌, Some};
ghost use Rattle.diagram.specs.Parts.{part_width, root_part};

use crate::held::Held;
use diagram::diagram::Diagram;
use diagram::part::Part;

/// An opened diagram, the part of its root, the ceiling of held states, and those that are held.
#[derive(Clone, Copy)]
pub struct Opened {
    pub(crate) diagram: Diagram,
    pub(crate) root: Part,
    pub(crate) ceiling: usize,
    pub(crate) held: Held,
    ghost is_root: { root_part diagram ≡ Some root },
    ghost ceiling_fits: { ceiling ≤ 128 },
    ghost has_width: { held.width ≡ part_width diagram root },
}
