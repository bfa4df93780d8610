ghost use Rattle.std.specs.Prelude.{◌≡◌, ◌≤◌, true, length};
ghost use Rattle.procedure.specs.Sound.{sound};

use notation::arrow::Arrow;
use notation::node::Node;
use notation::table::Table;

/// A diagram that was read: its nodes and arrows by their numbers. The last node is the root.
/// It holds nothing, or what a reading that was not refused drew; either way what it holds is sound.
#[derive(Clone, Copy)]
pub struct Procedure {
    pub(crate) nodes: Table<Node, 64>,
    pub(crate) arrows: Table<Arrow, 256>,
    ghost few: { length nodes.items ≤ 64 },
    ghost scarce: { length arrows.items ≤ 256 },
    ghost drawn: { sound nodes.items arrows.items ≡ true },
}
