ghost use Rattle.std.specs.Prelude.{◌≡◌, ◌≤◌, length};
ghost use Rattle.std.specs.List.{All};

use notation::table::Table;

/// The values of the types 0 to 7 in roster order, at most 16 of each. Fixed memory in place of a map.
#[derive(Clone, Copy)]
pub struct TypeValues {
    pub(crate) lists: [Table<u16, 16>; 8],
    ghost full: { length lists ≡ 8 },
    ghost short: { All (λ list. length list.items ≤ 16) lists },
}
