ghost use Rattle.std.specs.Prelude.{◌≡◌, ◌≤◌};
ghost use Rattle.logger.specs.Places.{places_together};

use law::call::Call;

/// Offers and menus that are made together, and the opening that they follow at once, if any.
#[derive(Drop)]
pub(crate) struct Stretch {
    pub(crate) opening: Option<u16>,
    pub(crate) calls: Vec<Call>,
    /// How many places its menus have together.
    pub(crate) places: usize,
    ghost counted: { places ≡ places_together calls.items },
    ghost few: { places ≤ 65535 },
}
