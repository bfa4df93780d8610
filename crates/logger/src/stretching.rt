ghost use Rattle.std.specs.Prelude.{◌≡◌, ◌+◌, ◌≤◌, [], ◌∷◌, ◌++◌, None, OnOk, nat_lt};
ghost use Rattle.script.specs.declared.line.Line.TheVariants as line;
ghost use Rattle.logger.specs.Stretches.{waiting};

use crate::stretch::Stretch;
use event::event::Event;
use law::call::Call;
use std::alloc::{AllocError, Global};

/// The most places for events that the menus of a stretch have together.
const MOST_PLACES: usize = 65_535;

impl Stretch {
    /// Of no calls, after no opening.
    pub(crate) fn new(heap: Global) -> Stretch
        ensures has_no_opening { result.opening ≡ None }
        ensures has_no_calls { result.calls.items ≡ [] }
    {
        Stretch {
            opening: None,
            calls: Vec::new(heap),
            places: 0,
        }
    }

    /// Whether it has no room for so many places more.
    pub(crate) fn is_full_for(&self, places: u16) -> bool
        ensures { result ≡ nat_lt 65535 (self.now.places + places) }
    {
        self.places + usize::from(places) > MOST_PLACES
    }

    /// Puts an offer behind the others.
    pub(crate) fn offer(&mut self, event: Event) -> Result<(), AllocError>
        ensures { OnOk result (waiting self.new ≡ waiting self.old ++ line.Offer event ∷ []) }
    {
        self.calls.push(Call::Offer { event })?;
        Ok(())
    }

    /// Puts a menu behind the others.
    pub(crate) fn menu(&mut self, places: u16) -> Result<(), AllocError>
        requires has_room { self.old.places + places ≤ 65535 }
        ensures { OnOk result (waiting self.new ≡ waiting self.old ++ line.Menu places ∷ []) }
    {
        let places = usize::from(places);
        self.calls.push(Call::Menu { places })?;
        self.places += places;
        Ok(())
    }
}
