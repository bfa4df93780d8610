ghost use Rattle.std.specs.Prelude.{◌≡◌, ◌+◌, ◌<◌, ◌≤◌, ◌++◌, length};
ghost use Rattle.diagram.specs.Plans.{arrows_in};
ghost use Rattle.diagram.specs.Owning.{key_of, keyed, Sorted, HasPlace, between};

use crate::keyed_arrows::{Key, KeyedArrows};
use crate::plan::Plan;
use notation::arrow::Arrow;
use notation::table::Table;

impl Key {
    /// An arrow's key.
    fn of(self, arrow: &Arrow) -> u16
        ensures { result ≡ key_of self arrow.now }
    {
        match self {
            Key::Node => arrow.node,
            Key::Label => arrow.label,
        }
    }
}

/// Puts the numbers of the arrows that have a key behind others. There must be room.
fn push_keyed(arrows: &[Arrow], key: Key, value: u16, numbers: &mut Table<u8, 256>)
    requires are_few { length arrows.now ≤ 256 }
    requires has_room { length numbers.old.items + length (keyed key arrows.now value) ≤ 256 }
    ensures { numbers.new.items ≡ numbers.old.items ++ keyed key arrows.now value }
{
    for (number, arrow) in arrows.iter().enumerate() {
        if key.of(arrow) == value {
            // below 256, so nothing is cut off
            numbers.push(number as u8);
        }
    }
}

impl Plan {
    /// The arrows of each key.
    pub(crate) fn arrows_by(&self, key: Key) -> KeyedArrows
        ensures { Sorted key (arrows_in self.now) result }
    {
        let arrows = self.procedure.arrows();
        let mut numbers = Table::new(0);
        let mut starts = [0; 257];
        for value in 0..256 {
            push_keyed(arrows, key, value, &mut numbers);
            // at most 256, so nothing is cut off
            starts[usize::from(value) + 1] = numbers.len() as u16;
        }
        KeyedArrows { numbers, starts }
    }
}

impl KeyedArrows {
    /// The numbers of the arrows that have a key, in order.
    pub(crate) fn of(&self, value: usize) -> &[u8]
        requires is_key { value < 256 }
        requires has_its_place { HasPlace self.now value }
        ensures { result.now ≡ between self.now value }
    {
        let from = usize::from(self.starts[value]);
        let to = usize::from(self.starts[value + 1]);
        &self.numbers.as_slice()[from..to]
    }
}
