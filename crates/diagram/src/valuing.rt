ghost use Rattle.std.specs.Prelude.{◌≡◌, ℕ, ◌≤◌, length};
ghost use Rattle.diagram.specs.Valued.{values_of, fitting, kept_of};

use crate::type_values::TypeValues;
use notation::table::Table;
use roster::roster::Roster;

/// The values that a roster tells of a type, if there are at most 16.
fn list_of<R: Roster>(roster: &R, ty: u16) -> Table<u16, 16>
    ensures { result.items ≡ fitting (R.values roster.now ty) }
{
    let mut list = Table::new(0);
    let Some(count) = roster.count(ty) else {
        return list;
    };
    if count > 16 {
        return list;
    }
    for position in 1..count + 1 {
        if let Some(value) = roster.value(ty, position) {
            list.push(value);
        }
    }
    list
}

impl TypeValues {
    /// The values that a roster tells of the types 0 to 7. A type that is unknown, or has more than 16, is left without.
    pub fn told_by<R: Roster>(roster: &R) -> TypeValues
        ensures keeps_the_lists_that_fit { (ty : ℕ) → values_of result ty ≡ kept_of (R.values roster.now) ty }
    {
        let mut lists = [Table::new(0); 8];
        for ty in 0..8u16 {
            lists[usize::from(ty)] = list_of(roster, ty);
        }
        TypeValues { lists }
    }

    /// The values of a type in roster order.
    pub fn of(&self, ty: u16) -> &[u16]
        ensures tells_the_values { result.now ≡ values_of self.now ty }
        ensures fits { length result.now ≤ 16 }
    {
        match self.lists.get(usize::from(ty)) {
            Some(list) => list.as_slice(),
            None => &[],
        }
    }
}
