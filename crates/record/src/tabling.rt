ghost use Rattle.std.specs.Prelude.{ℕ, ◌<◌, ◌≤◌, Bool, Result};
ghost use Rattle.fault.specs.declared.fault.Fault.{Fault};
ghost use Rattle.record.specs.Decoding.{tabled};
ghost use Rattle.record.specs.Ranges.{all_below};
ghost use Rattle.record.specs.Ranged.{Ranged};

use fault::fault::Fault;
use notation::table::Table;

/// A table of `count` elements, each as `read` tells it by its position, up to the first that is out of range.
pub(crate) fn table_of<T: Copy, const N: usize, F: Fn(usize) -> Result<T, Fault>>(
    count: u16,
    blank: T,
    read: F,
) -> Result<Table<T, N>, Fault>
    requires { (count ≤ N) × ((k : ℕ) → k < count → F.pre read k) }
    ensures { (fits : ℕ → Bool) (x : ℕ → T) (place : ℕ) → ((k : ℕ) (r : Result T Fault) → k < count → F.post read k r → Ranged (fits k) (x k) place r) → Ranged (all_below count fits) (tabled N blank count x) place result }
{
    let mut table = Table::new(blank);
    for i in 0..usize::from(count) {
        table.push(read(i)?);
    }
    Ok(table)
}
