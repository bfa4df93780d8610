ghost use Rattle.std.specs.Prelude.{IsOkAnd};
ghost use Rattle.worked.specs.Worked.{TenDiagrams};

use fault::fault::Fault;
use host::host::GuardHost;
use host::tallies::Tallies;
use roster::ranges::Ranges;
use roster::roster::Roster;

/// What the ten diagrams are run with: of type 0 the axles 1, 2, 3 and the wheels 1, 2, and a host whose guard 0 says yes until one event
/// of label 8 was taken.
#[derive(Drop)]
pub struct Settings {
    pub axles: Ranges,
    pub wheels: Ranges,
    pub once: Tallies,
}

impl Settings {
    /// Makes the settings. None of them is refused, and under them the ten diagrams come out as they are worked.
    pub fn made() -> Result<Settings, Fault>
        ensures the_ten_diagrams_come_out_as_worked { IsOkAnd result (λ s. TenDiagrams (⟦<Ranges as Roster>⟧.values s.axles) (⟦<Ranges as Roster>⟧.values s.wheels) (⟦<Tallies as GuardHost>⟧.meaning s.once)) }
    {
        let mut axles = Ranges::new();
        axles.set(0, 1, 3)?;
        let mut wheels = Ranges::new();
        wheels.set(0, 1, 2)?;
        let mut once = Tallies::new();
        once.set(0, 8, 1)?;
        Ok(Settings {
            axles,
            wheels,
            once,
        })
    }
}
