// The counted unit as a speed unit: it passes every call on, and keeps what the unit below it promises.
ghost use Rattle.std.specs.Prelude.{◌≡◌, ◌+◌, ◌-◌, ◌^◌, min};
ghost use Rattle.units.specs.Meaning.{Ticked};
ghost use Rattle.std.proofs.Common.{rules};

use crate::counted::Counted;
use fault::Fault;
use units::unit::{Allowances, SpeedUnit, Standing};

impl<U: SpeedUnit> SpeedUnit for Counted<U> {
    ghost meaning = { λ c. U.SpeedUnit.meaning c.under };

    ghost nature = { λ c. U.SpeedUnit.nature c.under };

    ghost few = { Prim.search rules };

    ghost levels = { Prim.search rules };

    fn allowances(&self) -> Allowances {
        self.under.allowances()
    }

    fn takes(&self, level: u32) -> bool {
        self.under.takes(level)
    }

    fn ask(&mut self, level: u32) -> Result<(), Fault> {
        self.under.ask(level)
    }

    fn rest(&mut self, ticks: u32) -> Result<(), Fault> {
        self.under.rest(ticks)
    }

    // Counts the tick, up to the largest count.
    fn tick(&mut self)
        ensures does { Ticked (U.SpeedUnit.nature self.old.under) (U.SpeedUnit.meaning self.old.under) (U.SpeedUnit.meaning self.new.under) }
        ensures fixed { U.SpeedUnit.nature self.new.under ≡ U.SpeedUnit.nature self.old.under }
        ensures counts { self.new.ticks ≡ min (self.old.ticks + 1) (2 ^ 32 - 1) }
    {
        self.under.tick();
        self.ticks = self.ticks.saturating_add(1);
    }

    fn off(&mut self) {
        self.under.off();
    }

    fn standing(&self) -> Standing {
        self.under.standing()
    }
}
