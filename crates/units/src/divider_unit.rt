// The divider as a speed unit: it takes the levels that divide its rate, and has a lag only after a rest.
ghost use Rattle.std.specs.Prelude.{◌≡◌, ◌≤◌, MatchResult, OnErr};
ghost use Rattle.fault.specs.declared.Refusal.TheVariants.{BadDivider, UnitBusy};
ghost use Rattle.fault.specs.Faults.{fault_at};
ghost use Rattle.units.specs.Calls.{AskIs, tick_with};
ghost use Rattle.units.specs.Divider.{divides, divider_meaning, divider_nature};
ghost use Rattle.units.specs.Meaning.{Ready, Busy, Asked, Ticked, off as nothing};
ghost use Rattle.std.proofs.Common.{arith, rules};
ghost use Rattle.units.specs.Dividing.{divides_le};

use crate::divider::Divider;
use crate::unit::{Allowances, SpeedUnit, Standing};
use fault::{Fault, Refusal};

impl Divider {
    // A divider that is off; a rate or a wake count out of its range is refused.
    pub fn new(rate: u32, wake: u32) -> Result<Divider, Fault>
        ensures { MatchResult result
            (λ d. (1 ≤ rate) × (rate ≤ 1000) × (wake ≤ 255) × (divider_meaning d ≡ nothing) × (divider_nature d ≡ divides rate wake))
            (λ e. ((1 ≤ rate) × (rate ≤ 1000) × (wake ≤ 255) → ⊥) × (e ≡ fault_at BadDivider 0 0)) }
    {
        if !(1..=1000).contains(&rate) || wake > 255 {
            return Err(Refusal::BadDivider.into());
        }
        Ok(Divider {
            rate,
            wake,
            standing: Standing::default(),
        })
    }

    // Refuses a call that comes while a rest or a lag is left.
    fn free(&self) -> Result<(), Refusal>
        ensures { MatchResult result (λ _. Ready (divider_meaning self.now)) (λ why. Busy (divider_meaning self.now) × (why ≡ UnitBusy)) }
    {
        if !self.standing.is_ready() {
            return Err(Refusal::UnitBusy);
        }
        Ok(())
    }
}

impl SpeedUnit for Divider {
    ghost meaning = { divider_meaning };

    ghost nature = { divider_nature };

    ghost few = { Prim.search rules };

    ghost levels = { λ u level h. let le = divides_le u.rate level u.some_rate h in (le.0, omega arith) };

    fn allowances(&self) -> Allowances {
        Allowances {
            raise: 0,
            wake: self.wake,
        }
    }

    // The rate is above 0, and so no multiple of 0.
    fn takes(&self, level: u32) -> bool {
        self.rate.is_multiple_of(level)
    }

    // A raise takes no lag.
    fn ask(&mut self, level: u32) -> Result<(), Fault>
        ensures does { Asked (divider_nature self.old) level (divider_meaning self.old) result (divider_meaning self.new) }
        ensures fixed { divider_nature self.new ≡ divider_nature self.old }
        ensures kept { OnErr result (self.new ≡ self.old) }
        ensures exact { AskIs (divider_nature self.old) level 0 (divider_meaning self.old) result (divider_meaning self.new) }
    {
        self.free()?;
        if !self.takes(level) {
            return Err(Refusal::UnknownLevel.into());
        }
        self.standing.asked = level;
        Ok(())
    }

    fn rest(&mut self, ticks: u32) -> Result<(), Fault> {
        self.free()?;
        if !(1..=65_535).contains(&ticks) || self.standing.asked == 0 {
            return Err(Refusal::BadRest.into());
        }
        self.standing.rest = ticks;
        Ok(())
    }

    // The tick that ends a rest leaves the wake count as the lag.
    fn tick(&mut self)
        ensures does { Ticked (divider_nature self.old) (divider_meaning self.old) (divider_meaning self.new) }
        ensures fixed { divider_nature self.new ≡ divider_nature self.old }
        ensures exact { divider_meaning self.new ≡ tick_with self.old.wake (divider_meaning self.old) }
    {
        let at = &mut self.standing;
        if at.rest > 0 {
            at.rest -= 1;
            if at.rest == 0 {
                at.lag = self.wake;
            }
        } else if at.lag > 0 {
            at.lag -= 1;
        }
    }

    fn off(&mut self) {
        self.standing = Standing::default();
    }

    fn standing(&self) -> Standing {
        self.standing
    }
}
