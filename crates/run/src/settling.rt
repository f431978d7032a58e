// Settling, and the end of a tick.
ghost use Rattle.std.specs.Prelude.{◌≡◌, ◌<◌};
ghost use Rattle.run.specs.Steps.{Settles, Passes};
ghost use Rattle.run.specs.Views.{plan_of, inner_of, now_of};

use crate::state::State;
use tasks::plan::AdmittedPlan;
use units::unit::SpeedUnit;

impl State {
    // Releases, the choice of the active row, the admitted level again, then rest or a lower level.
    pub(crate) fn settle<U: SpeedUnit>(&mut self, plan: &AdmittedPlan, unit: &mut U)
        ensures does { Settles (U.nature unit.old) (plan_of plan.now) (now_of self.old (U.meaning unit.old)) (now_of self.new (U.meaning unit.new)) }
        ensures fixed { U.nature unit.new ≡ U.nature unit.old }
    {
        self.inner.release_due(plan.tasks(), self.count);
        self.inner.elect();
        self.pace = self.back(plan, unit);
        self.pace = self.spare(plan, unit);
    }

    // The unit ticks, the count rises by 1, and the run settles.
    pub(crate) fn pass<U: SpeedUnit>(&mut self, plan: &AdmittedPlan, unit: &mut U)
        requires room { self.old.count < 1000000000 }
        ensures does { Passes (U.nature unit.old) (plan_of plan.now) (inner_of self.old.inner) self.old.pace (now_of self.old (U.meaning unit.old)) (now_of self.new (U.meaning unit.new)) }
        ensures fixed { U.nature unit.new ≡ U.nature unit.old }
    {
        unit.tick();
        self.count += 1;
        self.settle(plan, unit);
    }
}
