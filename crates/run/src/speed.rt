// What a run asks of its unit. What the unit would refuse is not asked.
ghost use Rattle.std.specs.Prelude.{◌≡◌, ◌-◌, if◌then◌else◌};
ghost use Rattle.std.specs.Option.{option_map};
ghost use Rattle.queue.specs.Steps.{first};
ghost use Rattle.units.specs.Calls.{ask_with, rest_for};
ghost use Rattle.units.specs.Meaning.{ready as is_ready};
ghost use Rattle.machine.specs.Speed.{may_ask, may_rest, window as the_window, enough_in};
ghost use Rattle.run.specs.Steps.{WithRaise, AsksBack, RestsOrSlows, Spares, level_in_window};
ghost use Rattle.run.specs.Views.{plan_of, inner_of, state_of};

use crate::rows::{job_of, task_of};
use crate::state::State;
use machine::job::{Job, Pace};
use tasks::plan::AdmittedPlan;
use units::unit::SpeedUnit;

// Whether neither a rest nor a lag is left.
pub(crate) fn ready<U: SpeedUnit>(unit: &U) -> bool
    ensures { result ≡ is_ready (U.meaning unit.now) }
{
    unit.standing().is_ready()
}

// Asks for a level, if the unit would take it. Whether it was asked.
fn try_ask<U: SpeedUnit>(unit: &mut U, level: u32) -> bool
    ensures asks { result ≡ may_ask (U.nature unit.old) level (U.meaning unit.old) }
    ensures does { WithRaise (U.nature unit.old) (λ lag. (if result then ask_with lag level (U.meaning unit.old) else U.meaning unit.old)) (U.meaning unit.new) }
    ensures fixed { U.nature unit.new ≡ U.nature unit.old }
{
    let taken = ready(unit) && unit.takes(level);
    if taken {
        unit.ask(level).unwrap();
    }
    taken
}

// Rests for some ticks, if the unit would take that.
fn try_rest<U: SpeedUnit>(unit: &mut U, ticks: u32)
    ensures does { U.meaning unit.new ≡ (if may_rest ticks (U.meaning unit.old) then rest_for ticks (U.meaning unit.old) else U.meaning unit.old) }
    ensures fixed { U.nature unit.new ≡ U.nature unit.old }
{
    if ready(unit) && (1..=65_535).contains(&ticks) && unit.standing().asked > 0 {
        unit.rest(ticks).unwrap();
    }
}

// The lowest level that, times the window, is at least the units still to give.
fn enough_in_window(window: u32, need: u32, levels: &[u32]) -> Option<u32>
    ensures { result ≡ enough_in window need levels.now }
{
    levels.iter().copied().find(|level| u64::from(*level) * u64::from(window) >= u64::from(need))
}

impl State {
    // The ticks that a lone job may take at a lower level: up to its deadline and the first release, less the raise allowance.
    fn window(&self, job: Job) -> u32
        ensures { result ≡ the_window self.now.count self.now.allowed.raise job (inner_of self.now.inner).delay }
    {
        let end = self
            .inner
            .delay
            .head()
            .map_or(job.due, |release| job.due.min(release.key));
        end.saturating_sub(self.allowed.raise)
            .saturating_sub(self.count)
    }

    // The lowest level at which the job of a row, alone, is done within its window.
    fn level_for(&self, plan: &AdmittedPlan, row: u32) -> Option<u32>
        ensures { result ≡ level_in_window (plan_of plan.now) (state_of self.now) row }
    {
        let job = job_of(&self.inner.jobs, row);
        let ticks = self.window(job);
        if ticks == 0 {
            return None;
        }
        let need = task_of(plan.tasks(), row).work.saturating_sub(job.given);
        enough_in_window(ticks, need, plan.levels())
    }

    // The ticks for which the unit may rest while no row is active: until the first release, less the wake allowance.
    fn rest_ticks(&self) -> Option<u32>
        ensures { result ≡ option_map (λ e. e.key - self.now.count - self.now.allowed.wake) (first (inner_of self.now.inner).delay) }
    {
        self.inner.delay.head().map(|release| {
            release
                .key
                .saturating_sub(self.count)
                .saturating_sub(self.allowed.wake)
        })
    }

    // If the unit was slowed for a job that is now finished, the admitted level is asked for. The pace after that.
    pub(crate) fn back<U: SpeedUnit>(&self, plan: &AdmittedPlan, unit: &mut U) -> Pace
        ensures does { AsksBack (U.nature unit.old) (plan_of plan.now) (state_of self.now) (U.meaning unit.old) (record { pace = result; unit = U.meaning unit.new }) }
        ensures fixed { U.nature unit.new ≡ U.nature unit.old }
    {
        match self.pace {
            Pace::Over if try_ask(unit, plan.level()) => Pace::Full,
            kept => kept,
        }
    }

    // A unit at the admitted level that works: with no active row it rests, and with one row alone it is slowed. The pace after that.
    fn rest_or_slow<U: SpeedUnit>(&self, plan: &AdmittedPlan, unit: &mut U) -> Pace
        ensures does { RestsOrSlows (U.nature unit.old) (plan_of plan.now) (state_of self.now) (U.meaning unit.old) (record { pace = result; unit = U.meaning unit.new }) }
        ensures fixed { U.nature unit.new ≡ U.nature unit.old }
    {
        match (self.inner.active, self.inner.ready.head()) {
            (None, _) => {
                if let Some(ticks) = self.rest_ticks() {
                    try_rest(unit, ticks);
                }
                Pace::Full
            }
            (Some(row), None) => match self.level_for(plan, row) {
                Some(level) if level < plan.level() && try_ask(unit, level) => Pace::Slowed(row),
                _ => Pace::Full,
            },
            (Some(_), Some(_)) => Pace::Full,
        }
    }

    // A unit that rests, lags or is still slowed is asked nothing more; any other rests or is slowed where it can. The pace after that.
    pub(crate) fn spare<U: SpeedUnit>(&self, plan: &AdmittedPlan, unit: &mut U) -> Pace
        ensures does { Spares (U.nature unit.old) (plan_of plan.now) (state_of self.now) (U.meaning unit.old) (record { pace = result; unit = U.meaning unit.new }) }
        ensures fixed { U.nature unit.new ≡ U.nature unit.old }
    {
        match self.pace {
            Pace::Full if ready(unit) => self.rest_or_slow(plan, unit),
            kept => kept,
        }
    }
}
