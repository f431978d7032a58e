// A tick of a run, and where it stands.
ghost use Rattle.std.specs.Prelude.{◌≡◌, ◌<◌, Some, Ok, Err, OnErr, if◌then◌else◌};
ghost use Rattle.fault.specs.declared.Refusal.TheVariants.{NothingGiven};
ghost use Rattle.fault.specs.Faults.{fault_at};
ghost use Rattle.machine.specs.declared.word.Outcome.TheVariants.{Going};
ghost use Rattle.machine.specs.declared.word.Reply.TheVariants.{Stands};
ghost use Rattle.machine.specs.Machine.{outcome_of, pace_after, row_number, given_to, standing_of};
ghost use Rattle.machine.specs.Replies.{reply_of};
ghost use Rattle.run.specs.Steps.{Runs, Ticks};
ghost use Rattle.run.specs.Views.{plan_of, state_of, now_of};

use crate::rows::{job_of, task_of};
use crate::state::State;
use fault::{Fault, Refusal};
use machine::job::Pace;
use machine::word::{Outcome, Report, RunStanding};
use tasks::plan::AdmittedPlan;
use units::unit::SpeedUnit;

// How a tick leaves the job that ran: what was said comes first.
fn outcome(said: bool, whole: bool) -> Outcome
    ensures { result ≡ outcome_of said whole }
{
    if said {
        Outcome::Ended
    } else if whole {
        Outcome::Spent
    } else {
        Outcome::Going
    }
}

// The pace once the job of a row is finished.
fn pace_after(row: u32, pace: Pace) -> Pace
    ensures { result ≡ pace_after row pace }
{
    match pace {
        Pace::Slowed(slowed) if slowed == row => Pace::Over,
        kept => kept,
    }
}

// The report of a tick in which no row runs, so that none can have ended in it.
fn none_ran(said: bool) -> Result<Report, Fault>
    ensures { result ≡ (if said then Err (fault_at NothingGiven 0 0) else Ok (record { row = 0; level = 0; units = 0; outcome = Going })) }
{
    if said {
        return Err(Refusal::NothingGiven.into());
    }
    Ok(Report {
        row: 0,
        level: 0,
        units: 0,
        outcome: Outcome::Going,
    })
}

impl State {
    // The job of the active row is given what the unit does in a tick, or what remains of its work. It is finished if that was said, or if it has
    // the whole work.
    fn run_row(&mut self, plan: &AdmittedPlan, said: bool, row: u32, level: u32) -> Report
        requires active { self.old.inner.active ≡ Some row }
        requires works { 0 < level }
        ensures does { Runs (plan_of plan.now) said level (state_of self.old) (Ok result) (state_of self.new) }
        ensures count { self.new.count ≡ self.old.count }
    {
        let work = task_of(plan.tasks(), row).work;
        let given = job_of(&self.inner.jobs, row).given;
        let units = level.min(work.saturating_sub(given));
        let whole = given + units == work;
        self.inner.give_row(row, units);
        if said || whole {
            self.inner.finish_row(row);
            self.pace = pace_after(row, self.pace);
        }
        Report {
            row: row as usize + 1,
            level,
            units,
            outcome: outcome(said, whole),
        }
    }

    // What runs in a tick of a unit that works at a level: the active row, or none.
    fn run(&mut self, plan: &AdmittedPlan, said: bool, level: u32) -> Result<Report, Fault>
        ensures does { Runs (plan_of plan.now) said level (state_of self.old) result (state_of self.new) }
        ensures count { self.new.count ≡ self.old.count }
        ensures kept { OnErr result (self.new ≡ self.old) }
    {
        match self.inner.active {
            Some(row) if level > 0 => Ok(self.run_row(plan, said, row, level)),
            _ => none_ran(said),
        }
    }

    // A tick, in which ended was said or not; unless the count is at its end.
    pub(crate) fn tick<U: SpeedUnit>(
        &mut self,
        plan: &AdmittedPlan,
        said: bool,
        unit: &mut U,
    ) -> Result<Report, Fault>
        ensures does { Ticks (U.nature unit.old) (plan_of plan.now) said (now_of self.old (U.meaning unit.old)) (reply_of result) (now_of self.new (U.meaning unit.new)) }
        ensures fixed { U.nature unit.new ≡ U.nature unit.old }
        ensures kept { OnErr result ((self.new ≡ self.old) × (unit.new ≡ unit.old)) }
    {
        if self.count >= 1_000_000_000 {
            return Err(Refusal::CountFull.into());
        }
        let report = self.run(plan, said, unit.standing().works())?;
        self.pass(plan, unit);
        Ok(report)
    }

    // The number of the active row and the units that its job was given; 0 and 0 where there is none.
    fn active_job(&self) -> (usize, u32)
        ensures row { result.0 ≡ row_number self.now.inner.active }
        ensures given { result.1 ≡ given_to self.now.inner.jobs self.now.inner.active }
    {
        self.inner.active.map_or((0, 0), |row| {
            (row as usize + 1, job_of(&self.inner.jobs, row).given)
        })
    }

    // Where the run and its unit stand.
    pub(crate) fn shown<U: SpeedUnit>(&self, unit: &U) -> RunStanding
        ensures { Stands result ≡ standing_of (state_of self.now) (U.meaning unit.now) }
    {
        let (row, given) = self.active_job();
        RunStanding {
            count: self.count,
            row,
            given,
            unit: unit.standing(),
        }
    }
}
