// Begin: a plan becomes a run.
ghost use Rattle.std.specs.Prelude.{◌≡◌, true, [], IfOk, Some, MatchResult};
ghost use Rattle.units.specs.Calls.{ask_with};
ghost use Rattle.machine.specs.Begin.{begin_fault};
ghost use Rattle.machine.specs.Reached.{Began};
ghost use Rattle.machine.specs.Speed.{may_ask};
ghost use Rattle.run.specs.Promises.{Promised};
ghost use Rattle.run.specs.Steps.{WithRaise};
ghost use Rattle.run.specs.Views.{plan_of, now_of, moment};

use crate::opening::{check, rows_at_begin};
use crate::run::{Run, Slip};
use crate::state::State;
use fault::Fault;
use machine::job::Pace;
use tasks::back::Back;
use tasks::plan::AdmittedPlan;
use units::unit::SpeedUnit;

// Asks for the admitted level, which the unit takes.
fn ask_admitted<U: SpeedUnit>(plan: &AdmittedPlan, unit: &mut U) -> Result<(), Fault>
    requires may { may_ask (U.nature unit.old) plan.now.level (U.meaning unit.old) ≡ true }
    ensures does { MatchResult result (λ _. WithRaise (U.nature unit.old) (λ lag. ask_with lag plan.now.level (U.meaning unit.old)) (U.meaning unit.new)) (λ _. ⊥) }
    ensures fixed { U.nature unit.new ≡ U.nature unit.old }
{
    unit.ask(plan.level())
}

// The state that a run begins in: every row waits for its first release, the admitted level is asked for, and the run settles. Where a check
// refuses, the unit is asked nothing; after the checks nothing refuses.
fn open<U: SpeedUnit>(plan: &AdmittedPlan, starts: &[u32], unit: &mut U) -> Result<State, Fault>
    ensures does { MatchResult result
        (λ s. Began (U.nature unit.old) (plan_of plan.now) starts.now (U.meaning unit.old) (now_of s (U.meaning unit.new)))
        (λ e. (begin_fault (U.nature unit.old) (plan_of plan.now) starts.now (U.meaning unit.old) ≡ Some e) × (unit.new ≡ unit.old)) }
    ensures fixed { U.nature unit.new ≡ U.nature unit.old }
{
    check(plan, starts, unit)?;
    let allowed = unit.allowances();
    let inner = rows_at_begin(plan, starts, allowed.raise)?;
    ask_admitted(plan, unit)?;
    let mut state = State {
        count: 0,
        inner,
        pace: Pace::Full,
        allowed,
    };
    state.settle(plan, unit);
    Ok(state)
}

impl Run {
    // The run of a plan from these first releases, for each row or for none, on a unit; and the slip for its stand-down. A refusal gives the plan
    // back, and asks the unit nothing.
    pub fn begin<U: SpeedUnit>(
        plan: AdmittedPlan,
        starts: &[u32],
        unit: &mut U,
    ) -> Result<(Run, Slip), Back<AdmittedPlan>>
        ensures does { MatchResult result
            (λ b. (b.0.plan ≡ plan) × Began (U.nature unit.old) (plan_of plan) starts.now (U.meaning unit.old) (moment b.0 (U.meaning unit.new)))
            (λ b. (begin_fault (U.nature unit.old) (plan_of plan) starts.now (U.meaning unit.old) ≡ Some b.fault) × (b.given ≡ plan) × (unit.new ≡ unit.old)) }
        ensures promised { IfOk result (λ b. Promised (U.nature unit.old) (plan_of plan) starts.now (U.meaning unit.old) [] (moment b.0 (U.meaning unit.new))) }
        ensures fixed { U.nature unit.new ≡ U.nature unit.old }
    {
        match open(&plan, starts, unit) {
            Ok(state) => Ok((Run { plan, state }, Slip { seal: () })),
            Err(fault) => Err(Back { fault, given: plan }),
        }
    }
}
