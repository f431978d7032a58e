// The search for the first listed level at which every row passes.
ghost use Rattle.std.specs.Prelude.{◌≡◌, ◌^◌, ◌<◌, ◌≤◌, false, length, Some, None, MatchResult};
ghost use Rattle.theory.specs.Test.{lowest, first_failing};
ghost use Rattle.tasks.specs.Admission.{some_empty};
ghost use Rattle.tasks.specs.Levels.{top};
ghost use Rattle.tasks.specs.Loads.{asked, next, LoadOf};
ghost use Rattle.tasks.specs.Rows.{level_answers};
ghost use Rattle.tasks.specs.Tables.{task_of, levels_of, tasks_of};

use crate::answer::Answer;
use crate::load::Load;
use crate::passing::{FailingRow, Passing};
use crate::table::OpenTable;
use crate::task::Task;
use arrayvec::ArrayVec;

// The load of a task at a level.
fn load_at(level: u32, task: Task) -> Load
    requires { 1 ≤ level }
    ensures { LoadOf level (task_of task) result }
{
    Load {
        period: task.period,
        cost: task.work.div_ceil(level),
    }
}

// The first point at `from` or after it, and the demand there.
#[tactic(auto, using(crate::proofs::Loads::one_more))]
fn next_point(loads: &[Load], last: u32, from: u32) -> Answer
    requires few { length loads.now ≤ 32 }
    requires low { from ≤ 65535 }
    ensures point { result.point ≡ next loads.now last from }
    ensures demand { result.demand ≡ asked loads.now from }
    ensures bound { result.demand < 2 ^ 46 }
{
    let mut point = last;
    let mut demand = 0u64;
    for load in loads {
        let jobs = from.div_ceil(load.period);
        point = point.min(jobs * load.period);
        demand += u64::from(load.cost) * u64::from(jobs);
    }
    Answer { point, demand }
}

impl OpenTable {
    // The first listed level at which every row passes, with the answers there. Where no level passes, the first row that
    // fails at the last one.
    pub(crate) fn lowest_level(&self) -> Result<Passing, FailingRow>
        requires { some_empty (levels_of self.now) (tasks_of self.now) ≡ false }
        ensures { MatchResult result
            (λ f. lowest (levels_of self.now) (tasks_of self.now) ≡ Some (level_answers f))
            (λ e. (lowest (levels_of self.now) (tasks_of self.now) ≡ None) × (e.0 ≡ first_failing (top (levels_of self.now)) (tasks_of self.now))) }
    {
        let mut answers = ArrayVec::<Answer, 32>::new();
        'levels: for level in self.levels() {
            answers.clear();
            let mut loads = ArrayVec::<Load, 32>::new();
            let mut ahead = 0u64;
            'rows: for task in &self.tasks {
                let load = load_at(*level, *task);
                loads.push(load);
                let mut from = ahead + u64::from(load.cost);
                let found = 'points: loop {
                    if from > u64::from(task.deadline) {
                        continue 'levels;
                    }
                    let at = next_point(&loads, task.deadline, from as u32);
                    if at.demand <= u64::from(at.point) {
                        break 'points at;
                    }
                    from = at.demand;
                };
                ahead = found.demand;
                answers.push(found);
            }
            return Ok(Passing {
                level: *level,
                answers,
            });
        }
        Err(FailingRow(answers.len() as u32 + 1))
    }
}
