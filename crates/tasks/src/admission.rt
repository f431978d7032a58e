// Admission: the search by reference first, and then a making that cannot refuse.
ghost use Rattle.std.specs.Prelude.{◌≡◌, ◌↔◌, map, IfOk, Ok, Err, MatchResult};
ghost use Rattle.std.specs.Option.{option_map};
ghost use Rattle.fault.specs.declared.Refusal.TheVariants.{BadCount, NoLevelPasses};
ghost use Rattle.fault.specs.Faults.{fault_at};
ghost use Rattle.tasks.specs.Admission.{plan_levels, plan_tasks, plan_answers, at_row, some_empty, admission, LowestInTime, SomeEmpty, EveryLevelLate, RefusedBy};
ghost use Rattle.tasks.specs.Rows.{level_answers};
ghost use Rattle.tasks.specs.Tables.{point_demand, task_of, levels_of, tasks_of};

use crate::answer::Answer;
use crate::back::Back;
use crate::passing::{FailingRow, Passing};
use crate::plan::AdmittedPlan;
use crate::table::OpenTable;
use crate::task::Task;
use fault::{Fault, Refusal};

// No level passes: the fault names the row.
impl From<FailingRow> for Fault {
    ghost from_gives = { λ failing fault. fault ≡ fault_at NoLevelPasses 0 failing.0 };

    fn from(failing: FailingRow) -> Fault {
        Fault::new(Refusal::NoLevelPasses, 0, failing.0)
    }
}

impl OpenTable {
    // Whether there are no levels, or no tasks.
    fn some_empty(&self) -> bool
        ensures { result ≡ some_empty (levels_of self.now) (tasks_of self.now) }
    {
        self.levels().is_empty() || self.tasks.is_empty()
    }

    // What admission answers: the level with the answers of the rows there, or why there is none.
    fn search(&self) -> Result<Passing, Fault>
        ensures { MatchResult result
            (λ f. admission (levels_of self.now) (tasks_of self.now) ≡ Ok (level_answers f))
            (λ e. admission (levels_of self.now) (tasks_of self.now) ≡ Err e) }
    {
        if self.some_empty() {
            return Err(Refusal::BadCount.into());
        }
        Ok(self.lowest_level()?)
    }

    // The plan at the level that admission answers, and what that answer means for the jobs.
    #[tactic(auto, using(crate::proofs::Admitting::meanings))]
    fn admitted(self, passing: Passing) -> AdmittedPlan
        requires { admission (levels_of self) (tasks_of self) ≡ Ok (level_answers passing) }
        ensures answer { (admission (levels_of self) (tasks_of self) ≡ Ok (result.level, plan_answers result)) × (plan_levels result ≡ levels_of self) × (plan_tasks result ≡ tasks_of self) }
        ensures lowest { LowestInTime (levels_of self) (tasks_of self) result.level (plan_answers result) }
        ensures empty { RefusedBy BadCount (Ok result) ↔ SomeEmpty (levels_of self) (tasks_of self) }
        ensures none { RefusedBy NoLevelPasses (Ok result) ↔ EveryLevelLate (levels_of self) (tasks_of self) }
    {
        let OpenTable { levels, tasks } = self;
        let Passing { level, answers } = passing;
        AdmittedPlan {
            levels,
            tasks,
            level,
            answers,
        }
    }

    // The table as it was, with the fault that admission answers.
    #[tactic(auto, using(crate::proofs::Admitting::meanings))]
    fn refused(self, fault: Fault) -> Back<OpenTable>
        requires { admission (levels_of self) (tasks_of self) ≡ Err fault }
        ensures answer { (result.fault ≡ fault) × (result.given ≡ self) }
        ensures empty { RefusedBy BadCount (Err result) ↔ SomeEmpty (levels_of self) (tasks_of self) }
        ensures none { RefusedBy NoLevelPasses (Err result) ↔ EveryLevelLate (levels_of self) (tasks_of self) }
    {
        Back { fault, given: self }
    }

    // The plan at the lowest listed level that keeps every deadline. A refusal gives the table back as it was.
    pub fn admit(self) -> Result<AdmittedPlan, Back<OpenTable>>
        ensures answer { MatchResult result
            (λ p. (admission (levels_of self) (tasks_of self) ≡ Ok (p.level, plan_answers p)) × (plan_levels p ≡ levels_of self) × (plan_tasks p ≡ tasks_of self))
            (λ b. (admission (levels_of self) (tasks_of self) ≡ Err b.fault) × (b.given ≡ self)) }
        ensures lowest { IfOk result (λ p. LowestInTime (levels_of self) (tasks_of self) p.level (plan_answers p)) }
        ensures empty { RefusedBy BadCount result ↔ SomeEmpty (levels_of self) (tasks_of self) }
        ensures none { RefusedBy NoLevelPasses result ↔ EveryLevelLate (levels_of self) (tasks_of self) }
    {
        match self.search() {
            Ok(passing) => Ok(self.admitted(passing)),
            Err(fault) => Err(self.refused(fault)),
        }
    }
}

// The level that a plan keeps; `AdmittedPlan::level` says what it means for the jobs.
fn level_of(plan: &AdmittedPlan) -> u32
    ensures { result ≡ plan.now.level }
{
    plan.level
}

impl AdmittedPlan {
    // The admitted level, which is the lowest listed one that keeps every deadline.
    pub fn level(&self) -> u32
        ensures is { result ≡ self.now.level }
        ensures lowest { LowestInTime (plan_levels self.now) (plan_tasks self.now) result (plan_answers self.now) }
    {
        level_of(self)
    }

    // The levels, in their order.
    pub fn levels(&self) -> &[u32]
        ensures { result.now ≡ plan_levels self.now }
    {
        self.levels.as_slice()
    }

    // The tasks, row 1 first.
    pub fn tasks(&self) -> &[Task]
        ensures { map task_of result.now ≡ plan_tasks self.now }
    {
        &self.tasks
    }

    // The answers, that of row 1 first.
    pub fn answers(&self) -> &[Answer]
        ensures { map point_demand result.now ≡ plan_answers self.now }
    {
        &self.answers
    }

    // The answer of a row, from row 1 on; none where there is no such row.
    pub fn answer(&self, row: usize) -> Option<Answer>
        ensures { option_map point_demand result ≡ at_row (plan_answers self.now) row }
    {
        self.answers.get(row.checked_sub(1)?).copied()
    }
}
