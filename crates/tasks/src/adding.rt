// Making tables, and adding to them.
ghost use Rattle.std.specs.Prelude.{◌≡◌, ◌<◌, [], map, IfOk, Some, None, MatchResult};
ghost use Rattle.tasks.specs.Levels.{level_fault, top};
ghost use Rattle.tasks.specs.Ranges.{one_to, task_refusal};
ghost use Rattle.tasks.specs.Rows.{after_fault};
ghost use Rattle.tasks.specs.Tables.{numbers, task_of, listed, levels_of, tasks_of, task_fault, Adds};

use crate::level_list::LevelList;
use crate::table::OpenTable;
use crate::task::Task;
use fault::{Fault, Refusal};
use std::alloc::{AllocError, Global};

// Whether n is from 1 to the given number.
fn one_to(most: u32, n: u32) -> bool
    ensures { result ≡ one_to most n }
{
    (1..=most).contains(&n)
}

impl Task {
    // The task with these numbers, or the first of them that is out of its range.
    pub fn new(period: u32, deadline: u32, work: u32) -> Result<Task, Refusal>
        ensures { MatchResult result (λ t. (task_refusal period deadline work ≡ None) × (task_of t ≡ numbers period deadline work)) (λ why. task_refusal period deadline work ≡ Some why) }
    {
        if !one_to(65_535, period) {
            return Err(Refusal::BadPeriod);
        }
        if !one_to(period, deadline) {
            return Err(Refusal::BadDeadline);
        }
        if !one_to(16_000_000, work) {
            return Err(Refusal::BadWork);
        }
        Ok(Task {
            period,
            deadline,
            work,
        })
    }
}

impl LevelList {
    // An empty list with room for every level; the only call on a list that can find no memory.
    pub fn new(heap: Global) -> Result<LevelList, AllocError>
        ensures { IfOk result (λ l. listed l ≡ []) }
    {
        Ok(LevelList {
            levels: Vec::with_capacity(heap, 64)?,
        })
    }

    // The highest level, 0 where there is none.
    fn last(&self) -> u32
        ensures { result ≡ top (listed self.now) }
    {
        self.levels.last().copied().unwrap_or(0)
    }

    // Takes a level at the end of the list. `line` is the line of the sheet that has it, 0 outside a sheet.
    #[tactic(auto, using(crate::proofs::Levels::ascending_more))]
    pub fn add(&mut self, line: u32, level: u32) -> Result<(), Fault>
        ensures { Adds (level_fault line (listed self.old) level) (listed self.old) level (listed self.new) result }
    {
        let count = self.levels.len();
        if count >= 64 {
            return Err(Fault::new(Refusal::BadCount, line, 0));
        }
        if level <= self.last() || level > 1000 {
            return Err(Fault::new(Refusal::BadLevel, line, count as u32 + 1));
        }
        self.levels.push_reserved(level);
        Ok(())
    }

    // The levels, in their order.
    pub fn as_slice(&self) -> &[u32]
        ensures { result.now ≡ listed self.now }
    {
        &self.levels
    }
}

// The task of the row after `count` rows, or why that row is not taken.
fn task_after(count: usize, line: u32, period: u32, deadline: u32, work: u32) -> Result<Task, Fault>
    ensures { MatchResult result
        (λ t. (count < 32) × (after_fault line count (numbers period deadline work) ≡ None) × (task_of t ≡ numbers period deadline work))
        (λ e. after_fault line count (numbers period deadline work) ≡ Some e) }
{
    if count >= 32 {
        return Err(Fault::new(Refusal::BadCount, line, 0));
    }
    Task::new(period, deadline, work).map_err(|refusal| Fault::new(refusal, line, count as u32 + 1))
}

impl OpenTable {
    // An empty table with room for every level and task; the only call on a table that can find no memory.
    pub fn new(heap: Global) -> Result<OpenTable, AllocError>
        ensures { IfOk result (λ t. (levels_of t ≡ []) × (tasks_of t ≡ [])) }
    {
        Ok(OpenTable {
            levels: LevelList::new(heap)?,
            tasks: Vec::with_capacity(heap, 32)?,
        })
    }

    // Takes a level above those that are there. `line` is the line of the sheet that has it, 0 outside a sheet.
    pub fn add_level(&mut self, line: u32, level: u32) -> Result<(), Fault>
        ensures levels { Adds (level_fault line (levels_of self.old) level) (levels_of self.old) level (levels_of self.new) result }
        ensures tasks { tasks_of self.new ≡ tasks_of self.old }
    {
        self.levels.add(line, level)
    }

    // Takes a task of lower priority than those that are there. `line` is the line of the sheet that has it, 0 outside
    // a sheet.
    pub fn add_task(
        &mut self,
        line: u32,
        period: u32,
        deadline: u32,
        work: u32,
    ) -> Result<(), Fault>
        ensures tasks { Adds (task_fault line (tasks_of self.old) (numbers period deadline work)) (tasks_of self.old) (numbers period deadline work) (tasks_of self.new) result }
        ensures levels { levels_of self.new ≡ levels_of self.old }
    {
        let task = task_after(self.tasks.len(), line, period, deadline, work)?;
        self.tasks.push_reserved(task);
        Ok(())
    }

    // The levels, in their order.
    pub fn levels(&self) -> &[u32]
        ensures { result.now ≡ levels_of self.now }
    {
        self.levels.as_slice()
    }

    // The tasks, row 1 first.
    pub fn tasks(&self) -> &[Task]
        ensures { map task_of result.now ≡ tasks_of self.now }
    {
        &self.tasks
    }
}
