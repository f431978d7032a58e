// How the rows of a run move.
ghost use Rattle.std.specs.Prelude.{◌≡◌, ◌+◌, ◌^◌, ◌<◌, ◌≤◌, map, Some, None, slice_set};
ghost use Rattle.tasks.specs.Tables.{task_of};
ghost use Rattle.machine.specs.Inner.{job_at, new_job, given_more, give as given, finish as finished, release_due as released, elect as elected};
ghost use Rattle.machine.specs.Plans.{task_at};
ghost use Rattle.run.specs.Views.{inner_of};

use crate::inner::Inner;
use machine::job::Job;
use queue::Entry;
use tasks::task::Task;

// The task of a row; past the last row, the least task that there is.
pub(crate) fn task_of(tasks: &[Task], row: u32) -> Task
    ensures { task_of result ≡ task_at (map task_of tasks.now) row }
{
    let least = Task {
        period: 1,
        deadline: 1,
        work: 1,
    };
    tasks.get(row as usize).copied().unwrap_or(least)
}

// The job of a row; past the last record, one without units.
pub(crate) fn job_of(jobs: &[Job], row: u32) -> Job
    ensures { result ≡ job_at jobs.now row }
{
    jobs.get(row as usize).copied().unwrap_or_default()
}

// Writes the job of a row. No other record changes.
#[tactic(auto, using(std::proofs::lemmas::List::set_past))]
fn write_job(jobs: &mut [Job], row: u32, job: Job)
    ensures { jobs.new ≡ slice_set jobs.old row job }
{
    if (row as usize) < jobs.len() {
        jobs[row as usize] = job;
    }
}

// Gives a job more units.
fn give(job: &mut Job, units: u32)
    requires fits { job.old.given + units < 2 ^ 32 }
    ensures { job.new ≡ given_more units job.old }
{
    job.given += units;
}

// Gives the job of a row more units: its record is lent to be changed, and no other changes.
#[tactic(auto, using(std::proofs::lemmas::List::set_past))]
fn give_at(jobs: &mut [Job], row: u32, units: u32)
    requires fits { (job_at jobs.old row).given + units < 2 ^ 32 }
    ensures { jobs.new ≡ slice_set jobs.old row (given_more units (job_at jobs.old row)) }
{
    if (row as usize) < jobs.len() {
        give(&mut jobs[row as usize], units);
    }
}

// The job of a task that is released at a tick, with nothing given.
fn job_from(task: Task, tick: u32) -> Job
    requires early { tick ≤ 1000000000 }
    ensures { result ≡ new_job (task_of task) tick }
{
    Job {
        due: tick + task.deadline,
        next: tick + task.period,
        given: 0,
    }
}

impl Inner {
    // Gives the job of a row more units. The record of that row changes, and no other.
    pub(crate) fn give_row(&mut self, row: u32, units: u32)
        requires fits { (job_at self.old.jobs row).given + units < 2 ^ 32 }
        ensures { inner_of self.new ≡ given row units (inner_of self.old) }
    {
        give_at(&mut self.jobs, row, units);
    }

    // The job of the active row is finished: the row waits for its next release.
    pub(crate) fn finish_row(&mut self, row: u32)
        requires active { self.old.active ≡ Some row }
        ensures { inner_of self.new ≡ finished row (inner_of self.old) }
    {
        let next = job_of(&self.jobs, row).next;
        self.active = None;
        self.delay.put(Entry { key: next, row }).unwrap();
    }

    // Rows of the delay queue whose release is at most `tick` go to the run queue, with new jobs.
    pub(crate) fn release_due(&mut self, tasks: &[Task], tick: u32)
        requires early { tick ≤ 1000000000 }
        ensures { inner_of self.new ≡ released (map task_of tasks.now) tick (inner_of self.old) }
    {
        while let Some(Entry { key, row }) = self.delay.take_due(tick) {
            let job = job_from(task_of(tasks, row), key);
            write_job(&mut self.jobs, row, job);
            self.ready.put(Entry { key: 0, row }).unwrap();
        }
    }

    // If there is no active row, or the head of the run queue goes before it, that head becomes active, and the former active row joins the run
    // queue.
    pub(crate) fn elect(&mut self)
        ensures { inner_of self.new ≡ elected (inner_of self.old) }
    {
        let Some(head) = self.ready.head() else {
            return;
        };
        let former = self.active.map(|row| Entry { key: 0, row });
        if former.is_some_and(|entry| entry <= head) {
            return;
        }
        let _ = self.ready.take_head();
        if let Some(entry) = former {
            self.ready.put(entry).unwrap();
        }
        self.active = Some(head.row);
    }
}
