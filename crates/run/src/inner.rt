// Where the rows of a run stand.
ghost use Rattle.std.specs.Prelude.{◌+◌, ◌≤◌};
ghost use Rattle.run.specs.Places.{one};

use crate::line::Line;
use machine::job::Job;

// The rows that wait for a release and those that wait for the processor, the active row, and the job of each row. Rows count from 0. Each row is in
// one place, so that no line is ever full when a row comes to it.
#[derive(Drop)]
pub(crate) struct Inner {
    pub delay: Line,
    pub ready: Line,
    pub active: Option<u32>,
    pub jobs: [Job; 32],
    ghost one_place: { delay.taken + ready.taken + one active ≤ 32 },
}
