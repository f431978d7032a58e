// The record of a row's job, and the pace of the unit.

// The job of a row: the tick at which it is due, the tick of the row's next release, and the units that it was given.
#[derive(Clone, Copy, Default)]
pub struct Job {
    pub due: u32,
    pub next: u32,
    pub given: u32,
}

// At the admitted level; slowed for the job of a row; slowed for a job that is now finished.
#[derive(Clone, Copy)]
pub enum Pace {
    Full,
    Slowed(u32),
    Over,
}
