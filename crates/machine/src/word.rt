// What is said to a run, and what it replies.
ghost use Rattle.std.specs.Prelude.{◌≡◌, Some};
ghost use Rattle.machine.specs.Printed.{outcome_text, report_items, run_standing_items, reply_items};
ghost use Rattle.machine.specs.Replies.{reply_of};

use fault::Fault;
use std::fmt;
use units::unit::Standing;

// That the active job goes on through this tick; that it ended in it; and the question where the run stands.
#[derive(Clone, Copy)]
pub enum Word {
    GoOn,
    Ended,
    Standing,
}

// How a tick left the job that ran: unfinished; ended, as was said; or finished, since its whole work is given.
#[derive(Clone, Copy)]
pub enum Outcome {
    Going,
    Ended,
    Spent,
}

// A tick: the number of the row that ran, from 1, or 0 where none did; the level; the units given; and how the job was left.
#[derive(Clone, Copy)]
pub struct Report {
    pub row: usize,
    pub level: u32,
    pub units: u32,
    pub outcome: Outcome,
}

// Where a run stands: the ticks since begin; the number of the active row, from 1, with the units that its job was given (0 for none); and the unit.
#[derive(Clone, Copy)]
pub struct RunStanding {
    pub count: u32,
    pub row: usize,
    pub given: u32,
    pub unit: Standing,
}

// What is replied to a word: a tick, where the run stands, or a refusal.
#[derive(Clone, Copy)]
pub enum Reply {
    Ran(Report),
    Stands(RunStanding),
    Refused(Fault),
}

// The reply of a tick, by its result.
impl From<Result<Report, Fault>> for Reply {
    ghost from_gives = { λ outcome reply. reply ≡ reply_of outcome };

    fn from(outcome: Result<Report, Fault>) -> Reply {
        match outcome {
            Ok(report) => Reply::Ran(report),
            Err(fault) => Reply::Refused(fault),
        }
    }
}

// A word with its reply.
#[derive(Clone, Copy)]
pub struct Event {
    pub word: Word,
    pub reply: Reply,
}

// `going`, `ended` or `spent`
impl fmt::Display for Outcome {
    ghost output = { λ o. Some (outcome_text o) };

    fn fmt<W: fmt::Write>(&self, f: &mut fmt::Formatter<W>) -> fmt::Result {
        f.write_str(match self {
            Outcome::Going => "going",
            Outcome::Ended => "ended",
            Outcome::Spent => "spent",
        })
    }
}

// ROW LEVEL UNITS OUTCOME
impl fmt::Display for Report {
    ghost output = { λ r. Some (report_items r) };

    fn fmt<W: fmt::Write>(&self, f: &mut fmt::Formatter<W>) -> fmt::Result {
        let Report {
            row,
            level,
            units,
            outcome,
        } = *self;
        write!(f, "{row} {level} {units} {outcome}")
    }
}

// COUNT ROW GIVEN ASKED LAG REST
impl fmt::Display for RunStanding {
    ghost output = { λ s. Some (run_standing_items s) };

    fn fmt<W: fmt::Write>(&self, f: &mut fmt::Formatter<W>) -> fmt::Result {
        let RunStanding {
            count,
            row,
            given,
            unit,
        } = *self;
        write!(f, "{count} {row} {given} {unit}")
    }
}

// A tick, where the run stands, or a refusal.
impl fmt::Display for Reply {
    ghost output = { λ r. Some (reply_items r) };

    fn fmt<W: fmt::Write>(&self, f: &mut fmt::Formatter<W>) -> fmt::Result {
        match self {
            Reply::Ran(report) => report.fmt(f),
            Reply::Stands(standing) => standing.fmt(f),
            Reply::Refused(fault) => fault.fmt(f),
        }
    }
}
