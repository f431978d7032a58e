// What a whole run leaves, and why one does not begin.
ghost use Rattle.std.specs.Prelude.{◌≡◌};
ghost use Rattle.run.specs.declared.record.Halt.TheVariants.{NotAdmitted, NotBegun};

use machine::word::Event;
use tasks::back::Back;
use tasks::plan::AdmittedPlan;
use tasks::table::OpenTable;
use units::unit::Standing;

// The admitted level, the words with their replies in the order in which they were said, and the unit after stand-down.
#[derive(Drop)]
pub struct Record {
    pub level: u32,
    pub events: Vec<Event>,
    pub end: Standing,
}

// There was no memory for the record; the table was not admitted; or the plan was not begun. Each gives back what it was given.
#[derive(Drop)]
pub enum Halt {
    NoMemory(OpenTable),
    NotAdmitted(Back<OpenTable>),
    NotBegun(Back<AdmittedPlan>),
}

// A refused admission, with its table.
impl From<Back<OpenTable>> for Halt {
    ghost from_gives = { λ back halt. halt ≡ NotAdmitted back };

    fn from(back: Back<OpenTable>) -> Halt {
        Halt::NotAdmitted(back)
    }
}

// A refused begin, with its plan.
impl From<Back<AdmittedPlan>> for Halt {
    ghost from_gives = { λ back halt. halt ≡ NotBegun back };

    fn from(back: Back<AdmittedPlan>) -> Halt {
        Halt::NotBegun(back)
    }
}
