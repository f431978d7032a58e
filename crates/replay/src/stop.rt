// Why a run is not played.
use anyhow::anyhow;
use fault::Fault;
use run::Halt;
use std::alloc::AllocError;

// A refusal of the sheet, the unit or the begin, which is the answer then; or a failure.
#[derive(Drop)]
pub(crate) enum Stop {
    Refused(Fault),
    Failed(anyhow::Error),
}

// A refusal.
impl From<Fault> for Stop {
    fn from(fault: Fault) -> Stop {
        Stop::Refused(fault)
    }
}

// Want of memory.
impl From<AllocError> for Stop {
    fn from(why: AllocError) -> Stop {
        Stop::Failed(why.into())
    }
}

// A run that did not begin, or had no memory.
impl From<Halt> for Stop {
    fn from(halt: Halt) -> Stop {
        match halt {
            Halt::NoMemory(_) => Stop::Failed(anyhow!("no memory for the run")),
            Halt::NotAdmitted(back) => Stop::Refused(back.fault),
            Halt::NotBegun(back) => Stop::Refused(back.fault),
        }
    }
}
