// A run, and the slip that only stand-down takes.
use crate::state::State;
use tasks::plan::AdmittedPlan;

// A plan on its way. Begin makes it, and stand-down ends it.
#[derive(Drop)]
pub struct Run {
    pub(crate) plan: AdmittedPlan,
    pub(crate) state: State,
}

// The stand-down slip, which begin hands out with the run. It cannot be let go: only stand-down takes it.
pub struct Slip {
    pub(crate) seal: (),
}
