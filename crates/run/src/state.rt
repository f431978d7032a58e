// What changes in a run.
ghost use Rattle.std.specs.Prelude.{◌≤◌};

use crate::inner::Inner;
use machine::job::Pace;
use units::unit::Allowances;

// The ticks since begin, the rows, whether the unit is slowed, and the allowances that begin found.
#[derive(Drop)]
pub(crate) struct State {
    pub count: u32,
    pub inner: Inner,
    pub pace: Pace,
    pub allowed: Allowances,
    ghost in_range: { count ≤ 1000000000 },
}
