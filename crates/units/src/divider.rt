// A unit that divides one rate.
ghost use Rattle.std.specs.Prelude.{◌≤◌};

use crate::unit::Standing;

// A divider takes the levels that divide its rate, and lags by its wake count after a rest.
#[derive(Drop)]
pub struct Divider {
    pub(crate) rate: u32,
    pub(crate) wake: u32,
    pub(crate) standing: Standing,
    ghost some_rate: { 1 ≤ rate },
    ghost slow: { rate ≤ 1000 },
    ghost short_wake: { wake ≤ 255 },
}
