// Speed units: what every unit promises, and two units that keep it.
#![tactic(auto)]

pub mod divider;
pub mod divider_unit;
pub mod ramp;
pub mod ramp_unit;
pub mod unit;
