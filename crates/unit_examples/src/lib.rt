// Speed units at work: a unit over any other unit, and what a divider and a ramp do on examples.
#![tactic(auto)]

pub mod counted;
pub mod counted_unit;
#[cfg(test)]
mod examples;
