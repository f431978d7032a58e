// The run of an admitted plan on a speed unit.
#![tactic(auto)]

mod beginning;
mod calls;
mod inner;
mod line;
mod opening;
mod operating;
mod record;
mod rows;
mod run;
mod settling;
mod speed;
mod state;
mod ticking;

pub use operating::operate;
pub use record::{Halt, Record};
pub use run::{Run, Slip};
