// A unit that climbs through its own levels.
use std::num::NonZeroU32;
use tasks::level_list::LevelList;

// What a ramp is doing: at which level, and for how many ticks more.
#[derive(Clone, Copy)]
pub(crate) enum State {
    Off,
    Working(NonZeroU32),
    // On the way to a level.
    Changing { level: NonZeroU32, left: NonZeroU32 },
    // Asleep at a level.
    Asleep { level: NonZeroU32, left: NonZeroU32 },
}

// What can happen to a ramp.
#[derive(Clone, Copy)]
pub(crate) enum Event {
    Ask(u32),
    Rest(u32),
    Tick,
    Off,
}

// A ramp takes its own levels, and does one thing at a time.
#[derive(Drop)]
pub struct Ramp {
    pub(crate) levels: LevelList,
    pub(crate) state: State,
}
