// The ramp as a speed unit: it takes its own levels, and its lags count them.
ghost use Rattle.std.specs.Prelude.{◌≡◌, ◌≤◌, length, MatchResult, OnErr};
ghost use Rattle.std.specs.Int.NonZero.{non_zero_u32_get};
ghost use Rattle.fault.specs.declared.Refusal.TheVariants.{BadCount};
ghost use Rattle.fault.specs.Faults.{fault_at};
ghost use Rattle.tasks.specs.Tables.{listed};
ghost use Rattle.units.specs.Calls.{CallIs, AskIs, tick_with};
ghost use Rattle.units.specs.Meaning.{Asked, Ticked, off as nothing};
ghost use Rattle.units.specs.Ramp.{between, ramps, ramp_meaning, ramp_nature, ramp_refusal, ramp_after, Moves};
ghost use Rattle.units.specs.Standing.{standing_meaning};
ghost use Rattle.units.specs.States.{state_meaning};
ghost use Rattle.units.specs.Ramping.{stands_range};
ghost use Rattle.std.proofs.Common.{rules};

use crate::ramp::{Event, Ramp, State};
use crate::unit::{Allowances, SpeedUnit, Standing};
use fault::{Fault, Refusal};
use std::num::NonZeroU32;
use tasks::back::Back;
use tasks::level_list::LevelList;

// The state that reaches a level after a lag.
fn reaching(level: NonZeroU32, lag: u32) -> State
    ensures { state_meaning result ≡ record { asked = non_zero_u32_get level; lag = lag; rest = 0 } }
{
    match NonZeroU32::new(lag) {
        Some(left) => State::Changing { level, left },
        None => State::Working(level),
    }
}

// The numbers of a ramp in a state.
impl From<State> for Standing {
    ghost from_gives = { λ state at. standing_meaning at ≡ state_meaning state };

    fn from(state: State) -> Standing {
        match state {
            State::Off => Standing::default(),
            State::Working(level) => Standing {
                asked: level.get(),
                ..Standing::default()
            },
            State::Changing { level, left } => Standing {
                asked: level.get(),
                lag: left.get(),
                ..Standing::default()
            },
            State::Asleep { level, left } => Standing {
                asked: level.get(),
                rest: left.get(),
                ..Standing::default()
            },
        }
    }
}

impl Ramp {
    // A ramp that is off. An empty list is refused, and given back.
    pub fn new(levels: LevelList) -> Result<Ramp, Back<LevelList>>
        ensures { MatchResult result
            (λ p. (1 ≤ length (listed levels)) × (ramp_meaning p ≡ nothing) × (ramp_nature p ≡ ramps (listed levels)))
            (λ b. (length (listed levels) ≡ 0) × (b.fault ≡ fault_at BadCount 0 0) × (b.given ≡ levels)) }
    {
        if levels.as_slice().is_empty() {
            return Err(Back {
                fault: Refusal::BadCount.into(),
                given: levels,
            });
        }
        Ok(Ramp {
            levels,
            state: State::Off,
        })
    }

    // How many levels are above `low` and up to `high`.
    fn levels_between(&self, low: u32, high: u32) -> u32
        ensures { result ≡ between low high (listed self.now.levels) }
    {
        self.levels
            .as_slice()
            .iter()
            .filter(|level| low < **level && **level <= high)
            .count() as u32
    }

    // The state that climbs to a level, with a lag tick for each level on the way.
    fn climbing(&self, low: u32, level: NonZeroU32) -> State
        ensures { state_meaning result ≡ record { asked = non_zero_u32_get level; lag = between low (non_zero_u32_get level) (listed self.now.levels); rest = 0 } }
    {
        reaching(level, self.levels_between(low, level.get()))
    }

    // The state after an ask that comes while a level, or 0 for off, is at work.
    #[tactic(auto, using(crate::specs::Ramping::stands_range))]
    fn asked(&self, old: u32, level: u32) -> Result<State, Refusal>
        ensures { Moves (listed self.now.levels) (Event.Ask level) (record { asked = old; lag = 0; rest = 0 }) result }
    {
        match NonZeroU32::new(level) {
            Some(own) if self.takes(level) => Ok(self.climbing(old, own)),
            _ => Err(Refusal::UnknownLevel),
        }
    }

    // The state after an event, or why the event is refused.
    fn next(&self, event: Event) -> Result<State, Refusal>
        ensures { Moves (listed self.now.levels) event (ramp_meaning self.now) result }
    {
        match (self.state, event) {
            (_, Event::Off) => Ok(State::Off),
            (State::Off | State::Working(_), Event::Tick) => Ok(self.state),
            (State::Changing { level, left }, Event::Tick) => Ok(reaching(level, left.get() - 1)),
            (State::Asleep { level, left }, Event::Tick) => match NonZeroU32::new(left.get() - 1) {
                Some(left) => Ok(State::Asleep { level, left }),
                None => Ok(self.climbing(0, level)),
            },
            (State::Changing { .. } | State::Asleep { .. }, _) => Err(Refusal::UnitBusy),
            (State::Off, Event::Ask(level)) => self.asked(0, level),
            (State::Working(old), Event::Ask(level)) => self.asked(old.get(), level),
            (State::Off, Event::Rest(_)) => Err(Refusal::BadRest),
            (State::Working(level), Event::Rest(ticks)) => match NonZeroU32::new(ticks) {
                Some(left) if ticks <= 65_535 => Ok(State::Asleep { level, left }),
                _ => Err(Refusal::BadRest),
            },
        }
    }

    // Moves by an event. A refusal leaves the ramp as it was. Each caller has one event, so that little of this is left where it stands in the caller.
    #[inline(always)]
    fn on(&mut self, event: Event) -> Result<(), Fault>
        ensures does { CallIs (ramp_refusal (listed self.old.levels) event (ramp_meaning self.old)) (ramp_after (listed self.old.levels) event (ramp_meaning self.old)) (ramp_meaning self.old) result (ramp_meaning self.new) }
        ensures fixed { ramp_nature self.new ≡ ramp_nature self.old }
        ensures kept { OnErr result (self.new ≡ self.old) }
    {
        self.state = self.next(event)?;
        Ok(())
    }
}

impl SpeedUnit for Ramp {
    ghost meaning = { ramp_meaning };

    ghost nature = { ramp_nature };

    ghost few = { Prim.search rules };

    ghost levels = { λ u level h. stands_range 0 (listed u.levels) level u.levels.rising h };

    fn allowances(&self) -> Allowances {
        let n = self.levels.as_slice().len() as u32;
        Allowances { raise: n, wake: n }
    }

    fn takes(&self, level: u32) -> bool {
        self.levels.as_slice().contains(&level)
    }

    // A raise takes a lag tick for each level on the way.
    fn ask(&mut self, level: u32) -> Result<(), Fault>
        ensures does { Asked (ramp_nature self.old) level (ramp_meaning self.old) result (ramp_meaning self.new) }
        ensures fixed { ramp_nature self.new ≡ ramp_nature self.old }
        ensures kept { OnErr result (self.new ≡ self.old) }
        ensures exact { AskIs (ramp_nature self.old) level (between (ramp_meaning self.old).asked level (listed self.old.levels)) (ramp_meaning self.old) result (ramp_meaning self.new) }
    {
        self.on(Event::Ask(level))
    }

    fn rest(&mut self, ticks: u32) -> Result<(), Fault> {
        self.on(Event::Rest(ticks))
    }

    // The tick that ends a rest leaves a lag tick for each level up to the one asked for.
    fn tick(&mut self)
        ensures does { Ticked (ramp_nature self.old) (ramp_meaning self.old) (ramp_meaning self.new) }
        ensures fixed { ramp_nature self.new ≡ ramp_nature self.old }
        ensures exact { ramp_meaning self.new ≡ tick_with (between 0 (ramp_meaning self.old).asked (listed self.old.levels)) (ramp_meaning self.old) }
    {
        // A tick is never refused.
        self.on(Event::Tick).unwrap();
    }

    fn off(&mut self) {
        // To turn off is never refused.
        self.on(Event::Off).unwrap();
    }

    fn standing(&self) -> Standing {
        self.state.into()
    }
}
