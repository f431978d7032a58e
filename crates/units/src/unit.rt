// A speed unit. Its callers know it only by its meaning.
ghost use Rattle.std.specs.Prelude.{◌≡◌, ℕ, ◌≤◌, true, OnErr, Some};
ghost use Rattle.units.specs.Calls.{CallsAreFunctions};
ghost use Rattle.units.specs.Meaning.{Meaning, Nature, Asked, Rested, Ticked, ready, works, off as nothing};
ghost use Rattle.units.specs.Printed.{standing_items};
ghost use Rattle.units.specs.Standing.{standing_meaning};

use fault::Fault;
use std::fmt;

// Where a unit stands: the level asked for, 0 when off; the ticks until it works; the ticks still asleep.
#[derive(Clone, Copy, PartialEq, Eq, Default, Debug)]
pub struct Standing {
    pub asked: u32,
    pub lag: u32,
    pub rest: u32,
}

// How long a unit may lag after a raise, and after a rest.
#[derive(Clone, Copy, PartialEq, Eq, Debug)]
pub struct Allowances {
    pub raise: u32,
    pub wake: u32,
}

impl Standing {
    // Whether neither a rest nor a lag is left.
    pub fn is_ready(self) -> bool
        ensures { result ≡ ready (standing_meaning self) }
    {
        self.rest == 0 && self.lag == 0
    }

    // The level that the unit works at: the one asked for, once neither a rest nor a lag is left.
    pub fn works(self) -> u32
        ensures { result ≡ works (standing_meaning self) }
    {
        if self.is_ready() { self.asked } else { 0 }
    }
}

// ASKED LAG REST
impl fmt::Display for Standing {
    ghost output = { λ s. Some (standing_items s) };

    fn fmt<W: fmt::Write>(&self, f: &mut fmt::Formatter<W>) -> fmt::Result {
        let Standing { asked, lag, rest } = *self;
        write!(f, "{asked} {lag} {rest}")
    }
}

// What every speed unit promises. The questions and the refusals change nothing.
pub trait SpeedUnit {
    // What the calls change.
    ghost meaning: { Self → Meaning };

    // What is fixed for the unit's life.
    ghost nature: { Self → Nature };

    // The most ticks of lag after a raise, and after a rest.
    fn allowances(&self) -> Allowances
        ensures raise { result.raise ≡ (nature self.now).raise }
        ensures wake { result.wake ≡ (nature self.now).wake }
        ensures few { (result.raise ≤ 255) × (result.wake ≤ 255) };

    // Whether a level is one of the unit's.
    fn takes(&self, level: u32) -> bool
        ensures { result ≡ (nature self.now).takes level };

    // Asks for a level. A raise may take a lag.
    fn ask(&mut self, level: u32) -> Result<(), Fault>
        ensures does { Asked (nature self.old) level (meaning self.old) result (meaning self.new) }
        ensures fixed { nature self.new ≡ nature self.old }
        ensures kept { OnErr result (self.new ≡ self.old) };

    // Sleeps for some ticks.
    fn rest(&mut self, ticks: u32) -> Result<(), Fault>
        ensures does { Rested ticks (meaning self.old) result (meaning self.new) }
        ensures fixed { nature self.new ≡ nature self.old }
        ensures kept { OnErr result (self.new ≡ self.old) };

    // Lets a tick pass. The one that ends a rest may begin a lag.
    fn tick(&mut self)
        ensures does { Ticked (nature self.old) (meaning self.old) (meaning self.new) }
        ensures fixed { nature self.new ≡ nature self.old };

    // Turns off.
    fn off(&mut self)
        ensures does { meaning self.new ≡ nothing }
        ensures fixed { nature self.new ≡ nature self.old };

    // The numbers that the calls change.
    fn standing(&self) -> Standing
        ensures asked { result.asked ≡ (meaning self.now).asked }
        ensures lag { result.lag ≡ (meaning self.now).lag }
        ensures rest { result.rest ≡ (meaning self.now).rest };

    // Each allowance is at most 255.
    ghost few: { (u : Self) → ((nature u).raise ≤ 255) × ((nature u).wake ≤ 255) };

    // A level that is taken is from 1 to 1,000.
    ghost levels: { (u : Self) (level : ℕ) → (nature u).takes level ≡ true → (1 ≤ level) × (level ≤ 1000) };
}

// A theorem: what the calls of any unit do is what their functions say.
pub fn calls_are_functions()
    ensures { CallsAreFunctions }
{}
