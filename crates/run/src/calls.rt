// The words that are said to a run, and its end.
ghost use Rattle.std.specs.Prelude.{◌≡◌, OnErr};
ghost use Rattle.units.specs.Meaning.{off as nothing};
ghost use Rattle.machine.specs.declared.word.Reply.TheVariants.{Stands};
ghost use Rattle.machine.specs.declared.word.Word.TheVariants.{GoOn, Ended, Standing as AskStanding};
ghost use Rattle.machine.specs.Reached.{Said};
ghost use Rattle.machine.specs.Replies.{reply_of};
ghost use Rattle.run.specs.Promises.{GoesOn};
ghost use Rattle.run.specs.Steps.{tick_word};
ghost use Rattle.run.specs.Views.{plan_in, moment};

use crate::run::{Run, Slip};
use fault::Fault;
use machine::word::{Report, RunStanding};
use units::unit::SpeedUnit;

impl Run {
    // What go-on and ended share: a tick, in which ended was said or not.
    fn tick<U: SpeedUnit>(&mut self, said: bool, unit: &mut U) -> Result<Report, Fault>
        ensures does { Said (U.nature unit.old) (plan_in self.old) (tick_word said) (moment self.old (U.meaning unit.old)) (reply_of result) (moment self.new (U.meaning unit.new)) }
        ensures promise { GoesOn (U.nature unit.old) (plan_in self.old) (tick_word said) (moment self.old (U.meaning unit.old)) (reply_of result) (moment self.new (U.meaning unit.new)) }
        ensures plan { self.new.plan ≡ self.old.plan }
        ensures fixed { U.nature unit.new ≡ U.nature unit.old }
        ensures kept { OnErr result ((self.new ≡ self.old) × (unit.new ≡ unit.old)) }
    {
        self.state.tick(&self.plan, said, unit)
    }

    // The active job goes on through this tick.
    pub fn go_on<U: SpeedUnit>(&mut self, unit: &mut U) -> Result<Report, Fault>
        ensures does { Said (U.nature unit.old) (plan_in self.old) GoOn (moment self.old (U.meaning unit.old)) (reply_of result) (moment self.new (U.meaning unit.new)) }
        ensures promise { GoesOn (U.nature unit.old) (plan_in self.old) GoOn (moment self.old (U.meaning unit.old)) (reply_of result) (moment self.new (U.meaning unit.new)) }
        ensures plan { self.new.plan ≡ self.old.plan }
        ensures fixed { U.nature unit.new ≡ U.nature unit.old }
        ensures kept { OnErr result ((self.new ≡ self.old) × (unit.new ≡ unit.old)) }
    {
        self.tick(false, unit)
    }

    // The active job ended in this tick.
    pub fn ended<U: SpeedUnit>(&mut self, unit: &mut U) -> Result<Report, Fault>
        ensures does { Said (U.nature unit.old) (plan_in self.old) Ended (moment self.old (U.meaning unit.old)) (reply_of result) (moment self.new (U.meaning unit.new)) }
        ensures promise { GoesOn (U.nature unit.old) (plan_in self.old) Ended (moment self.old (U.meaning unit.old)) (reply_of result) (moment self.new (U.meaning unit.new)) }
        ensures plan { self.new.plan ≡ self.old.plan }
        ensures fixed { U.nature unit.new ≡ U.nature unit.old }
        ensures kept { OnErr result ((self.new ≡ self.old) × (unit.new ≡ unit.old)) }
    {
        self.tick(true, unit)
    }

    // Where the run and its unit stand. Nothing changes.
    pub fn standing<U: SpeedUnit>(&self, unit: &U) -> RunStanding
        ensures does { Said (U.nature unit.now) (plan_in self.now) AskStanding (moment self.now (U.meaning unit.now)) (Stands result) (moment self.now (U.meaning unit.now)) }
        ensures promise { GoesOn (U.nature unit.now) (plan_in self.now) AskStanding (moment self.now (U.meaning unit.now)) (Stands result) (moment self.now (U.meaning unit.now)) }
    {
        self.state.shown(unit)
    }

    // Ends the run and turns the unit off.
    pub fn stand_down<U: SpeedUnit>(self, slip: Slip, unit: &mut U)
        ensures off { U.meaning unit.new ≡ nothing }
        ensures fixed { U.nature unit.new ≡ U.nature unit.old }
    {
        let Slip { seal: () } = slip;
        unit.off();
    }
}
