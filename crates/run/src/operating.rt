// A whole run, from a table to its record.
ghost use Rattle.std.specs.Prelude.{◌≡◌, ℕ, ◌+◌, ◌≤◌, List, ◌++◌, map, reverse, length, vec_len, vec_capacity, OnErr, OnOk};
ghost use Rattle.fault.specs.declared.Refusal.TheVariants.{BadCount, NoLevelPasses};
ghost use Rattle.tasks.specs.Admission.{SomeEmpty, EveryLevelLate};
ghost use Rattle.tasks.specs.Tables.{levels_of, tasks_of};
ghost use Rattle.units.specs.Meaning.{Meaning, off as nothing};
ghost use Rattle.machine.specs.Reached.{Said, Reached};
ghost use Rattle.run.specs.Promises.{GoesOn};
ghost use Rattle.run.specs.Views.{plan_in, moment};
ghost use Rattle.run.specs.Whole.{Operates, RefusedExactly};

use crate::record::{Halt, Record};
use crate::run::Run;
use machine::word::{Event, Reply, Word};
use std::alloc::Global;
use tasks::table::OpenTable;
use units::unit::SpeedUnit;

impl Run {
    // Says a word. A refused word is replied to as well, and the run can go on.
    pub fn say<U: SpeedUnit>(&mut self, word: Word, unit: &mut U) -> Reply
        ensures does { Said (U.nature unit.old) (plan_in self.old) word (moment self.old (U.meaning unit.old)) result (moment self.new (U.meaning unit.new)) }
        ensures promise { GoesOn (U.nature unit.old) (plan_in self.old) word (moment self.old (U.meaning unit.old)) result (moment self.new (U.meaning unit.new)) }
        ensures plan { self.new.plan ≡ self.old.plan }
        ensures fixed { U.nature unit.new ≡ U.nature unit.old }
    {
        match word {
            Word::GoOn => self.go_on(unit).into(),
            Word::Ended => self.ended(unit).into(),
            Word::Standing => Reply::Stands(self.standing(unit)),
        }
    }
}

// Says words one after the other, and adds each with its reply to the events.
fn say_all<U: SpeedUnit>(run: &mut Run, words: &[Word], unit: &mut U, events: &mut Vec<Event>)
    requires room { vec_len events.old + length words.now ≤ vec_capacity events.old }
    ensures said { map (λ e. e.word) events.new.items ≡ map (λ e. e.word) events.old.items ++ words.now }
    ensures promise { (starts : List ℕ) (u : Meaning) → Reached (U.nature unit.old) (plan_in run.old) starts u (reverse events.old.items) (moment run.old (U.meaning unit.old)) → Reached (U.nature unit.old) (plan_in run.old) starts u (reverse events.new.items) (moment run.new (U.meaning unit.new)) }
    ensures fixed { U.nature unit.new ≡ U.nature unit.old }
{
    for &word in words {
        let reply = run.say(word, unit);
        events.push_reserved(Event { word, reply });
    }
}

// Admits a table, begins a run of it on a unit, says the words one after the other, and stands down. A refused word is replied to, and the run goes
// on. What does not begin is given back as it was, and the unit is then asked nothing.
pub fn operate<U: SpeedUnit>(
    heap: Global,
    table: OpenTable,
    starts: &[u32],
    unit: &mut U,
    words: &[Word],
) -> Result<Record, Halt>
    ensures does { Operates (U.nature unit.old) table starts.now (U.meaning unit.old) words.now result }
    ensures empty { RefusedExactly BadCount (SomeEmpty (levels_of table) (tasks_of table)) result }
    ensures none { RefusedExactly NoLevelPasses (EveryLevelLate (levels_of table) (tasks_of table)) result }
    ensures off { OnOk result (U.meaning unit.new ≡ nothing) }
    ensures kept { OnErr result (unit.new ≡ unit.old) }
    ensures fixed { U.nature unit.new ≡ U.nature unit.old }
{
    let Ok(mut events) = Vec::with_capacity(heap, words.len()) else {
        return Err(Halt::NoMemory(table));
    };
    let plan = table.admit()?;
    let level = plan.level();
    let (mut run, slip) = Run::begin(plan, starts, unit)?;
    say_all(&mut run, words, unit, &mut events);
    run.stand_down(slip, unit);
    Ok(Record {
        level,
        events,
        end: unit.standing(),
    })
}
