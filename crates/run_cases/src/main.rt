// Worked runs of a plan with three rows, on a divider and on a ramp, and one whose first releases are too early. Where the run stands is printed at
// the moments of interest.
#![tactic(auto)]

use anyhow::anyhow;
use fault::Fault;
use machine::word::{Event, Word};
use run::{Halt, Record, operate};
use script::{add_level, add_reply, add_standing};
use std::alloc::{AllocError, Global};
use std::iter;
use tasks::level_list::LevelList;
use tasks::table::OpenTable;
use units::divider::Divider;
use units::ramp::Ramp;
use units::unit::SpeedUnit;

// The levels, of which 50 is admitted.
const LEVELS: [u32; 3] = [25, 50, 100];

// The table with the levels.
fn three_rows(mut table: OpenTable) -> Result<OpenTable, Fault> {
    for level in LEVELS {
        table.add_level(0, level)?;
    }
    table.add_task(0, 50, 50, 500)?;
    table.add_task(0, 80, 80, 1000)?;
    table.add_task(0, 100, 100, 2000)?;
    Ok(table)
}

// A ramp of the same levels.
fn three_levels(mut list: LevelList) -> Result<Ramp, Fault> {
    for level in LEVELS {
        list.add(0, level)?;
    }
    Ok(Ramp::new(list)?)
}

// The words that are said, each some times, and after each the question where the run stands.
fn words_of(heap: Global, said: &[(Word, usize)]) -> Result<Vec<Word>, AllocError> {
    let mut words = Vec::new(heap);
    for &(word, times) in said {
        words.extend(iter::repeat_n(word, times))?;
        words.push(Word::Standing)?;
    }
    Ok(words)
}

// The text of a record: the level, where the run stood whenever that was asked, and the unit at the end.
fn record_text(heap: Global, record: &Record) -> Result<String, AllocError> {
    let mut text = String::new(heap);
    add_level(&mut text, record.level)?;
    for event in &record.events {
        if let Event {
            word: Word::Standing,
            reply,
        } = event
        {
            add_reply(heap, &mut text, *reply)?;
        }
    }
    add_standing(&mut text, record.end)?;
    Ok(text)
}

// Runs the table on a unit, and prints its record, or the refusal.
fn show<U: SpeedUnit>(
    rt: &HostRuntime,
    name: &str,
    starts: &[u32],
    unit: &mut U,
    words: &[Word],
) -> anyhow::Result<()> {
    let heap = rt.alloc();
    println!(rt; "# {name}")?;
    let table = three_rows(OpenTable::new(heap)?)?;
    match operate(heap, table, starts, unit, words) {
        Ok(record) => rt.print(record_text(heap, &record)?)?,
        Err(Halt::NotAdmitted(back)) => rt.println(back.fault)?,
        Err(Halt::NotBegun(back)) => rt.println(back.fault)?,
        Err(Halt::NoMemory(_)) => return Err(anyhow!("no memory for the run")),
    }
    Ok(())
}

// On a divider that wakes at once: row 2 runs slowed at 160, and at 180 nothing is left until the next release.
fn on_divider(rt: &HostRuntime) -> anyhow::Result<()> {
    let mut unit = Divider::new(100, 0)?;
    let said = [(Word::GoOn, 160), (Word::GoOn, 19), (Word::Ended, 1)];
    let words = words_of(rt.alloc(), &said)?;
    show(rt, "divider", &[0, 0, 0], &mut unit, &words)
}

// On a ramp, which may take three ticks to rise: it is slowed at 166, later than at 163, where the job that is slowed begins.
fn on_ramp(rt: &HostRuntime, name: &str, starts: &[u32]) -> anyhow::Result<()> {
    let mut unit = three_levels(LevelList::new(rt.alloc())?)?;
    let said = [
        (Word::GoOn, 0),
        (Word::GoOn, 163),
        (Word::GoOn, 2),
        (Word::GoOn, 1),
    ];
    let words = words_of(rt.alloc(), &said)?;
    show(rt, name, starts, &mut unit, &words)
}

fn run(rt: &HostRuntime) -> anyhow::Result<()> {
    on_divider(rt)?;
    on_ramp(rt, "ramp", &[3, 3, 3])?;
    on_ramp(rt, "ramp, row 1 too early", &[2, 3, 3])
}

fn main(rt: HostRuntime) -> anyhow::Result<()> {
    run(&rt)
}
