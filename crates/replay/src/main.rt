// Runs the table of a sheet on a speed unit, by the words on standard input, and prints what is replied to each word; or one line that says what is
// refused and where.
#![tactic(auto)]

mod order;
mod stop;

use crate::order::{UnitOrder, read_order};
use crate::stop::Stop;
use anyhow::{anyhow, ensure};
use fault::Fault;
use machine::word::Word;
use run::{Record, operate};
use script::{add_level, add_reply, add_standing, read_words};
use sheet::{BlankSheet, MOST_READ, Sheet};
use std::alloc::Global;
use std::fs::File;
use std::io;
use std::io::Read;
use tasks::level_list::LevelList;
use units::divider::Divider;
use units::ramp::Ramp;
use units::unit::SpeedUnit;

// The most bytes that words are read from.
const WORD_BYTES: usize = 16_777_216;

// How many bytes are kept before they are written.
const KEPT: usize = 8192;

// The error of an input that is not read.
fn not_read(what: &str, why: io::Error) -> anyhow::Error {
    anyhow!("{what} is not read: {why}")
}

// The bytes of an input, or as many as are asked for.
fn first_bytes<R: Read + Drop>(
    heap: Global,
    what: &str,
    input: R,
    most: u64,
) -> anyhow::Result<Vec<u8>> {
    let mut bytes = Vec::new(heap);
    input
        .take(most)
        .read_to_end(&mut bytes)
        .map_err(|why| not_read(what, why))?;
    Ok(bytes)
}

// The bytes of a file, or so many that they are no sheet.
fn sheet_bytes(rt: &HostRuntime, name: &str) -> anyhow::Result<Vec<u8>> {
    let file = File::open(rt, name).map_err(|why| not_read(name, why))?;
    first_bytes(rt.alloc(), name, file, MOST_READ)
}

// The words on standard input.
fn input_words(rt: &HostRuntime) -> anyhow::Result<Vec<Word>> {
    let heap = rt.alloc();
    let bytes = first_bytes(heap, "standard input", rt.stdin(), WORD_BYTES as u64 + 1)?;
    ensure!(
        bytes.len() <= WORD_BYTES,
        "standard input: more than {WORD_BYTES} bytes"
    );
    Ok(read_words(heap, &bytes)?)
}

// Prints the level, the reply to each word, and where the unit stood at last.
fn print_record(rt: &HostRuntime, record: &Record) -> anyhow::Result<()> {
    let heap = rt.alloc();
    let mut text = String::new(heap);
    add_level(&mut text, record.level)?;
    for event in &record.events {
        add_reply(heap, &mut text, event.reply)?;
        if text.len() >= KEPT {
            rt.print(text.as_str())?;
            text.clear();
        }
    }
    add_standing(&mut text, record.end)?;
    rt.print(text.as_str())?;
    Ok(())
}

// Runs the table of a sheet on a unit.
fn play<U: SpeedUnit + Drop>(
    heap: Global,
    sheet: Sheet,
    mut unit: U,
    words: &[Word],
) -> Result<Record, Stop> {
    Ok(operate(heap, sheet.table, &sheet.starts, &mut unit, words)?)
}

// The ramp of some levels.
fn ramp_of(mut list: LevelList, levels: &[u32]) -> Result<Ramp, Fault> {
    for &level in levels {
        list.add(0, level)?;
    }
    Ok(Ramp::new(list)?)
}

// Runs the table of a sheet on the unit that is ordered.
fn play_on(heap: Global, bytes: &[u8], order: UnitOrder, words: &[Word]) -> Result<Record, Stop> {
    let sheet = BlankSheet::new(heap)?.read(bytes)?;
    match order {
        UnitOrder::Divider { rate, wake } => play(heap, sheet, Divider::new(rate, wake)?, words),
        UnitOrder::Ramp(levels) => {
            let ramp = ramp_of(LevelList::new(heap)?, &levels)?;
            play(heap, sheet, ramp, words)
        }
    }
}

fn run(rt: &HostRuntime) -> anyhow::Result<()> {
    let order = read_order(rt)?;
    let bytes = sheet_bytes(rt, order.sheet.as_str())?;
    let words = input_words(rt)?;
    match play_on(rt.alloc(), &bytes, order.unit, &words) {
        Ok(record) => print_record(rt, &record),
        Err(Stop::Refused(fault)) => Ok(rt.println(fault)?),
        Err(Stop::Failed(why)) => Err(why),
    }
}

fn main(rt: HostRuntime) -> anyhow::Result<()> {
    run(&rt)
}
