// The first three lines of a sheet.
ghost use Rattle.std.specs.Prelude.{◌≡◌, ◌+◌, ◌^◌, ◌<◌, ◌≤◌, true, IfOk, Ok, Err, MatchResult, OnOk};
ghost use Rattle.tasks.specs.Ranges.{one_to};
ghost use Rattle.sheet.specs.Lines.{count_line};
ghost use Rattle.sheet.specs.Sheets.{counts, count_at, each_or_none, item_at};

use crate::forms::count_line;
use crate::lines::Lines;
use fault::{Fault, Refusal};

// How many levels, tasks and first releases follow.
#[derive(Clone, Copy)]
pub(crate) struct Counts {
    pub(crate) levels: u32,
    pub(crate) tasks: u32,
    pub(crate) starts: u32,
}

// The count of the line that is due.
fn read_count(lines: &mut Lines, word: &[u8]) -> Result<u32, Fault>
    requires few { lines.old.line + 1 < 2 ^ 32 }
    ensures value { MatchResult result (λ n. item_at (count_line word.now) (lines.old.line + 1) 0 lines.old.text.now ≡ Ok (n, lines.new.text.now)) (λ f. item_at (count_line word.now) (lines.old.line + 1) 0 lines.old.text.now ≡ Err f) }
    ensures line { lines.new.line ≡ lines.old.line + 1 }
{
    let due = lines.due(0)?;
    count_line(due, word).ok_or(Fault::new(Refusal::BadLine, lines.line, 0))
}

// The count of the line that is due, from 1 to `most`.
fn count_to(lines: &mut Lines, word: &[u8], most: u32) -> Result<u32, Fault>
    requires few { lines.old.line + 1 < 2 ^ 32 }
    ensures value { MatchResult result (λ n. count_at (lines.old.line + 1) word.now (one_to most) lines.old.text.now ≡ Ok (n, lines.new.text.now)) (λ f. count_at (lines.old.line + 1) word.now (one_to most) lines.old.text.now ≡ Err f) }
    ensures range { IfOk result (λ n. n ≤ most) }
    ensures line { lines.new.line ≡ lines.old.line + 1 }
{
    let count = read_count(lines, word)?;
    if !(1..=most).contains(&count) {
        return Err(Fault::new(Refusal::BadCount, lines.line, 0));
    }
    Ok(count)
}

// Whether there are first releases for each task, or none.
fn each_or_none(tasks: u32, starts: u32) -> bool
    ensures { result ≡ each_or_none tasks starts }
{
    starts == 0 || starts == tasks
}

// The counts.
pub(crate) fn read_counts(lines: &mut Lines) -> Result<Counts, Fault>
    requires first { lines.old.line ≡ 0 }
    ensures value { MatchResult result (λ n. counts lines.old.text.now ≡ Ok (n, lines.new.text.now)) (λ f. counts lines.old.text.now ≡ Err f) }
    ensures matching { IfOk result (λ n. each_or_none n.tasks n.starts ≡ true) }
    ensures few { IfOk result (λ n. (n.levels ≤ 64) × (n.tasks ≤ 32) × (n.starts ≤ 32)) }
    ensures line { OnOk result (lines.new.line ≡ 3) }
{
    let levels = count_to(lines, b"levels", 64)?;
    let tasks = count_to(lines, b"tasks", 32)?;
    let starts = read_count(lines, b"starts")?;
    if !each_or_none(tasks, starts) {
        return Err(Fault::new(Refusal::BadCount, lines.line, 0));
    }
    Ok(Counts {
        levels,
        tasks,
        starts,
    })
}
