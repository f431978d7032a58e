// The three bodies of a sheet, an item a line.
ghost use Rattle.std.specs.Prelude.{◌≡◌, ℕ, ◌+◌, ◌^◌, ◌<◌, ◌≤◌, List, [], length, vec_capacity, Option, Some, None, MatchOption, OnOk};
ghost use Rattle.fault.specs.declared.Fault.{Fault};
ghost use Rattle.theory.specs.Tasks.{Task};
ghost use Rattle.tasks.specs.Levels.{level_fault};
ghost use Rattle.tasks.specs.Tables.{numbers, levels_of, tasks_of, task_fault, Adds};
ghost use Rattle.sheet.specs.Lines.{task_line as task_form};
ghost use Rattle.sheet.specs.Reads.{Reads};
ghost use Rattle.sheet.specs.Sheets.{body, start_fault};
ghost use Rattle.sheet.specs.Text.{number as number_of};

use crate::forms::{TaskNumbers, task_line};
use crate::lines::Lines;
use crate::text::number;
use fault::{Fault, Refusal};
use tasks::table::OpenTable;

// A body: the form of a line with an item, what takes the items, and which of them may follow those before it.
pub(crate) trait Body {
    // What a line says.
    type Item;

    // What takes the items.
    type Held;

    // An item as the definitions have it.
    ghost Meant: { Type 0 };

    ghost meant: { Self.Item → Meant };

    // The form of a line.
    ghost form: { List ℕ → Option Meant };

    // Why an item at a line of the sheet may not follow others.
    ghost check: { ℕ → List Meant → Meant → Option Fault };

    // The items that are there.
    ghost items: { Self.Held → List Meant };

    // How many of them there is room for.
    ghost most: { Self.Held → ℕ };

    // What else is there.
    ghost Else: { Type 0 };

    ghost others: { Self.Held → Else };

    // The item of a line.
    fn read(line: &[u8]) -> Option<Self::Item>
        ensures { MatchOption result (form line.now ≡ None) (λ x. form line.now ≡ Some (meant x)) };

    // Takes an item at the end of those that are there, in the row after theirs.
    fn take(held: &mut Self::Held, line: u32, row: u32, item: Self::Item) -> Result<(), Fault>
        requires next { row ≡ length (items held.old) + 1 }
        requires room { row ≤ most held.old }
        ensures items { Adds (check line (items held.old) (meant item)) (items held.old) (meant item) (items held.new) result }
        ensures most { most held.new ≡ most held.old }
        ensures others { others held.new ≡ others held.old };
}

// The levels of a table.
pub(crate) struct Levels;

impl Body for Levels {
    type Item = u32;

    type Held = OpenTable;

    ghost Meant = { ℕ };

    ghost meant = { λ n. n };

    ghost form = { number_of };

    ghost check = { level_fault };

    ghost items = { levels_of };

    ghost most = { λ _. 64 };

    ghost Else = { List Task };

    ghost others = { tasks_of };

    fn read(line: &[u8]) -> Option<u32> {
        number(line)
    }

    fn take(table: &mut OpenTable, line: u32, _row: u32, level: u32) -> Result<(), Fault> {
        table.add_level(line, level)
    }
}

// The tasks of a table.
pub(crate) struct Tasks;

impl Body for Tasks {
    type Item = TaskNumbers;

    type Held = OpenTable;

    ghost Meant = { Task };

    ghost meant = { λ t. numbers t.period t.deadline t.work };

    ghost form = { task_form };

    ghost check = { task_fault };

    ghost items = { tasks_of };

    ghost most = { λ _. 32 };

    ghost Else = { List ℕ };

    ghost others = { levels_of };

    fn read(line: &[u8]) -> Option<TaskNumbers> {
        task_line(line)
    }

    fn take(table: &mut OpenTable, line: u32, _row: u32, task: TaskNumbers) -> Result<(), Fault> {
        table.add_task(line, task.period, task.deadline, task.work)
    }
}

// The first releases.
pub(crate) struct Starts;

impl Body for Starts {
    type Item = u32;

    type Held = Vec<u32>;

    ghost Meant = { ℕ };

    ghost meant = { λ n. n };

    ghost form = { number_of };

    ghost check = { start_fault };

    ghost items = { λ starts. starts.items };

    ghost most = { λ starts. vec_capacity starts };

    ghost Else = { Unit {0} };

    ghost others = { λ _. tt };

    fn read(line: &[u8]) -> Option<u32> {
        number(line)
    }

    fn take(starts: &mut Vec<u32>, line: u32, row: u32, start: u32) -> Result<(), Fault> {
        if start > 65_535 {
            return Err(Fault::new(Refusal::LateStart, line, row));
        }
        starts.push_reserved(start);
        Ok(())
    }
}

// Reads a body into what has none of its items yet.
pub(crate) fn read_body<B: Body>(
    held: &mut B::Held,
    count: u32,
    lines: &mut Lines,
) -> Result<(), Fault>
    requires few { lines.old.line + count + 1 < 2 ^ 32 }
    requires empty { length (B.items held.old) ≡ 0 }
    requires room { count ≤ B.most held.old }
    ensures items { Reads (body B.form B.check lines.old.line count [] lines.old.text.now) (B.items held.new) lines.new.text.now result }
    ensures all { OnOk result (length (B.items held.new) ≡ count) }
    ensures line { OnOk result (lines.new.line ≡ lines.old.line + count) }
    ensures others { B.others held.new ≡ B.others held.old }
{
    for row in 1..=count {
        let due = lines.due(row)?;
        let item = B::read(due).ok_or(Fault::new(Refusal::BadLine, lines.line, row))?;
        B::take(held, lines.line, row, item)?;
    }
    Ok(())
}
