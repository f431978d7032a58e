// The forms of a line, without its byte 10. One space stands between two items.
ghost use Rattle.std.specs.Prelude.{◌≡◌, Some, None, MatchOption};
ghost use Rattle.tasks.specs.Tables.{numbers};
ghost use Rattle.sheet.specs.Lines.{count_line, task_line};

use crate::text::{cut, number};

// WORD COUNT
pub(crate) fn count_line(line: &[u8], word: &[u8]) -> Option<u32>
    ensures { result ≡ count_line word.now line.now }
{
    let (head, count) = cut(line, b' ')?;
    if head != word {
        return None;
    }
    number(count)
}

// The numbers of a task.
#[derive(Clone, Copy)]
pub(crate) struct TaskNumbers {
    pub(crate) period: u32,
    pub(crate) deadline: u32,
    pub(crate) work: u32,
}

// PERIOD DEADLINE WORK
pub(crate) fn task_line(line: &[u8]) -> Option<TaskNumbers>
    ensures { MatchOption result (task_line line.now ≡ None) (λ t. task_line line.now ≡ Some (numbers t.period t.deadline t.work)) }
{
    let (period, rest) = cut(line, b' ')?;
    let (deadline, work) = cut(rest, b' ')?;
    Some(TaskNumbers {
        period: number(period)?,
        deadline: number(deadline)?,
        work: number(work)?,
    })
}
