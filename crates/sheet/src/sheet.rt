// Sheets, before and after they are read.
ghost use Rattle.std.specs.Prelude.{◌≡◌, ◌≤◌, true, length, vec_len, vec_capacity};
ghost use Rattle.tasks.specs.Tables.{levels_of, tasks_of};
ghost use Rattle.sheet.specs.Sheets.{each_or_none};

use tasks::table::OpenTable;

// The memory that a sheet is read into. The room for all that a sheet can say is there from the start.
#[derive(Drop)]
pub struct BlankSheet {
    pub(crate) table: OpenTable,
    pub(crate) starts: Vec<u32>,
    ghost no_levels: { length (levels_of table) ≡ 0 },
    ghost no_tasks: { length (tasks_of table) ≡ 0 },
    ghost no_starts: { vec_len starts ≡ 0 },
    ghost room: { 32 ≤ vec_capacity starts },
}

// What a sheet says: the table, and a first release for each task or for none.
#[derive(Drop)]
pub struct Sheet {
    pub table: OpenTable,
    pub starts: Vec<u32>,
    ghost few: { vec_len starts ≤ 32 },
    ghost matching: { each_or_none (length (tasks_of table)) (vec_len starts) ≡ true },
}
