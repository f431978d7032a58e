// A table that takes levels and tasks.
ghost use Rattle.std.specs.Prelude.{◌≤◌, vec_len, vec_capacity};

use crate::level_list::LevelList;
use crate::task::Task;

// Levels in rising order and at most 32 tasks, row 1 first: it has the highest priority. The room for all of them is
// there from the start.
#[derive(Drop)]
pub struct OpenTable {
    pub(crate) levels: LevelList,
    pub(crate) tasks: Vec<Task>,
    ghost few: { vec_len tasks ≤ 32 },
    ghost room: { 32 ≤ vec_capacity tasks },
}
