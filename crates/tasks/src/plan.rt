// A plan that takes no rows, and whose level is the lowest that passes.
ghost use Rattle.std.specs.Prelude.{◌≡◌, ◌≤◌, map, vec_len};
ghost use Rattle.theory.specs.Test.{lowest};
ghost use Rattle.tasks.specs.Tables.{task_of, point_demand, listed, found_level, found_answers};

use crate::answer::Answer;
use crate::level_list::LevelList;
use crate::task::Task;
use arrayvec::ArrayVec;

// The levels and tasks of a table, the first listed level at which every row passes, and the answers of the rows there.
#[derive(Drop)]
pub struct AdmittedPlan {
    pub(crate) levels: LevelList,
    pub(crate) tasks: Vec<Task>,
    pub(crate) level: u32,
    pub(crate) answers: ArrayVec<Answer, 32>,
    ghost few: { vec_len tasks ≤ 32 },
    ghost some: { 1 ≤ level },
    ghost lowest_passing: { found_level (lowest (listed levels) (map task_of tasks.items)) ≡ level },
    ghost answered: { found_answers (lowest (listed levels) (map task_of tasks.items)) ≡ map point_demand answers.items },
}
