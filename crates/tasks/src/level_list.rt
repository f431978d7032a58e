// A list of speed levels, in their ranges.
ghost use Rattle.std.specs.Prelude.{◌≡◌, ◌≤◌, true, vec_len, vec_capacity};
ghost use Rattle.tasks.specs.Levels.{ascending};

// At most 64 levels, each from 1 to 1,000 and above the one before. The room for all of them is there from the start.
#[derive(Drop)]
pub struct LevelList {
    pub(crate) levels: Vec<u32>,
    ghost rising: { ascending 0 levels.items ≡ true },
    ghost few: { vec_len levels ≤ 64 },
    ghost room: { 64 ≤ vec_capacity levels },
}
