// What the search for a level finds.
ghost use Rattle.std.specs.Prelude.{◌≤◌};

use crate::answer::Answer;
use arrayvec::ArrayVec;

// A level at which every row passes, and the answers of the rows there, that of row 1 first.
#[derive(Drop)]
pub(crate) struct Passing {
    pub level: u32,
    pub answers: ArrayVec<Answer, 32>,
    ghost some: { 1 ≤ level },
}

// The number, from 1, of the first row that fails at the highest level.
#[derive(Drop)]
pub(crate) struct FailingRow(pub u32);
