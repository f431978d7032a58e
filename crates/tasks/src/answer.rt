// What is answered for a row at a level.

// The smallest point of the row at which the demand fits, and the demand there.
#[derive(Clone, Copy, Default)]
pub struct Answer {
    pub point: u32,
    pub demand: u64,
}
