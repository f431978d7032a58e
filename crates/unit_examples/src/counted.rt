// Any unit, with a count of the ticks that it has had.
#[derive(Drop)]
pub struct Counted<U> {
    pub under: U,
    pub ticks: u32,
}
