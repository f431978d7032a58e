// What a row asks for at a level.
ghost use Rattle.std.specs.Prelude.{◌≤◌};

// `cost` ticks every `period` ticks.
#[derive(Clone, Copy)]
pub(crate) struct Load {
    pub period: u32,
    pub cost: u32,
    ghost some_time: { 1 ≤ period },
    ghost short: { period ≤ 65535 },
    ghost some_cost: { 1 ≤ cost },
    ghost light: { cost ≤ 16000000 },
}

// What stands in a place that is not used: a list of fixed memory fills its places.
impl Default for Load {
    ghost use Rattle.std.specs.Prelude.{◌≡◌};
    ghost use Rattle.tasks.specs.Loads.{no_load};

    ghost is_default = { λ load. load ≡ no_load };

    fn default() -> Load {
        Load { period: 1, cost: 1 }
    }
}
