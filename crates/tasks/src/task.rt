// A periodic task, in its ranges.
ghost use Rattle.std.specs.Prelude.{◌≤◌};

// A job of at most `work` units every `period` ticks, due `deadline` ticks after its release.
#[derive(Clone, Copy)]
pub struct Task {
    pub period: u32,
    pub deadline: u32,
    pub work: u32,
    ghost some_time: { 1 ≤ deadline },
    ghost in_period: { deadline ≤ period },
    ghost short: { period ≤ 65535 },
    ghost some_work: { 1 ≤ work },
    ghost light: { work ≤ 16000000 },
}
