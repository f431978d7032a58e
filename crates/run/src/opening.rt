// Begin: the checks, and the state that a run begins in.
ghost use Rattle.std.specs.Prelude.{◌≡◌, ℕ, Bool, ◌≤◌, not, ◌&&◌, [], length, replicate, Some, None, MatchResult, OnOk, nat_le};
ghost use Rattle.machine.specs.Begin.{count_fault, ready_fault, begin_fault, firsts, put_all};
ghost use Rattle.machine.specs.Inner.{no_job};
ghost use Rattle.run.specs.Checks.{RefusesFirst};
ghost use Rattle.run.specs.Views.{plan_of, line_of, inner_of};

use crate::inner::Inner;
use crate::line::Line;
use crate::speed::ready;
use fault::{Fault, Refusal};
use machine::job::Job;
use queue::Entry;
use tasks::plan::AdmittedPlan;
use units::unit::SpeedUnit;

// How many rows a plan has.
fn row_count(plan: &AdmittedPlan) -> usize
    ensures is { result ≡ length (plan_of plan.now).tasks }
    ensures few { result ≤ 32 }
{
    plan.tasks().len()
}

// Refuses first releases that are neither for each row nor for none.
fn check_count(plan: &AdmittedPlan, starts: &[u32]) -> Result<(), Fault>
    ensures does { MatchResult result (λ _. count_fault (length (plan_of plan.now).tasks) (length starts.now) ≡ None) (λ e. count_fault (length (plan_of plan.now).tasks) (length starts.now) ≡ Some e) }
    ensures few { OnOk result (length starts.now ≤ 32) }
{
    if starts.is_empty() || starts.len() == row_count(plan) {
        return Ok(());
    }
    Err(Refusal::BadCount.into())
}

// Refuses the first of some numbers that is bad, at its place. What holds of the answer is said for the test p that `bad` computes.
fn check_each<F: Fn(&u32) -> bool>(numbers: &[u32], refusal: Refusal, bad: F) -> Result<(), Fault>
    requires few { length numbers.now ≤ 64 }
    requires callable { F.IsAlwaysCallable bad }
    ensures { (p : ℕ → Bool) → ((x : _) (r : Bool) → F.post bad x r → r ≡ p x.now) → RefusesFirst refusal p numbers.now result }
{
    match numbers.iter().position(|number| bad(number)) {
        Some(at) => Err(Fault::new(refusal, 0, at as u32 + 1)),
        None => Ok(()),
    }
}

// Refuses a unit that rests or lags.
fn check_ready<U: SpeedUnit>(unit: &U) -> Result<(), Fault>
    ensures { MatchResult result (λ _. ready_fault (U.meaning unit.now) ≡ None) (λ e. ready_fault (U.meaning unit.now) ≡ Some e) }
{
    if ready(unit) {
        return Ok(());
    }
    Err(Refusal::UnitNotReady.into())
}

// Whether a level is up to the admitted one, and the unit does not take it.
fn untaken<U: SpeedUnit>(level: u32, admitted: u32, unit: &U) -> bool
    ensures { result ≡ (nat_le level admitted && not ((U.nature unit.now).takes level)) }
{
    level <= admitted && !unit.takes(level)
}

// Why a begin is refused, if it is: for its first releases, or for its unit, which must be ready, take every listed level up to the admitted one and
// be able to raise in time for every first release.
pub(crate) fn check<U: SpeedUnit>(
    plan: &AdmittedPlan,
    starts: &[u32],
    unit: &U,
) -> Result<(), Fault>
    ensures does { MatchResult result (λ _. begin_fault (U.nature unit.now) (plan_of plan.now) starts.now (U.meaning unit.now) ≡ None) (λ e. begin_fault (U.nature unit.now) (plan_of plan.now) starts.now (U.meaning unit.now) ≡ Some e) }
{
    check_count(plan, starts)?;
    check_each(starts, Refusal::LateStart, |start| *start > 65_535)?;
    check_ready(unit)?;
    let admitted = plan.level();
    check_each(
        plan.levels(),
        Refusal::LevelNotTaken,
        |level| untaken(*level, admitted, unit),
    )?;
    let raise = unit.allowances().raise;
    check_each(starts, Refusal::EarlyStart, |start| *start < raise)
}

// The delay queue in which every row waits for its first release.
#[tactic(auto, using(crate::proofs::Firsts::put_next, crate::proofs::Firsts::put_last))]
fn fill(firsts: &[u32]) -> Result<Line, Fault>
    requires few { length firsts.now ≤ 32 }
    ensures { MatchResult result (λ d. line_of d ≡ put_all 0 firsts.now []) (λ _. ⊥) }
{
    let mut delay = Line::empty();
    for (row, first) in firsts.iter().enumerate() {
        delay.put(Entry {
            key: *first,
            row: row as u32,
        })?;
    }
    Ok(delay)
}

// The delay queue at begin. Where no first releases are given, each is the raise allowance.
#[tactic(auto, using(crate::proofs::Firsts::firsts_none, crate::proofs::Firsts::firsts_given))]
fn delay_at_begin(plan: &AdmittedPlan, starts: &[u32], raise: u32) -> Result<Line, Fault>
    requires matching { count_fault (length (plan_of plan.now).tasks) (length starts.now) ≡ None }
    ensures { MatchResult result (λ d. line_of d ≡ put_all 0 (firsts raise (plan_of plan.now).tasks starts.now) []) (λ _. ⊥) }
{
    if starts.is_empty() {
        let same = [raise; 32];
        return fill(&same[..row_count(plan)]);
    }
    fill(starts)
}

// The rows at begin: each waits for its first release.
pub(crate) fn rows_at_begin(plan: &AdmittedPlan, starts: &[u32], raise: u32) -> Result<Inner, Fault>
    requires matching { count_fault (length (plan_of plan.now).tasks) (length starts.now) ≡ None }
    ensures { MatchResult result (λ s. inner_of s ≡ record { delay = put_all 0 (firsts raise (plan_of plan.now).tasks starts.now) []; queue = []; active = None; jobs = replicate 32 no_job }) (λ _. ⊥) }
{
    Ok(Inner {
        delay: delay_at_begin(plan, starts, raise)?,
        ready: Line::empty(),
        active: None,
        jobs: [Job::default(); 32],
    })
}
