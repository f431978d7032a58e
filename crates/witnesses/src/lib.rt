// Computed witnesses that the promises are not empty: each function's contract is one, so that the check asks for its proof.
#![tactic(auto)]

ghost use Rattle.witnesses.specs.Begins.{BeginsRefused};
ghost use Rattle.witnesses.specs.Lateness.{LatenessHolds};
ghost use Rattle.witnesses.specs.Lower.{LowerLevelLate};
ghost use Rattle.witnesses.specs.Refusing.{TableRefused};
ghost use Rattle.witnesses.specs.Slowing.{SlowsAndRests};
ghost use Rattle.witnesses.specs.Waiting.{TwoUnfinished};
ghost use Rattle.witnesses.specs.Waking.{LagsAndWakes};
ghost use Rattle.witnesses.specs.Words.{WordsRefused};

// A run of an admitted plan is slowed at one moment and rests at another, and both are reached from an accepted begin.
pub fn a_run_slows_and_rests()
    ensures { SlowsAndRests }
{}

// A run on a ramp lags at begin, when it is raised again and when it wakes, and works in time for the next release.
pub fn a_ramp_lags_and_wakes()
    ensures { LagsAndWakes }
{}

// Two jobs are unfinished at a moment that is reached.
pub fn two_jobs_wait()
    ensures { TwoUnfinished }
{}

// A table is refused, and the plain run has a late job at each of its levels.
pub fn a_table_is_refused()
    ensures { TableRefused }
{}

// A table is admitted, and at a lower listed level the plain run has a late job.
pub fn a_lower_level_is_late()
    ensures { LowerLevelLate }
{}

// A job is late on a unit outside its allowance, and in a plan that is not admitted.
pub fn lateness_can_hold()
    ensures { LatenessHolds }
{}

// A begin is refused by each of its refusals.
pub fn a_begin_is_refused()
    ensures { BeginsRefused }
{}

// A word is refused by each of its refusals.
pub fn a_word_is_refused()
    ensures { WordsRefused }
{}
