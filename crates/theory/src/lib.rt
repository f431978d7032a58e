// Fixed-priority schedulability at one level. Each function's contract is a theorem, so that the check asks for its proof.
#![tactic(auto)]

ghost use Rattle.theory.specs.Theorems.{PointsSuffice, NeverLate, NeverOverwritten, MustBeLate, TestIsExact};

// A row passes at one of its points just when its demand fits at any time up to its deadline.
pub fn points_suffice()
    ensures { PointsSuffice }
{}

// Where the demand of every row fits in time, no job is ever late: from any first releases, with any jobs that end early.
pub fn never_late()
    ensures { NeverLate }
{}

// No release finds the last job of its row unfinished.
pub fn never_overwritten()
    ensures { NeverOverwritten }
{}

// No more is refused than must be: where the demand of a row does not fit, the plain run has a late job.
pub fn must_be_late()
    ensures { MustBeLate }
{}

// Just the tables pass that are never late from any start, and just those are refused whose plain run is late.
pub fn refuses_exactly()
    ensures { TestIsExact }
{}
