// The run of a plan on a speed unit, as definitions, with what is proved of every run. The types that the definitions share with the code stand
// here too.
#![tactic(auto)]

ghost use Rattle.machine.specs.Promises.{EveryRunIsLawful, MadeWhereTaken};

pub mod job;
pub mod word;

// A theorem: from every accepted begin of an admitted plan, by any words and with any lags within the allowances, no job is ever late; while two
// jobs are unfinished the unit works at the admitted level; while it rests or lags none is unfinished; and the count is that of the words taken.
pub fn every_run_is_lawful()
    ensures { EveryRunIsLawful }
{}

// A theorem: the run makes an ask or a rest where the unit would not refuse it, and nowhere else.
pub fn made_where_taken()
    ensures { MadeWhereTaken }
{}
