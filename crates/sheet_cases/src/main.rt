// A table of sheets and what is answered to them: each argument names a file, and its answer is printed under its name.
#![tactic(auto)]

ghost use Rattle.sheet_cases.specs.Cases.{WorkedCases};
ghost use Rattle.sheet_cases.specs.Run.{EndedAtOnce};

use sheet::answer;
use std::{env, fs};

// The worked cases, computed from the definitions.
fn worked()
    ensures { WorkedCases }
{}

// A worked run, computed from the definitions.
fn worked_run()
    ensures { EndedAtOnce }
{}

// Prints the name of a file and its answer.
fn show(rt: &HostRuntime, name: &str) -> anyhow::Result<()> {
    let bytes = fs::read(rt, name)?;
    let text = answer(rt.alloc(), &bytes)?;
    println!(rt; "# {name}")?;
    rt.print(text)?;
    Ok(())
}

fn run(rt: &HostRuntime) -> anyhow::Result<()> {
    for name in env::args(rt)?.skip(1) {
        show(rt, name.as_str())?;
    }
    Ok(())
}

fn main(rt: HostRuntime) -> anyhow::Result<()> {
    worked();
    worked_run();
    run(&rt)
}
