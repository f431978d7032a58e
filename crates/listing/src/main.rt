// Reads a sheet from standard input, and prints the listing of its table at the lowest level that keeps every deadline, or
// one line that says what is wrong and where.
#![tactic(auto)]

ghost use Rattle.std.specs.Prelude.{◌≤◌, length, IfOk};

use sheet::{MOST_READ, answer};
use std::io;
use std::io::Read;

// The most bytes that are read, each with a place of its own, so that reading asks for no memory.
const MOST: usize = MOST_READ as usize;

// Fills the buffer from standard input, as far as there is input, and says how much of it is filled.
fn fill(rt: &HostRuntime, bytes: &mut [u8]) -> io::Result<usize>
    ensures { IfOk result (λ n. n ≤ length bytes.old) }
{
    let mut input = rt.stdin();
    let mut filled = 0usize;
    for _ in 0..MOST {
        if filled >= bytes.len() {
            break;
        }
        let count = input.read(&mut bytes[filled..])?;
        if count == 0 {
            break;
        }
        filled += count;
    }
    Ok(filled)
}

fn run(rt: &HostRuntime) -> anyhow::Result<()> {
    let mut bytes = [0u8; MOST];
    let filled = fill(rt, &mut bytes)?;
    let text = answer(rt.alloc(), &bytes[..filled])?;
    rt.print(text)?;
    Ok(())
}

fn main(rt: HostRuntime) -> anyhow::Result<()> {
    run(&rt)
}
