// What the arguments ask for.
use anyhow::{Context, bail};
use sheet::number;
use std::env;

// The file of a sheet, and the unit that its table is to run on.
#[derive(Drop)]
pub(crate) struct Order {
    pub(crate) sheet: String,
    pub(crate) unit: UnitOrder,
}

// A divider of a rate, with a lag after each rest; or a ramp of levels.
#[derive(Drop)]
pub(crate) enum UnitOrder {
    Divider { rate: u32, wake: u32 },
    Ramp(Vec<u32>),
}

// What is printed where the arguments are not of their form.
const USAGE: &str = "usage: replay SHEET divider RATE WAKE | replay SHEET ramp LEVEL LEVEL ..";

// Reads the arguments: SHEET divider RATE WAKE, or SHEET ramp LEVEL LEVEL ..
pub(crate) fn read_order(rt: &HostRuntime) -> anyhow::Result<Order> {
    let all = env::args(rt).ok().context(
        "the arguments are not UTF-8 text, or there is no memory for them",
    )?;
    let mut args = all.skip(1);
    let sheet = args.next().context(USAGE)?;
    let kind = args.next().context(USAGE)?;
    let mut numbers = Vec::new(rt.alloc());
    for (place, text) in (3u64..).zip(args) {
        let n = number(text.as_str().as_bytes()).context(format_args!(
            "argument {place} is not a number up to 999999999: {text}"
        ))?;
        numbers.push(n)?;
    }
    let unit = match kind.as_str() {
        "divider" => {
            let &[rate, wake] = numbers.as_slice() else {
                bail!(USAGE);
            };
            UnitOrder::Divider { rate, wake }
        }
        "ramp" => UnitOrder::Ramp(numbers),
        _ => bail!("argument 2 is neither divider nor ramp: {kind}"),
    };
    Ok(Order { sheet, unit })
}
