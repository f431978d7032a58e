// The text form of a table: reads a sheet into a table and first releases, and writes the listing of what was admitted.
#![tactic(auto)]

mod bodies;
mod counts;
mod forms;
mod lines;
mod reading;
mod reply;
mod report;
mod sheet;
mod text;

pub use reply::answer;
pub use report::{listing, refusal_line};
pub use sheet::{BlankSheet, Sheet};
// Every other text that is read has the lines and numbers of a sheet, so it is cut and read by the same functions.
pub use text::{cut, number};

// As many bytes as a program need read of a sheet: one more than a sheet may have. What is longer is refused, so input without end is not waited for.
pub const MOST_READ: u64 = 4097;
