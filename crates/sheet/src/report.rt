// The text that answers a sheet: the listing of an admitted table, or the line of a refusal.
ghost use Rattle.std.specs.Prelude.{◌≡◌, [], ◌∷◌, ◌++◌, map, IfOk, string_bytes, decimal, OnOk};
ghost use Rattle.tasks.specs.Tables.{point_demand};
ghost use Rattle.sheet.specs.Listing.{row_text, rows_text, level_word, listing_text, refusal_text};

use fault::Fault;
use std::alloc::{AllocError, Global};
use tasks::answer::Answer;

// A line with the number of a row, its point and the demand there.
fn add_row(text: &mut String, row: usize, answer: Answer) -> Result<(), AllocError>
    ensures { OnOk result (string_bytes text.new ≡ string_bytes text.old ++ row_text row (point_demand answer)) }
{
    let Answer { point, demand } = answer;
    writeln!(text, "{row} {point} {demand}")
}

// The line with the admitted level.
fn level_line(heap: Global, level: u32) -> Result<String, AllocError>
    ensures { IfOk result (λ s. string_bytes s ≡ level_word ++ (32 ∷ decimal level ++ (10 ∷ []))) }
{
    format!(in heap; "level {level}\n")
}

// A line for each row, row 1 first.
fn add_rows(text: &mut String, answers: &[Answer]) -> Result<(), AllocError>
    ensures { OnOk result (string_bytes text.new ≡ string_bytes text.old ++ rows_text 1 (map point_demand answers.now)) }
{
    for (i, answer) in answers.iter().enumerate() {
        add_row(text, i + 1, *answer)?;
    }
    Ok(())
}

// The admitted level, and a line for each row, row 1 first.
pub fn listing(heap: Global, level: u32, answers: &[Answer]) -> Result<String, AllocError>
    ensures { IfOk result (λ s. string_bytes s ≡ listing_text level (map point_demand answers.now)) }
{
    let mut text = level_line(heap, level)?;
    add_rows(&mut text, answers)?;
    Ok(text)
}

// The number of a refusal, its line and its row.
pub fn refusal_line(heap: Global, fault: Fault) -> Result<String, AllocError>
    ensures { IfOk result (λ s. string_bytes s ≡ refusal_text fault) }
{
    format!(in heap; "{fault}\n")
}
