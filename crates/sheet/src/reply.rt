// From the bytes of a sheet to the text that answers it.
ghost use Rattle.std.specs.Prelude.{◌≡◌, IfOk, Ok, Err, string_bytes, MatchResult};
ghost use Rattle.tasks.specs.Admission.{plan_answers};
ghost use Rattle.sheet.specs.Listing.{listing_text, refusal_text};
ghost use Rattle.sheet.specs.Promise.{AnswersSheet};
ghost use Rattle.sheet.specs.Replies.{admitted, answer_text};

use crate::report::{listing, refusal_line};
use crate::sheet::BlankSheet;
use fault::Fault;
use std::alloc::{AllocError, Global};
use tasks::plan::AdmittedPlan;

// The plan of a sheet, or the first refusal: of its text, its table or its admission. The text of either answers the
// sheet.
fn plan_of(blank: BlankSheet, bytes: &[u8]) -> Result<AdmittedPlan, Fault>
    ensures value { MatchResult result (λ p. admitted bytes.now ≡ Ok (p.level, plan_answers p)) (λ f. admitted bytes.now ≡ Err f) }
    ensures promise { MatchResult result (λ p. AnswersSheet bytes.now (listing_text p.level (plan_answers p))) (λ f. AnswersSheet bytes.now (refusal_text f)) }
{
    let sheet = blank.read(bytes)?;
    Ok(sheet.table.admit()?)
}

// The listing of a sheet's table at the lowest level that keeps every deadline, or the line of the first refusal: every
// level leaves a job late, or the bytes are not the text of a sheet.
pub fn answer(heap: Global, bytes: &[u8]) -> Result<String, AllocError>
    ensures value { IfOk result (λ s. string_bytes s ≡ answer_text bytes.now) }
    ensures promise { IfOk result (λ s. AnswersSheet bytes.now (string_bytes s)) }
{
    let blank = BlankSheet::new(heap)?;
    match plan_of(blank, bytes) {
        Ok(plan) => listing(heap, plan.level(), plan.answers()),
        Err(fault) => refusal_line(heap, fault),
    }
}
