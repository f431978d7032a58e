// The lines of a sheet, one after the other. A line has its number in the sheet, and its item a row in the body that it
// belongs to, 0 for a count.
ghost use Rattle.std.specs.Prelude.{◌≡◌, ◌+◌, ◌^◌, ◌<◌, Ok, Err, MatchResult};
ghost use Rattle.sheet.specs.Sheets.{due_line};

use crate::text::cut;
use fault::{Fault, Refusal};

// A text that is read line by line.
#[derive(Clone, Copy)]
pub(crate) struct Lines<'a> {
    // What is left of it.
    pub(crate) text: &'a [u8],
    // The line that was due last, 0 before the first.
    pub(crate) line: u32,
}

impl<'a> Lines<'a> {
    // The next line, without its byte 10.
    pub(crate) fn due(&mut self, row: u32) -> Result<&'a [u8], Fault>
        requires few { self.old.line + 1 < 2 ^ 32 }
        ensures due { MatchResult result (λ l. due_line (self.old.line + 1) row self.old.text.now ≡ Ok (l.now, self.new.text.now)) (λ f. due_line (self.old.line + 1) row self.old.text.now ≡ Err f) }
        ensures line { self.new.line ≡ self.old.line + 1 }
    {
        self.line += 1;
        let missing = Fault::new(Refusal::EndsEarly, self.line, row);
        let (due, rest) = cut(self.text, b'\n').ok_or(missing)?;
        self.text = rest;
        Ok(due)
    }
}
