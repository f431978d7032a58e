// Reading a sheet, line by line: the first fault is the answer.
ghost use Rattle.std.specs.Prelude.{◌≡◌, ◌≤◌, true, ◌↔◌, Ok, Err, MatchResult};
ghost use Rattle.sheet.specs.Contents.{contents_of, ReadsAs};
ghost use Rattle.sheet.specs.Sheets.{Contents, each_or_none, bodies, read_sheet};
ghost use Rattle.sheet.specs.Written.{Proper, sheet_text};

use crate::bodies::{Levels, Starts, Tasks, read_body};
use crate::counts::{Counts, read_counts};
use crate::lines::Lines;
use crate::sheet::{BlankSheet, Sheet};
use fault::{Fault, Refusal};
use std::alloc::{AllocError, Global};
use tasks::table::OpenTable;

impl BlankSheet {
    // Room for a sheet; the only call on a sheet that can find no memory.
    pub fn new(heap: Global) -> Result<BlankSheet, AllocError> {
        Ok(BlankSheet {
            table: OpenTable::new(heap)?,
            starts: Vec::with_capacity(heap, 32)?,
        })
    }

    // What the bytes of a sheet say, or the first fault in them. Contents are read exactly where they are proper and the
    // bytes are their text.
    pub fn read(self, bytes: &[u8]) -> Result<Sheet, Fault>
        ensures value { MatchResult result (λ s. read_sheet bytes.now ≡ Ok (contents_of s)) (λ f. read_sheet bytes.now ≡ Err f) }
        ensures exact { (c : Contents) → ReadsAs result c ↔ (Proper c × (bytes.now ≡ sheet_text c)) }
    {
        if bytes.len() > 4096 {
            return Err(Refusal::SheetTooLong.into());
        }
        let mut lines = Lines {
            text: bytes,
            line: 0,
        };
        let counts = read_counts(&mut lines)?;
        self.read_bodies(counts, lines)
    }

    // The lines after the counts.
    fn read_bodies(self, counts: Counts, mut lines: Lines) -> Result<Sheet, Fault>
        requires after { lines.line ≡ 3 }
        requires few { (counts.levels ≤ 64) × (counts.tasks ≤ 32) × (counts.starts ≤ 32) }
        requires matching { each_or_none counts.tasks counts.starts ≡ true }
        ensures { MatchResult result (λ s. bodies counts lines.entry.text.now ≡ Ok (contents_of s)) (λ f. bodies counts lines.entry.text.now ≡ Err f) }
    {
        let BlankSheet {
            mut table,
            mut starts,
        } = self;
        read_body::<Levels>(&mut table, counts.levels, &mut lines)?;
        read_body::<Tasks>(&mut table, counts.tasks, &mut lines)?;
        read_body::<Starts>(&mut starts, counts.starts, &mut lines)?;
        if !lines.text.is_empty() {
            return Err(Fault::new(Refusal::BytesFollow, lines.line + 1, 0));
        }
        Ok(Sheet { table, starts })
    }
}
