// What every refusal carries: which rule was broken, the line and the row that it is for, and the layer whose rule it is.
#![tactic(auto)]

ghost use Rattle.std.specs.Prelude.{◌≡◌, Some};
ghost use Rattle.fault.specs.Numbers.{number_of, layer_of};
ghost use Rattle.fault.specs.Faults.{fault_at, fault_text};

use std::error::Error;
use std::fmt;

// The rules that an input can break, in the order in which they are checked.
#[derive(Clone, Copy, PartialEq, Eq, Debug)]
pub enum Refusal {
    // The sheet is longer than 4,096 bytes.
    SheetTooLong = 1,
    // The text ends before the line that is due, or inside it.
    EndsEarly,
    // A line is not of the form for its place.
    BadLine,
    // A count is outside its range.
    BadCount,
    // A level is outside its range, or not above the one before.
    BadLevel,
    // A period is outside its range.
    BadPeriod,
    // A deadline is outside its range.
    BadDeadline,
    // A work is outside its range.
    BadWork,
    // A first release is above 65,535.
    LateStart,
    // Bytes follow the last line.
    BytesFollow,
    // No listed level passes.
    NoLevelPasses,
    // At begin the unit's rest or lag is above 0.
    UnitNotReady,
    // A listed level up to the admitted one is not taken by the unit.
    LevelNotTaken,
    // A first release is below the raise allowance.
    EarlyStart,
    // Go-on or ended comes at the last tick count.
    CountFull,
    // Ended is said in a tick that gives no units.
    NothingGiven,
    // Ask or rest comes while rest or lag is above 0.
    UnitBusy,
    // Ask names a level that the unit does not take.
    UnknownLevel,
    // Rest is given a number of ticks outside its range, or nothing is asked.
    BadRest,
    // A divider's rate or wake count is outside its range.
    BadDivider,
    // An entry is put into a queue whose slots are all taken.
    QueueFull,
}

// The layer whose rule was broken.
#[derive(Clone, Copy, PartialEq, Eq, Debug)]
pub enum Layer {
    Sheet,
    Table,
    Run,
    Unit,
}

// A rule that was broken, and where.
#[derive(Clone, Copy, PartialEq, Eq, Debug)]
pub struct Fault {
    pub refusal: Refusal,
    // The line of the sheet, from 1; 0 outside a sheet.
    pub line: u32,
    // The place, from 1, of the level, task or start; 0 where there is none.
    pub row: u32,
    pub layer: Layer,
}

impl Refusal {
    // The number under which a refusal is printed.
    pub fn number(self) -> u8
        ensures { result ≡ number_of self }
    {
        self as u8
    }

    // The layer of a refusal at a line of a sheet, 0 outside one.
    pub fn layer(self, line: u32) -> Layer
        ensures { result ≡ layer_of self line }
    {
        match self {
            Refusal::SheetTooLong | Refusal::EndsEarly | Refusal::BadLine | Refusal::BytesFollow =>
                Layer::Sheet,
            Refusal::BadCount => {
                if line == 0 {
                    Layer::Table
                } else {
                    Layer::Sheet
                }
            }
            Refusal::BadLevel
            | Refusal::BadPeriod
            | Refusal::BadDeadline
            | Refusal::BadWork
            | Refusal::LateStart
            | Refusal::NoLevelPasses => Layer::Table,
            Refusal::UnitNotReady
            | Refusal::LevelNotTaken
            | Refusal::EarlyStart
            | Refusal::CountFull
            | Refusal::NothingGiven
            | Refusal::QueueFull => Layer::Run,
            Refusal::UnitBusy | Refusal::UnknownLevel | Refusal::BadRest | Refusal::BadDivider =>
                Layer::Unit,
        }
    }
}

impl Fault {
    // A refusal at a line and a row, in its own layer.
    pub fn new(refusal: Refusal, line: u32, row: u32) -> Fault
        ensures { result ≡ fault_at refusal line row }
    {
        Fault {
            refusal,
            line,
            row,
            layer: refusal.layer(line),
        }
    }
}

// A refusal outside a sheet that is for no row.
impl From<Refusal> for Fault {
    ghost from_gives = { λ why fault. fault ≡ fault_at why 0 0 };

    fn from(refusal: Refusal) -> Fault {
        Fault::new(refusal, 0, 0)
    }
}

// `refused`, the number, the line and the row.
impl fmt::Display for Fault {
    ghost output = { λ f. Some (fault_text f) };

    fn fmt<W: fmt::Write>(&self, f: &mut fmt::Formatter<W>) -> fmt::Result {
        let number = self.refusal.number();
        let Fault { line, row, .. } = *self;
        write!(f, "refused {number} {line} {row}")
    }
}

// A program that expects no refusal passes one up as an error.
impl Error for Fault {}
