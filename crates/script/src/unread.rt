// Why words are not read.
ghost use Rattle.std.specs.Prelude.{◌≡◌, Some};
ghost use Rattle.script.specs.Unread.{unread_text};
ghost use Rattle.script.specs.declared.unread.Unread.TheVariants.{NoMemory};

use std::alloc::AllocError;
use std::error::Error;
use std::fmt;

// A line, from 1, that does not say a word; a line with which there would be more words than are taken; and want of memory.
#[derive(Clone, Copy, PartialEq, Eq, Debug)]
pub enum Unread {
    BadLine(usize),
    TooMany(usize),
    NoMemory,
}

// Want of memory is a reason of its own.
impl From<AllocError> for Unread {
    ghost from_gives = { λ _ e. e ≡ NoMemory };

    fn from(_why: AllocError) -> Unread {
        Unread::NoMemory
    }
}

// Words stand on standard input, so that is where the line is.
impl fmt::Display for Unread {
    ghost output = { λ e. Some (unread_text e) };

    fn fmt<W: fmt::Write>(&self, f: &mut fmt::Formatter<W>) -> fmt::Result {
        match self {
            Unread::BadLine(line) => write!(
                f,
                "standard input, line {line}: not go-on, ended or standing, or these with a count"
            ),
            Unread::TooMany(line) => {
                write!(f, "standard input, line {line}: more than 10000000 words")
            }
            Unread::NoMemory => f.write_str("no memory for the words"),
        }
    }
}

// A program passes it up as an error.
impl Error for Unread {}
