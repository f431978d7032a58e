// A refusal of a call that uses up what it is given.
ghost use Rattle.std.specs.Prelude.{◌≡◌};

use fault::Fault;

// Why the call was refused, and what it was given, as it was.
#[derive(Drop)]
pub struct Back<T> {
    pub fault: Fault,
    pub given: T,
}

// The fault alone: what was given is let go.
impl<T: Drop> From<Back<T>> for Fault {
    ghost from_gives = { λ b f. f ≡ b.fault };

    fn from(back: Back<T>) -> Fault {
        back.fault
    }
}
