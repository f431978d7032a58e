// A queue of the rows of a run.
ghost use Rattle.std.specs.Prelude.{◌≡◌, ◌≤◌, length};

use fault::Fault;
use queue::Entry;

// Entries over 32 slots of its own, of which the first `taken` hold them.
#[derive(Drop)]
pub(crate) struct Line {
    pub slots: [Entry; 32],
    pub taken: usize,
    ghost whole: { length slots ≡ 32 },
    ghost within: { taken ≤ 32 },
}

impl Line {
    ghost use Rattle.std.specs.Prelude.{◌≡◌, ◌+◌, MatchOption};
    ghost use Rattle.queue.specs.Entries.{sooner};
    ghost use Rattle.queue.specs.Steps.{Puts, Takes, first};
    ghost use Rattle.run.specs.Places.{TakesDue};
    ghost use Rattle.run.specs.Views.{line_of};

    // A line without entries.
    pub(crate) fn empty() -> Line
        ensures { result.taken ≡ 0 }
    {
        Line {
            slots: [Entry { key: 0, row: 0 }; 32],
            taken: 0,
        }
    }

    // The first entry, which stays.
    pub(crate) fn head(&self) -> Option<Entry>
        ensures { result ≡ first (line_of self.now) }
    {
        queue::head(&self.slots, self.taken)
    }

    // Puts an entry in its place. Where every slot is taken it is refused.
    pub(crate) fn put(&mut self, entry: Entry) -> Result<(), Fault>
        ensures { Puts sooner self.old.slots self.old.taken entry result self.new.slots self.new.taken }
    {
        queue::put(&mut self.slots, &mut self.taken, entry)
    }

    // Takes the first entry out.
    pub(crate) fn take_head(&mut self) -> Option<Entry>
        ensures { Takes self.old.slots self.old.taken result self.new.slots self.new.taken }
    {
        queue::take_head(&mut self.slots, &mut self.taken)
    }

    // Takes the first entry out, if its key is at most `tick`.
    pub(crate) fn take_due(&mut self, tick: u32) -> Option<Entry>
        ensures takes { TakesDue tick (line_of self.old) result (line_of self.new) }
        ensures count { MatchOption result (self.new.taken ≡ self.old.taken) (λ _. self.new.taken + 1 ≡ self.old.taken) }
    {
        if self.head()?.key > tick {
            return None;
        }
        self.take_head()
    }
}
