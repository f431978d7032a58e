// One ordered queue, for every kind of entry with a total order. Its memory is slots that each call is lent, of which the first `len` hold the
// entries, first to come out first; where `len` is more than there are slots, all of them do.
#![tactic(auto)]

ghost use Rattle.std.specs.Prelude.{◌≡◌, ◌+◌, ◌<◌, ◌≤◌, Bool, true, ◌∷◌, length, take, drop, OnOk};
ghost use Rattle.queue.specs.Entries.{sooner};
ghost use Rattle.queue.specs.Order.{Order, upto, ordered, sorted};
ghost use Rattle.queue.specs.Steps.{Puts, Takes, first};
ghost use Rattle.std.specs.List.{insert};
ghost use Rattle.std.specs.List.Sorted.{IsPermutation};
ghost use Rattle.std.proofs.Common.{rules};

use fault::{Fault, Refusal};

// What can stand in a queue: anything that some total order ranks. It may have an `Ord` of another order, or none.
pub trait Ranked {
    // Whether the first entry may stand before the second.
    ghost before: { Self → Self → Bool };

    fn upto(self, other: Self) -> bool
        ensures { result ≡ before self other };

    ghost order: { Order before };
}

// A row that waits until the tick `key`, or by its priority alone, with 0 as its key. Entries are ordered by key, and then by row.
#[derive(Clone, Copy, PartialEq, Eq, PartialOrd, Ord, Debug)]
pub struct Entry {
    pub key: u32,
    pub row: u32,
}

impl Ranked for Entry {
    ghost before = { sooner };

    ghost order = { Prim.search rules };

    fn upto(self, other: Entry) -> bool {
        self <= other
    }
}

// A theorem: what entries are compared by is the order by key and then by row, which is total.
pub fn entries_are_ordered()
    ensures by_key_then_row { upto ⟦<Entry as Ord>⟧.cmp ≡ sooner }
    ensures total { Order sooner }
{}

// The entries: those in the first `len` slots.
fn contents<E>(slots: &[E], len: usize) -> &[E]
    ensures { result.now ≡ take len slots.now }
{
    &slots[..len.min(slots.len())]
}

// How many entries at the front stay before `new`.
fn place<E: Ranked + Copy>(entries: &[E], new: E) -> usize
    ensures within { result ≤ length entries.now }
    ensures cuts { insert entries.now result new ≡ ordered E.before new entries.now }
{
    entries
        .iter()
        .position(|next| !next.upto(new))
        .unwrap_or(entries.len())
}

// Writes `new` behind the first `n` entries, and turns it to the place `at` among them.
fn insert<E: Copy>(slots: &mut [E], n: usize, at: usize, new: E)
    requires room { n < length slots.old }
    requires among { at ≤ n }
    ensures front { take (n + 1) slots.new ≡ insert (take n slots.old) at new }
    ensures spare { drop (n + 1) slots.new ≡ drop (n + 1) slots.old }
{
    slots[n] = new;
    slots[at..n + 1].rotate_right(1);
}

// Puts `new` after every entry that may stand before it, and before the others. Where every slot is taken it is refused, and nothing changes.
pub fn put<E: Ranked + Copy>(slots: &mut [E], len: &mut usize, new: E) -> Result<(), Fault>
    ensures puts { Puts E.before slots.old len.old new result slots.new len.new }
    ensures spare { drop len.new slots.new ≡ drop len.new slots.old }
    ensures sorted { sorted E.before (take len.old slots.old) ≡ true → sorted E.before (take len.new slots.new) ≡ true }
    ensures shuffled { OnOk result (IsPermutation (new ∷ take len.old slots.old) (take len.new slots.new)) }
    ensures within { len.old ≤ length slots.old → len.new ≤ length slots.old }
{
    let n = *len;
    if n >= slots.len() {
        return Err(Refusal::QueueFull.into());
    }
    let at = place(contents(slots, n), new);
    insert(slots, n, at, new);
    *len = n + 1;
    Ok(())
}

// Takes out the first entry. Where there is none, nothing changes.
pub fn take_head<E: Ranked + Copy>(slots: &mut [E], len: &mut usize) -> Option<E>
    ensures takes { Takes slots.old len.old result slots.new len.new }
    ensures spare { drop len.old slots.new ≡ drop len.old slots.old }
    ensures sorted { sorted E.before (take len.old slots.old) ≡ true → sorted E.before (take len.new slots.new) ≡ true }
    ensures within { len.new ≤ len.old }
{
    let first = head(slots, *len)?;
    let n = contents(slots, *len).len();
    slots[..n].rotate_left(1);
    *len = n - 1;
    Some(first)
}

// The first entry, which stays.
pub fn head<E: Copy>(slots: &[E], len: usize) -> Option<E>
    ensures { result ≡ first (take len slots.now) }
{
    contents(slots, len).first().copied()
}
