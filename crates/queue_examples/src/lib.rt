// Examples of the queue, at rows by their number, at releases by tick and then row, and at readings of a load.
#![tactic(auto)]

ghost use Rattle.std.specs.Prelude.{◌≡◌};
ghost use Rattle.queue.specs.Order.{Order, upto};
ghost use Rattle.queue_examples.specs.Readings.{heavier};
ghost use Rattle.queue_examples.specs.Rows.{smaller};
ghost use Rattle.std.proofs.Common.{rules};

use queue::Ranked;

// A row by itself: the smallest number is first.
#[derive(Clone, Copy, PartialEq, Eq, PartialOrd, Ord, Debug)]
pub struct Row {
    pub number: u8,
}

impl Ranked for Row {
    ghost before = { smaller };

    ghost order = { Prim.search rules };

    fn upto(self, other: Row) -> bool {
        self <= other
    }
}

// A theorem: what rows are compared by is the order by number, which is total.
pub fn rows_are_ordered()
    ensures by_number { upto ⟦<Row as Ord>⟧.cmp ≡ smaller }
    ensures total { Order smaller }
{}

// A reading of a load: the heaviest is first. Readings have no `Ord`, and a queue asks for none.
#[derive(Clone, Copy, PartialEq, Eq, Debug)]
pub struct Reading {
    pub load: u32,
}

impl Ranked for Reading {
    ghost before = { heavier };

    ghost order = { Prim.search rules };

    fn upto(self, other: Reading) -> bool {
        other.load <= self.load
    }
}

#[cfg(test)]
mod tests {
    use super::*;
    use fault::Refusal;
    use queue::{Entry, head, put, take_head};
    use std::test::Fail;

    fn row(number: u8) -> Row {
        Row { number }
    }

    fn release(key: u32, row: u32) -> Entry {
        Entry { key, row }
    }

    #[test]
    fn rows_come_out_by_number(rt: HostRuntime) -> Result<(), Fail> {
        let mut slots = [row(0); 4];
        let mut len = 0;
        put(&mut slots, &mut len, row(7))?;
        put(&mut slots, &mut len, row(2))?;
        put(&mut slots, &mut len, row(5))?;
        assert_eq!(rt; len, 3);
        assert_eq!(rt; head(&slots, len), Some(row(2)));
        assert_eq!(rt; take_head(&mut slots, &mut len), Some(row(2)));
        assert_eq!(rt; take_head(&mut slots, &mut len), Some(row(5)));
        assert_eq!(rt; take_head(&mut slots, &mut len), Some(row(7)));
        assert_eq!(rt; len, 0);
        Ok(())
    }

    #[test]
    fn readings_come_out_by_weight(rt: HostRuntime) -> Result<(), Fail> {
        let mut slots = [Reading { load: 0 }; 3];
        let mut len = 0;
        put(&mut slots, &mut len, Reading { load: 40 })?;
        put(&mut slots, &mut len, Reading { load: 900 })?;
        put(&mut slots, &mut len, Reading { load: 7 })?;
        assert_eq!(rt;
            take_head(&mut slots, &mut len),
            Some(Reading { load: 900 })
        );
        assert_eq!(rt; take_head(&mut slots, &mut len), Some(Reading { load: 40 }));
        assert_eq!(rt; take_head(&mut slots, &mut len), Some(Reading { load: 7 }));
        Ok(())
    }

    #[test]
    fn releases_come_out_by_tick_then_row(rt: HostRuntime) -> Result<(), Fail> {
        let mut slots = [release(0, 0); 4];
        let mut len = 0;
        put(&mut slots, &mut len, release(30, 1))?;
        put(&mut slots, &mut len, release(10, 9))?;
        put(&mut slots, &mut len, release(10, 4))?;
        put(&mut slots, &mut len, release(20, 0))?;
        assert_eq!(rt;
            slots,
            [
                release(10, 4),
                release(10, 9),
                release(20, 0),
                release(30, 1),
            ]
        );
        Ok(())
    }

    // Entries that are equal stand side by side, and none is lost.
    #[test]
    fn equals_stay_together(rt: HostRuntime) -> Result<(), Fail> {
        let mut slots = [release(0, 0); 4];
        let mut len = 0;
        put(&mut slots, &mut len, release(10, 4))?;
        put(&mut slots, &mut len, release(20, 4))?;
        put(&mut slots, &mut len, release(10, 4))?;
        assert_eq!(rt;
            slots,
            [
                release(10, 4),
                release(10, 4),
                release(20, 4),
                release(0, 0),
            ]
        );
        assert_eq!(rt; len, 3);
        Ok(())
    }

    #[test]
    fn full_queue_refuses(rt: HostRuntime) {
        let mut slots = [row(1), row(3)];
        let mut len = 2;
        assert_eq!(rt;
            put(&mut slots, &mut len, row(2)),
            Err(Refusal::QueueFull.into())
        );
        assert_eq!(rt; slots, [row(1), row(3)]);
        assert_eq!(rt; len, 2);
    }

    #[test]
    fn empty_queue_has_no_head(rt: HostRuntime) {
        let mut slots = [row(1), row(3)];
        let mut len = 0;
        assert_eq!(rt; head(&slots, len), None);
        assert_eq!(rt; take_head(&mut slots, &mut len), None);
        assert_eq!(rt; slots, [row(1), row(3)]);
        assert_eq!(rt; len, 0);
    }

    // A `len` past the slots means all of them, and a put then finds no room.
    #[test]
    fn len_past_the_slots(rt: HostRuntime) {
        let mut slots = [release(10, 4), release(20, 0)];
        let mut len = 9;
        assert_eq!(rt;
            put(&mut slots, &mut len, release(0, 0)),
            Err(Refusal::QueueFull.into())
        );
        assert_eq!(rt; len, 9);
        assert_eq!(rt; head(&slots, len), Some(release(10, 4)));
        assert_eq!(rt; take_head(&mut slots, &mut len), Some(release(10, 4)));
        assert_eq!(rt; len, 1);
        assert_eq!(rt; head(&slots, len), Some(release(20, 0)));
    }

    #[test]
    fn no_slots_at_all(rt: HostRuntime) {
        let mut slots: [Row; 0] = [];
        let mut len = 3;
        assert_eq!(rt; head(&slots, len), None);
        assert_eq!(rt; take_head(&mut slots, &mut len), None);
        assert_eq!(rt; len, 3);
    }
}
