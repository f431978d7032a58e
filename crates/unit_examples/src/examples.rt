// A divider and a ramp on examples.
use crate::counted::Counted;
use fault::{Fault, Refusal};
use std::alloc::Global;
use std::test::Fail;
use tasks::level_list::LevelList;
use units::divider::Divider;
use units::ramp::Ramp;
use units::unit::{SpeedUnit, Standing};

fn standing(asked: u32, lag: u32, rest: u32) -> Standing {
    Standing { asked, lag, rest }
}

// What a unit that refuses a call answers.
fn refusal(refusal: Refusal) -> Result<(), Fault> {
    Err(refusal.into())
}

#[test]
fn divider_asks(rt: HostRuntime) -> Result<(), Fail> {
    let mut unit = Divider::new(12, 3)?;
    assert_eq!(rt; unit.standing(), standing(0, 0, 0));
    assert!(rt; unit.takes(4) && !unit.takes(5) && !unit.takes(0));
    unit.ask(6)?;
    assert_eq!(rt; unit.standing(), standing(6, 0, 0));
    unit.ask(6)?;
    unit.ask(4)?;
    assert_eq!(rt; unit.ask(5), refusal(Refusal::UnknownLevel));
    assert_eq!(rt; unit.standing().works(), 4);
    Ok(())
}

#[test]
fn divider_wakes(rt: HostRuntime) -> Result<(), Fail> {
    let mut unit = Counted {
        under: Divider::new(12, 3)?,
        ticks: 0,
    };
    unit.ask(6)?;
    assert!(rt; unit.standing().is_ready());
    unit.rest(2)?;
    assert!(rt; !unit.standing().is_ready());
    assert_eq!(rt; unit.ask(6), refusal(Refusal::UnitBusy));
    unit.tick();
    assert_eq!(rt; unit.standing(), standing(6, 0, 1));
    unit.tick();
    assert_eq!(rt; unit.standing(), standing(6, 3, 0));
    assert_eq!(rt; unit.rest(1), refusal(Refusal::UnitBusy));
    unit.tick();
    assert_eq!(rt; unit.standing(), standing(6, 2, 0));
    assert_eq!(rt; unit.ticks, 3);
    Ok(())
}

#[test]
fn divider_turns_off_asleep(rt: HostRuntime) -> Result<(), Fail> {
    let mut unit = Divider::new(12, 3)?;
    assert_eq!(rt; unit.rest(1), refusal(Refusal::BadRest));
    unit.ask(12)?;
    assert_eq!(rt; unit.rest(0), refusal(Refusal::BadRest));
    assert_eq!(rt; unit.rest(65_536), refusal(Refusal::BadRest));
    unit.rest(65_535)?;
    assert_eq!(rt; unit.standing().works(), 0);
    unit.off();
    assert_eq!(rt; unit.standing(), standing(0, 0, 0));
    Ok(())
}

#[test]
fn divider_refuses_ranges(rt: HostRuntime) {
    assert!(rt; Divider::new(0, 3).is_err() && Divider::new(1001, 3).is_err());
    assert!(rt; Divider::new(12, 256).is_err() && Divider::new(1000, 255).is_ok());
}

// A ramp with the levels 100, 200 and 500.
fn ramp(heap: Global) -> Result<Ramp, Fail> {
    let mut levels = LevelList::new(heap)?;
    for level in [100, 200, 500] {
        levels.add(0, level)?;
    }
    Ok(Ramp::new(levels).map_err(Fault::from)?)
}

#[test]
fn ramp_climbs(rt: HostRuntime) -> Result<(), Fail> {
    let mut unit = ramp(rt.alloc())?;
    unit.ask(200)?;
    assert_eq!(rt; unit.standing(), standing(200, 2, 0));
    assert_eq!(rt; unit.ask(100), refusal(Refusal::UnitBusy));
    unit.tick();
    unit.tick();
    unit.ask(500)?;
    assert_eq!(rt; unit.standing(), standing(500, 1, 0));
    unit.tick();
    unit.ask(100)?;
    assert_eq!(rt; unit.standing(), standing(100, 0, 0));
    assert_eq!(rt; unit.ask(300), refusal(Refusal::UnknownLevel));
    Ok(())
}

#[test]
fn ramp_wakes(rt: HostRuntime) -> Result<(), Fail> {
    let mut unit = ramp(rt.alloc())?;
    assert_eq!(rt; unit.rest(1), refusal(Refusal::BadRest));
    unit.ask(100)?;
    unit.tick();
    unit.rest(1)?;
    assert_eq!(rt; unit.standing(), standing(100, 0, 1));
    unit.tick();
    assert_eq!(rt; unit.standing(), standing(100, 1, 0));
    unit.tick();
    assert_eq!(rt; unit.standing().works(), 100);
    unit.off();
    assert_eq!(rt; unit.standing(), standing(0, 0, 0));
    Ok(())
}

#[test]
fn ramp_refuses_no_levels(rt: HostRuntime) -> Result<(), Fail> {
    match Ramp::new(LevelList::new(rt.alloc())?) {
        Ok(_) => Err(Fail::new("an empty list is taken")),
        Err(back) => {
            assert_eq!(rt; back.fault, Refusal::BadCount.into());
            assert!(rt; back.given.as_slice().is_empty());
            Ok(())
        }
    }
}
