// What a schedule picks once numbers were skipped.
use mu_threads::{Schedule, read_schedule};
use std::process::Abort;
use std::test::Fail;

fn skip_and_pick(rt: &impl Abort, schedule: &mut Schedule) {
    schedule.skip(2);
    assert_eq!(rt; schedule.look(0, 10), 4);
    assert_eq!(rt; schedule.look(2, 10), 5);
    assert_eq!(rt; schedule.pick(3), 1);
    assert_eq!(rt; schedule.pick(1), 0);
    schedule.skip(0);
    assert_eq!(rt; schedule.pick(10), 1);
    assert_eq!(rt; schedule.pick(10), 5);
    assert_eq!(rt; schedule.pick(10), 0);
}

fn skip_past_the_end(rt: &impl Abort, schedule: &mut Schedule) {
    schedule.skip(9);
    assert_eq!(rt; schedule.look(0, 10), 0);
    assert_eq!(rt; schedule.pick(10), 0);
}

#[test]
fn skips_before_it_picks(rt: HostRuntime) -> Result<(), Fail> {
    match read_schedule(rt.alloc(), b"3 1 4 1 5") {
        Ok(mut schedule) => skip_and_pick(&rt, &mut schedule),
        Err(_fault) => assert!(rt; false, "these are numbers"),
    }
    Ok(())
}

#[test]
fn skips_all_that_is_left(rt: HostRuntime) -> Result<(), Fail> {
    match read_schedule(rt.alloc(), b"3 1 4 1 5") {
        Ok(mut schedule) => skip_past_the_end(&rt, &mut schedule),
        Err(_fault) => assert!(rt; false, "these are numbers"),
    }
    let mut spent = Schedule::new(rt.alloc());
    skip_past_the_end(&rt, &mut spent);
    Ok(())
}
