// Waits with a limit and without, and the room that they take.
ghost use Rattle.std.specs.Prelude.{◌≡◌, ◌+◌, ◌<◌, ◌≤◌, []};

use futex::Waiters;
use mu_values::CellId;
use std::alloc::AllocError;
use std::process::Abort;
use std::test::Fail;

const CELL: CellId = CellId { object: 2, at: 5 };

const OTHER_CELL: CellId = CellId { object: 2, at: 6 };

// A thread that does not wait does so from now on, in new room. What calls require is proved once, in small functions.
fn wait(waiters: &mut Waiters, thread: u32, cell: CellId, timed: bool) -> Result<(), AllocError> {
    waiters.reserve()?;
    if thread < 64 && waiters.waiting(thread).is_none() {
        waiters.wait(thread, cell, timed);
    }
    Ok(())
}

// A thread waits for a while where none waits, and does so no more.
fn wait_for_a_while(waiters: &mut Waiters)
    requires room { 0 < waiters.old.spare }
    requires none { waiters.old.waiters ≡ [] }
    ensures spare { waiters.old.spare ≤ waiters.new.spare + 1 }
{
    waiters.wait(9, CELL, true);
    waiters.leave(9);
}

fn wakes_the_first_two(rt: &impl Abort, waiters: &mut Waiters) {
    assert_eq!(rt; waiters.waking(CELL, 2).as_slice(), [9, 4].as_slice());
    let woken = waiters.wake(CELL, 2);
    assert_eq!(rt; woken.count(), 2);
    assert_eq!(rt; woken.as_slice(), [9, 4].as_slice());
}

fn is_the_last(rt: &impl Abort, waiters: &Waiters) {
    assert!(rt; waiters.waiting(9).is_none());
    assert!(rt; waiters.waiting(4).is_none());
    assert!(rt; waiters.waiting(7).is_some());
}

#[test]
fn wakes_two_of_three(rt: HostRuntime) -> Result<(), Fail> {
    let mut waiters = Waiters::new(rt.alloc());
    wait(&mut waiters, 9, CELL, false)?;
    wait(&mut waiters, 4, CELL, true)?;
    wait(&mut waiters, 7, CELL, false)?;
    wakes_the_first_two(&rt, &mut waiters);
    is_the_last(&rt, &waiters);
    Ok(())
}

fn tells_limits(rt: &impl Abort, waiters: &Waiters) {
    assert!(rt; waiters.waiting(9).is_some());
    assert!(rt; waiters.timed(9).is_none());
    assert!(rt; matches!(waiters.timed(4), Some(cell) if cell.at == 6));
    assert!(rt; waiters.timed(5).is_none());
}

#[test]
fn tells_waits_with_a_limit(rt: HostRuntime) -> Result<(), Fail> {
    let mut waiters = Waiters::new(rt.alloc());
    wait(&mut waiters, 9, CELL, false)?;
    wait(&mut waiters, 4, OTHER_CELL, true)?;
    tells_limits(&rt, &waiters);
    Ok(())
}

// The room that was made for a second waiter is there for the next one.
fn wait_in_room(waiters: &mut Waiters, thread: u32)
    requires room { 0 < waiters.old.spare }
    requires below { thread < 64 }
{
    if waiters.waiting(thread).is_none() {
        waiters.wait(thread, CELL, true);
    }
}

#[test]
fn waits_in_room_that_stays(rt: HostRuntime) -> Result<(), Fail> {
    let mut waiters = Waiters::new(rt.alloc());
    waiters.reserve()?;
    waiters.wait(9, CELL, false);
    waiters.reserve()?;
    waiters.leave(9);
    assert_eq!(rt; waiters.wake(CELL, 8).count(), 0);
    wait_in_room(&mut waiters, 4);
    assert!(rt; waiters.waiting(9).is_none());
    assert!(rt; waiters.waiting(4).is_some());
    Ok(())
}

#[test]
fn takes_one_place(rt: HostRuntime) -> Result<(), Fail> {
    let mut waiters = Waiters::new(rt.alloc());
    waiters.reserve()?;
    wait_for_a_while(&mut waiters);
    assert!(rt; waiters.waiting(9).is_none());
    Ok(())
}
