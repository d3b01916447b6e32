// As many threads as there may be, and one more.
ghost use Rattle.std.specs.Prelude.{◌≡◌, ◌+◌, ◌<◌, length, IfOk, OnOk};

use crate::stacks_made::bound_stack;
use mu_threads::{AddFault, Threads};
use stacks::Directory;
use std::alloc::{AllocError, Global};
use std::process::Abort;
use std::test::Fail;

/// So many threads are made at most.
const MOST_THREADS: u32 = 64;

// Adds the next thread, on a new stack.
fn add_next(alloc: Global, all: &mut Directory, threads: &mut Threads) -> Result<u32, AllocError>
    ensures number { IfOk result (λ n. n ≡ length threads.old.states) }
    ensures made { OnOk result (length threads.new.states ≡ length threads.old.states + 1) }
{
    let stack = bound_stack(alloc, all, threads.made())?;
    match threads.add(stack) {
        Ok(number) => Ok(number),
        Err(AddFault::ThreadsFull(_stack)) => Err(AllocError),
    }
}

// One more stack is refused, and comes back with its number.
fn one_more(
    rt: &impl Abort,
    alloc: Global,
    all: &mut Directory,
    threads: &mut Threads,
) -> Result<(), AllocError> {
    let stack = bound_stack(alloc, all, threads.made())?;
    let number = stack.number();
    match threads.add(stack) {
        Ok(_thread) => assert!(rt; false, "64 threads were made"),
        Err(AddFault::ThreadsFull(stack)) => {
            assert_eq!(rt; stack.number(), number);
            assert_eq!(rt; stack.thread(), MOST_THREADS);
        }
    }
    Ok(())
}

// The last of 64 threads holds its stack until it is taken.
fn last_holds(rt: &impl Abort, threads: &mut Threads)
    requires { 63 < length threads.old.states }
{
    assert!(rt; threads.holds(63));
    if threads.holds(63) {
        assert_eq!(rt; threads.take_stack(63).number(), 63);
        assert!(rt; !threads.holds(63));
    }
}

#[test]
fn refuses_a_thread_past_64(rt: HostRuntime) -> Result<(), Fail> {
    let mut all = Directory::new(rt.alloc());
    let mut threads = Threads::new(rt.alloc())?;
    for n in 0..MOST_THREADS {
        assert_eq!(rt; threads.next(), Some(n));
        assert_eq!(rt; add_next(rt.alloc(), &mut all, &mut threads)?, n);
    }
    assert!(rt; threads.next().is_none());
    assert_eq!(rt; threads.made(), MOST_THREADS);
    one_more(&rt, rt.alloc(), &mut all, &mut threads)?;
    assert_eq!(rt; threads.made(), MOST_THREADS);
    assert_eq!(rt; threads.runnable(), MOST_THREADS);
    assert!(rt; threads.made() > 63);
    last_holds(&rt, &mut threads);
    Ok(())
}
