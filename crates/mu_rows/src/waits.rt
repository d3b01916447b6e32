// Waits that a wake ends, and waits with a limit, which end by themselves.
use crate::calls::{RUN, Row, SCHEDULED, each_answers_behind, each_answers_beside};
use mu_base::Status;
use std::test::Fail;

const WOKEN: [Row; 1] = [(
    ".global @q <@i64> \
        .funcdef @g VERSION %v <@mi> { %e(): %w = COMMINST @uvm.futex.wait <@i64> (@q @c0) %z = ZEXT <@i32 @i64> %w \
        RET (%z) } \
        .funcdef @main VERSION %v <@mi> { %e(): %s = COMMINST @uvm.new_stack <[@mi]> (@g) \
        %t = NEWTHREAD %s PASS_VALUES<>() %n = COMMINST @uvm.futex.wake <@i64> (@q @w1) RET (@c0) }",
    "0 t0 stack s1\n\
        1 t0 thread t1\n\
        2 t1 enter s1\n\
        3 t1 read RELAXED #0+0 0 0\n\
        4 t0 wake #0+0 1\n\
        5 t1 woken 4\n\
        returned t0 0\n\
        returned t1 0\n\
        done\n",
    Status::Done,
)];

#[test]
fn wakes_end_waits(rt: HostRuntime) -> Result<(), Fail> {
    each_answers_beside(&rt, rt.alloc(), SCHEDULED, "1", &WOKEN)?;
    Ok(())
}

const TIMED: &str = ".global @q <@i64> \
    .funcdef @main VERSION %v <@mi> { %e(): %w = COMMINST @uvm.futex.wait_timeout <@i64> (@q @c0 @c10) \
    %z = ZEXT <@i32 @i64> %w RET (%z) }";

const ALONE: [Row; 2] = [
    (
        TIMED,
        "0 t0 read RELAXED #0+0 0 0\n\
        timed out t0 #0+0\n\
        returned t0 4294967293\n\
        done\n",
        Status::Done,
    ),
    // The value differs: there is no wait.
    (
        ".global @q <@i64> \
        .funcdef @main VERSION %v <@mi> { %e(): %w = COMMINST @uvm.futex.wait_timeout <@i64> (@q @c1 @c10) \
        %z = ZEXT <@i32 @i64> %w RET (%z) }",
        "0 t0 read RELAXED #0+0 0 0\nreturned t0 4294967295\ndone\n",
        Status::Done,
    ),
];

const ONE_STEP: [Row; 1] = [(
    TIMED,
    "0 t0 read RELAXED #0+0 0 0\nbudget 1\n",
    Status::Budget,
)];

#[test]
fn timed_waits_end_by_a_step_of_their_own(rt: HostRuntime) -> Result<(), Fail> {
    each_answers_behind(&rt, rt.alloc(), RUN, &ALONE)?;
    let one_step = &["run", "b", "--entry", "@main", "--steps", "1"];
    each_answers_behind(&rt, rt.alloc(), one_step, &ONE_STEP)?;
    Ok(())
}

const TIMED_BESIDE_A_WAKE: &str = ".global @q <@i64> \
    .funcdef @g VERSION %v <@mi> { %e(): %w = COMMINST @uvm.futex.wait_timeout <@i64> (@q @c0 @c10) \
    %z = ZEXT <@i32 @i64> %w RET (%z) } \
    .funcdef @main VERSION %v <@mi> { %e(): %s = COMMINST @uvm.new_stack <[@mi]> (@g) \
    %t = NEWTHREAD %s PASS_VALUES<>() %n = COMMINST @uvm.futex.wake <@i64> (@q @w1) RET (@c0) }";

const WAKE_COMES_FIRST: [Row; 1] = [(
    TIMED_BESIDE_A_WAKE,
    "0 t0 stack s1\n\
        1 t0 thread t1\n\
        2 t1 enter s1\n\
        3 t1 read RELAXED #0+0 0 0\n\
        4 t0 wake #0+0 1\n\
        5 t1 woken 4\n\
        returned t0 0\n\
        returned t1 0\n\
        done\n",
    Status::Done,
)];

const LIMIT_COMES_FIRST: [Row; 1] = [(
    TIMED_BESIDE_A_WAKE,
    "0 t0 stack s1\n\
        1 t0 thread t1\n\
        2 t1 enter s1\n\
        3 t1 read RELAXED #0+0 0 0\n\
        timed out t1 #0+0\n\
        4 t0 wake #0+0 0\n\
        returned t0 0\n\
        returned t1 4294967293\n\
        done\n",
    Status::Done,
)];

#[test]
fn schedules_decide_what_ends_a_timed_wait(rt: HostRuntime) -> Result<(), Fail> {
    each_answers_beside(&rt, rt.alloc(), SCHEDULED, "1", &WAKE_COMES_FIRST)?;
    each_answers_beside(&rt, rt.alloc(), SCHEDULED, "1 1", &LIMIT_COMES_FIRST)?;
    Ok(())
}
