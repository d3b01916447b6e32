// Stacks: a generator that is swapped to and killed, and a stack that is left by one thread and entered by another.
use crate::calls::{RUN, Row, each_answers_behind};
use mu_base::Status;
use std::test::Fail;

/// A generator that kills its stack, which is entered once more.
pub const GENERATOR: &str =
    ".funcdef @gen VERSION %v <@gs> { %e(<@st> %m): SWAPSTACK %m RET_WITH<> PASS_VALUES<@i64>(@c1) \
    SWAPSTACK %m KILL_OLD PASS_VALUES<@i64>(@c2) } \
    .funcdef @main VERSION %v <@mi> { %e(): %s = COMMINST @uvm.new_stack <[@gs]> (@gen) \
    %m = COMMINST @uvm.current_stack () %a = SWAPSTACK %s RET_WITH<@i64> PASS_VALUES<@st>(%m) \
    %b = SWAPSTACK %s RET_WITH<@i64> PASS_VALUES<>() SWAPSTACK %s RET_WITH<> PASS_VALUES<>() RET (%a) }";

const KILLED: [Row; 1] = [(
    GENERATOR,
    "0 t0 stack s1\n\
        1 t0 leave s0\n\
        2 t0 enter s1\n\
        3 t0 leave s1\n\
        4 t0 enter s0\n\
        5 t0 leave s0\n\
        6 t0 enter s1\n\
        7 t0 enter s0\n\
        undefined StackNotReady t0 @main.v.e 4\n",
    Status::Undefined,
)];

#[test]
fn killed_stacks_are_not_entered(rt: HostRuntime) -> Result<(), Fail> {
    each_answers_behind(&rt, rt.alloc(), RUN, &KILLED)?;
    Ok(())
}

const SHARED: [Row; 1] = [(
    ".global @h <@st> \
        .funcdef @co VERSION %v <@gs> { %e(<@st> %m): %a = ALLOCA <@i64> STORE NOT_ATOMIC <@i64> %a @c40 \
        SWAPSTACK %m RET_WITH<> PASS_VALUES<>() %b = LOAD NOT_ATOMIC <@i64> %a COMMINST @uvm.thread_exit () } \
        .funcdef @g VERSION %v <@mi> { %e(): %s = LOAD RELAXED <@st> @h SWAPSTACK %s KILL_OLD PASS_VALUES<>() } \
        .funcdef @main VERSION %v <@mi> { %e(): %k = COMMINST @uvm.new_stack <[@mi]> (@g) \
        %t = NEWTHREAD %k PASS_VALUES<>() %s = COMMINST @uvm.new_stack <[@gs]> (@co) %m = COMMINST @uvm.current_stack () \
        SWAPSTACK %s RET_WITH<> PASS_VALUES<@st>(%m) STORE RELAXED <@st> @h %s RET (@c0) }",
    "0 t0 stack s1\n\
        1 t0 thread t1\n\
        2 t1 enter s1\n\
        3 t0 stack s2\n\
        4 t0 leave s0\n\
        5 t0 enter s2\n\
        6 t0 write NOT_ATOMIC #1+0 1 40\n\
        7 t0 leave s2\n\
        8 t0 enter s0\n\
        9 t0 write RELAXED #0+0 1 s2\n\
        returned t0 0\n\
        10 t1 read RELAXED #0+0 1 s2\n\
        11 t1 enter s2\n\
        12 t1 read NOT_ATOMIC #1+0 1 40\n\
        exited t1\n\
        done\n",
    Status::Done,
)];

#[test]
fn stacks_are_entered_by_a_thread_that_was_made_before(rt: HostRuntime) -> Result<(), Fail> {
    each_answers_behind(&rt, rt.alloc(), RUN, &SHARED)?;
    Ok(())
}

/// A stack that is left, and with which a new thread begins. In the end both threads wait.
pub const HANDED_ON: &str = ".global @q <@i64> \
    .funcdef @co VERSION %v <@gs> { %e(<@st> %m): %a = ALLOCA <@i64> STORE NOT_ATOMIC <@i64> %a @c40 \
    SWAPSTACK %m RET_WITH<> PASS_VALUES<>() %b = LOAD NOT_ATOMIC <@i64> %a \
    %w = COMMINST @uvm.futex.wait <@i64> (@q @c0) RET () } \
    .funcdef @main VERSION %v <@mi> { %e(): %s = COMMINST @uvm.new_stack <[@gs]> (@co) \
    %m = COMMINST @uvm.current_stack () SWAPSTACK %s RET_WITH<> PASS_VALUES<@st>(%m) \
    %t = NEWTHREAD %s PASS_VALUES<>() %w = COMMINST @uvm.futex.wait <@i64> (@q @c0) RET (@c0) }";

const ENOUGH_STEPS: [Row; 1] = [(
    HANDED_ON,
    "0 t0 stack s1\n\
        1 t0 leave s0\n\
        2 t0 enter s1\n\
        3 t0 write NOT_ATOMIC #1+0 1 40\n\
        4 t0 leave s1\n\
        5 t0 enter s0\n\
        6 t0 thread t1\n\
        7 t1 enter s1\n\
        8 t0 read RELAXED #0+0 0 0\n\
        9 t1 read NOT_ATOMIC #1+0 1 40\n\
        10 t1 read RELAXED #0+0 0 0\n\
        all waiting t0 t1\n",
    Status::AllWaiting,
)];

const TOO_FEW_STEPS: [Row; 1] = [(
    HANDED_ON,
    "0 t0 stack s1\n\
        1 t0 leave s0\n\
        2 t0 enter s1\n\
        3 t0 write NOT_ATOMIC #1+0 1 40\n\
        4 t0 leave s1\n\
        5 t0 enter s0\n\
        6 t0 thread t1\n\
        7 t1 enter s1\n\
        8 t0 read RELAXED #0+0 0 0\n\
        9 t1 read NOT_ATOMIC #1+0 1 40\n\
        budget 9\n",
    Status::Budget,
)];

// Both threads wait in the end. That is found before the budget is asked.
#[test]
fn stacks_begin_a_new_thread_where_they_were_left(rt: HostRuntime) -> Result<(), Fail> {
    each_answers_behind(&rt, rt.alloc(), RUN, &ENOUGH_STEPS)?;
    let enough = &["run", "b", "--entry", "@main", "--steps", "10"];
    each_answers_behind(&rt, rt.alloc(), enough, &ENOUGH_STEPS)?;
    let too_few = &["run", "b", "--entry", "@main", "--steps", "9"];
    each_answers_behind(&rt, rt.alloc(), too_few, &TOO_FEW_STEPS)?;
    Ok(())
}
