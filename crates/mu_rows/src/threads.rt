// Threads that share cells: what they read by the orders of their accesses, and how many there may be.
use crate::calls::{
    RUN, Row, SCHEDULED, Wanted, answers, behind_definitions, each_answers_behind,
    each_answers_beside,
};
use mu_base::Status;
use std::alloc::{AllocError, Global};
use std::fmt::Write;
use std::test::Fail;

// Each of two threads stores to one cell and loads the other.
const STORES_CROSS: [Row; 2] = [
    (
        ".global @x <@i64> .global @y <@i64> \
        .funcdef @g VERSION %v <@mi> { %e(): STORE RELAXED <@i64> @y @c1 %b = LOAD RELAXED <@i64> @x RET (%b) } \
        .funcdef @main VERSION %v <@mi> { %e(): %s = COMMINST @uvm.new_stack <[@mi]> (@g) \
        %t = NEWTHREAD %s PASS_VALUES<>() STORE RELAXED <@i64> @x @c1 %a = LOAD RELAXED <@i64> @y RET (%a) }",
        "0 t0 stack s1\n\
        1 t0 thread t1\n\
        2 t1 enter s1\n\
        3 t0 write RELAXED #0+0 1 1\n\
        4 t1 write RELAXED #1+0 1 1\n\
        5 t0 read RELAXED #1+0 0 0\n\
        6 t1 read RELAXED #0+0 0 0\n\
        returned t0 0\n\
        returned t1 0\n\
        done\n",
        Status::Done,
    ),
    // Here each load has one option, and takes no number of the schedule.
    (
        ".global @x <@i64> .global @y <@i64> \
        .funcdef @g VERSION %v <@mi> { %e(): STORE SEQ_CST <@i64> @y @c1 %b = LOAD SEQ_CST <@i64> @x RET (%b) } \
        .funcdef @main VERSION %v <@mi> { %e(): %s = COMMINST @uvm.new_stack <[@mi]> (@g) \
        %t = NEWTHREAD %s PASS_VALUES<>() STORE SEQ_CST <@i64> @x @c1 %a = LOAD SEQ_CST <@i64> @y RET (%a) }",
        "0 t0 stack s1\n\
        1 t0 thread t1\n\
        2 t1 enter s1\n\
        3 t0 write SEQ_CST #0+0 1 1\n\
        4 t1 write SEQ_CST #1+0 1 1\n\
        5 t0 read SEQ_CST #1+0 1 1\n\
        6 t1 read SEQ_CST #0+0 1 1\n\
        returned t1 1\n\
        returned t0 1\n\
        done\n",
        Status::Done,
    ),
];

#[test]
fn relaxed_loads_may_pass_stores_of_other_cells(rt: HostRuntime) -> Result<(), Fail> {
    each_answers_beside(&rt, rt.alloc(), SCHEDULED, "0 1 0 1 1 1 0", &STORES_CROSS)?;
    Ok(())
}

// The same with fences between.
const FENCED: [Row; 2] = [
    (
        ".global @x <@i64> .global @y <@i64> \
        .funcdef @g VERSION %v <@mi> { %e(): STORE RELAXED <@i64> @y @c1 FENCE SEQ_CST %b = LOAD RELAXED <@i64> @x \
        RET (%b) } \
        .funcdef @main VERSION %v <@mi> { %e(): %s = COMMINST @uvm.new_stack <[@mi]> (@g) \
        %t = NEWTHREAD %s PASS_VALUES<>() STORE RELAXED <@i64> @x @c1 FENCE SEQ_CST %a = LOAD RELAXED <@i64> @y \
        RET (%a) }",
        "0 t0 stack s1\n\
        1 t0 thread t1\n\
        2 t1 enter s1\n\
        3 t0 write RELAXED #0+0 1 1\n\
        4 t0 fence SEQ_CST\n\
        5 t0 read RELAXED #1+0 0 0\n\
        returned t0 0\n\
        6 t1 write RELAXED #1+0 1 1\n\
        7 t1 fence SEQ_CST\n\
        8 t1 read RELAXED #0+0 1 1\n\
        returned t1 1\n\
        done\n",
        Status::Done,
    ),
    (
        ".global @x <@i64> .global @y <@i64> \
        .funcdef @g VERSION %v <@mi> { %e(): STORE RELAXED <@i64> @y @c1 FENCE ACQ_REL %b = LOAD RELAXED <@i64> @x \
        RET (%b) } \
        .funcdef @main VERSION %v <@mi> { %e(): %s = COMMINST @uvm.new_stack <[@mi]> (@g) \
        %t = NEWTHREAD %s PASS_VALUES<>() STORE RELAXED <@i64> @x @c1 FENCE ACQ_REL %a = LOAD RELAXED <@i64> @y \
        RET (%a) }",
        "0 t0 stack s1\n\
        1 t0 thread t1\n\
        2 t1 enter s1\n\
        3 t0 write RELAXED #0+0 1 1\n\
        4 t0 fence ACQ_REL\n\
        5 t0 read RELAXED #1+0 0 0\n\
        returned t0 0\n\
        6 t1 write RELAXED #1+0 1 1\n\
        7 t1 fence ACQ_REL\n\
        8 t1 read RELAXED #0+0 0 0\n\
        returned t1 0\n\
        done\n",
        Status::Done,
    ),
];

#[test]
fn fences_keep_a_load_behind_a_store_where_they_are_seq_cst(rt: HostRuntime) -> Result<(), Fail> {
    each_answers_beside(&rt, rt.alloc(), SCHEDULED, "0 0 0 0 1", &FENCED)?;
    Ok(())
}

const MESSAGES: [Row; 3] = [
    (
        ".global @d <@i64> .global @f <@i64> \
        .funcdef @g VERSION %v <@mi> { %e(): %a = LOAD ACQUIRE <@i64> @f %b = LOAD NOT_ATOMIC <@i64> @d RET (%b) } \
        .funcdef @main VERSION %v <@mi> { %e(): %s = COMMINST @uvm.new_stack <[@mi]> (@g) \
        %t = NEWTHREAD %s PASS_VALUES<>() STORE NOT_ATOMIC <@i64> @d @c40 STORE RELEASE <@i64> @f @c1 RET (@c0) }",
        "0 t0 stack s1\n\
        1 t0 thread t1\n\
        2 t1 enter s1\n\
        3 t0 write NOT_ATOMIC #0+0 1 40\n\
        4 t0 write RELEASE #1+0 1 1\n\
        returned t0 0\n\
        5 t1 read ACQUIRE #1+0 1 1\n\
        6 t1 read NOT_ATOMIC #0+0 1 40\n\
        returned t1 40\n\
        done\n",
        Status::Done,
    ),
    (
        ".global @d <@i64> .global @f <@i64> \
        .funcdef @g VERSION %v <@mi> { %e(): %a = LOAD ACQUIRE <@i64> @f %b = LOAD NOT_ATOMIC <@i64> @d RET (%b) } \
        .funcdef @main VERSION %v <@mi> { %e(): %s = COMMINST @uvm.new_stack <[@mi]> (@g) \
        %t = NEWTHREAD %s PASS_VALUES<>() STORE NOT_ATOMIC <@i64> @d @c40 STORE NOT_ATOMIC <@i64> @f @c1 RET (@c0) }",
        "0 t0 stack s1\n\
        1 t0 thread t1\n\
        2 t1 enter s1\n\
        3 t0 write NOT_ATOMIC #0+0 1 40\n\
        4 t0 write NOT_ATOMIC #1+0 1 1\n\
        returned t0 0\n\
        undefined DataRace t1 @g.v.e 0 read ACQUIRE #1+0 1 1 with 4\n",
        Status::Undefined,
    ),
    // The update of a third thread stands in the release sequence.
    (
        ".global @d <@i64> .global @f <@i64> \
        .funcdef @g VERSION %v <@mi> { %e(): %a = LOAD ACQUIRE <@i64> @f %b = LOAD NOT_ATOMIC <@i64> @d RET (%b) } \
        .funcdef @u VERSION %v <@mi> { %e(): %o = ATOMICRMW RELAXED ADD <@i64> @f @c1 RET (%o) } \
        .funcdef @main VERSION %v <@mi> { %e(): %s = COMMINST @uvm.new_stack <[@mi]> (@u) \
        %r = COMMINST @uvm.new_stack <[@mi]> (@g) %t = NEWTHREAD %s PASS_VALUES<>() %w = NEWTHREAD %r PASS_VALUES<>() \
        STORE NOT_ATOMIC <@i64> @d @c40 STORE RELEASE <@i64> @f @c1 RET (@c0) }",
        "0 t0 stack s1\n\
        1 t0 stack s2\n\
        2 t0 thread t1\n\
        3 t1 enter s1\n\
        4 t0 thread t2\n\
        5 t2 enter s2\n\
        6 t0 write NOT_ATOMIC #0+0 1 40\n\
        7 t0 write RELEASE #1+0 1 1\n\
        returned t0 0\n\
        8 t1 update RELAXED #1+0 2 2\n\
        returned t1 1\n\
        9 t2 read ACQUIRE #1+0 2 2\n\
        10 t2 read NOT_ATOMIC #0+0 1 40\n\
        returned t2 40\n\
        done\n",
        Status::Done,
    ),
];

#[test]
fn messages_are_passed_by_release_and_acquire(rt: HostRuntime) -> Result<(), Fail> {
    each_answers_behind(&rt, rt.alloc(), RUN, &MESSAGES)?;
    Ok(())
}

const WRITTEN_AGAIN: &str = ".global @d <@i64> .global @f <@i64> \
    .funcdef @g VERSION %v <@mi> { %e(): %a = LOAD ACQUIRE <@i64> @f %b = LOAD NOT_ATOMIC <@i64> @d RET (%b) } \
    .funcdef @main VERSION %v <@mi> { %e(): %s = COMMINST @uvm.new_stack <[@mi]> (@g) \
    %t = NEWTHREAD %s PASS_VALUES<>() STORE NOT_ATOMIC <@i64> @d @c40 STORE RELEASE <@i64> @f @c1 \
    STORE RELAXED <@i64> @f @c2 RET (@c0) }";

const IN_THE_SEQUENCE: [Row; 1] = [(
    WRITTEN_AGAIN,
    "0 t0 stack s1\n\
        1 t0 thread t1\n\
        2 t1 enter s1\n\
        3 t0 write NOT_ATOMIC #0+0 1 40\n\
        4 t0 write RELEASE #1+0 1 1\n\
        5 t0 write RELAXED #1+0 2 2\n\
        returned t0 0\n\
        6 t1 read ACQUIRE #1+0 2 2\n\
        7 t1 read NOT_ATOMIC #0+0 1 40\n\
        returned t1 40\n\
        done\n",
    Status::Done,
)];

const ENDS_THE_SEQUENCE: [Row; 1] = [(
    WRITTEN_AGAIN,
    "0 t0 stack s1\n\
        1 t0 thread t1\n\
        2 t1 enter s1\n\
        3 t0 write NOT_ATOMIC #0+0 1 40\n\
        4 t0 write RELEASE #1+0 1 1\n\
        5 t0 write RELAXED #1+0 2 2\n\
        returned t0 0\n\
        6 t1 read ACQUIRE #1+0 2 2\n\
        undefined DataRace t1 @g.v.e 1 read NOT_ATOMIC #0+0 1 40 with 3\n",
    Status::Undefined,
)];

#[test]
fn rules_of_release_sequences_differ_where_the_thread_writes_again(
    rt: HostRuntime,
) -> Result<(), Fail> {
    each_answers_behind(&rt, rt.alloc(), RUN, &IN_THE_SEQUENCE)?;
    let by_thread = &["run", "b", "--entry", "@main", "--release-sequences", "c11"];
    each_answers_behind(&rt, rt.alloc(), by_thread, &IN_THE_SEQUENCE)?;
    let by_updates = &["run", "b", "--entry", "@main", "--release-sequences", "rmw"];
    each_answers_behind(&rt, rt.alloc(), by_updates, &ENDS_THE_SEQUENCE)?;
    Ok(())
}

const COMPARES: [Row; 2] = [
    (
        ".global @x <@i64> \
        .funcdef @g VERSION %v <@mi> { %e(): (%o %k) = CMPXCHG WEAK RELAXED RELAXED <@i64> @x @c0 @c2 RET (%o) } \
        .funcdef @main VERSION %v <@mi> { %e(): %s = COMMINST @uvm.new_stack <[@mi]> (@g) \
        %t = NEWTHREAD %s PASS_VALUES<>() STORE RELAXED <@i64> @x @c1 RET (@c0) }",
        "0 t0 stack s1\n\
        1 t0 thread t1\n\
        2 t1 enter s1\n\
        3 t0 write RELAXED #0+0 1 1\n\
        returned t0 0\n\
        4 t1 read RELAXED #0+0 0 0\n\
        returned t1 0\n\
        done\n",
        Status::Done,
    ),
    // Without WEAK a value that is equal is no failure, so the newest is read.
    (
        ".global @x <@i64> \
        .funcdef @g VERSION %v <@mi> { %e(): (%o %k) = CMPXCHG RELAXED RELAXED <@i64> @x @c0 @c2 RET (%o) } \
        .funcdef @main VERSION %v <@mi> { %e(): %s = COMMINST @uvm.new_stack <[@mi]> (@g) \
        %t = NEWTHREAD %s PASS_VALUES<>() STORE RELAXED <@i64> @x @c1 RET (@c0) }",
        "0 t0 stack s1\n\
        1 t0 thread t1\n\
        2 t1 enter s1\n\
        3 t0 write RELAXED #0+0 1 1\n\
        returned t0 0\n\
        4 t1 read RELAXED #0+0 1 1\n\
        returned t1 1\n\
        done\n",
        Status::Done,
    ),
];

#[test]
fn weak_comparisons_fail_at_equal_values(rt: HostRuntime) -> Result<(), Fail> {
    each_answers_beside(&rt, rt.alloc(), SCHEDULED, "0 0 1", &COMPARES)?;
    Ok(())
}

const WITHOUT_END: &str = ".funcdef @t VERSION %v <@m> { %e(): RET () } \
    .funcdef @main VERSION %v <@mi> { %e(): %s = COMMINST @uvm.new_stack <[@m]> (@t) \
    %r = NEWTHREAD %s PASS_VALUES<>() BRANCH %e() }";

// Three lines for each of the 63 threads that are made.
fn lines_of_all_threads(alloc: Global) -> Result<String, AllocError> {
    let mut text = String::new(alloc);
    for made in 0..63u32 {
        let number = made + 1;
        let event = 3 * made;
        write!(text, "{event} t0 stack s{number}\n")?;
        let event = event + 1;
        write!(text, "{event} t0 thread t{number}\n")?;
        let event = event + 1;
        write!(text, "{event} t{number} enter s{number}\n")?;
    }
    text.push_str("189 t0 stack s64\nthreads full t0\n")?;
    Ok(text)
}

#[test]
fn no_65th_thread_is_made(rt: HostRuntime) -> Result<(), Fail> {
    let bytes = behind_definitions(rt.alloc(), WITHOUT_END)?;
    let text = lines_of_all_threads(rt.alloc())?;
    let wanted = Wanted {
        text: text.as_str(),
        status: Status::ThreadsFull,
    };
    answers(&rt, rt.alloc(), RUN, bytes, wanted)?;
    Ok(())
}
