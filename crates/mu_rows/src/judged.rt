// What is said of the logs that runs print.
use crate::calls::{Row, each_answers};
use mu_base::Status;
use std::test::Fail;

const JUDGED: [Row; 8] = [
    (
        "0 t0 stack s1\n1 t0 thread t1\n2 t1 enter s1\n3 t0 write RELAXED #0+0 1 1\n4 t1 write RELAXED #1+0 1 1\n5 t0 read RELAXED #1+0 0 0\n6 t1 read RELAXED #0+0 0 0\nreturned t0 0\nreturned t1 0\ndone\n",
        "yes 7\n",
        Status::Done,
    ),
    ("", "yes 0\n", Status::Done),
    (
        "0 t0 thread t1\n1 t0 write NOT_ATOMIC #0+0 1 40\n2 t0 write RELEASE #1+0 1 1\n3 t1 read ACQUIRE #1+0 1 1\n4 t1 read NOT_ATOMIC #0+0 0 0\n",
        "no axiom 1 1 4\n",
        Status::No,
    ),
    (
        "0 t0 thread t1\n1 t0 write SEQ_CST #0+0 1 1\n2 t1 write SEQ_CST #1+0 1 1\n3 t0 read SEQ_CST #1+0 0 0\n4 t1 read SEQ_CST #0+0 0 0\n",
        "no axiom 3 3 2\n",
        Status::No,
    ),
    (
        "0 t0 thread t1\n1 t0 write NOT_ATOMIC #0+0 1 5\n2 t1 read RELAXED #0+0 1 5\n",
        "no race 1 2\n",
        Status::No,
    ),
    ("0 t0 write RELAXED #0+0 2 5\n", "no form 0\n", Status::No),
    (
        "0 t0 fence RELEASED",
        "refused log 11 Unexpected\n",
        Status::Refused,
    ),
    (
        "1 t0 fence ACQUIRE",
        "refused log 0 BadNumber\n",
        Status::Refused,
    ),
];

#[test]
fn logs(rt: HostRuntime) -> Result<(), Fail> {
    each_answers(&rt, rt.alloc(), &["judge", "b"], &JUDGED)?;
    Ok(())
}

// A write of another order is in the release sequence of the write that the read reads by one rule, and not by the other.
const SEQUENCE: &str =
    "0 t0 stack s1\n1 t0 thread t1\n2 t1 enter s1\n3 t0 write NOT_ATOMIC #0+0 1 40\n4 t0 write RELEASE #1+0 1 1\n5 t0 write RELAXED #1+0 2 2\n6 t1 read ACQUIRE #1+0 2 2\n7 t1 read NOT_ATOMIC #0+0 1 40\n";

const BY_C11: [Row; 1] = [(SEQUENCE, "yes 8\n", Status::Done)];

const BY_RMW: [Row; 1] = [(SEQUENCE, "no race 3 7\n", Status::No)];

#[test]
fn logs_by_rules(rt: HostRuntime) -> Result<(), Fail> {
    each_answers(
        &rt,
        rt.alloc(),
        &["judge", "b", "--release-sequences", "c11"],
        &BY_C11,
    )?;
    each_answers(
        &rt,
        rt.alloc(),
        &["judge", "b", "--release-sequences", "rmw"],
        &BY_RMW,
    )?;
    Ok(())
}
