// Clients that pop frames of the trapped stack and push one, and clients by a script and then by zero and NULL.
use crate::calls::{ANSWERED, Row, each_answers_beside, each_text_answers};
use crate::clients::KEEPS;
use mu_base::Status;
use std::test::Fail;

const CALLS_WHAT_TRAPS: &str =
    ".funcdef @slow VERSION %v <@mi> { %e(): TRAP <> RET (@c1) } .funcdef @fast VERSION %v <@mi> { %e(): RET (@c40) } \
    .funcdef @main VERSION %v <@mi> { %e(): %r = CALL <@mi> @slow () RET (%r) }";

const TO_WHAT_TRAPS: [Row; 4] = [
    (
        "{ pop 1 push @fast pass () }",
        "0 t0 leave s0\n\
        trap t0 @slow.v.e 0\n\
        1 t0 enter s0\n\
        returned t0 40\n\
        done\n",
        Status::Done,
    ),
    (
        "{ pop 1 pass (@c2) }",
        "0 t0 leave s0\n\
        trap t0 @slow.v.e 0\n\
        1 t0 enter s0\n\
        returned t0 2\n\
        done\n",
        Status::Done,
    ),
    (
        "{ push @main pass () }",
        "0 t0 leave s0\n\
        trap t0 @slow.v.e 0\n\
        undefined StackTypes t0 @slow.v.e 0\n",
        Status::Undefined,
    ),
    (
        "{ pop 2 pass () }",
        "0 t0 leave s0\n\
        trap t0 @slow.v.e 0\n\
        undefined ClientMisuse t0 @slow.v.e 0\n",
        Status::Undefined,
    ),
];

#[test]
fn clients_pop_and_push_frames(rt: HostRuntime) -> Result<(), Fail> {
    each_text_answers(&rt, rt.alloc(), ANSWERED, CALLS_WHAT_TRAPS, &TO_WHAT_TRAPS)?;
    Ok(())
}

const PASSED_BACK: [Row; 1] = [(
    KEEPS,
    "0 t0 leave s0\n\
        trap t0 @main.v.e 1\n\
        frame 0 @main.v.e 1\n\
        kept 0 42\n\
        1 t0 enter s0\n\
        2 t0 leave s0\n\
        trap t0 @main.v.e 2\n\
        3 t0 enter s0\n\
        returned t0 42\n\
        done\n",
    Status::Done,
)];

#[test]
fn auto_answers_after_the_last_entry(rt: HostRuntime) -> Result<(), Fail> {
    let both = &["run", "b", "--entry", "@main", "--client", "f", "--auto"];
    each_answers_beside(
        &rt,
        rt.alloc(),
        both,
        "{ frames kept 0 pass (kept 0 0) }",
        &PASSED_BACK,
    )?;
    Ok(())
}
