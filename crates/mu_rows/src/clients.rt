// Clients that answer traps and watchpoints: by a script, or by zero and NULL.
use crate::calls::{ANSWERED, Row, each_answers_behind, each_answers_beside};
use mu_base::Status;
use std::test::Fail;

/// Two traps, the first of which keeps 42.
pub const KEEPS: &str =
    ".funcdef @main VERSION %v <@mi> { %e(): %k = ADD <@i64> @c40 @c2 %a = TRAP <@i64> KEEPALIVE(%k) %b = TRAP <@i64> \
    RET (%a) }";

const PASSED_BACK: [Row; 1] = [(
    KEEPS,
    "0 t0 leave s0\n\
        trap t0 @main.v.e 1\n\
        frame 0 @main.v.e 1\n\
        kept 0 42\n\
        1 t0 enter s0\n\
        2 t0 leave s0\n\
        trap t0 @main.v.e 2\n\
        stop\n",
    Status::Stop,
)];

#[test]
fn scripts_show_and_pass_what_is_kept_and_stop_after_their_last_entry(
    rt: HostRuntime,
) -> Result<(), Fail> {
    each_answers_beside(
        &rt,
        rt.alloc(),
        ANSWERED,
        "{ frames kept 0 pass (kept 0 0) }",
        &PASSED_BACK,
    )?;
    Ok(())
}

const PASSED_ZERO: [Row; 1] = [(
    KEEPS,
    "0 t0 leave s0\n\
        trap t0 @main.v.e 1\n\
        1 t0 enter s0\n\
        2 t0 leave s0\n\
        trap t0 @main.v.e 2\n\
        3 t0 enter s0\n\
        returned t0 0\n\
        done\n",
    Status::Done,
)];

#[test]
fn auto_passes_zero_at_each_trap(rt: HostRuntime) -> Result<(), Fail> {
    let auto = &["run", "b", "--entry", "@main", "--auto"];
    each_answers_behind(&rt, rt.alloc(), auto, &PASSED_ZERO)?;
    Ok(())
}

const WATCHES: &str =
    ".funcdef @main VERSION %v <@mi> { %e(): TRAP <> %w = WATCHPOINT 7 <@i64> %d() %n(%w) %d(): RET (@c0) \
    %n(<@i64> %r): RET (%r) }";

const ENABLED: [Row; 1] = [(
    WATCHES,
    "0 t0 leave s0\n\
        trap t0 @main.v.e 0\n\
        1 t0 enter s0\n\
        2 t0 leave s0\n\
        watchpoint t0 @main.v.e 1 7\n\
        3 t0 enter s0\n\
        returned t0 40\n\
        done\n",
    Status::Done,
)];

const DISABLED: [Row; 1] = [(
    WATCHES,
    "0 t0 leave s0\n\
        trap t0 @main.v.e 0\n\
        1 t0 enter s0\n\
        returned t0 0\n\
        done\n",
    Status::Done,
)];

#[test]
fn only_enabled_watchpoints_ask(rt: HostRuntime) -> Result<(), Fail> {
    each_answers_beside(
        &rt,
        rt.alloc(),
        ANSWERED,
        "{ watch 7 pass () } { pass (@c40) }",
        &ENABLED,
    )?;
    each_answers_beside(&rt, rt.alloc(), ANSWERED, "{ pass () }", &DISABLED)?;
    Ok(())
}
