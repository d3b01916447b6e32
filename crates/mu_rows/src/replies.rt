// The replies of a client's script to a trap, and those that end the run.
use crate::calls::{ANSWERED, Row, each_text_answers};
use crate::clients::KEEPS;
use mu_base::Status;
use std::test::Fail;

const TO_WHAT_KEEPS: [Row; 5] = [
    // There is no frame 5, so that no record is made.
    (
        "{ frames kept 5 pass (@c1) }",
        "0 t0 leave s0\n\
        trap t0 @main.v.e 1\n\
        undefined ClientMisuse t0 @main.v.e 1\n",
        Status::Undefined,
    ),
    (
        "{ frames pass (@w1) }",
        "0 t0 leave s0\n\
        trap t0 @main.v.e 1\n\
        frame 0 @main.v.e 1\n\
        undefined StackTypes t0 @main.v.e 1\n",
        Status::Undefined,
    ),
    (
        "{ throw @nul }",
        "0 t0 leave s0\n\
        trap t0 @main.v.e 1\n\
        undefined Uncaught t0 @main.v.e 1\n",
        Status::Undefined,
    ),
    (
        "{ kept 0 exit }",
        "0 t0 leave s0\n\
        trap t0 @main.v.e 1\n\
        kept 0 42\n\
        exited t0\n\
        done\n",
        Status::Done,
    ),
    (
        "{ kept 0 stop }",
        "0 t0 leave s0\n\
        trap t0 @main.v.e 1\n\
        kept 0 42\n\
        stop\n",
        Status::Stop,
    ),
];

const CATCHES: &str =
    ".funcdef @main VERSION %v <@mi> { %e(): TRAP <> EXC(%n() %x()) %n(): RET (@c0) %x() [%q]: %z = EQ <@rv> %q @nul \
    %k = ZEXT <@i1 @i64> %z RET (%k) }";

const TO_WHAT_CATCHES: [Row; 2] = [
    (
        "{ throw @nul }",
        "0 t0 leave s0\n\
        trap t0 @main.v.e 0\n\
        1 t0 enter s0\n\
        returned t0 1\n\
        done\n",
        Status::Done,
    ),
    (
        "{ throw @c0 }",
        "0 t0 leave s0\n\
        trap t0 @main.v.e 0\n\
        undefined StackTypes t0 @main.v.e 0\n",
        Status::Undefined,
    ),
];

#[test]
fn clients_pass_throw_exit_and_stop(rt: HostRuntime) -> Result<(), Fail> {
    each_text_answers(&rt, rt.alloc(), ANSWERED, KEEPS, &TO_WHAT_KEEPS)?;
    each_text_answers(&rt, rt.alloc(), ANSWERED, CATCHES, &TO_WHAT_CATCHES)?;
    Ok(())
}

const TWO_STACKS: &str = ".funcdef @o VERSION %v <@mi> { %e(): RET (@c2) } \
    .funcdef @main VERSION %v <@mi> { %e(): %s = COMMINST @uvm.new_stack <[@mi]> (@o) \
    %m = COMMINST @uvm.current_stack () %a = TRAP <@i64> KEEPALIVE(%s %m) RET (%a) }";

const TO_TWO_STACKS: [Row; 4] = [
    (
        "{ rebind kept 0 0 pass () }",
        "0 t0 stack s1\n\
        1 t0 leave s0\n\
        trap t0 @main.v.e 2\n\
        2 t0 enter s1\n\
        returned t0 2\n\
        done\n",
        Status::Done,
    ),
    // The stack that was trapped may be entered again.
    (
        "{ rebind kept 0 1 pass (@c10) }",
        "0 t0 stack s1\n\
        1 t0 leave s0\n\
        trap t0 @main.v.e 2\n\
        2 t0 enter s0\n\
        returned t0 10\n\
        done\n",
        Status::Done,
    ),
    (
        "{ rebind kept 0 0 pass (@c1) }",
        "0 t0 stack s1\n\
        1 t0 leave s0\n\
        trap t0 @main.v.e 2\n\
        undefined StackTypes t0 @main.v.e 2\n",
        Status::Undefined,
    ),
    (
        "{ rebind @c1 pass () }",
        "0 t0 stack s1\n\
        1 t0 leave s0\n\
        trap t0 @main.v.e 2\n\
        undefined ClientMisuse t0 @main.v.e 2\n",
        Status::Undefined,
    ),
];

#[test]
fn clients_enter_stacks_by_name(rt: HostRuntime) -> Result<(), Fail> {
    each_text_answers(&rt, rt.alloc(), ANSWERED, TWO_STACKS, &TO_TWO_STACKS)?;
    Ok(())
}
