// Swaps to a stack that waits for other types, and to the own stack.
use crate::calls::{RUN, Row, each_answers_behind};
use mu_base::Status;
use std::test::Fail;

const REFUSED_SWAPS: [Row; 2] = [
    (
        ".funcdef @gen VERSION %v <@gs> { %e(<@st> %m): SWAPSTACK %m RET_WITH<> PASS_VALUES<@i64>(@c1) \
        SWAPSTACK %m KILL_OLD PASS_VALUES<@i64>(@c2) } \
        .funcdef @main VERSION %v <@mi> { %e(): %s = COMMINST @uvm.new_stack <[@gs]> (@gen) \
        %m = COMMINST @uvm.current_stack () %a = SWAPSTACK %s RET_WITH<@i64> PASS_VALUES<@i64>(@c1) \
        %b = SWAPSTACK %s RET_WITH<@i64> PASS_VALUES<>() SWAPSTACK %s RET_WITH<> PASS_VALUES<>() RET (%a) }",
        "0 t0 stack s1\nundefined StackTypes t0 @main.v.e 2\n",
        Status::Undefined,
    ),
    (
        ".funcdef @main VERSION %v <@mi> { %e(): %m = COMMINST @uvm.current_stack () \
        SWAPSTACK %m RET_WITH<> PASS_VALUES<>() RET (@c0) }",
        "undefined StackNotReady t0 @main.v.e 1\n",
        Status::Undefined,
    ),
];

#[test]
fn swaps_are_refused_by_types_and_by_states(rt: HostRuntime) -> Result<(), Fail> {
    each_answers_behind(&rt, rt.alloc(), RUN, &REFUSED_SWAPS)?;
    Ok(())
}
