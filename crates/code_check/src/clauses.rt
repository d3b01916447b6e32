// What stands behind instructions, and which of them end their block.
ghost use Rattle.std.specs.Prelude.{◌≡◌, option_copied};
ghost use Rattle.checked_code.specs.Instructions.{exc_of, normal_of, exceptional_of, keepalive_of, is_ending};

use ir_lex::Name;
use ir_tree::{
    Access, Allocation, CommonInst, Computation, ControlFlow, Destination, ExceptionClause, Op,
    StackSwitch, Trapping,
};
use text_forms::Listing;

/// The EXC of an instruction.
fn exc_of(op: &Op) -> Option<&ExceptionClause>
    ensures { option_copied result ≡ exc_of op.now }
{
    match op {
        Op::Computation(Computation::Binary { exception, .. })
        | Op::ControlFlow(ControlFlow::Call { exception, .. })
        | Op::Allocation(Allocation::New { exception, .. })
        | Op::Allocation(Allocation::Newhybrid { exception, .. })
        | Op::Allocation(Allocation::Alloca { exception, .. })
        | Op::Access(Access::Load { exception, .. })
        | Op::Access(Access::Store { exception, .. })
        | Op::Access(Access::Cmpxchg { exception, .. })
        | Op::Access(Access::Atomicrmw { exception, .. })
        | Op::Trapping(Trapping::Trap { exception, .. })
        | Op::StackSwitch(StackSwitch::SwapReturning { exception, .. })
        | Op::StackSwitch(StackSwitch::Newthread { exception, .. }) => exception.as_ref(),
        _ => None,
    }
}

/// The destination that may use the instruction's own results.
pub fn normal_of(op: &Op) -> Option<&Destination>
    ensures { option_copied result ≡ normal_of op.now }
{
    match op {
        Op::Trapping(Trapping::Watchpoint { enabled, .. }) => Some(enabled),
        _ => match exc_of(op) {
            Some(clause) => Some(&clause.normal),
            None => None,
        },
    }
}

/// The destination of an exception.
pub fn exceptional_of(op: &Op) -> Option<&Destination>
    ensures { option_copied result ≡ exceptional_of op.now }
{
    match op {
        Op::Trapping(Trapping::Watchpoint { exceptional, .. }) => exceptional.as_ref(),
        _ => match exc_of(op) {
            Some(clause) => Some(&clause.exceptional),
            None => None,
        },
    }
}

/// The variables that are kept.
pub fn keepalive_of(op: &Op) -> Option<&Listing<Name>>
    ensures { option_copied result ≡ keepalive_of op.now }
{
    match op {
        Op::ControlFlow(ControlFlow::Call { keepalive, .. })
        | Op::Trapping(Trapping::Trap { keepalive, .. })
        | Op::Trapping(Trapping::Watchpoint { keepalive, .. })
        | Op::StackSwitch(StackSwitch::SwapReturning { keepalive, .. }) => keepalive.as_ref(),
        _ => None,
    }
}

/// Whether the instruction ends its block.
pub fn is_ending(op: &Op) -> bool
    ensures { result ≡ is_ending op.now }
{
    match op {
        Op::ControlFlow(ControlFlow::Call { exception, .. }) => exception.is_some(),
        Op::Trapping(Trapping::Trap { exception, .. }) => exception.is_some(),
        Op::ControlFlow(_)
        | Op::Trapping(_)
        | Op::StackSwitch(StackSwitch::SwapKilling { .. })
        | Op::Common(CommonInst::ThreadExit) => true,
        _ => exc_of(op).is_some(),
    }
}
