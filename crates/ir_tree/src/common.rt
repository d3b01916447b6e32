// Instructions under names.
use crate::operands::Operand;
use ir_lex::Name;

/// What stands behind `COMMINST`. Where the list of values is `( )` it may be left out.
#[derive(Drop)]
pub enum CommonInst {
    /// `@uvm.new_stack < [ signature ] > ( function )`
    NewStack {
        signature: Name,
        function: Operand,
    },
    /// `@uvm.kill_stack ( stack )`
    KillStack {
        stack: Operand,
    },
    /// `@uvm.thread_exit ( )`
    ThreadExit,
    /// `@uvm.current_stack ( )`
    CurrentStack,
    /// `@uvm.set_threadlocal ( reference )`
    SetThreadlocal {
        reference: Operand,
    },
    /// `@uvm.get_threadlocal ( )`
    GetThreadlocal,
    /// `@uvm.futex.wait < of_type > ( location value )`
    FutexWait {
        of_type: Name,
        location: Operand,
        value: Operand,
    },
    /// `@uvm.futex.wake < of_type > ( location count )`
    FutexWake {
        of_type: Name,
        location: Operand,
        count: Operand,
    },
    /// `@uvm.futex.wait_timeout < of_type > ( location value limit )`
    FutexWaitTimeout {
        of_type: Name,
        location: Operand,
        value: Operand,
        limit: Operand,
    },
}
