// Code that was checked: names are numbers, and types are classes.
use mu_base::{BinaryOp, CompareOp, ConvertOp, Order, UpdateOp};
use text_forms::Listing;

/// Where the value of an operand comes from, by number.
#[derive(Clone, Copy, Debug, PartialEq, Eq)]
pub enum Source {
    /// A variable of the block: its parameters, its handler and its results are counted from 0 in text order.
    Variable(u32),
    /// A constant.
    Constant(u32),
    /// A global: the place of its object.
    GlobalCell(u32),
    /// A function.
    Function(u32),
}

/// Where a block goes on, and what the parameters are then. Blocks are counted from 0 over the whole bundle.
#[derive(Drop)]
pub struct Target {
    pub block: u32,
    pub arguments: Listing<Source>,
}

/// What a stack is entered with.
#[derive(Drop)]
pub enum Entered {
    /// Values of these classes.
    Values {
        classes: Listing<u32>,
        values: Listing<Source>,
    },
    /// An exception.
    Exception(Source),
}

/// A computation.
#[derive(Drop)]
pub enum ComputationForm {
    /// ADD and its like
    Binary {
        op: BinaryOp,
        class: u32,
        left: Source,
        right: Source,
    },
    /// EQ and its like
    Compare {
        op: CompareOp,
        class: u32,
        left: Source,
        right: Source,
    },
    /// TRUNC, ZEXT and SEXT
    Convert {
        op: ConvertOp,
        from: u32,
        to: u32,
        operand: Source,
    },
    /// REFCAST
    Refcast {
        from: u32,
        to: u32,
        operand: Source,
    },
    /// SELECT
    Select {
        class: u32,
        condition: Source,
        if_one: Source,
        if_zero: Source,
    },
    /// EXTRACTVALUE, with the number of the field
    Extractvalue {
        class: u32,
        field: usize,
        operand: Source,
    },
    /// INSERTVALUE, with the number of the field
    Insertvalue {
        class: u32,
        field: usize,
        operand: Source,
        value: Source,
    },
}

/// A case of a SWITCH: the constant, and where it leads.
#[derive(Drop)]
pub struct CaseForm {
    pub constant: u32,
    pub target: Target,
}

/// An instruction that says where the function goes on, or that enters or leaves one.
#[derive(Drop)]
pub enum ControlForm {
    /// BRANCH
    Branch {
        target: Target,
    },
    /// BRANCH2
    Branch2 {
        condition: Source,
        if_one: Target,
        if_zero: Target,
    },
    /// SWITCH
    Switch {
        class: u32,
        operand: Source,
        default: Target,
        cases: Listing<CaseForm>,
    },
    /// CALL, with the class of its signature
    Call {
        signature: u32,
        callee: Source,
        arguments: Listing<Source>,
    },
    /// TAILCALL, with the class of its signature
    Tailcall {
        signature: u32,
        callee: Source,
        arguments: Listing<Source>,
    },
    /// RET
    Ret {
        values: Listing<Source>,
    },
    /// THROW
    Throw {
        exception: Source,
    },
}

/// An instruction that makes an object.
#[derive(Drop)]
pub enum AllocationForm {
    /// NEW
    New {
        class: u32,
    },
    /// NEWHYBRID
    Newhybrid {
        class: u32,
        length_class: u32,
        length: Source,
    },
    /// ALLOCA
    Alloca {
        class: u32,
    },
}

/// An instruction that finds a place in an object.
#[derive(Drop)]
pub enum AddressingForm {
    /// GETIREF
    Getiref {
        class: u32,
        reference: Source,
    },
    /// GETFIELDIREF, with the number of the field
    Getfieldiref {
        class: u32,
        field: usize,
        location: Source,
    },
    /// GETELEMIREF
    Getelemiref {
        class: u32,
        index_class: u32,
        location: Source,
        index: Source,
    },
    /// SHIFTIREF
    Shiftiref {
        class: u32,
        offset_class: u32,
        location: Source,
        offset: Source,
    },
    /// GETVARPARTIREF
    Getvarpartiref {
        class: u32,
        location: Source,
    },
}

/// An instruction that reads or writes memory, or orders such accesses.
#[derive(Drop)]
pub enum AccessForm {
    /// LOAD
    Load {
        order: Order,
        class: u32,
        location: Source,
    },
    /// STORE
    Store {
        order: Order,
        class: u32,
        location: Source,
        value: Source,
    },
    /// CMPXCHG
    Cmpxchg {
        weak: bool,
        success: Order,
        failure: Order,
        class: u32,
        location: Source,
        expected: Source,
        desired: Source,
    },
    /// ATOMICRMW
    Atomicrmw {
        order: Order,
        op: UpdateOp,
        class: u32,
        location: Source,
        operand: Source,
    },
    /// FENCE
    Fence {
        order: Order,
    },
}

/// An instruction that asks the client, or that may be made to. What it gives has these classes.
#[derive(Drop)]
pub enum TrappingForm {
    /// TRAP
    Trap {
        classes: Listing<u32>,
    },
    /// WATCHPOINT; where it goes on when it is enabled is told with its results
    Watchpoint {
        number: u32,
        classes: Listing<u32>,
        disabled: Target,
    },
    /// WPBRANCH
    Wpbranch {
        number: u32,
        disabled: Target,
        enabled: Target,
    },
}

/// An instruction that enters another stack, or starts a thread on one.
#[derive(Drop)]
pub enum SwitchForm {
    /// SWAPSTACK with RET_WITH: the stack that is left waits for values of these classes
    SwapReturning {
        stack: Source,
        classes: Listing<u32>,
        entered: Entered,
    },
    /// SWAPSTACK with KILL_OLD
    SwapKilling {
        stack: Source,
        entered: Entered,
    },
    /// NEWTHREAD
    Newthread {
        stack: Source,
        threadlocal: Option<Source>,
        entered: Entered,
    },
}

/// An instruction under a name.
#[derive(Drop)]
pub enum CommonForm {
    /// `@uvm.new_stack`, with the class of the signature
    NewStack {
        signature: u32,
        function: Source,
    },
    /// `@uvm.kill_stack`
    KillStack {
        stack: Source,
    },
    /// `@uvm.thread_exit`
    ThreadExit,
    /// `@uvm.current_stack`
    CurrentStack,
    /// `@uvm.set_threadlocal`
    SetThreadlocal {
        reference: Source,
    },
    /// `@uvm.get_threadlocal`
    GetThreadlocal,
    /// `@uvm.futex.wait`
    FutexWait {
        class: u32,
        location: Source,
        value: Source,
    },
    /// `@uvm.futex.wake`
    FutexWake {
        class: u32,
        location: Source,
        count: Source,
    },
    /// `@uvm.futex.wait_timeout`
    FutexWaitTimeout {
        class: u32,
        location: Source,
        value: Source,
        limit: Source,
    },
}

/// What an instruction does, by its kind.
#[derive(Drop)]
pub enum Form {
    Computation(ComputationForm),
    Control(ControlForm),
    Allocation(AllocationForm),
    Addressing(AddressingForm),
    Access(AccessForm),
    Trapping(TrappingForm),
    Switch(SwitchForm),
    Common(CommonForm),
}

/// An instruction: its form, and what may stand behind it.
#[derive(Drop)]
pub struct Code {
    pub form: Form,
    /// Where it goes on with its results: the first destination of EXC, and the second of a WATCHPOINT.
    pub normal: Option<Target>,
    /// Where it goes on with an exception: the second destination of EXC, and that of WPEXC.
    pub exceptional: Option<Target>,
    /// The variables of KEEPALIVE.
    pub keepalive: Listing<u32>,
}
