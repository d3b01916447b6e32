//! What a token is to the grammars.

ghost use Rattle.std.specs.Prelude.{◌≡◌};
ghost use Rattle.text_forms.specs.Tokens.{is_last, kind_of};

use crate::fault::FaultKind;

/// What a token is to the grammars of bundles, HAIL, client scripts and logs: the end of the text or a lexical fault,
/// a kind of name, a number, a mark, or one of the words and directives that some grammar has.
#[derive(Clone, Copy, Debug, PartialEq, Eq)]
pub enum Symbol {
    // the end of a text, and the four lexical faults: nothing stands behind them
    /// The end of a text
    End,
    /// A byte that begins no token, or a number in none of the spellings
    BadByte,
    /// A sigil or a `.` that begins no name
    BadName,
    /// A number of 2^128 or more
    NumberTooLarge,
    /// A token of more than 65,536 bytes
    TooLong,

    // names and numbers
    /// `@name`, where it is none of the listed `@uvm.` names
    Global,
    /// `%name`
    Local,
    /// `$name`
    Object,
    /// A number
    Number,

    // marks
    /// `(`
    Open,
    /// `)`
    Close,
    /// `{`
    BraceOpen,
    /// `}`
    BraceClose,
    /// `<`
    Less,
    /// `>`
    Greater,
    /// `[`
    SquareOpen,
    /// `]`
    SquareClose,
    /// `=`
    Equals,
    /// `:`
    Colon,
    /// `&`
    Ampersand,
    /// `->`
    Arrow,

    // directives
    /// `.typedef`
    DotTypedef,
    /// `.funcsig`
    DotFuncsig,
    /// `.const`
    DotConst,
    /// `.global`
    DotGlobal,
    /// `.funcdecl`
    DotFuncdecl,
    /// `.funcdef`
    DotFuncdef,
    /// `.expose`, which the profile leaves out
    DotExpose,
    /// `.new`
    DotNew,
    /// `.newhybrid`
    DotNewhybrid,
    /// `.init`
    DotInit,

    // words of types
    /// `int`
    Int,
    /// `struct`
    Struct,
    /// `array`
    Array,
    /// `hybrid`
    Hybrid,
    /// `void`
    Void,
    /// `ref`
    Ref,
    /// `iref`
    Iref,
    /// `funcref`
    Funcref,
    /// `stackref`
    Stackref,
    /// `threadref`
    Threadref,

    // words of types that the profile leaves out
    /// `float`
    Float,
    /// `double`
    Double,
    /// `vector`
    Vector,
    /// `weakref`
    Weakref,
    /// `uptr`
    Uptr,
    /// `ufuncptr`
    Ufuncptr,
    /// `tagref64`
    Tagref64,
    /// `framecursorref`
    Framecursorref,
    /// `irbuilderref`
    Irbuilderref,

    // words of the parts of items and instructions
    /// `VERSION`
    Version,
    /// `NULL`
    Null,
    /// `EXC`
    Exc,
    /// `KEEPALIVE`
    Keepalive,
    /// `PASS_VALUES`
    PassValues,
    /// `THROW_EXC`
    ThrowExc,
    /// `RET_WITH`
    RetWith,
    /// `KILL_OLD`
    KillOld,
    /// `THREADLOCAL`
    Threadlocal,
    /// `WPEXC`
    Wpexc,
    /// `WEAK`
    Weak,

    // binary operations
    /// `ADD`
    Add,
    /// `SUB`
    Sub,
    /// `MUL`
    Mul,
    /// `SDIV`
    Sdiv,
    /// `SREM`
    Srem,
    /// `UDIV`
    Udiv,
    /// `UREM`
    Urem,
    /// `SHL`
    Shl,
    /// `LSHR`
    Lshr,
    /// `ASHR`
    Ashr,
    /// `AND`
    And,
    /// `OR`
    Or,
    /// `XOR`
    Xor,

    // comparisons
    /// `EQ`
    Eq,
    /// `NE`
    Ne,
    /// `SLT`
    Slt,
    /// `SLE`
    Sle,
    /// `SGT`
    Sgt,
    /// `SGE`
    Sge,
    /// `ULT`
    Ult,
    /// `ULE`
    Ule,
    /// `UGT`
    Ugt,
    /// `UGE`
    Uge,

    // operations of an atomic update, beside ADD, SUB, AND, OR and XOR
    /// `XCHG`
    Xchg,
    /// `NAND`
    Nand,
    /// `MAX`
    Max,
    /// `MIN`
    Min,
    /// `UMAX`
    Umax,
    /// `UMIN`
    Umin,

    // memory orders
    /// `NOT_ATOMIC`
    NotAtomic,
    /// `RELAXED`
    Relaxed,
    /// `CONSUME`
    Consume,
    /// `ACQUIRE`
    Acquire,
    /// `RELEASE`
    Release,
    /// `ACQ_REL`
    AcqRel,
    /// `SEQ_CST`
    SeqCst,

    // words of other instructions
    /// `TRUNC`
    Trunc,
    /// `ZEXT`
    Zext,
    /// `SEXT`
    Sext,
    /// `REFCAST`
    Refcast,
    /// `SELECT`
    Select,
    /// `EXTRACTVALUE`
    Extractvalue,
    /// `INSERTVALUE`
    Insertvalue,
    /// `BRANCH`
    Branch,
    /// `BRANCH2`
    Branch2,
    /// `SWITCH`
    Switch,
    /// `CALL`
    Call,
    /// `TAILCALL`
    Tailcall,
    /// `RET`
    Ret,
    /// `THROW`
    Throw,
    /// `NEW`
    New,
    /// `NEWHYBRID`
    Newhybrid,
    /// `ALLOCA`
    Alloca,
    /// `GETIREF`
    Getiref,
    /// `GETFIELDIREF`
    Getfieldiref,
    /// `GETELEMIREF`
    Getelemiref,
    /// `SHIFTIREF`
    Shiftiref,
    /// `GETVARPARTIREF`
    Getvarpartiref,
    /// `LOAD`
    Load,
    /// `STORE`
    Store,
    /// `CMPXCHG`
    Cmpxchg,
    /// `ATOMICRMW`
    Atomicrmw,
    /// `FENCE`
    Fence,
    /// `TRAP`
    Trap,
    /// `WATCHPOINT`
    Watchpoint,
    /// `WPBRANCH`
    Wpbranch,
    /// `SWAPSTACK`
    Swapstack,
    /// `NEWTHREAD`
    Newthread,
    /// `COMMINST`
    Comminst,

    // words of instructions that the profile leaves out
    /// `CCALL`
    Ccall,
    /// `ALLOCAHYBRID`
    Allocahybrid,
    /// `EXTRACTELEMENT`
    Extractelement,
    /// `INSERTELEMENT`
    Insertelement,
    /// `SHUFFLEVECTOR`
    Shufflevector,
    /// `FADD`
    Fadd,
    /// `FSUB`
    Fsub,
    /// `FMUL`
    Fmul,
    /// `FDIV`
    Fdiv,
    /// `FREM`
    Frem,
    /// `FPTRUNC`
    Fptrunc,
    /// `FPEXT`
    Fpext,
    /// `FPTOUI`
    Fptoui,
    /// `FPTOSI`
    Fptosi,
    /// `UITOFP`
    Uitofp,
    /// `SITOFP`
    Sitofp,
    /// `BITCAST`
    Bitcast,
    /// `PTRCAST`
    Ptrcast,
    /// `FTRUE`
    Ftrue,
    /// `FFALSE`
    Ffalse,
    /// `FUNO`
    Funo,
    /// `FUEQ`
    Fueq,
    /// `FUNE`
    Fune,
    /// `FULT`
    Fult,
    /// `FULE`
    Fule,
    /// `FUGT`
    Fugt,
    /// `FUGE`
    Fuge,
    /// `FORD`
    Ford,
    /// `FOEQ`
    Foeq,
    /// `FONE`
    Fone,
    /// `FOLT`
    Folt,
    /// `FOLE`
    Fole,
    /// `FOGT`
    Fogt,
    /// `FOGE`
    Foge,

    // global names of common instructions
    /// `@uvm.new_stack`
    UvmNewStack,
    /// `@uvm.kill_stack`
    UvmKillStack,
    /// `@uvm.thread_exit`
    UvmThreadExit,
    /// `@uvm.current_stack`
    UvmCurrentStack,
    /// `@uvm.set_threadlocal`
    UvmSetThreadlocal,
    /// `@uvm.get_threadlocal`
    UvmGetThreadlocal,
    /// `@uvm.futex.wait`
    UvmFutexWait,
    /// `@uvm.futex.wake`
    UvmFutexWake,
    /// `@uvm.futex.wait_timeout`
    UvmFutexWaitTimeout,

    // words of client scripts
    /// `frames`
    Frames,
    /// `kept`
    Kept,
    /// `watch`
    Watch,
    /// `unwatch`
    Unwatch,
    /// `rebind`
    Rebind,
    /// `exit`
    Exit,
    /// `stop`
    Stop,
    /// `pass`
    Pass,
    /// `throw`, in lower case
    ThrowReply,
    /// `pop`
    Pop,
    /// `push`
    Push,

    // anything else
    /// A directive or a word that no grammar has
    Other,
}

impl Symbol {
    /// Whether nothing stands behind this one: it is the end, or a lexical fault.
    pub fn is_last(self) -> bool
        ensures { result ≡ is_last self }
    {
        matches!(
            self,
            Symbol::End
                | Symbol::BadByte
                | Symbol::BadName
                | Symbol::NumberTooLarge
                | Symbol::TooLong
        )
    }

    /// The kind of fault where a text does not go on with this one.
    pub fn fault_kind(self) -> FaultKind
        ensures { result ≡ kind_of self }
    {
        match self {
            Symbol::BadByte => FaultKind::BadByte,
            Symbol::BadName => FaultKind::BadName,
            Symbol::NumberTooLarge => FaultKind::NumberTooLarge,
            Symbol::TooLong => FaultKind::TooLong,
            _ => FaultKind::Unexpected,
        }
    }
}
