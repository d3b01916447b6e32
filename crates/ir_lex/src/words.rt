// Words, directives and names that the grammars tell apart. Words are looked up by their first letter, since a text has many.
ghost use Rattle.std.specs.Prelude.{◌≡◌, ℕ, List, ◌∷◌, map};
ghost use Rattle.ir_lex.specs.WordTable.{look_up, words, directives, common_names};
ghost use Rattle.text_forms.specs.declared.symbol.Symbol.TheVariants.{Other, Global};

use text_forms::Symbol;

/// A spelling and its symbol.
type Row = (&'static [u8], Symbol);

static UPPER_A: [Row; 8] = [
    (b"ADD", Symbol::Add),
    (b"ASHR", Symbol::Ashr),
    (b"AND", Symbol::And),
    (b"ACQUIRE", Symbol::Acquire),
    (b"ACQ_REL", Symbol::AcqRel),
    (b"ALLOCA", Symbol::Alloca),
    (b"ATOMICRMW", Symbol::Atomicrmw),
    (b"ALLOCAHYBRID", Symbol::Allocahybrid),
];

static UPPER_B: [Row; 3] = [
    (b"BRANCH", Symbol::Branch),
    (b"BRANCH2", Symbol::Branch2),
    (b"BITCAST", Symbol::Bitcast),
];

static UPPER_C: [Row; 5] = [
    (b"CONSUME", Symbol::Consume),
    (b"CALL", Symbol::Call),
    (b"CMPXCHG", Symbol::Cmpxchg),
    (b"COMMINST", Symbol::Comminst),
    (b"CCALL", Symbol::Ccall),
];

static UPPER_E: [Row; 4] = [
    (b"EXC", Symbol::Exc),
    (b"EQ", Symbol::Eq),
    (b"EXTRACTVALUE", Symbol::Extractvalue),
    (b"EXTRACTELEMENT", Symbol::Extractelement),
];

static UPPER_F: [Row; 26] = [
    (b"FENCE", Symbol::Fence),
    (b"FADD", Symbol::Fadd),
    (b"FSUB", Symbol::Fsub),
    (b"FMUL", Symbol::Fmul),
    (b"FDIV", Symbol::Fdiv),
    (b"FREM", Symbol::Frem),
    (b"FPTRUNC", Symbol::Fptrunc),
    (b"FPEXT", Symbol::Fpext),
    (b"FPTOUI", Symbol::Fptoui),
    (b"FPTOSI", Symbol::Fptosi),
    (b"FTRUE", Symbol::Ftrue),
    (b"FFALSE", Symbol::Ffalse),
    (b"FUNO", Symbol::Funo),
    (b"FUEQ", Symbol::Fueq),
    (b"FUNE", Symbol::Fune),
    (b"FULT", Symbol::Fult),
    (b"FULE", Symbol::Fule),
    (b"FUGT", Symbol::Fugt),
    (b"FUGE", Symbol::Fuge),
    (b"FORD", Symbol::Ford),
    (b"FOEQ", Symbol::Foeq),
    (b"FONE", Symbol::Fone),
    (b"FOLT", Symbol::Folt),
    (b"FOLE", Symbol::Fole),
    (b"FOGT", Symbol::Fogt),
    (b"FOGE", Symbol::Foge),
];

static UPPER_G: [Row; 4] = [
    (b"GETIREF", Symbol::Getiref),
    (b"GETFIELDIREF", Symbol::Getfieldiref),
    (b"GETELEMIREF", Symbol::Getelemiref),
    (b"GETVARPARTIREF", Symbol::Getvarpartiref),
];

static UPPER_I: [Row; 2] = [
    (b"INSERTVALUE", Symbol::Insertvalue),
    (b"INSERTELEMENT", Symbol::Insertelement),
];

static UPPER_K: [Row; 2] = [
    (b"KEEPALIVE", Symbol::Keepalive),
    (b"KILL_OLD", Symbol::KillOld),
];

static UPPER_L: [Row; 2] = [(b"LSHR", Symbol::Lshr), (b"LOAD", Symbol::Load)];

static UPPER_M: [Row; 3] = [
    (b"MUL", Symbol::Mul),
    (b"MAX", Symbol::Max),
    (b"MIN", Symbol::Min),
];

static UPPER_N: [Row; 7] = [
    (b"NULL", Symbol::Null),
    (b"NE", Symbol::Ne),
    (b"NAND", Symbol::Nand),
    (b"NOT_ATOMIC", Symbol::NotAtomic),
    (b"NEW", Symbol::New),
    (b"NEWHYBRID", Symbol::Newhybrid),
    (b"NEWTHREAD", Symbol::Newthread),
];

static UPPER_O: [Row; 1] = [(b"OR", Symbol::Or)];

static UPPER_P: [Row; 2] = [
    (b"PASS_VALUES", Symbol::PassValues),
    (b"PTRCAST", Symbol::Ptrcast),
];

static UPPER_R: [Row; 5] = [
    (b"RET_WITH", Symbol::RetWith),
    (b"RELAXED", Symbol::Relaxed),
    (b"RELEASE", Symbol::Release),
    (b"REFCAST", Symbol::Refcast),
    (b"RET", Symbol::Ret),
];

static UPPER_S: [Row; 17] = [
    (b"SUB", Symbol::Sub),
    (b"SDIV", Symbol::Sdiv),
    (b"SREM", Symbol::Srem),
    (b"SHL", Symbol::Shl),
    (b"SLT", Symbol::Slt),
    (b"SLE", Symbol::Sle),
    (b"SGT", Symbol::Sgt),
    (b"SGE", Symbol::Sge),
    (b"SEQ_CST", Symbol::SeqCst),
    (b"SEXT", Symbol::Sext),
    (b"SELECT", Symbol::Select),
    (b"SWITCH", Symbol::Switch),
    (b"SHIFTIREF", Symbol::Shiftiref),
    (b"STORE", Symbol::Store),
    (b"SWAPSTACK", Symbol::Swapstack),
    (b"SHUFFLEVECTOR", Symbol::Shufflevector),
    (b"SITOFP", Symbol::Sitofp),
];

static UPPER_T: [Row; 6] = [
    (b"THROW_EXC", Symbol::ThrowExc),
    (b"THREADLOCAL", Symbol::Threadlocal),
    (b"TRUNC", Symbol::Trunc),
    (b"TAILCALL", Symbol::Tailcall),
    (b"THROW", Symbol::Throw),
    (b"TRAP", Symbol::Trap),
];

static UPPER_U: [Row; 9] = [
    (b"UDIV", Symbol::Udiv),
    (b"UREM", Symbol::Urem),
    (b"ULT", Symbol::Ult),
    (b"ULE", Symbol::Ule),
    (b"UGT", Symbol::Ugt),
    (b"UGE", Symbol::Uge),
    (b"UMAX", Symbol::Umax),
    (b"UMIN", Symbol::Umin),
    (b"UITOFP", Symbol::Uitofp),
];

static UPPER_V: [Row; 1] = [(b"VERSION", Symbol::Version)];

static UPPER_W: [Row; 4] = [
    (b"WPEXC", Symbol::Wpexc),
    (b"WEAK", Symbol::Weak),
    (b"WATCHPOINT", Symbol::Watchpoint),
    (b"WPBRANCH", Symbol::Wpbranch),
];

static UPPER_X: [Row; 2] = [(b"XOR", Symbol::Xor), (b"XCHG", Symbol::Xchg)];

static UPPER_Z: [Row; 1] = [(b"ZEXT", Symbol::Zext)];

static LOWER_A: [Row; 1] = [(b"array", Symbol::Array)];

static LOWER_D: [Row; 1] = [(b"double", Symbol::Double)];

static LOWER_E: [Row; 1] = [(b"exit", Symbol::Exit)];

static LOWER_F: [Row; 4] = [
    (b"funcref", Symbol::Funcref),
    (b"float", Symbol::Float),
    (b"framecursorref", Symbol::Framecursorref),
    (b"frames", Symbol::Frames),
];

static LOWER_H: [Row; 1] = [(b"hybrid", Symbol::Hybrid)];

static LOWER_I: [Row; 3] = [
    (b"int", Symbol::Int),
    (b"iref", Symbol::Iref),
    (b"irbuilderref", Symbol::Irbuilderref),
];

static LOWER_K: [Row; 1] = [(b"kept", Symbol::Kept)];

static LOWER_P: [Row; 3] = [
    (b"pass", Symbol::Pass),
    (b"pop", Symbol::Pop),
    (b"push", Symbol::Push),
];

static LOWER_R: [Row; 2] = [(b"ref", Symbol::Ref), (b"rebind", Symbol::Rebind)];

static LOWER_S: [Row; 3] = [
    (b"struct", Symbol::Struct),
    (b"stackref", Symbol::Stackref),
    (b"stop", Symbol::Stop),
];

static LOWER_T: [Row; 3] = [
    (b"threadref", Symbol::Threadref),
    (b"tagref64", Symbol::Tagref64),
    (b"throw", Symbol::ThrowReply),
];

static LOWER_U: [Row; 3] = [
    (b"uptr", Symbol::Uptr),
    (b"ufuncptr", Symbol::Ufuncptr),
    (b"unwatch", Symbol::Unwatch),
];

static LOWER_V: [Row; 2] = [(b"void", Symbol::Void), (b"vector", Symbol::Vector)];

static LOWER_W: [Row; 2] = [(b"weakref", Symbol::Weakref), (b"watch", Symbol::Watch)];

static DIRECTIVES: [Row; 10] = [
    (b".typedef", Symbol::DotTypedef),
    (b".funcsig", Symbol::DotFuncsig),
    (b".const", Symbol::DotConst),
    (b".global", Symbol::DotGlobal),
    (b".funcdecl", Symbol::DotFuncdecl),
    (b".funcdef", Symbol::DotFuncdef),
    (b".expose", Symbol::DotExpose),
    (b".new", Symbol::DotNew),
    (b".newhybrid", Symbol::DotNewhybrid),
    (b".init", Symbol::DotInit),
];

static COMMON_NAMES: [Row; 9] = [
    (b"@uvm.new_stack", Symbol::UvmNewStack),
    (b"@uvm.kill_stack", Symbol::UvmKillStack),
    (b"@uvm.thread_exit", Symbol::UvmThreadExit),
    (b"@uvm.current_stack", Symbol::UvmCurrentStack),
    (b"@uvm.set_threadlocal", Symbol::UvmSetThreadlocal),
    (b"@uvm.get_threadlocal", Symbol::UvmGetThreadlocal),
    (b"@uvm.futex.wait", Symbol::UvmFutexWait),
    (b"@uvm.futex.wake", Symbol::UvmFutexWake),
    (b"@uvm.futex.wait_timeout", Symbol::UvmFutexWaitTimeout),
];

/// The symbol of the first row with that spelling, or the other one.
fn look_up(mut rows: &[Row], word: &[u8], other: Symbol) -> Symbol
    ensures { result ≡ look_up other (map (λ r. (r.0.now, r.1)) rows.entry.now) word.now }
{
    while let [row, rest @ ..] = rows {
        if word == row.0 {
            return row.1;
        }
        rows = rest;
    }
    other
}

/// Rows that hold each word which begins with that letter.
#[tactic(auto, unfolding(crate::specs::WordTable::words))]
fn words_from(first: u8) -> &'static [Row]
    ensures { (rest : List ℕ) → look_up Other (map (λ r. (r.0.now, r.1)) result.now) (first ∷ rest) ≡ look_up Other words (first ∷ rest) }
{
    match first {
        b'A' => &UPPER_A,
        b'B' => &UPPER_B,
        b'C' => &UPPER_C,
        b'E' => &UPPER_E,
        b'F' => &UPPER_F,
        b'G' => &UPPER_G,
        b'I' => &UPPER_I,
        b'K' => &UPPER_K,
        b'L' => &UPPER_L,
        b'M' => &UPPER_M,
        b'N' => &UPPER_N,
        b'O' => &UPPER_O,
        b'P' => &UPPER_P,
        b'R' => &UPPER_R,
        b'S' => &UPPER_S,
        b'T' => &UPPER_T,
        b'U' => &UPPER_U,
        b'V' => &UPPER_V,
        b'W' => &UPPER_W,
        b'X' => &UPPER_X,
        b'Z' => &UPPER_Z,
        b'a' => &LOWER_A,
        b'd' => &LOWER_D,
        b'e' => &LOWER_E,
        b'f' => &LOWER_F,
        b'h' => &LOWER_H,
        b'i' => &LOWER_I,
        b'k' => &LOWER_K,
        b'p' => &LOWER_P,
        b'r' => &LOWER_R,
        b's' => &LOWER_S,
        b't' => &LOWER_T,
        b'u' => &LOWER_U,
        b'v' => &LOWER_V,
        b'w' => &LOWER_W,
        _ => &[],
    }
}

/// The symbol of a word.
#[tactic(auto, unfolding(crate::specs::WordTable::words))]
pub(crate) fn word(word: &[u8]) -> Symbol
    ensures { result ≡ look_up Other words word.now }
{
    match word {
        [] => Symbol::Other,
        [first, ..] => look_up(words_from(*first), word, Symbol::Other),
    }
}

/// The symbol of a directive.
#[tactic(auto, unfolding(crate::specs::WordTable::directives))]
pub(crate) fn directive(word: &[u8]) -> Symbol
    ensures { result ≡ look_up Other directives word.now }
{
    look_up(&DIRECTIVES, word, Symbol::Other)
}

/// Rows that hold each common name with that byte behind its sigil `@`, which is 64. Most global names have another one.
#[tactic(auto, unfolding(crate::specs::WordTable::common_names))]
fn names_from(second: u8) -> &'static [Row]
    ensures { (rest : List ℕ) → look_up Global (map (λ r. (r.0.now, r.1)) result.now) (64 ∷ second ∷ rest) ≡ look_up Global common_names (64 ∷ second ∷ rest) }
{
    match second {
        b'u' => &COMMON_NAMES,
        _ => &[],
    }
}

/// The symbol of a global name.
#[tactic(auto, unfolding(crate::specs::WordTable::common_names))]
pub(crate) fn global(word: &[u8]) -> Symbol
    ensures { result ≡ look_up Global common_names word.now }
{
    match word {
        [b'@', second, ..] => look_up(names_from(*second), word, Symbol::Global),
        _ => look_up(&COMMON_NAMES, word, Symbol::Global),
    }
}
