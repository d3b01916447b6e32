//! The kinds of instructions, each by its words.
ghost use Rattle.std.specs.Prelude.{◌≡◌};
ghost use Rattle.text_forms.specs.Tokens.{has};
ghost use Rattle.text_forms.specs.Begins.{begins};
ghost use Rattle.ir_tree.specs.Instructions.{labelled};
ghost use Rattle.ir_text.specs.OpKinds.{op_kind};

use text_forms::Symbol;

/// The kind of an instruction, by what it does.
#[derive(Clone, Copy)]
pub enum OpKind {
    /// It computes a value from values.
    Computation,
    /// It says where the function goes on.
    ControlFlow,
    /// It makes an object.
    Allocation,
    /// It finds a place in an object.
    Addressing,
    /// It reads or writes memory, or orders such accesses.
    Access,
    /// It asks the client.
    Trapping,
    /// It goes from one stack to another.
    StackSwitch,
    /// It is a common instruction.
    Common,
}

/// The kind of the instructions that this word begins. A word that the profile leaves out begins none.
#[tactic(auto, unfolding(crate::specs::OpKinds::op_kind))]
pub fn op_kind(symbol: Symbol) -> Option<OpKind>
    ensures { result ≡ op_kind symbol }
{
    match symbol {
        Symbol::Add
        | Symbol::Sub
        | Symbol::Mul
        | Symbol::Sdiv
        | Symbol::Srem
        | Symbol::Udiv
        | Symbol::Urem
        | Symbol::Shl
        | Symbol::Lshr
        | Symbol::Ashr
        | Symbol::And
        | Symbol::Or
        | Symbol::Xor
        | Symbol::Eq
        | Symbol::Ne
        | Symbol::Slt
        | Symbol::Sle
        | Symbol::Sgt
        | Symbol::Sge
        | Symbol::Ult
        | Symbol::Ule
        | Symbol::Ugt
        | Symbol::Uge
        | Symbol::Trunc
        | Symbol::Zext
        | Symbol::Sext
        | Symbol::Refcast
        | Symbol::Select
        | Symbol::Extractvalue
        | Symbol::Insertvalue => Some(OpKind::Computation),
        Symbol::Branch
        | Symbol::Branch2
        | Symbol::Switch
        | Symbol::Call
        | Symbol::Tailcall
        | Symbol::Ret
        | Symbol::Throw => Some(OpKind::ControlFlow),
        Symbol::New | Symbol::Newhybrid | Symbol::Alloca => Some(OpKind::Allocation),
        Symbol::Getiref
        | Symbol::Getfieldiref
        | Symbol::Getelemiref
        | Symbol::Shiftiref
        | Symbol::Getvarpartiref => Some(OpKind::Addressing),
        Symbol::Load | Symbol::Store | Symbol::Cmpxchg | Symbol::Atomicrmw | Symbol::Fence => Some(
            OpKind::Access,
        ),
        Symbol::Trap | Symbol::Watchpoint | Symbol::Wpbranch => Some(OpKind::Trapping),
        Symbol::Swapstack | Symbol::Newthread => Some(OpKind::StackSwitch),
        Symbol::Comminst => Some(OpKind::Common),
        _ => None,
    }
}

/// Whether an instruction without results begins with this symbol.
pub fn begins_instruction(symbol: Symbol) -> bool
    ensures { result ≡ has (begins labelled) symbol }
{
    symbol == Symbol::SquareOpen || op_kind(symbol).is_some()
}
