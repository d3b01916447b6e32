//! One instruction: its label, and what it does. Results are read before it, by whoever reads a function's body.
ghost use Rattle.text_forms.specs.declared.symbol.Symbol.TheVariants as symbols;
ghost use Rattle.text_forms.specs.Forms.{both};
ghost use Rattle.text_forms.specs.Reading.{read};
ghost use Rattle.text_forms.specs.Answers.{Gives};
ghost use Rattle.ir_lex.specs.TokenForms.{mark};
ghost use Rattle.ir_tree.specs.Instructions.{op, label, labelled};
ghost use Rattle.ir_tree.specs.CommonForms.{common_inst};
ghost use Rattle.ir_text.specs.OpKinds.{of_kind};

use crate::accesses::access;
use crate::common::common_inst;
use crate::computing::computation;
use crate::flow::control;
use crate::kinds::{OpKind, op_kind};
use crate::lists::local;
use crate::objects::{addressing_form, allocation};
use crate::stacks::{stack_switch, trapping_form};
use ir_lex::{Cursor, Name};
use ir_tree::{CommonInst, Inst, Op};
use std::alloc::Global;
use text_forms::{Listing, ReadError, Symbol};

/// The words of instructions that the profile leaves out.
const LEFT_OUT: [Symbol; 34] = [
    Symbol::Ccall,
    Symbol::Allocahybrid,
    Symbol::Extractelement,
    Symbol::Insertelement,
    Symbol::Shufflevector,
    Symbol::Fadd,
    Symbol::Fsub,
    Symbol::Fmul,
    Symbol::Fdiv,
    Symbol::Frem,
    Symbol::Fptrunc,
    Symbol::Fpext,
    Symbol::Fptoui,
    Symbol::Fptosi,
    Symbol::Uitofp,
    Symbol::Sitofp,
    Symbol::Bitcast,
    Symbol::Ptrcast,
    Symbol::Ftrue,
    Symbol::Ffalse,
    Symbol::Funo,
    Symbol::Fueq,
    Symbol::Fune,
    Symbol::Fult,
    Symbol::Fule,
    Symbol::Fugt,
    Symbol::Fuge,
    Symbol::Ford,
    Symbol::Foeq,
    Symbol::Fone,
    Symbol::Folt,
    Symbol::Fole,
    Symbol::Fogt,
    Symbol::Foge,
];

/// `COMMINST` and a common instruction
fn common(cursor: &mut Cursor, alloc: Global) -> Result<(usize, CommonInst), ReadError>
    ensures { Gives result cursor.new (read (both (mark symbols.Comminst) common_inst) cursor.old) }
{
    let place = cursor.mark(Symbol::Comminst)?;
    let inst = common_inst(cursor, alloc)?;
    Ok((place, inst))
}

/// What an instruction of this kind does, with the place of its word.
fn op_of_kind(cursor: &mut Cursor, alloc: Global, kind: OpKind) -> Result<(usize, Op), ReadError>
    ensures { Gives result cursor.new (read (of_kind kind) cursor.old) }
{
    match kind {
        OpKind::Computation => {
            let (place, op) = computation(cursor, alloc)?;
            Ok((place, Op::Computation(op)))
        }
        OpKind::ControlFlow => {
            let (place, op) = control(cursor, alloc)?;
            Ok((place, Op::ControlFlow(op)))
        }
        OpKind::Allocation => {
            let (place, op) = allocation(cursor, alloc)?;
            Ok((place, Op::Allocation(op)))
        }
        OpKind::Addressing => {
            let (place, op) = addressing_form(cursor, alloc)?;
            Ok((place, Op::Addressing(op)))
        }
        OpKind::Access => {
            let (place, op) = access(cursor, alloc)?;
            Ok((place, Op::Access(op)))
        }
        OpKind::Trapping => {
            let (place, op) = trapping_form(cursor, alloc)?;
            Ok((place, Op::Trapping(op)))
        }
        OpKind::StackSwitch => {
            let (place, op) = stack_switch(cursor, alloc)?;
            Ok((place, Op::StackSwitch(op)))
        }
        OpKind::Common => {
            let (place, op) = common(cursor, alloc)?;
            Ok((place, Op::Common(op)))
        }
    }
}

/// What an instruction does, with the place of its word. At a word that the profile leaves out the fault is `NotInProfile`.
pub fn op(cursor: &mut Cursor, alloc: Global) -> Result<(usize, Op), ReadError>
    ensures { Gives result cursor.new (read op cursor.old) }
{
    match op_kind(cursor.symbol()) {
        Some(kind) => op_of_kind(cursor, alloc, kind),
        None => Err(ReadError::Fault(cursor.refusal(&LEFT_OUT))),
    }
}

/// `[ L ]`, with the place where it begins
#[tactic(auto, unfolding(ir_tree::specs::Instructions::label))]
pub fn label(cursor: &mut Cursor, alloc: Global) -> Result<(usize, Name), ReadError>
    ensures { Gives result cursor.new (read label cursor.old) }
{
    let place = cursor.mark(Symbol::SquareOpen)?;
    let name = local(cursor, alloc)?;
    cursor.mark(Symbol::SquareClose)?;
    Ok((place, name))
}

/// `label? op`, as an instruction without results. Its place is that of its bracket, or else of its word.
#[tactic(auto, unfolding(ir_tree::specs::Instructions::labelled))]
pub fn labelled(cursor: &mut Cursor, alloc: Global) -> Result<Inst, ReadError>
    ensures { Gives result cursor.new (read labelled cursor.old) }
{
    if cursor.at(Symbol::SquareOpen) {
        let (place, label) = label(cursor, alloc)?;
        let (_, op) = op(cursor, alloc)?;
        return Ok(Inst {
            place,
            results: Listing::new(alloc),
            label: Some(label),
            op,
        });
    }
    let (place, op) = op(cursor, alloc)?;
    Ok(Inst {
        place,
        results: Listing::new(alloc),
        label: None,
        op,
    })
}
