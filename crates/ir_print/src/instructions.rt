// Instructions.
ghost use Rattle.std.specs.Prelude.{◌≡◌, ◌++◌, OnOk};
ghost use Rattle.ir_print.specs.Words.{text};
ghost use Rattle.ir_print.specs.Instructions.{op_words, labelled_words, inst_words};

use crate::accessing::access;
use crate::common::common_inst;
use crate::computing::computation;
use crate::flow::control;
use crate::lists::local_list;
use crate::objects::{addressing, allocation};
use crate::spellings::spelling;
use crate::stacks::{stack_switch, trapping};
use crate::words::{name, put};
use ir_lex::Name;
use ir_tree::{Inst, Op};
use std::alloc::AllocError;
use text_forms::Symbol;

#[tactic(auto, unfolding(crate::specs::Instructions::op_words))]
fn op(out: &mut Vec<u8>, space: &[u8], op: &Op) -> Result<(), AllocError>
    ensures { OnOk result (out.new.items ≡ out.old.items ++ text (op_words space.now op.now)) }
{
    match op {
        Op::Computation(inner) => computation(out, space, inner)?,
        Op::ControlFlow(inner) => control(out, space, inner)?,
        Op::Allocation(inner) => allocation(out, space, inner)?,
        Op::Addressing(inner) => addressing(out, space, inner)?,
        Op::Access(inner) => access(out, space, inner)?,
        Op::Trapping(inner) => trapping(out, space, inner)?,
        Op::StackSwitch(inner) => stack_switch(out, space, inner)?,
        Op::Common(inner) => {
            put(out, space, spelling(Symbol::Comminst))?;
            common_inst(out, inner)?;
        }
    }
    Ok(())
}

#[tactic(auto, unfolding(crate::specs::Instructions::labelled_words))]
fn labelled(
    out: &mut Vec<u8>,
    space: &[u8],
    label: &Option<Name>,
    inner: &Op,
) -> Result<(), AllocError>
    ensures { OnOk result (out.new.items ≡ out.old.items ++ text (labelled_words space.now label.now inner.now)) }
{
    match label {
        None => op(out, space, inner)?,
        Some(label) => {
            put(out, space, b"[")?;
            name(out, b"", label)?;
            out.push(b']')?;
            op(out, b" ", inner)?;
        }
    }
    Ok(())
}

#[tactic(auto, using(crate::specs::Lemmas::Texts::text_append), unfolding(crate::specs::Instructions::results_words))]
pub fn inst(out: &mut Vec<u8>, space: &[u8], inst: &Inst) -> Result<(), AllocError>
    ensures { OnOk result (out.new.items ≡ out.old.items ++ text (inst_words space.now inst.now)) }
{
    match inst.results.as_slice() {
        [] => labelled(out, space, &inst.label, &inst.op)?,
        [result] => {
            name(out, space, result)?;
            out.extend_from_slice(b" =")?;
            labelled(out, b" ", &inst.label, &inst.op)?;
        }
        _ => {
            local_list(out, space, &inst.results)?;
            out.extend_from_slice(b" =")?;
            labelled(out, b" ", &inst.label, &inst.op)?;
        }
    }
    Ok(())
}
