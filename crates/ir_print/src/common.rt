// Common instructions: those that stand under names.
ghost use Rattle.std.specs.Prelude.{◌≡◌, ◌++◌, OnOk};
ghost use Rattle.ir_print.specs.Words.{text};
ghost use Rattle.ir_print.specs.CommonForms.{one_value_words, two_values_words, three_values_words, common_inst_words};

use crate::lists::{bracketed, value};
use crate::spellings::spelling;
use crate::words::{name, put};
use ir_tree::{CommonInst, Operand};
use std::alloc::AllocError;
use text_forms::Symbol;

#[tactic(auto, using(crate::specs::Lemmas::Texts::text_append), unfolding(crate::specs::CommonForms::one_value_words))]
fn one_value(out: &mut Vec<u8>, space: &[u8], operand: &Operand) -> Result<(), AllocError>
    ensures { OnOk result (out.new.items ≡ out.old.items ++ text (one_value_words space.now operand.now)) }
{
    put(out, space, b"(")?;
    value(out, b"", operand)?;
    out.push(b')')?;
    Ok(())
}

#[tactic(auto, using(crate::specs::Lemmas::Texts::text_append), unfolding(crate::specs::CommonForms::two_values_words))]
fn two_values(
    out: &mut Vec<u8>,
    space: &[u8],
    first: &Operand,
    second: &Operand,
) -> Result<(), AllocError>
    ensures { OnOk result (out.new.items ≡ out.old.items ++ text (two_values_words space.now first.now second.now)) }
{
    put(out, space, b"(")?;
    value(out, b"", first)?;
    value(out, b" ", second)?;
    out.push(b')')?;
    Ok(())
}

#[tactic(auto, using(crate::specs::Lemmas::Texts::text_append), unfolding(crate::specs::CommonForms::three_values_words))]
fn three_values(
    out: &mut Vec<u8>,
    space: &[u8],
    first: &Operand,
    second: &Operand,
    third: &Operand,
) -> Result<(), AllocError>
    ensures { OnOk result (out.new.items ≡ out.old.items ++ text (three_values_words space.now first.now second.now third.now)) }
{
    put(out, space, b"(")?;
    value(out, b"", first)?;
    value(out, b" ", second)?;
    value(out, b" ", third)?;
    out.push(b')')?;
    Ok(())
}

/// Appends what stands behind `COMMINST`.
#[tactic(auto, using(crate::specs::Lemmas::Texts::text_append), unfolding(crate::specs::CommonForms::common_inst_words))]
pub fn common_inst(out: &mut Vec<u8>, inst: &CommonInst) -> Result<(), AllocError>
    ensures { OnOk result (out.new.items ≡ out.old.items ++ text (common_inst_words inst.now)) }
{
    match inst {
        CommonInst::NewStack {
            signature,
            function,
        } => {
            put(out, b" ", spelling(Symbol::UvmNewStack))?;
            out.extend_from_slice(b" <[")?;
            name(out, b"", signature)?;
            out.extend_from_slice(b"]>")?;
            one_value(out, b" ", function)?;
        }
        CommonInst::KillStack { stack } => {
            put(out, b" ", spelling(Symbol::UvmKillStack))?;
            one_value(out, b" ", stack)?;
        }
        CommonInst::ThreadExit => {
            put(out, b" ", spelling(Symbol::UvmThreadExit))?;
            out.extend_from_slice(b" ()")?;
        }
        CommonInst::CurrentStack => {
            put(out, b" ", spelling(Symbol::UvmCurrentStack))?;
            out.extend_from_slice(b" ()")?;
        }
        CommonInst::SetThreadlocal { reference } => {
            put(out, b" ", spelling(Symbol::UvmSetThreadlocal))?;
            one_value(out, b" ", reference)?;
        }
        CommonInst::GetThreadlocal => {
            put(out, b" ", spelling(Symbol::UvmGetThreadlocal))?;
            out.extend_from_slice(b" ()")?;
        }
        CommonInst::FutexWait {
            of_type,
            location,
            value: expected,
        } => {
            put(out, b" ", spelling(Symbol::UvmFutexWait))?;
            bracketed(out, b" ", of_type)?;
            two_values(out, b" ", location, expected)?;
        }
        CommonInst::FutexWake {
            of_type,
            location,
            count,
        } => {
            put(out, b" ", spelling(Symbol::UvmFutexWake))?;
            bracketed(out, b" ", of_type)?;
            two_values(out, b" ", location, count)?;
        }
        CommonInst::FutexWaitTimeout {
            of_type,
            location,
            value: expected,
            limit,
        } => {
            put(out, b" ", spelling(Symbol::UvmFutexWaitTimeout))?;
            bracketed(out, b" ", of_type)?;
            three_values(out, b" ", location, expected, limit)?;
        }
    }
    Ok(())
}
