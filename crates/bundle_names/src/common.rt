// Names in instructions behind COMMINST.
ghost use Rattle.demands.specs.Demands.{Meets};
ghost use Rattle.bundle_names.specs.CommonUses.{common_use};

use crate::fault::NameFault;
use crate::function_names::FunctionNames;
use crate::globals::Sort;
use crate::uses::{use_operand, use_signature, use_type};
use ir_tree::CommonInst;
use name_scopes::Scope;

pub fn use_in_common(
    globals: &Scope<Sort>,
    function: &FunctionNames,
    common: &CommonInst,
) -> Result<(), NameFault>
    ensures { Meets (common_use globals.now function.now common.now) result }
{
    match common {
        CommonInst::NewStack {
            signature,
            function: callee,
        } => {
            use_signature(globals, signature)?;
            use_operand(globals, function, callee)
        }
        CommonInst::KillStack { stack } => use_operand(globals, function, stack),
        CommonInst::ThreadExit | CommonInst::CurrentStack | CommonInst::GetThreadlocal => Ok(()),
        CommonInst::SetThreadlocal { reference } => use_operand(globals, function, reference),
        CommonInst::FutexWait {
            of_type,
            location,
            value,
        } => {
            use_type(globals, of_type)?;
            use_operand(globals, function, location)?;
            use_operand(globals, function, value)
        }
        CommonInst::FutexWake {
            of_type,
            location,
            count,
        } => {
            use_type(globals, of_type)?;
            use_operand(globals, function, location)?;
            use_operand(globals, function, count)
        }
        CommonInst::FutexWaitTimeout {
            of_type,
            location,
            value,
            limit,
        } => {
            use_type(globals, of_type)?;
            use_operand(globals, function, location)?;
            use_operand(globals, function, value)?;
            use_operand(globals, function, limit)
        }
    }
}
