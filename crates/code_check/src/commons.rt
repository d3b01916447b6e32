// Instructions under names.
ghost use Rattle.std.specs.Prelude.{◌≡◌};
ghost use Rattle.demands.specs.Demands.{Judges};
ghost use Rattle.ir_tree.specs.declared.common.CommonInst.TheVariants as commons;
ghost use Rattle.code_check.specs.Gifts.{listed};
ghost use Rattle.checked_code.specs.Commons.{common_demands, common_gives, common_code};

use crate::gifts::Gift;
use crate::objects::place_of_type;
use crate::operands::{int_type, int64_operand, of_type, operand};
use crate::stacks::stack;
use check_tables::{CheckFault, CheckKind, Tables};
use checked_code::{CommonForm, Locals};
use ir_lex::Name;
use ir_tree::{CommonInst, Operand};

/// `@uvm.new_stack`
fn new_stack(
    tables: &Tables,
    locals: &Locals,
    signature: &Name,
    function: &Operand,
) -> Result<CommonForm, CheckFault>
    ensures { Judges (common_demands tables.now locals.now (commons.NewStack signature.now function.now)) (common_code tables.now locals.now (commons.NewStack signature.now function.now)) result }
{
    let wanted = tables.funcref_named(signature);
    Ok(CommonForm::NewStack {
        signature: tables.noted_signature(signature),
        function: operand(tables, locals, CheckKind::OperandType, function, wanted)?,
    })
}

/// `@uvm.set_threadlocal`
fn set_threadlocal(
    tables: &Tables,
    locals: &Locals,
    reference: &Operand,
) -> Result<CommonForm, CheckFault>
    ensures { Judges (common_demands tables.now locals.now (commons.SetThreadlocal reference.now)) (common_code tables.now locals.now (commons.SetThreadlocal reference.now)) result }
{
    let wanted = Some(tables.types.ref_void());
    let reference = operand(tables, locals, CheckKind::OperandType, reference, wanted)?;
    Ok(CommonForm::SetThreadlocal { reference })
}

/// `@uvm.futex.wait`
fn futex_wait(
    tables: &Tables,
    locals: &Locals,
    name: &Name,
    location: &Operand,
    value: &Operand,
) -> Result<CommonForm, CheckFault>
    ensures { Judges (common_demands tables.now locals.now (commons.FutexWait name.now location.now value.now)) (common_code tables.now locals.now (commons.FutexWait name.now location.now value.now)) result }
{
    let class = int_type(tables, name)?;
    let location = place_of_type(tables, locals, location, name)?;
    let value = of_type(tables, locals, value, name)?;
    Ok(CommonForm::FutexWait {
        class,
        location,
        value,
    })
}

/// `@uvm.futex.wake`
fn futex_wake(
    tables: &Tables,
    locals: &Locals,
    name: &Name,
    location: &Operand,
    count: &Operand,
) -> Result<CommonForm, CheckFault>
    ensures { Judges (common_demands tables.now locals.now (commons.FutexWake name.now location.now count.now)) (common_code tables.now locals.now (commons.FutexWake name.now location.now count.now)) result }
{
    let class = int_type(tables, name)?;
    let location = place_of_type(tables, locals, location, name)?;
    let wanted = Some(tables.types.int32());
    let count = operand(tables, locals, CheckKind::OperandType, count, wanted)?;
    Ok(CommonForm::FutexWake {
        class,
        location,
        count,
    })
}

/// `@uvm.futex.wait_timeout`
fn futex_wait_timeout(
    tables: &Tables,
    locals: &Locals,
    name: &Name,
    location: &Operand,
    value: &Operand,
    limit: &Operand,
) -> Result<CommonForm, CheckFault>
    ensures { Judges (common_demands tables.now locals.now (commons.FutexWaitTimeout name.now location.now value.now limit.now)) (common_code tables.now locals.now (commons.FutexWaitTimeout name.now location.now value.now limit.now)) result }
{
    let class = int_type(tables, name)?;
    let location = place_of_type(tables, locals, location, name)?;
    let value = of_type(tables, locals, value, name)?;
    let limit = int64_operand(tables, locals, limit)?;
    Ok(CommonForm::FutexWaitTimeout {
        class,
        location,
        value,
        limit,
    })
}

/// An instruction under a name.
pub fn common(
    tables: &Tables,
    locals: &Locals,
    common: &CommonInst,
) -> Result<CommonForm, CheckFault>
    ensures { Judges (common_demands tables.now locals.now common.now) (common_code tables.now locals.now common.now) result }
{
    match common {
        CommonInst::NewStack {
            signature,
            function,
        } => new_stack(tables, locals, signature, function),
        CommonInst::KillStack { stack: given } => Ok(CommonForm::KillStack {
            stack: stack(tables, locals, given)?,
        }),
        CommonInst::ThreadExit => Ok(CommonForm::ThreadExit),
        CommonInst::CurrentStack => Ok(CommonForm::CurrentStack),
        CommonInst::SetThreadlocal { reference } => set_threadlocal(tables, locals, reference),
        CommonInst::GetThreadlocal => Ok(CommonForm::GetThreadlocal),
        CommonInst::FutexWait {
            of_type,
            location,
            value,
        } => futex_wait(tables, locals, of_type, location, value),
        CommonInst::FutexWake {
            of_type,
            location,
            count,
        } => futex_wake(tables, locals, of_type, location, count),
        CommonInst::FutexWaitTimeout {
            of_type,
            location,
            value,
            limit,
        } => futex_wait_timeout(tables, locals, of_type, location, value, limit),
    }
}

/// What an instruction gives under a name.
pub fn common_gift<'a>(tables: &'a Tables, common: &CommonInst) -> Gift<'a>
    ensures { listed tables.now result ≡ common_gives tables.now common.now }
{
    match common {
        CommonInst::NewStack { .. } | CommonInst::CurrentStack => {
            Gift::One(tables.types.stackref())
        }
        CommonInst::GetThreadlocal => Gift::One(tables.types.ref_void()),
        CommonInst::FutexWait { .. }
        | CommonInst::FutexWake { .. }
        | CommonInst::FutexWaitTimeout { .. } => Gift::One(tables.types.int32()),
        CommonInst::KillStack { .. } | CommonInst::ThreadExit | CommonInst::SetThreadlocal { .. } =>
            Gift::Nothing,
    }
}
