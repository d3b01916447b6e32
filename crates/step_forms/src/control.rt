// Instructions that say where the function goes on, or that enter or leave one.
ghost use Rattle.std.specs.Prelude.{◌≡◌, map, Some, IsSome, IfSome, IfOk, OnOk};
ghost use Rattle.mu_values.specs.SameScalar.{same_scalar};
ghost use Rattle.checked_code.specs.Checking.{bundle_tables};
ghost use Rattle.typed_heap.specs.Places.{with_some};
ghost use Rattle.mu_model.specs.Acts as acts;
ghost use Rattle.mu_model.specs.ControlForms.{branch_act, branch2_act, switch_act, call_act, tailcall_act, ret_act, throw_act};
ghost use Rattle.model_numbers.specs.Sources.{value_at, values_at, classes_at, goal_at};
ghost use Rattle.model_numbers.specs.Forms.{arm_at};
ghost use Rattle.step_forms.specs.Asked.{asked, lists_of, Lists};
ghost use Rattle.step_forms.specs.AtOnce.{call_of};

use crate::act::Act;
use crate::operands::{constant, is_one, lent, read_classes, read_goal, read_values, scalar};
use crate::room::Room;
use crate::variables::Variables;
use checked_code::{CaseForm, Checked, Source, Target};
use mu_model::Case;
use mu_values::{Scalar, Slots};
use std::alloc::AllocError;

/// The block of a destination, with the values of its arguments in the list. None comes only where no memory is found.
#[tactic(auto, using(crate::specs::OperandLaws::operands))]
pub(crate) fn arrive(
    code: &Checked,
    vars: &Variables,
    target: &Target,
    values: &mut Slots,
) -> Option<u32>
    requires { IsSome (branch_act (goal_at code.now vars.now target.now)) }
    ensures { IfSome result (λ block. branch_act (goal_at code.now vars.now target.now) ≡ Some (acts.Goes (record { block = block; values = values.new.values }))) }
{
    match read_goal(code, vars, target, values) {
        Ok(()) => Some(target.block),
        Err(_) => None,
    }
}

/// The same of one of two destinations.
#[tactic(auto, using(crate::specs::OperandLaws::operands))]
pub(crate) fn arrive_at_one(
    code: &Checked,
    vars: &Variables,
    condition: Source,
    if_one: &Target,
    if_zero: &Target,
    values: &mut Slots,
) -> Option<u32>
    requires { IsSome (branch2_act (value_at code.now vars.now condition) (goal_at code.now vars.now if_one.now) (goal_at code.now vars.now if_zero.now)) }
    ensures { IfSome result (λ block. branch2_act (value_at code.now vars.now condition) (goal_at code.now vars.now if_one.now) (goal_at code.now vars.now if_zero.now) ≡ Some (acts.Goes (record { block = block; values = values.new.values }))) }
{
    if is_one(code, vars, condition) {
        arrive(code, vars, if_one, values)
    } else {
        arrive(code, vars, if_zero, values)
    }
}

/// BRANCH
#[tactic(auto, using(crate::specs::OperandLaws::operands))]
pub(crate) fn branch(
    code: &Checked,
    vars: &Variables,
    target: &Target,
    room: &mut Room,
) -> Result<Act, AllocError>
    requires { IsSome (branch_act (goal_at code.now vars.now target.now)) }
    ensures { IfOk result (λ act. branch_act (goal_at code.now vars.now target.now) ≡ Some (asked act (lists_of room.new))) }
{
    read_goal(code, vars, target, &mut room.values)?;
    Ok(Act::Goes {
        block: target.block,
    })
}

/// BRANCH2
#[tactic(auto, using(crate::specs::OperandLaws::operands))]
pub(crate) fn branch2(
    code: &Checked,
    vars: &Variables,
    condition: Source,
    if_one: &Target,
    if_zero: &Target,
    room: &mut Room,
) -> Result<Act, AllocError>
    requires { IsSome (branch2_act (value_at code.now vars.now condition) (goal_at code.now vars.now if_one.now) (goal_at code.now vars.now if_zero.now)) }
    ensures { IfOk result (λ act. branch2_act (value_at code.now vars.now condition) (goal_at code.now vars.now if_one.now) (goal_at code.now vars.now if_zero.now) ≡ Some (asked act (lists_of room.new))) }
{
    if is_one(code, vars, condition) {
        branch(code, vars, if_one, room)
    } else {
        branch(code, vars, if_zero, room)
    }
}

/// What a SWITCH chooses a destination by.
#[derive(Clone, Copy)]
pub(crate) struct SwitchOperands<'a> {
    /// What is compared with the constants of the cases.
    pub(crate) operand: Source,
    /// The destination where no case is equal.
    pub(crate) default: &'a Target,
    /// The cases, in their order.
    pub(crate) cases: &'a [CaseForm],
}

/// Whether two scalars are one, by all that they hold. It stays out of the way of the row of a SWITCH, which seldom comes to it.
#[tactic(auto, using(crate::specs::OperandLaws::same_told))]
#[cold]
#[inline(never)]
pub(crate) fn is_equal(a: &Scalar, b: &Scalar) -> bool
    ensures { result ≡ same_scalar a.now b.now }
{
    *a == *b
}

/// SWITCH. It looks at the cases in order, up to the first that is equal.
#[tactic(auto, using(crate::specs::OperandLaws::operands))]
pub(crate) fn switch(
    code: &Checked,
    vars: &Variables,
    operands: SwitchOperands,
    room: &mut Room,
) -> Result<Act, AllocError>
    requires { IsSome (switch_act (value_at code.now vars.now operands.operand) (goal_at code.now vars.now operands.default.now) (map (arm_at code.now vars.now) operands.cases.now)) }
    ensures { IfOk result (λ act. switch_act (value_at code.now vars.now operands.entry.operand) (goal_at code.now vars.now operands.entry.default.now) (map (arm_at code.now vars.now) operands.entry.cases.now) ≡ Some (asked act (lists_of room.new))) }
{
    let wanted = scalar(code, vars, operands.operand);
    let mut left = operands.cases;
    'cases: while let [case, more @ ..] = left {
        if is_equal(&wanted, lent(constant(code, case.constant))) {
            return branch(code, vars, &case.target, room);
        }
        left = more;
    }
    branch(code, vars, operands.default, room)
}

/// The function that a CALL calls, with the values of its arguments in the list. None comes where the callee is NULL. Where no memory
/// is found the list may have changed.
#[tactic(auto, using(crate::specs::OperandLaws::functions))]
pub(crate) fn called(
    code: &Checked,
    vars: &Variables,
    callee: Source,
    arguments: &[Source],
    values: &mut Slots,
) -> Result<Option<u32>, AllocError>
    requires { IsSome (call_act (value_at code.now vars.now callee) (values_at code.now vars.now arguments.now)) }
    ensures { IfOk result (λ function. call_act (value_at code.now vars.now callee) (values_at code.now vars.now arguments.now) ≡ Some (call_of function values.new.values)) }
{
    read_values(code, vars, arguments, values)?;
    match scalar(code, vars, callee) {
        Scalar::Func(function) => Ok(Some(function)),
        Scalar::Null => Ok(None),
        _ => unreachable!(),
    }
}

/// CALL
pub(crate) fn call(
    code: &Checked,
    vars: &Variables,
    callee: Source,
    arguments: &[Source],
    room: &mut Room,
) -> Result<Act, AllocError>
    requires { IsSome (call_act (value_at code.now vars.now callee) (values_at code.now vars.now arguments.now)) }
    ensures { IfOk result (λ act. call_act (value_at code.now vars.now callee) (values_at code.now vars.now arguments.now) ≡ Some (asked act (lists_of room.new))) }
{
    match called(code, vars, callee, arguments, &mut room.values)? {
        Some(function) => Ok(Act::Calls { function }),
        None => Ok(Act::Faults(Case::NullCall)),
    }
}

/// TAILCALL
#[tactic(auto, using(crate::specs::OperandLaws::functions))]
pub(crate) fn tailcall(
    code: &Checked,
    vars: &Variables,
    callee: Source,
    arguments: &[Source],
    room: &mut Room,
) -> Result<Act, AllocError>
    requires { IsSome (tailcall_act (value_at code.now vars.now callee) (values_at code.now vars.now arguments.now)) }
    ensures { IfOk result (λ act. tailcall_act (value_at code.now vars.now callee) (values_at code.now vars.now arguments.now) ≡ Some (asked act (lists_of room.new))) }
{
    read_values(code, vars, arguments, &mut room.values)?;
    match scalar(code, vars, callee) {
        Scalar::Func(function) => Ok(Act::Replaces { function }),
        Scalar::Null => Ok(Act::Faults(Case::NullCall)),
        _ => unreachable!(),
    }
}

/// The values that a RET returns, and their classes, in the room. Where no memory is found the room may have changed.
#[tactic(auto, using(crate::specs::OperandLaws::operands))]
pub(crate) fn returned(
    code: &Checked,
    types: &[u32],
    vars: &Variables,
    values: &[Source],
    room: &mut Room,
) -> Result<(), AllocError>
    requires { IsSome (with_some (classes_at (bundle_tables code.now) types.now values.now) (λ cs. ret_act cs (values_at code.now vars.now values.now))) }
    ensures { OnOk result (with_some (classes_at (bundle_tables code.now) types.now values.now) (λ cs. ret_act cs (values_at code.now vars.now values.now)) ≡ Some (acts.Returns (record { types = room.new.types.members; values = room.new.values.values }))) }
{
    read_classes(code, types, values, &mut room.types)?;
    read_values(code, vars, values, &mut room.values)
}

/// RET
pub(crate) fn ret(
    code: &Checked,
    types: &[u32],
    vars: &Variables,
    values: &[Source],
    room: &mut Room,
) -> Result<Act, AllocError>
    requires { IsSome (with_some (classes_at (bundle_tables code.now) types.now values.now) (λ cs. ret_act cs (values_at code.now vars.now values.now))) }
    ensures { IfOk result (λ act. with_some (classes_at (bundle_tables code.now) types.now values.now) (λ cs. ret_act cs (values_at code.now vars.now values.now)) ≡ Some (asked act (lists_of room.new))) }
{
    returned(code, types, vars, values, room)?;
    Ok(Act::Returns)
}

/// THROW
#[tactic(auto, using(crate::specs::OperandLaws::operands))]
pub(crate) fn throw(code: &Checked, vars: &Variables, exception: Source) -> Act
    requires { IsSome (throw_act (value_at code.now vars.now exception)) }
    ensures { (ls : Lists) → throw_act (value_at code.now vars.now exception) ≡ Some (asked result ls) }
{
    Act::Throws(scalar(code, vars, exception))
}
