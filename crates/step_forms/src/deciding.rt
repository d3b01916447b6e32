// What an instruction does.
ghost use Rattle.std.specs.Prelude.{◌≡◌, true, Some, IsSome, IfOk};
ghost use Rattle.checked_code.specs.Checking.{bundle_tables};
ghost use Rattle.model_numbers.specs.Forms.{computation_at, control_at, allocation_at, addressing_at, access_at, trapping_at, switch_at, common_at, act_at};
ghost use Rattle.step_forms.specs.Asked.{asked, lists_of, Lists};
ghost use Rattle.step_forms.specs.Classes.{ActIsThere, FormIsThere};

use crate::accessing::{Comparison, atomicrmw, cmpxchg, load, store};
use crate::act::Act;
use crate::common::{
    futex_wait, futex_wait_timeout, futex_wake, kill_stack, new_stack, set_threadlocal,
};
use crate::computing::{binary, compare, convert, extractvalue, insertvalue, refcast, select};
use crate::control::{SwitchOperands, branch, branch2, call, ret, switch, tailcall, throw};
use crate::objects::{getelemiref, getfieldiref, getiref, getvarpartiref, newhybrid, shiftiref};
use crate::parts::field_of;
use crate::room::Room;
use crate::stack_forms::{newthread, swap_killing, swap_returning};
use crate::trapping::{trap, watchpoint, wpbranch};
use crate::variables::Variables;
use checked_code::{
    AccessForm, AddressingForm, AllocationForm, Checked, CommonForm, ComputationForm, ControlForm,
    Form, SwitchForm, TrappingForm,
};
use std::alloc::AllocError;

/// What a computation does.
fn compute(
    code: &Checked,
    vars: &Variables,
    form: &ComputationForm,
    room: &mut Room,
) -> Result<Act, AllocError>
    requires { IsSome (computation_at code.now vars.now form.now) }
    ensures { IfOk result (λ act. computation_at code.now vars.now form.now ≡ Some (asked act (lists_of room.new))) }
{
    match form {
        ComputationForm::Binary {
            op,
            class,
            left,
            right,
        } => Ok(binary(code, vars, *op, *class, *left, *right)),
        ComputationForm::Compare {
            op,
            left,
            right,
            ..
        } => Ok(compare(code, vars, *op, *left, *right)),
        ComputationForm::Convert {
            op,
            from,
            to,
            operand,
        } => Ok(convert(code, vars, *op, *from, *to, *operand)),
        ComputationForm::Refcast { to, operand, .. } => Ok(refcast(code, vars, *to, *operand)),
        ComputationForm::Select {
            condition,
            if_one,
            if_zero,
            ..
        } => select(code, vars, *condition, *if_one, *if_zero, room),
        ComputationForm::Extractvalue {
            class,
            field,
            operand,
        } => extractvalue(code, vars, field_of(*class, *field), *operand, room),
        ComputationForm::Insertvalue {
            class,
            field,
            operand,
            value,
        } => insertvalue(code, vars, field_of(*class, *field), *operand, *value, room),
    }
}

/// What an instruction does that says where the function goes on.
fn go_on(
    code: &Checked,
    types: &[u32],
    vars: &Variables,
    form: &ControlForm,
    room: &mut Room,
) -> Result<Act, AllocError>
    requires { IsSome (control_at code.now types.now vars.now form.now) }
    ensures { IfOk result (λ act. control_at code.now types.now vars.now form.now ≡ Some (asked act (lists_of room.new))) }
{
    match form {
        ControlForm::Branch { target } => branch(code, vars, target, room),
        ControlForm::Branch2 {
            condition,
            if_one,
            if_zero,
        } => branch2(code, vars, *condition, if_one, if_zero, room),
        ControlForm::Switch {
            operand,
            default,
            cases,
            ..
        } => {
            let operands = SwitchOperands {
                operand: *operand,
                default,
                cases: cases.as_slice(),
            };
            switch(code, vars, operands, room)
        }
        ControlForm::Call {
            callee,
            arguments,
            ..
        } => call(code, vars, *callee, arguments.as_slice(), room),
        ControlForm::Tailcall {
            callee,
            arguments,
            ..
        } => tailcall(code, vars, *callee, arguments.as_slice(), room),
        ControlForm::Ret { values } => ret(code, types, vars, values.as_slice(), room),
        ControlForm::Throw { exception } => Ok(throw(code, vars, *exception)),
    }
}

/// What an instruction does that makes an object.
fn make(code: &Checked, vars: &Variables, form: &AllocationForm) -> Act
    requires { IsSome (allocation_at code.now vars.now form.now) }
    ensures { (ls : Lists) → allocation_at code.now vars.now form.now ≡ Some (asked result ls) }
{
    match form {
        AllocationForm::New { class } => Act::Makes { class: *class },
        AllocationForm::Newhybrid {
            class,
            length_class,
            length,
        } => newhybrid(code, vars, *class, *length_class, *length),
        AllocationForm::Alloca { class } => Act::MakesOwn { class: *class },
    }
}

/// What an instruction does that finds a place.
fn find(code: &Checked, vars: &Variables, form: &AddressingForm) -> Act
    requires { IsSome (addressing_at code.now vars.now form.now) }
    ensures { (ls : Lists) → addressing_at code.now vars.now form.now ≡ Some (asked result ls) }
{
    match form {
        AddressingForm::Getiref { reference, .. } => getiref(code, vars, *reference),
        AddressingForm::Getfieldiref {
            class,
            field,
            location,
        } => getfieldiref(code, vars, *class, *field, *location),
        AddressingForm::Getelemiref {
            class,
            index_class,
            location,
            index,
        } => getelemiref(code, vars, *class, *index_class, *location, *index),
        AddressingForm::Shiftiref {
            class,
            offset_class,
            location,
            offset,
        } => shiftiref(code, vars, *class, *offset_class, *location, *offset),
        AddressingForm::Getvarpartiref { class, location } => getvarpartiref(
            code, vars, *class, *location,
        ),
    }
}

/// What an instruction does that reads or writes memory.
fn access(code: &Checked, vars: &Variables, form: &AccessForm) -> Act
    requires { IsSome (access_at code.now vars.now form.now) }
    ensures { (ls : Lists) → access_at code.now vars.now form.now ≡ Some (asked result ls) }
{
    match form {
        AccessForm::Load {
            order,
            location,
            ..
        } => load(code, vars, *order, *location),
        AccessForm::Store {
            order,
            location,
            value,
            ..
        } => store(code, vars, *order, *location, *value),
        AccessForm::Cmpxchg {
            weak,
            success,
            failure,
            location,
            expected,
            desired,
            ..
        } => {
            let comparison = Comparison {
                weak: *weak,
                success: *success,
                failure: *failure,
            };
            cmpxchg(code, vars, comparison, *location, *expected, *desired)
        }
        AccessForm::Atomicrmw {
            order,
            op,
            location,
            operand,
            ..
        } => atomicrmw(code, vars, *order, *op, *location, *operand),
        AccessForm::Fence { order } => Act::Fences(*order),
    }
}

/// What an instruction does that asks the client, or may be made to.
fn ask(
    code: &Checked,
    vars: &Variables,
    form: &TrappingForm,
    room: &mut Room,
) -> Result<Act, AllocError>
    requires { IsSome (trapping_at code.now vars.now form.now) }
    ensures { IfOk result (λ act. trapping_at code.now vars.now form.now ≡ Some (asked act (lists_of room.new))) }
{
    match form {
        TrappingForm::Trap { classes } => trap(classes.as_slice(), room),
        TrappingForm::Watchpoint {
            number,
            classes,
            disabled,
        } => watchpoint(code, vars, *number, classes.as_slice(), disabled, room),
        TrappingForm::Wpbranch {
            number,
            disabled,
            enabled,
        } => wpbranch(code, vars, *number, disabled, enabled, room),
    }
}

/// What an instruction does that enters a stack.
fn enter(
    code: &Checked,
    vars: &Variables,
    form: &SwitchForm,
    room: &mut Room,
) -> Result<Act, AllocError>
    requires { IsSome (switch_at code.now vars.now form.now) }
    ensures { IfOk result (λ act. switch_at code.now vars.now form.now ≡ Some (asked act (lists_of room.new))) }
{
    match form {
        SwitchForm::SwapReturning {
            stack,
            classes,
            entered,
        } => swap_returning(code, vars, *stack, classes.as_slice(), entered, room),
        SwitchForm::SwapKilling { stack, entered } => {
            swap_killing(code, vars, *stack, entered, room)
        }
        SwitchForm::Newthread {
            stack,
            threadlocal,
            entered,
        } => newthread(code, vars, *stack, *threadlocal, entered, room),
    }
}

/// What an instruction does that is under a name.
fn common(code: &Checked, vars: &Variables, form: &CommonForm) -> Act
    requires { IsSome (common_at code.now vars.now form.now) }
    ensures { (ls : Lists) → common_at code.now vars.now form.now ≡ Some (asked result ls) }
{
    match form {
        CommonForm::NewStack { function, .. } => new_stack(code, vars, *function),
        CommonForm::KillStack { stack } => kill_stack(code, vars, *stack),
        CommonForm::ThreadExit => Act::Exits,
        CommonForm::CurrentStack => Act::Tells,
        CommonForm::SetThreadlocal { reference } => set_threadlocal(code, vars, *reference),
        CommonForm::GetThreadlocal => Act::TellsOwn,
        CommonForm::FutexWait {
            location,
            value,
            ..
        } => futex_wait(code, vars, *location, *value),
        CommonForm::FutexWake {
            location,
            count,
            ..
        } => futex_wake(code, vars, *location, *count),
        CommonForm::FutexWaitTimeout {
            location,
            value,
            limit,
            ..
        } => futex_wait_timeout(code, vars, *location, *value, *limit),
    }
}

/// What an instruction does, with the values of its block's variables, of which the classes are told. The values and classes that go
/// with the act stand in the room, which is changed even where no memory is found. A class that the act names, or asks a client for values
/// of, is in the graph where that of the form is.
pub fn decide(
    code: &Checked,
    types: &[u32],
    vars: &Variables,
    form: &Form,
    room: &mut Room,
) -> Result<Act, AllocError>
    requires there { IsSome (act_at code.now types.now vars.now form.now) }
    requires classes { FormIsThere (bundle_tables code.now).types.definitions form.now }
    ensures act { IfOk result (λ act. act_at code.now types.now vars.now form.now ≡ Some (asked act (lists_of room.new))) }
    ensures classes { IfOk result (ActIsThere (bundle_tables code.now).types.definitions (lists_of room.new)) }
{
    match form {
        Form::Computation(form) => compute(code, vars, form, room),
        Form::Control(form) => go_on(code, types, vars, form, room),
        Form::Allocation(form) => Ok(make(code, vars, form)),
        Form::Addressing(form) => Ok(find(code, vars, form)),
        Form::Access(form) => Ok(access(code, vars, form)),
        Form::Trapping(form) => ask(code, vars, form, room),
        Form::Switch(form) => enter(code, vars, form, room),
        Form::Common(form) => Ok(common(code, vars, form)),
    }
}
