// Instructions that are decided at once: the frequent ones, which come to one scalar, to a block, to a call or to a return. The functions
// that decide the first two are inlined, so that a scalar is not copied on its way from one to the next.
ghost use Rattle.std.specs.Prelude.{◌≡◌, [], ◌∷◌, Some, IsSome, IfSome};
ghost use Rattle.mu_model.specs.Acts as acts;
ghost use Rattle.checked_code.specs.declared.code.Form.TheVariants.{Control};
ghost use Rattle.model_numbers.specs.Forms.{computation_at, control_at, act_at};
ghost use Rattle.step_forms.specs.Asked.{lists_of};
ghost use Rattle.step_forms.specs.AtOnce.{decided};
ghost use Rattle.step_forms.specs.CaseRows.{cases_of, cases_at};

use crate::case_rows::CaseRows;
use crate::computing::{binary_scalar, compare_scalar, convert_scalar};
use crate::control::{SwitchOperands, arrive, arrive_at_one, called, returned};
use crate::frame_view::FrameView;
use crate::room::Room;
use crate::variables::Variables;
use checked_code::{Checked, ComputationForm, ControlForm, Form};
use mu_values::{Scalar, Slots};

/// What an instruction does, where it is decided at once. It is small, so that a step may be made of it without a copy of a whole act.
#[derive(Clone, Copy, Debug, PartialEq, Eq)]
pub enum AtOnce {
    /// It gives its one result this value of one scalar.
    Gives(Scalar),
    /// Another block of the function, whose parameters are the values in the room.
    Goes { block: u32 },
    /// Another function in a frame above, with the values in the room.
    Calls { function: u32 },
    /// Back from the function, with the values in the room and their classes there.
    Returns,
    /// Nothing was decided.
    Other,
}

/// What a computation gives, where it computes one scalar.
#[tactic(auto, using(crate::specs::AtOnce::computing))]
#[inline(always)]
fn computed(code: &Checked, vars: &Variables, form: &ComputationForm) -> Option<Scalar>
    requires { IsSome (computation_at code.now vars.now form.now) }
    ensures { IfSome result (λ s. computation_at code.now vars.now form.now ≡ Some (acts.Gives ((s ∷ []) ∷ []))) }
{
    match form {
        ComputationForm::Binary {
            op,
            class,
            left,
            right,
        } => binary_scalar(code, vars, *op, *class, *left, *right),
        ComputationForm::Compare {
            op,
            left,
            right,
            ..
        } => Some(compare_scalar(code, vars, *op, *left, *right)),
        ComputationForm::Convert {
            op,
            from,
            to,
            operand,
        } => Some(convert_scalar(code, vars, *op, *from, *to, *operand)),
        _ => None,
    }
}

/// The block that the instruction at a place goes to, where that is all that it does, with the values for it in the list.
#[inline(always)]
fn gone(
    code: &Checked,
    rows: &mut CaseRows,
    view: FrameView,
    form: &ControlForm,
    values: &mut Slots,
) -> Option<u32>
    requires code { rows.old ≡ code.now }
    requires place { cases_of (Control form.now) ≡ cases_at code.now view.block view.at }
    requires there { IsSome (control_at code.now view.types.now view.vars.now form.now) }
    ensures same { rows.new ≡ rows.old }
    ensures goes { IfSome result (λ block. control_at code.now view.entry.types.now view.entry.vars.now form.now ≡ Some (acts.Goes (record { block = block; values = values.new.values }))) }
{
    match form {
        ControlForm::Branch { target } => arrive(code, view.vars, target, values),
        ControlForm::Branch2 {
            condition,
            if_one,
            if_zero,
        } => arrive_at_one(code, view.vars, *condition, if_one, if_zero, values),
        ControlForm::Switch {
            operand,
            default,
            cases,
            ..
        } => {
            let operands = SwitchOperands {
                operand: *operand,
                default,
                cases: cases.as_slice(),
            };
            rows.arrive(code, view, operands, values)
        }
        _ => None,
    }
}

/// What a CALL or a RET does, with the values that it hands on, and the classes of those of a RET, in the room. `Other` comes for every
/// other instruction, for a CALL of NULL, and where no memory is found. It is not inlined, so that a step of another instruction does not
/// carry its code.
#[inline(never)]
fn crossing(
    code: &Checked,
    types: &[u32],
    vars: &Variables,
    form: &ControlForm,
    room: &mut Room,
) -> AtOnce
    requires { IsSome (control_at code.now types.now vars.now form.now) }
    ensures { IfSome (decided result (lists_of room.new)) (λ act. control_at code.now types.now vars.now form.now ≡ Some act) }
{
    match form {
        ControlForm::Call {
            callee,
            arguments,
            ..
        } => match called(code, vars, *callee, arguments.as_slice(), &mut room.values) {
            Ok(Some(function)) => AtOnce::Calls { function },
            _ => AtOnce::Other,
        },
        ControlForm::Ret { values } => {
            match returned(code, types, vars, values.as_slice(), room) {
                Ok(()) => AtOnce::Returns,
                Err(_) => AtOnce::Other,
            }
        }
        _ => AtOnce::Other,
    }
}

/// What the instruction at a place does, as `decide` tells it, where that is decided at once. `Other` comes also where no memory is found;
/// the room may be changed then, too.
#[inline(always)]
pub fn decide_at_once(
    code: &Checked,
    rows: &mut CaseRows,
    view: FrameView,
    form: &Form,
    room: &mut Room,
) -> AtOnce
    requires code { rows.old ≡ code.now }
    requires place { cases_of form.now ≡ cases_at code.now view.block view.at }
    requires there { IsSome (act_at code.now view.types.now view.vars.now form.now) }
    ensures same { rows.new ≡ rows.old }
    ensures act { IfSome (decided result (lists_of room.new)) (λ act. act_at code.now view.entry.types.now view.entry.vars.now form.now ≡ Some act) }
{
    match form {
        Form::Computation(form) => match computed(code, view.vars, form) {
            Some(scalar) => AtOnce::Gives(scalar),
            None => AtOnce::Other,
        },
        Form::Control(form) => match gone(code, rows, view, form, &mut room.values) {
            Some(block) => AtOnce::Goes { block },
            None => crossing(code, view.types, view.vars, form, room),
        },
        _ => AtOnce::Other,
    }
}
