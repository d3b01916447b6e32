// Instructions that enter stacks.
ghost use Rattle.std.specs.Prelude.{◌≡◌, Some, IsSome, IfOk, option_map};
ghost use Rattle.mu_model.specs.StackForms.{own_object, swap_returning_act, swap_killing_act, newthread_act};
ghost use Rattle.model_numbers.specs.Sources.{value_at, entering_at};
ghost use Rattle.step_forms.specs.Asked.{asked, entering_of, lists_of};

use crate::act::Act;
use crate::entering::Entering;
use crate::operands::{copy_classes, read_values, scalar};
use crate::room::Room;
use crate::variables::Variables;
use checked_code::{Checked, Entered, Source};
use mu_values::Scalar;
use std::alloc::AllocError;

/// What a stack is entered with. Values that are passed, and their classes, are read into the room.
#[tactic(auto, using(crate::specs::OperandLaws::operands))]
fn read_entering(
    code: &Checked,
    vars: &Variables,
    entered: &Entered,
    room: &mut Room,
) -> Result<Entering, AllocError>
    requires { IsSome (entering_at code.now vars.now entered.now) }
    ensures { IfOk result (λ e. entering_at code.now vars.now entered.now ≡ Some (entering_of e room.new.types.members room.new.values.values)) }
{
    match entered {
        Entered::Values { classes, values } => {
            copy_classes(classes.as_slice(), &mut room.types)?;
            read_values(code, vars, values.as_slice(), &mut room.values)?;
            Ok(Entering::Passes)
        }
        Entered::Exception(exception) => Ok(Entering::Throws(scalar(code, vars, *exception))),
    }
}

/// SWAPSTACK with RET_WITH
#[tactic(auto, using(crate::specs::OperandLaws::operands))]
pub fn swap_returning(
    code: &Checked,
    vars: &Variables,
    stack: Source,
    classes: &[u32],
    entered: &Entered,
    room: &mut Room,
) -> Result<Act, AllocError>
    requires { IsSome (swap_returning_act classes.now (value_at code.now vars.now stack) (entering_at code.now vars.now entered.now)) }
    ensures { IfOk result (λ act. swap_returning_act classes.now (value_at code.now vars.now stack) (entering_at code.now vars.now entered.now) ≡ Some (asked act (lists_of room.new))) }
{
    let stack = scalar(code, vars, stack);
    let entering = read_entering(code, vars, entered, room)?;
    copy_classes(classes, &mut room.waits)?;
    Ok(Act::Swaps { stack, entering })
}

/// SWAPSTACK with KILL_OLD
#[tactic(auto, using(crate::specs::OperandLaws::operands))]
pub fn swap_killing(
    code: &Checked,
    vars: &Variables,
    stack: Source,
    entered: &Entered,
    room: &mut Room,
) -> Result<Act, AllocError>
    requires { IsSome (swap_killing_act (value_at code.now vars.now stack) (entering_at code.now vars.now entered.now)) }
    ensures { IfOk result (λ act. swap_killing_act (value_at code.now vars.now stack) (entering_at code.now vars.now entered.now) ≡ Some (asked act (lists_of room.new))) }
{
    let stack = scalar(code, vars, stack);
    let entering = read_entering(code, vars, entered, room)?;
    Ok(Act::Leaves { stack, entering })
}

/// The own object of a thread: NULL where none is given.
fn own_object(code: &Checked, vars: &Variables, given: Option<Source>) -> Scalar
    requires { IsSome (own_object (option_map (value_at code.now vars.now) given)) }
    ensures { own_object (option_map (value_at code.now vars.now) given) ≡ Some result }
{
    match given {
        Some(source) => scalar(code, vars, source),
        None => Scalar::Null,
    }
}

/// NEWTHREAD
#[tactic(auto, using(crate::specs::OperandLaws::operands))]
pub fn newthread(
    code: &Checked,
    vars: &Variables,
    stack: Source,
    threadlocal: Option<Source>,
    entered: &Entered,
    room: &mut Room,
) -> Result<Act, AllocError>
    requires { IsSome (newthread_act (value_at code.now vars.now stack) (option_map (value_at code.now vars.now) threadlocal) (entering_at code.now vars.now entered.now)) }
    ensures { IfOk result (λ act. newthread_act (value_at code.now vars.now stack) (option_map (value_at code.now vars.now) threadlocal) (entering_at code.now vars.now entered.now) ≡ Some (asked act (lists_of room.new))) }
{
    let own = own_object(code, vars, threadlocal);
    let stack = scalar(code, vars, stack);
    let entering = read_entering(code, vars, entered, room)?;
    Ok(Act::Starts {
        stack,
        own,
        entering,
    })
}
