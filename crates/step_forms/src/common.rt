// Instructions under names.
ghost use Rattle.std.specs.Prelude.{◌≡◌, Some, IsSome, true, false};
ghost use Rattle.mu_model.specs.Acts as acts;
ghost use Rattle.mu_model.specs.AccessForms.{cell_act};
ghost use Rattle.mu_model.specs.StackForms.{new_stack_act, kill_stack_act, set_threadlocal_act, futex_wait_act, futex_wait_timeout_act, futex_wake_act};
ghost use Rattle.model_numbers.specs.Sources.{value_at};
ghost use Rattle.step_forms.specs.Asked.{asked, Lists};

use crate::act::Act;
use crate::operands::scalar;
use crate::variables::Variables;
use checked_code::{Checked, Source};
use mu_model::Case;
use mu_values::{CellId, Scalar};

/// `@uvm.new_stack`
#[tactic(auto, using(crate::specs::OperandLaws::functions))]
pub fn new_stack(code: &Checked, vars: &Variables, function: Source) -> Act
    requires { IsSome (new_stack_act (value_at code.now vars.now function)) }
    ensures { (ls : Lists) → new_stack_act (value_at code.now vars.now function) ≡ Some (asked result ls) }
{
    match scalar(code, vars, function) {
        Scalar::Func(function) => Act::MakesStack { function },
        Scalar::Null => Act::Faults(Case::NullCall),
        _ => unreachable!(),
    }
}

/// `@uvm.kill_stack`
#[tactic(auto, using(crate::specs::OperandLaws::operands))]
pub fn kill_stack(code: &Checked, vars: &Variables, stack: Source) -> Act
    requires { IsSome (kill_stack_act (value_at code.now vars.now stack)) }
    ensures { (ls : Lists) → kill_stack_act (value_at code.now vars.now stack) ≡ Some (asked result ls) }
{
    Act::KillsStack {
        stack: scalar(code, vars, stack),
    }
}

/// `@uvm.set_threadlocal`
#[tactic(auto, using(crate::specs::OperandLaws::operands))]
pub fn set_threadlocal(code: &Checked, vars: &Variables, reference: Source) -> Act
    requires { IsSome (set_threadlocal_act (value_at code.now vars.now reference)) }
    ensures { (ls : Lists) → set_threadlocal_act (value_at code.now vars.now reference) ≡ Some (asked result ls) }
{
    Act::SetsOwn(scalar(code, vars, reference))
}

/// Waiting at a place.
#[tactic(auto, using(crate::specs::AccessLaws::cells))]
fn waits(timed: bool, expected: Scalar, place: Scalar) -> Act
    requires { IsSome (cell_act (acts.Waits timed expected) place) }
    ensures { (ls : Lists) → cell_act (acts.Waits timed expected) place ≡ Some (asked result ls) }
{
    match place {
        Scalar::Place { object, at } => Act::Waits {
            timed,
            expected,
            cell: CellId { object, at },
        },
        Scalar::Null => Act::Faults(Case::NullAccess),
        _ => unreachable!(),
    }
}

/// Waking those that wait at a place.
#[tactic(auto, using(crate::specs::AccessLaws::cells))]
fn wakes(many: u32, place: Scalar) -> Act
    requires { IsSome (cell_act (acts.Wakes many) place) }
    ensures { (ls : Lists) → cell_act (acts.Wakes many) place ≡ Some (asked result ls) }
{
    match place {
        Scalar::Place { object, at } => Act::Wakes {
            many,
            cell: CellId { object, at },
        },
        Scalar::Null => Act::Faults(Case::NullAccess),
        _ => unreachable!(),
    }
}

/// `@uvm.futex.wait`
#[tactic(auto, using(crate::specs::OperandLaws::operands))]
pub fn futex_wait(code: &Checked, vars: &Variables, location: Source, value: Source) -> Act
    requires { IsSome (futex_wait_act false (value_at code.now vars.now location) (value_at code.now vars.now value)) }
    ensures { (ls : Lists) → futex_wait_act false (value_at code.now vars.now location) (value_at code.now vars.now value) ≡ Some (asked result ls) }
{
    let expected = scalar(code, vars, value);
    let place = scalar(code, vars, location);
    waits(false, expected, place)
}

/// `@uvm.futex.wait_timeout`. That there is a limit is all that matters of it.
#[tactic(auto, using(crate::specs::OperandLaws::operands))]
pub fn futex_wait_timeout(
    code: &Checked,
    vars: &Variables,
    location: Source,
    value: Source,
    limit: Source,
) -> Act
    requires { IsSome (futex_wait_timeout_act (value_at code.now vars.now location) (value_at code.now vars.now value) (value_at code.now vars.now limit)) }
    ensures { (ls : Lists) → futex_wait_timeout_act (value_at code.now vars.now location) (value_at code.now vars.now value) (value_at code.now vars.now limit) ≡ Some (asked result ls) }
{
    let expected = scalar(code, vars, value);
    let place = scalar(code, vars, location);
    waits(true, expected, place)
}

/// `@uvm.futex.wake`. The number is unsigned.
#[tactic(auto, using(crate::specs::OperandLaws::operands))]
pub fn futex_wake(code: &Checked, vars: &Variables, location: Source, count: Source) -> Act
    requires { IsSome (futex_wake_act (value_at code.now vars.now location) (value_at code.now vars.now count)) }
    ensures { (ls : Lists) → futex_wake_act (value_at code.now vars.now location) (value_at code.now vars.now count) ≡ Some (asked result ls) }
{
    match scalar(code, vars, count) {
        Scalar::Int { bits, .. } => wakes(bits as u32, scalar(code, vars, location)),
        _ => unreachable!(),
    }
}
