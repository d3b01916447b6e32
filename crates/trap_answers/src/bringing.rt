//! What an answer brings to the stack that is entered.
ghost use Rattle.std.specs.Prelude.{◌≡◌, IsSome, Some};
ghost use Rattle.checked_code.specs.Checking.{bundle_tables};
ghost use Rattle.mu_model.specs.Operands.{scalar_in};
ghost use Rattle.mu_model.specs.Traps as traps;
ghost use Rattle.step_forms.specs.Asked.{entering_of};
ghost use Rattle.client_hooks.specs.Replies.{way_of};

use checked_code::Checked;
use client_hooks::{ClassedValue, With};
use mu_values::Scalar;
use step_forms::{Entering, Room};

/// How a stack is entered with what an answer brings. Values come into the room, with their classes. An exception that is no reference
/// to void fits no stack.
#[tactic(auto, using(crate::specs::Entering::thrown))]
pub fn bring(code: &Checked, with: With, room: &mut Room) -> Entering
    requires { IsSome (traps.entering_of (bundle_tables code.now) (way_of with)) }
    ensures { traps.entering_of (bundle_tables code.now) (way_of with) ≡ Some (entering_of result room.new.types.members room.new.values.values) }
{
    match with {
        With::Pass(values) => {
            let (types, values) = values.into_parts();
            room.types = types;
            room.values = values;
            Entering::Passes
        }
        With::Throw(exception) => {
            if exception.class == code.tables().types.ref_void() {
                Entering::Throws(target(&exception))
            } else {
                Entering::Misfits
            }
        }
    }
}

/// The one scalar of a value.
#[tactic(auto, using(crate::specs::Entering::entered))]
pub fn target(value: &ClassedValue) -> Scalar
    requires { IsSome (scalar_in (Some value.now.value)) }
    ensures { scalar_in (Some value.now.value) ≡ Some result }
{
    match value.value.as_slice() {
        [scalar] => *scalar,
        _ => unreachable!(),
    }
}
