// Instructions that ask the client, or that may be made to.
ghost use Rattle.std.specs.Prelude.{◌≡◌, Some, IsSome, IfOk};
ghost use Rattle.mu_model.specs.Acts as acts;
ghost use Rattle.mu_model.specs.TrappingForms.{watchpoint_act, wpbranch_act};
ghost use Rattle.model_numbers.specs.Sources.{goal_at};
ghost use Rattle.step_forms.specs.Asked.{asked, lists_of};

use crate::act::Act;
use crate::operands::{copy_classes, read_goal};
use crate::room::Room;
use crate::variables::Variables;
use checked_code::{Checked, Target};
use std::alloc::AllocError;

/// TRAP
pub fn trap(classes: &[u32], room: &mut Room) -> Result<Act, AllocError>
    ensures { IfOk result (λ act. acts.Traps classes.now ≡ asked act (lists_of room.new)) }
{
    copy_classes(classes, &mut room.waits)?;
    Ok(Act::Traps)
}

/// WATCHPOINT
#[tactic(auto, using(crate::specs::OperandLaws::operands))]
pub fn watchpoint(
    code: &Checked,
    vars: &Variables,
    number: u32,
    classes: &[u32],
    disabled: &Target,
    room: &mut Room,
) -> Result<Act, AllocError>
    requires { IsSome (watchpoint_act number classes.now (goal_at code.now vars.now disabled.now)) }
    ensures { IfOk result (λ act. watchpoint_act number classes.now (goal_at code.now vars.now disabled.now) ≡ Some (asked act (lists_of room.new))) }
{
    copy_classes(classes, &mut room.waits)?;
    read_goal(code, vars, disabled, &mut room.values)?;
    Ok(Act::Watches {
        watchpoint: number,
        block: disabled.block,
    })
}

/// WPBRANCH
#[tactic(auto, using(crate::specs::OperandLaws::operands))]
pub fn wpbranch(
    code: &Checked,
    vars: &Variables,
    number: u32,
    disabled: &Target,
    enabled: &Target,
    room: &mut Room,
) -> Result<Act, AllocError>
    requires { IsSome (wpbranch_act number (goal_at code.now vars.now disabled.now) (goal_at code.now vars.now enabled.now)) }
    ensures { IfOk result (λ act. wpbranch_act number (goal_at code.now vars.now disabled.now) (goal_at code.now vars.now enabled.now) ≡ Some (asked act (lists_of room.new))) }
{
    read_goal(code, vars, disabled, &mut room.values)?;
    read_goal(code, vars, enabled, &mut room.others)?;
    Ok(Act::Chooses {
        watchpoint: number,
        disabled: disabled.block,
        enabled: enabled.block,
    })
}
