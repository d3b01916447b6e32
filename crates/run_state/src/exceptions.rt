// Which cases are faults, and where an exception goes.
ghost use Rattle.std.specs.Prelude.{◌≡◌, ◌<◌, IsSome, Some, IfOk, IsSomeAnd, OnOk, length};
ghost use Rattle.checked_code.specs.Checking.{bundle_blocks};
ghost use Rattle.frames.specs.Activations.{Activation};
ghost use Rattle.frames.specs.Chains.{stands};
ghost use Rattle.frames.specs.FrameOf.{goal_of};
ghost use Rattle.run_state.specs.Acting.{is_fault, gets};

use crate::flow::copy;
use checked_code::Checked;
use frames::Frame;
use mu_model::Case;
use mu_values::{Scalar, Slots};
use std::alloc::AllocError;

/// Whether the case is a fault, for which an instruction may have an exceptional destination.
pub fn is_fault(case: Case) -> bool
    ensures { result ≡ is_fault case }
{
    match case {
        Case::DivideByZero | Case::NullAccess => true,
        Case::OutOfRange
        | Case::BadCast
        | Case::DeadCell
        | Case::DataRace
        | Case::StackNotReady
        | Case::StackTypes
        | Case::Uncaught
        | Case::NullCall
        | Case::NoBody
        | Case::ClientMisuse => false,
    }
}

/// Adds an exception to the values for a block, where the block has a handler; else the values stay. It is refused only when out of memory;
/// no clause says what the list holds then.
#[tactic(auto, using(crate::specs::ActLaws::gets_plain, crate::specs::ActLaws::gets_exception))]
pub fn add_exception(
    code: &Checked,
    block: u32,
    exception: Scalar,
    out: &mut Slots,
) -> Result<(), AllocError>
    requires { block < length (bundle_blocks code.now) }
    ensures { OnOk result ((f : Activation) → gets code.now f (record { block = block; values = out.old.values }) exception ≡ Some (stands f block 0 out.new.values)) }
{
    if code.block(block).handler.is_some() {
        out.push_scalar(exception)?;
    }
    Ok(())
}

/// The block of a frame's handler. The values for it are written to a list, in place of what it held. It is refused only when out of memory;
/// then values may be missing.
pub fn handler_goal(frame: &Frame, out: &mut Slots) -> Result<u32, AllocError>
    requires { IsSome frame.now.handler }
    ensures { IfOk result (λ block. IsSomeAnd frame.now.handler (λ h. goal_of h ≡ record { block = block; values = out.new.values })) }
{
    match &frame.handler {
        Some(handler) => {
            copy(&handler.args, out)?;
            Ok(handler.block)
        }
        None => unreachable!(),
    }
}
