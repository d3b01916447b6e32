// Where a frame stands next.
ghost use Rattle.std.specs.Prelude.{◌≡◌, ◌+◌, ◌++◌, ◌∷◌, List, [], IsSome, IfSome, Some, OnOk, OnErr, IfOk, false};
ghost use Rattle.checked_code.specs.Answers.{code_at};
ghost use Rattle.frames.specs.Activations.{Value};
ghost use Rattle.frames.specs.Chains.{stands};
ghost use Rattle.frames.specs.FrameOf.{frame_of};
ghost use Rattle.model_numbers.specs.Sources.{goal_at};
ghost use Rattle.run_state.specs.Acting.{goes_on};

use checked_code::{Checked, Target};
use frames::{Frame, Frames};
use mu_values::{Scalar, Slots};
use std::alloc::AllocError;
use step_forms::{Variables, read_goal};

/// A block, by number, and a place in it.
#[derive(Clone, Copy, Debug, PartialEq, Eq)]
pub struct Place {
    pub block: u32,
    pub at: u32,
}

/// Makes a list the values of another. It is refused only when out of memory; then values may be missing.
pub fn copy(from: &Slots, to: &mut Slots) -> Result<(), AllocError>
    ensures { OnOk result (to.new.values ≡ from.now.values) }
{
    to.clear();
    to.append(from)
}

/// At the next place, with these results behind the frame's own variables.
fn onward(frame: &Frame, results: &Slots, out: &mut Slots) -> Result<Place, AllocError>
    ensures block { IfOk result (λ place. place.block ≡ frame.now.block) }
    ensures at { IfOk result (λ place. place.at ≡ frame.now.at + 1) }
    ensures values { OnOk result (out.new.values ≡ frame.now.slots.values ++ results.now.values) }
{
    let Some(at) = frame.at.checked_add(1) else {
        return Err(AllocError);
    };
    copy(&frame.slots, out)?;
    out.append(results)?;
    Ok(Place {
        block: frame.block,
        at,
    })
}

/// At a destination, whose arguments are read with these results behind the frame's own variables.
fn arriving(
    code: &Checked,
    frame: &Frame,
    target: &Target,
    results: &Slots,
    out: &mut Slots,
) -> Result<Place, AllocError>
    requires { IsSome (goal_at code.now (frame.now.slots.values ++ results.now.values) target.now) }
    ensures { IfOk result (λ place. (goal_at code.now (frame.now.slots.values ++ results.now.values) target.now ≡ Some (record { block = place.block; values = out.new.values })) × (place.at ≡ 0)) }
{
    read_goal(code, &Variables::behind(&frame.slots, results), target, out)?;
    Ok(Place {
        block: target.block,
        at: 0,
    })
}

/// Where a frame stands next, once its instruction or the function that it called has these results. The values of its variables there are
/// written to a list, in place of what it held. It is refused when out of memory, and where no number tells the next place; then values may
/// be missing.
#[tactic(auto, using(crate::specs::ActLaws::going))]
pub fn passing(
    code: &Checked,
    frame: &Frame,
    results: &Slots,
    out: &mut Slots,
) -> Result<Place, AllocError>
    requires { IsSome (goes_on code.now (frame_of frame.now) results.now.values) }
    ensures { IfOk result (λ place. goes_on code.now (frame_of frame.now) results.now.values ≡ Some (stands (frame_of frame.now) place.block place.at out.new.values)) }
{
    if frame.fresh {
        copy(results, out)?;
        return Ok(Place {
            block: frame.block,
            at: 0,
        });
    }
    match &code.code(frame.block, frame.at).normal {
        None => onward(frame, results, out),
        Some(target) => arriving(code, frame, target, results, out),
    }
}

/// The top frame stands at a place with these values of its variables, and waits for nothing. The values of its former ones, with
/// their room, stand in the list then.
pub fn stand(frames: &mut Frames, place: Place, values: &mut Slots)
    ensures { frames.new ≡ record frames.old { top = stands frames.old.top place.block place.at values.old.values } }
{
    frames.jump(place.block, values);
    frames.top_mut().at = place.at;
}

/// The frame stands at the next place, with one more value of one scalar, and waits for nothing.
fn push_on(frame: &mut Frame, scalar: Scalar) -> Result<(), AllocError>
    ensures ok { OnOk result (frame_of frame.new ≡ stands (frame_of frame.old) frame.old.block (frame.old.at + 1) (frame.old.slots.values ++ (scalar ∷ []) ∷ [])) }
    ensures err { OnErr result (frame_of frame.new ≡ frame_of frame.old) }
{
    let Some(at) = frame.at.checked_add(1) else {
        return Err(AllocError);
    };
    frame.slots.push_scalar(scalar)?;
    frame.stand_at(at);
    Ok(())
}

/// The top frame stands at the next place, with one more value of one scalar, and waits for nothing. It is refused when out of memory,
/// and where no number tells the next place; then nothing changes.
pub fn push_on_top(frames: &mut Frames, scalar: Scalar) -> Result<(), AllocError>
    ensures ok { OnOk result (frames.new ≡ record frames.old { top = stands frames.old.top frames.old.top.block (frames.old.top.at + 1) (frames.old.top.vars ++ (scalar ∷ []) ∷ []) }) }
    ensures err { OnErr result (frames.new ≡ frames.old) }
{
    push_on(frames.top_mut(), scalar)
}

/// The next place of a frame that goes on there, with any results behind its own variables. None where it has not begun, goes on
/// elsewhere, or stands at the last place that a number tells.
#[tactic(auto, using(crate::specs::ActLaws::going))]
pub fn next_place(code: &Checked, frame: &Frame) -> Option<u32>
    requires { frame.now.fresh ≡ false → IsSome (code_at code.now frame.now.block frame.now.at) }
    ensures { IfSome result (λ at. (results : List Value) → goes_on code.now (frame_of frame.now) results ≡ Some (stands (frame_of frame.now) frame.now.block at (frame.now.slots.values ++ results))) }
{
    if frame.fresh {
        return None;
    }
    match &code.code(frame.block, frame.at).normal {
        None => {
            let at = frame.at.checked_add(1)?;
            Some(at)
        }
        Some(_) => None,
    }
}

/// The top frame stands at a place of its block, with these results behind its own variables. Where no memory is found nothing changes.
fn stand_next(frames: &mut Frames, at: u32, results: &Slots) -> Result<(), AllocError>
    ensures ok { OnOk result (frames.new ≡ record frames.old { top = stands frames.old.top frames.old.top.block at (frames.old.top.vars ++ results.now.values) }) }
    ensures err { OnErr result (frames.new ≡ frames.old) }
{
    let frame = frames.top_mut();
    frame.slots.reserve_for(results)?;
    frame.stand_behind(at, results);
    Ok(())
}

/// The top frame goes on with these results of its instruction. Where no memory is found the frames are as before; the list may have
/// changed.
pub fn go_on(
    code: &Checked,
    frames: &mut Frames,
    results: &Slots,
    out: &mut Slots,
) -> Result<(), AllocError>
    requires { IsSome (goes_on code.now frames.old.top results.now.values) }
    ensures top { OnOk result (goes_on code.now frames.old.top results.now.values ≡ Some frames.new.top) }
    ensures below { frames.new.below ≡ frames.old.below }
    ensures err { OnErr result (frames.new ≡ frames.old) }
{
    if let Some(at) = next_place(code, frames.top()) {
        return stand_next(frames, at, results);
    }
    let place = passing(code, frames.top(), results, out)?;
    stand(frames, place, out);
    Ok(())
}
