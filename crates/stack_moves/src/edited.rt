// The frames of a stack as an edit leaves them, which are looked at before it is made.
ghost use Rattle.std.specs.Prelude.{◌≡◌, ◌+◌, ◌<◌, IfOk, IfSome, IsSome, Some, drop, false, length, option_map, slice_get, true};
ghost use Rattle.checked_code.specs.Checking.{bundle_functions, bundle_tables};
ghost use Rattle.frames.specs.Chains.{chain_of, frames_in, frames_of, stands};
ghost use Rattle.frames.specs.FrameOf.{frame_of};
ghost use Rattle.frames.specs.Handlers.{caught_below, first_handler};
ghost use Rattle.mu_model.specs.Clients.{no_edit};
ghost use Rattle.mu_model.specs.Types.{classes_taken};
ghost use Rattle.mu_osr.specs.Pushing.{before_parameters, first_of};
ghost use Rattle.client_hooks.specs.Replies.{edit_of};
ghost use Rattle.run_state.specs.Acting.{goes_on};
ghost use Rattle.stack_moves.specs.Editing.{IsMade, after_edit, fresh_of, pushed_of};

use checked_code::Checked;
use client_hooks::Edit;
use frames::{Frame, Frames, Unwound};
use mu_osr::parameters_of;
use mu_values::Slots;
use run_state::flow::{Place, passing};
use std::alloc::AllocError;
use std::marker::Model;

/// Whether an edit changes nothing.
#[tactic(auto, using(crate::proofs::EditedViews::empty_edit))]
pub fn is_no_edit(edit: Edit) -> bool
    ensures { result ≡ true → edit_of edit ≡ no_edit }
{
    edit.pop == 0 && edit.push.is_none()
}

/// A frame that an edit is to push: it waits for the parameters of its block.
#[derive(Drop)]
struct Fresh<'a> {
    block: u32,
    takes: &'a [u32],
}

/// The frames of a stack, as they are or as an edit is to leave them. Contracts see those.
#[derive(Drop)]
pub struct Edited<'a> {
    frames: &'a Frames,
    // The first frame that stays.
    from: u32,
    pushed: Option<Fresh<'a>>,
}

impl<'a> Model for Edited<'a> {
    ghost use Rattle.std.specs.Prelude.{◌<◌, length, option_map};
    ghost use Rattle.frames.specs.Chains.{Chain, frames_in};
    ghost use Rattle.stack_moves.specs.Editing.{chain_from, fresh_of, with_pushed};

    ghost Value = { Chain };

    ghost view = { λ e. with_pushed (option_map fresh_of e.pushed) (chain_from e.from e.frames.now.top e.frames.now.below) };

    ghost invariant = { λ e. e.from < length (frames_in e.frames.now) };
}

/// The frame of a function that is to be pushed, where it has a body.
fn fresh_frame<'a>(code: &'a Checked, function: u32) -> Option<Fresh<'a>>
    requires { function < length (bundle_functions code.now) }
    ensures { option_map fresh_of result ≡ option_map (λ block. before_parameters block (classes_taken (bundle_tables code.now) function)) (first_of code.now function) }
{
    match code.function(function).first {
        Some(block) => Some(Fresh {
            block,
            takes: parameters_of(code, function),
        }),
        None => None,
    }
}

/// The frame that an edit is to push, where it pushes one.
fn pushed_frame<'a>(code: &'a Checked, push: Option<u32>) -> Option<Fresh<'a>>
    requires { IfSome push (λ f. f < length (bundle_functions code.now)) }
    ensures { option_map fresh_of result ≡ pushed_of code.now push }
{
    match push {
        Some(function) => fresh_frame(code, function),
        None => None,
    }
}

/// One more than a number, where a frame is pushed.
fn counted_on(n: u32, is_pushed: bool) -> u32
    requires { n + 1 < 4294967296 }
    ensures more { is_pushed ≡ true → result ≡ n + 1 }
    ensures same { is_pushed ≡ false → result ≡ n }
{
    if is_pushed { n + 1 } else { n }
}

/// The frame that catches an exception, and how many stand above it.
#[derive(Drop)]
pub(crate) struct Catcher<'a> {
    pub(crate) above: u32,
    pub(crate) frame: &'a Frame,
}

impl<'a> Edited<'a> {
    /// The frames as they are.
    pub(crate) fn whole(frames: &'a Frames) -> Edited<'a>
        ensures { result ≡ chain_of frames.now }
    {
        Edited {
            frames,
            from: 0,
            pushed: None,
        }
    }

    /// The frames as an edit is to leave them, which is not refused.
    #[tactic(auto, using(crate::proofs::EditedViews::made))]
    pub fn after(code: &'a Checked, frames: &'a Frames, edit: Edit) -> Edited<'a>
        requires { IsMade code.now (edit_of edit) (frames_in frames.now) }
        ensures { frames_of result ≡ (after_edit code.now (edit_of edit) (frames_in frames.now)).frames }
    {
        Edited {
            frames,
            from: edit.pop,
            pushed: pushed_frame(code, edit.push),
        }
    }

    /// The classes of what the top frame waits for.
    #[tactic(auto, using(crate::proofs::EditedViews::seeing))]
    pub fn waits(&self) -> &[u32]
        ensures { result.now ≡ self.now.top.waits }
    {
        match &self.pushed {
            Some(fresh) => fresh.takes,
            None => self.frames.frame(self.from).waits.as_slice(),
        }
    }

    /// Where the top frame stands next with these values. Its variables then are written to a list.
    #[tactic(auto, using(crate::proofs::EditedViews::seeing))]
    pub(crate) fn passing(
        &self,
        code: &Checked,
        values: &Slots,
        out: &mut Slots,
    ) -> Result<Place, AllocError>
        requires { IsSome (goes_on code.now self.now.top values.now.values) }
        ensures { IfOk result (λ place. goes_on code.now self.now.top values.now.values ≡ Some (stands self.now.top place.block place.at out.new.values)) }
    {
        match &self.pushed {
            Some(fresh) => {
                out.clear();
                out.append(values)?;
                Ok(Place {
                    block: fresh.block,
                    at: 0,
                })
            }
            None => passing(code, self.frames.frame(self.from), values, out),
        }
    }

    /// Which of them catches an exception. None comes exactly where none has an exceptional destination. It looks at the frames down
    /// to that one.
    #[tactic(auto, using(crate::proofs::EditedViews::catching))]
    pub(crate) fn catching(&self) -> Option<Catcher<'_>>
        ensures first { option_map (λ r. r.above) result ≡ first_handler (frames_of self.now) }
        ensures there { IfSome result (λ r. slice_get (frames_of self.now) r.above ≡ Some (frame_of r.frame.now)) }
    {
        // There are no more frames than a number counts.
        let _ = self.frames.count();
        match unwind_from(self.frames, self.from) {
            Unwound::Uncaught => None,
            Unwound::Caught(n) => {
                let frame = self.frames.frame(self.from + n);
                // A frame that was pushed has no exceptional destination.
                let above = counted_on(n, self.pushed.is_some());
                Some(Catcher { above, frame })
            }
        }
    }
}

/// Which frame catches an exception, counted from the one with that number, which is looked at first.
#[tactic(auto, using(crate::proofs::EditedViews::unwinding))]
fn unwind_from(frames: &Frames, from: u32) -> Unwound
    requires { from < length (frames_in frames.now) }
    ensures { caught_below result ≡ first_handler (drop from (frames_in frames.now)) }
{
    if from == 0 {
        return frames.unwind();
    }
    for n in 0..frames.count() - from {
        if frames.frame(from + n).handler.is_some() {
            return Unwound::Caught(n);
        }
    }
    Unwound::Uncaught
}
