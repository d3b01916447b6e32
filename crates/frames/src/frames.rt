// The frames of a stack.
ghost use Rattle.std.specs.Prelude.{◌≡◌, ◌<◌, ◌≤◌, ◌+◌, IsOk, [], ◌∷◌, ◌++◌, None, Some, is_some, length, drop, reverse, position, slice_get, option_map, option_copied, IfSome, IfNone, OnSome, OnOk, OnErr, IfOk, IfErr};
ghost use Rattle.std.specs.Borrow.{sem};
ghost use Rattle.frames.specs.Chains.{frames_in, nothing_kept, stands};
ghost use Rattle.frames.specs.FrameOf.{frame_of};
ghost use Rattle.frames.specs.Handlers.{first_handler, caught_below};
ghost use Rattle.frames.specs.Lending.{LendsTop};

use crate::frame::Frame;
use crate::unwound::Unwound;
use mu_base::{Ids, Types};
use mu_values::{Passed, Slots};
use std::alloc::{AllocError, Global};
use std::marker::Model;
use std::mem;

/// A stack has at most one frame more than this.
const MOST_BELOW: usize = 4294967294;

/// The frames of a stack. There is always one. Contracts see the top frame, those below it from the top down, and `spare`, the
/// number of frames more that `enter` puts on top without a refusal. A frame is counted from the top, which is 0.
#[derive(Drop)]
pub struct Frames {
    top: Frame,
    // From the bottom up.
    below: Vec<Frame>,
}

impl Model for Frames {
    ghost use Rattle.std.specs.Prelude.{◌≤◌, ◌-◌, min, map, reverse, vec_len, vec_capacity};
    ghost use Rattle.frames.specs.Chains.{StoredChain};

    ghost Value = { StoredChain };

    ghost use Rattle.frames.specs.FrameOf.{frame_of};

    ghost view = { λ s. record { top = frame_of s.top; below = map frame_of (reverse s.below.items); spare = min (vec_capacity s.below) 4294967294 - vec_len s.below } };

    ghost invariant = { λ s. vec_len s.below ≤ 4294967294 };
}

impl Frames {
    /// One frame, with room for one more. Where there is no memory the frame is handed back.
    pub fn new(alloc: Global, bottom: Frame) -> Result<Frames, (Frame, AllocError)>
        ensures top { IfOk result (λ s. s.top ≡ frame_of bottom) }
        ensures below { IfOk result (λ s. s.below ≡ []) }
        ensures room { IfOk result (λ s. 0 < s.spare) }
        ensures handed_back { IfErr result (λ e. e.0 ≡ bottom) }
    {
        match Vec::with_capacity(alloc, 1) {
            Ok(below) => Ok(Frames { top: bottom, below }),
            Err(refusal) => Err((bottom, refusal)),
        }
    }

    /// The top frame.
    pub fn top(&self) -> &Frame
        ensures { frame_of result.now ≡ self.now.top }
    {
        &self.top
    }

    /// Lends the top frame.
    pub fn top_mut(&mut self) -> &mut Frame
        ensures* lends { sem 𝓛 (LendsTop self.entry result) }
        ensures is { frame_of result.now ≡ self.old.top }
    {
        &mut self.top
    }

    /// Makes room for one more frame: the next `enter` is not refused then, and `leave` keeps the room. It is refused where there
    /// is no memory for a frame more, and where there would be 2^32 frames. The frames stay as they are in each case.
    pub fn reserve(&mut self) -> Result<(), AllocError>
        ensures top { self.new.top ≡ self.old.top }
        ensures below { self.new.below ≡ self.old.below }
        ensures room { OnOk result (0 < self.new.spare) }
        ensures spare { self.old.spare ≤ self.new.spare }
    {
        if self.below.len() == MOST_BELOW {
            return Err(AllocError);
        }
        self.below.reserve(1)
    }

    /// Puts a frame on top. It is refused only when out of memory, also where there would be 2^32 frames; then it changes
    /// nothing and hands the frame back. Where there is room it is not refused, and takes one place of
    /// the room.
    #[tactic(auto, using(crate::proofs::Places::pushed))]
    pub fn enter(&mut self, frame: Frame) -> Result<(), (Frame, AllocError)>
        ensures top { OnOk result (self.new.top ≡ frame_of frame) }
        ensures below { OnOk result (self.new.below ≡ frames_in self.old) }
        ensures spare { OnOk result (self.old.spare ≤ self.new.spare + 1) }
        ensures granted { 0 < self.old.spare → IsOk result }
        ensures same { OnErr result (self.new ≡ self.old) }
        ensures handed_back { IfErr result (λ e. e.0 ≡ frame) }
    {
        if self.below.len() == MOST_BELOW || self.below.reserve(1).is_err() {
            return Err((frame, AllocError));
        }
        let under = mem::replace(&mut self.top, frame);
        self.below.push_reserved(under);
        Ok(())
    }

    /// Puts a frame on top. The one that was there waits for values of these classes then, has no exceptional destination, and keeps
    /// nothing for a client; the list holds then what it waited for before. It is refused only when out of memory, also where there
    /// would be 2^32 frames; then the frames and the list are as they were, and the frame that was to enter is lost.
    #[inline(always)]
    #[tactic(auto, using(crate::proofs::Places::pushed))]
    pub fn enter_above(&mut self, frame: Frame, waits: &mut Types) -> Result<(), AllocError>
        ensures top { OnOk result (self.new.top ≡ frame_of frame) }
        ensures below { OnOk result (self.new.below ≡ record self.old.top { waits = waits.old.members; handler = None; kept = nothing_kept } ∷ self.old.below) }
        ensures former { OnOk result (waits.new.members ≡ self.old.top.waits) }
        ensures same { OnErr result (self.new ≡ self.old) }
        ensures same_list { OnErr result (waits.new.members ≡ waits.old.members) }
    {
        if self.below.len() == MOST_BELOW {
            return Err(AllocError);
        }
        self.below.reserve(1)?;
        // What changes is written before the frame is moved, so that it is moved once.
        mem::swap(&mut self.top.waits, waits);
        self.top.handler = None;
        self.top.kept.clear();
        let under = mem::replace(&mut self.top, frame);
        self.below.push_reserved(under);
        Ok(())
    }

    /// The top frame ends, and the one below it, which must be there, stands at that place of its block, with these results behind its
    /// variables, and waits for nothing. The objects of the frame that ended are answered; the list holds its values then, with their
    /// room. It is refused only when out of memory; then nothing changes.
    #[inline(always)]
    #[tactic(auto, using(crate::proofs::Places::pushed))]
    pub fn leave_to(
        &mut self,
        at: u32,
        results: &Slots,
        slots: &mut Slots,
    ) -> Result<Ids, AllocError>
        requires { 0 < length self.old.below }
        ensures objects { IfOk result (λ ids. ids.members ≡ self.old.top.objects) }
        ensures top { OnOk result (IfSome (slice_get self.old.below 0) (λ f. self.new.top ≡ stands f f.block at (f.vars ++ results.now.values))) }
        ensures below { OnOk result (self.new.below ≡ drop 1 self.old.below) }
        ensures former { OnOk result (slots.new.values ≡ self.old.top.vars) }
        ensures same { OnErr result (self.new ≡ self.old) }
        ensures same_list { OnErr result (slots.new.values ≡ slots.old.values) }
    {
        let Some(mut under) = self.below.pop() else {
            unreachable!();
        };
        if under.slots.reserve_for(results).is_err() {
            self.below.push_reserved(under);
            return Err(AllocError);
        }
        let mut ended = mem::replace(&mut self.top, under);
        self.top.stand_behind(at, results);
        mem::swap(&mut ended.slots, slots);
        Ok(ended.cells)
    }

    /// Takes the top frame away. None comes exactly where it is the only one; then nothing changes.
    #[tactic(auto, using(crate::proofs::Places::pushed))]
    pub fn leave(&mut self) -> Option<Frame>
        ensures left { IfSome result (λ frame. frame_of frame ≡ self.old.top) }
        ensures rest { OnSome result (frames_in self.new ≡ self.old.below) }
        ensures spare { self.old.spare ≤ self.new.spare }
        ensures only { IfNone result (self.old.below ≡ []) }
        ensures same { IfNone result (self.new ≡ self.old) }
    {
        match self.below.pop() {
            Some(under) => Some(mem::replace(&mut self.top, under)),
            None => None,
        }
    }

    /// The top frame goes on at the first instruction of a block, with these values of its variables; it waits for nothing, and
    /// its objects stay. The values of its former variables, with their room, stand in `slots` then. It takes constant time
    /// where the frame did not wait.
    pub fn jump(&mut self, block: u32, slots: &mut Slots)
        ensures frames { self.new ≡ record self.old { top = stands self.old.top block 0 slots.old.values } }
        ensures former { slots.new.values ≡ self.old.top.vars }
    {
        self.top.block = block;
        self.top.at = 0;
        self.top.fresh = false;
        self.top.waits.clear();
        self.top.handler = None;
        self.top.kept.clear();
        mem::swap(&mut self.top.slots, slots);
    }

    /// Which frame catches an exception: the first from the top that has an exceptional destination. It looks at the frames down
    /// to that one.
    #[tactic(auto, using(crate::proofs::Unwinding::top_catches, crate::proofs::Unwinding::below_catches))]
    pub fn unwind(&self) -> Unwound
        ensures { caught_below result ≡ first_handler (frames_in self.now) }
    {
        if self.top.handler.is_some() {
            return Unwound::Caught(0);
        }
        match first_from_last(&self.below) {
            Some(n) => Unwound::Caught(n as u32 + 1),
            None => Unwound::Uncaught,
        }
    }

    /// What a client sees of a frame that waits. None comes exactly where there is no such frame.
    pub fn kept(&self, frame: u32) -> Option<&Passed>
        ensures { option_copied result ≡ option_map (λ f. f.kept) (slice_get (frames_in self.now) frame) }
    {
        if frame < self.count() {
            Some(&self.frame(frame).kept)
        } else {
            None
        }
    }

    /// How many frames there are.
    pub fn count(&self) -> u32
        ensures { result ≡ length (frames_in self.now) }
    {
        self.below.len() as u32 + 1
    }

    /// The frame with that number.
    #[tactic(auto, using(crate::proofs::Places::below_at))]
    pub fn frame(&self, n: u32) -> &Frame
        requires { n < length (frames_in self.now) }
        ensures { slice_get (frames_in self.now) n ≡ Some (frame_of result.now) }
    {
        if n == 0 {
            &self.top
        } else {
            &self.below[self.below.len() - n as usize]
        }
    }
}

/// Which of these frames, counted from the last back, is the first that has a handler.
fn first_from_last(frames: &[Frame]) -> Option<usize>
    ensures is { result ≡ position (λ f. is_some f.handler) (reverse frames.now) }
    ensures within { IfSome result (λ n. n < length frames.now) }
{
    frames
        .iter()
        .rev()
        .position(|frame| frame.handler.is_some())
}
