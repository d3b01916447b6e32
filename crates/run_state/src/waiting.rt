// What a frame waits for while a function that it called stands above it.
ghost use Rattle.std.specs.Prelude.{◌≡◌, ℕ, List, IsSome, None, Some, true, IfOk, OnOk, OnErr, option_map};
ghost use Rattle.checked_code.specs.Answers.{code_at};
ghost use Rattle.checked_code.specs.Checking.{bundle_tables};
ghost use Rattle.frames.specs.Chains.{chain_of, nothing_kept};
ghost use Rattle.frames.specs.FrameOf.{frame_of, goal_of};
ghost use Rattle.mu_model.specs.Types.{classes_given};
ghost use Rattle.model_numbers.specs.Numbered.{optional_goal_at, kept_at};
ghost use Rattle.run_state.specs.Acting.{awaits, awaited, with_awaited, entered, entered_above};

use checked_code::{Checked, Target};
use frames::{Frame, Frames, Handler};
use mu_base::{Ids, Types};
use mu_values::{Passed, Slots};
use std::alloc::{AllocError, Global};
use std::marker::Model;
use std::mem;
use step_forms::{Variables, copy_classes, read_goal, read_kept};

/// What a frame waits for: the classes of what it is to be given, where an exception goes that comes, and what a client sees of it.
#[derive(Drop)]
pub struct Wait {
    waits: Types,
    handler: Option<Handler>,
    kept: Passed,
}

impl Model for Wait {
    ghost use Rattle.std.specs.Prelude.{option_map};
    ghost use Rattle.frames.specs.FrameOf.{goal_of};
    ghost use Rattle.run_state.specs.Acting.{Awaited};

    ghost Value = { Awaited };

    ghost view = { λ w. record { waits = w.waits.members; handler = option_map goal_of w.handler; kept = w.kept } };
}

impl Wait {
    /// The classes of what the frame is to be given.
    pub fn waits(&self) -> &Types
        ensures { result.now.members ≡ self.now.waits }
    {
        &self.waits
    }

    /// Ends a wait that no frame takes up. That list becomes its list of classes, with its room, so that a later wait needs no new
    /// memory. What the list held, and all else of the wait, is dropped. It takes no memory, and so is not refused.
    pub fn leave_room(mut self, list: &mut Types) {
        mem::swap(&mut self.waits, list);
    }
}

/// The classes of what a function gives, in place of what the list held. Where no memory is found some may be missing.
pub fn read_classes_given(code: &Checked, function: u32, out: &mut Types) -> Result<(), AllocError>
    ensures { OnOk result (out.new.members ≡ classes_given (bundle_tables code.now) function) }
{
    out.clear();
    let tables = code.tables();
    let Some(number) = tables.functions.as_slice().get(function as usize) else {
        return Ok(());
    };
    let Some(signature) = tables.signatures.as_slice().get(*number as usize) else {
        return Ok(());
    };
    copy_classes(signature.gives.as_slice(), out)
}

/// A destination with the values of its arguments.
fn handler(
    alloc: Global,
    code: &Checked,
    own: &Slots,
    exceptional: &Option<Target>,
) -> Result<Option<Handler>, AllocError>
    requires { IsSome (optional_goal_at code.now own.now.values exceptional.now) }
    ensures { IfOk result (λ handler. optional_goal_at code.now own.now.values exceptional.now ≡ Some (option_map goal_of handler)) }
{
    match exceptional {
        None => Ok(None),
        Some(target) => {
            let mut args = Slots::new(alloc);
            read_goal(code, &Variables::of(own), target, &mut args)?;
            Ok(Some(Handler {
                block: target.block,
                args,
            }))
        }
    }
}

/// The values of variables that are kept.
#[tactic(auto, using(crate::specs::Kept::kept_even))]
fn kept(alloc: Global, types: &[u32], own: &Slots, names: &[u32]) -> Result<Passed, AllocError>
    requires { IsSome (kept_at types.now own.now.values names.now) }
    ensures { IfOk result (λ kept. kept_at types.now own.now.values names.now ≡ Some kept) }
{
    let mut classes = Types::new(alloc);
    let mut values = Slots::new(alloc);
    read_kept(types, &Variables::of(own), names, &mut classes, &mut values)?;
    Ok(Passed::new(classes, values))
}

/// What a frame waits for that calls a function, with the room of that list for the classes. An empty list takes its place. It is
/// refused only when out of memory.
pub fn waiting(
    alloc: Global,
    code: &Checked,
    frame: &Frame,
    function: u32,
    list: &mut Types,
) -> Result<Wait, AllocError>
    requires { IsSome (awaited code.now (frame_of frame.now) function) }
    ensures { IfOk result (λ w. awaited code.now (frame_of frame.now) function ≡ Some w) }
{
    let mut waits = mem::replace(list, Types::new(alloc));
    read_classes_given(code, function, &mut waits)?;
    waiting_for(alloc, code, frame, waits)
}

/// Whether a frame that is to wait at its instruction does so for values alone: the instruction has no exceptional destination, and keeps
/// nothing for a client.
pub fn waits_for_values(code: &Checked, frame: &Frame) -> bool
    requires { IsSome (code_at code.now frame.now.block frame.now.at) }
    ensures { result ≡ true → (classes : List ℕ) → awaits code.now (frame_of frame.now) classes ≡ Some (record { waits = classes; handler = None; kept = nothing_kept }) }
{
    let instruction = code.code(frame.block, frame.at);
    match &instruction.exceptional {
        None => instruction.keepalive.as_slice().is_empty(),
        Some(_) => false,
    }
}

/// What a frame waits for that is to be given values of these classes: with the arguments of its instruction's exceptional destination, and
/// the values that it keeps for a client, both copied from its variables. It is refused only when out of memory; then the list of classes
/// is dropped.
#[tactic(auto, using(crate::specs::ActLaws::awaiting))]
pub fn waiting_for(
    alloc: Global,
    code: &Checked,
    frame: &Frame,
    waits: Types,
) -> Result<Wait, AllocError>
    requires { IsSome (awaits code.now (frame_of frame.now) waits.members) }
    ensures { IfOk result (λ w. awaits code.now (frame_of frame.now) waits.members ≡ Some w) }
{
    let block = code.block(frame.block);
    let instruction = &block.code.as_slice()[frame.at as usize];
    let handler = handler(alloc, code, &frame.slots, &instruction.exceptional)?;
    let kept = kept(
        alloc,
        block.classes.as_slice(),
        &frame.slots,
        instruction.keepalive.as_slice(),
    )?;
    Ok(Wait {
        waits,
        handler,
        kept,
    })
}

/// The frame of a function that is called with these values, at its first block.
pub fn entered(alloc: Global, block: u32, slots: Slots) -> Frame
    ensures { frame_of result ≡ entered block slots.values }
{
    Frame {
        block,
        at: 0,
        slots,
        fresh: false,
        waits: Types::new(alloc),
        handler: None,
        kept: Passed::new(Types::new(alloc), Slots::new(alloc)),
        cells: Ids::new(alloc),
    }
}

/// The frame waits so, and what it waited for before is handed back.
fn exchange(frame: &mut Frame, waiting: &mut Wait)
    ensures frame { frame_of frame.new ≡ with_awaited (frame_of frame.old) waiting.old }
    ensures before { with_awaited (frame_of frame.new) waiting.new ≡ frame_of frame.old }
{
    mem::swap(&mut frame.waits, &mut waiting.waits);
    mem::swap(&mut frame.handler, &mut waiting.handler);
    mem::swap(&mut frame.kept, &mut waiting.kept);
}

/// The same of the top frame.
pub fn exchange_on_top(frames: &mut Frames, waiting: &mut Wait)
    ensures frames { frames.new ≡ record frames.old { top = with_awaited frames.old.top waiting.old } }
    ensures before { record frames.new { top = with_awaited frames.new.top waiting.new } ≡ frames.old }
{
    exchange(frames.top_mut(), waiting)
}

/// Puts a frame on top, below which the one that was there waits so. What it waited for before stands then where what it waits for stood.
/// Where that is refused the frames are as before.
pub fn enter(frames: &mut Frames, frame: Frame, waiting: &mut Wait) -> Result<(), AllocError>
    ensures ok { OnOk result (chain_of frames.new ≡ entered_above (chain_of frames.old) (frame_of frame) waiting.old) }
    ensures err { OnErr result (frames.new ≡ frames.old) }
{
    exchange_on_top(frames, waiting);
    match frames.enter(frame) {
        Ok(()) => Ok(()),
        Err(_refused) => {
            exchange_on_top(frames, waiting);
            Err(AllocError)
        }
    }
}
