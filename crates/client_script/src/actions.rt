//! The actions of an entry.
ghost use Rattle.std.specs.Prelude.{◌≡◌, [], ◌∷◌, ◌++◌, map, OnOk, IfOk};
ghost use Rattle.frames.specs.Chains.{frames_in};
ghost use Rattle.mu_model.specs.Clients.{TellKept};
ghost use Rattle.mu_model.specs.Answers.{frame_notes, notes_of, watches_of};
ghost use Rattle.client_script.specs.Meaning.{action_meant};
ghost use Rattle.client_script.specs.Plans.{Makes, Adds, noted};

use crate::copies::Copies;
use crate::refusal::Refusal;
use crate::tree::Action;
use client_hooks::{Notes, Watch, Watches};
use frames::Frames;
use std::alloc::{AllocError, Global};

/// Records where each frame stands, from the top.
fn note_frames(frames: &Frames, notes: &mut Notes) -> Result<(), AllocError>
    ensures { OnOk result (notes.new ≡ notes.old ++ frame_notes 0 (frames_in frames.now)) }
{
    for n in 0..frames.count() {
        let frame = frames.frame(n);
        notes.add_frame(n, frame.block, frame.at)?;
    }
    Ok(())
}

/// Records what a frame keeps.
fn note_kept(
    alloc: Global,
    copies: &mut Copies<'_>,
    n: u32,
    notes: &mut Notes,
) -> Result<(), Refusal>
    ensures same { copies.new ≡ copies.old }
    ensures adds { Adds (notes_of copies.old (TellKept n)) notes.old notes.new result }
{
    match copies.kept(alloc, n)? {
        Some(values) => {
            notes.add_kept(n, values)?;
            Ok(())
        }
        None => Err(Refusal::Misuse),
    }
}

/// Records what an action asks for.
fn note(
    alloc: Global,
    copies: &mut Copies<'_>,
    action: &Action,
    notes: &mut Notes,
) -> Result<(), Refusal>
    ensures same { copies.new ≡ copies.old }
    ensures adds { Adds (notes_of copies.old (action_meant action.now)) notes.old notes.new result }
{
    match action {
        Action::TellFrames => {
            note_frames(copies.frames(), notes)?;
            Ok(())
        }
        Action::TellKept(frame) => note_kept(alloc, copies, *frame, notes),
        Action::Watch { .. } => Ok(()),
    }
}

/// The records of some actions. What a frame keeps is copied once, however many of them tell of it.
pub(crate) fn notes(alloc: Global, frames: &Frames, actions: &[Action]) -> Result<Notes, Refusal>
    ensures { Makes (λ ns. ns) (noted (frames_in frames.now) (map action_meant actions.now)) result }
{
    let mut copies = Copies::new(alloc, frames);
    let mut notes = Notes::new(alloc);
    for action in actions {
        note(alloc, &mut copies, action, &mut notes)?;
    }
    Ok(notes)
}

/// Changes the watchpoint that an action names, if it names one.
fn watch(action: &Action, watches: &mut Watches) -> Result<(), AllocError>
    ensures { OnOk result (watches.new ≡ watches.old ++ watches_of (action_meant action.now ∷ [])) }
{
    match action {
        Action::Watch {
            watchpoint,
            enabled,
        } => watches.add(Watch {
            number: *watchpoint,
            enabled: *enabled,
        }),
        _ => Ok(()),
    }
}

/// The changes of some actions.
pub(crate) fn watches(alloc: Global, actions: &[Action]) -> Result<Watches, AllocError>
    ensures { IfOk result (λ ws. ws ≡ watches_of (map action_meant actions.now)) }
{
    let mut watches = Watches::new(alloc);
    for action in actions {
        watch(action, &mut watches)?;
    }
    Ok(watches)
}
