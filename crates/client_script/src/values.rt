//! The values of an entry's reply.
ghost use Rattle.std.specs.Prelude.{◌≡◌, map};
ghost use Rattle.frames.specs.Chains.{frames_in};
ghost use Rattle.mu_model.specs.Clients.{KeptValue};
ghost use Rattle.mu_model.specs.Answers.{typed_value_at, argument_value, with_of, reply_of};
ghost use Rattle.client_hooks.specs.Replies.{classed, way_of};
ghost use Rattle.client_script.specs.Meaning.{argument_meant, way_meant, reply_meant};
ghost use Rattle.client_hooks.specs.Plans.{end_planned};
ghost use Rattle.client_script.specs.Plans.{Makes, passed};
ghost use Rattle.client_script.specs.declared.tree.Reply.TheVariants as tree;

use crate::mentions::copied;
use crate::refusal::Refusal;
use crate::tree::{Argument, Reply, With};
use client_hooks::{ClassedValue, End, TrapView, With as Way};
use frames::Frames;
use mu_base::Types;
use mu_values::{Passed, Slots};
use std::alloc::Global;

/// A value of some, with its class.
fn value_at(alloc: Global, values: &Passed, n: usize) -> Result<ClassedValue, Refusal>
    ensures { Makes classed (typed_value_at values.now n) result }
{
    if n >= values.types().len() {
        return Err(Refusal::Misuse);
    }
    let value = copied(alloc, values.values().at(n))?;
    Ok(ClassedValue {
        class: values.types().at(n),
        value,
    })
}

/// A kept value of a frame.
fn kept_value(
    alloc: Global,
    frames: &Frames,
    frame: u32,
    value: u32,
) -> Result<ClassedValue, Refusal>
    ensures { Makes classed (argument_value (frames_in frames.now) (KeptValue frame value)) result }
{
    match frames.kept(frame) {
        Some(kept) => value_at(alloc, kept, value as usize),
        None => Err(Refusal::Misuse),
    }
}

/// The value of an argument.
fn argument(alloc: Global, frames: &Frames, argument: &Argument) -> Result<ClassedValue, Refusal>
    ensures { Makes classed (argument_value (frames_in frames.now) (argument_meant argument.now)) result }
{
    match argument {
        Argument::Told { class, value } => {
            let value = value.scalars(alloc)?;
            Ok(ClassedValue {
                class: *class,
                value,
            })
        }
        Argument::KeptValue { frame, value } => kept_value(alloc, frames, *frame, *value),
    }
}

/// The values of arguments, with their types.
fn pass(alloc: Global, frames: &Frames, arguments: &[Argument]) -> Result<Passed, Refusal>
    ensures { Makes (λ vs. vs) (passed (frames_in frames.now) (map argument_meant arguments.now)) result }
{
    let mut types = Types::new(alloc);
    let mut values = Slots::new(alloc);
    for given in arguments {
        let told = argument(alloc, frames, given)?;
        types.push(told.class)?;
        values.push_slice(told.value.as_slice())?;
    }
    Ok(Passed::new(types, values))
}

/// What a stack is entered with.
fn way(alloc: Global, frames: &Frames, with: &With) -> Result<Way, Refusal>
    ensures { Makes way_of (with_of (frames_in frames.now) (way_meant with.now)) result }
{
    match with {
        With::Pass(arguments) => {
            let values = pass(alloc, frames, arguments.as_slice())?;
            Ok(Way::Pass(values))
        }
        With::Throw(exception) => {
            let value = argument(alloc, frames, exception)?;
            Ok(Way::Throw(value))
        }
    }
}

/// Another stack is entered.
fn rebind(
    alloc: Global,
    view: &TrapView,
    frames: &Frames,
    stack: &Argument,
    with: &With,
) -> Result<End, Refusal>
    ensures { Makes end_planned (reply_of view.now.tables (frames_in frames.now) (reply_meant (tree.Rebind stack.now with.now))) result }
{
    let target = argument(alloc, frames, stack)?;
    if target.class != view.stackref() {
        return Err(Refusal::Misuse);
    }
    let with = way(alloc, frames, with)?;
    Ok(End::Rebind { target, with })
}

/// How an answer ends.
pub(crate) fn end(
    alloc: Global,
    view: &TrapView,
    frames: &Frames,
    reply: &Reply,
) -> Result<End, Refusal>
    ensures { Makes end_planned (reply_of view.now.tables (frames_in frames.now) (reply_meant reply.now)) result }
{
    match reply {
        Reply::Resume(with) => {
            let with = way(alloc, frames, with)?;
            Ok(End::Resume(with))
        }
        Reply::Rebind { stack, with } => rebind(alloc, view, frames, stack, with),
        Reply::Exit => Ok(End::Exit),
        Reply::Stop => Ok(End::Stop),
    }
}
