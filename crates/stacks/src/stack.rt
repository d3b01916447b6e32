// Stacks that are owned.
ghost use Rattle.std.specs.Prelude.{◌≡◌, ◌≢◌, ◌<◌, ◌≤◌, Some, None, IsSome, OnOk, OnErr, IfOk, IfErr};
ghost use Rattle.std.specs.Borrow.{sem};
ghost use Rattle.frames.specs.Chains.{frames_in};
ghost use Rattle.frames.specs.Handlers.{first_handler};
ghost use Rattle.stacks.specs.Lending.{LendsFrames, LendsOpened};

use crate::entered::Entered;
use frames::{Frames, Unwound};
use mu_base::Types;
use mu_values::{Passed, Scalar};
use std::alloc::AllocError;
use std::marker::Model;

/// A stack that may be entered: by values of the types that it waits for, or by an exception that one of its frames catches.
#[derive(Drop)]
pub struct ReadyStack {
    number: u32,
    frames: Frames,
    waits: Types,
}

impl Model for ReadyStack {
    ghost use Rattle.stacks.specs.Stacks.{Unbound};

    ghost Value = { Unbound };

    ghost view = { λ s. record { number = s.number; frames = s.frames; waits = s.waits.members } };
}

/// A stack that is bound to a thread.
#[derive(Drop)]
pub struct ActiveStack {
    number: u32,
    thread: u32,
    frames: Frames,
    passed: Option<Entered>,
}

impl Model for ActiveStack {
    ghost use Rattle.stacks.specs.Stacks.{Bound};

    ghost Value = { Bound };

    ghost view = { λ s. record { number = s.number; thread = s.thread; frames = s.frames; passed = s.passed } };
}

/// A stack whose frames are edited. It waits for nothing, and cannot be bound to a thread until it is closed.
#[derive(Drop)]
pub struct OpenStack {
    number: u32,
    frames: Frames,
}

impl Model for OpenStack {
    ghost use Rattle.stacks.specs.Stacks.{Opened};

    ghost Value = { Opened };

    ghost view = { λ s. record { number = s.number; frames = s.frames } };
}

/// A stack waits for values of other types than were passed.
#[derive(Drop)]
pub struct Misfit {
    /// The values that were passed.
    pub values: Passed,
}

/// No frame of a stack catches an exception.
#[derive(Clone, Copy, Debug, PartialEq, Eq)]
pub struct Uncaught;

impl ReadyStack {
    /// A stack of a directory.
    pub(crate) fn new(number: u32, frames: Frames, waits: Types) -> ReadyStack
        ensures { result ≡ record { number = number; frames = frames; waits = waits.members } }
    {
        ReadyStack {
            number,
            frames,
            waits,
        }
    }

    /// The number of the stack.
    pub fn number(&self) -> u32
        ensures { result ≡ self.now.number }
    {
        self.number
    }

    /// The classes of the types of the values that it waits for.
    pub fn waits(&self) -> &Types
        ensures { result.now.members ≡ self.now.waits }
    {
        &self.waits
    }

    /// Its frames.
    pub fn frames(&self) -> &Frames
        ensures { result.now ≡ self.now.frames }
    {
        &self.frames
    }

    /// Its frames, which leave it.
    pub(crate) fn into_frames(self) -> Frames
        ensures { result ≡ self.frames }
    {
        self.frames
    }

    /// Makes room for one more frame, as `Frames::reserve` of its frames does, and is refused where that is. Nothing else changes.
    pub fn reserve(&mut self) -> Result<(), AllocError>
        ensures number { self.new.number ≡ self.old.number }
        ensures waits { self.new.waits ≡ self.old.waits }
        ensures frames { frames_in self.new.frames ≡ frames_in self.old.frames }
        ensures room { OnOk result (0 < self.new.frames.spare) }
        ensures spare { self.old.frames.spare ≤ self.new.frames.spare }
    {
        self.frames.reserve()
    }

    /// Opens the stack, so that its frames can be edited. What it waited for is lost. It takes no memory, and the frames keep their
    /// room.
    pub fn begin_edit(self) -> OpenStack
        ensures { result ≡ record { number = self.number; frames = self.frames } }
    {
        OpenStack {
            number: self.number,
            frames: self.frames,
        }
    }

    /// Binds the stack to a thread and passes values to it, which `entered` hands out. It is refused exactly where their types are
    /// not those that the stack waits for; then the stack and the values come back.
    pub fn bind_values(
        self,
        thread: u32,
        values: Passed,
    ) -> Result<ActiveStack, (ReadyStack, Misfit)>
        ensures bound { IfOk result (λ s. s ≡ record { number = self.number; thread = thread; frames = self.frames; passed = Some (Entered.Values values) }) }
        ensures fits { OnOk result (values.types ≡ self.waits) }

        ensures misfit { OnErr result (values.types ≢ self.waits) }
        ensures stack_back { IfErr result (λ e. e.0 ≡ self) }
        ensures values_back { IfErr result (λ e. e.1.values ≡ values) }
    {
        if values.types().as_slice() != self.waits.as_slice() {
            return Err((self, Misfit { values }));
        }
        Ok(ActiveStack {
            number: self.number,
            thread,
            frames: self.frames,
            passed: Some(Entered::Values(values)),
        })
    }

    /// Binds the stack to a thread and throws an exception into it, which `entered` hands out. It is refused exactly where no frame
    /// catches it; then the stack comes back.
    pub fn bind_throw(self, thread: u32, exc: Scalar) -> Result<ActiveStack, (ReadyStack, Uncaught)>
        ensures bound { IfOk result (λ s. s ≡ record { number = self.number; thread = thread; frames = self.frames; passed = Some (Entered.Thrown exc) }) }
        ensures caught { OnOk result (IsSome (first_handler (frames_in self.frames))) }

        ensures uncaught { OnErr result (first_handler (frames_in self.frames) ≡ None) }
        ensures stack_back { IfErr result (λ e. e.0 ≡ self) }
    {
        match self.frames.unwind() {
            Unwound::Caught(_) => Ok(ActiveStack {
                number: self.number,
                thread,
                frames: self.frames,
                passed: Some(Entered::Thrown(exc)),
            }),
            Unwound::Uncaught => Err((self, Uncaught)),
        }
    }

    /// Undoes an unbinding: for the thread that the stack was unbound from, and a stack that was not put back since. Nothing is
    /// left to hand out.
    pub fn back(self, thread: u32) -> ActiveStack
        ensures { result ≡ record { number = self.number; thread = thread; frames = self.frames; passed = None } }
    {
        ActiveStack {
            number: self.number,
            thread,
            frames: self.frames,
            passed: None,
        }
    }
}

impl OpenStack {
    /// Lends its frames.
    pub fn frames_mut(&mut self) -> &mut Frames
        ensures* lends { sem 𝓛 (LendsOpened self.entry result) }
        ensures is { result.now ≡ self.old.frames }
    {
        &mut self.frames
    }

    /// Closes the stack: its edit is done, and from then on it waits for values of these types. It takes no memory, and the frames
    /// keep their room.
    pub fn close(self, waits: Types) -> ReadyStack
        ensures { result ≡ record { number = self.number; frames = self.frames; waits = waits.members } }
    {
        ReadyStack {
            number: self.number,
            frames: self.frames,
            waits,
        }
    }
}

impl ActiveStack {
    /// The number of the thread that it is bound to.
    pub fn thread(&self) -> u32
        ensures { result ≡ self.now.thread }
    {
        self.thread
    }

    /// The number of the stack.
    pub fn number(&self) -> u32
        ensures { result ≡ self.now.number }
    {
        self.number
    }

    /// Its frames.
    pub fn frames(&self) -> &Frames
        ensures { result.now ≡ self.now.frames }
    {
        &self.frames
    }

    /// Lends its frames.
    pub fn frames_mut(&mut self) -> &mut Frames
        ensures* lends { sem 𝓛 (LendsFrames self.entry result) }
        ensures is { result.now ≡ self.old.frames }
    {
        &mut self.frames
    }

    /// Its frames, which leave it.
    pub(crate) fn into_frames(self) -> Frames
        ensures { result ≡ self.frames }
    {
        self.frames
    }

    /// Hands out what was passed when the stack was bound. It is not to be called twice after a binding.
    pub fn entered(&mut self) -> Entered
        requires { IsSome self.old.passed }
        ensures passed { self.old.passed ≡ Some result }
        ensures rest { self.new ≡ record self.old { passed = None } }
    {
        self.passed.take().unwrap()
    }

    /// Takes the stack from its thread. From then on it waits for values of these types.
    pub fn unbind(self, waits: Types) -> ReadyStack
        ensures { result ≡ record { number = self.number; frames = self.frames; waits = waits.members } }
    {
        ReadyStack {
            number: self.number,
            frames: self.frames,
            waits,
        }
    }
}
