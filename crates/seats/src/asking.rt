// Stacks that are shown to another.
ghost use Rattle.std.specs.Prelude.{◌≡◌, ℕ, List, IsSome, IfSome, slice_get};
ghost use Rattle.frames.specs.Activations.{Activation};
ghost use Rattle.frames.specs.Chains.{frames_in};
ghost use Rattle.mu_threads.specs.Threads.{IsLeft, stack_of};
ghost use Rattle.seats.specs.Kept.{IsShown};

use mu_base::Types;
use mu_threads::Threads;
use stacks::ReadyStack;

/// What is asked of a stack that has left its thread for a moment.
pub trait Asks {
    /// Of which stacks it may be asked: by their frames, and by the classes of the values that they wait for.
    ghost takes: { Self → List Activation → List ℕ → Type 0 };

    /// What it is before and after it was asked of a stack with this number and these frames, which waits for values of these classes. And
    /// the frames of the stack after that.
    ghost asked: { Self → ℕ → List Activation → List ℕ → Self → List Activation → Type 0 };

    /// Looks at a stack, and hands it back. Its frames may change.
    fn ask(&mut self, stack: ReadyStack) -> ReadyStack
        requires { takes self.old (frames_in stack.frames) stack.waits }
        ensures number { result.number ≡ stack.number }
        ensures asked { asked self.old stack.number (frames_in stack.frames) stack.waits self.new (frames_in result.frames) };
}

/// A thread's stack, which waits for values of these types, leaves the thread, is shown, and is bound to the thread again with the frames
/// that it has then.
pub(crate) fn show<A: Asks>(threads: &mut Threads, thread: u32, waits: Types, asks: &mut A)
    requires left { IsLeft (slice_get threads.old.states thread) }
    requires holds { IsSome (stack_of threads.old thread) }
    requires takes { IfSome (stack_of threads.old thread) (λ b. A.takes asks.old (frames_in b.frames) waits.members) }
    ensures { IfSome (stack_of threads.old thread) (λ b. IsShown threads.old threads.new thread b.number (A.asked asks.old b.number (frames_in b.frames) waits.members asks.new)) }
{
    let stack = threads.take_stack(thread).unbind(waits);
    let stack = asks.ask(stack);
    threads.give_stack(thread, stack.back(thread));
}
