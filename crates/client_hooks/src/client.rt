// What a client promises.
ghost use Rattle.std.specs.Prelude.{◌≡◌, Bool, List, Option, Some, None, IfOk, IfErr};
ghost use Rattle.std.specs.List.{Contains};
ghost use Rattle.check_tables.specs.declared.tables.Tables.{Tables};
ghost use Rattle.mu_model.specs.Clients.{Classed, Answer};
ghost use Rattle.mu_model.specs.Outcomes.{View};
ghost use Rattle.client_hooks.specs.Traps.{view_of};
ghost use Rattle.client_hooks.specs.Replies.{answer_in, stack_of, stack_in, IsMisuse, IsBack};
ghost use Rattle.client_hooks.specs.Told.{AnswerIsTold};

use crate::reply::{ClientFault, Reply};
use crate::view::TrapView;
use stacks::ReadyStack;
use std::alloc::Global;

/// What answers the traps of a run.
///
/// Contracts see of a client which answers it may give to a view, which values it holds, and whether it is spent. Only out of memory is
/// free. The frames of a view are those of the stack that is handed over with it, so a trap costs no look at frames that the answer does
/// not name.
pub trait Client {
    /// Values with the classes of their types, which its answers may give besides those of the view.
    ghost holds: { Self → List Classed };

    /// Which answers it may give to a view, in a run of the bundle with these tables. None is misuse.
    ghost may: { Self → Tables → View → Option Answer → Type 0 };

    /// Whether it is spent: it has no answer of its own left, and another client may answer in its place.
    ghost is_spent: { Self → Bool };

    /// What it is before and after `advance`.
    ghost advances: { Self → Self → Type 0 };

    /// Answers a trap, and hands the trapped stack back as it was given, with at least the room for frames that it had. Each value of a
    /// reply has its class from the view, as zero and NULL for what is asked or as a kept value of a frame, or the client holds it;
    /// a stack to enter has the type `stackref`, and a function that is pushed is a value that the client holds. `Misuse` comes exactly
    /// where the answer is one. With it nothing is recorded, no watchpoint changes and no frame is popped or pushed.
    fn answer(
        &self,
        alloc: Global,
        view: &TrapView,
        stack: ReadyStack,
    ) -> Result<Reply, ClientFault>
        ensures reply { IfOk result (λ r. may self.now view.now.tables (view_of view.now stack) (Some (answer_in r))) }
        ensures told { IfOk result (λ r. AnswerIsTold view.now.tables (view_of view.now stack) (holds self.now) (answer_in r)) }
        ensures stack { IfOk result (λ r. IsBack stack (stack_of r.end)) }

        ensures misuse { IfErr result (λ e. IsMisuse e → may self.now view.now.tables (view_of view.now stack) None) }
        ensures stack_back { IfErr result (λ e. IsBack stack (stack_in e)) };

    /// Whether it is spent. It takes no memory.
    fn spent(&self) -> bool
        ensures { result ≡ is_spent self.now };

    /// Goes past the answer that was taken. It takes no memory.
    fn advance(&mut self)
        ensures advanced { advances self.old self.new }
        ensures held { (v : Classed) → Contains (holds self.new) v → Contains (holds self.old) v };
}
