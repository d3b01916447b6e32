//! Clients by a handler.
ghost use Rattle.std.specs.Prelude.{◌≡◌, Some, IfOk, IfErr};
ghost use Rattle.check_tables.specs.declared.tables.Tables.{Tables};
ghost use Rattle.mu_model.specs.Clients.{Answer};
ghost use Rattle.mu_model.specs.Outcomes.{View};
ghost use Rattle.client_hooks.specs.Traps.{view_of};
ghost use Rattle.client_hooks.specs.Replies.{answer_in, stack_of, IsBack};
ghost use Rattle.client_hooks.specs.Handlers.{OnlyResumes};

use crate::client::Client;
use crate::reply::{ClientFault, Reply};
use crate::view::TrapView;
use stacks::ReadyStack;
use std::alloc::{AllocError, Global};

/// What a hook stores: it may be called on every view and stack, and hands the stack back.
pub trait Handler {
    /// Which answers it may give to a view, in a run of the bundle with these tables.
    ghost promises: { Self → Tables → View → Answer → Type 0 };

    /// Replies, or finds no memory; both hand the given stack back, with at least the room for frames that it had.
    fn handle(
        &self,
        alloc: Global,
        view: &TrapView,
        stack: ReadyStack,
    ) -> Result<Reply, (ReadyStack, AllocError)>
        ensures reply { IfOk result (λ r. promises self.now view.now.tables (view_of view.now stack) (answer_in r)) }
        ensures stack { IfOk result (λ r. IsBack stack (stack_of r.end)) }

        ensures stack_back { IfErr result (λ e. IsBack stack e.0) };

    /// The fact beside the handler: each of its answers records nothing, edits nothing, and enters the given stack by passing values of the
    /// types that are asked, which are zero and NULL or kept by a frame.
    ghost resumes: { (h : Self) (p : Tables) (view : View) (a : Answer) → promises h p view a → OnlyResumes p view a };
}

/// A client by a handler, which stays as it is from trap to trap. It holds no values, is never spent, and never answers `Misuse`.
#[derive(Drop)]
pub struct Hook<H: Handler> {
    handler: H,
}

impl<H: Handler> Hook<H> {
    /// A hook that stores this handler.
    pub fn new(handler: H) -> Hook<H>
        ensures { result.handler ≡ handler }
    {
        Hook { handler }
    }
}

impl<H: Handler> Client for Hook<H> {
    ghost use Rattle.std.specs.Prelude.{[], false};

    ghost is_spent = { λ _. false };

    ghost holds = { λ _. [] };

    ghost may = { λ h p view o. (a : Answer) × (o ≡ Some a) × H.promises h.handler p view a };

    ghost advances = { λ old new. new ≡ old };

    fn answer(
        &self,
        alloc: Global,
        view: &TrapView,
        stack: ReadyStack,
    ) -> Result<Reply, ClientFault> {
        match self.handler.handle(alloc, view, stack) {
            Ok(reply) => Ok(reply),
            Err((stack, _refusal)) => Err(ClientFault::Memory(stack)),
        }
    }

    fn spent(&self) -> bool {
        false
    }

    fn advance(&mut self) {}
}
