//! Clients one after the other.
ghost use Rattle.std.specs.Prelude.{◌≡◌};

use crate::client::Client;
use crate::reply::{ClientFault, Reply};
use crate::view::TrapView;
use stacks::ReadyStack;
use std::alloc::Global;

/// Two clients: the first answers while it is not spent, and then the second. It is spent where both are.
#[derive(Drop)]
pub struct Chain<A: Client, B: Client> {
    first: A,
    second: B,
}

impl<A: Client, B: Client> Chain<A, B> {
    /// A chain of these two.
    pub fn new(first: A, second: B) -> Chain<A, B>
        ensures first { result.first ≡ first }
        ensures second { result.second ≡ second }
    {
        Chain { first, second }
    }
}

impl<A: Client, B: Client> Client for Chain<A, B> {
    ghost use Rattle.std.specs.Prelude.{◌≡◌, ◌&&◌, ◌++◌, if◌then◌else◌};
    ghost use Rattle.client_hooks.specs.Chains.{of_answering};

    ghost holds = { λ k. A.holds k.first ++ B.holds k.second };

    ghost may = { λ k p view o. of_answering (A.is_spent k.first) (A.may k.first p view o) (B.may k.second p view o) };

    ghost is_spent = { λ k. A.is_spent k.first && B.is_spent k.second };

    ghost advances = { λ k l. of_answering (A.is_spent k.first) (A.advances k.first l.first × (l.second ≡ k.second)) (B.advances k.second l.second × (l.first ≡ k.first)) };

    fn answer(
        &self,
        alloc: Global,
        view: &TrapView,
        stack: ReadyStack,
    ) -> Result<Reply, ClientFault> {
        if self.first.spent() {
            self.second.answer(alloc, view, stack)
        } else {
            self.first.answer(alloc, view, stack)
        }
    }

    fn spent(&self) -> bool {
        self.first.spent() && self.second.spent()
    }

    fn advance(&mut self) {
        if self.first.spent() {
            self.second.advance();
        } else {
            self.first.advance();
        }
    }
}
