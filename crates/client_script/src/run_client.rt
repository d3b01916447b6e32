//! The client of a run.
ghost use Rattle.std.specs.Prelude.{◌≡◌, ◌&&◌, not, length, nat_eq};
ghost use Rattle.mu_model.specs.Answers.{answer_of, advanced};
ghost use Rattle.client_script.specs.ScriptClients.{values_named};

use crate::script::Script;
use client_hooks::{Chain, Client, ClientFault, Determined, Hook, PassBlank, Reply, TrapView};
use stacks::ReadyStack;
use std::alloc::Global;
use std::marker::Model;

/// What answers, after the last entry of a script too.
#[derive(Drop)]
enum Answering {
    /// The script, and then the run is stopped
    Stopping(Script),
    /// The script, and then a hook that passes zero and NULL
    Passing(Chain<Script, Hook<PassBlank>>),
}

/// The client of a run: a script, and after its last entry a hook that passes zero and NULL, where there is one; else the run is stopped
/// then. Contracts see it as the abstract machine does.
#[derive(Drop)]
pub struct RunClient {
    answering: Answering,
}

impl Model for RunClient {
    ghost use Rattle.mu_model.specs.Clients as clients;
    ghost use Rattle.client_script.specs.RunClients.{client_in};

    ghost Value = { clients.Client };

    ghost view = { λ k. client_in k.answering };
}

impl RunClient {
    /// A script, after which zero and NULL are passed or the run is stopped.
    pub fn new(script: Script, auto: bool) -> RunClient
        ensures { result ≡ record { entries = script; auto = auto } }
    {
        let answering = if auto {
            Answering::Passing(Chain::new(script, Hook::new(PassBlank)))
        } else {
            Answering::Stopping(script)
        };
        RunClient { answering }
    }
}

/// The answer is that of the next entry; after the last entry that of the hook, where there is one, and else it is to stop. It takes
/// memory for the answer.
impl Client for RunClient {
    ghost holds = { λ k. values_named k.entries };

    ghost may = { λ k p view answer. answer ≡ answer_of p view k };

    ghost is_spent = { λ k. not k.auto && nat_eq (length k.entries) 0 };

    ghost advances = { λ old new. new ≡ advanced old };

    fn answer(
        &self,
        alloc: Global,
        view: &TrapView,
        stack: ReadyStack,
    ) -> Result<Reply, ClientFault> {
        match &self.answering {
            Answering::Stopping(script) => script.answer(alloc, view, stack),
            Answering::Passing(chain) => chain.answer(alloc, view, stack),
        }
    }

    fn spent(&self) -> bool {
        match &self.answering {
            Answering::Stopping(script) => script.spent(),
            Answering::Passing(chain) => chain.spent(),
        }
    }

    fn advance(&mut self) {
        match &mut self.answering {
            Answering::Stopping(script) => script.advance(),
            Answering::Passing(chain) => chain.advance(),
        }
    }
}

impl Determined for RunClient {
    ghost use Rattle.client_hooks.specs.Ways.{by_entries};

    ghost way = { by_entries };

    ghost stands_for = { λ k. k };

    ghost answers = { λ _ _ _ _ h. h };

    ghost goes_on = { λ _ _ h. h };
}
