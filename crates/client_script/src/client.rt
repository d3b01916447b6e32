//! A script as a client.
ghost use Rattle.std.specs.Prelude.{◌≡◌, Some, length, nat_eq};
ghost use Rattle.frames.specs.Chains.{frames_in};
ghost use Rattle.mu_model.specs.Answers.{entry_answer, answer_of, advanced, plain_answer};
ghost use Rattle.mu_model.specs.Clients as clients;
ghost use Rattle.mu_model.specs.Answers as answers;
ghost use Rattle.client_hooks.specs.Replies.{answer_in, stack_of, edit_of};
ghost use Rattle.client_hooks.specs.Plans.{planned};
ghost use Rattle.client_script.specs.Meaning.{entry_meant};
ghost use Rattle.client_script.specs.ScriptClients.{client_of, values_named};
ghost use Rattle.client_script.specs.Plans.{Makes};

use crate::actions::{notes, watches};
use crate::refusal::Refusal;
use crate::script::Script;
use crate::tree::Entry;
use crate::values::end;
use client_hooks::{
    Client, ClientFault, Determined, Edit, NO_EDIT, Notes, Plan, Reply, ReplyEnd, TrapView, Watches,
};
use frames::Frames;
use stacks::ReadyStack;
use std::alloc::Global;

/// What an entry does to the frames.
fn edit(entry: &Entry) -> Edit
    ensures { edit_of result ≡ answers.edit_of (entry_meant entry.now) }
{
    match entry.edit.push {
        Some(pushed) => Edit {
            pop: entry.edit.pop,
            push: Some(pushed.function),
        },
        None => Edit {
            pop: entry.edit.pop,
            push: None,
        },
    }
}

/// The answer of an entry.
fn plan(alloc: Global, view: &TrapView, frames: &Frames, entry: &Entry) -> Result<Plan, Refusal>
    ensures { Makes planned (entry_answer view.now.tables (frames_in frames.now) (entry_meant entry.now)) result }
{
    let notes = notes(alloc, frames, entry.actions.as_slice())?;
    let end = end(alloc, view, frames, &entry.reply)?;
    let watches = watches(alloc, entry.actions.as_slice())?;
    Ok(Plan {
        notes,
        watches,
        edit: edit(entry),
        end,
    })
}

/// The answer after the last entry.
fn stop(alloc: Global, stack: ReadyStack) -> Reply
    ensures answer { answer_in result ≡ plain_answer clients.Stop }
    ensures stack { stack_of result.end ≡ stack }
{
    Reply {
        notes: Notes::new(alloc),
        watches: Watches::new(alloc),
        edit: NO_EDIT,
        end: ReplyEnd::Stop { stack },
    }
}

/// The answer is that of the next entry, in the order of its actions, with its edit; after the last entry it is to stop. The next entry is the same
/// until `advance`. It takes memory for the answer.
impl Client for Script {
    ghost holds = { values_named };

    ghost may = { λ s p view answer. answer ≡ answer_of p view (client_of s) };

    ghost is_spent = { λ es. nat_eq (length es) 0 };

    ghost advances = { λ old new. client_of new ≡ advanced (client_of old) };

    fn answer(
        &self,
        alloc: Global,
        view: &TrapView,
        stack: ReadyStack,
    ) -> Result<Reply, ClientFault> {
        let Some(entry) = self.first() else {
            return Ok(stop(alloc, stack));
        };
        match plan(alloc, view, stack.frames(), entry) {
            Ok(plan) => Ok(plan.onto(stack)),
            Err(Refusal::Misuse) => Err(ClientFault::Misuse(stack)),
            Err(Refusal::Memory) => Err(ClientFault::Memory(stack)),
        }
    }

    fn spent(&self) -> bool {
        self.is_empty()
    }

    fn advance(&mut self) {
        self.skip();
    }
}

impl Determined for Script {
    ghost use Rattle.client_hooks.specs.Ways.{by_entries};

    ghost way = { by_entries };

    ghost stands_for = { client_of };

    ghost answers = { λ _ _ _ _ h. h };

    ghost goes_on = { λ _ _ h. h };
}
