//! Asks a client about a stack.
ghost use Rattle.std.specs.Prelude.{◌≡◌, List, IfOk, Some, option_map, slice_get};
ghost use Rattle.frames.specs.Activations.{Activation};
ghost use Rattle.mu_model.specs.Configuration.{Active};
ghost use Rattle.client_hooks.specs.Plans.{planned};
ghost use Rattle.seats.specs.Seats.{IsOn};

use client_hooks::{ClientFault, Determined, Plan, TrapView};
use mu_base::Types;
use seats::{Asks, Seats};
use stacks::ReadyStack;
use std::alloc::{AllocError, Global};

/// A client that is asked, and its answer.
#[derive(Drop)]
struct Asking<'a, C: Determined> {
    alloc: Global,
    client: &'a C,
    view: &'a TrapView,
    answer: Result<Option<Plan>, AllocError>,
}

impl<'a, C: Determined> Asks for Asking<'a, C> {
    ghost use Rattle.std.specs.Prelude.{◌≡◌, IfOk, option_map};
    ghost use Rattle.client_hooks.specs.Plans.{planned};

    ghost takes = { λ _ _ _. Unit {0} };

    ghost asked = { λ old number frames waits new after. (after ≡ frames) × IfOk new.answer (λ plan. option_map planned plan ≡ C.way.answer old.view.now.tables (record { thread = old.view.now.thread; watchpoint = old.view.now.watchpoint; asked = old.view.now.asked; frames = frames }) (C.stands_for old.client.now)) };

    fn ask(&mut self, stack: ReadyStack) -> ReadyStack {
        match self.client.answer(self.alloc, self.view, stack) {
            Ok(reply) => {
                let (plan, stack) = reply.apart();
                self.answer = Ok(Some(plan));
                stack
            }
            Err(ClientFault::Misuse(stack)) => {
                self.answer = Ok(None);
                stack
            }
            Err(ClientFault::Memory(stack)) => {
                self.answer = Err(AllocError);
                stack
            }
        }
    }
}

/// Asks a client for its answer to a trap of a thread, whose stack waits for values of the types that are asked. The client sees the
/// stack, and hands it back; nothing changes. None is misuse. It is refused only when out of memory.
pub fn ask<C: Determined>(
    alloc: Global,
    client: &C,
    view: &TrapView,
    seats: &mut Seats,
    stack: u32,
) -> Result<Option<Plan>, AllocError>
    requires { IsOn seats.old view.now.thread stack }
    ensures same { (frames : List Activation) → slice_get seats.old.stacks stack ≡ Some (Active view.now.thread frames) → seats.new ≡ seats.old }
    ensures answer { (frames : List Activation) → slice_get seats.old.stacks stack ≡ Some (Active view.now.thread frames)
        → IfOk result (λ plan. option_map planned plan ≡ C.way.answer view.now.tables (record { thread = view.now.thread; watchpoint = view.now.watchpoint; asked = view.now.asked; frames = frames }) (C.stands_for client.now)) }
{
    let waits = Types::from_vec(Vec::from_slice(alloc, view.asked().as_slice())?);
    let mut asking = Asking {
        alloc,
        client,
        view,
        answer: Ok(None),
    };
    seats.ask(view.thread(), stack, waits, &mut asking);
    asking.answer
}
