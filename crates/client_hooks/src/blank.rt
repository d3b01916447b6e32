//! The handler that passes zero and NULL.
ghost use Rattle.std.specs.Prelude.{◌≡◌};
ghost use Rattle.mu_model.specs.Clients.{Pass, Resume};
ghost use Rattle.mu_model.specs.Answers.{blank, plain_answer};

use crate::copying::copy_values;
use crate::determined::DeterminedHandler;
use crate::hook::Handler;
use crate::notes::{Notes, Watches};
use crate::reply::{NO_EDIT, Reply, ReplyEnd, With};
use crate::view::TrapView;
use stacks::ReadyStack;
use std::alloc::{AllocError, Global};

/// Passes zero and NULL for all that is asked. So its answer is a function of the view.
#[derive(Clone, Copy)]
pub struct PassBlank;

impl Handler for PassBlank {
    ghost use Rattle.client_hooks.specs.Laws.{blank_resumes};

    ghost promises = { λ _ p view a. a ≡ plain_answer (Resume (Pass (blank p view.asked))) };

    fn handle(
        &self,
        alloc: Global,
        view: &TrapView,
        stack: ReadyStack,
    ) -> Result<Reply, (ReadyStack, AllocError)> {
        match copy_values(alloc, view.blank()) {
            Ok(values) => Ok(Reply {
                notes: Notes::new(alloc),
                watches: Watches::new(alloc),
                edit: NO_EDIT,
                end: ReplyEnd::Resume {
                    stack,
                    with: With::Pass(values),
                },
            }),
            Err(refusal) => Err((stack, refusal)),
        }
    }

    ghost resumes = { λ _. blank_resumes };
}

impl DeterminedHandler for PassBlank {
    ghost use Rattle.std.specs.Prelude.{Some};
    ghost use Rattle.std.proofs.Common.{ap};
    ghost use Rattle.client_hooks.specs.Laws.{auto_client, auto_stays};
    ghost use Rattle.client_hooks.specs.Ways.{by_entries};

    ghost way = { by_entries };

    ghost stands_for = { λ _. auto_client };

    ghost answers = { λ _ _ _ _ h. ap Some h };

    ghost stays = { λ _. auto_stays };
}
