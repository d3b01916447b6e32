// How many options the next step has to pick from.
ghost use Rattle.std.specs.Prelude.{◌≡◌, ◌≢◌, IfOk, true};
ghost use Rattle.mu_model.specs.Outcomes.{Stuck};
ghost use Rattle.mu_model.specs.Step.{step};
ghost use Rattle.model_numbers.specs.Numbered.{numbered};
ghost use Rattle.run_state.specs.Held.{configuration};
ghost use Rattle.run_state.specs.Acting.{stepping, told};
ghost use Rattle.run_state.specs.StepLaws.{GoesOn};
ghost use Rattle.run_state.specs.Options.{access_in, step_options};
ghost use Rattle.memory_acts.specs.Counting.{act_of, access_count, stepping_count};

use crate::acts::asks;
use crate::step::{pick_thread, settle};
use checked_code::Checked;
use client_hooks::Determined;
use mem_axioms::Memory;
use std::alloc::AllocError;
use step_forms::{Act, Room};
use thread_acts::state::State;

/// How many options the next instruction of the thread in hand has to pick from.
#[tactic(auto, using(memory_acts::specs::AccessLaws::cell_there))]
fn instruction_options<M: Memory, C: Determined>(
    state: &State<M, C>,
    code: &Checked,
    room: &mut Room,
) -> Result<u32, AllocError>
    requires left { state.now.left ≡ true }
    requires waits { GoesOn state.now }
    requires there { stepping code.now state.now ≢ Stuck }
    ensures { IfOk result (λ n. n ≡ access_count state.now (access_in (act_of code.now state.now))) }
{
    match asks(state, code, room)? {
        Act::Accesses { access, cell } => Ok(state.options(access, cell)),
        _ => Ok(1),
    }
}

/// The same of the thread's turn. A thread that waits does no instruction.
#[tactic(auto, using(run_state::specs::Hand::waiting_hand, run_state::specs::Hand::told_there))]
fn turn_options<M: Memory, C: Determined>(
    state: &State<M, C>,
    code: &Checked,
    room: &mut Room,
) -> Result<u32, AllocError>
    requires left { state.now.left ≡ true }
    requires there { told C.way code.now state.now.client (stepping code.now state.now) ≢ Stuck }
    ensures { IfOk result (λ n. n ≡ stepping_count code.now state.now) }
{
    match state.seats.waiting(state.thread) {
        Some(_cell) => Ok(1),
        None => instruction_options(state, code, room),
    }
}

/// How many options the next step has to pick from, once its thread is picked. The configuration stays.
#[tactic(auto, using(memory_acts::specs::Counting::over_count, memory_acts::specs::Counting::none_count))]
pub(crate) fn options<M: Memory, C: Determined>(
    state: &mut State<M, C>,
    code: &Checked,
    room: &mut Room,
) -> Result<u32, AllocError>
    requires whole { state.old.skip ≡ 0 }
    requires there { told C.way code.now state.old.client (step (numbered code.now) (configuration state.old)) ≢ Stuck }
    ensures count { IfOk result (λ n. n ≡ step_options (numbered code.now) (configuration state.old)) }
    ensures same { configuration state.new ≡ configuration state.old }
    ensures whole { state.new.skip ≡ 0 }
{
    let many = state.seats.runnable();
    if many == 0 {
        return Ok(1);
    }
    if state.steps == state.budget {
        return Ok(1);
    }
    pick_thread(state, many);
    let options = turn_options(state, code, room);
    settle(state, false);
    options
}
