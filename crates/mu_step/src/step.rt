// The step of a run: which thread makes it.
ghost use Rattle.std.specs.Prelude.{◌≡◌, ◌≢◌, ◌<◌, IsSome, IfOk, OnErr, length, true, false, List};
ghost use Rattle.ir_tree.specs.declared.items.Item.{Item};
ghost use Rattle.checked_code.specs.Checking.{bundle_tables};
ghost use Rattle.mu_model.specs.Clients.{Client};
ghost use Rattle.mu_model.specs.Outcomes.{Stuck};
ghost use Rattle.mu_model.specs.Step.{step};
ghost use Rattle.model_numbers.specs.Numbered.{numbered};
ghost use Rattle.seats.specs.Seats.{seat_of, runnable_of};
ghost use Rattle.run_state.specs.Held.{configuration};
ghost use Rattle.run_state.specs.Hand.{IsTakenUp};
ghost use Rattle.run_state.specs.Outcome.{outcome_of, Stays};
ghost use Rattle.run_state.specs.Acting.{answers, stepping, told};
ghost use Rattle.run_state.specs.Options.{step_options};
ghost use Rattle.good_casts.specs.Good.{AreGood};
ghost use Rattle.memory_acts.specs.Counting.{stepping_count};

use crate::acts::{is_made, run};
use checked_code::Checked;
use client_hooks::Determined;
use good_casts::GoodCasts;
use mem_axioms::Memory;
use mu_model::{Ending, StepEnd};
use stack_moves::lists::Lists;
use std::alloc::AllocError;
use thread_acts::state::{State, ended};

/// The frames of a thread that is left come into the hand, where none are.
#[tactic(auto, using(run_state::specs::Hand::lifted_up, run_state::specs::Hand::lifted_sound))]
fn lift<M: Memory, C: Determined>(state: &mut State<M, C>, thread: u32)
    requires empty { state.old.left ≡ false }
    requires there { IsSome (seat_of state.old.seats thread) }
    ensures { IsTakenUp state.old state.new thread }
{
    let stack = state.seats.stack_of(thread);
    state.seats.exchange(thread, stack, &mut state.frames);
    state.thread = thread;
    state.stack = stack;
    state.left = true;
}

/// The frames of a thread that is left come into the hand.
#[tactic(auto, using(run_state::specs::Hand::taken_already, run_state::specs::Hand::taken_then))]
pub(crate) fn take_up<M: Memory, C: Determined>(state: &mut State<M, C>, thread: u32)
    requires { IsSome (seat_of state.old.seats thread) }
    ensures { IsTakenUp state.old state.new thread }
{
    if state.left {
        if state.thread == thread {
            return;
        }
        state.put_down();
    }
    lift(state, thread);
}

/// Picks one of so many threads, and takes it up. The pick is looked at, and not taken yet.
#[tactic(auto, using(run_state::specs::Hand::picks_thread, memory_acts::specs::Counting::options_so))]
pub(crate) fn pick_thread<M: Memory, C: Determined>(state: &mut State<M, C>, many: u32)
    requires many { many ≡ length (runnable_of state.old.seats) }
    requires some { 0 < many }
    requires room { state.old.steps < state.old.budget }
    requires whole { state.old.skip ≡ 0 }
    ensures left { state.new.left ≡ true }
    ensures room { state.new.steps < state.new.budget }
    ensures back { configuration (record state.new { skip = 0 }) ≡ configuration state.old }
    ensures client { state.new.client ≡ state.old.client }
    ensures step { (bundle : List Item) → step (numbered bundle) (configuration state.old) ≡ stepping bundle state.new }
    ensures options { (bundle : List Item) → step_options (numbered bundle) (configuration state.old) ≡ stepping_count bundle state.new }
{
    let picked = state.picks.look(0, many);
    let thread = state.seats.nth_runnable(picked);
    take_up(state, thread);
    state.skip = if many > 1 { 1 } else { 0 };
}

/// The picks that were looked at are taken where the step was made, and else are left.
pub(crate) fn settle<M: Memory, C: Determined>(state: &mut State<M, C>, made: bool)
    ensures made { made ≡ true → configuration state.new ≡ configuration state.old }
    ensures left { made ≡ false → state.new ≡ record state.old { skip = 0 } }
    ensures whole { state.new.skip ≡ 0 }
{
    if made {
        state.picks.skip(state.skip);
    }
    state.skip = 0;
}

/// No thread may make a step.
#[tactic(auto, using(run_state::specs::Hand::done_so, run_state::specs::Hand::waits_so))]
fn none_runs<M: Memory, C: Determined>(state: &State<M, C>) -> Result<StepEnd, AllocError>
    requires none { length (runnable_of state.now.seats) ≡ 0 }
    ensures ok { (bundle : List Item) (k : Client) → IfOk result (λ end. outcome_of end (configuration state.now) ≡ told C.way bundle k (step (numbered bundle) (configuration state.now))) }
    ensures stays { IfOk result (λ end. Stays end (configuration state.now) (configuration state.now)) }
{
    let threads = state.seats.left(state.alloc)?;
    if threads.is_empty() {
        Ok(ended(state.alloc, Ending::Done))
    } else {
        Ok(ended(state.alloc, Ending::AllWaiting { threads }))
    }
}

/// The step of the thread in hand. Where that waits, it does so with a limit, and the wait is over.
#[tactic(auto, using(run_state::specs::Hand::waiting_hand, run_state::specs::Hand::told_there, run_state::specs::StepLaws::told_plain))]
fn turn<M: Memory, C: Determined>(
    state: &mut State<M, C>,
    code: &Checked,
    casts: &mut GoodCasts,
    lists: &mut Lists,
) -> Result<StepEnd, AllocError>
    requires left { state.old.left ≡ true }
    requires room { state.old.steps < state.old.budget }
    requires there { told C.way code.now state.old.client (stepping code.now state.old) ≢ Stuck }
    requires casts { AreGood (bundle_tables code.now) state.old.objects casts.old }
    ensures ok { IfOk result (λ end. answers end state.new ≡ told C.way code.now state.old.client (stepping code.now state.old)) }
    ensures err { OnErr result (state.new ≡ state.old) }
    ensures stays { IfOk result (λ end. Stays end state.old state.new) }
    ensures casts { AreGood (bundle_tables code.now) state.old.objects casts.new }
{
    match state.seats.waiting(state.thread) {
        Some(cell) => state.time_out(code, cell, &mut lists.room.values, &mut lists.out),
        None => run(state, code, casts, lists),
    }
}

/// The step of a thread that is picked.
fn make_step<M: Memory, C: Determined>(
    state: &mut State<M, C>,
    code: &Checked,
    casts: &mut GoodCasts,
    many: u32,
    lists: &mut Lists,
) -> Result<StepEnd, AllocError>
    requires many { many ≡ length (runnable_of state.old.seats) }
    requires some { 0 < many }
    requires room { state.old.steps < state.old.budget }
    requires whole { state.old.skip ≡ 0 }
    requires there { told C.way code.now state.old.client (step (numbered code.now) (configuration state.old)) ≢ Stuck }
    requires casts { AreGood (bundle_tables code.now) state.old.objects casts.old }
    ensures ok { IfOk result (λ end. outcome_of end (configuration state.new) ≡ told C.way code.now state.old.client (step (numbered code.now) (configuration state.old))) }
    ensures err { OnErr result (configuration state.new ≡ configuration state.old) }
    ensures stays { IfOk result (λ end. Stays end (configuration state.old) (configuration state.new)) }
    ensures whole { state.new.skip ≡ 0 }
    ensures casts { AreGood (bundle_tables code.now) state.old.objects casts.new }
{
    pick_thread(state, many);
    let end = turn(state, code, casts, lists);
    settle(state, is_made(&end));
    end
}

/// One step of the run.
#[tactic(auto, using(run_state::specs::Hand::over_so))]
pub(crate) fn step<M: Memory, C: Determined>(
    state: &mut State<M, C>,
    code: &Checked,
    casts: &mut GoodCasts,
    lists: &mut Lists,
) -> Result<StepEnd, AllocError>
    requires whole { state.old.skip ≡ 0 }
    requires there { told C.way code.now state.old.client (step (numbered code.now) (configuration state.old)) ≢ Stuck }
    requires casts { AreGood (bundle_tables code.now) state.old.objects casts.old }
    ensures ok { IfOk result (λ end. outcome_of end (configuration state.new) ≡ told C.way code.now state.old.client (step (numbered code.now) (configuration state.old))) }
    ensures err { OnErr result (configuration state.new ≡ configuration state.old) }
    ensures stays { IfOk result (λ end. Stays end (configuration state.old) (configuration state.new)) }
    ensures whole { state.new.skip ≡ 0 }
    ensures casts { AreGood (bundle_tables code.now) state.new.objects casts.new }
{
    let many = state.seats.runnable();
    if many == 0 {
        return none_runs(state);
    }
    let steps = state.steps;
    if steps < state.budget {
        return make_step(state, code, casts, many, lists);
    }
    Ok(ended(state.alloc, Ending::Budget { steps }))
}
