// Steps that are made at once: those of the frequent instructions, which write nothing and give no ending. So nothing is handed on
// of them but that they were made.
ghost use Rattle.std.specs.Prelude.{◌≡◌, ◌≢◌, ◌<◌, [], IfSome, true, false};
ghost use Rattle.mu_model.specs.declared.endings.StepEnd.TheVariants.{Went};
ghost use Rattle.mu_model.specs.Outcomes.{Stuck};
ghost use Rattle.mu_model.specs.Step.{step};
ghost use Rattle.model_numbers.specs.Numbered.{numbered};
ghost use Rattle.step_forms.specs.Asked.{lists_of};
ghost use Rattle.step_forms.specs.AtOnce.{decided};
ghost use Rattle.run_state.specs.Held.{configuration};
ghost use Rattle.run_state.specs.Outcome.{outcome_of};
ghost use Rattle.run_state.specs.Acting.{answers, acting, stepping, told};
ghost use Rattle.run_state.specs.StepLaws.{GoesOn};

use crate::step::{pick_thread, settle};
use checked_code::Checked;
use client_hooks::Determined;
use mem_axioms::Memory;
use stack_moves::lists::Lists;
use step_forms::{AtOnce, CaseRows, FrameView, Room, Variables, decide_at_once};
use thread_acts::state::State;

/// What the thread's next instruction asks, where that is decided at once, with values and classes in the room.
#[tactic(auto, using(run_state::specs::StepLaws::running))]
fn asks_at_once<M: Memory, C: Determined>(
    state: &State<M, C>,
    code: &Checked,
    rows: &mut CaseRows,
    room: &mut Room,
) -> AtOnce
    requires code { rows.old ≡ code.now }
    requires waits { GoesOn state.now }
    requires there { stepping code.now state.now ≢ Stuck }
    ensures same { rows.new ≡ rows.old }
    ensures act { IfSome (decided result (lists_of room.new)) (λ act. stepping code.now state.now ≡ acting code.now state.now act) }
{
    let top = state.frames.top();
    let block = code.block(top.block);
    let form = &block.code.as_slice()[top.at as usize].form;
    let vars = Variables::of(&top.slots);
    let view = FrameView {
        block: top.block,
        at: top.at,
        types: block.classes.as_slice(),
        vars: &vars,
    };
    decide_at_once(code, rows, view, form, room)
}

/// The thread does its next instruction at once, or nothing changes.
#[tactic(auto, using(crate::proofs::AtOnce::acting_at_once, run_state::specs::ActLaws::goes_is))]
fn run_at_once<M: Memory, C: Determined>(
    state: &mut State<M, C>,
    code: &Checked,
    rows: &mut CaseRows,
    lists: &mut Lists,
) -> bool
    requires code { rows.old ≡ code.now }
    requires left { state.old.left ≡ true }
    requires room { state.old.steps < state.old.budget }
    requires waits { GoesOn state.old }
    requires there { stepping code.now state.old ≢ Stuck }
    ensures made { result ≡ true → answers (Went []) state.new ≡ stepping code.now state.old }
    ensures left { result ≡ false → state.new ≡ state.old }
    ensures same { rows.new ≡ rows.old }
{
    match asks_at_once(state, code, rows, &mut lists.room) {
        AtOnce::Gives(scalar) => state.give_at_once(code, scalar),
        AtOnce::Goes { block } => {
            state.go_at_once(block, &mut lists.room.values);
            true
        }
        AtOnce::Calls { function } => state.call_at_once(code, function, &mut lists.room),
        AtOnce::Returns => state.return_at_once(code, &mut lists.room, &mut lists.out),
        AtOnce::Other => false,
    }
}

/// The step of the thread in hand is made at once, or nothing changes. A thread that waits makes none so.
#[tactic(auto, using(run_state::specs::Hand::waiting_hand, run_state::specs::Hand::told_there, run_state::specs::StepLaws::told_so))]
fn turn_at_once<M: Memory, C: Determined>(
    state: &mut State<M, C>,
    code: &Checked,
    rows: &mut CaseRows,
    lists: &mut Lists,
) -> bool
    requires code { rows.old ≡ code.now }
    requires left { state.old.left ≡ true }
    requires room { state.old.steps < state.old.budget }
    requires there { told C.way code.now state.old.client (stepping code.now state.old) ≢ Stuck }
    ensures made { result ≡ true → answers (Went []) state.new ≡ told C.way code.now state.old.client (stepping code.now state.old) }
    ensures left { result ≡ false → state.new ≡ state.old }
    ensures same { rows.new ≡ rows.old }
{
    match state.seats.waiting(state.thread) {
        Some(_cell) => false,
        None => run_at_once(state, code, rows, lists),
    }
}

/// One step of the run is made at once, or the configuration stays.
pub(crate) fn step_at_once<M: Memory, C: Determined>(
    state: &mut State<M, C>,
    code: &Checked,
    rows: &mut CaseRows,
    lists: &mut Lists,
) -> bool
    requires code { rows.old ≡ code.now }
    requires whole { state.old.skip ≡ 0 }
    requires there { told C.way code.now state.old.client (step (numbered code.now) (configuration state.old)) ≢ Stuck }
    ensures made { result ≡ true → outcome_of (Went []) (configuration state.new) ≡ told C.way code.now state.old.client (step (numbered code.now) (configuration state.old)) }
    ensures left { result ≡ false → configuration state.new ≡ configuration state.old }
    ensures whole { state.new.skip ≡ 0 }
    ensures same { rows.new ≡ rows.old }
{
    let many = state.seats.runnable();
    if many == 0 || state.steps == state.budget {
        return false;
    }
    pick_thread(state, many);
    let made = turn_at_once(state, code, rows, lists);
    settle(state, made);
    made
}
