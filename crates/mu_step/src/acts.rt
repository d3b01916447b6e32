// What the thread in hand does, by the act that its next instruction asks.
ghost use Rattle.std.specs.Prelude.{◌≡◌, ◌≢◌, ◌<◌, IfOk, OnErr, Some, length, true, false};
ghost use Rattle.checked_code.specs.Checking.{bundle_tables};
ghost use Rattle.typed_heap.specs.Heap.{AreNarrow};
ghost use Rattle.mu_model.specs.Outcomes.{Stuck};
ghost use Rattle.mu_model.specs.Acts as acts;
ghost use Rattle.step_forms.specs.Asked.{asked, lists_of};
ghost use Rattle.step_forms.specs.Classes.{ActIsThere};
ghost use Rattle.run_state.specs.Outcome.{Stays};
ghost use Rattle.run_state.specs.Acting.{answers, acting, stepping, told};
ghost use Rattle.run_state.specs.Hand.{is_went};
ghost use Rattle.good_casts.specs.Good.{AreGood};
ghost use Rattle.memory_acts.specs.Counting.{act_of};
ghost use Rattle.object_acts.specs.Making.{graph_of};
ghost use Rattle.run_state.specs.StepLaws.{GoesOn};
ghost use Rattle.mu_step.specs.Rare.{is_rare, may_ask};

use bundle_facts::widths_are_narrow;
use checked_code::Checked;
use client_hooks::Determined;
use good_casts::GoodCasts;
use mem_axioms::Memory;
use memory_acts::futexes::CellWait;
use mu_model::StepEnd;
use mu_values::Scalar;
use object_acts::making::Making;
use stack_moves::lists::Lists;
use std::alloc::AllocError;
use step_forms::{Act, Room, Variables, decide, forms_are_there};
use swap_acts::entering::{leave_stack, swap};
use swap_acts::starting::start_thread;
use thread_acts::state::State;
use trap_acts::asking::{choose, meet, trap};
use wake_acts::wakes::wake;

/// Whether the step was made, and gave no ending.
pub(crate) fn is_made(end: &Result<StepEnd, AllocError>) -> bool
    ensures { result ≡ is_went end.now }
{
    matches!(end, Ok(StepEnd::Went(_)))
}

/// The thread casts a reference to a class. A cast that was good before is good still, so that it is not tested again.
#[tactic(auto, using(crate::specs::CastLaws::casting))]
fn cast<M: Memory, C: Determined>(
    state: &mut State<M, C>,
    code: &Checked,
    casts: &mut GoodCasts,
    class: u32,
    scalar: Scalar,
    lists: &mut Lists,
) -> Result<StepEnd, AllocError>
    requires left { state.old.left ≡ true }
    requires room { state.old.steps < state.old.budget }
    requires class { class < length (graph_of code.now) }
    requires there { acting code.now state.old (acts.Casts class scalar) ≢ Stuck }
    requires casts { AreGood (bundle_tables code.now) state.old.objects casts.old }
    ensures ok { IfOk result (λ end. answers end state.new ≡ acting code.now state.old (acts.Casts class scalar)) }
    ensures err { OnErr result (state.new ≡ state.old) }
    ensures stays { IfOk result (λ end. Stays end state.old state.new) }
    ensures casts { AreGood (bundle_tables code.now) state.old.objects casts.new }
{
    let values = &mut lists.room.values;
    let out = &mut lists.out;
    if casts.has(class, scalar) {
        return state.give_scalar(code, scalar, values, out);
    }
    let end = state.cast(code, class, scalar, values, out);
    if is_made(&end) {
        casts.keep(class, scalar);
    }
    end
}

/// The thread does an act, whose values and classes stand in the room, and by which the client is not asked.
#[tactic(auto, using(run_state::specs::ActLaws::goes_is))]
fn perform<M: Memory, C: Determined>(
    state: &mut State<M, C>,
    code: &Checked,
    casts: &mut GoodCasts,
    act: Act,
    lists: &mut Lists,
) -> Result<StepEnd, AllocError>
    requires left { state.old.left ≡ true }
    requires room { state.old.steps < state.old.budget }
    requires narrow { AreNarrow (graph_of code.now) }
    requires plain { may_ask act ≡ false }
    requires waits { GoesOn state.old }
    requires classes { ActIsThere (graph_of code.now) (lists_of lists.old.room) act }
    requires there { acting code.now state.old (asked act (lists_of lists.old.room)) ≢ Stuck }
    requires casts { AreGood (bundle_tables code.now) state.old.objects casts.old }
    ensures ok { IfOk result (λ end. answers end state.new ≡ acting code.now state.old (asked act (lists_of lists.old.room))) }
    ensures err { OnErr result (state.new ≡ state.old) }
    ensures stays { IfOk result (λ end. Stays end state.old state.new) }
    ensures casts { AreGood (bundle_tables code.now) state.old.objects casts.new }
{
    let values = &mut lists.room.values;
    let out = &mut lists.out;
    match act {
        Act::Gives(scalar) => state.give_scalar(code, scalar, values, out),
        Act::GivesValues => state.give(code, values, out),
        Act::Faults(case) => state.refuse(code, case, out),
        Act::Goes { block } => Ok(state.go(block, values)),
        Act::Calls { function } => state.call(code, function, &mut lists.room),
        Act::Replaces { function } => Ok(state.call_in_place(code, function, values)),
        Act::Returns => state.give_back(code, &mut lists.room, out),
        Act::Throws(exception) => state.throw(code, exception, out),
        Act::Casts { class, scalar } => cast(state, code, casts, class, scalar, lists),
        Act::Finds { way, scalar } => state.find(code, way, scalar, values, out),
        Act::Makes { class } => state.make(code, class, Making::Object, values, out),
        Act::MakesHybrid { class, many } => {
            state.make(code, class, Making::Hybrid { many }, values, out)
        }
        Act::MakesOwn { class } => state.make(code, class, Making::Own, values, out),
        Act::Accesses { access, cell } => state.access(code, access, cell, values, out),
        Act::Fences(order) => state.fence(code, order, values, out),
        Act::Chooses {
            watchpoint,
            disabled,
            enabled,
        } => Ok(choose(state, code, watchpoint, disabled, enabled, &mut lists.room)),
        Act::Traps | Act::Watches { .. } => unreachable!(),
        Act::Swaps { .. }
        | Act::Leaves { .. }
        | Act::Starts { .. }
        | Act::MakesStack { .. }
        | Act::KillsStack { .. }
        | Act::Tells
        | Act::Exits
        | Act::SetsOwn(_)
        | Act::TellsOwn
        | Act::Waits { .. }
        | Act::Wakes { .. } => perform_rare(state, code, act, lists),
    }
}

/// The same of acts on stacks, threads and cells that threads wait at.
fn perform_rare<M: Memory, C: Determined>(
    state: &mut State<M, C>,
    code: &Checked,
    act: Act,
    lists: &mut Lists,
) -> Result<StepEnd, AllocError>
    requires left { state.old.left ≡ true }
    requires room { state.old.steps < state.old.budget }
    requires waits { GoesOn state.old }
    requires rare { is_rare act ≡ true }
    requires there { acting code.now state.old (asked act (lists_of lists.old.room)) ≢ Stuck }
    ensures ok { IfOk result (λ end. answers end state.new ≡ acting code.now state.old (asked act (lists_of lists.old.room))) }
    ensures err { OnErr result (state.new ≡ state.old) }
    ensures stays { IfOk result (λ end. Stays end state.old state.new) }
{
    let values = &mut lists.room.values;
    let out = &mut lists.out;
    match act {
        Act::Swaps { stack, entering } => swap(state, code, stack, entering, lists),
        Act::Leaves { stack, entering } => { leave_stack(state, code, stack, entering, lists) }
        Act::Starts {
            stack,
            own,
            entering,
        } => start_thread(state, code, stack, own, entering, lists),
        Act::Waits {
            timed,
            expected,
            cell,
        } => {
            let wait = CellWait {
                timed,
                expected,
                cell,
            };
            state.wait(code, wait, values, out)
        }
        Act::Wakes { many, cell } => wake(state, code, many, cell, values, out),
        Act::MakesStack { function } => { state.make_stack(code, function, values, out) }
        Act::KillsStack { stack } => { state.kill_stack(code, stack, values, out) }
        Act::Tells => state.tell_stack(code, values, out),
        Act::Exits => state.exit(code),
        Act::SetsOwn(own) => state.set_own(code, own, values, out),
        Act::TellsOwn => state.tell_own(code, values, out),
        _ => unreachable!(),
    }
}

/// What the thread's next instruction asks, with values and classes in the room.
#[tactic(auto, using(run_state::specs::StepLaws::running))]
pub(crate) fn asks<M: Memory, C: Determined>(
    state: &State<M, C>,
    code: &Checked,
    room: &mut Room,
) -> Result<Act, AllocError>
    requires waits { GoesOn state.now }
    requires there { stepping code.now state.now ≢ Stuck }
    ensures act { IfOk result (λ act. stepping code.now state.now ≡ acting code.now state.now (asked act (lists_of room.new))) }
    ensures asked { IfOk result (λ act. act_of code.now state.now ≡ Some (asked act (lists_of room.new))) }
    ensures classes { IfOk result (ActIsThere (graph_of code.now) (lists_of room.new)) }
{
    let _items = code.items();
    forms_are_there();
    let top = state.frames.top();
    let block = code.block(top.block);
    let form = &block.code.as_slice()[top.at as usize].form;
    decide(
        code,
        block.classes.as_slice(),
        &Variables::of(&top.slots),
        form,
        room,
    )
}

/// The thread does its next instruction.
#[tactic(auto, using(run_state::specs::StepLaws::told_plain, run_state::specs::Hand::told_there, trap_acts::specs::TrapLaws::trapped_asks, trap_acts::specs::TrapLaws::trap_asks))]
pub(crate) fn run<M: Memory, C: Determined>(
    state: &mut State<M, C>,
    code: &Checked,
    casts: &mut GoodCasts,
    lists: &mut Lists,
) -> Result<StepEnd, AllocError>
    requires left { state.old.left ≡ true }
    requires room { state.old.steps < state.old.budget }
    requires waits { GoesOn state.old }
    requires there { told C.way code.now state.old.client (stepping code.now state.old) ≢ Stuck }
    requires casts { AreGood (bundle_tables code.now) state.old.objects casts.old }
    ensures ok { IfOk result (λ end. answers end state.new ≡ told C.way code.now state.old.client (stepping code.now state.old)) }
    ensures err { OnErr result (state.new ≡ state.old) }
    ensures stays { IfOk result (λ end. Stays end state.old state.new) }
    ensures casts { AreGood (bundle_tables code.now) state.old.objects casts.new }
{
    let _items = code.items();
    widths_are_narrow();
    match asks(state, code, &mut lists.room)? {
        Act::Traps => trap(state, code, None, lists),
        Act::Watches { watchpoint, block } => { meet(state, code, watchpoint, block, lists) }
        act => perform(state, code, casts, act, lists),
    }
}
