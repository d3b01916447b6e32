// Traps and watchpoints: the client is asked, and its answer is taken.
ghost use Rattle.std.specs.Prelude.{◌≡◌, ◌≢◌, ◌<◌, ◌∷◌, [], IfOk, OnErr, fold, length, map, option_map, true};
ghost use Rattle.std.specs.List.{All};
ghost use Rattle.typed_heap.specs.Heap.{AreNarrow};
ghost use Rattle.mem_axioms.specs.declared.types.Kind.TheVariants as kinds;
ghost use Rattle.mu_model.specs.declared.lines.Line.TheVariants as written;
ghost use Rattle.mu_model.specs.declared.endings.Case.TheVariants as cases;
ghost use Rattle.mu_model.specs.Acts as acts;
ghost use Rattle.mu_model.specs.Changes.{event};
ghost use Rattle.mu_model.specs.Outcomes as outcomes;
ghost use Rattle.mu_model.specs.Outcomes.{Stuck};
ghost use Rattle.mu_model.specs.Traps.{watch};
ghost use Rattle.client_hooks.specs.Plans.{planned, end_planned};
ghost use Rattle.client_hooks.specs.Replies.{edit_of};
ghost use Rattle.run_state.specs.Held.{Held};
ghost use Rattle.run_state.specs.Outcome.{Stays};
ghost use Rattle.run_state.specs.Acting.{answers, acting, told, trapping, undefined_at};
ghost use Rattle.object_acts.specs.Making.{graph_of};
ghost use Rattle.trap_acts.specs.Trapping.{seen, note_of, answering, past, change_by};

use crate::editing::refusal;
use crate::replying::{Trapped, reply};
use checked_code::Checked;
use client_hooks::{Determined, End, Notes, Plan, TrapView};
use mem_axioms::{Event, Kind, Memory};
use mu_model::{Case, Note, StepEnd};
use run_state::waiting::{Wait, exchange_on_top, waiting_for};
use stack_moves::lists::Lists;
use stack_moves::moving::copied;
use std::alloc::AllocError;
use step_forms::Room;
use thread_acts::state::State;
use trap_answers::{ask, trap_lines};

/// The record of a trap at the thread's instruction, or of the watchpoint there.
fn trap_note<M: Memory, C: Determined>(state: &State<M, C>, watchpoint: Option<u32>) -> Note
    ensures { result ≡ note_of state.now watchpoint }
{
    let top = state.frames.top();
    let (thread, block, at) = (state.thread, top.block, top.at);
    match watchpoint {
        None => Note::Trap { thread, block, at },
        Some(watchpoint) => Note::Watchpoint {
            thread,
            block,
            at,
            watchpoint,
        },
    }
}

/// The client is asked for values of the classes in the room, at a watchpoint where there is one. Where no memory is found the state is as
/// before; the lists may have changed.
#[tactic(auto, using(crate::specs::TrapLaws::asking))]
pub fn trap<M: Memory, C: Determined>(
    state: &mut State<M, C>,
    code: &Checked,
    watchpoint: Option<u32>,
    lists: &mut Lists,
) -> Result<StepEnd, AllocError>
    requires left { state.old.left ≡ true }
    requires room { state.old.steps < state.old.budget }
    requires narrow { AreNarrow (graph_of code.now) }
    requires classes { All (λ c. c < length (graph_of code.now)) lists.old.room.waits.members }
    requires there { told C.way code.now state.old.client (trapping code.now state.old watchpoint lists.old.room.waits.members) ≢ Stuck }
    ensures ok { IfOk result (λ end. answers end state.new ≡ told C.way code.now state.old.client (trapping code.now state.old watchpoint lists.old.room.waits.members)) }
    ensures err { OnErr result (state.new ≡ state.old) }
    ensures stays { IfOk result (λ end. Stays end state.old state.new) }
{
    let _items = code.items();
    let asked = copied(state.alloc, &lists.room.waits)?;
    let awaited = copied(state.alloc, &lists.room.waits)?;
    let mut wait = waiting_for(state.alloc, code, state.frames.top(), awaited)?;
    let view = TrapView::new(state.alloc, code.tables(), state.thread, watchpoint, asked)?;
    let note = trap_note(state, watchpoint);
    match consult(state, &view, &mut wait)? {
        None => misuse(state, note),
        Some(plan) => take(state, code, plan, note, wait, lists),
    }
}

/// The client's answer where the thread's top frame waits so; None is misuse. Nothing changes.
fn consult<M: Memory, C: Determined>(
    state: &mut State<M, C>,
    view: &TrapView,
    wait: &mut Wait,
) -> Result<Option<Plan>, AllocError>
    requires left { state.old.left ≡ true }
    requires thread { view.now.thread ≡ state.old.thread }
    requires asked { view.now.asked ≡ wait.old.waits }
    ensures answer { IfOk result (λ plan. option_map planned plan ≡ C.way.answer view.now.tables (seen state.old view.now.watchpoint wait.old) state.old.client) }
    ensures same { state.new ≡ state.old }
    ensures wait { wait.new ≡ wait.old }
{
    exchange_on_top(&mut state.frames, wait);
    state
        .seats
        .exchange(state.thread, state.stack, &mut state.frames);
    let answer = ask(
        state.alloc,
        &state.client,
        view,
        &mut state.seats,
        state.stack,
    );
    state
        .seats
        .exchange(state.thread, state.stack, &mut state.frames);
    exchange_on_top(&mut state.frames, wait);
    answer
}

/// The answer is misuse: the run ends, and nothing of it is recorded.
fn misuse<M: Memory, C: Determined>(state: &State<M, C>, note: Note) -> Result<StepEnd, AllocError>
    ensures is { IfOk result (λ end. (s : Held) → answers end s ≡ outcomes.End (written.Event (length state.now.log) (event state.now.thread (kinds.Leave state.now.stack)) ∷ written.Note note ∷ []) (undefined_at state.now cases.ClientMisuse)) }
    ensures stays { IfOk result (λ end. Stays end state.now state.now) }
{
    let leave = Event {
        thread: state.thread,
        kind: Kind::Leave { stack: state.stack },
    };
    let lines = trap_lines(
        state.alloc,
        state.events,
        leave,
        note,
        Notes::new(state.alloc),
    )?;
    Ok(StepEnd::Ended(lines, state.case_ending(Case::ClientMisuse)))
}

/// The answer is taken: its records and watches, then its edit, and then its reply.
fn take<M: Memory, C: Determined>(
    state: &mut State<M, C>,
    code: &Checked,
    plan: Plan,
    note: Note,
    wait: Wait,
    lists: &mut Lists,
) -> Result<StepEnd, AllocError>
    requires left { state.old.left ≡ true }
    requires room { state.old.steps < state.old.budget }
    requires there { answering code.now state.old wait (edit_of plan.edit) (record { watched = fold watch state.old.watched plan.watches; lines = written.Event (length state.old.log) (event state.old.thread (kinds.Leave state.old.stack)) ∷ written.Note note ∷ map written.Note plan.notes }) (end_planned plan.end) ≢ Stuck }
    ensures ok { IfOk result (λ end. answers end state.new ≡ past C.way state.old (answering code.now state.old wait (edit_of plan.edit) (record { watched = fold watch state.old.watched plan.watches; lines = written.Event (length state.old.log) (event state.old.thread (kinds.Leave state.old.stack)) ∷ written.Note note ∷ map written.Note plan.notes }) (end_planned plan.end))) }
    ensures err { OnErr result (state.new ≡ state.old) }
    ensures stays { IfOk result (λ end. Stays end state.old state.new) }
{
    let Plan {
        notes,
        watches,
        edit,
        end,
    } = plan;
    let leave = Event {
        thread: state.thread,
        kind: Kind::Leave { stack: state.stack },
    };
    let trapped = Trapped {
        wait,
        edit,
        watches,
        lines: trap_lines(state.alloc, state.events, leave, note, notes)?,
    };
    edit_and_reply(state, code, end, trapped, lists)
}

/// The same, once the records and watches are taken.
#[tactic(auto, using(crate::specs::TrapLaws::editing))]
fn edit_and_reply<M: Memory, C: Determined>(
    state: &mut State<M, C>,
    code: &Checked,
    end: End,
    mut trapped: Trapped,
    lists: &mut Lists,
) -> Result<StepEnd, AllocError>
    requires left { state.old.left ≡ true }
    requires room { state.old.steps < state.old.budget }
    requires there { answering code.now state.old trapped.wait (edit_of trapped.edit) (change_by state.old trapped) (end_planned end) ≢ Stuck }
    ensures ok { IfOk result (λ e. answers e state.new ≡ past C.way state.old (answering code.now state.old trapped.wait (edit_of trapped.edit) (change_by state.old trapped) (end_planned end))) }
    ensures err { OnErr result (state.new ≡ state.old) }
    ensures stays { IfOk result (λ end. Stays end state.old state.new) }
{
    match refusal(state, code, trapped.edit, &mut trapped.wait) {
        Some(case) => Ok(StepEnd::Ended(trapped.lines, state.case_ending(case))),
        None => reply(state, code, end, trapped, lists),
    }
}

/// The thread stands at a watchpoint: where that is enabled the client is asked, and else the thread goes to a block. Where no memory is
/// found the state is as before; the lists may have changed.
#[tactic(auto, using(crate::specs::TrapLaws::meeting))]
pub fn meet<M: Memory, C: Determined>(
    state: &mut State<M, C>,
    code: &Checked,
    watchpoint: u32,
    block: u32,
    lists: &mut Lists,
) -> Result<StepEnd, AllocError>
    requires left { state.old.left ≡ true }
    requires room { state.old.steps < state.old.budget }
    requires narrow { AreNarrow (graph_of code.now) }
    requires classes { All (λ c. c < length (graph_of code.now)) lists.old.room.waits.members }
    requires there { told C.way code.now state.old.client (acting code.now state.old (acts.Watches watchpoint lists.old.room.waits.members (record { block = block; values = lists.old.room.values.values }))) ≢ Stuck }
    ensures ok { IfOk result (λ end. answers end state.new ≡ told C.way code.now state.old.client (acting code.now state.old (acts.Watches watchpoint lists.old.room.waits.members (record { block = block; values = lists.old.room.values.values })))) }
    ensures err { OnErr result (state.new ≡ state.old) }
    ensures stays { IfOk result (λ end. Stays end state.old state.new) }
{
    if state.watched.contains(watchpoint) {
        trap(state, code, Some(watchpoint), lists)
    } else {
        Ok(state.go(block, &mut lists.room.values))
    }
}

/// The thread goes one way where a watchpoint is disabled, and else another one.
#[tactic(auto, using(crate::specs::TrapLaws::choosing))]
pub fn choose<M: Memory, C: Determined>(
    state: &mut State<M, C>,
    code: &Checked,
    watchpoint: u32,
    disabled: u32,
    enabled: u32,
    room: &mut Room,
) -> StepEnd
    requires left { state.old.left ≡ true }
    requires room { state.old.steps < state.old.budget }
    requires there { acting code.now state.old (acts.Chooses watchpoint (record { block = disabled; values = room.old.values.values }) (record { block = enabled; values = room.old.others.values })) ≢ Stuck }
    ensures on { answers result state.new ≡ acting code.now state.old (acts.Chooses watchpoint (record { block = disabled; values = room.old.values.values }) (record { block = enabled; values = room.old.others.values })) }
    ensures end { Stays result state.old state.new }
{
    if state.watched.contains(watchpoint) {
        state.go(enabled, &mut room.others)
    } else {
        state.go(disabled, &mut room.values)
    }
}
