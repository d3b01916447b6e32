// The events of a thread's moves.
ghost use Rattle.std.specs.Prelude.{◌≡◌, ◌+◌, ◌<◌, ◌++◌, Some, OnOk, length, map, slice_get, true};
ghost use Rattle.mem_axioms.specs.Objects.{HasCell, initial_of};
ghost use Rattle.mem_axioms.specs.Choices.{choices};
ghost use Rattle.mem_axioms.specs.EventFits.{is_thread};
ghost use Rattle.step_forms.specs.Asked.{access_of};
ghost use Rattle.run_state.specs.Remembering.{initials};
ghost use Rattle.memory_acts.specs.Accessing.{options_of};
ghost use Rattle.move_acts.specs.MoveEvents.{AreThere, OptionLogs, logs_of};

use client_hooks::Determined;
use mem_axioms::{Chosen, Event, Memory};
use memory_acts::accessing::{Asked, kind_of, wanted};
use memory_acts::counting::count_options;
use mu_base::Steps;
use mu_values::CellId;
use std::alloc::AllocError;
use std::marker::Brand;
use std::sync::ledger::{Blank, Ledger};
use step_forms::Access;
use thread_acts::state::State;

/// Option `n` of what is asked of a memory.
fn option_at<M: Memory, L: Ledger>(memory: &M, asked: Asked, n: u32, blank: Blank) -> Chosen
    requires name { blank.name ≡ L.name }
    requires parts { blank.parts ≡ L.parts }
    requires one { L.parts ≡ 1 }
    requires thread { is_thread (M.log memory.now) asked.thread ≡ true }
    requires cell { HasCell (M.objects memory.now) asked.cell }
    requires events { length (M.log memory.now) + 1 < 4294967295 }
    requires n { n < length (choices (M.rule memory.now) (initial_of (M.objects memory.now)) (M.log memory.now) asked.thread asked.cell asked.wanted) }
    ensures { slice_get (choices (M.rule memory.now) (initial_of (M.objects memory.now)) (M.log memory.now) asked.thread asked.cell asked.wanted) n ≡ Some result }
{
    let mut counter = Steps::<L>::new(blank);
    memory.choose(asked.thread, asked.cell, &asked.wanted, n, &mut counter)
}

/// What is logged of option `n` of the thread's access of a cell that is there.
fn option_event<M: Memory, C: Determined>(
    state: &State<M, C>,
    access: Access,
    cell: CellId,
    n: u32,
) -> Event
    requires left { state.now.left ≡ true }
    requires cell { HasCell (initials state.now.objects) cell }
    requires there { AreThere state.now (access_of access) cell }
    requires n { n < length (options_of state.now (access_of access) cell) }
    ensures { OptionLogs state.now (access_of access) cell n result }
{
    let asked = Asked {
        thread: state.thread,
        cell,
        wanted: wanted(access),
    };
    let chosen = option_at::<M, Brand>(&state.memory, asked, n, Blank::new(1));
    Event {
        thread: state.thread,
        kind: kind_of(access, cell, chosen),
    }
}

/// Adds the event of each option of the thread's access of a cell that is there.
pub fn option_events<M: Memory, C: Determined>(
    state: &State<M, C>,
    access: Access,
    cell: CellId,
    events: &mut Vec<Event>,
) -> Result<(), AllocError>
    requires left { state.now.left ≡ true }
    requires cell { HasCell (initials state.now.objects) cell }
    requires there { AreThere state.now (access_of access) cell }
    ensures { OnOk result (map Some events.new.items ≡ map Some events.old.items ++ map (logs_of state.now (access_of access) cell) (options_of state.now (access_of access) cell)) }
{
    let many = count_options::<M, Brand>(
        &state.memory,
        state.thread,
        cell,
        wanted(access),
        Blank::new(1),
    );
    for n in 0..many {
        let event = option_event(state, access, cell, n);
        events.push(event)?;
    }
    Ok(())
}
