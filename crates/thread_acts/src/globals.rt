// The first state of a run.
ghost use Rattle.std.specs.Prelude.{◌≡◌, ℕ, ◌≤◌, [], IsSome, IsSomeAnd, Some, IfOk};
ghost use Rattle.checked_code.specs.Checking.{bundle_tables};
ghost use Rattle.mu_model.specs.Run.{cells_left};
ghost use Rattle.model_numbers.specs.Numbered.{numbered};
ghost use Rattle.run_state.specs.Held.{configuration};
ghost use Rattle.run_start.specs.Starting.{starting};

use crate::state::State;
use checked_code::Checked;
use client_hooks::Determined;
use mem_axioms::Memory;
use object_acts::making::remember_all;
use run_start::globals::{RunInputs, first_block, first_frames};
use seats::Seats;
use std::alloc::{AllocError, Global};
use trap_answers::Watched;

impl<M: Memory + Drop, C: Determined + Drop> State<M, C> {
    /// Thread 0 on stack 0, in that function, with the objects of a heap, of which the memory is told. Where no memory is found nothing is
    /// left of what the run was to begin with.
    #[tactic(auto, using(run_start::specs::Starting::starts, run_start::specs::Starting::first_sound))]
    pub fn start(
        alloc: Global,
        code: &Checked,
        entry: u32,
        inputs: RunInputs<M, C>,
    ) -> Result<State<M, C>, AllocError>
        requires log { M.log inputs.memory ≡ [] }
        requires objects { M.objects inputs.memory ≡ [] }
        requires budget { inputs.budget ≤ 1000000 }
        requires there { IsSomeAnd ((numbered code.now).body entry) IsSome }
        ensures whole { IfOk result (λ state. state.skip ≡ 0) }
        ensures first { IfOk result (λ state. (cells : ℕ) → inputs.heap.left ≡ cells_left (bundle_tables code.now) cells inputs.heap.objects
            → starting code.now (record { objects = inputs.heap.objects; client = C.stands_for inputs.client; picks = inputs.picks; cells = cells; budget = inputs.budget; rule = M.rule inputs.memory }) entry ≡ Some (configuration state)) }
    {
        let RunInputs {
            heap,
            mut memory,
            client,
            picks,
            budget,
        } = inputs;
        let block = first_block(code, entry);
        remember_all(alloc, &heap, &mut memory)?;
        let hand = first_frames(alloc, block)?;
        let first = first_frames(alloc, block)?;
        let seats = Seats::new(alloc, first)?;
        Ok(State {
            alloc,
            thread: 0,
            stack: 0,
            frames: hand,
            left: false,
            seats,
            heap,
            memory,
            watched: Watched::new(alloc),
            client,
            picks,
            skip: 0,
            events: 0,
            steps: 0,
            budget,
        })
    }
}
