// Cells and places that are found, and references that are cast.
ghost use Rattle.std.specs.Prelude.{◌≡◌, ◌≢◌, ◌<◌, IsSome, Some, IfOk, OnErr, length, true};
ghost use Rattle.mu_values.specs.declared.scalars.Scalar.TheVariants as scalars;
ghost use Rattle.typed_heap.specs.Places.{cell_of};
ghost use Rattle.mem_axioms.specs.Objects.{HasCell};
ghost use Rattle.mu_model.specs.Acts as acts;
ghost use Rattle.mu_model.specs.Outcomes.{Stuck};
ghost use Rattle.step_forms.specs.Asked.{way_of};
ghost use Rattle.step_forms.specs.Classes.{class_of_way};
ghost use Rattle.run_state.specs.Outcome.{Stays};
ghost use Rattle.run_state.specs.Acting.{answers, acting};
ghost use Rattle.object_acts.specs.Making.{graph_of, tells};
ghost use Rattle.run_state.specs.Remembering.{initials};

use crate::state::State;
use checked_code::Checked;
use client_hooks::Determined;
use mem_axioms::Memory;
use mu_model::StepEnd;
use mu_values::{CellId, Scalar, Slots};
use object_acts::finding::{case_of, cast, found};
use std::alloc::AllocError;
use step_forms::Way;
use typed_heap::{PlaceFault, what_is_found_fits};

impl<M: Memory, C: Determined> State<M, C> {
    /// A cell, where it is there and is not dead; else the fault of its place.
    pub fn cell_there(&self, cell: CellId) -> Result<CellId, PlaceFault>
        requires { IsSome (cell_of self.now.objects (scalars.Place cell.object cell.at)) }
        ensures found { cell_of self.now.objects (scalars.Place cell.object cell.at) ≡ Some result }
        ensures there { IfOk result (λ cell. HasCell (initials self.now.objects) cell) }
    {
        what_is_found_fits();
        let place = Scalar::Place {
            object: cell.object,
            at: cell.at,
        };
        match self.heap.cell_of(place) {
            Ok(cell) => {
                let _cells = self.heap.size(cell.object);
                Ok(cell)
            }
            Err(fault) => Err(fault),
        }
    }

    /// The thread's instruction has what was found for its result, or meets the case of the fault. Where no memory is found the state is as
    /// before; the lists may have changed.
    fn tell(
        &mut self,
        code: &Checked,
        found: Result<Scalar, PlaceFault>,
        values: &mut Slots,
        out: &mut Slots,
    ) -> Result<StepEnd, AllocError>
        requires left { self.old.left ≡ true }
        requires room { self.old.steps < self.old.budget }
        requires there { tells code.now self.old found ≢ Stuck }
        ensures ok { IfOk result (λ end. answers end self.new ≡ tells code.now self.old found) }
        ensures err { OnErr result (self.new ≡ self.old) }
        ensures stays { IfOk result (λ end. Stays end self.old self.new) }
    {
        match found {
            Ok(scalar) => self.give_scalar(code, scalar, values, out),
            Err(fault) => self.refuse(code, case_of(fault), out),
        }
    }

    /// The thread finds a place from another. Where no memory is found the state is as before; the lists may have changed.
    #[tactic(auto, using(object_acts::specs::ObjectLaws::finding))]
    pub fn find(
        &mut self,
        code: &Checked,
        way: Way,
        scalar: Scalar,
        values: &mut Slots,
        out: &mut Slots,
    ) -> Result<StepEnd, AllocError>
        requires left { self.old.left ≡ true }
        requires room { self.old.steps < self.old.budget }
        requires class { class_of_way way < length (graph_of code.now) }
        requires there { acting code.now self.old (acts.Finds (way_of way) scalar) ≢ Stuck }
        ensures ok { IfOk result (λ end. answers end self.new ≡ acting code.now self.old (acts.Finds (way_of way) scalar)) }
        ensures err { OnErr result (self.new ≡ self.old) }
        ensures stays { IfOk result (λ end. Stays end self.old self.new) }
    {
        let found = found(&self.heap, code, way, scalar);
        self.tell(code, found, values, out)
    }

    /// The thread casts a reference to a class. Where no memory is found the state is as before; the lists may have changed.
    #[tactic(auto, using(object_acts::specs::ObjectLaws::casting))]
    pub fn cast(
        &mut self,
        code: &Checked,
        class: u32,
        scalar: Scalar,
        values: &mut Slots,
        out: &mut Slots,
    ) -> Result<StepEnd, AllocError>
        requires left { self.old.left ≡ true }
        requires room { self.old.steps < self.old.budget }
        requires class { class < length (graph_of code.now) }
        requires there { acting code.now self.old (acts.Casts class scalar) ≢ Stuck }
        ensures ok { IfOk result (λ end. answers end self.new ≡ acting code.now self.old (acts.Casts class scalar)) }
        ensures err { OnErr result (self.new ≡ self.old) }
        ensures stays { IfOk result (λ end. Stays end self.old self.new) }
    {
        let cast = cast(&self.heap, code, class, scalar);
        self.tell(code, cast, values, out)
    }
}
