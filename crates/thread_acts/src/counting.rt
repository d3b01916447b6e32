// How many options an access has to pick from.
ghost use Rattle.std.specs.Prelude.{◌≡◌, IsSome, length, true};
ghost use Rattle.mu_values.specs.declared.scalars.Scalar.TheVariants as scalars;
ghost use Rattle.typed_heap.specs.Places.{cell_of};
ghost use Rattle.mem_axioms.specs.Objects.{HasCell};
ghost use Rattle.step_forms.specs.Asked.{access_of};
ghost use Rattle.run_state.specs.Remembering.{initials};
ghost use Rattle.memory_acts.specs.Accessing.{options_of};
ghost use Rattle.memory_acts.specs.Counting.{cell_count};

use crate::state::State;
use client_hooks::Determined;
use mem_axioms::Memory;
use memory_acts::accessing::wanted;
use memory_acts::counting::count_options;
use mu_values::CellId;
use std::marker::Brand;
use std::sync::ledger::Blank;
use step_forms::Access;

impl<M: Memory, C: Determined> State<M, C> {
    /// How many options the thread's access of a cell has; 1 where the cell is not there.
    pub fn options(&self, access: Access, cell: CellId) -> u32
        requires left { self.now.left ≡ true }
        requires there { IsSome (cell_of self.now.objects (scalars.Place cell.object cell.at)) }
        ensures { result ≡ cell_count self.now (access_of access) (cell_of self.now.objects (scalars.Place cell.object cell.at)) }
    {
        match self.cell_there(cell) {
            Ok(cell) => self.cell_options(access, cell),
            Err(_fault) => 1,
        }
    }

    /// The same where the cell is there.
    fn cell_options(&self, access: Access, cell: CellId) -> u32
        requires left { self.now.left ≡ true }
        requires cell { HasCell (initials self.now.objects) cell }
        ensures { result ≡ length (options_of self.now (access_of access) cell) }
    {
        count_options::<M, Brand>(
            &self.memory,
            self.thread,
            cell,
            wanted(access),
            Blank::new(1),
        )
    }
}
