// Waits at a cell: the read that decides, and what the thread gets.
ghost use Rattle.std.specs.Prelude.{◌≡◌, ◌+◌, ◌<◌, [], ◌∷◌, Some, OnOk, length, slice_get, true};
ghost use Rattle.mu_base.specs.declared.order.Order.TheVariants.{Relaxed};
ghost use Rattle.mu_values.specs.declared.scalars.Scalar.TheVariants.{Int};
ghost use Rattle.mem_axioms.specs.declared.types.Wanted.TheVariants.{Load};
ghost use Rattle.mem_axioms.specs.Objects.{HasCell, initial_of};
ghost use Rattle.mem_axioms.specs.Choices.{choices};
ghost use Rattle.mem_axioms.specs.EventFits.{is_thread};

use mem_axioms::{Chosen, Memory, Wanted};
use mu_base::{Order, Steps};
use mu_values::{CellId, Scalar, Slots};
use std::alloc::AllocError;
use std::sync::ledger::{Blank, Ledger};

/// A wait at a cell.
#[derive(Clone, Copy, Debug, PartialEq, Eq)]
pub struct CellWait {
    /// Whether it has a limit.
    pub timed: bool,
    /// The value that the cell is to hold, else the thread does not wait.
    pub expected: Scalar,
    /// Where it waits.
    pub cell: CellId,
}

/// One result, an integer of 32 bits with these bits, in place of what the list held. It is refused only when out of memory; then the result
/// may be missing.
pub fn tell(bits: u128, values: &mut Slots) -> Result<(), AllocError>
    ensures { OnOk result (values.new.values ≡ (Int 32 bits ∷ []) ∷ []) }
{
    values.clear();
    values.push_scalar(Scalar::Int { width: 32, bits })
}

/// The newest position that a relaxed load of a cell may read.
pub fn newest<M: Memory, L: Ledger>(memory: &M, thread: u32, cell: CellId, blank: Blank) -> Chosen
    requires name { blank.name ≡ L.name }
    requires parts { blank.parts ≡ L.parts }
    requires one { L.parts ≡ 1 }
    requires thread { is_thread (M.log memory.now) thread ≡ true }
    requires cell { HasCell (M.objects memory.now) cell }
    requires events { length (M.log memory.now) + 1 < 4294967295 }
    ensures { slice_get (choices (M.rule memory.now) (initial_of (M.objects memory.now)) (M.log memory.now) thread cell (Load Relaxed)) 0 ≡ Some result }
{
    let mut counter = Steps::<L>::new(blank);
    let wanted = Wanted::Load {
        order: Order::Relaxed,
    };
    let _many = memory.options(thread, cell, &wanted, &mut counter);
    memory.choose(thread, cell, &wanted, 0, &mut counter)
}
