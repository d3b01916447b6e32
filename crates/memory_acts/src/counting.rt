// How many options an access has to pick from.
ghost use Rattle.std.specs.Prelude.{◌≡◌, ◌+◌, ◌<◌, length, true};
ghost use Rattle.mem_axioms.specs.Objects.{HasCell, initial_of};
ghost use Rattle.mem_axioms.specs.Choices.{choices};
ghost use Rattle.mem_axioms.specs.EventFits.{is_thread};

use crate::accessing::wanted;
use mem_axioms::{Memory, Wanted};
use mu_base::Steps;
use mu_values::CellId;
use std::sync::ledger::{Blank, Ledger};

/// How many options a memory has for what a thread wants of a cell.
pub fn count_options<M: Memory, L: Ledger>(
    memory: &M,
    thread: u32,
    cell: CellId,
    wanted: Wanted,
    blank: Blank,
) -> u32
    requires name { blank.name ≡ L.name }
    requires parts { blank.parts ≡ L.parts }
    requires one { L.parts ≡ 1 }
    requires thread { is_thread (M.log memory.now) thread ≡ true }
    requires cell { HasCell (M.objects memory.now) cell }
    requires events { length (M.log memory.now) + 1 < 4294967295 }
    ensures { result ≡ length (choices (M.rule memory.now) (initial_of (M.objects memory.now)) (M.log memory.now) thread cell wanted) }
{
    let mut counter = Steps::<L>::new(blank);
    memory.options(thread, cell, &wanted, &mut counter)
}
