// Fills the heap of a run by a script.
ghost use Rattle.std.specs.Prelude.{IfOk};
ghost use Rattle.mu_texts.specs.Answer.{loaded, filled_part};
ghost use Rattle.mu_texts.specs.Comes.{Fills, IsFilled};

use crate::judging::{read_heap_script, refused};
use crate::refusals::load_fault_name;
use crate::stop::Stop;
use crate::what::What;
use checked_code::Checked;
use demands::Fault;
use hail_load::{Hail, load_hail};
use loaded_programs::{cells_are_counted, scripts_begin_with_globals};
use run_start::first_heap;
use std::alloc::Global;
use typed_heap::Heap;

// What a script makes, behind the objects of the globals.
fn fill(alloc: Global, hail: &Hail, code: &Checked, cells: u32) -> Result<Heap, Stop>
    ensures fills { Fills (filled_part code.now cells hail.now) result }
    ensures filled { IfOk result (IsFilled code.now cells) }
{
    let _items = code.items();
    scripts_begin_with_globals();
    cells_are_counted();
    let mut heap = first_heap(alloc, code, cells)?;
    match load_hail(alloc, hail, code, &mut heap) {
        Ok(()) => Ok(heap),
        Err(Fault::Memory) => Err(Stop::Memory),
        Err(Fault::At { kind, place }) => Err(refused(
            alloc,
            What::Hail,
            place,
            load_fault_name(kind),
        )?),
    }
}

/// The heap that a run begins with: the objects of the globals, and those that the script of a text makes, of so many cells at most.
#[tactic(auto, using(crate::proofs::Heaps::heaps))]
pub fn judge_heap_script(
    alloc: Global,
    bytes: &[u8],
    code: &Checked,
    cells: u32,
) -> Result<Heap, Stop>
    ensures asked { Fills (loaded code.now cells bytes.now) result }
    ensures filled { IfOk result (IsFilled code.now cells) }
{
    let hail = read_heap_script(alloc, bytes, code)?;
    fill(alloc, &hail, code, cells)
}
