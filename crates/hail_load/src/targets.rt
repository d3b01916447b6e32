// The places that targets name.
ghost use Rattle.std.specs.Prelude.{◌≡◌, ◌+◌, ◌^◌, ◌<◌, Err, IfOk, slice_get};
ghost use Rattle.demands.specs.declared.fault.Fault.TheVariants.{At};
ghost use Rattle.name_scopes.specs.Names.{found};
ghost use Rattle.hail_load.specs.Code.{code_of};
ghost use Rattle.hail_load.specs.Parts.{size_of, made_spot, typed_spot, global_spot, root_spot, target_spot};
ghost use Rattle.hail_load.specs.Fitting.{next_indexes};
ghost use Rattle.typed_heap.specs.Heap.{cells_of};
ghost use Rattle.hail_load.specs.Known.{IsKnown};
ghost use Rattle.hail_load.specs.Rooms.{AreRoomy};
ghost use Rattle.hail_load.specs.Answering.{Tells, IsThere, AreThere};

use crate::fault::{LoadFault, LoadKind};
use crate::indexes::{indexed, indexed_by};
use crate::parts::{Made, Part, Spot};
use crate::tree::{Index, Piece, Root};
use bundle_names::Sort;
use checked_code::Checked;
use ir_lex::Name;
use name_scopes::Scope;
use typed_heap::Heap;

/// Nothing of the kind has the name.
fn wrong_type(name: &Name) -> Result<Spot, LoadFault>
    ensures { result ≡ Err (At LoadKind.WrongType name.now.place) }
{
    Err(LoadFault::At {
        kind: LoadKind::WrongType,
        place: name.place,
    })
}

/// An object of the script.
fn made_spot(made: &Scope<Made>, name: &Name) -> Result<Spot, LoadFault>
    ensures { result ≡ made_spot name.now (found made.now name.now.text) }
{
    match made.find(name.text.as_slice()) {
        None => wrong_type(name),
        Some(made) => Ok(Spot {
            object: made.object,
            at: 0,
            part: made.part,
        }),
    }
}

/// A global by its number.
fn typed_spot(code: &Checked, name: &Name, global: u32) -> Result<Spot, LoadFault>
    ensures { result ≡ typed_spot name.now global (slice_get (code_of code.now).globals global) }
{
    if global < code.globals() {
        Ok(Spot {
            object: global,
            at: 0,
            part: Part::Value(code.global_type(global)),
        })
    } else {
        wrong_type(name)
    }
}

/// A global.
fn global_spot(code: &Checked, name: &Name) -> Result<Spot, LoadFault>
    ensures { result ≡ global_spot (code_of code.now).globals name.now (found (code_of code.now).names name.now.text) }
{
    match code.tables().globals.names.find(name.text.as_slice()) {
        Some(Sort::GlobalCell(global)) => typed_spot(code, name, *global),
        _ => wrong_type(name),
    }
}

/// What a target begins with.
fn root_spot(code: &Checked, made: &Scope<Made>, root: &Root) -> Result<Spot, LoadFault>
    ensures { result ≡ root_spot (code_of code.now) made.now root.now }
{
    match root {
        Root::Object(name) => made_spot(made, name),
        Root::Global(name) => global_spot(code, name),
    }
}

/// No object has more cells than a number of 32 bits tells. It does nothing.
fn tell_cells(heap: &Heap, object: u32)
    ensures { cells_of (slice_get heap.now.objects object) < 2 ^ 32 }
{
    if object < heap.objects() {
        let _cells = heap.size(object);
    }
}

/// What a target begins with. Its cells stand in its object.
fn found_root(
    code: &Checked,
    heap: &Heap,
    made: &Scope<Made>,
    root: &Root,
) -> Result<Spot, LoadFault>
    requires known { IsKnown (code_of code.now) }
    requires made { AreThere (code_of code.now).graph made.now }
    requires roomy { AreRoomy (code_of code.now) heap.now.objects made.now }
    ensures is { result ≡ root_spot (code_of code.now) made.now root.now }
    ensures part { IfOk result (λ s. IsThere (code_of code.now).graph s.part) }
    ensures room { IfOk result (λ s. s.at + size_of (code_of code.now).graph s.part < 2 ^ 32) }
{
    match root_spot(code, made, root) {
        Ok(spot) => {
            tell_cells(heap, spot.object);
            Ok(spot)
        }
        Err(fault) => Err(fault),
    }
}

/// The place of a target. It takes the time of one hash, and for each index time for the fields before its part.
pub(crate) fn target_spot(
    code: &Checked,
    heap: &Heap,
    made: &Scope<Made>,
    root: &Root,
    indexes: &[Index],
) -> Result<Spot, LoadFault>
    requires known { IsKnown (code_of code.now) }
    requires made { AreThere (code_of code.now).graph made.now }
    requires roomy { AreRoomy (code_of code.now) heap.now.objects made.now }
    ensures told { Tells (target_spot (code_of code.now) made.now root.now indexes.now) result }
    ensures part { IfOk result (λ s. IsThere (code_of code.now).graph s.part) }
{
    let spot = found_root(code, heap, made, root)?;
    indexed(code.classes(), spot, indexes)
}

/// The place of a target whose indexes stand at the head of some pieces.
pub(crate) fn reference_spot(
    code: &Checked,
    heap: &Heap,
    made: &Scope<Made>,
    root: &Root,
    pieces: &[Piece],
) -> Result<Spot, LoadFault>
    requires known { IsKnown (code_of code.now) }
    requires made { AreThere (code_of code.now).graph made.now }
    requires roomy { AreRoomy (code_of code.now) heap.now.objects made.now }
    ensures { Tells (target_spot (code_of code.now) made.now root.now (next_indexes pieces.now)) result }
{
    let spot = found_root(code, heap, made, root)?;
    indexed_by(code.classes(), spot, pieces)
}
